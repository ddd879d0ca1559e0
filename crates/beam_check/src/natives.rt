//! Natives that instructions call.
ghost use Rattle.std.specs.Prelude.{◌≡◌};
ghost use Rattle.std.specs.List.{list_all, zip};
ghost use Rattle.beam_model.specs.Opcodes.{kinds_of};
ghost use Rattle.beam_model.specs.Loadable.{is_native, is_known, all_operands, are_natives_known};

use beam_bif::built_in::built_in_of;
use beam_genop::kinds;
use beam_model::instruction::{Instruction, Operand};
use beam_model::listing::Listing;
use beam_model::opcode::Kind;

fn is_native(arity: u32, operand: &Operand) -> bool
    ensures { result ≡ is_native arity operand.now }
{
    match operand {
        Operand::Import(import) => built_in_of(import).is_some() && import.arity == arity,
        _ => false,
    }
}

pub fn is_known(kind: Kind, operand: &Operand) -> bool
    ensures { result ≡ is_known kind operand.now }
{
    match kind {
        Kind::Native(arity) => is_native(arity, operand),
        _ => true,
    }
}

fn are_pairs_known(kinds: &[Kind], operands: &[Operand]) -> bool
    ensures { result ≡ list_all (λ p. is_known p.0 p.1) (zip kinds.now operands.now) }
{
    kinds
        .iter()
        .zip(operands)
        .all(|(kind, operand)| is_known(*kind, operand))
}

fn are_operands_known(kinds: &[Kind], operands: &[Operand]) -> bool
    ensures { result ≡ all_operands is_known kinds.now operands.now }
{
    kinds.len() == operands.len() && are_pairs_known(kinds, operands)
}

fn are_known(instructions: &[Instruction]) -> bool
    ensures { result ≡ list_all (λ i. all_operands is_known (kinds_of i.opcode) i.operands) instructions.now }
{
    instructions.iter().all(|i| are_operands_known(kinds(i.opcode), i.operands.as_slice()))
}

/// Whether each native of an instruction is one that instructions may call.
pub fn are_natives_known(listing: &Listing) -> bool
    ensures { result ≡ are_natives_known listing.now }
{
    are_known(&listing.instructions)
}
