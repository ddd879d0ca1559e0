//! Kinds of operands, and limits of registers and arities.
ghost use Rattle.std.specs.Prelude.{◌≡◌};
ghost use Rattle.std.specs.List.{list_all, zip};
ghost use Rattle.beam_model.specs.Opcodes.{kinds_of};
ghost use Rattle.beam_model.specs.Loadable.{is_argument_within, is_number_operand, is_arity, is_frame_size, is_label_operand, is_atom_operand, is_register_operand, is_source_operand, is_import_operand, is_list_operand, is_within, all_operands, are_limits_met};

use beam_genop::kinds;
use beam_model::instruction::{Argument, Instruction, Operand};
use beam_model::listing::Listing;
use beam_model::opcode::Kind;
use beam_model::operand_value::atom_in;

fn is_argument_within(argument: &Argument) -> bool
    ensures { result ≡ is_argument_within argument.now }
{
    match argument {
        Argument::X(number) => *number < 1024,
        Argument::Y(number) => *number < 1023,
        _ => true,
    }
}

fn are_arguments_within(arguments: &[Argument]) -> bool
    ensures { result ≡ list_all is_argument_within arguments.now }
{
    arguments.iter().all(is_argument_within)
}

fn is_number_operand(operand: &Operand) -> bool
    ensures { result ≡ is_number_operand operand.now }
{
    matches!(operand, Operand::One(Argument::Number(_)))
}

fn is_arity(operand: &Operand) -> bool
    ensures { result ≡ is_arity operand.now }
{
    match operand {
        Operand::One(Argument::Number(number)) => *number <= 255,
        _ => false,
    }
}

fn is_frame_size(operand: &Operand) -> bool
    ensures { result ≡ is_frame_size operand.now }
{
    match operand {
        Operand::One(Argument::Number(number)) => *number <= 1023,
        _ => false,
    }
}

fn is_label_operand(operand: &Operand) -> bool
    ensures { result ≡ is_label_operand operand.now }
{
    matches!(operand, Operand::One(Argument::Label(_)))
}

fn is_register_operand(operand: &Operand) -> bool
    ensures { result ≡ is_register_operand operand.now }
{
    match operand {
        Operand::One(Argument::X(number)) => *number < 1024,
        Operand::One(Argument::Y(number)) => *number < 1023,
        _ => false,
    }
}

fn is_source_operand(operand: &Operand) -> bool
    ensures { result ≡ is_source_operand operand.now }
{
    match operand {
        Operand::One(Argument::Term(_)) => true,
        _ => is_register_operand(operand),
    }
}

fn is_import_operand(operand: &Operand) -> bool
    ensures { result ≡ is_import_operand operand.now }
{
    match operand {
        Operand::Import(import) => import.arity <= 255,
        _ => false,
    }
}

fn is_list_operand(operand: &Operand) -> bool
    ensures { result ≡ is_list_operand operand.now }
{
    match operand {
        Operand::List(arguments) => are_arguments_within(arguments.as_slice()),
        _ => false,
    }
}

pub fn is_within(kind: Kind, operand: &Operand) -> bool
    ensures { result ≡ is_within kind operand.now }
{
    match kind {
        Kind::Number => is_number_operand(operand),
        Kind::Arity => is_arity(operand),
        Kind::FrameSize => is_frame_size(operand),
        Kind::Label | Kind::FailLabel => is_label_operand(operand),
        Kind::Atom => atom_in(operand).is_some(),
        Kind::Source => is_source_operand(operand),
        Kind::Register => is_register_operand(operand),
        Kind::Import | Kind::Native(_) => is_import_operand(operand),
        Kind::List => is_list_operand(operand),
    }
}

fn are_pairs_within(kinds: &[Kind], operands: &[Operand]) -> bool
    ensures { result ≡ list_all (λ p. is_within p.0 p.1) (zip kinds.now operands.now) }
{
    kinds
        .iter()
        .zip(operands)
        .all(|(kind, operand)| is_within(*kind, operand))
}

/// Whether an instruction's operands are as many as its opcode's kinds, each of its kind and within its limits: registers x0 to
/// x1023 and y0 to y1022, and arities at most 255.
pub fn are_operands_within(instruction: &Instruction) -> bool
    ensures { result ≡ all_operands is_within (kinds_of instruction.now.opcode) instruction.now.operands }
{
    let kinds = kinds(instruction.opcode);
    let operands = instruction.operands.as_slice();
    kinds.len() == operands.len() && are_pairs_within(kinds, operands)
}

fn are_instructions_within(instructions: &[Instruction]) -> bool
    ensures { result ≡ list_all (λ i. all_operands is_within (kinds_of i.opcode) i.operands) instructions.now }
{
    instructions.iter().all(are_operands_within)
}

/// Whether operands are of their kinds, and registers and arities within their limits.
pub fn are_limits_met(listing: &Listing) -> bool
    ensures { result ≡ are_limits_met listing.now }
{
    are_instructions_within(&listing.instructions)
}
