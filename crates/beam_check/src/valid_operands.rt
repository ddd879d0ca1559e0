//! All that is asked of operands, in one pass: that their labels are defined, their natives known, and their limits kept.
ghost use Rattle.std.specs.Prelude.{◌≡◌, IfOk};
ghost use Rattle.std.specs.List.{list_all, zip};
ghost use Rattle.beam_model.specs.Loadable.{are_labels_lawful, are_natives_known, are_limits_met};
ghost use Rattle.beam_check.specs.LabelSet.{has_label};
ghost use Rattle.beam_check.specs.ValidOperands.{is_valid, are_valid, are_operands_valid};

use crate::labels::{LabelSet, are_labels_lawful, defined, is_argument_defined, is_defined_in};
use crate::limits::{are_limits_met, is_within};
use crate::natives::{are_natives_known, is_known};
use beam_genop::kinds;
use beam_model::instruction::{Argument, Instruction, Operand};
use beam_model::listing::Listing;
use beam_model::opcode::Kind;
use std::alloc::{AllocError, Global};

/// Whether an operand is of its kind and within its limits, and the labels and the native that it names are there.
#[inline(always)]
fn is_valid(labels: &LabelSet, kind: Kind, operand: &Operand) -> bool
    ensures { result ≡ is_valid (has_label labels.now) kind operand.now }
{
    match (kind, operand) {
        (Kind::FailLabel, Operand::One(Argument::Label(0))) => true,
        (Kind::Label | Kind::FailLabel, Operand::One(argument)) => {
            matches!(argument, Argument::Label(_)) && is_argument_defined(labels, argument)
        }
        (Kind::Native(_), _) => is_within(kind, operand) && is_known(kind, operand),
        (Kind::List, _) => is_within(kind, operand) && is_defined_in(labels, operand),
        _ => is_within(kind, operand),
    }
}

fn are_pairs_valid(labels: &LabelSet, kinds: &[Kind], operands: &[Operand]) -> bool
    ensures { result ≡ list_all (λ p. is_valid (has_label labels.now) p.0 p.1) (zip kinds.now operands.now) }
{
    kinds
        .iter()
        .zip(operands)
        .all(|(kind, operand)| is_valid(labels, *kind, operand))
}

fn are_valid(labels: &LabelSet, instruction: &Instruction) -> bool
    ensures { result ≡ are_valid (has_label labels.now) instruction.now }
{
    let kinds = kinds(instruction.opcode);
    let operands = instruction.operands.as_slice();
    kinds.len() == operands.len() && are_pairs_valid(labels, kinds, operands)
}

fn are_all_valid(labels: &LabelSet, instructions: &[Instruction]) -> bool
    ensures { result ≡ list_all (are_valid (has_label labels.now)) instructions.now }
{
    instructions
        .iter()
        .all(|instruction| are_valid(labels, instruction))
}

/// Whether labels are lawful, natives known and limits kept.
#[tactic(auto, using(crate::proofs::ValidOperands::valid_where_lawful, crate::proofs::ValidOperands::broken_where_unlawful))]
pub fn are_operands_valid(alloc: Global, listing: &Listing) -> Result<bool, AllocError>
    ensures { IfOk result (λ valid. valid ≡ are_operands_valid listing.now) }
{
    match defined(alloc, &listing.instructions, listing.label_count)? {
        Some(labels) => Ok(are_all_valid(&labels, &listing.instructions)),
        None => Ok(false),
    }
}

/// Whether labels are lawful, which needs no look where the operands are valid.
#[tactic(auto, using(crate::proofs::ValidOperands::labels_of_valid))]
pub fn are_labels_lawful_where(
    alloc: Global,
    listing: &Listing,
    valid: bool,
) -> Result<bool, AllocError>
    requires { valid ≡ are_operands_valid listing.now }
    ensures { IfOk result (λ lawful. lawful ≡ are_labels_lawful listing.now) }
{
    if valid {
        return Ok(true);
    }
    are_labels_lawful(alloc, listing)
}

/// Whether natives are known, which needs no look where the operands are valid.
#[tactic(auto, using(crate::proofs::ValidOperands::natives_of_valid))]
pub fn are_natives_known_where(listing: &Listing, valid: bool) -> bool
    requires { valid ≡ are_operands_valid listing.now }
    ensures { result ≡ are_natives_known listing.now }
{
    valid || are_natives_known(listing)
}

/// Whether limits are kept, which needs no look where the operands are valid.
#[tactic(auto, using(crate::proofs::ValidOperands::limits_of_valid))]
pub fn are_limits_met_where(listing: &Listing, valid: bool) -> bool
    requires { valid ≡ are_operands_valid listing.now }
    ensures { result ≡ are_limits_met listing.now }
{
    valid || are_limits_met(listing)
}
