//! Labels: each is defined once, below the label count, and each one that is named is defined.
ghost use Rattle.std.specs.Prelude.{◌≡◌, ℕ, ◌==◌, ◌&&◌, not, if◌then◌else◌, nat_lt, true, false, [], ◌∷◌, ◌++◌, ◌||◌, IfOk, OnOk, IfSome, IfNone};
ghost use Rattle.std.specs.List.{list_all, zip};
ghost use Rattle.beam_model.specs.Loadable.{defined_labels, is_among, are_new, is_none_label, all_operands, are_labels_lawful};
ghost use Rattle.beam_check.specs.LabelSet.{has_label, HasLabels, is_argument_marked, is_marked_in, is_target, are_marked_targets};

use beam_genop::kinds;
use beam_model::instruction::{Argument, Instruction, Operand};
use beam_model::listing::Listing;
use beam_model::opcode::Kind;
use indexmap::IndexSet;
use std::alloc::{AllocError, Global};

/// Adds a label at the end of the others, and answers whether it is new.
fn add(labels: &mut IndexSet<u32>, label: u32) -> Result<bool, AllocError>
    ensures new { IfOk result (λ added. added ≡ not (is_among label labels.old.keys)) }
    ensures keys { IfOk result (λ added. labels.new.keys ≡ (if added then labels.old.keys ++ label ∷ [] else labels.old.keys)) }
{
    Ok(labels.insert(label)?)
}

/// Labels. Those below a number, as compilers number them, are marked in a table, and others stand in a set.
pub struct LabelSet {
    near: Vec<bool>,
    far: IndexSet<u32>,
}

impl Drop for LabelSet {
    fn drop(self) {
        let LabelSet {
            near: _near,
            far: _far,
        } = self;
    }
}

impl LabelSet {
    /// None, with a table for the labels below a number.
    fn new(alloc: Global, size: usize) -> Result<LabelSet, AllocError>
        ensures { IfOk result (λ labels. (n : ℕ) → has_label labels n ≡ false) }
    {
        Ok(LabelSet {
            near: vec![in alloc; false; size]?,
            far: IndexSet::new(alloc),
        })
    }

    /// Adds a label, and answers whether it is new.
    #[inline(always)]
    fn insert(&mut self, label: u32) -> Result<bool, AllocError>
        ensures new { IfOk result (λ added. added ≡ not (has_label self.old label)) }
        ensures marked { OnOk result ((n : ℕ) → has_label self.new n ≡ (n == label || has_label self.old n)) }
    {
        let index = label as usize;
        if index < self.near.len() {
            let is_new = !self.near[index];
            self.near[index] = true;
            Ok(is_new)
        } else {
            add(&mut self.far, label)
        }
    }

    /// Whether a label is one of them.
    #[inline(always)]
    fn contains(&self, label: u32) -> bool
        ensures { result ≡ has_label self.now label }
    {
        let index = label as usize;
        if index < self.near.len() {
            self.near[index]
        } else {
            self.far.contains(&label)
        }
    }
}

/// The labels that are defined, where each is new and below the limit. Their table is as long as the instructions, so that labels that
/// are numbered from 1 on stand there.
pub fn defined(
    alloc: Global,
    instructions: &[Instruction],
    limit: u32,
) -> Result<Option<LabelSet>, AllocError>
    ensures some { IfOk result (λ o. IfSome o (λ s. HasLabels (defined_labels instructions.now) s × (are_new [] (defined_labels instructions.now) ≡ true)
        × (list_all (λ n. nat_lt n limit) (defined_labels instructions.now) ≡ true))) }
    ensures none { IfOk result (λ o. IfNone o ((are_new [] (defined_labels instructions.now) && list_all (λ n. nat_lt n limit) (defined_labels instructions.now))
        ≡ false)) }
{
    let mut labels = LabelSet::new(alloc, instructions.len())?;
    let mut rest = instructions;
    while let Some((instruction, others)) = rest.split_first() {
        if let Some(label) = instruction.label() {
            if label >= limit {
                return Ok(None);
            }
            if !labels.insert(label)? {
                return Ok(None);
            }
        }
        rest = others;
    }
    Ok(Some(labels))
}

pub fn is_argument_defined(labels: &LabelSet, argument: &Argument) -> bool
    ensures { result ≡ is_argument_marked (has_label labels.now) argument.now }
{
    match argument {
        Argument::Label(label) => *label > 0 && labels.contains(*label),
        _ => true,
    }
}

fn are_arguments_defined(labels: &LabelSet, arguments: &[Argument]) -> bool
    ensures { result ≡ list_all (is_argument_marked (has_label labels.now)) arguments.now }
{
    arguments
        .iter()
        .all(|argument| is_argument_defined(labels, argument))
}

pub fn is_defined_in(labels: &LabelSet, operand: &Operand) -> bool
    ensures { result ≡ is_marked_in (has_label labels.now) operand.now }
{
    match operand {
        Operand::One(argument) => is_argument_defined(labels, argument),
        Operand::Import(_) => true,
        Operand::List(arguments) => are_arguments_defined(labels, arguments.as_slice()),
    }
}

fn is_none_label(operand: &Operand) -> bool
    ensures { result ≡ is_none_label operand.now }
{
    matches!(operand, Operand::One(Argument::Label(0)))
}

fn is_defined(labels: &LabelSet, kind: Kind, operand: &Operand) -> bool
    ensures { result ≡ is_target (has_label labels.now) kind operand.now }
{
    match kind {
        Kind::FailLabel => is_none_label(operand) || is_defined_in(labels, operand),
        _ => is_defined_in(labels, operand),
    }
}

fn are_pairs_defined(labels: &LabelSet, kinds: &[Kind], operands: &[Operand]) -> bool
    ensures { result ≡ list_all (λ p. is_target (has_label labels.now) p.0 p.1) (zip kinds.now operands.now) }
{
    kinds
        .iter()
        .zip(operands)
        .all(|(kind, operand)| is_defined(labels, *kind, operand))
}

fn are_operands_defined(labels: &LabelSet, kinds: &[Kind], operands: &[Operand]) -> bool
    ensures { result ≡ all_operands (is_target (has_label labels.now)) kinds.now operands.now }
{
    kinds.len() == operands.len() && are_pairs_defined(labels, kinds, operands)
}

fn are_targets(labels: &LabelSet, instruction: &Instruction) -> bool
    ensures { result ≡ are_marked_targets (has_label labels.now) instruction.now }
{
    are_operands_defined(
        labels,
        kinds(instruction.opcode),
        instruction.operands.as_slice(),
    )
}

fn are_all_targets(labels: &LabelSet, instructions: &[Instruction]) -> bool
    ensures { result ≡ list_all (are_marked_targets (has_label labels.now)) instructions.now }
{
    instructions
        .iter()
        .all(|instruction| are_targets(labels, instruction))
}

/// Whether each label is defined once and is below the label count, and each one named is defined.
#[tactic(auto, using(crate::proofs::LabelTests::all_targets_same))]
pub fn are_labels_lawful(alloc: Global, listing: &Listing) -> Result<bool, AllocError>
    ensures { IfOk result (λ lawful. lawful ≡ are_labels_lawful listing.now) }
{
    match defined(alloc, &listing.instructions, listing.label_count)? {
        Some(labels) => Ok(are_all_targets(&labels, &listing.instructions)),
        None => Ok(false),
    }
}
