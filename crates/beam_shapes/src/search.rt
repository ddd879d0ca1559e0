//! The search for the shapes before the rows of a listing. Each row is looked at with the known shape of its place, and the shapes that it
//! forces are joined into other places. A place whose shape changes waits until its row is looked at again. Where no row waits, and each
//! function still begins without y registers, the known shapes are an assignment; where a row doesn't fit, there is none.
ghost use Rattle.std.specs.Prelude.{◌≡◌, ◌+◌, ◌++◌, if◌then◌else◌, [], None, true, false, length, IsTrue, IfOk, OnOk, MatchResult};
ghost use Rattle.std.specs.List.{list_all};
ghost use Rattle.beam_model.specs.Loadable.{are_limits_met};
ghost use Rattle.beam_model.specs.Listing.{next_row};
ghost use Rattle.beam_model.specs.Framed.{begins_bare, shape_of_label, first_tag, may_have, in_list, may_raise, jumps, targets, leads, fits, entries, entry_by, row_at, AreFramed, IsFramed};
ghost use Rattle.beam_shapes.specs.Forced.{assigned, Does, Forces, Fails, MayGo, Settles, FitsAt, Flows, FlowsAt, BeginsAt, BeginBelow, BeginBare, IsAssignment, AreSmall};
ghost use Rattle.beam_shapes.specs.Shown.{shown, IsShape};

use crate::error::FrameCheckError;
use crate::known::KnownShapes;
use crate::named::{OperandRole, may_name_some, push_named};
use crate::row::{called, may_fall_through, may_raise, never_jumps};
use crate::rows::LabelledCode;
use crate::shape::Shape;
use beam_model::instruction::Instruction;
use beam_model::listing::Listing;
use beam_model::opcode::Opcode;
use std::alloc::{AllocError, Global};

/// Joins the shape with which a row goes to a label into the label's row.
fn go_to(
    code: &LabelledCode,
    known: &mut KnownShapes,
    label: u32,
    shape: Shape,
) -> Result<(), FrameCheckError>
    requires places { length known.old.known ≡ length code.now + 1 }
    requires shape { IsShape known.old.parts shape }
    ensures parts { known.new.parts ≡ known.old.parts }
    ensures does { Does result (λ a. may_have (shown known.old.parts shape) (shape_of_label a code.now label) ≡ true) known.old known.new }
    ensures goes { IfOk result (λ _. may_have (shown known.old.parts shape) (shape_of_label (assigned known.new.known) code.now label) ≡ true) }
{
    match code.row_of(label) {
        Some(row) => known.come(row, shape),
        None => Err(FrameCheckError::FrameMismatch),
    }
}

/// Lets a function begin at a label, without y registers.
fn begin(code: &LabelledCode, known: &mut KnownShapes, label: u32) -> Result<(), FrameCheckError>
    requires { length known.old.known ≡ length code.now + 1 }
    ensures parts { known.new.parts ≡ known.old.parts }
    ensures does { Does result (λ a. begins_bare a code.now label ≡ true) known.old known.new }
{
    match code.row_of(label) {
        Some(row) => known.begin(row),
        None => Err(FrameCheckError::FrameMismatch),
    }
}

/// Lets a function begin at a label, if there is one.
fn begin_if(
    code: &LabelledCode,
    known: &mut KnownShapes,
    label: Option<u32>,
) -> Result<(), FrameCheckError>
    requires { length known.old.known ≡ length code.now + 1 }
    ensures parts { known.new.parts ≡ known.old.parts }
    ensures does { Does result (λ a. list_all (begins_bare a code.now) (in_list label) ≡ true) known.old known.new }
{
    match label {
        Some(label) => begin(code, known, label),
        None => Ok(()),
    }
}

/// Joins the shape with which a row goes to these labels into each label's row.
fn go_to_all(
    code: &LabelledCode,
    known: &mut KnownShapes,
    labels: &[u32],
    shape: Shape,
) -> Result<(), FrameCheckError>
    requires places { length known.old.known ≡ length code.now + 1 }
    requires shape { IsShape known.old.parts shape }
    ensures parts { known.new.parts ≡ known.old.parts }
    ensures does { Does result (λ a. MayGo a code.now (shown known.old.parts shape) labels.now) known.old known.new }
    ensures goes { IfOk result (λ _. MayGo (assigned known.new.known) code.now (shown known.old.parts shape) labels.now) }
{
    let mut rest = labels;
    while let Some((label, others)) = rest.split_first() {
        go_to(code, known, *label, shape)?;
        rest = others;
    }
    Ok(())
}

/// The label to which an exception of a row goes, if the row may raise one.
#[inline(always)]
fn exception_label(known: &KnownShapes, instruction: &Instruction, shape: Shape) -> Option<u32>
    requires { IsShape known.now.parts shape }
    ensures { in_list result ≡ (if may_raise instruction.now then in_list (first_tag (shown known.now.parts shape)) else []) }
{
    let label = known.first_tag(shape)?;
    if may_raise(instruction) {
        Some(label)
    } else {
        None
    }
}

/// Appends the labels to which a row may go by itself.
fn push_jumps(instruction: &Instruction, labels: &mut Vec<u32>) -> Result<(), AllocError>
    ensures { OnOk result (labels.new.items ≡ labels.old.items ++ jumps instruction.now) }
{
    if may_name_some(OperandRole::Jumps, instruction) {
        if never_jumps(instruction) {
            Ok(())
        } else {
            push_named(OperandRole::Jumps, instruction, labels)
        }
    } else {
        Ok(())
    }
}

/// The labels to which a row may go with the shape that it finds.
fn targets(
    alloc: Global,
    known: &KnownShapes,
    instruction: &Instruction,
    shape: Shape,
) -> Result<Vec<u32>, AllocError>
    requires { IsShape known.now.parts shape }
    ensures { IfOk result (λ labels. labels.items ≡ targets instruction.now (shown known.now.parts shape)) }
{
    let mut labels = Vec::new(alloc);
    if let Some(label) = exception_label(known, instruction, shape) {
        labels.push(label)?;
    }
    push_jumps(instruction, &mut labels)?;
    Ok(labels)
}

/// Joins the shape that a row finds into the rows of the labels to which it may go.
fn lead(
    alloc: Global,
    code: &LabelledCode,
    known: &mut KnownShapes,
    instruction: &Instruction,
    shape: Shape,
) -> Result<(), FrameCheckError>
    requires places { length known.old.known ≡ length code.now + 1 }
    requires shape { IsShape known.old.parts shape }
    ensures parts { known.new.parts ≡ known.old.parts }
    ensures does { Does result (λ a. leads a code.now instruction.now (shown known.old.parts shape) ≡ true) known.old known.new }
    ensures goes { IfOk result
        (λ _. MayGo (assigned known.new.known) code.now (shown known.old.parts shape) (targets instruction.now (shown known.old.parts shape))) }
{
    let labels = targets(alloc, known, instruction, shape)?;
    begin_if(code, known, called(instruction))?;
    go_to_all(code, known, &labels, shape)
}

/// Looks at the row at a position, with the shape that it finds, and joins the shapes that it forces.
fn fit(
    alloc: Global,
    code: &LabelledCode,
    known: &mut KnownShapes,
    at: usize,
    shape: Shape,
) -> Result<(), FrameCheckError>
    requires places { length known.old.known ≡ length code.now + 1 }
    requires shape { IsShape known.old.parts shape }
    requires small { AreSmall code.now }
    ensures does { Does result (λ a. fits a code.now (row_at code.now at) (next_row at code.now) (shown known.old.parts shape) ≡ true) known.old known.new }
    ensures flows { IfOk result (λ _. Flows (assigned known.new.known) code.now (row_at code.now at) (next_row at code.now) (shown known.old.parts shape)) }
{
    let instruction = code.row_at(at);
    let left = known.left(alloc, instruction, shape)?;
    lead(alloc, code, known, instruction, shape)?;
    if may_fall_through(instruction) {
        known.come(code.next_row(at), left)?;
    }
    Ok(())
}

/// Looks at the row at a position, with the shape that is known there.
pub(crate) fn step(
    alloc: Global,
    code: &LabelledCode,
    known: &mut KnownShapes,
    at: usize,
) -> Result<(), FrameCheckError>
    requires places { length known.old.known ≡ length code.now + 1 }
    requires small { AreSmall code.now }
    ensures does { Does result (λ a. FitsAt a code.now at) known.old known.new }
    ensures flows { IfOk result (λ _. FlowsAt (assigned known.new.known) code.now at (assigned known.old.known at)) }
{
    let Some(shape) = known.shape(at) else {
        return Ok(());
    };
    if !code.row_at(at).is_row() {
        return Ok(());
    }
    fit(alloc, code, known, at, shape)
}

/// Lets each function begin, without y registers.
pub(crate) fn begin_all(code: &LabelledCode, known: &mut KnownShapes) -> Result<(), FrameCheckError>
    requires { length known.old.known ≡ length code.now + 1 }
    ensures { Does result (λ a. list_all (begins_bare a code.now) (entries code.now) ≡ true) known.old known.new }
{
    let mut rest = code.instructions();
    while let Some((instruction, others)) = rest.split_first() {
        begin_if(code, known, entry(instruction, others))?;
        rest = others;
    }
    Ok(())
}

/// The entry label of a function, if the instruction is its `func_info` and the label comes next.
fn entry(instruction: &Instruction, others: &[Instruction]) -> Option<u32>
    ensures { in_list result ≡ entry_by instruction.now.opcode others.now }
{
    match (instruction.opcode, others) {
        (Opcode::FuncInfo, [first, ..]) => first.label(),
        _ => None,
    }
}

/// Lets the function begin that a row calls, if the row is reached.
fn begin_called(
    code: &LabelledCode,
    known: &mut KnownShapes,
    at: usize,
) -> Result<(), FrameCheckError>
    requires { length known.old.known ≡ length code.now + 1 }
    ensures { Does result (λ a. BeginsAt a code.now at) known.old known.new }
{
    let instruction = code.row_at(at);
    let Some(label) = called(instruction) else {
        return Ok(());
    };
    if known.shape(at).is_none() || !instruction.is_row() {
        return Ok(());
    }
    begin(code, known, label)
}

/// Lets each function begin that a row calls.
fn begin_all_called(code: &LabelledCode, known: &mut KnownShapes) -> Result<(), FrameCheckError>
    requires { length known.old.known ≡ length code.now + 1 }
    ensures { Does result (λ a. BeginBelow a code.now (length code.now)) known.old known.new }
{
    for at in 0..code.instructions().len() {
        begin_called(code, known, at)?;
    }
    Ok(())
}

/// Lets each function, and each function that a row calls, begin again: `FrameMismatch` if another shape came there meanwhile.
fn begin_again(code: &LabelledCode, known: &mut KnownShapes) -> Result<(), FrameCheckError>
    requires { length known.old.known ≡ length code.now + 1 }
    ensures { Does result (BeginBare code.now) known.old known.new }
{
    begin_all(code, known)?;
    begin_all_called(code, known)
}

/// Looks at each row whose shape changed, until none waits.
fn settle(
    alloc: Global,
    code: &LabelledCode,
    known: &mut KnownShapes,
) -> Result<(), FrameCheckError>
    requires places { length known.old.known ≡ length code.now + 1 }
    requires small { AreSmall code.now }
    ensures { MatchResult result (λ _. Settles code.now known.old known.new) (λ e. Fails e (IsAssignment code.now) known.old) }
{
    while let Some(at) = known.next() {
        step(alloc, code, known, at)?;
    }
    Ok(())
}

/// Finds the shapes that are forced from the beginnings of the functions on.
fn flow(alloc: Global, code: &LabelledCode, known: &mut KnownShapes) -> Result<(), FrameCheckError>
    requires places { length known.old.known ≡ length code.now + 1 }
    requires small { AreSmall code.now }
    ensures { MatchResult result (λ _. Settles code.now known.old known.new) (λ e. Fails e (IsAssignment code.now) known.old) }
{
    begin_all(code, known)?;
    settle(alloc, code, known)
}

/// Finds an assignment, or `FrameMismatch` if there is none. A row is looked at if it has a shape at first, and whenever its shape changes:
/// the places to which it leads stay lawful as shapes grow. Only the beginnings of functions are tested again, since those may change.
fn find(alloc: Global, code: &LabelledCode, known: &mut KnownShapes) -> Result<(), FrameCheckError>
    requires places { length known.old.known ≡ length code.now + 1 }
    requires small { AreSmall code.now }
    ensures { MatchResult result (λ _. AreFramed code.now) (λ e. Fails e (IsAssignment code.now) known.old) }
{
    known.wait(alloc)?;
    flow(alloc, code, known)?;
    loop {
        begin_again(code, known)?;
        if known.is_settled() {
            return Ok(());
        }
        settle(alloc, code, known)?;
    }
}

/// Whether the listing is framed: whether its rows have shapes with which each row finds its y registers and its frame. In time and memory
/// linear in the listing. It fails only for memory, and for more than 4,294,967,295 instructions.
pub fn frames(alloc: Global, listing: &Listing) -> Result<bool, AllocError>
    requires limits { IsTrue (are_limits_met listing.now) }
    ensures framed { IfOk result (λ ok. ok ≡ true → IsFramed listing.now) }
    ensures unframed { IfOk result (λ ok. ok ≡ false → IsFramed listing.now → ⊥) }
{
    let code = LabelledCode::new(alloc, &listing.instructions)?;
    let mut known = KnownShapes::new(alloc, listing.instructions.len() + 1, code.tags())?;
    match find(alloc, &code, &mut known) {
        Ok(()) => Ok(true),
        Err(FrameCheckError::FrameMismatch) => Ok(false),
        Err(FrameCheckError::NoMemory) => Err(AllocError),
    }
}
