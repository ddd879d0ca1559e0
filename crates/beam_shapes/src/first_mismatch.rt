//! Where and why a listing isn't framed: a diagnosis for its author.
ghost use Rattle.std.specs.Prelude.{◌≡◌, ◌+◌, None, false, length, IsTrue, IfOk};
ghost use Rattle.beam_model.specs.Loadable.{are_limits_met};
ghost use Rattle.beam_shapes.specs.Forced.{FitsAt, Forces, AreSmall};

use crate::error::FrameCheckError;
use crate::known::KnownShapes;
use crate::mismatch::{Actual, Expected, Mismatch};
use crate::rows::LabelledCode;
use crate::search::{begin_all, step};
use beam_model::listing::Listing;
use std::alloc::{AllocError, Global};

/// A row that doesn't find what it needs of the newest frame.
#[derive(Clone, Copy)]
pub struct FirstMismatch {
    /// Its position among the instructions; the number of the instructions for the end of the code.
    pub at: usize,
    /// What it needs, and what is there.
    pub mismatch: Mismatch,
}

/// Whether the row at a position doesn't fit with the known shapes.
fn is_mismatched(
    alloc: Global,
    code: &LabelledCode,
    known: &mut KnownShapes,
    at: usize,
) -> Result<bool, AllocError>
    requires places { length known.old.known ≡ length code.now + 1 }
    requires small { AreSmall code.now }
    ensures { IfOk result (λ mismatched. mismatched ≡ false → Forces (λ a. FitsAt a code.now at) known.old known.new) }
{
    match step(alloc, code, known, at) {
        Ok(()) => Ok(false),
        Err(FrameCheckError::FrameMismatch) => Ok(true),
        Err(FrameCheckError::NoMemory) => Err(AllocError),
    }
}

/// The first row that doesn't fit with the known shapes, in the order of the listing.
fn mismatched_in_order(
    alloc: Global,
    code: &LabelledCode,
    known: &mut KnownShapes,
) -> Result<Option<usize>, AllocError>
    requires places { length known.old.known ≡ length code.now + 1 }
    requires small { AreSmall code.now }
    ensures { IfOk result (λ mismatched. mismatched ≡ None → length known.new.known ≡ length known.old.known) }
{
    for at in 0..code.instructions().len() + 1 {
        if is_mismatched(alloc, code, known, at)? {
            return Ok(Some(at));
        }
    }
    Ok(None)
}

/// The first row, of those whose shape changed, that doesn't fit with the known shapes.
fn mismatched_in_turn(
    alloc: Global,
    code: &LabelledCode,
    known: &mut KnownShapes,
) -> Result<Option<usize>, AllocError>
    requires places { length known.old.known ≡ length code.now + 1 }
    requires small { AreSmall code.now }
{
    while let Some(at) = known.next() {
        if is_mismatched(alloc, code, known, at)? {
            return Ok(Some(at));
        }
    }
    Ok(None)
}

/// The mismatch of the row at a position. A row that finds all that it needs leads to a row with another frame.
fn mismatch_at(
    alloc: Global,
    code: &LabelledCode,
    known: &KnownShapes,
    at: usize,
) -> Result<Mismatch, AllocError> {
    let elsewhere = Mismatch {
        expected: Expected::SameFrame,
        actual: Actual::Others,
    };
    let Some(shape) = known.shape(at) else {
        return Ok(elsewhere);
    };
    let mismatch = known.mismatch(alloc, code.row_at(at), shape)?;
    Ok(mismatch.unwrap_or(elsewhere))
}

/// Searches for shapes, up to the row at which that fails.
fn find(
    alloc: Global,
    code: &LabelledCode,
    known: &mut KnownShapes,
) -> Result<Option<usize>, AllocError>
    requires places { length known.old.known ≡ length code.now + 1 }
    requires small { AreSmall code.now }
{
    if begin_all(code, known).is_err() {
        return Ok(None);
    }
    if let Some(at) = mismatched_in_order(alloc, code, known)? {
        return Ok(Some(at));
    }
    mismatched_in_turn(alloc, code, known)
}

/// The row at which the search for shapes fails, with its mismatch; None where no row does, or where a function doesn't begin without y
/// registers. In time and memory linear in the listing. It fails only for memory.
pub fn find_mismatch(alloc: Global, listing: &Listing) -> Result<Option<FirstMismatch>, AllocError>
    requires limits { IsTrue (are_limits_met listing.now) }
{
    let code = LabelledCode::new(alloc, &listing.instructions)?;
    let mut known = KnownShapes::new(alloc, listing.instructions.len() + 1, code.tags())?;
    let Some(at) = find(alloc, &code, &mut known)? else {
        return Ok(None);
    };
    let mismatch = mismatch_at(alloc, &code, &known, at)?;
    Ok(Some(FirstMismatch { at, mismatch }))
}
