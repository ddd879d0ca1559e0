//! The check of a row, by its kind.

use crate::error::TestRowError;
use crate::kind::RowKind;
use crate::outcome::CheckOutcome;
use crate::row::TestRow;
use crate::sweep::Sweep;
use crate::{file, listing, load_path, native, run, session, story, term, text};
use beam_tools::files::Files;
use std::alloc::Global;

// The text that is found for a row of that kind with these columns. If it is another spelling of the wanted text, the wanted text is the
// answer.
fn found<F: Files>(
    alloc: Global,
    files: &mut F,
    kind: RowKind,
    columns: &[String],
) -> Result<String, TestRowError> {
    match (kind, columns) {
        (RowKind::Term, [bytes, _]) => term::found(alloc, bytes, true),
        (RowKind::LongTerm, [bytes, _]) => term::found(alloc, bytes, false),
        (RowKind::Native, [name, list, _]) => native::found(alloc, name, list),
        (RowKind::Text, [text, _]) => text::found(alloc, text),
        (RowKind::Listing, [given, wanted]) => listing::found(alloc, files, given, wanted),
        (RowKind::File, [file, wanted]) => file::found(alloc, files, file, wanted),
        (RowKind::Story, [name, _]) => story::found(alloc, files, name),
        (RowKind::Run, [name, _]) => run::found(alloc, files, name),
        (RowKind::Session, [devices, inputs, _]) => session::found(alloc, devices, inputs),
        (RowKind::Sweep, [what, input, output, ends]) => {
            Sweep::of(alloc, what, input, output)?.found(ends)
        }
        (RowKind::LoadPath, [device, file, _]) => load_path::found(alloc, files, device, file),
        _ => Err(TestRowError::Columns),
    }
}

/// The outcome of a row.
pub fn check_row<F: Files>(
    alloc: Global,
    files: &mut F,
    row: &TestRow<'_>,
) -> Result<CheckOutcome, TestRowError> {
    let mut columns = row.texts(alloc)?;
    let found = found(alloc, files, row.kind, &columns);
    match (found, columns.pop()) {
        (Ok(found), Some(wanted)) => Ok(CheckOutcome::of(wanted, found)),
        (Err(why), _) => Err(why),
        (Ok(_), None) => Err(TestRowError::Columns),
    }
}
