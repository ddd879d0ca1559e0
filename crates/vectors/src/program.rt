//! The program `vectors`, over files and two writers.
ghost use Rattle.std.specs.Prelude.{◌≡◌, ◌+◌, ◌⊎◌, length, vec_len, IfOk};

use crate::check::check_row;
use crate::reading::{BadLine, read_rows};
use crate::report::Report;
use crate::row::TestRow;
use beam_tools::files::{Files, ReadError};
use std::alloc::{AllocError, Global};
use std::io;
use std::io::Write;

/// Why a run gives no report.
#[derive(Clone, Copy)]
pub enum VectorsFault<'a> {
    /// The file of this name can't be read.
    Unread(&'a str, ReadError),
    /// The file of this name is no UTF-8.
    NoText(&'a str),
    /// A line is no row, or its row can't be checked.
    BadLine(BadLine<'a>),
    /// Memory was refused.
    NoMemory,
    /// The output can't be written.
    Unwritten,
}

impl<'a> From<AllocError> for VectorsFault<'a> {
    fn from(_refused: AllocError) -> VectorsFault<'a> {
        VectorsFault::NoMemory
    }
}

// Reads the rows of the file of that name.
fn read_file<'a, F: Files>(
    alloc: Global,
    files: &mut F,
    name: &'a str,
    rows: &mut Vec<TestRow<'a>>,
) -> Result<(), VectorsFault<'a>> {
    match files.read(alloc, name) {
        Ok(bytes) => match str::from_utf8(&bytes) {
            Ok(text) => read_rows(alloc, name, text, rows).map_err(VectorsFault::BadLine),
            Err(_) => Err(VectorsFault::NoText(name)),
        },
        Err(why) => Err(VectorsFault::Unread(name, why)),
    }
}

// The rows of the files, in their order.
fn rows_of<'a, F: Files>(
    alloc: Global,
    files: &mut F,
    names: &[&'a str],
) -> Result<Vec<TestRow<'a>>, VectorsFault<'a>> {
    let mut rows = Vec::new(alloc);
    for name in names {
        read_file(alloc, files, name, &mut rows)?;
    }
    Ok(rows)
}

/// The outcomes of the rows, each of them counted once.
pub fn check_rows<'a, F: Files>(
    alloc: Global,
    files: &mut F,
    rows: &[TestRow<'a>],
) -> Result<Report<'a>, VectorsFault<'a>>
    ensures counted { IfOk result (λ report. vec_len report.held + vec_len report.failures ≡ length rows.now) }
{
    let mut report = Report::new(alloc);
    for row in rows {
        let place = row.place;
        match check_row(alloc, files, row) {
            Ok(outcome) => report.add(place, row.kind, outcome)?,
            Err(why) => return Err(VectorsFault::BadLine(BadLine { place, why })),
        }
    }
    Ok(report)
}

// Prints the outcomes of the rows of the files.
fn give<'a, F: Files, O: Write>(
    alloc: Global,
    names: &[&'a str],
    files: &mut F,
    output: &mut O,
) -> Result<u8, VectorsFault<'a>> {
    let rows = rows_of(alloc, files, names)?;
    let report = check_rows(alloc, files, &rows)?;
    if report.tell(output).is_err() {
        return Err(VectorsFault::Unwritten);
    }
    Ok(report.status())
}

fn tell<W: Write>(fault: &VectorsFault<'_>, errors: &mut W) -> io::Result<()> {
    match fault {
        VectorsFault::Unread(name, why) => writeln!(errors, "vectors: {name}: {why}"),
        VectorsFault::NoText(name) => writeln!(errors, "vectors: {name}: no UTF-8"),
        VectorsFault::BadLine(BadLine { place, why }) => {
            let file = place.file;
            let line = place.line;
            writeln!(errors, "vectors: {file}:{line}: {why}")
        }
        VectorsFault::NoMemory => writeln!(errors, "vectors: NoMemory"),
        VectorsFault::Unwritten => writeln!(errors, "vectors: output: WriteFailed"),
    }
}

/// Checks the rows of the files of these names, and answers the program's status.
///
/// - 0: each row holds. How many of each kind do is printed on the output.
/// - 1: a row doesn't hold, and is printed with the wanted text and the one that was found; or the rows aren't checked, and the
///   reason is written to the errors: a file can't be read, a line is no row, a row can't be checked, or memory was refused.
pub fn vectors_run<'a, F: Files, O: Write, W: Write>(
    alloc: Global,
    names: &[&'a str],
    files: &mut F,
    output: &mut O,
    errors: &mut W,
) -> u8 {
    match give(alloc, names, files, output) {
        Ok(status) => status,
        Err(fault) => {
            let _ = tell(&fault, errors);
            1
        }
    }
}
