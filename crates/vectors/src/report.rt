//! The outcomes of rows.
ghost use Rattle.std.specs.Prelude.{◌≡◌, ◌+◌, ◌↔◌, IfOk, OnOk, vec_len};

use crate::kind::{KINDS, RowKind};
use crate::notation::OneLine;
use crate::outcome::CheckOutcome;
use crate::row::SourceLine;
use std::alloc::{AllocError, Global};
use std::io;
use std::io::Write;

/// A row that doesn't hold.
pub struct FailedRow<'a> {
    pub place: SourceLine<'a>,
    pub kind: RowKind,
    pub wanted: String,
    pub found: String,
}

impl Drop for FailedRow<'_> {
    fn drop(self) {
        let FailedRow {
            place: _place,
            kind: _kind,
            wanted: _wanted,
            found: _found,
        } = self;
    }
}

/// The kind of each row that holds, and the rows that don't, in their order.
pub struct Report<'a> {
    pub held: Vec<RowKind>,
    pub failures: Vec<FailedRow<'a>>,
}

impl Drop for Report<'_> {
    fn drop(self) {
        let Report {
            held: _held,
            failures: _failures,
        } = self;
    }
}

impl<'a> Report<'a> {
    /// The report of no rows.
    pub fn new(alloc: Global) -> Report<'a>
        ensures { vec_len result.held + vec_len result.failures ≡ 0 }
    {
        Report {
            held: Vec::new(alloc),
            failures: Vec::new(alloc),
        }
    }

    /// Adds the outcome of the row at that place.
    pub fn add(
        &mut self,
        place: SourceLine<'a>,
        kind: RowKind,
        outcome: CheckOutcome,
    ) -> Result<(), AllocError>
        ensures counted { OnOk result (vec_len self.new.held + vec_len self.new.failures ≡ vec_len self.old.held + vec_len self.old.failures + 1) }
    {
        match outcome {
            CheckOutcome::Holds => self.held.push(kind)?,
            CheckOutcome::Fails { wanted, found } => self.failures.push(FailedRow {
                place,
                kind,
                wanted,
                found,
            })?,
        }
        Ok(())
    }

    /// How many rows of the kind hold.
    pub fn count(&self, kind: RowKind) -> usize {
        self.held.iter().filter(|held| **held == kind).count()
    }

    /// The status of the program: 0 where each row holds, else 1.
    pub fn status(&self) -> u8
        ensures { (result ≡ 0) ↔ (vec_len self.now.failures ≡ 0) }
    {
        if self.failures.is_empty() { 0 } else { 1 }
    }

    // Prints how many rows of each kind hold.
    fn tell_counts<W: Write>(&self, output: &mut W) -> io::Result<()> {
        for kind in KINDS {
            let count = self.count(kind);
            writeln!(output, "{kind}: {count} rows hold")?;
        }
        Ok(())
    }

    /// Prints how many rows of each kind hold, and then each row that doesn't, with the wanted text and the one that was found.
    pub fn tell<W: Write>(&self, output: &mut W) -> io::Result<()> {
        self.tell_counts(output)?;
        for failure in &self.failures {
            let SourceLine { file, line } = failure.place;
            let kind = failure.kind;
            let wanted = OneLine(&failure.wanted);
            let found = OneLine(&failure.found);
            writeln!(
                output,
                "{file}:{line}: {kind}: wanted {wanted}, found {found}"
            )?;
        }
        output.flush()
    }
}
