//! Rows and their columns.

use crate::error::TestRowError;
use crate::kind::RowKind;
use crate::notation::unfold;
use std::alloc::Global;

/// A line of a file, counted from 1.
#[derive(Clone, Copy)]
pub struct SourceLine<'a> {
    pub file: &'a str,
    pub line: usize,
}

/// A row: where it stands, its kind, and its columns as they are written, with a tab between them. The last one is what is wanted.
pub struct TestRow<'a> {
    pub place: SourceLine<'a>,
    pub kind: RowKind,
    pub columns: String,
}

impl Drop for TestRow<'_> {
    fn drop(self) {
        let TestRow {
            place: _place,
            kind: _kind,
            columns: _columns,
        } = self;
    }
}

impl TestRow<'_> {
    /// The texts of the columns, with repeated texts written out, and control characters in place of their pictures.
    pub fn texts(&self, alloc: Global) -> Result<Vec<String>, TestRowError> {
        let mut texts = Vec::new(alloc);
        for column in self.columns.split('\t') {
            texts.push(unfold(alloc, column)?)?;
        }
        Ok(texts)
    }
}
