//! Rows, read from the text of a file.

use crate::error::TestRowError;
use crate::kind::RowKind;
use crate::notation::{Definition, expand};
use crate::row::{SourceLine, TestRow};
use std::alloc::Global;

/// A line that is no row, and why.
#[derive(Clone, Copy)]
pub struct BadLine<'a> {
    pub place: SourceLine<'a>,
    pub why: TestRowError,
}

/// What a line says.
#[derive(Clone, Copy)]
enum Line<'a> {
    /// A row of this kind, with these columns.
    Row(RowKind, &'a str),
    /// A name, and the text that it stands for in the lines after it.
    Definition(&'a str, &'a str),
    Wrong(TestRowError),
}

impl Line<'_> {
    fn of(text: &str) -> Line<'_> {
        let (word, rest) = text.split_once('\t').unwrap_or((text, ""));
        match RowKind::named(word) {
            Some(kind) => Line::Row(kind, rest),
            None if word == "define" => {
                let (name, text) = rest.split_once('\t').unwrap_or((rest, ""));
                Line::Definition(name, text)
            }
            None => Line::Wrong(TestRowError::UnknownKind),
        }
    }
}

/// Whether a line has content: it isn't empty and doesn't begin with `#`.
pub fn says(line: &str) -> bool {
    !line.is_empty() && !line.starts_with('#')
}

// Reads a line: a row or a definition.
fn read_line<'a, 't>(
    alloc: Global,
    place: SourceLine<'a>,
    line: &'t str,
    definitions: &mut Vec<Definition<'t>>,
    rows: &mut Vec<TestRow<'a>>,
) -> Result<(), TestRowError> {
    match Line::of(line) {
        Line::Row(kind, columns) => {
            let columns = expand(alloc, definitions, columns)?;
            rows.push(TestRow {
                place,
                kind,
                columns,
            })?;
        }
        Line::Definition(name, text) => {
            let text = expand(alloc, definitions, text)?;
            definitions.push(Definition { name, text })?;
        }
        Line::Wrong(why) => return Err(why),
    }
    Ok(())
}

/// Reads the rows of a file's text. Empty lines and lines that begin with `#` are skipped; a line `define NAME TEXT` names a text for the
/// lines after it.
pub fn read_rows<'a>(
    alloc: Global,
    file: &'a str,
    text: &str,
    rows: &mut Vec<TestRow<'a>>,
) -> Result<(), BadLine<'a>> {
    let mut definitions = Vec::new(alloc);
    for (index, line) in text.lines().enumerate() {
        let place = SourceLine {
            file,
            line: index.saturating_add(1),
        };
        if says(line) {
            if let Err(why) = read_line(alloc, place, line, &mut definitions, rows) {
                return Err(BadLine { place, why });
            }
        }
    }
    Ok(())
}
