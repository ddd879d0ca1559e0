//! Erlang texts of terms.

use crate::error::{TestRowError, unless_refused};
use crate::term::printed;
use beam_erltext::{TextError, read_erl};
use std::alloc::Global;

/// The printed text of the term whose Erlang text this is, or the line of the first fault.
pub fn found(alloc: Global, text: &str) -> Result<String, TestRowError> {
    match read_erl(alloc, text) {
        Ok(term) => printed(alloc, &term),
        Err(TextError::NoMemory) => Err(TestRowError::NoMemory),
        Err(TextError::Syntax(line)) => unless_refused(format!(in alloc; "line {line}")),
    }
}
