//! External terms.

use crate::draft::text_of;
use crate::error::{TestRowError, unless_refused};
use crate::given::bytes_of;
use beam_erltext::print_erl;
use beam_etf::{read_term, write_term};
use beam_term::Term;
use std::alloc::Global;

/// The printed text of a term.
pub fn printed(alloc: Global, term: &Term) -> Result<String, TestRowError> {
    let mut out = Vec::new(alloc);
    match print_erl(term, &mut out) {
        Ok(()) => text_of(out),
        Err(_) => Err(TestRowError::NoMemory),
    }
}

// The text of a term that is written with these bytes, if `is_written`, or else with other bytes.
fn spelled(
    alloc: Global,
    term: &Term,
    bytes: &[u8],
    is_written: bool,
) -> Result<String, TestRowError> {
    let mut out = Vec::new(alloc);
    match write_term(term, &mut out) {
        Ok(()) if (out.as_slice() == bytes) == is_written => printed(alloc, term),
        Ok(()) => unless_refused(String::from_str(alloc, "another spelling")),
        Err(_) => Err(TestRowError::NoMemory),
    }
}

// The term that the bytes spell, also with another byte after them.
fn read(
    alloc: Global,
    bytes: &[u8],
    longer: &[u8],
    is_written: bool,
) -> Result<String, TestRowError> {
    match (read_term(alloc, bytes), read_term(alloc, longer)) {
        (Ok(_), Ok((term, count))) if count == bytes.len() => {
            spelled(alloc, &term, bytes, is_written)
        }
        (Ok(_), Ok((_, count))) => unless_refused(format!(in alloc; "a term of {count} bytes")),
        (Err(error), _) | (_, Err(error)) => {
            let number = error.number();
            unless_refused(format!(in alloc; "{number} {error:?}"))
        }
    }
}

/// The text of the term that bytes in hexadecimal digits spell, or the fault. The term has to be written with the same bytes, if
/// `is_written`, or else with others.
pub fn found(alloc: Global, digits: &str, is_written: bool) -> Result<String, TestRowError> {
    let mut longer = bytes_of(alloc, digits)?;
    longer.push(7)?;
    match longer.split_last() {
        Some((_, bytes)) => read(alloc, bytes, &longer, is_written),
        None => Err(TestRowError::NoMemory),
    }
}
