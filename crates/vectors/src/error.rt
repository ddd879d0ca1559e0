//! Why a row can't be checked.

use beam_tools::files::ReadError;
use std::alloc::{AllocError, AllocFailed};
use std::fmt;

/// Why a line is no row, or a row can't be checked.
#[derive(Clone, Copy)]
pub enum TestRowError {
    /// Its first word names no kind.
    UnknownKind,
    /// It hasn't as many columns as its kind wants.
    Columns,
    /// The notation of a name or of a repeated text is used in another way.
    Marks,
    /// A column, or a part of it, isn't what it should be.
    No(&'static str),
    /// The file that is named can't be read.
    File(ReadError),
    /// Memory was refused.
    NoMemory,
}

impl fmt::Display for TestRowError {
    fn fmt<W: fmt::Write>(&self, f: &mut fmt::Formatter<W>) -> fmt::Result {
        match self {
            TestRowError::UnknownKind => f.write_str("an unknown kind"),
            TestRowError::Columns => f.write_str("another number of columns"),
            TestRowError::Marks => f.write_str("an unknown name or a bad repetition"),
            TestRowError::No(what) => write!(f, "no {what}"),
            TestRowError::File(why) => f.write_str(why.name()),
            TestRowError::NoMemory => f.write_str("NoMemory"),
        }
    }
}

impl From<AllocError> for TestRowError {
    fn from(_refused: AllocError) -> TestRowError {
        TestRowError::NoMemory
    }
}

impl<T: Drop> From<AllocFailed<T>> for TestRowError {
    fn from(_refused: AllocFailed<T>) -> TestRowError {
        TestRowError::NoMemory
    }
}

/// The value, unless memory was refused for it.
pub fn unless_refused<T: Drop>(made: Result<T, AllocError>) -> Result<T, TestRowError> {
    match made {
        Ok(value) => Ok(value),
        Err(_) => Err(TestRowError::NoMemory),
    }
}
