//! The External Term Format: reads a term from bytes, and writes it.
//!
//! Integers, atoms in UTF-8, pids, references, tuples and lists are read; the other forms are refused. Written bytes are read
//! again.
#![tactic(auto)]

mod error;
mod fields;
mod form;
mod leaf;
mod reading;
mod writing;

pub use crate::error::EtfError;
pub use crate::reading::{one_spelling, read_term, spelled_is_read};
pub use crate::writing::{byte_count, is_byte_list, pair_count, write_term, written_again};
