//! The listing that a BEAM file spells, or why it spells none.
#![tactic(auto)]

mod error;
mod file;
pub mod laws;

pub use error::FileError;
pub use file::{Disassembled, disassemble, disassemble_bytes};
