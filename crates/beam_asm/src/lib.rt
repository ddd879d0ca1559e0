//! The assembler: from a listing to the bytes of a BEAM file.
#![tactic(auto)]

mod asm;
mod error;
mod file;
pub mod laws;

pub use asm::assemble;
pub use error::AsmError;
