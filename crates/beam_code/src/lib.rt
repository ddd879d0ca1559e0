//! The Code chunk of a BEAM file, as instructions.
#![tactic(auto)]

mod bytes;
mod compact;
mod error;
mod instruction;
mod labels;
pub mod laws;
mod numbering;
mod operand;
mod operands;
mod read;
mod share;
mod starts;
mod write;

pub use bytes::{CodeBytes, Instr};
pub use error::CodeError;
pub use numbering::Numbering;
pub use operands::{ArgumentRef, OperandReader};
pub use read::{CodeChunk, read_code};
pub use write::write_code;
