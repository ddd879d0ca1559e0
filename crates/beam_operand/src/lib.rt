//! Operands of BEAM code: the compact term encoding.
#![tactic(auto)]

pub mod error;
pub mod laws;
pub mod read;
pub mod write;

pub use error::OperandError;
pub use read::{read_operand, read_single};
pub use write::write_operand;
