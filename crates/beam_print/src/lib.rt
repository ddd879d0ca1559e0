//! The text of listings (the compiler's .S files), printed: of a whole listing, and of one instruction.
#![tactic(auto)]

mod blocks;
mod instruction_text;
mod listing_text;
mod operand_text;
pub mod print;
mod print_error;
pub mod shape;
pub mod write;

pub use print_error::PrintError;
