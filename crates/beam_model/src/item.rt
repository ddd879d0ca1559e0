//! The forms after the heads of a listing's text.

use crate::function::Function;
use crate::instruction::Instruction;

/// A form after the heads of a listing.
#[derive(Debug, Drop)]
pub enum Item {
    /// A function begins.
    Function(Function),
    Instruction(Instruction),
    /// A remark of the compiler about a register; it has no meaning.
    Remark,
}
