//! The vocabulary of the node: instructions, listings, places, exceptions, events and replies.
//! What they mean stands in `specs/`, the book of definitions.
#![tactic(auto)]

pub mod compact;
pub mod exception;
pub mod external;
pub mod function;
pub mod instruction;
pub mod item;
pub mod lex_state;
pub mod listing;
pub mod native;
pub mod opcode;
pub mod operand_value;
pub mod place;
pub mod shape;
