//! The vocabulary of the machine: what instructions do, processes, events and replies.
//! What they mean stands in `specs/`, the second part of the book of definitions.
#![tactic(auto)]

pub mod action;
pub mod callee;
mod choice_index;
pub mod choices;
pub mod command;
pub mod copies;
pub mod debug;
pub mod event;
pub mod lent;
pub mod process;
pub mod text_parts;
