//! Receipts of seats, of tickets and of who drains a journal: tokens outside of the node's lock, each tied to what the node that gave it
//! knows.
#![tactic(auto)]

pub mod brand;
pub mod drain;
pub mod keeper;
pub mod laws;
pub mod refusal;
mod rule;
pub mod seat;
pub mod ticket;
