//! The check that a listing can be loaded.
#![tactic(auto)]

pub mod check;
mod entries;
pub mod error;
mod functions;
mod labels;
pub mod laws;
pub mod limits;
mod natives;
mod signatures;
mod valid_operands;
