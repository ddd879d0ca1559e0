//! The node on one thread: code and state, one event after another, and the rows of a process.
#![tactic(auto)]

mod install;
pub mod node;
mod row;
mod short;
mod steps;
