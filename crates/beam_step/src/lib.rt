//! Slices: rows of one process that are executed apart from the node, under no lock, and handed in later.
#![tactic(auto)]

mod cause;
pub mod laws;
mod row;
mod run;
pub mod slice;
pub mod work;

pub use crate::run::{MAX_ROWS, run_private};
