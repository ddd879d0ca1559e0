//! Monitors: those of one process, and over all processes an index by the monitored process.
#![tactic(auto)]

pub mod monitored_by;
pub mod monitors;
mod segment;
mod shared_monitors;
