//! What the tests of nodes that threads share have in common: listings of modules, commands, frames, new nodes with their ends, views, and waits.
#![tactic(auto)]

pub mod commands;
pub mod frames;
pub mod listings;
pub mod stage;
pub mod test_deadline;
pub mod views;
