//! The journal: the events that a node accepted, with its replies. It replays to the node's state.
#![tactic(auto)]

mod cut;
mod drained_events;
pub mod entry;
pub mod entry_counts;
pub mod error;
pub mod journal;
pub mod node_journal;
mod replay;
