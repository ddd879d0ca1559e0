//! The state of the node but for its code: the processes by pid and name, their signals, the clock and the count of instances.
//!
//! The process of a name, the first one that can go on and the deadline that comes first are found in O(log n).
//!
//! Changes of code that look at processes, or end some (loads, purges, upgrade lists), stand here too, over the code table.
//!
//! Each call does what its definition says wholly, or is refused and nothing changes. The processes are reached by calls alone.
#![tactic(auto)]

mod arrivals;
mod asking;
mod changes;
mod ends;
mod installing;
mod lingering;
mod monitor_index;
mod names;
mod natives;
mod posting;
mod processes;
mod replacement;
mod requests;
mod returning;
mod rows;
mod starting;
pub mod state;
mod terms;
mod upgrading;
