//! Laws of the machine, above its definitions: each holds of every state and event, or of every list of events, on any scheduler.
//! Laws of slices that are committed later, after any events. Stories, which are short runs of the machine.
#![tactic(auto)]

pub mod code;
pub mod committed_slices;
pub mod debugger;
pub mod ends;
pub mod handed_out;
pub mod home;
pub mod instances;
pub mod isolation;
pub mod later;
pub mod maps;
pub mod monitors;
pub mod order;
pub mod pids;
pub mod purges;
pub mod refusals;
pub mod steady;
pub mod stories;
pub mod time;
pub mod upgrades;
