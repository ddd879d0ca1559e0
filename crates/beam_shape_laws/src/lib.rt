//! Laws of framed rows, above the laws of the machine: in a node whose listings keep the rules and are framed, each row of each process
//! finds what it names, after every list of events, and on every scheduler.
#![tactic(auto)]

pub mod frames;
pub mod premise;
pub mod rows;
