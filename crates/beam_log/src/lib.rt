//! The lines of a node's log, which wait for the thread that writes them, and how many ends of processes are among them.
#![tactic(auto)]

mod end_limit;
mod log_lines;
mod log_writer;
mod recent_lines;

pub use log_lines::{LogLine, LogLines, NextLine};
pub use log_writer::{start_log, write_lines};
pub use recent_lines::RecentLine;
