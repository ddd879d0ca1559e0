//! Frames: the commands of a stream of bytes, and replies as bytes.
#![tactic(auto)]

mod command;
mod error;
pub mod laws;
mod reading;
mod writing;

pub use command::{kind_of, read_command};
pub use error::FrameError;
pub use reading::FrameReader;
pub use writing::{encode_fault, encode_reply};
