//! Commands, written as the bodies of frames: the counterpart of the reader in `beam_frame`.
#![tactic(auto)]

mod error;
mod fields;
mod files;
pub mod laws;
mod numbers;
mod terms;
mod writing;

pub use error::CommandError;
pub use writing::{kind_number, put_command};
