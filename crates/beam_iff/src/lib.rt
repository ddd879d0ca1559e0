//! The IFF form of BEAM files: its chunks as slices, and a form of chunks as bytes.
#![tactic(auto)]

mod error;
mod form;
pub mod laws;
mod read;
mod write;

pub use error::IffError;
pub use form::Chunks;
pub use read::chunks;
pub use write::write_form;
