//! What a device read and wrote, as a value that exists in proofs alone.
#![tactic(auto)]

mod note;
mod transcript;

pub use transcript::Transcript;
