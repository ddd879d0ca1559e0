//! A journal in a file: its entries are written there as it grows, and read again.
#![tactic(auto)]

mod error;
mod reader;
mod writer;

pub use error::{ReadFailed, WriteFailed};
pub use reader::{JournalReader, TornEnd};
pub use writer::{JournalWriter, write_head};
