//! Blocks of bytes, one after another. Each has a header of 16 bytes before its content: how many bytes the content has, the same count in a
//! mirror, and Fletcher's sums of the content.
#![tactic(auto)]

pub mod laws;
mod reading;
mod sums;
mod writing;

pub use reading::{BlockFault, block_in};
pub use writing::put_block;
