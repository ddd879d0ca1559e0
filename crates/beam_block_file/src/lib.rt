//! Files of blocks on a device: read from the front, cut behind the last whole block, and then added to.
#![tactic(auto)]

mod file;
mod file_shelf;
mod front;
mod memory_shelf;
mod reader;
mod shelf;

pub use file::{BlockFile, FileFault};
pub use file_shelf::{FileShelf, OpenFault, rename};
pub use memory_shelf::MemoryShelf;
pub use reader::{BlockReader, ReadFault};
pub use shelf::{Shelf, ShelfFailed};
