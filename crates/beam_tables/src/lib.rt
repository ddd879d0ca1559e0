//! The tables of a BEAM file: atoms, imports, exports and literals, read and written.
#![tactic(auto)]

mod entries;
mod error;
mod fields;
pub mod laws;
mod literal;
mod put;
mod read;
mod tables;
mod write;

pub use error::TablesError;
pub use read::read_tables;
pub use tables::{AtomTable, TableChunks, Tables};
pub use write::write_tables;
