//! The code server: the modules of a node, with the current and the old instance of each, and the changes of these. What a change does to
//! processes is for `beam_state`.
#![tactic(auto)]

pub mod code_table;
mod comparing;
mod copying;
pub mod error;
mod module_list;
pub mod upgrading;
pub mod versions;

pub use code_table::CodeTable;
pub use error::CodeError;
