//! Erlang text of terms, printed and read.
#![tactic(auto)]

mod error;
mod law;
mod print;
pub mod read;
mod read_fault;
pub mod token;

pub use error::TextError;
pub use law::{printed_text_is_read, text_has_one_value};
pub use print::{is_bare_atom, print_atom, print_erl};
pub use read::read_erl;
pub use read_fault::ReadFault;
