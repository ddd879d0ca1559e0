//! Looks at a node: copies of what an operator is shown, made while the node's lock is held, in a time that is bounded by what is asked for;
//! and what is told of them, made without the lock. A look is given the node to be read, so it changes nothing and is no event.
#![tactic(auto)]

mod census;
mod clip;
mod copies;
mod detail;
mod facts;
mod lingering;
mod module_rows;
mod places;
mod process_rows;
mod selection;

pub use census::{Census, counts_after};
pub use clip::{TextRoom, clipped};
pub use copies::process_copy;
pub use detail::{ProcessLook, look_at};
pub use facts::{module_facts, process_facts};
pub use lingering::{Lingering, lingering_after};
pub use module_rows::{InstanceRow, ModuleRow, modules_after};
pub use places::{RowPlace, row_place};
pub use process_rows::{ProcessRow, row_of, rows_after};
pub use selection::Selection;
