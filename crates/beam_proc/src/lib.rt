//! One process: its registers, frames, mailbox and signals, and the words of the instruction table that concern it alone.
//!
//! Each call makes the whole change of its definition, or memory is refused and nothing changes. A call that ends the process answers the
//! end, and changes nothing either.
#![tactic(auto)]

mod applying;
mod calls;
mod catching;
mod copying;
mod delivering;
mod dropping;
mod ending;
pub mod entry;
mod going;
pub mod known;
mod lingering;
mod messages;
mod monitoring;
mod pairs;
pub mod private;
pub mod process;
mod quick;
mod raise;
pub mod raised;
mod reading;
mod registers;
pub mod returning;
mod signals;
mod stack;
mod taking_over;
mod terms;
pub mod undoing;
