//! A node comes back: it is given the events that a journal had, one after another, and enters them again.
#![tactic(auto)]

mod cut;
mod entering;
mod error;
mod file_events;
pub mod laws;
mod recalling;
mod recorded;
mod seating;

pub use error::RecallError;
pub use recalling::recall;
pub use recorded::RecordedEvents;
