//! The records of a journal's file: events with the seats that sent them, written and read; and pages of records.
#![tactic(auto)]

mod command;
mod error;
mod fields;
mod head;
pub mod laws;
mod opening;
mod page;
mod pieces;
mod reading;
mod sent_event;
mod short_kinds;
mod writing;

pub use error::RecordError;
pub use head::{HeadError, head_in, put_head};
pub use page::{begin_page, page_in};
pub use reading::record_in;
pub use sent_event::SentEvent;
pub use writing::put_record;
