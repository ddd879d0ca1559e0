//! How many bytes the text and the external bytes of a term would have, counted without making them, and texts in parts. A term that shares
//! its parts is small in memory and long when it is written: whoever looks at it finds that out here.
#![tactic(auto)]

mod external;
mod parts;
mod text;

pub use external::external_length;
pub use parts::{parts_length, write_parts};
pub use text::text_length;
