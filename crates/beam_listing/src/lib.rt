//! The text of listings (the compiler's .S files), read and printed.
#![tactic(auto)]

mod entries;
mod error;
mod forms;
mod heads;
mod instruction;
mod laws;
mod miss;
mod operand;
mod part;
mod partial_terms;
pub mod print;
mod read;
mod refusal;
mod typed;
mod value;
mod walk;

pub use error::ListingError;
pub use laws::{
    elements_are_read, forms_mean, one_listing, pieces_are_balanced, printed_is_read,
    read_is_printed, texts_are_read, worked_form,
};
pub use read::read_listing;
pub use typed::listing_is_typed;
pub use walk::{FormAt, FormKind, forms_of};
