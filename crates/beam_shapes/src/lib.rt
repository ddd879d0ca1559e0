//! Whether each row of a listing finds the y registers and the frame that it names: what single rows need of a frame, trees that hold the
//! catch tags of frames, shapes of frames, and the search for an assignment of them, which the check of listings calls.
#![tactic(auto)]

mod error;
pub mod first_mismatch;
mod known;
pub mod label_rows;
pub mod mismatch;
mod named;
mod row;
mod rows;
pub mod search;
mod shape;
mod trees;
