//! Laws of what is next, above the laws of the machine: who hears of an end, and where a row leads its process.
#![tactic(auto)]

pub mod heard;
pub mod places;
pub mod worked;
