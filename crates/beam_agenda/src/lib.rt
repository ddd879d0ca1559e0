//! A list of entries, each ready or not and with a time at which it is due or none, that finds the first ready one and the one that is
//! due first in O(log n).
//!
//! Readiness and times are kept apart, each in a list with lists above it. A number of a list above is how many of a group of 16 are
//! ready. A time of a list above is the earlier of two neighbours.
#![tactic(auto)]

pub mod agenda;
pub mod entry;
mod flags;
mod times;
