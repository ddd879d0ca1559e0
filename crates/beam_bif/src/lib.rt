//! The natives of module `erlang`.
#![tactic(auto)]

pub mod arithmetic;
pub mod bif;
pub mod built_in;
pub mod call;
pub mod comparison;
pub mod error;
pub mod list;
pub mod name;
pub mod node_name;
pub mod raise;
pub mod truth;
pub mod tuples;
pub mod type_test;
mod value;
