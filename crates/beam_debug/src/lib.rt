//! The debugger over a node: break spots, processes that are held before a row, and views of processes.
#![tactic(auto)]

mod commands;
mod debug_state;
pub mod debugger;
mod inspect;
mod installing;
mod label_or_rows;
pub mod location;
mod numbers;
pub mod outcome;
mod places;
mod print;
mod short;
pub mod spot;
mod steps;
pub mod view;
