//! A node that threads share under one lock: its state, the journal that replays to it, and the processes that were checked out.
#![tactic(auto)]

mod checked_out;
mod checking_out;
pub mod checkout;
mod closing;
mod code_context;
mod commands;
mod committing;
mod draining;
pub mod drop_reason;
mod entering;
pub mod finished_slice;
pub mod node;
mod recovering;
pub mod seat_mismatch;
mod short_turns;
