//! Schedulers over a node that threads share: how they enqueue and take processes, and what a thread does that runs them.
#![tactic(auto)]

pub mod clock;
pub mod command_tally;
pub mod gate;
mod idle_workers;
pub mod journal_threshold;
mod journal_usage;
pub mod locked_node;
mod long_runners;
mod made_runnable;
mod node_clock;
mod pool;
mod queue_states;
mod scan;
mod scan_hint;
mod scan_state;
pub mod schedulers;
pub mod shared;
mod short_slice_token;
mod steal_turns;
pub mod thread_context;
pub mod thread_contexts;
mod turns;
pub mod worker;
mod worker_action;
pub mod worker_tally;
mod worker_times;
