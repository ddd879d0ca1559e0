//! Run queues, one for each thread, from which every scheduler's thread steals: the pids that were enqueued are those that were taken
//! and those that are left, each as often.
#![tactic(auto)]

mod brand;
mod closing;
mod contribution;
mod deque;
mod making;
mod own_queue;
mod rule;
mod run_queue;
mod stealer;

pub use brand::QueueBrand;
pub use closing::{NotClosed, close};
pub use making::{NotMade, UnbrandedQueues};
pub use run_queue::RunQueue;
