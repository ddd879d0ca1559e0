//! Tests of a node that threads share: its workers, its gate, its receipts, and the deepest terms on a worker's stack.
#![tactic(auto)]

#[cfg(test)]
mod barrier_gate;
#[cfg(test)]
mod begun;
#[cfg(test)]
mod crowds;
#[cfg(test)]
mod deep;
#[cfg(test)]
mod drained;
#[cfg(test)]
mod drained_rows;
#[cfg(test)]
mod limits;
#[cfg(test)]
mod played;
#[cfg(test)]
mod queues;
#[cfg(test)]
mod receipts;
#[cfg(test)]
mod rings;
#[cfg(test)]
mod run_queues;
#[cfg(test)]
mod scenario;
#[cfg(test)]
mod shared;
#[cfg(test)]
mod telling;
#[cfg(test)]
mod timeouts;
#[cfg(test)]
mod turns;
#[cfg(test)]
mod upgrades;
#[cfg(test)]
mod wait_start;
#[cfg(test)]
mod watchers;
