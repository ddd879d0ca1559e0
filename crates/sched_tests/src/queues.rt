//! The queues of workers: which processes are in them, and that all of these are taken.
use crate::scenario::{Scenario, Wanted};
use crate::shared::{left_here, play_here};
use node_testing::commands::Argument::Integer;
use node_testing::commands::Commands;
use node_testing::listings::{LOOP, SLEEP, SUM};
use std::alloc::Global;
use std::process::Abort;
use std::sync::Wait;
use std::test::*;
use std::thread::Threads;
use std::time::Clock;

/// How many processes wait at once.
const MANY: u32 = 1_000;

/// Whether each of the numbers 1 to `count` is among these, and no other, each once.
fn are_each_once(pids: &[u32], count: u32) -> bool {
    pids.len() == count as usize && (1..=count).all(|pid| pids.contains(&pid))
}

/// Starts of `count` processes that never end and never wait.
pub fn endless(alloc: Global, count: u32) -> Commands {
    Commands::new(alloc)
        .load(LOOP)
        .spawn_many(count, "l", "loop", &[])
}

/// A process that never ends, and after it one that does.
fn one_beside(alloc: Global) -> Scenario {
    let first = endless(alloc, 1).load(SUM);
    let first = first.spawn("t", "sum", &[Integer(4)]);
    Scenario::until(alloc, first, Wanted::End(2))
}

/// A process that never ends, and many that do. Its first slice is held until all of these are started, by commands, so that none is in the
/// worker's own queue.
fn many_beside(alloc: Global) -> Scenario {
    let first = endless(alloc, 1)
        .load(SUM)
        .spawn_many(MANY, "t", "sum", &[Integer(4)]);
    let mut scenario = Scenario::with_barrier(first, (1, 1), Commands::new(alloc), 0);
    scenario.wanted = Wanted::End(MANY + 1);
    scenario.stops = true;
    scenario
}

/// Many processes, to each of which three messages are sent, and no workers.
fn unattended(alloc: Global) -> Scenario {
    let first = endless(alloc, MANY)
        .send_to_each(MANY, 0)
        .send_to_each(MANY, 1)
        .send_to_each(MANY, 2);
    Scenario::until(alloc, first, Wanted::Nothing)
}

/// Many processes are run while other code is loaded again and again. After each load workers scan all of them.
fn looked_at(alloc: Global) -> Scenario {
    let mut first = endless(alloc, MANY);
    for _ in 0..20 {
        first = first.load(SLEEP);
    }
    Scenario::until(alloc, first, Wanted::Entries(4 * MANY))
}

/// After a scenario the queues have exactly the processes from 1 to `count`, each once.
fn are_left<R: Threads + Wait + Clock + Sync + Abort + AllocGlobal>(
    rt: &R,
    workers: u32,
    scenario: Scenario,
    count: u32,
) -> Result<(), Fail> {
    let left = left_here(rt, workers, scenario)?;
    assert!(rt; are_each_once(&left, count));
    Ok(())
}

#[test]
fn a_started_process_runs_beside_one_that_computes(rt: HostRuntime) -> Result<(), Fail> {
    are_left(&rt, 1, one_beside(rt.alloc()), 1)
}

/// The worker steals the one that computes, and takes it again; from then on it steals one of the others at each second take.
#[test]
fn many_started_processes_run_beside_one_that_computes(rt: HostRuntime) -> Result<(), Fail> {
    let played = play_here(&rt, 1, many_beside(rt.alloc()))?;
    assert_eq!(rt; (played.counts.first_in_a_row, played.replays), (2, true));
    Ok(())
}

#[test]
fn many_ready_processes_wait_once(rt: HostRuntime) -> Result<(), Fail> {
    are_left(&rt, 0, unattended(rt.alloc()), MANY)
}

#[test]
fn many_processes_that_are_looked_at_wait_once(rt: HostRuntime) -> Result<(), Fail> {
    are_left(&rt, 2, looked_at(rt.alloc()), MANY)
}
