//! Processes that monitor others.
use crate::scenario::Scenario;
use crate::shared::{play_here, play_seen};
use node_testing::commands::Argument::{Integer, Pid};
use node_testing::commands::Commands;
use node_testing::listings::{HEAR, OVER, WATCH};
use std::alloc::Global;
use std::process::Abort;
use std::sync::Wait;
use std::test::*;
use std::thread::Threads;
use std::time::Clock;

/// How many processes monitor another one.
const WATCHERS: u32 = 100;

/// Loads of the modules of processes that are monitored, and of processes that monitor them.
fn modules(alloc: Global) -> Commands {
    Commands::new(alloc).load(HEAR).load(WATCH)
}

/// Starts a process that waits for messages.
fn hear(commands: Commands) -> Commands {
    commands.spawn("h", "hear", &[])
}

/// Starts a process that monitors another, and counts down before it sends to that one.
fn watch(commands: Commands, other: u32, count: u32) -> Commands {
    commands.spawn("n", "watch", &[Pid(other), Integer(count)])
}

/// Every second process monitors the one before it, and sends to it.
fn watchers(alloc: Global) -> Scenario {
    let mut first = modules(alloc);
    for watcher in 0..WATCHERS {
        first = watch(hear(first), 2 * watcher + 1, 10);
    }
    Scenario::ending(alloc, first, 2 * WATCHERS)
}

/// The second process monitors the first one. Commands end the first one while the second one is checked out for the second time.
fn told_while_out(alloc: Global) -> Scenario {
    let first = watch(hear(modules(alloc)), 1, 2_000);
    let then = Commands::new(alloc).send(1, 7).deliver(1).steps(1, 100);
    Scenario::with_barrier(first, (3, 3), then, 2)
}

/// The first process is held, the second one monitors it, and the third one sends it an exit signal. A command delivers that once the
/// fourth one runs.
fn ended_by_a_command(alloc: Global) -> Scenario {
    let first = watch(hear(modules(alloc).load(OVER).set_break("h", 5)), 1, 0);
    let first = first.spawn("e", "main", &[Pid(1)]).spawn("e", "hold", &[]);
    Scenario::with_barrier(first, (100, 5), Commands::new(alloc).deliver(1), 4)
}

/// Each monitored process ends, and so does each that monitors it, once it gets its DOWN.
fn all_told<R: Threads + Wait + Clock + Sync + Abort + AllocGlobal>(
    rt: &R,
    workers: u32,
) -> Result<(), Fail> {
    let played = play_here(rt, workers, watchers(rt.alloc()))?;
    assert!(rt; played.replays);
    Ok(())
}

#[test]
fn watchers_are_told_with_one_worker(rt: HostRuntime) -> Result<(), Fail> {
    all_told(&rt, 1)
}

#[test]
fn watchers_are_told_with_two_workers(rt: HostRuntime) -> Result<(), Fail> {
    all_told(&rt, 2)
}

/// Four slices are checked out and none is dropped. The process whose slice was checked out then still has its DOWN in transit after the
/// commit.
#[test]
fn a_slice_keeps_what_its_process_was_told_meanwhile(rt: HostRuntime) -> Result<(), Fail> {
    let seen = "pid 1 ended [7]\npid 2 ended {'DOWN',#Ref<0.0.0.1>,process,<0.1.0>,[7]}\n";
    let (played, is_seen) = play_seen(&rt, 1, told_while_out(rt.alloc()), seen)?;
    let report = (played.report.outs, played.counts.slices);
    assert_eq!(rt;
        (report, is_seen, played.replays),
        ((4, (5, 6_120)), true, true)
    );
    Ok(())
}

/// A process that a command ends, and the process that monitors it, as they are seen at the end.
#[test]
fn a_command_that_ends_a_process_tells_its_watcher(rt: HostRuntime) -> Result<(), Fail> {
    let seen =
        "pid 1 ended over\npid 2 ended {'DOWN',#Ref<0.0.0.1>,process,<0.1.0>,over}\npid 3 ended normal\npid 4 ended normal\n";
    let (played, is_seen) = play_seen(&rt, 1, ended_by_a_command(rt.alloc()), seen)?;
    assert!(rt; is_seen && played.replays);
    Ok(())
}
