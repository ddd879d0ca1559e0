//! Waits that end by their deadlines, whatever else there is to do.
use crate::queues::endless;
use crate::scenario::{Scenario, Wanted};
use crate::shared::play_here;
use node_testing::commands::Argument::{Integer, Pid, Pids};
use node_testing::commands::{Argument, Commands};
use node_testing::listings::{GO, OVER, SLEEP, WAIT};
use std::alloc::Global;
use std::process::Abort;
use std::sync::Wait;
use std::test::*;
use std::thread::Threads;
use std::time::Clock;

/// How many messages a process gets while it waits. None of them ends its wait.
const MESSAGES: u32 = 300;

/// How many processes are sent to their work at once: one more than a scan finds.
const AT_ONCE: u32 = 129;

/// The first process waits for 20 ms, and gets messages whose handling takes more than one slice.
pub fn told(alloc: Global) -> Scenario {
    let first = Commands::new(alloc)
        .load(WAIT)
        .spawn("w", "wait", &[Integer(20)]);
    let first = first.spawn("w", "tell", &[Pid(1), Integer(MESSAGES)]);
    Scenario::ending(alloc, first, 2)
}

/// The processes that are sent to their work: those with the pids 3, 4 ..
const OTHERS: Argument = Pids {
    first: 3,
    count: AT_ONCE,
};

/// For how many slices the first process sleeps: they are over while the others work.
const SLEEPS: u32 = 200;

/// Slices count as milliseconds, and the first process is held in its slice, number 1, until all are started. It sleeps; the second one
/// waits from slice 2 on, and the others, with slices 3 to 131, wait for a message. Then the second one's deadline has come, and with slice
/// 132 it sends the others to their work: that takes slices 133 to 261, after which they wait for ever. The first one's deadline, 201, lies
/// in between: the scan after slice 132 has found 128 processes, and the next one, which goes on above these, comes after slice 261.
fn at_once(alloc: Global) -> Scenario {
    let first = Commands::new(alloc).load(SLEEP).load(GO);
    let first = first.spawn("s", "sleep", &[Integer(SLEEPS)]);
    let first = first.spawn("g", "go", &[Integer(AT_ONCE), OTHERS]);
    let first = first.spawn_many(AT_ONCE, "g", "work", &[]);
    let mut scenario = Scenario::with_barrier(first, (1, 1), Commands::new(alloc), 2);
    scenario.is_by_slices = true;
    scenario
}

/// The first process sleeps for 20 ms. Messages are sent to it while its first slice is held, so they are in its mailbox while it sleeps.
fn strays(alloc: Global) -> Scenario {
    let first = Commands::new(alloc).load(SLEEP);
    let first = first.spawn("s", "sleep", &[Integer(20)]);
    let then = Commands::new(alloc).send(1, 1).send(1, 2).send(1, 3);
    Scenario::with_barrier(first, (1, 1), then, 1)
}

/// An hour, in milliseconds.
const HOUR: u64 = 3_600_000;

/// One process begins its sleep before the clock is set an hour ahead, and one afterwards.
fn ahead(alloc: Global) -> Scenario {
    let first = Commands::new(alloc).load(SLEEP);
    let first = first.spawn("s", "sleep", &[Integer(100)]).clock(HOUR);
    Scenario::ending(alloc, first.spawn("s", "sleep", &[Integer(100)]), 2)
}

/// Processes sleep for half an hour, and for one and two hours more. Then the clock is set to one, two and three hours. The worker would
/// wait for half an hour if these commands didn't wake it.
fn set_past_deadlines(alloc: Global) -> Scenario {
    let first = Commands::new(alloc)
        .load(SLEEP)
        .spawn("s", "sleep", &[Integer(1_800_000)])
        .spawn("s", "sleep", &[Integer(5_400_000)])
        .spawn("s", "sleep", &[Integer(9_000_000)]);
    let then = Commands::new(alloc)
        .clock(HOUR)
        .clock(2 * HOUR)
        .clock(3 * HOUR);
    Scenario::once_all_wait(first, then, 3)
}

/// The first process is held at a break spot, and the second one sleeps for 20 ms.
fn behind_a_held_one(alloc: Global) -> Scenario {
    let first = Commands::new(alloc)
        .load(OVER)
        .load(SLEEP)
        .set_break("e", 4)
        .spawn("e", "hold", &[])
        .spawn("s", "sleep", &[Integer(20)]);
    Scenario::until(alloc, first, Wanted::End(2))
}

/// Slices count as milliseconds. The first process never ends and never waits, so the worker's queue is never empty. Two others sleep, for
/// 20 and for 100 slices: the second deadline comes after the scan that finds the first one.
fn beside_one_that_computes(alloc: Global) -> Scenario {
    let first = endless(alloc, 1)
        .load(SLEEP)
        .spawn("s", "sleep", &[Integer(20)])
        .spawn("s", "sleep", &[Integer(100)]);
    let mut scenario = Scenario::until(alloc, first, Wanted::End(3));
    scenario.is_by_slices = true;
    scenario
}

/// Slices count as milliseconds. The first process never ends and never waits. While its first slice is held, a command starts a second
/// process, which is enqueued, and another command executes its rows up to a sleep of 50 slices. The worker takes it from the queue within
/// its next 16 takes, and can't check it out, since it sleeps.
fn executed_while_enqueued(alloc: Global) -> Scenario {
    let then = Commands::new(alloc)
        .spawn("s", "sleep", &[Integer(50)])
        .steps(2, 10);
    let mut scenario = Scenario::with_barrier(endless(alloc, 1).load(SLEEP), (1, 1), then, 0);
    scenario.wanted = Wanted::End(2);
    scenario.stops = true;
    scenario.is_by_slices = true;
    scenario
}

/// As many waits of a scenario as wanted end by their deadlines, and its journal leads to the views of the processes at the end.
fn timed_out<R: Threads + Wait + Clock + Sync + Abort + AllocGlobal>(
    rt: &R,
    workers: u32,
    scenario: Scenario,
    timeouts: u32,
) -> Result<(), Fail> {
    let played = play_here(rt, workers, scenario)?;
    assert_eq!(rt; (played.counts.timeouts, played.replays), (timeouts, true));
    Ok(())
}

#[test]
fn a_deadline_passes_under_messages_with_one_worker(rt: HostRuntime) -> Result<(), Fail> {
    timed_out(&rt, 1, told(rt.alloc()), 1)
}

#[test]
fn a_deadline_passes_under_messages_with_two_workers(rt: HostRuntime) -> Result<(), Fail> {
    timed_out(&rt, 2, told(rt.alloc()), 1)
}

#[test]
fn a_deadline_passes_under_messages_with_sixty_four_workers(rt: HostRuntime) -> Result<(), Fail> {
    timed_out(&rt, 64, told(rt.alloc()), 1)
}

#[test]
fn a_deadline_passes_while_many_others_are_at_work(rt: HostRuntime) -> Result<(), Fail> {
    timed_out(&rt, 1, at_once(rt.alloc()), 2)
}

#[test]
fn a_sleep_ends_with_messages_in_the_mailbox_with_one_worker(rt: HostRuntime) -> Result<(), Fail> {
    timed_out(&rt, 1, strays(rt.alloc()), 1)
}

#[test]
fn a_sleep_ends_with_messages_in_the_mailbox_with_two_workers(rt: HostRuntime) -> Result<(), Fail> {
    timed_out(&rt, 2, strays(rt.alloc()), 1)
}

#[test]
fn a_deadline_passes_after_the_clock_was_set_with_one_worker(rt: HostRuntime) -> Result<(), Fail> {
    timed_out(&rt, 1, ahead(rt.alloc()), 2)
}

#[test]
fn a_deadline_passes_after_the_clock_was_set_with_two_workers(rt: HostRuntime) -> Result<(), Fail> {
    timed_out(&rt, 2, ahead(rt.alloc()), 2)
}

#[test]
fn a_clock_that_is_set_ends_a_wait(rt: HostRuntime) -> Result<(), Fail> {
    timed_out(&rt, 1, set_past_deadlines(rt.alloc()), 3)
}

#[test]
fn a_deadline_passes_behind_a_held_process(rt: HostRuntime) -> Result<(), Fail> {
    timed_out(&rt, 1, behind_a_held_one(rt.alloc()), 1)
}

#[test]
fn a_deadline_passes_beside_one_that_computes(rt: HostRuntime) -> Result<(), Fail> {
    timed_out(&rt, 1, beside_one_that_computes(rt.alloc()), 2)
}

#[test]
fn one_that_a_command_ran_is_found_again(rt: HostRuntime) -> Result<(), Fail> {
    timed_out(&rt, 1, executed_while_enqueued(rt.alloc()), 1)
}
