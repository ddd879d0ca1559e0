//! Nodes with one worker and with many.
use crate::scenario::Scenario;
use crate::shared::{play_here, play_seen};
use node_testing::commands::Argument::{Integer, Pid};
use node_testing::commands::Commands;
use node_testing::listings::{CALLER, HEAR, LINK, SLEEP, SUM};
use std::alloc::Global;
use std::process::Abort;
use std::sync::Wait;
use std::test::*;
use std::thread::Threads;
use std::time::Clock;

/// How many processes send to each other, and how many messages each sends.
const LINKS: u32 = 1_000;

const ROUNDS: u32 = 3;

/// Starts of `count` processes of sum(4).
pub fn sums(alloc: Global, count: u32) -> Commands {
    Commands::new(alloc)
        .load(SUM)
        .spawn_many(count, "t", "sum", &[Integer(4)])
}

/// A process of sum(4) that stops before each round of its loop.
fn stopped(alloc: Global) -> Scenario {
    let first = Commands::new(alloc).load(SUM).set_break("t", 4);
    Scenario::ending(alloc, first.spawn("t", "sum", &[Integer(4)]), 1)
}

/// Two processes that are checked out at the same time.
fn two_sums(alloc: Global) -> Scenario {
    Scenario::with_barrier(sums(alloc, 2), (1, 2), Commands::new(alloc), 2)
}

/// Two processes, and a load while both are checked out.
fn two_sums_and_a_load(alloc: Global) -> Scenario {
    let then = Commands::new(alloc).load(SUM);
    Scenario::with_barrier(sums(alloc, 2), (1, 2), then, 2)
}

fn sleeper(alloc: Global) -> Scenario {
    let first = Commands::new(alloc).load(SLEEP);
    Scenario::ending(alloc, first.spawn("s", "sleep", &[Integer(20)]), 1)
}

/// Each process sends to the one before it, and the first one to itself. The last one gets its messages from commands.
pub fn links(alloc: Global) -> Scenario {
    let load = Commands::new(alloc).load(LINK);
    let mut first = load.spawn("c", "link", &[Pid(1), Integer(ROUNDS)]);
    for id in 1..LINKS {
        first = first.spawn("c", "link", &[Pid(id), Integer(ROUNDS)]);
    }
    let first = first.send(LINKS, 0).send(LINKS, 1).send(LINKS, 2);
    Scenario::ending(alloc, first, LINKS)
}

/// Processes wait, and then each is sent a message. They have no deadlines, so a worker waits without a limit.
fn sent_to_waiting(alloc: Global) -> Scenario {
    let first = Commands::new(alloc)
        .load(HEAR)
        .spawn_many(3, "h", "hear", &[]);
    let then = Commands::new(alloc).send_to_each(3, 7);
    Scenario::once_all_wait(first, then, 3)
}

/// The code of a process is purged while it is checked out for the second time.
fn purged(alloc: Global) -> Scenario {
    let first = Commands::new(alloc).load(CALLER);
    let first = first.spawn("o", "call", &[Pid(1), Integer(5_000)]);
    let then = Commands::new(alloc).load(CALLER).purge("o");
    Scenario::with_barrier(first, (2, 2), then, 1)
}

/// The first process ends with the messages that it gets. The second one's code is purged while it is checked out for the second time, with
/// a message to the first one; then a command sends another message.
fn purged_with_a_message(alloc: Global) -> Scenario {
    let first = Commands::new(alloc).load(CALLER).load(HEAR);
    let first = first.spawn("h", "hear", &[]);
    let first = first.spawn("o", "call", &[Pid(1), Integer(2_000)]);
    let then = Commands::new(alloc).load(CALLER).purge("o").send(1, 7);
    Scenario::with_barrier(first, (3, 3), then, 2)
}

#[test]
fn one_worker_enters_one_slice(rt: HostRuntime) -> Result<(), Fail> {
    let scenario = Scenario::ending(rt.alloc(), sums(rt.alloc(), 1), 1);
    let played = play_here(&rt, 1, scenario)?;
    assert_eq!(rt; (played.counts.slices, played.replays), ((1, 22), true));
    Ok(())
}

/// The event of a slice that ends at a break spot asks for one row more than were executed. There are five such slices.
#[test]
fn a_worker_stops_at_a_break_spot(rt: HostRuntime) -> Result<(), Fail> {
    let played = play_here(&rt, 1, stopped(rt.alloc()))?;
    assert_eq!(rt; (played.counts.slices, played.replays), ((6, 27), true));
    Ok(())
}

#[test]
fn a_deadline_passes(rt: HostRuntime) -> Result<(), Fail> {
    let played = play_here(&rt, 1, sleeper(rt.alloc()))?;
    assert_eq!(rt; (played.counts.timeouts, played.replays), (1, true));
    Ok(())
}

#[test]
fn a_message_wakes_one_that_waits(rt: HostRuntime) -> Result<(), Fail> {
    let seen = "pid 1 ended [7]\npid 2 ended [7]\npid 3 ended [7]\n";
    let (played, is_seen) = play_seen(&rt, 1, sent_to_waiting(rt.alloc()), seen)?;
    assert!(rt; is_seen && played.replays);
    Ok(())
}

/// Plays the processes that send to each other. Each of them takes more than one slice.
fn linked<R: Threads + Wait + Clock + Sync + Abort + AllocGlobal>(
    rt: &R,
    workers: u32,
) -> Result<(), Fail> {
    let played = play_here(rt, workers, links(rt.alloc()))?;
    let (slices, rows) = played.counts.slices;
    assert!(rt; slices >= LINKS && rows >= 20_000 && played.replays);
    Ok(())
}

#[test]
fn links_with_one_worker(rt: HostRuntime) -> Result<(), Fail> {
    linked(&rt, 1)
}

#[test]
fn links_with_two_workers(rt: HostRuntime) -> Result<(), Fail> {
    linked(&rt, 2)
}

#[test]
fn links_with_four_workers(rt: HostRuntime) -> Result<(), Fail> {
    linked(&rt, 4)
}

#[test]
fn links_with_sixty_four_workers(rt: HostRuntime) -> Result<(), Fail> {
    linked(&rt, 64)
}

/// Two slices that are checked out at the same time are both committed, with `workers` workers.
fn met<R: Threads + Wait + Clock + Sync + Abort + AllocGlobal>(
    rt: &R,
    workers: u32,
) -> Result<(), Fail> {
    let played = play_here(rt, workers, two_sums(rt.alloc()))?;
    assert_eq!(rt;
        (played.report.outs, played.counts.slices, played.replays),
        (2, (2, 44), true)
    );
    Ok(())
}

#[test]
fn two_slices_are_out_at_once(rt: HostRuntime) -> Result<(), Fail> {
    met(&rt, 2)?;
    met(&rt, 64)
}

/// After a load while both processes are checked out, none of their rows is committed, and both processes run them again.
fn overtaken<R: Threads + Wait + Clock + Sync + Abort + AllocGlobal>(
    rt: &R,
    workers: u32,
) -> Result<(), Fail> {
    let played = play_here(rt, workers, two_sums_and_a_load(rt.alloc()))?;
    let report = (played.counts.loads_before_rows, played.report.outs);
    assert_eq!(rt;
        (report, played.counts.slices, played.replays),
        ((2, 4), (2, 44), true)
    );
    Ok(())
}

#[test]
fn two_slices_over_old_code_are_dropped(rt: HostRuntime) -> Result<(), Fail> {
    overtaken(&rt, 2)?;
    overtaken(&rt, 64)
}

/// A process whose code is purged while it is checked out has ended, and no row of its second slice is entered.
fn gone<R: Threads + Wait + Clock + Sync + Abort + AllocGlobal>(
    rt: &R,
    workers: u32,
) -> Result<(), Fail> {
    let (played, is_seen) = play_seen(rt, workers, purged(rt.alloc()), "pid 1 ended killed\n")?;
    let report = (played.counts.slices, played.report.outs);
    assert_eq!(rt;
        (report, is_seen, played.replays),
        (((1, 4_000), 2), true, true)
    );
    Ok(())
}

#[test]
fn a_slice_of_a_purged_process_is_dropped(rt: HostRuntime) -> Result<(), Fail> {
    gone(&rt, 1)?;
    gone(&rt, 2)?;
    gone(&rt, 64)
}

/// The first process got only the other message. With one worker the slice is committed before the first process runs again.
#[test]
fn a_slice_of_a_purged_process_sends_nothing(rt: HostRuntime) -> Result<(), Fail> {
    let seen = "pid 1 ended [7]\npid 2 ended killed\n";
    let (played, is_seen) = play_seen(&rt, 1, purged_with_a_message(rt.alloc()), seen)?;
    assert!(rt; is_seen && played.replays);
    Ok(())
}
