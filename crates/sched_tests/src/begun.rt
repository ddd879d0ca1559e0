//! Nodes that have processes before threads share them, as one that comes back from its journal: nobody enqueues these.
use crate::played::Played;
use crate::scenario::Scenario;
use crate::shared::play_after;
use node_testing::commands::Argument::Integer;
use node_testing::commands::Commands;
use node_testing::listings::{SLEEP, SUM};
use std::process::Abort;
use std::sync::Wait;
use std::test::*;
use std::thread::Threads;
use std::time::Clock;

/// One worker and no command; the first process ends.
fn ends_by_itself<R: Threads + Wait + Clock + Sync + Abort + AllocGlobal>(
    rt: &R,
    earlier: Commands,
) -> Result<Played, Fail> {
    let alloc = rt.alloc();
    play_after(
        rt,
        1,
        earlier,
        Scenario::ending(alloc, Commands::new(alloc), 1),
    )
}

#[test]
fn a_process_that_runs_when_the_node_begins_ends(rt: HostRuntime) -> Result<(), Fail> {
    let earlier = Commands::new(rt.alloc())
        .load(SUM)
        .spawn("t", "sum", &[Integer(4)]);
    let played = ends_by_itself(&rt, earlier)?;
    assert_eq!(rt; (played.counts.slices, played.replays), ((1, 22), true));
    Ok(())
}

/// The process waits for 20 ms.
#[test]
fn a_wait_that_has_begun_when_the_node_begins_ends(rt: HostRuntime) -> Result<(), Fail> {
    let earlier = Commands::new(rt.alloc())
        .load(SLEEP)
        .spawn("s", "sleep", &[Integer(20)])
        .steps(1, 10);
    let played = ends_by_itself(&rt, earlier)?;
    assert_eq!(rt; (played.counts.timeouts, played.replays), (1, true));
    Ok(())
}
