//! What workers report to their gate of processes that are held or end.
use crate::barrier_gate::Tally;
use crate::scenario::{Scenario, Wanted};
use crate::shared::play_here;
use node_testing::commands::Argument::{Integer, Pid};
use node_testing::commands::Commands;
use node_testing::listings::{LOOP, OVER, SUM};
use std::alloc::Global;
use std::process::Abort;
use std::test::*;

/// One process ends by its rows, one by a signal of a third one, which ends afterwards, and one is held.
fn some(alloc: Global, wanted: Tally) -> Scenario {
    let first = Commands::new(alloc).load(SUM).load(LOOP).load(OVER);
    let first = first.set_break("e", 4).spawn("t", "sum", &[Integer(4)]);
    let first = first.spawn("l", "loop", &[]);
    let first = first.spawn("e", "main", &[Pid(2)]).spawn("e", "hold", &[]);
    Scenario::until(alloc, first, Wanted::Tally(wanted))
}

/// The reports that the gate of two workers got until they end.
#[test]
fn workers_tell_who_is_held_and_who_ended(rt: HostRuntime) -> Result<(), Fail> {
    let wanted = Tally {
        held: 1,
        ended: 2,
        signalled: 1,
    };
    let played = play_here(&rt, 2, some(rt.alloc(), wanted))?;
    assert!(rt; played.report.tally == wanted);
    Ok(())
}
