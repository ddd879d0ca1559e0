//! Nodes whose journals have little room, and workers that are stopped.
ghost use Rattle.std.specs.Prelude.{◌≡◌};

use crate::queues::endless;
use crate::scenario::{Scenario, Wanted};
use crate::shared::play_here;
use beam_journal::journal::MOST_ENTRIES;
use beam_receipts::brand::NodeBrand;
use beam_receipts::keeper::UnbrandedKeeper;
use beam_receipts::seat::SeatReceipt;
use beam_shared::node::Node;
use node_testing::commands::Argument::Integer;
use node_testing::commands::Commands;
use node_testing::listings::SUM;
use std::alloc::Global;
use std::marker::Brand;
use std::process::Abort;
use std::sync::Wait;
use std::test::*;
use std::thread::Threads;
use std::time::Clock;

/// One worker runs a process that never ends and never waits, until the journal has `entries` entries, of at most `limit`. Then it is
/// stopped, if `stops`, and the node is closed. The gate got these percents, one after another; at most two moments were entered, one for
/// each command; and the process can still go on.
fn leaves_its_process<R: Threads + Wait + Clock + Sync + Abort + AllocGlobal>(
    rt: &R,
    limit: u32,
    entries: u32,
    stops: bool,
    percents: u64,
) -> Result<(), Fail> {
    let alloc = rt.alloc();
    let mut scenario = Scenario::until(alloc, endless(alloc, 1), Wanted::Entries(entries));
    scenario.limit = limit;
    scenario.stops = stops;
    let played = play_here(rt, 1, scenario)?;
    let (moments, _) = played.counts.moments;
    assert_eq!(rt;
        (played.report.percents, moments <= 2, played.ready),
        (percents, true, Some(1))
    );
    Ok(())
}

#[test]
fn a_full_journal_is_told_and_ends_the_worker(rt: HostRuntime) -> Result<(), Fail> {
    leaves_its_process(&rt, 100, 100, false, 50_075_090_099_100)
}

#[test]
fn a_worker_that_is_stopped_leaves_its_process(rt: HostRuntime) -> Result<(), Fail> {
    leaves_its_process(&rt, MOST_ENTRIES, 10, true, 0)
}

/// The number of the refusal of the last command, or 0.
fn last_refusal<B: NodeBrand>(
    node: &mut Node<B>,
    seat: &mut SeatReceipt<B>,
    commands: &mut Commands,
) -> u8 {
    let mut number = 0;
    for event in commands.take() {
        number = match node.command(seat, event) {
            Ok(_) => 0,
            Err(refusal) => refusal.number(),
        };
    }
    number
}

/// Checks the first process out, runs one row of it and commits it. Returns the number of the reason for which the row is dropped, or 0;
/// 100 and more if the checkout is refused.
fn row_apart<B: NodeBrand>(node: &mut Node<B>) -> u8 {
    let checkout = match node.checkout(1) {
        Ok(checkout) => checkout,
        Err(refusal) => return 100 + refusal.number() % 100,
    };
    match node.commit(checkout.run(1)) {
        Ok(_) => 0,
        Err(refused) => refused.dropped.number(),
    }
}

fn refusals<B: NodeBrand>(
    alloc: Global,
    unbranded: UnbrandedKeeper,
    commands: &mut Commands,
) -> Result<(u8, u8, u8), Fail>
    requires node { unbranded ≡ B.table }
    requires limit { B.limit ≡ 3 }
{
    let mut node = Node::<B>::with_limit(alloc, unbranded, 3);
    let mut seat = node.seat()?;
    let command = last_refusal(&mut node, &mut seat, commands);
    let row = row_apart(&mut node);
    let again = row_apart(&mut node);
    Ok((command, row, again))
}

fn refusals_here(alloc: Global) -> Result<(u8, u8, u8), Fail> {
    let first = Commands::new(alloc)
        .load(SUM)
        .spawn("t", "sum", &[Integer(4)]);
    let mut commands = first.steps(1, 1).steps(1, 1);
    commands.made()?;
    let unbranded = UnbrandedKeeper::new(alloc)?;
    refusals::<Brand>(alloc, unbranded, &mut commands)
}

#[test]
fn a_node_with_room_for_three_entries(rt: HostRuntime) -> Result<(), Fail> {
    assert_eq!(rt; refusals_here(rt.alloc())?, (10, 5, 5));
    Ok(())
}
