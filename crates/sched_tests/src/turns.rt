//! Short turns under the node's lock: which rows they have, and nodes whose workers have such turns.
ghost use Rattle.std.specs.Prelude.{◌≡◌};
ghost use Rattle.beam_journal.specs.Entering.{most_entries};

use crate::crowds::crowd;
use crate::rings::{links, sums};
use crate::scenario::Scenario;
use crate::shared::play_here;
use crate::timeouts::told;
use beam_debug::outcome::Outcome;
use beam_journal::journal::MOST_ENTRIES;
use beam_machine::debug::DebugEvent;
use beam_machine::event::{Event, Reply, Then};
use beam_queue as queue;
use beam_queue::QueueBrand;
use beam_receipts::brand::NodeBrand;
use beam_receipts::keeper::UnbrandedKeeper;
use beam_receipts::seat::SeatReceipt;
use beam_shared::node::Node;
use node_testing::commands::Argument::Integer;
use node_testing::commands::Commands;
use node_testing::listings::{LOOP, SLEEP};
use node_testing::stage::staged;
use std::alloc::Global;
use std::marker::Brand;
use std::process::Abort;
use std::sync::Wait;
use std::test::*;
use std::thread::Threads;
use std::time::Clock;

/// same(N) makes two tuples of two empty lists, doubles each N - 1 times, and compares them.
const SAME: &str = "{module,q}. {exports,[{same,1}]}. {attributes,[]}. {labels,5}.
{function,same,1,2}. {label,1}. {func_info,{atom,q},{atom,same},1}.
{label,2}. {move,nil,{x,1}}. {move,nil,{x,2}}.
{label,3}. {put_tuple2,{x,1},{list,[{x,1},{x,1}]}}. {put_tuple2,{x,2},{list,[{x,2},{x,2}]}}.
{gc_bif,'-',{f,0},3,[{x,0},{integer,1}],{x,0}}. {test,is_eq_exact,{f,3},[{x,0},{integer,0}]}.
{test,is_eq_exact,{f,4},[{x,1},{x,2}]}. {move,{atom,same},{x,0}}. return.
{label,4}. {move,{atom,other},{x,0}}. return.
";

/// What became of a short turn, or of rows by a command.
#[derive(Clone, Copy, Debug, PartialEq, Eq)]
enum TurnSeen {
    /// There was none.
    None,
    /// So many rows, after which the process runs on, waits, or has ended.
    GoesOn(u32),
    Waits(u32),
    Ended(u32),
    /// Another answer.
    Other,
}

fn seen(outcome: &Outcome) -> TurnSeen {
    match outcome {
        Outcome::Node(Reply::Ran { count, then }) => match then {
            Then::GoesOn => TurnSeen::GoesOn(*count),
            Then::Waits => TurnSeen::Waits(*count),
            Then::Ended { .. } => TurnSeen::Ended(*count),
        },
        _ => TurnSeen::Other,
    }
}

/// A short turn of the first process, of at most 256 rows.
fn turn<B: NodeBrand>(node: &mut Node<B>, seat: &mut SeatReceipt<B>) -> TurnSeen {
    match node.short_steps(seat, 1, 256, false) {
        Some((_count, outcome)) => seen(&outcome),
        None => TurnSeen::None,
    }
}

/// One row of the first process, by a command.
fn one_row<B: NodeBrand>(node: &mut Node<B>, seat: &mut SeatReceipt<B>) -> TurnSeen {
    match node.command(seat, DebugEvent::Node(Event::Steps { pid: 1, rows: 1 })) {
        Ok(outcome) => seen(&outcome),
        Err(_) => TurnSeen::None,
    }
}

/// After these commands: a short turn of the first process, another one, one row by a command, and another short turn.
fn turns_after<B: NodeBrand + QueueBrand>(
    alloc: Global,
    unbranded: UnbrandedKeeper,
    queues: queue::UnbrandedQueues,
    commands: Commands,
) -> Result<[TurnSeen; 4], Fail>
    requires node { unbranded ≡ B.table }
    requires limit { B.limit ≡ most_entries }
    requires queues { queues ≡ B.deques }
{
    let mut commands = commands;
    let (node, _, context, _) = staged::<B>(alloc, unbranded, queues, MOST_ENTRIES, 0)?;
    let (mut node, mut context) = (node, context);
    for event in commands.take() {
        if node.command(&mut context.seat, event).is_err() {
            return Err(Fail::new("a command was refused"));
        }
    }
    let seat = &mut context.seat;
    let first = turn(&mut node, seat);
    let second = turn(&mut node, seat);
    let row = one_row(&mut node, seat);
    Ok([first, second, row, turn(&mut node, seat)])
}

fn turns_here(alloc: Global, commands: Commands) -> Result<[TurnSeen; 4], Fail> {
    commands.made()?;
    let unbranded = UnbrandedKeeper::new(alloc)?;
    let queues = queue::UnbrandedQueues::new(alloc, 1)?;
    turns_after::<Brand>(alloc, unbranded, queues, commands)
}

/// Two rows, and four for each of five tuples; then comes the comparison.
#[test]
fn a_turn_ends_before_a_comparison_of_tuples(rt: HostRuntime) -> Result<(), Fail> {
    let commands = Commands::new(rt.alloc())
        .load(SAME)
        .spawn("q", "same", &[Integer(5)]);
    let turns = turns_here(rt.alloc(), commands)?;
    assert_eq!(rt;
        turns,
        [
            TurnSeen::GoesOn(23),
            TurnSeen::None,
            TurnSeen::GoesOn(1),
            TurnSeen::Ended(2)
        ]
    );
    Ok(())
}

#[test]
fn a_turn_has_as_many_rows_as_it_may(rt: HostRuntime) -> Result<(), Fail> {
    let commands = Commands::new(rt.alloc()).load(LOOP).spawn("l", "loop", &[]);
    let turns = turns_here(rt.alloc(), commands)?;
    assert_eq!(rt;
        turns,
        [
            TurnSeen::GoesOn(256),
            TurnSeen::GoesOn(256),
            TurnSeen::GoesOn(1),
            TurnSeen::GoesOn(256)
        ]
    );
    Ok(())
}

/// The process waits for 20 ms: the wait begins where the clock has the moment, so by a command here.
#[test]
fn no_wait_begins_in_a_turn_without_the_moment(rt: HostRuntime) -> Result<(), Fail> {
    let commands = Commands::new(rt.alloc())
        .load(SLEEP)
        .spawn("s", "sleep", &[Integer(20)]);
    let turns = turns_here(rt.alloc(), commands)?;
    assert_eq!(rt;
        turns,
        [
            TurnSeen::GoesOn(1),
            TurnSeen::None,
            TurnSeen::Waits(1),
            TurnSeen::None
        ]
    );
    Ok(())
}

#[test]
fn no_turn_is_had_where_a_break_spot_is_set(rt: HostRuntime) -> Result<(), Fail> {
    let commands = Commands::new(rt.alloc())
        .load(SAME)
        .set_break("q", 4)
        .spawn("q", "same", &[Integer(5)]);
    let turns = turns_here(rt.alloc(), commands)?;
    assert_eq!(rt;
        turns,
        [
            TurnSeen::None,
            TurnSeen::None,
            TurnSeen::GoesOn(1),
            TurnSeen::None
        ]
    );
    Ok(())
}

/// How many rows a turn has where workers have turns.
const ROWS: u32 = 256;

#[test]
fn one_worker_enters_one_turn(rt: HostRuntime) -> Result<(), Fail> {
    let scenario = Scenario::ending(rt.alloc(), sums(rt.alloc(), 1), 1);
    let played = play_here(&rt, 1, scenario.with_turns(ROWS))?;
    assert_eq!(rt; (played.counts.slices, played.replays), ((1, 22), true));
    assert_eq!(rt; played.report.outs, 0);
    Ok(())
}

/// Processes that send to each other end, and the journal leads to their state.
fn linked<R: Threads + Wait + Clock + Sync + Abort + AllocGlobal>(
    rt: &R,
    workers: u32,
) -> Result<(), Fail> {
    let played = play_here(rt, workers, links(rt.alloc()).with_turns(ROWS))?;
    assert_eq!(rt; (played.ready, played.replays), (None, true));
    Ok(())
}

#[test]
fn links_in_turns_with_one_worker(rt: HostRuntime) -> Result<(), Fail> {
    linked(&rt, 1)
}

#[test]
fn links_in_turns_with_four_workers(rt: HostRuntime) -> Result<(), Fail> {
    linked(&rt, 4)
}

#[test]
fn a_crowd_in_turns_with_four_workers(rt: HostRuntime) -> Result<(), Fail> {
    let played = play_here(&rt, 4, crowd(rt.alloc()).with_turns(ROWS))?;
    assert_eq!(rt; (played.counts.changes, played.replays), (42, true));
    Ok(())
}

#[test]
fn a_deadline_passes_under_turns(rt: HostRuntime) -> Result<(), Fail> {
    let played = play_here(&rt, 2, told(rt.alloc()).with_turns(ROWS))?;
    assert_eq!(rt; (played.counts.timeouts, played.replays), (1, true));
    Ok(())
}

/// The process waits for 20 ms, and is never checked out: the worker enters the moment and begins the wait in a turn.
#[test]
fn a_wait_with_a_timeout_begins_in_a_turn(rt: HostRuntime) -> Result<(), Fail> {
    let commands = Commands::new(rt.alloc())
        .load(SLEEP)
        .spawn("s", "sleep", &[Integer(20)]);
    let scenario = Scenario::ending(rt.alloc(), commands, 1);
    let played = play_here(&rt, 1, scenario.with_turns(ROWS))?;
    assert_eq!(rt; (played.counts.timeouts, played.replays), (1, true));
    assert_eq!(rt; played.report.outs, 0);
    Ok(())
}
