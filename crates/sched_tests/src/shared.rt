//! A scenario that is played with a node, up to the node's journal.
ghost use Rattle.std.specs.Prelude.{◌≡◌, min};
ghost use Rattle.beam_journal.specs.Entering.{most_entries};

use crate::barrier_gate::{BarrierGate, GateReport, SliceClock};
use crate::played::{ClosedNode, Played};
use crate::scenario::{Scenario, ScenarioRunner};
use beam_journal::journal::MOST_ENTRIES;
use beam_queue as queue;
use beam_queue::QueueBrand;
use beam_receipts::brand::NodeBrand;
use beam_receipts::keeper::UnbrandedKeeper;
use beam_sched::clock::SteadyClock;
use beam_sched::schedulers::run_schedulers;
use beam_sched::shared::Shared;
use beam_sched::thread_context::ThreadContext;
use beam_shared::node::Node;
use node_testing::commands::Commands;
use node_testing::stage::{closed, staged};
use node_testing::test_deadline::REFUSED;
use node_testing::views::text_of;
use std::alloc::Global;
use std::marker::Brand;
use std::sync::Wait;
use std::test::Fail;
use std::thread::Threads;
use std::time::{Clock, Duration};

/// Runs a scenario beside workers. The time is a clock's, or the number of slices that were checked out. All thread contexts but the
/// scenario runner's come back.
fn run_beside<'a, B: NodeBrand + QueueBrand + Send + Sync, R: Threads + Wait + Clock + Sync>(
    rt: &'a R,
    alloc: Global,
    shared: &'a Shared<B>,
    gate: &'a BarrierGate<'a, R>,
    contexts: Vec<ThreadContext<B>>,
    runner: &mut ScenarioRunner<'a, B, R>,
    is_by_slices: bool,
) -> Vec<ThreadContext<B>> {
    if is_by_slices {
        let clock = SliceClock::new(gate);
        run_schedulers(rt, alloc, shared, gate, &clock, contexts, runner)
    } else {
        let clock = SteadyClock::new(rt);
        run_schedulers(rt, alloc, shared, gate, &clock, contexts, runner)
    }
}

/// Runs a scenario; all thread contexts come back if it was played to its end.
fn run<'a, B: NodeBrand + QueueBrand + Send + Sync, R: Threads + Wait + Clock + Sync>(
    rt: &'a R,
    alloc: Global,
    shared: &'a Shared<B>,
    gate: &'a BarrierGate<'a, R>,
    contexts: Vec<ThreadContext<B>>,
    context: ThreadContext<B>,
    scenario: Scenario,
) -> Result<Vec<ThreadContext<B>>, Fail> {
    let is_by_slices = scenario.is_by_slices;
    let mut runner = ScenarioRunner::new(rt, shared, gate, context, scenario, contexts.len());
    let mut contexts = run_beside(rt, alloc, shared, gate, contexts, &mut runner, is_by_slices);
    let (context, unfinished) = runner.end();
    let is_whole = contexts.push(context).is_ok();
    match unfinished {
        None if is_whole => Ok(contexts),
        None => Err(Fail::new("no place for a thread context")),
        Some(unfinished) => Err(unfinished.fail()),
    }
}

/// Closes the node with all thread contexts.
fn ended<B: NodeBrand + QueueBrand>(
    alloc: Global,
    node: Node<B>,
    contexts: Vec<ThreadContext<B>>,
    ends: u32,
    report: GateReport,
) -> Result<ClosedNode, Fail> {
    let text = text_of(alloc, node.debugger(), ends)?;
    let ready = node.ready(0);
    let (journal, left) = closed(alloc, node, contexts)?;
    Ok(ClosedNode {
        journal,
        report,
        ready,
        text,
        ends,
        left,
    })
}

/// The node after commands that are given before other threads share it. The processes that they enqueue are taken out of the queue, so
/// the node is as one that comes back from its journal.
fn node_after<B: NodeBrand + QueueBrand, R: Wait + Clock>(
    rt: &R,
    alloc: Global,
    node: Node<B>,
    context: &mut ThreadContext<B>,
    earlier: Commands,
) -> Result<Node<B>, Fail> {
    let mut earlier = earlier;
    let shared = Shared::new(alloc, node, 0);
    let is_given = earlier.give(rt, &shared, context, Duration::ZERO);
    for _ in 0..u32::MAX {
        if context.dequeue().is_none() {
            break;
        }
    }
    if is_given {
        Ok(shared.into_node())
    } else {
        Err(REFUSED.fail())
    }
}

/// Plays a scenario with `workers` workers, after commands that are given before they share the node, and closes the node with all thread
/// contexts.
fn play<B: NodeBrand + QueueBrand + Send + Sync, R: Threads + Wait + Clock + Sync>(
    rt: &R,
    alloc: Global,
    unbranded: UnbrandedKeeper,
    queues: queue::UnbrandedQueues,
    workers: u32,
    earlier: Commands,
    scenario: Scenario,
) -> Result<ClosedNode, Fail>
    requires node { unbranded ≡ B.table }
    requires limit { B.limit ≡ min scenario.limit most_entries }
    requires queues { queues ≡ B.deques }
{
    let ends = scenario.ends();
    let (first, needed) = scenario.held;
    let rows_in_place = scenario.rows_in_place;
    let limit = scenario.limit.min(MOST_ENTRIES);
    let gate = BarrierGate::new(rt, first, needed);
    let (node, workers, context, _) = staged::<B>(alloc, unbranded, queues, limit, workers)?;
    let mut context = context;
    let node = node_after(rt, alloc, node, &mut context, earlier)?;
    let shared = Shared::new(alloc, node, rows_in_place);
    let contexts = run(rt, alloc, &shared, &gate, workers, context, scenario);
    let node = shared.into_node();
    ended(alloc, node, contexts?, ends, gate.report())
}

/// Plays a scenario with a node of its own, after commands that are given before threads share it.
fn closed_here<R: Threads + Wait + Clock + Sync + AllocGlobal>(
    rt: &R,
    workers: u32,
    earlier: Commands,
    scenario: Scenario,
) -> Result<ClosedNode, Fail> {
    let alloc = rt.alloc();
    earlier.made()?;
    scenario.made()?;
    let unbranded = UnbrandedKeeper::new(alloc)?;
    let queues = queue::UnbrandedQueues::new(alloc, workers as usize + 1)?;
    play::<Brand, R>(rt, alloc, unbranded, queues, workers, earlier, scenario)
}

/// The outcome of a scenario that is played with `workers` workers.
pub fn play_here<R: Threads + Wait + Clock + Sync + AllocGlobal>(
    rt: &R,
    workers: u32,
    scenario: Scenario,
) -> Result<Played, Fail> {
    play_after(rt, workers, Commands::new(rt.alloc()), scenario)
}

/// The outcome of a scenario that is played with `workers` workers, after commands that are given before they share the node.
pub fn play_after<R: Threads + Wait + Clock + Sync + AllocGlobal>(
    rt: &R,
    workers: u32,
    earlier: Commands,
    scenario: Scenario,
) -> Result<Played, Fail> {
    closed_here(rt, workers, earlier, scenario)?.played(rt.alloc())
}

/// The outcome of a scenario that is played with `workers` workers, and whether this is the text of the processes' views at its end.
pub fn play_seen<R: Threads + Wait + Clock + Sync + AllocGlobal>(
    rt: &R,
    workers: u32,
    scenario: Scenario,
    seen: &str,
) -> Result<(Played, bool), Fail> {
    let closed = closed_here(rt, workers, Commands::new(rt.alloc()), scenario)?;
    let played = closed.played(rt.alloc())?;
    Ok((played, closed.has_text(seen)))
}

/// The pids that are left in the queues after a scenario.
pub fn left_here<R: Threads + Wait + Clock + Sync + AllocGlobal>(
    rt: &R,
    workers: u32,
    scenario: Scenario,
) -> Result<Vec<u32>, Fail> {
    Ok(closed_here(rt, workers, Commands::new(rt.alloc()), scenario)?.into_left())
}
