//! Moments at which waits begin and end.
ghost use Rattle.std.specs.Prelude.{◌≡◌};
ghost use Rattle.beam_journal.specs.Entering.{most_entries};

use crate::played::JournalCounts;
use beam_debug::debugger::Debugger;
use beam_debug::outcome::Outcome;
use beam_journal::journal::MOST_ENTRIES;
use beam_queue as queue;
use beam_queue::QueueBrand;
use beam_receipts::brand::NodeBrand;
use beam_receipts::keeper::UnbrandedKeeper;
use beam_sched::clock::Clock;
use beam_sched::gate::Gate;
use beam_sched::journal_threshold::JournalThreshold;
use beam_sched::schedulers::{ForegroundTask, StartedThreads, run_schedulers};
use beam_sched::shared::Shared;
use beam_sched::thread_context::ThreadContext;
use beam_term::Term;
use node_testing::commands::Argument::Integer;
use node_testing::commands::Commands;
use node_testing::listings::SLEEP;
use node_testing::stage::{closed, staged};
use node_testing::test_deadline::{REFUSED, TestDeadline, Unfinished};
use std::alloc::Global;
use std::marker::Brand;
use std::process::Abort;
use std::sync::Wait;
use std::sync::atomic::{AtomicU64, Ordering};
use std::test::*;
use std::thread::Threads;
use std::time;
use std::time::Duration;

/// A clock that stays at the time to which it was set, and counts how often it was read.
#[derive(Drop)]
struct ManualClock {
    time: AtomicU64,
    reads: AtomicU64,
}

impl ManualClock {
    fn put(&self, time: u64) {
        self.time.store(time, Ordering::SeqCst);
    }

    /// Sets the time, unless it is later already.
    fn advance(&self, time: u64) {
        let _ = self.time.fetch_max(time, Ordering::SeqCst);
    }
}

impl Clock for ManualClock {
    fn moment(&self) -> u64 {
        let time = self.time.load(Ordering::SeqCst);
        let _ = self.reads.fetch_add(1, Ordering::SeqCst);
        time
    }
}

/// The time at which the first slice comes back.
const BACK: u64 = 200;

/// A gate that sets the clock to `BACK` once the rows of a slice were run, unless it is later already.
#[derive(Drop)]
struct ClockGate<'a> {
    clock: &'a ManualClock,
}

impl Gate for ClockGate<'_> {
    fn out(&self, _pid: u32) {}

    fn must_wait(&self, _pid: u32) -> bool {
        false
    }

    fn back(&self, _pid: u32) {
        self.clock.advance(BACK);
    }

    fn ran(&self, _pid: u32, _outcome: &Outcome) {}

    fn ran_in_place(&self, _pid: u32) {}

    fn ended(&self, _pid: u32, _reason: &Term) {}

    fn refused(&self, _pid: u32) {}

    fn filled(&self, _threshold: JournalThreshold) {}
}

/// The state of a process, as far as these tests need it.
#[derive(Clone, Copy, PartialEq, Eq)]
enum ProcessState {
    Waiting,
    Ended,
    Otherwise,
}

/// The state of the first process.
fn first_process_state(node: &Debugger) -> ProcessState {
    match node.process(1) {
        Some(process) if process.is_ended() => ProcessState::Ended,
        Some(process) if process.is_waiting() => ProcessState::Waiting,
        _ => ProcessState::Otherwise,
    }
}

/// How often the worker reads the clock at 200, once its process waits: at the end of the slice, twice in a scan, if one is still wanted after
/// the commands, and three times each time that it rests.
const SETTLED: u64 = 8;

/// How often the worker reads the clock at 299.
const EARLY: u64 = 60;

/// Starts a process that waits for 100 ms, with a slice that comes back at 200. Checks the state of the process 99 ms later, and whether it
/// ends 100 ms later.
#[derive(Drop)]
struct WaitTest<'a, B: NodeBrand + QueueBrand, R> {
    rt: &'a R,
    deadline: TestDeadline,
    shared: &'a Shared<B>,
    clock: &'a ManualClock,
    context: ThreadContext<B>,
    commands: Commands,
    /// The time at which the commands are given.
    begins: u64,
    /// The state of the process 99 ms later.
    early: ProcessState,
    /// Why the test didn't come to its end.
    unfinished: Option<Unfinished>,
}

impl<B: NodeBrand + QueueBrand, R: Wait + time::Clock> WaitTest<'_, B, R> {
    fn process_state(&self) -> ProcessState {
        first_process_state(self.shared.node().lock(self.rt).node().debugger())
    }

    /// Waits until the process is in this state. False if it wasn't in time.
    fn wait_for(&self, wanted: ProcessState) -> bool {
        for _ in 0..u32::MAX {
            if self.process_state() == wanted {
                return true;
            }
            if !self.deadline.lasts(self.rt) {
                break;
            }
        }
        false
    }

    /// Sets the clock, and waits until the worker has read it `often` times. False if it hadn't in time.
    fn is_read_at(&self, time: u64, often: u64) -> bool {
        self.clock.put(time);
        let before = self.clock.reads.load(Ordering::SeqCst);
        for _ in 0..u32::MAX {
            let reads = self.clock.reads.load(Ordering::SeqCst);
            if reads.saturating_sub(before) >= often {
                return true;
            }
            if !self.deadline.lasts(self.rt) {
                break;
            }
        }
        false
    }

    /// Plays the test. Returns why it didn't come to its end, if it didn't.
    fn play(&mut self) -> Option<Unfinished> {
        self.clock.put(self.begins);
        let is_given = self
            .commands
            .give(self.rt, self.shared, &mut self.context, Duration::ZERO);
        if !is_given {
            return Some(REFUSED);
        }
        if !self.wait_for(ProcessState::Waiting) {
            return Some(Unfinished::Late("the process of this number to wait", 1));
        }
        if !self.is_read_at(BACK, SETTLED) || !self.is_read_at(299, EARLY) {
            return Some(Unfinished::Late("the clock to be read before this time", 300));
        }
        self.early = self.process_state();
        self.clock.put(300);
        if self.wait_for(ProcessState::Ended) {
            None
        } else {
            Some(Unfinished::Late("the process of this number to end", 1))
        }
    }
}

impl<B: NodeBrand + QueueBrand, R: Wait + time::Clock> ForegroundTask for WaitTest<'_, B, R> {
    fn run(&mut self, _started: StartedThreads) {
        self.unfinished = self.play();
    }
}

/// The outcome of the test.
#[derive(Clone, Copy)]
struct WaitResult {
    /// Why the test didn't come to its end.
    unfinished: Option<Unfinished>,
    /// The state of the process at 299.
    early: ProcessState,
    /// The moments in the journal, one after another.
    moments: u64,
}

/// All thread contexts, which came back, the state of the process at 299, and why the test didn't come to its end, if it didn't.
fn run<'a, B: NodeBrand + QueueBrand + Send + Sync, R: Threads + Wait + time::Clock + Sync>(
    rt: &'a R,
    alloc: Global,
    shared: &'a Shared<B>,
    clock: &'a ManualClock,
    contexts: Vec<ThreadContext<B>>,
    context: ThreadContext<B>,
    commands: Commands,
    begins: u64,
) -> (Vec<ThreadContext<B>>, ProcessState, Option<Unfinished>) {
    let mut waits = WaitTest {
        rt,
        deadline: TestDeadline::new(rt),
        shared,
        clock,
        context,
        commands,
        begins,
        early: ProcessState::Otherwise,
        unfinished: None,
    };
    let gate = ClockGate { clock };
    let mut contexts = run_schedulers(rt, alloc, shared, &gate, clock, contexts, &mut waits);
    let WaitTest {
        context,
        early,
        unfinished,
        ..
    } = waits;
    // A thread context that is lost keeps the node from being closed.
    let _ = contexts.push(context);
    (contexts, early, unfinished)
}

fn wait_once<B: NodeBrand + QueueBrand + Send + Sync, R: Threads + Wait + time::Clock + Sync>(
    rt: &R,
    alloc: Global,
    unbranded: UnbrandedKeeper,
    queues: queue::UnbrandedQueues,
    commands: Commands,
    begins: u64,
    rows_in_place: u32,
) -> Result<WaitResult, Fail>
    requires node { unbranded ≡ B.table }
    requires limit { B.limit ≡ most_entries }
    requires queues { queues ≡ B.deques }
{
    let clock = ManualClock {
        time: AtomicU64::new(0),
        reads: AtomicU64::new(0),
    };
    let (node, workers, context, _) = staged::<B>(alloc, unbranded, queues, MOST_ENTRIES, 1)?;
    let shared = Shared::new(alloc, node, rows_in_place);
    let (contexts, early, unfinished) = run(
        rt, alloc, &shared, &clock, workers, context, commands, begins,
    );
    let (journal, _) = closed(alloc, shared.into_node(), contexts)?;
    let (_, moments) = JournalCounts::of(&journal).moments;
    Ok(WaitResult {
        unfinished,
        early,
        moments,
    })
}

fn wait_here<R: Threads + Wait + time::Clock + Sync>(
    rt: &R,
    alloc: Global,
    begins: u64,
    rows_in_place: u32,
) -> Result<WaitResult, Fail> {
    let unbranded = UnbrandedKeeper::new(alloc)?;
    let queues = queue::UnbrandedQueues::new(alloc, 2)?;
    let commands = Commands::new(alloc)
        .load(SLEEP)
        .spawn("s", "sleep", &[Integer(100)]);
    commands.made()?;
    wait_once::<Brand, R>(
        rt,
        alloc,
        unbranded,
        queues,
        commands,
        begins,
        rows_in_place,
    )
}

/// The process waits from 200 to 300, and no other time is entered, if the commands are given at `begins`, and a short turn has that many rows.
fn waits_from_200<R: Threads + Wait + time::Clock + Sync + Abort + AllocGlobal>(
    rt: &R,
    begins: u64,
    rows_in_place: u32,
) -> Result<(), Fail> {
    let waited = wait_here(rt, rt.alloc(), begins, rows_in_place)?;
    if let Some(unfinished) = waited.unfinished {
        return Err(unfinished.fail());
    }
    assert_eq!(rt;
        (waited.early == ProcessState::Waiting, waited.moments),
        (true, 200_300)
    );
    Ok(())
}

/// The node was idle until 200.
#[test]
fn a_wait_begins_at_its_moment(rt: HostRuntime) -> Result<(), Fail> {
    waits_from_200(&rt, 200, 0)
}

/// The node was idle until 200, and the wait begins in a short turn.
#[test]
fn a_wait_in_a_turn_begins_at_its_moment(rt: HostRuntime) -> Result<(), Fail> {
    waits_from_200(&rt, 200, 256)
}

/// The process began to compute at 0.
#[test]
fn a_wait_begins_when_its_slice_comes_back(rt: HostRuntime) -> Result<(), Fail> {
    waits_from_200(&rt, 0, 0)
}
