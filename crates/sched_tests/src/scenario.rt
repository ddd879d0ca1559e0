//! What a test does beside the workers.

use crate::barrier_gate::{BarrierGate, Tally};
use beam_debug::debugger::Debugger;
use beam_journal::journal::MOST_ENTRIES;
use beam_machine::debug::DebugEvent;
use beam_queue::QueueBrand;
use beam_receipts::brand::NodeBrand;
use beam_sched::schedulers::{ForegroundTask, StartedThreads};
use beam_sched::shared::Shared;
use beam_sched::thread_context::ThreadContext;
use node_testing::commands::Commands;
use node_testing::test_deadline::{REFUSED, Unfinished};
use std::alloc::Global;
use std::sync::Wait;
use std::test::Fail;
use std::time;
use std::time::Duration;

/// What a scenario waits for.
#[derive(Clone, Copy)]
pub enum Wanted {
    /// Nothing.
    Nothing,
    /// That each of the processes from 1 to this number waits.
    Waits(u32),
    /// The end of each of the processes from 1 to this number. Those that are held are resumed.
    Ends(u32),
    /// The end of a process.
    End(u32),
    /// This many entries of the journal.
    Entries(u32),
    /// These counts of processes that the workers report to the gate.
    Tally(Tally),
}

/// What a test does with a new node, and what it waits for then.
pub struct Scenario {
    /// How many entries of its journal can be in memory.
    pub limit: u32,
    /// The first commands.
    pub first: Commands,
    /// The number of the slice from which on slices are held, and how many have to be checked out until they are let go.
    pub held: (u32, u32),
    /// What is awaited, once these slices are checked out, before the commands of `then`.
    pub before: Wanted,
    /// Commands that are given afterwards, 1 ms apart.
    pub then: Commands,
    /// What is awaited at the end.
    pub wanted: Wanted,
    /// Whether the workers are stopped once `wanted` has come.
    pub stops: bool,
    /// Whether the time is the number of slices that were checked out, in milliseconds, and not a clock's.
    pub is_by_slices: bool,
    /// How many rows a turn under the lock has at most; 0 if there are none.
    pub rows_in_place: u32,
}

impl Drop for Scenario {
    fn drop(self) {
        let Scenario {
            limit: _limit,
            first: _first,
            held: _held,
            before: _before,
            then: _then,
            wanted: _wanted,
            stops: _stops,
            is_by_slices: _is_by_slices,
            rows_in_place: _rows_in_place,
        } = self;
    }
}

impl Scenario {
    /// A scenario of these commands, after which each of the processes from 1 to `ends` ends.
    pub fn ending(alloc: Global, first: Commands, ends: u32) -> Scenario {
        Scenario {
            limit: MOST_ENTRIES,
            first,
            held: (0, 0),
            before: Wanted::Nothing,
            then: Commands::new(alloc),
            wanted: Wanted::Ends(ends),
            stops: false,
            is_by_slices: false,
            rows_in_place: 0,
        }
    }

    /// A scenario of these commands, and of others, 1 ms apart, once the slices of `held` are checked out, which are held until then. Each
    /// of the processes from 1 to `ends` ends.
    pub fn with_barrier(first: Commands, held: (u32, u32), then: Commands, ends: u32) -> Scenario {
        Scenario {
            limit: MOST_ENTRIES,
            first,
            held,
            before: Wanted::Nothing,
            then,
            wanted: Wanted::Ends(ends),
            stops: false,
            is_by_slices: false,
            rows_in_place: 0,
        }
    }

    /// A scenario of these commands, and of others, 1 ms apart, once each of the processes from 1 to `count` waits. Each of these ends.
    pub fn once_all_wait(first: Commands, then: Commands, count: u32) -> Scenario {
        Scenario {
            limit: MOST_ENTRIES,
            first,
            held: (0, 0),
            before: Wanted::Waits(count),
            then,
            wanted: Wanted::Ends(count),
            stops: false,
            is_by_slices: false,
            rows_in_place: 0,
        }
    }

    /// A scenario of these commands, whose workers are stopped once `wanted` has come.
    pub fn until(alloc: Global, first: Commands, wanted: Wanted) -> Scenario {
        Scenario {
            limit: MOST_ENTRIES,
            first,
            held: (0, 0),
            before: Wanted::Nothing,
            then: Commands::new(alloc),
            wanted,
            stops: true,
            is_by_slices: false,
            rows_in_place: 0,
        }
    }

    /// The scenario with turns of that many rows under the lock.
    pub fn with_turns(self, rows: u32) -> Scenario {
        let mut scenario = self;
        scenario.rows_in_place = rows;
        scenario
    }

    /// How many processes are inspected after the scenario.
    pub fn ends(&self) -> u32 {
        match self.wanted {
            Wanted::Ends(count) => count,
            _ => 0,
        }
    }

    /// Fails if a command couldn't be made.
    pub fn made(&self) -> Result<(), Fail> {
        self.first.made()?;
        self.then.made()
    }
}

/// Plays a scenario beside the workers, with a thread context of its own.
#[derive(Drop)]
pub struct ScenarioRunner<'a, B: NodeBrand + QueueBrand, R> {
    rt: &'a R,
    shared: &'a Shared<B>,
    gate: &'a BarrierGate<'a, R>,
    context: ThreadContext<B>,
    scenario: Scenario,
    /// How many workers are wanted.
    workers: usize,
    /// Why the scenario wasn't played to its end.
    unfinished: Option<Unfinished>,
}

fn has_ended(node: &Debugger, pid: u32) -> bool {
    match node.process(pid) {
        Some(process) => process.is_ended(),
        None => false,
    }
}

fn is_waiting(node: &Debugger, pid: u32) -> bool {
    match node.process(pid) {
        Some(process) => process.is_waiting(),
        None => false,
    }
}

/// Whether the processes 1 to `count` wait.
fn are_waiting(node: &Debugger, count: u32) -> bool {
    (1..=count).all(|pid| is_waiting(node, pid))
}

/// Whether the processes 1 to `count` have ended.
fn have_ended(node: &Debugger, count: u32) -> bool {
    (1..=count).all(|pid| has_ended(node, pid))
}

/// The first of the processes 1 to `count` that is held.
fn first_held(node: &Debugger, count: u32) -> Option<u32> {
    (1..=count).find(|pid| node.is_held(*pid))
}

impl Wanted {
    /// Whether it has come, given the number of entries and the counts that were reported.
    fn has_come(self, node: &Debugger, entered: u64, report: Tally) -> bool {
        match self {
            Wanted::Nothing => true,
            Wanted::Waits(count) => are_waiting(node, count),
            Wanted::Ends(count) => have_ended(node, count),
            Wanted::End(pid) => has_ended(node, pid),
            Wanted::Entries(count) => entered >= u64::from(count),
            Wanted::Tally(tally) => report == tally,
        }
    }

    /// The failure of a scenario in which it doesn't come.
    fn late(self) -> Unfinished {
        match self {
            Wanted::Nothing => Unfinished::Late("nothing", 0),
            Wanted::Waits(count) => Unfinished::Late("processes to wait, in number", count),
            Wanted::Ends(count) => Unfinished::Late("the end of processes, in number", count),
            Wanted::End(pid) => Unfinished::Late("the process of this number to end", pid),
            Wanted::Entries(count) => Unfinished::Late("entries of the journal, in number", count),
            Wanted::Tally(tally) => Unfinished::Late(
                "the wanted report of the gate, with ends, in number",
                tally.ended,
            ),
        }
    }
}

impl<'a, B: NodeBrand + QueueBrand, R: Wait + time::Clock> ScenarioRunner<'a, B, R> {
    pub fn new(
        rt: &'a R,
        shared: &'a Shared<B>,
        gate: &'a BarrierGate<'a, R>,
        context: ThreadContext<B>,
        scenario: Scenario,
        workers: usize,
    ) -> ScenarioRunner<'a, B, R> {
        ScenarioRunner {
            rt,
            shared,
            gate,
            context,
            scenario,
            workers,
            unfinished: Some(Unfinished::Undone("no scenario was played")),
        }
    }

    /// The thread context, and why the scenario wasn't played to its end, if it wasn't.
    pub fn end(self) -> (ThreadContext<B>, Option<Unfinished>) {
        let ScenarioRunner {
            gate,
            context,
            unfinished,
            ..
        } = self;
        match unfinished {
            None => (context, gate.report().late),
            unfinished => (context, unfinished),
        }
    }

    /// Whether `wanted` has come, and a process that is held, if there is one.
    fn look(&self, wanted: Wanted) -> (bool, Option<u32>) {
        let tally = self.gate.report().tally;
        let locked = self.shared.node().lock(self.rt);
        let node = locked.node();
        let has_come = wanted.has_come(node.debugger(), node.entered(), tally);
        (has_come, first_held(node.debugger(), self.scenario.ends()))
    }

    /// Resumes a process, if one is held. False if the command was refused.
    fn let_go(&mut self, held: Option<u32>) -> bool {
        match held {
            Some(pid) => self
                .shared
                .command(self.rt, &mut self.context, DebugEvent::Resume { pid })
                .is_ok(),
            None => true,
        }
    }

    /// Waits for `wanted`. Returns what didn't come, if it didn't.
    fn wait(&mut self, wanted: Wanted) -> Option<Unfinished> {
        for _ in 0..u32::MAX {
            let (has_come, held) = self.look(wanted);
            if has_come {
                return None;
            }
            if !self.let_go(held) {
                return Some(REFUSED);
            }
            if !self.gate.deadline.lasts(self.rt) {
                break;
            }
        }
        Some(wanted.late())
    }

    /// Gives the commands, up to the wait at the end. Returns why not all were given, if they weren't.
    fn begin(&mut self, workers: usize) -> Option<Unfinished> {
        let rt = self.rt;
        let shared = self.shared;
        if workers != self.workers {
            return Some(Unfinished::Undone("a thread could not be made"));
        }
        if !self
            .scenario
            .first
            .give(rt, shared, &mut self.context, Duration::ZERO)
        {
            return Some(REFUSED);
        }
        let late = self.gate.wait_for_all();
        if late.is_some() {
            return late;
        }
        let before = self.scenario.before;
        let late = self.wait(before);
        if late.is_some() {
            return late;
        }
        let is_given = self
            .scenario
            .then
            .give(rt, shared, &mut self.context, Duration::from_millis(1));
        if is_given { None } else { Some(REFUSED) }
    }
}

impl<B: NodeBrand + QueueBrand, R: Wait + time::Clock> ForegroundTask for ScenarioRunner<'_, B, R> {
    fn run(&mut self, started: StartedThreads) {
        self.unfinished = self.begin(started.workers);
        self.gate.open();
        if self.unfinished.is_none() {
            let wanted = self.scenario.wanted;
            self.unfinished = self.wait(wanted);
        }
        // A failure is reported even if a process never ends.
        if self.scenario.stops || self.unfinished.is_some() {
            self.shared.stop(self.rt);
        }
    }
}
