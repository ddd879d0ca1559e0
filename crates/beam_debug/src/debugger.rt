//! The node with its debugger: one event after another.
ghost use Rattle.std.specs.Prelude.{◌≡◌, ◌+◌, ◌<◌, ◌≤◌, ◌^◌, ℕ, length, map, true, None, Ok, IfOk, IfErr, OnOk, OnErr};
ghost use Rattle.std.specs.List.{AllByRecursion};
ghost use Rattle.std.specs.Option.{option_copied};
ghost use Rattle.beam_model.specs.Place.{Place as ThePlace};
ghost use Rattle.beam_machine.specs.Change.{is_live};
ghost use Rattle.beam_machine.specs.Debug.{debug_next, debug_run, is_among, is_live_process, undisturbed};
ghost use Rattle.beam_machine.specs.State.{empty, process_of};
ghost use Rattle.beam_laws.specs.Slice.{rows_of_event};
ghost use Rattle.beam_debug.specs.Answers.{Inspected, answer_of, change_answer, release_answer, reply_of, inspect_answer};
ghost use Rattle.beam_debug.specs.Debugger.{node_alone, capacity_of};
ghost use Rattle.beam_debug.specs.Each.{Each, LacksMemory};
ghost use Rattle.beam_debug.specs.Halt.{steps_in};
ghost use Rattle.beam_debug.specs.Installing.{AreSlices, IsQuietSlice};
ghost use Rattle.beam_debug.specs.Loud.{DebugLoudly};
ghost use Rattle.beam_debug.specs.DebuggedNode.{debugged};
ghost use Rattle.beam_debug.specs.Capacity.{HasCapacity, CapacityFor};
ghost use Rattle.beam_debug.specs.Short.{ShortAnswers};
ghost use Rattle.beam_machine.specs.DebugRun.{DebugAnswers, DebugLacksMemory, effective_debug_events, effective_debug_answers};

use crate::commands;
use crate::debug_state::{DebugState, make_room, settle};
use crate::inspect::view;
use crate::installing::install;
use crate::numbers::is_among;
use crate::outcome::Outcome;
use crate::short::short_steps;
use crate::steps::{step_one, steps};
use crate::view::{RenderedView, View};
use beam_codesrv::CodeTable;
use beam_core::node::Core;
use beam_image::Image;
use beam_machine::debug::{DebugEvent, Spot};
use beam_machine::event::{Event, Refused, Reply, Then};
use beam_model::place::Place;
use beam_proc::entry::ProcessEntry;
use beam_proc::private::Private;
use std::alloc::{AllocError, Global};
use std::marker::Model;

/// A node with its debugger: break spots, the processes that are held, and those that may pass a break spot.
pub struct Debugger {
    alloc: Global,
    core: Core,
    debug: DebugState,
}

impl Drop for Debugger {
    fn drop(self) {
        let Debugger {
            alloc: _alloc,
            core: _core,
            debug: _debug,
        } = self;
    }
}

impl Model for Debugger {
    ghost use Rattle.std.specs.Coded.{codes};
    ghost use Rattle.beam_term.specs.Coding.{term_code};
    ghost use Rattle.beam_debug.specs.Debugger.{Debugger as TheDebugger, debugger_of, capacity_of};
    ghost use Rattle.beam_debug.specs.DebuggedNode.{debugged};
    ghost use Rattle.beam_debug.specs.Capacity.{HasCapacity};
    ghost use Rattle.beam_debug.specs.Settled.{Settled};

    ghost Value = { TheDebugger };

    ghost coded = { Prim.hlevel (codes, term_code) };

    ghost view = { λ d. debugger_of d.core d.debug };

    // Break spots lie in instances that are current or old, and processes that are held or may pass a break spot haven't ended. Each
    // process that has begun can be held without memory.
    ghost invariant = { λ d. Settled (debugged d.core d.debug) × HasCapacity (debugged d.core d.debug) (capacity_of d.debug) };
}

/// Applies an event of the node that runs no rows.
fn other_event(
    core: &mut Core,
    debug: &mut DebugState,
    event: &Event<Image>,
) -> Result<Outcome, Refused>
    requires { steps_in event.now ≡ None }
    ensures next { DebugAnswers (debugged core.old debug.old) (DebugEvent.Node event.now) (answer_of result) (debugged core.new debug.new) }
    ensures memory { DebugLacksMemory (debugged core.old debug.old) (DebugEvent.Node event.now) (answer_of result) }
    ensures loud { DebugLoudly (debugged core.old debug.old) (DebugEvent.Node event.now) (answer_of result) (debugged core.new debug.new) }
    ensures capacity { capacity_of debug.new ≡ capacity_of debug.old }
    ensures begun { OnOk result (CapacityFor (capacity_of debug.new) (DebugEvent.Node event.now)) }
{
    match core.apply(event) {
        Ok(reply) => {
            settle(core, debug);
            Ok(Outcome::Node(reply))
        }
        Err(refused) => Err(refused),
    }
}

/// Applies an event of the node.
fn node_event(
    core: &mut Core,
    debug: &mut DebugState,
    event: &Event<Image>,
) -> Result<Outcome, Refused>
    requires capacity { HasCapacity (debugged core.old debug.old) (capacity_of debug.old) }
    ensures next { DebugAnswers (debugged core.old debug.old) (DebugEvent.Node event.now) (answer_of result) (debugged core.new debug.new) }
    ensures memory { DebugLacksMemory (debugged core.old debug.old) (DebugEvent.Node event.now) (answer_of result) }
    ensures loud { DebugLoudly (debugged core.old debug.old) (DebugEvent.Node event.now) (answer_of result) (debugged core.new debug.new) }
    ensures capacity { capacity_of debug.old ≤ capacity_of debug.new }
    ensures begun { OnOk result (CapacityFor (capacity_of debug.new) (DebugEvent.Node event.now)) }
{
    match event {
        Event::Steps { pid, rows } => steps(core, debug, *pid, *rows),
        _ => other_event(core, debug, event),
    }
}

/// The view of a process, also of one that has ended.
fn inspect(alloc: Global, core: &Core, debug: &DebugState, pid: u32) -> Result<View, Refused>
    ensures { Inspected (debugged core.now debug.now) pid (inspect_answer result) }
{
    let Some(process) = core.process(pid) else {
        return Err(Refused::NoProcess);
    };
    let held = is_among(pid, &debug.held);
    Ok(view(alloc, core.table(), held, process)?)
}

/// The view of a process, also of one that has ended, and its text.
fn show(alloc: Global, core: &Core, debug: &DebugState, pid: u32) -> Result<RenderedView, Refused>
    ensures { Inspected (debugged core.now debug.now) pid result }
{
    let view = inspect(alloc, core, debug, pid)?;
    Ok(RenderedView::new(alloc, view)?)
}

/// Applies one event.
fn apply(
    alloc: Global,
    core: &mut Core,
    debug: &mut DebugState,
    event: &DebugEvent<Image>,
) -> Result<Outcome, Refused>
    requires capacity { HasCapacity (debugged core.old debug.old) (capacity_of debug.old) }
    ensures next { DebugAnswers (debugged core.old debug.old) event.now (answer_of result) (debugged core.new debug.new) }
    ensures memory { DebugLacksMemory (debugged core.old debug.old) event.now (answer_of result) }
    ensures loud { DebugLoudly (debugged core.old debug.old) event.now (answer_of result) (debugged core.new debug.new) }
    ensures capacity { capacity_of debug.old ≤ capacity_of debug.new }
    ensures begun { OnOk result (CapacityFor (capacity_of debug.new) event.now) }
{
    match event {
        DebugEvent::Node(event) => node_event(core, debug, event),
        DebugEvent::SetBreak(spot) => {
            let is_new = commands::set_break(core, debug, spot)?;
            Ok(Outcome::Node(Reply::Changed(is_new)))
        }
        DebugEvent::ClearBreak(spot) => {
            let was_set = commands::clear_break(core, debug, spot)?;
            Ok(Outcome::Node(Reply::Changed(was_set)))
        }
        DebugEvent::Resume { pid } => {
            commands::resume(core, debug, *pid)?;
            Ok(Outcome::Node(Reply::Done))
        }
        DebugEvent::StepOne { pid } => step_one(core, debug, *pid),
        DebugEvent::Inspect { pid } => {
            let shown = show(alloc, core, debug, *pid)?;
            settle(core, debug);
            Ok(Outcome::Viewed(shown))
        }
    }
}

impl Debugger {
    /// A node with no code and no processes, and no break spots. It takes no memory.
    #[tactic(auto, using(crate::proofs::Capacities::none_held))]
    pub fn new(alloc: Global) -> Debugger
        ensures { result ≡ record { state = undisturbed empty; capacity = 0 } }
    {
        Debugger {
            alloc,
            core: Core::new(alloc),
            debug: DebugState {
                spots: Vec::new(alloc),
                held: Vec::new(alloc),
                passing: Vec::new(alloc),
            },
        }
    }

    /// In every state each break spot lies in an instance that is current or old, and no process that is held, or that may pass a
    /// break spot, has ended.
    pub fn recall_invariant(&self)
        ensures spots { AllByRecursion (λ (spot : ThePlace). is_live self.now.state.node.code spot.instance ≡ true) self.now.state.spots }
        ensures held { AllByRecursion (λ (pid : ℕ). is_live_process self.now.state.node pid ≡ true) self.now.state.held }
        ensures passing { AllByRecursion (λ (pid : ℕ). is_live_process self.now.state.node pid ≡ true) self.now.state.passing }
    {
        let _debug = &self.debug;
    }

    /// Reserves capacity to hold the process of that number, and those below it, so that holding one takes no memory then. If memory is
    /// refused nothing changes.
    pub fn reserve(&mut self, pid: u32) -> Result<(), AllocError>
        ensures state { self.new.state ≡ self.old.state }
        ensures capacity { OnOk result (pid < self.new.capacity) }
        ensures kept { self.old.capacity ≤ self.new.capacity }
        ensures err { OnErr result (self.new ≡ self.old) }
    {
        make_room(pid, &mut self.debug.held)
    }

    /// The node.
    pub fn core(&self) -> &Core
        ensures { result.now ≡ self.now.state.node }
    {
        &self.core
    }

    /// The node's code.
    pub fn table(&self) -> &CodeTable
        ensures { result.now ≡ self.now.state.node.code }
    {
        self.core.table()
    }

    /// The process of that number, also one that has ended.
    pub fn process(&self, pid: u32) -> Option<&ProcessEntry>
        ensures { option_copied result ≡ process_of self.now.state.node.processes pid }
    {
        self.core.process(pid)
    }

    /// The break spots that are set.
    pub fn spots(&self) -> &[Place]
        ensures { result.now ≡ self.now.state.spots }
    {
        &self.debug.spots
    }

    /// Whether a process is held.
    pub fn is_held(&self, pid: u32) -> bool
        ensures { result ≡ is_among pid self.now.state.held }
    {
        is_among(pid, &self.debug.held)
    }

    /// Whether a process may pass a break spot as its next row.
    pub fn passes(&self, pid: u32) -> bool
        ensures { result ≡ is_among pid self.now.state.passing }
    {
        is_among(pid, &self.debug.passing)
    }

    /// Applies one event, as the definition of `debug_next` says. Where memory is refused in the middle of `Steps`, the reply says how many
    /// rows were executed; otherwise the answer is `NoMemory`. A refusal changes nothing.
    pub fn apply(&mut self, event: &DebugEvent<Image>) -> Result<Outcome, Refused>
        ensures next { DebugAnswers self.old.state event.now (answer_of result) self.new.state }
        ensures memory { DebugLacksMemory self.old.state event.now (answer_of result) }
        ensures loud { DebugLoudly self.old.state event.now (answer_of result) self.new.state }
        ensures capacity { self.old.capacity ≤ self.new.capacity }
    {
        apply(self.alloc, &mut self.core, &mut self.debug, event)
    }

    /// Applies one event of the node, as the definition of `debug_next` says. Where memory is refused in the middle of `Steps`, the reply
    /// says how many rows were executed; otherwise the answer is `NoMemory`. A refusal changes nothing.
    pub fn apply_event(&mut self, event: &Event<Image>) -> Result<Outcome, Refused>
        ensures next { DebugAnswers self.old.state (DebugEvent.Node event.now) (answer_of result) self.new.state }
        ensures memory { DebugLacksMemory self.old.state (DebugEvent.Node event.now) (answer_of result) }
        ensures loud { DebugLoudly self.old.state (DebugEvent.Node event.now) (answer_of result) self.new.state }
        ensures capacity { self.old.capacity ≤ self.new.capacity }
    {
        node_event(&mut self.core, &mut self.debug, event)
    }

    /// Executes rows of a process: at most `limit`, until it waits or ends, or its next row may take long. Answers how many, and how the process
    /// then stands: state and answer are those of a `Steps` of that count. `None`, and nothing changes, where the first row
    /// may take long, a break spot is set, or the process doesn't run or is held. Where memory is refused after a first row, the rows that
    /// were executed stand; before it, `NoMemory`, and nothing changes. A wait with a timeout begins only where `has_moment`, that is, the
    /// clock has the present moment; else its row counts among those that may take long.
    pub fn short_steps(
        &mut self,
        pid: u32,
        limit: u32,
        has_moment: bool,
    ) -> Result<Option<(u32, Then)>, Refused>
        requires { 0 < limit }
        ensures next { ShortAnswers self.old.state pid result self.new.state }
        ensures capacity { self.old.capacity ≤ self.new.capacity }
    {
        short_steps(&mut self.core, &mut self.debug, pid, limit, has_moment)
    }

    /// Sets a break spot: processes stop before the row that it names from now on. Tells whether it is new. `BadSpot` where it names no
    /// row.
    pub fn set_break(&mut self, spot: &Spot) -> Result<bool, Refused>
        ensures next { DebugAnswers self.old.state (DebugEvent.SetBreak spot.now) (change_answer result) self.new.state }
        ensures memory { DebugLacksMemory self.old.state (DebugEvent.SetBreak spot.now) (change_answer result) }
        ensures capacity { self.old.capacity ≤ self.new.capacity }
    {
        commands::set_break(&self.core, &mut self.debug, spot)
    }

    /// Clears a break spot: processes stop before that row no longer. Tells whether one was set. `BadSpot` where it names no row. Processes
    /// that are held there stay held.
    pub fn clear_break(&mut self, spot: &Spot) -> Result<bool, Refused>
        ensures next { DebugAnswers self.old.state (DebugEvent.ClearBreak spot.now) (change_answer result) self.new.state }
        ensures memory { DebugLacksMemory self.old.state (DebugEvent.ClearBreak spot.now) (change_answer result) }
        ensures capacity { self.old.capacity ≤ self.new.capacity }
    {
        commands::clear_break(&self.core, &mut self.debug, spot)
    }

    /// Resumes a held process, which may pass the row before which it stopped. `NoProcess` where it was never started or has ended, then
    /// `NotReady` where it isn't held.
    pub fn resume(&mut self, pid: u32) -> Result<(), Refused>
        ensures next { DebugAnswers self.old.state (DebugEvent.Resume pid) (release_answer result) self.new.state }
        ensures memory { DebugLacksMemory self.old.state (DebugEvent.Resume pid) (release_answer result) }
        ensures capacity { self.old.capacity ≤ self.new.capacity }
    {
        commands::resume(&self.core, &mut self.debug, pid)
    }

    /// A held process runs one row, also that of a break spot, and stays held unless it has ended. `NoProcess` where it was never started
    /// or has ended, then `NotReady` where it isn't held or waits.
    pub fn step_one(&mut self, pid: u32) -> Result<Outcome, Refused>
        ensures next { DebugAnswers self.old.state (DebugEvent.StepOne pid) (answer_of result) self.new.state }
        ensures memory { DebugLacksMemory self.old.state (DebugEvent.StepOne pid) (answer_of result) }
        ensures loud { DebugLoudly self.old.state (DebugEvent.StepOne pid) (answer_of result) self.new.state }
        ensures capacity { self.old.capacity ≤ self.new.capacity }
    {
        step_one(&mut self.core, &mut self.debug, pid)
    }

    /// Rows of a process that were executed apart from the node take effect, so that they aren't run again. They must be those of a slice
    /// of the process as it was handed out, and node and process such that they can be committed now. State and answer are those of an
    /// event with as many rows, and one more where they end before a row of the node, which is executed now, or before a break spot, at
    /// which the process is then held. Where memory is refused, `NoMemory`, and nothing changes. It isn't refused if the rows sent nothing,
    /// didn't end the process, and don't end before a row of the node, if the process can be held without memory (`reserve`).
    pub fn install(&mut self, pid: u32, rows: Private) -> Result<Outcome, Refused>
        requires rows { AreSlices self.old.state pid rows }
        requires few { rows.count + 1 < 2 ^ 32 }
        ensures next { IfOk result (λ outcome. debug_next self.old.state (DebugEvent.Node (Event.Steps pid (rows_of_event rows)))
            ≡ record { answer = Ok (reply_of outcome); state = self.new.state }) }
        ensures err { OnErr result (self.new.state ≡ self.old.state) }
        ensures refused { IfErr result (λ refused. refused ≡ Refused.NoMemory) }
        ensures quiet { IsQuietSlice pid rows self.old.capacity → OnErr result ⊥ }
        ensures capacity { self.old.capacity ≤ self.new.capacity }
    {
        install(&mut self.core, &mut self.debug, pid, rows)
    }

    /// The view of a process, also of one that has ended. `NoProcess` where it was never started.
    pub fn inspect(&self, pid: u32) -> Result<View, Refused>
        ensures { Inspected self.now.state pid (inspect_answer result) }
    {
        inspect(self.alloc, &self.core, &self.debug, pid)
    }

    /// Applies the events one after another, with one answer an event. Where memory for the answers is refused, `NoMemory`, and no event is
    /// applied. The node itself comes to the state to which the events without the debugger's lead it. Memory is refused to each as `apply`
    /// says.
    pub fn run(
        &mut self,
        events: &[DebugEvent<Image>],
    ) -> Result<Vec<Result<Outcome, Refused>>, Refused>
        ensures run { IfOk result (λ answers. debug_run self.old.state (effective_debug_events events.now (map answer_of answers.items))
            ≡ record { answers = effective_debug_answers (map answer_of answers.items); state = self.new.state }) }
        ensures node { IfOk result (λ answers. node_alone self.old.state (effective_debug_events events.now (map answer_of answers.items)) ≡ self.new.state.node) }
        ensures each { IfOk result (λ answers. length answers.items ≡ length events.now) }
        ensures loud { IfOk result (λ answers. Each DebugLoudly self.old.state events.now (map answer_of answers.items)) }
        ensures memory { IfOk result (λ answers. Each LacksMemory self.old.state events.now (map answer_of answers.items)) }
        ensures capacity { self.old.capacity ≤ self.new.capacity }
        ensures err { OnErr result (self.new ≡ self.old) }
        ensures refused { IfErr result (λ refused. refused ≡ Refused.NoMemory) }
    {
        let mut answers = Vec::with_capacity(self.alloc, events.len())?;
        for event in events {
            let answer = self.apply(event);
            answers.push(answer).unwrap();
        }
        Ok(answers)
    }
}
