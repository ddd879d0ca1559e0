//! The node: one event after another.
ghost use Rattle.std.specs.Prelude.{◌≡◌, ◌<◌, ℕ, List, length, Some, IfOk, IfErr, OnErr};
ghost use Rattle.std.specs.List.{AllByRecursion};
ghost use Rattle.std.specs.Option.{option_copied};
ghost use Rattle.beam_model.specs.Heads.{CanLoad};
ghost use Rattle.beam_machine.specs.Change.{AreHome};
ghost use Rattle.beam_machine.specs.Process.{Process as TheProcess};
ghost use Rattle.beam_machine.specs.State.{empty, process_of};
ghost use Rattle.beam_machine.specs.Run.{Answers, run, effective_events, effective_answers};
ghost use Rattle.beam_machine.specs.Quiet.{StopsLoudly, LacksMemory, Each};
ghost use Rattle.beam_machine.specs.Ready.{ready_after, next_deadline};
ghost use Rattle.beam_laws.specs.Numbers.{Ordered};
ghost use Rattle.beam_shape_laws.specs.Shaped.{IsFramedNode, LoadsFramed};
ghost use Rattle.beam_state.specs.Parts.{node, then_at};
ghost use Rattle.beam_core.specs.Halt.{HaltsAt, HaltsLoudly, ShortHaltsAt};
ghost use Rattle.beam_core.specs.Installing.{AreRowsOf, Installed, AreQuiet};

use crate::install::install;
use crate::short::short_rows;
use crate::steps::{run_rows, steps};
use beam_codesrv::CodeTable;
use beam_image::Image;
use beam_machine::event::{Event, Refused, Reply, Then};
use beam_model::place::Place;
use beam_proc::entry::ProcessEntry;
use beam_proc::private::Private;
use beam_state::state::State;
use std::alloc::Global;
use std::marker::Model;

/// A node: its code, and its processes, clock and count of instances.
pub struct Core {
    alloc: Global,
    code: CodeTable,
    state: State,
}

impl Drop for Core {
    fn drop(self) {
        let Core {
            alloc: _alloc,
            code: _code,
            state: _state,
        } = self;
    }
}

impl Model for Core {
    ghost use Rattle.std.specs.Coded.{codes};
    ghost use Rattle.beam_term.specs.Coding.{term_code};
    ghost use Rattle.beam_machine.specs.State.{State as TheState};
    ghost use Rattle.beam_machine.specs.Change.{AreHome};
    ghost use Rattle.beam_laws.specs.Numbers.{Ordered};
    ghost use Rattle.beam_shape_laws.specs.Shaped.{IsFramedNode};
    ghost use Rattle.beam_state.specs.Parts.{node};

    ghost Value = { TheState };

    ghost coded = { Prim.hlevel (codes, term_code) };

    ghost view = { λ c. node c.code c.state };

    // Processes lie in instances that are current or old, no instance has a number above the count, and each row finds what it names.
    ghost invariant = { λ c. AreHome c.code c.state.processes × Ordered c.code c.state.instances × IsFramedNode (node c.code c.state) };
}

/// Makes it known that the listing of each image can be loaded.
fn all_stand(images: &[Image])
    ensures { AllByRecursion CanLoad images.now }
{
    let mut rest = images;
    while let Some((image, others)) = rest.split_first() {
        image.recall_invariant();
        rest = others;
    }
}

/// Applies one event. No instance has the next number.
fn apply(code: &mut CodeTable, state: &mut State, event: &Event<Image>) -> Result<Reply, Refused>
    requires ordered { Ordered code.old state.old.instances }
    requires framed { IsFramedNode (node code.old state.old) }
    ensures next { Answers (node code.old state.old) event.now result (node code.new state.new) }
    ensures loud { StopsLoudly (node code.old state.old) event.now result (node code.new state.new) }
    ensures memory { LacksMemory (node code.old state.old) event.now result (node code.new state.new) }
    ensures framed { LoadsFramed event.now }
{
    match event {
        Event::Load(image) => {
            image.recall_invariant();
            state.load(code, image)
        }
        Event::LoadStrict(image) => {
            image.recall_invariant();
            state.load_strict(code, image)
        }
        Event::AtomicLoad { mode, images } => {
            all_stand(images.as_slice());
            state.atomic_load(code, *mode, images.as_slice())
        }
        Event::Delete(name) => Ok(Reply::Changed(code.delete(name))),
        Event::SoftPurge(name) => state.soft_purge(code, name),
        Event::Purge(name) => state.purge(code, name),
        Event::Versions(name) => Ok(code.versions(name)),
        Event::Spawn {
            module,
            function,
            arguments,
        } => state.spawn(module, function, arguments),
        Event::Send { to, message } => state.send(to, message),
        Event::Steps { pid, rows } => steps(code, state, *pid, *rows),
        Event::Deliver { pid } => state.deliver(*pid),
        Event::Clock { now } => state.tick(*now),
        Event::Timeout { pid } => state.time_out(*pid),
    }
}

impl Core {
    /// A node with no code and no processes.
    pub fn new(alloc: Global) -> Core
        ensures { result ≡ empty }
    {
        Core {
            alloc,
            code: CodeTable::new(alloc),
            state: State::new(alloc),
        }
    }

    /// In every state each instance in which a process lingers is current or old, process n has pid n, and no two have one name. The
    /// listings can be loaded, and the frames of each process have the shapes of their places, so each row finds what it names, in the
    /// node and in a slice (`beam_shape_laws`).
    pub fn recall_invariant(&self)
        ensures home { AreHome self.now.code self.now.processes }
        ensures framed { IsFramedNode self.now }
        ensures pids { (n : ℕ) (p : TheProcess) → process_of self.now.processes n ≡ Some p → p.pid ≡ n }
        ensures names { (m n : ℕ) (p q : TheProcess) (name : List ℕ) → process_of self.now.processes m ≡ Some p → process_of self.now.processes n ≡ Some q
            → p.name ≡ Some name → q.name ≡ Some name → m ≡ n }
    {
        let _code = &self.code;
        self.state.recall_invariant();
    }

    /// Its code.
    pub fn table(&self) -> &CodeTable
        ensures { result.now ≡ self.now.code }
    {
        &self.code
    }

    /// The process of that number, also one that has ended.
    pub fn process(&self, pid: u32) -> Option<&ProcessEntry>
        ensures { option_copied result ≡ process_of self.now.processes pid }
    {
        self.state.process(pid)
    }

    /// The least number above `after` of a process that hasn't ended, and runs or has a signal in transit to it.
    pub fn ready(&self, after: u32) -> Option<u32>
        ensures { result ≡ ready_after after self.now.processes }
    {
        self.state.ready(after)
    }

    /// The least deadline of a waiting process, and the least number of a process that has it.
    pub fn next_deadline(&self) -> Option<(u64, u32)>
        ensures { result ≡ next_deadline self.now.processes }
    {
        self.state.next_deadline()
    }

    /// The clock, in milliseconds.
    pub fn clock(&self) -> u64
        ensures { result ≡ self.now.clock }
    {
        self.state.clock()
    }

    /// Applies one event, as the definition of `next` says. Where memory is refused in the middle of `Steps`, the reply says how many rows
    /// were executed; otherwise the answer is `NoMemory`. A refusal changes nothing. Memory stops no `Steps` before a quiet row. It is
    /// refused only to events that may take some and aren't refused otherwise: not to deletions, questions and time, nor to purges that end
    /// no monitored process.
    pub fn apply(&mut self, event: &Event<Image>) -> Result<Reply, Refused>
        ensures next { Answers self.old event.now result self.new }
        ensures loud { StopsLoudly self.old event.now result self.new }
        ensures memory { LacksMemory self.old event.now result self.new }
    {
        apply(&mut self.code, &mut self.state, event)
    }

    /// Executes rows of a process that runs: at most `rows`, until it waits or ends, or its next row is that of a break spot, which it may
    /// pass as its first row if `passes`. Answers how many, and how the process then stands, or `None` where it stopped before a break
    /// spot. Where memory is refused after a first row, the rows that were executed stand; before it, `NoMemory`, and nothing changes.
    /// Memory isn't refused to a quiet row, nor where `rows` is 0. Rows of an instance without break spots cost what they cost in `apply`.
    pub fn rows_before_spots(
        &mut self,
        pid: u32,
        rows: u32,
        spots: &[Place],
        passes: bool,
    ) -> Result<(u32, Option<Then>), Refused>
        requires { then_at self.old.processes pid ≡ Some Then.GoesOn }
        ensures halts { HaltsAt spots.now passes pid rows self.old result self.new }
        ensures loud { HaltsLoudly pid rows self.old result self.new }
        ensures memory { OnErr result (0 < rows) }
    {
        run_rows(&self.code, &mut self.state, spots, passes, pid, rows)
    }

    /// Executes rows of a process that runs: at most `limit`, until it waits or ends, or its next row may take long. Answers how many, and how
    /// the process then stands: they are the rows of a `Steps` of that count. `None`, and nothing changes, where its first row
    /// may take long. Where memory is refused after a first row, the rows that were executed stand; before it, `NoMemory`, and nothing
    /// changes. A row may take long if its cost grows with a term, a list
    /// of operands or a stack: none is executed that takes longer than some thousand instructions of the processor, but for what the last
    /// owner of a large term takes to drop it. A wait with a timeout begins only where `has_moment`, that is, the clock has the present moment;
    /// else its row counts among those that may take long.
    pub fn short_rows(
        &mut self,
        pid: u32,
        limit: u32,
        has_moment: bool,
    ) -> Result<Option<(u32, Then)>, Refused>
        requires { then_at self.old.processes pid ≡ Some Then.GoesOn }
        ensures { ShortHaltsAt pid self.old result self.new }
    {
        short_rows(&self.code, &mut self.state, pid, limit, has_moment)
    }

    /// Rows of a process that were executed apart from the node take effect, and the row of the node before which they end is executed.
    /// Answers how the process then stands. The process must still be the one with which they began, but for its name and the signals in
    /// transit to it. It becomes what the rows made of it, with that name and those signals, and the signals that they sent are posted in
    /// their order. Where memory is refused, `NoMemory`, and nothing changes. It isn't refused if no signal was sent, the process hasn't
    /// ended, and no row of the node follows.
    pub fn install(&mut self, pid: u32, rows: Private) -> Result<Then, Refused>
        requires { AreRowsOf self.old pid rows }
        ensures ok { IfOk result (λ then. Installed self.old pid rows then self.new) }
        ensures err { OnErr result (self.new ≡ self.old) }
        ensures refused { IfErr result (λ refused. refused ≡ Refused.NoMemory) }
        ensures quiet { AreQuiet rows → OnErr result ⊥ }
    {
        install(&self.code, &mut self.state, pid, rows)
    }

    /// Applies the events one after another, with one answer an event. Where memory for the answers is refused, `NoMemory`, and no event is
    /// applied.
    pub fn run(&mut self, events: &[Event<Image>]) -> Result<Vec<Result<Reply, Refused>>, Refused>
        ensures run { IfOk result (λ answers. run self.old (effective_events events.now answers.items) ≡ record { answers = effective_answers answers.items; state = self.new }) }
        ensures each { IfOk result (λ answers. length answers.items ≡ length events.now) }
        ensures loud { IfOk result (λ answers. Each StopsLoudly self.old events.now answers.items) }
        ensures memory { IfOk result (λ answers. Each LacksMemory self.old events.now answers.items) }
        ensures err { OnErr result (self.new ≡ self.old) }
        ensures refused { IfErr result (λ refused. refused ≡ Refused.NoMemory) }
    {
        let mut answers = Vec::with_capacity(self.alloc, events.len())?;
        for event in events {
            let answer = self.apply(event);
            answers.push(answer).unwrap();
        }
        Ok(answers)
    }
}
