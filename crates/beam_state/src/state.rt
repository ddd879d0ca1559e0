//! The state and its events.
ghost use Rattle.std.specs.Prelude.{◌≡◌, ℕ, false, List, Some, IfOk, OnErr};
ghost use Rattle.std.specs.Option.{option_copied};
ghost use Rattle.beam_machine.specs.Process.{Process as TheProcess};
ghost use Rattle.beam_machine.specs.Quiet.{is_monitored};
ghost use Rattle.beam_machine.specs.State.{process_of, live_process};
ghost use Rattle.beam_machine.specs.Ready.{ready_after, next_deadline};
ghost use Rattle.beam_laws.specs.Monitors.{AreRising};
ghost use Rattle.beam_state.specs.Parts.{AnswersAlone, LacksAlone, fresh};
ghost use Rattle.beam_state.specs.Posting.{notices_of};

use crate::processes::Processes;
use crate::{arrivals, ends, names, starting};
use beam_image::Image;
use beam_machine::event::{Event, Refused, Reply, SpawnArguments};
use beam_proc::entry::ProcessEntry;
use beam_proc::private::Sent;
use beam_proc::process::Process;
use beam_term::{Atom, Term};
use std::alloc::{AllocError, Global};
use std::marker::Model;

/// The processes of a node, its clock, and how many instances were loaded.
pub struct State {
    pub(crate) alloc: Global,
    /// Process n is the n-th.
    pub(crate) processes: Processes,
    /// In milliseconds.
    pub(crate) clock: u64,
    /// The number of the instance that was loaded last.
    pub(crate) instances: u32,
    /// The number of the reference that was made last.
    pub(crate) references: u32,
}

impl Drop for State {
    fn drop(self) {
        let State {
            alloc: _alloc,
            processes: _processes,
            clock: _clock,
            instances: _instances,
            references: _references,
        } = self;
    }
}

impl Model for State {
    ghost use Rattle.std.specs.Coded.{codes};
    ghost use Rattle.beam_term.specs.Coding.{term_code};
    ghost use Rattle.beam_state.specs.Parts.{Parts, parts};
    ghost use Rattle.beam_state.specs.Posting.{AreLawful};

    ghost Value = { Parts };

    ghost coded = { Prim.hlevel (codes, term_code) };

    ghost view = { λ s. parts s.processes s.clock s.instances s.references };

    // Process n has pid n, an ended one is its pid, its reason and its value, and no two have one name. The references of each process's
    // monitors rise, and are among those that were made.
    ghost invariant = { λ s. AreLawful s.references s.processes };
}

impl State {
    /// No processes, at time 0, no instance was loaded, and no reference was made.
    #[tactic(auto, using(beam_laws::proofs::Orderly::none_orderly))]
    pub fn new(alloc: Global) -> State
        ensures { result ≡ fresh }
    {
        State {
            alloc,
            processes: Processes::new(alloc),
            clock: 0,
            instances: 0,
            references: 0,
        }
    }

    /// In every state process n has pid n, no two processes have one name, and the references of each process's monitors rise, and are
    /// among those that were made.
    pub fn recall_invariant(&self)
        ensures pids { (n : ℕ) (p : TheProcess) → process_of self.now.processes n ≡ Some p → p.pid ≡ n }
        ensures names { (m n : ℕ) (p q : TheProcess) (name : List ℕ) → process_of self.now.processes m ≡ Some p → process_of self.now.processes n ≡ Some q
            → p.name ≡ Some name → q.name ≡ Some name → m ≡ n }
        ensures references { AreRising self.now.references self.now.processes }
    {
        let _processes = &self.processes;
    }

    /// The process of that number, also one that has ended.
    pub fn process(&self, pid: u32) -> Option<&ProcessEntry>
        ensures { option_copied result ≡ process_of self.now.processes pid }
    {
        names::process(self.processes.as_slice(), pid)
    }

    /// The process of that number, if it hasn't ended.
    pub fn live(&self, pid: u32) -> Option<&Process>
        ensures { option_copied result ≡ live_process self.now.processes pid }
    {
        names::live(self.processes.as_slice(), pid)
    }

    /// The least number above `after` of a process that hasn't ended, and runs or has a signal in transit to it, in O(log n).
    pub fn ready(&self, after: u32) -> Option<u32>
        ensures { result ≡ ready_after after self.now.processes }
    {
        self.processes.ready_after(after)
    }

    /// The least deadline of a waiting process, and the least number of a process that has it, in O(log n).
    pub fn next_deadline(&self) -> Option<(u64, u32)>
        ensures { result ≡ next_deadline self.now.processes }
    {
        self.processes.next_deadline()
    }

    /// The clock, in milliseconds.
    pub fn clock(&self) -> u64
        ensures { result ≡ self.now.clock }
    {
        self.clock
    }

    /// The signals that all others are sent where the process of that number ends for that reason: a DOWN for each monitor of it. It isn't
    /// refused where the process isn't monitored.
    pub fn notices(&self, pid: u32, reason: &Term) -> Result<Vec<Sent>, AllocError>
        ensures ok { IfOk result (λ notices. notices.items ≡ notices_of self.now.processes pid reason.now) }
        ensures quiet { is_monitored self.now.processes pid ≡ false → OnErr result ⊥ }
    {
        ends::notices(
            Vec::new(self.alloc),
            &self.processes,
            self.references,
            pid,
            reason,
        )
    }

    /// A process starts. `TooMany` where 2^28 - 1 were started.
    pub fn spawn(
        &mut self,
        name: &Atom,
        function: &Atom,
        arguments: &SpawnArguments,
    ) -> Result<Reply, Refused>
        ensures next { AnswersAlone self.old (Event.Spawn name.now function.now arguments.now) result self.new }
        ensures memory { LacksAlone self.old (Event.Spawn name.now function.now arguments.now) result self.new }
    {
        starting::spawn(self.alloc, &mut self.processes, name, function, arguments)
    }

    /// Puts a message in transit to a process, found by its pid or its name. `NoProcess` where there is none, or it has ended.
    pub fn send(&mut self, to: &Term, message: &Term) -> Result<Reply, Refused>
        ensures next { AnswersAlone self.old (Event.Send to.now message.now) result self.new }
        ensures memory { LacksAlone self.old (Event.Send to.now message.now) result self.new }
    {
        arrivals::send(&mut self.processes, to, message)
    }

    /// All signals in transit to a process arrive. `NoProcess` where it has ended or was never started, `NotReady` where no signal is in
    /// transit to it. If they end it, all that monitor it are sent a DOWN.
    pub fn deliver(&mut self, pid: u32) -> Result<Reply, Refused>
        ensures next { AnswersAlone self.old (Event.Deliver pid) result self.new }
        ensures memory { LacksAlone self.old (Event.Deliver pid) result self.new }
    {
        arrivals::deliver(self.alloc, &mut self.processes, self.references, pid)
    }

    /// The clock moves, in milliseconds. `BackwardClock` where it would go back.
    pub fn tick(&mut self, now: u64) -> Result<Reply, Refused>
        ensures next { AnswersAlone self.old (Event.Clock now) result self.new }
        ensures memory { LacksAlone self.old (Event.Clock now) result self.new }
    {
        arrivals::tick(&mut self.clock, now)
    }

    /// A waiting process whose deadline has come goes on. `NoProcess` where it has ended or was never started, `NotReady` where it
    /// doesn't wait, or has no deadline that has come.
    pub fn time_out(&mut self, pid: u32) -> Result<Reply, Refused>
        ensures next { AnswersAlone self.old (Event.Timeout pid) result self.new }
        ensures memory { LacksAlone self.old (Event.Timeout pid) result self.new }
    {
        arrivals::time_out(&mut self.processes, self.clock, pid)
    }
}
