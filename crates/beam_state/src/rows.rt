//! Rows of a process, and what they ask of the node.
ghost use Rattle.std.specs.Prelude.{◌≡◌, Some};
ghost use Rattle.std.specs.Fn.{FnOnceTakesAtMut, FnOnceReturnsAtMut};
ghost use Rattle.beam_machine.specs.Process.{Process as TheProcess};
ghost use Rattle.beam_machine.specs.State.{process_of, with_process};
ghost use Rattle.beam_laws.specs.Monitors.{ArePart};
ghost use Rattle.beam_laws.specs.Orderly.{Follows};
ghost use Rattle.beam_state.specs.Asking.{HasSlots, Responds, sending, asking, asking_dropping, sleeping, ending};
ghost use Rattle.beam_state.specs.Parts.{then_at, with_processes};

use crate::names::running;
use crate::state::State;
use crate::{asking, requests};
use beam_machine::callee::After;
use beam_machine::event::Then;
use beam_machine::process::Status;
use beam_model::native::NodeNative;
use beam_model::place::Place;
use beam_proc::process::Process;
use beam_term::Term;
use std::alloc::AllocError;

impl State {
    /// Makes a change of a process that runs, and gives back the change's answer. The change has to leave the process its pid, and its name
    /// or none; nothing else but the reason and the value where it ends the process; and it adds no monitor. No DOWN is sent of an end.
    pub fn change<T, F: FnOnce(&mut Process) -> T>(&mut self, pid: u32, change: F) -> T
        requires runs { then_at self.old.processes pid ≡ Some Then.GoesOn }
        requires callable { (p : TheProcess) → process_of self.old.processes pid ≡ Some p → FnOnceTakesAtMut F.FnOnce change p }
        requires keeps { (p q : TheProcess) (r : T) → p.status ≡ Status.Running → FnOnceReturnsAtMut F.FnOnce change p r q → Follows p.pid p.name q }
        requires monitors { (p q : TheProcess) (r : T) → p.status ≡ Status.Running → FnOnceReturnsAtMut F.FnOnce change p r q → ArePart p.monitors q.monitors }
        ensures { (p : TheProcess) → process_of self.old.processes pid ≡ Some p
            → (q : TheProcess) × FnOnceReturnsAtMut F.FnOnce change p result q
            × (self.new ≡ with_processes self.old (with_process self.old.processes pid q)) }
    {
        let index = running(self.processes.as_slice(), pid);
        self.processes.change(index, change)
    }

    /// A process that runs sends x1 to another, and goes on with it in x0.
    pub fn send_on(&mut self, pid: u32, to: u32, next: Place) -> Result<Then, AllocError>
        requires { then_at self.old.processes pid ≡ Some Then.GoesOn }
        ensures { Responds self.old pid (sending to next) result self.new }
    {
        requests::send(&mut self.processes, pid, to, next)
    }

    /// A process that runs waits at a row of the next row's instance, with a deadline this many milliseconds from now, after which the next
    /// row follows.
    pub fn sleep(
        &mut self,
        pid: u32,
        milliseconds: u32,
        at: usize,
        next: Place,
    ) -> Result<Then, AllocError>
        requires { then_at self.old.processes pid ≡ Some Then.GoesOn }
        ensures { Responds self.old pid (sleeping milliseconds at next) result self.new }
    {
        requests::sleep(&mut self.processes, self.clock, pid, milliseconds, at, next)
    }

    /// Ends a process that runs, with that reason and that value, and sends a DOWN to all that monitor it. Where memory is refused nothing
    /// changes.
    pub fn end(&mut self, pid: u32, reason: Term, value: Term) -> Result<Then, AllocError>
        requires { then_at self.old.processes pid ≡ Some Then.GoesOn }
        ensures { Responds self.old pid (ending reason value) result self.new }
    {
        requests::end(
            self.alloc,
            &mut self.processes,
            self.references,
            pid,
            reason,
            value,
        )
    }

    /// Answers a native to a process that runs and asks for it.
    pub fn ask(
        &mut self,
        pid: u32,
        native: NodeNative,
        arity: u32,
        after: After,
    ) -> Result<Then, AllocError>
        requires { then_at self.old.processes pid ≡ Some Then.GoesOn }
        ensures { Responds self.old pid (asking native arity after) result self.new }
    {
        self.processes.sweep(self.references);
        asking::ask(
            &mut self.processes,
            &mut self.references,
            pid,
            None,
            native,
            arity,
            after,
        )
    }

    /// Answers a native to a process that runs and asks for it before a return. It drops its y registers first, of which there are exactly
    /// `dropped`.
    pub fn ask_dropping(
        &mut self,
        pid: u32,
        dropped: u32,
        native: NodeNative,
        arity: u32,
    ) -> Result<Then, AllocError>
        requires runs { then_at self.old.processes pid ≡ Some Then.GoesOn }
        requires slots { HasSlots dropped pid self.old.processes }
        ensures { Responds self.old pid (asking_dropping dropped native arity) result self.new }
    {
        self.processes.sweep(self.references);
        asking::ask(
            &mut self.processes,
            &mut self.references,
            pid,
            Some(dropped),
            native,
            arity,
            After::Return,
        )
    }
}
