//! Signals that arrive at a process.
ghost use Rattle.std.specs.Prelude.{◌≡◌, ◌-◌, ◌++◌, ◌∷◌, false, [], length, take, None, if◌then◌else◌, OnOk, OnErr, IfOk, MatchOption};
ghost use Rattle.beam_term.specs.TermValue.{nil_term};
ghost use Rattle.beam_machine.specs.declared.process.Status.{Status};
ghost use Rattle.beam_machine.specs.declared.process.Status.TheVariants.{Running};
ghost use Rattle.beam_machine.specs.Process.{is_ended, ended, killed};
ghost use Rattle.beam_machine.specs.Row.{goes_on};
ghost use Rattle.beam_machine.specs.Next.{delivered};
ghost use Rattle.beam_proc.specs.Deliveries.{ends_by, ending};

use crate::process::Process;
use crate::terms::atom;
use beam_machine::process::{Goes, Signal, Status};
use beam_term::{Atom, Term, TermView};
use std::alloc::{AllocError, Global};
use std::mem;

/// The reason of the end that a process makes of an exit signal, if it ends.
fn ends_by(alloc: Global, pid: u32, sender: u32, reason: &Term) -> Result<Option<Term>, AllocError>
    ensures { IfOk result (λ end. end ≡ ends_by pid sender reason.now) }
{
    match reason.view() {
        TermView::Atom(name) => {
            let text = name.as_str();
            if text == "kill" {
                Ok(Some(atom(alloc, "killed")?))
            } else if text == "normal" && sender != pid {
                Ok(None)
            } else {
                Ok(Some(reason.clone()?))
            }
        }
        _ => Ok(Some(reason.clone()?)),
    }
}

/// The reason of the first signal that ends a process, if one does.
fn ending(alloc: Global, pid: u32, signals: &[Signal]) -> Result<Option<Term>, AllocError>
    ensures { IfOk result (λ end. end ≡ ending pid signals.now) }
{
    let mut rest = signals;
    while let Some((signal, more)) = rest.split_first() {
        if let Signal::Exit { sender, reason } = signal {
            let end = ends_by(alloc, pid, *sender, reason)?;
            if end.is_some() {
                return Ok(end);
            }
        }
        rest = more;
    }
    Ok(None)
}

impl Process {
    /// Puts a signal after those in transit to it. Where memory is refused nothing changes.
    pub fn post(&mut self, signal: Signal) -> Result<(), AllocError>
        ensures ok { OnOk result (self.new ≡ record self.old { transit = self.old.transit ++ signal ∷ [] }) }
        ensures err { OnErr result (self.new ≡ self.old) }
    {
        self.transit.push(signal)?;
        Ok(())
    }

    /// Takes the last signal in transit back, if there is one, without memory.
    pub fn take_back(&mut self)
        ensures { self.new ≡ record self.old { transit = take (length self.old.transit - 1) self.old.transit } }
    {
        let _last = self.transit.pop();
    }

    /// The reason with which it ends when all signals in transit arrive, if it ends.
    pub fn ending(&self) -> Result<Option<Term>, AllocError>
        ensures { IfOk result (λ end. end ≡ ending self.now.pid self.now.transit) }
    {
        ending(self.alloc, self.pid, &self.transit)
    }

    /// All signals in transit to it arrive, in order. Where memory is refused nothing changes.
    #[tactic(auto, using(crate::proofs::Deliveries::delivered_is))]
    pub fn deliver(&mut self) -> Result<(), AllocError>
        requires { is_ended self.old.status ≡ false }
        ensures ok { OnOk result (self.new ≡ delivered (record self.old { transit = [] }) self.old.transit) }
        ensures err { OnErr result (self.new ≡ self.old) }
    {
        match ending(self.alloc, self.pid, &self.transit)? {
            Some(reason) => self.end(reason, Term::nil()),
            None => self.take_in()?,
        }
        Ok(())
    }

    /// Ends with the reason killed, without memory.
    pub fn kill(&mut self)
        requires { is_ended self.old.status ≡ false }
        ensures { self.new ≡ ended self.old killed nil_term }
    {
        let reason = mem::replace(&mut self.killed, Term::nil());
        self.status = Status::Ended {
            reason: Term::nil(),
            value: Term::nil(),
        };
        self.end(reason, Term::nil());
    }

    /// Goes on where its deadline says, if it has one, without memory.
    pub fn time_out(&mut self)
        requires { is_ended self.old.status ≡ false }
        ensures { MatchOption self.old.deadline (self.new ≡ self.old)
            (λ d. self.new ≡ record (goes_on self.old d.after) { deadline = None; status = Running }) }
    {
        if let Some(deadline) = self.deadline {
            self.goes = Goes::At(deadline.after);
            self.deadline = None;
            self.status = Status::Running;
        }
    }

    /// Gives it a name, or takes its name.
    pub fn set_name(&mut self, name: Option<Atom>)
        ensures { self.new ≡ record self.old { name = name } }
    {
        self.name = name;
    }
}
