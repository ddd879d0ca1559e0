//! Calls and returns.
ghost use Rattle.std.specs.Prelude.{◌≡◌, false, None, OnErr};
ghost use Rattle.beam_machine.specs.Process.{ended, normal, put_x};
ghost use Rattle.beam_machine.specs.Row.{illegal, goes_to, enters, returns, answers, pushes};
ghost use Rattle.beam_proc.specs.Does.{Does, goes_or, IsLoud};

use crate::process::Process;
use crate::raised::Raised;
use crate::registers;
use beam_machine::action::Register;
use beam_machine::callee::After;
use beam_machine::event::Then;
use beam_machine::process::Status;
use beam_model::exception::{Exception, Fault};
use beam_model::place::Place;
use beam_term::Term;
use std::alloc::AllocError;

impl Process {
    /// Enters a function, if it is there.
    pub fn enter(&mut self, entry: Option<Place>) -> Result<Then, AllocError>
        requires { self.old.status ≡ Status.Running }
        ensures { Does self.old (enters self.old entry) result self.new }
    {
        match entry {
            Some(place) => Ok(self.go_on(place)),
            None => self.fault(Fault::Undef),
        }
    }

    /// Pushes a frame that returns to a place, and enters a function, if it is there.
    pub fn push_and_enter(&mut self, back: Place, entry: Option<Place>) -> Result<Then, AllocError>
        requires { self.old.status ≡ Status.Running }
        ensures { Does self.old (pushes self.old (λ q. enters q entry) back) result self.new }
    {
        self.push_and(back, entry, Fault::Undef)
    }

    /// Pushes a frame that returns to a place, and goes to the row of a label of that instance, if there is one.
    pub fn push_and_go(&mut self, back: Place, target: Option<usize>) -> Result<Then, AllocError>
        requires { self.old.status ≡ Status.Running }
        ensures { Does self.old (pushes self.old (λ q. goes_to q back.instance target) back) result self.new }
    {
        match target {
            Some(at) => {
                let place = Place::new(back.instance(), at);
                self.push_and(back, Some(place), Fault::IllegalOperand)
            }
            None => self.push_and(back, None, Fault::IllegalOperand),
        }
    }

    /// Pushes a frame that returns to a place, and goes on at a row, or raises the fault where there is none.
    #[tactic(auto, using(crate::proofs::Tags::framed_raises))]
    fn push_and(&mut self, back: Place, to: Option<Place>, fault: Fault) -> Result<Then, AllocError>
        requires { self.old.status ≡ Status.Running }
        ensures { Does self.old (pushes self.old (λ q. goes_or q to fault) back) result self.new }
    {
        if self.frames.words() >= 65536 {
            return self.fault(Fault::SystemLimit);
        }
        match to {
            Some(place) => {
                self.frames.push(back)?;
                Ok(self.go_on(place))
            }
            // The frame isn't pushed: it would hold no catch tag, and would be dropped at once.
            None => self.fault(fault),
        }
    }

    /// Answers that it ends with reason normal and a value. Nothing changes.
    pub(crate) fn finish(&self, value: Term) -> Result<Then, AllocError>
        ensures { Does self.now (ended self.now normal value) result self.now }
    {
        Ok(Then::Ended {
            reason: self.known.normal()?,
            value,
        })
    }

    /// Returns to the newest frame's place, and ends where it returns nowhere.
    #[tactic(auto, using(crate::proofs::Tags::returns_is))]
    pub fn return_back(&mut self) -> Result<Then, AllocError>
        requires { self.old.status ≡ Status.Running }
        ensures does { Does self.old (returns self.old) result self.new }
        ensures loud { OnErr result (IsLoud returns self.old) }
    {
        match self.frames.back() {
            None => self.illegal(),
            Some(None) => {
                let nil = Term::nil();
                let value = self.read_x(&nil, 0).clone()?;
                self.finish(value)
            }
            Some(Some(place)) => {
                self.frames.pop();
                Ok(self.go_on(place))
            }
        }
    }

    /// Puts a value into x0, and raises the fault of a wrong shape.
    #[tactic(auto, using(crate::proofs::Tags::unwound_is))]
    fn put_and_raise(&mut self, value: Term) -> Result<Then, AllocError>
        requires { self.old.status ≡ Status.Running }
        ensures { Does self.old (illegal (put_x self.old 0 value)) result self.new }
    {
        let raised = Raised::new(self.alloc, Exception::Fault(Fault::IllegalOperand))?;
        if self.frames.first_tag().is_none() {
            return Ok(raised.into_end());
        }
        registers::put(&mut self.x, 0, value)?;
        Ok(self.unwind(raised))
    }

    /// Puts a value into x0, and returns.
    #[tactic(auto, using(crate::proofs::Tags::returns_is, crate::proofs::Tags::read_written))]
    fn return_with(&mut self, value: Term) -> Result<Then, AllocError>
        requires { self.old.status ≡ Status.Running }
        ensures { Does self.old (returns (put_x self.old 0 value)) result self.new }
    {
        match self.frames.back() {
            None => self.put_and_raise(value),
            Some(None) => self.finish(value),
            Some(Some(place)) => {
                registers::put(&mut self.x, 0, value)?;
                self.frames.pop();
                Ok(self.go_on(place))
            }
        }
    }

    /// Puts the value of a called native into x0 and goes on or returns, or raises its exception.
    pub fn return_value(
        &mut self,
        after: After,
        value: Result<Term, Exception>,
    ) -> Result<Then, AllocError>
        requires { self.old.status ≡ Status.Running }
        ensures { Does self.old (answers self.old after value) result self.new }
    {
        match (value, after) {
            (Ok(value), After::NextRow(next)) => self.store(next, Register::X(0), value),
            (Ok(value), After::Return) => self.return_with(value),
            (Err(exception), _) => self.raise(exception),
        }
    }
}
