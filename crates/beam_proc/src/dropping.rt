//! Rows that drop the y registers first: the drop, and the action after it.
ghost use Rattle.std.specs.Prelude.{◌≡◌, true, is_some, Ok};
ghost use Rattle.beam_machine.specs.declared.callee.After.TheVariants.{Return};
ghost use Rattle.beam_machine.specs.Process.{bared, dropped, put_x};
ghost use Rattle.beam_machine.specs.Row.{makes, goes_to, enters, answers, faults, raises, returns, after_dropping};
ghost use Rattle.beam_proc.specs.Does.{Makes, goes_or};

use crate::process::Process;
use crate::raised::Raised;
use crate::registers;
use beam_machine::event::Then;
use beam_machine::process::Status;
use beam_model::exception::{Exception, Fault};
use beam_model::place::Place;
use beam_term::Term;
use std::alloc::AllocError;

impl Process {
    /// Drops the y registers of the newest frame, however many there are, and raises an exception, without memory. A catch tag among them
    /// doesn't catch it.
    #[tactic(auto, using(crate::proofs::Tags::unwound_is))]
    fn bare_and_unwind(&mut self, raised: Raised) -> Then
        requires { self.old.status ≡ Status.Running }
        ensures { Makes self.old (makes (raises (bared self.old) raised)) (Ok result) self.new }
    {
        if self.frames.older_tag().is_none() {
            return raised.into_end();
        }
        self.frames.drop_y();
        self.unwind(raised)
    }

    /// Drops `count` y registers, and raises an exception. Where there aren't exactly that many, the row has a wrong shape.
    #[tactic(auto, using(crate::proofs::Drops::drops_then))]
    fn drop_and_raise(&mut self, count: u32, exception: Exception) -> Result<Then, AllocError>
        requires { self.old.status ≡ Status.Running }
        ensures { Makes self.old (after_dropping self.old (dropped count self.old self.old.frames) (λ q. makes (raises q exception))) result self.new }
    {
        if !self.can_drop(count) {
            return self.illegal();
        }
        let raised = Raised::new(self.alloc, exception)?;
        Ok(self.bare_and_unwind(raised))
    }

    /// Drops the y registers of the newest frame, however many there are, and raises an exception. Where memory is refused nothing changes.
    pub fn bare_and_raise(&mut self, exception: Exception) -> Result<Then, AllocError>
        requires { self.old.status ≡ Status.Running }
        ensures { Makes self.old (makes (raises (bared self.old) exception)) result self.new }
    {
        let raised = Raised::new(self.alloc, exception)?;
        Ok(self.bare_and_unwind(raised))
    }

    /// Drops `count` y registers, and goes on at a row, or raises a fault where there is none.
    #[tactic(auto, using(crate::proofs::Drops::drops_then))]
    fn drop_and(&mut self, count: u32, to: Option<Place>, fault: Fault) -> Result<Then, AllocError>
        requires { self.old.status ≡ Status.Running }
        ensures { Makes self.old (after_dropping self.old (dropped count self.old self.old.frames) (λ q. makes (goes_or q to fault))) result self.new }
    {
        let Some(place) = to else {
            return self.drop_and_raise(count, Exception::Fault(fault));
        };
        if !self.can_drop(count) {
            return self.illegal();
        }
        self.drop_slots(count);
        Ok(self.go_on(place))
    }

    /// Drops `count` y registers, puts a value into x0, and returns.
    #[tactic(auto, using(crate::proofs::Drops::drops_and_returns, crate::proofs::Tags::read_written))]
    fn drop_and_return(&mut self, count: u32, value: Term) -> Result<Then, AllocError>
        requires { self.old.status ≡ Status.Running }
        ensures { Makes self.old (after_dropping self.old (dropped count self.old self.old.frames) (λ q. makes (returns (put_x q 0 value)))) result self.new }
    {
        if !self.can_drop(count) {
            return self.illegal();
        }
        match self.frames.newest_back() {
            Some(place) => {
                registers::put(&mut self.x, 0, value)?;
                self.frames.pop();
                Ok(self.go_on(place))
            }
            None => self.finish(value),
        }
    }

    /// Drops `count` y registers, and goes to the row of a label of an instance, if there is one.
    pub fn drop_and_go(
        &mut self,
        count: u32,
        instance: u32,
        target: Option<usize>,
    ) -> Result<Then, AllocError>
        requires { self.old.status ≡ Status.Running }
        ensures { Makes self.old (after_dropping self.old (dropped count self.old self.old.frames) (λ q. makes (goes_to q instance target))) result self.new }
    {
        match target {
            Some(at) => self.drop_and(count, Some(Place::new(instance, at)), Fault::IllegalOperand),
            None => self.drop_and(count, None, Fault::IllegalOperand),
        }
    }

    /// Drops `count` y registers, and enters a function, if it is there.
    pub fn drop_and_enter(&mut self, count: u32, entry: Option<Place>) -> Result<Then, AllocError>
        requires { self.old.status ≡ Status.Running }
        ensures { Makes self.old (after_dropping self.old (dropped count self.old self.old.frames) (λ q. makes (enters q entry))) result self.new }
    {
        self.drop_and(count, entry, Fault::Undef)
    }

    /// Drops `count` y registers, and raises a fault.
    pub fn drop_and_fault(&mut self, count: u32, fault: Fault) -> Result<Then, AllocError>
        requires { self.old.status ≡ Status.Running }
        ensures { Makes self.old (after_dropping self.old (dropped count self.old self.old.frames) (λ q. makes (faults q fault))) result self.new }
    {
        self.drop_and(count, None, fault)
    }

    /// Drops `count` y registers, puts the value of a called native into x0 and returns, or raises its exception.
    pub fn drop_and_return_value(
        &mut self,
        count: u32,
        value: Result<Term, Exception>,
    ) -> Result<Then, AllocError>
        requires { self.old.status ≡ Status.Running }
        ensures { Makes self.old (after_dropping self.old (dropped count self.old self.old.frames) (λ q. makes (answers q Return value))) result self.new }
    {
        match value {
            Ok(value) => self.drop_and_return(count, value),
            Err(exception) => self.drop_and_raise(count, exception),
        }
    }
}
