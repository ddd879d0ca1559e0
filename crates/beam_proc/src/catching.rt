//! The rows that raise and catch.
ghost use Rattle.std.specs.Prelude.{◌≡◌, option_map, IfOk};
ghost use Rattle.beam_term.specs.TermValue.{nil_term};
ghost use Rattle.beam_machine.specs.declared.action.Catching.TheVariants as catching;
ghost use Rattle.beam_model.specs.Exception.{clause_exception, class_of, class_term, value_of, trace_of};
ghost use Rattle.beam_machine.specs.Process.{put, put_x};
ghost use Rattle.beam_machine.specs.Row.{raises, raises_again, raises_raw, catch_rows};
ghost use Rattle.beam_proc.specs.Does.{Does, Puts};

use crate::process::Process;
use crate::raised::{caught, class_of, class_term, clause_exception, trace_of, value_of};
use crate::registers;
use crate::terms::atom;
use beam_machine::action::Register;
use beam_machine::event::Then;
use beam_machine::process::{Slot, Status};
use beam_model::exception::{Class, ClauseFault, Exception};
use beam_model::place::Place;
use beam_term::Term;
use std::alloc::{AllocError, Global};

/// The values of x0, x1 and x2 for an exception: its class, its value and its raw trace.
#[derive(Drop)]
struct ExceptionTerms {
    class: Term,
    value: Term,
    trace: Term,
}

impl ExceptionTerms {
    /// The values for this exception.
    fn of(alloc: Global, exception: &Exception) -> Result<ExceptionTerms, AllocError>
        ensures class { IfOk result (λ t. t.class ≡ class_term (class_of exception.now)) }
        ensures value { IfOk result (λ t. t.value ≡ value_of exception.now) }
        ensures trace { IfOk result (λ t. t.trace ≡ trace_of (class_of exception.now)) }
    {
        let class = class_of(exception);
        Ok(ExceptionTerms {
            class: class_term(alloc, class)?,
            value: value_of(alloc, exception)?,
            trace: trace_of(alloc, class)?,
        })
    }
}

impl Process {
    /// Puts `[]` into a register, and then the values of an exception into x0, x1 and x2. False where there is no such register; then,
    /// and where memory is refused, nothing changes.
    fn put_exception_terms(
        &mut self,
        dest: Register,
        terms: ExceptionTerms,
    ) -> Result<bool, AllocError>
        ensures { Puts self.old (option_map (λ q. put_x (put_x (put_x q 0 terms.class) 1 terms.value) 2 terms.trace) (put self.old dest nil_term))
            result self.new }
    {
        let ExceptionTerms {
            class,
            value,
            trace,
        } = terms;
        if !self.has(dest) {
            return Ok(false);
        }
        match dest {
            Register::X(register) => {
                registers::put_four(&mut self.x, register, class, value, trace)?;
            }
            Register::Y(register) => {
                registers::put_three(&mut self.x, class, value, trace)?;
                self.frames.put_slot(register, Slot::Value(Term::nil()));
            }
        }
        Ok(true)
    }

    /// Raises the exception of a value for which no clause was found.
    pub fn raise_clause(&mut self, fault: ClauseFault, value: &Term) -> Result<Then, AllocError>
        requires { self.old.status ≡ Status.Running }
        ensures { Does self.old (raises self.old (clause_exception fault value.now)) result self.new }
    {
        let exception = clause_exception(self.alloc, fault, value)?;
        self.raise(exception)
    }

    /// Raises an exception of a class and a value again, where there is a class.
    pub fn raise_again(&mut self, class: Option<Class>, value: Term) -> Result<Then, AllocError>
        requires { self.old.status ≡ Status.Running }
        ensures { Does self.old (raises_again self.old class value) result self.new }
    {
        match class {
            Some(class) => self.raise(Exception::Raised(class, value)),
            None => self.illegal(),
        }
    }

    /// Raises the exception of the class in x0, which is `class`, and the value in x1; without a class x0 becomes `badarg`.
    pub fn raw_raise(&mut self, next: Place, class: Option<Class>) -> Result<Then, AllocError>
        requires { self.old.status ≡ Status.Running }
        ensures { Does self.old (raises_raw self.old next class) result self.new }
    {
        match class {
            Some(class) => {
                let nil = Term::nil();
                let value = self.read_x(&nil, 1).clone()?;
                self.raise(Exception::Raised(class, value))
            }
            None => {
                let badarg = atom(self.alloc, "badarg")?;
                self.store(next, Register::X(0), badarg)
            }
        }
    }

    /// Clears a catch tag; x0 gets the value that catch makes of the pending exception, if there is one.
    pub fn catch_end(&mut self, next: Place, dest: Register) -> Result<Then, AllocError>
        requires { self.old.status ≡ Status.Running }
        ensures { Does self.old (catch_rows (catching.CatchEnd dest) next self.old) result self.new }
    {
        let Some(exception) = &self.pending else {
            return self.store(next, dest, Term::nil());
        };
        let terms = caught(self.alloc, exception)?;
        if self.put_two(dest, Term::nil(), Register::X(0), terms)? {
            self.pending = None;
            Ok(self.go_on(next))
        } else {
            self.illegal()
        }
    }

    /// Clears a catch tag.
    pub fn try_end(&mut self, next: Place, dest: Register) -> Result<Then, AllocError>
        requires { self.old.status ≡ Status.Running }
        ensures { Does self.old (catch_rows (catching.TryEnd dest) next self.old) result self.new }
    {
        self.store(next, dest, Term::nil())
    }

    /// Clears a catch tag; x0, x1 and x2 get the class, the value and the raw trace of the pending exception.
    pub fn try_case(&mut self, next: Place, dest: Register) -> Result<Then, AllocError>
        requires { self.old.status ≡ Status.Running }
        ensures { Does self.old (catch_rows (catching.TryCase dest) next self.old) result self.new }
    {
        let Some(exception) = &self.pending else {
            return self.illegal();
        };
        let terms = ExceptionTerms::of(self.alloc, exception)?;
        if self.put_exception_terms(dest, terms)? {
            self.pending = None;
            Ok(self.go_on(next))
        } else {
            self.illegal()
        }
    }

    /// Puts the trace of a raw trace, which is empty, into x0.
    pub fn build_stacktrace(&mut self, next: Place) -> Result<Then, AllocError>
        requires { self.old.status ≡ Status.Running }
        ensures { Does self.old (catch_rows catching.BuildStacktrace next self.old) result self.new }
    {
        self.store(next, Register::X(0), Term::nil())
    }
}
