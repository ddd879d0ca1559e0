//! Going on, jumping and storing.
ghost use Rattle.std.specs.Prelude.{◌≡◌, false, None, Ok, OnErr};
ghost use Rattle.beam_machine.specs.Process.{then_of, put, put_y};
ghost use Rattle.beam_machine.specs.Row.{goes_on, goes_to, stores, stores_computed, fails};
ghost use Rattle.beam_proc.specs.Does.{Does, IsLoud, Puts};
ghost use Rattle.beam_proc.specs.Frames.{has_register, puts_two};

use crate::process::Process;
use crate::registers;
use crate::stack::has_register;
use beam_machine::action::{OnFault, Register};
use beam_machine::event::Then;
use beam_machine::process::{Goes, Slot, Status};
use beam_model::exception::Exception;
use beam_model::place::Place;
use beam_term::Term;
use std::alloc::AllocError;

impl Process {
    /// Goes on at a row.
    #[inline(always)]
    pub fn go_on(&mut self, place: Place) -> Then
        requires { self.old.status ≡ Status.Running }
        ensures process { self.new ≡ goes_on self.old place }
        ensures then { result ≡ then_of self.new.status }
    {
        self.goes = Goes::At(place);
        Then::GoesOn
    }

    /// Goes to the row of a label of an instance, if there is one.
    pub fn go_to(&mut self, instance: u32, target: Option<usize>) -> Result<Then, AllocError>
        requires { self.old.status ≡ Status.Running }
        ensures does { Does self.old (goes_to self.old instance target) result self.new }
        ensures loud { OnErr result (IsLoud (λ p. goes_to p instance target) self.old) }
    {
        match target {
            Some(at) => Ok(self.go_on(Place::new(instance, at))),
            None => self.illegal(),
        }
    }

    /// Puts a value into a register. False where there is no such register; then, and where memory is refused, nothing changes.
    pub(crate) fn put(&mut self, dest: Register, value: Term) -> Result<bool, AllocError>
        ensures { Puts self.old (put self.old dest value) result self.new }
    {
        match dest {
            Register::X(register) => {
                registers::put(&mut self.x, register, value)?;
                Ok(true)
            }
            Register::Y(register) => Ok(self.put_y(register, Slot::Value(value))),
        }
    }

    /// Puts a slot into a y register. False where there is no such register; then nothing changes.
    pub(crate) fn put_y(&mut self, register: u32, slot: Slot) -> bool
        ensures { Puts self.old (put_y self.old self.old.frames register slot) (Ok result) self.new }
    {
        let there = (register as usize) < self.frames.y_count();
        if there {
            self.frames.put_slot(register, slot);
        }
        there
    }

    /// Whether there is a register to put a value into.
    pub(crate) fn has(&self, register: Register) -> bool
        ensures { result ≡ has_register self.now.frames register }
    {
        has_register(&self.frames, register)
    }

    /// Puts a value into a register, and goes on.
    pub fn store(&mut self, next: Place, dest: Register, value: Term) -> Result<Then, AllocError>
        requires { self.old.status ≡ Status.Running }
        ensures { Does self.old (stores self.old next dest value) result self.new }
    {
        if self.put(dest, value)? {
            Ok(self.go_on(next))
        } else {
            self.illegal()
        }
    }

    /// Goes to an instruction's label, or raises the exception where it has none.
    pub fn fail(
        &mut self,
        instance: u32,
        fail: OnFault,
        exception: Exception,
    ) -> Result<Then, AllocError>
        requires { self.old.status ≡ Status.Running }
        ensures { Does self.old (fails self.old instance fail exception) result self.new }
    {
        match fail {
            OnFault::Raises => self.raise(exception),
            OnFault::Goes(target) => self.go_to(instance, target),
        }
    }

    /// Puts the value of a native into a register, and goes on; where it has none goes to a label or raises.
    pub fn store_computed(
        &mut self,
        next: Place,
        dest: Register,
        fail: OnFault,
        computed: Result<Term, Exception>,
    ) -> Result<Then, AllocError>
        requires { self.old.status ≡ Status.Running }
        ensures { Does self.old (stores_computed self.old next dest fail computed) result self.new }
    {
        match computed {
            Ok(value) => self.store(next, dest, value),
            Err(exception) => self.fail(next.instance(), fail, exception),
        }
    }

    /// Puts two values into two registers. False where there are no such registers; then, and where memory is refused, nothing
    /// changes.
    pub(crate) fn put_two(
        &mut self,
        first: Register,
        value: Term,
        second: Register,
        other: Term,
    ) -> Result<bool, AllocError>
        ensures { Puts self.old (puts_two self.old first value second other) result self.new }
    {
        if !self.has(first) || !self.has(second) {
            return Ok(false);
        }
        match (first, second) {
            (Register::X(first), Register::X(second)) => {
                registers::put_two(&mut self.x, first, value, second, other)?;
            }
            (Register::X(first), Register::Y(second)) => {
                registers::put(&mut self.x, first, value)?;
                self.frames.put_slot(second, Slot::Value(other));
            }
            (Register::Y(first), Register::X(second)) => {
                registers::put(&mut self.x, second, other)?;
                self.frames.put_slot(first, Slot::Value(value));
            }
            (Register::Y(first), Register::Y(second)) => {
                self.frames.put_slot(first, Slot::Value(value));
                self.frames.put_slot(second, Slot::Value(other));
            }
        }
        Ok(true)
    }
}
