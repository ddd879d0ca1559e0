//! Return values of natives, and the actions after natives, done without memory.
ghost use Rattle.std.specs.Prelude.{◌≡◌, ◌<◌, true, length, is_some, None, Ok, IfOk};
ghost use Rattle.std.specs.Option.{option_copied};
ghost use Rattle.beam_machine.specs.Process.{put_x, dropped, then_of, with_y};
ghost use Rattle.beam_machine.specs.Row.{goes_on, raises, returns, answers};
ghost use Rattle.beam_model.specs.Exception.{exit_reason};
ghost use Rattle.beam_proc.specs.Continuation.{after_of, reason_of, IsPrepared, IsReturning};
ghost use Rattle.beam_term.specs.TermValue.{TermValue};

use crate::known::Known;
use crate::process::Process;
use crate::raised::Raised;
use crate::registers;
use beam_machine::callee::After;
use beam_machine::event::Then;
use beam_machine::process::Status;
use beam_model::exception::{Exception, Fault};
use beam_model::place::Place;
use beam_term::Term;
use std::alloc::{AllocError, Global};
use std::marker::Model;

/// The value of a native, with a copy for the reply, so that a process can end with it.
pub struct ReturnValue {
    value: Term,
    said: Term,
}

impl Drop for ReturnValue {
    fn drop(self) {
        let ReturnValue {
            value: _value,
            said: _said,
        } = self;
    }
}

impl Model for ReturnValue {
    ghost use Rattle.std.specs.Prelude.{◌≡◌};
    ghost use Rattle.std.specs.Coded.{codes};
    ghost use Rattle.beam_term.specs.Coding.{term_code};
    ghost use Rattle.beam_term.specs.TermValue.{TermValue};

    ghost Value = { TermValue };

    ghost coded = { Prim.hlevel (codes, term_code) };

    ghost view = { λ a. a.value };

    ghost invariant = { λ a. a.said ≡ a.value };
}

impl ReturnValue {
    /// A value, if memory for its copy isn't refused.
    pub fn new(value: Term) -> Result<ReturnValue, AllocError>
        ensures { IfOk result (λ a. a ≡ value) }
    {
        let said = value.clone()?;
        Ok(ReturnValue { value, said })
    }

    /// The value, and its copy for the reply.
    fn into_both(self) -> (Term, Term)
        ensures value { result.0 ≡ self }
        ensures said { result.1 ≡ self }
    {
        let ReturnValue { value, said } = self;
        (value, said)
    }
}

/// The terms that a return may need: the reason of an end, its copy for the reply, the exception of a wrong shape, and the reason of
/// an end by it.
#[derive(Drop)]
struct Returning {
    reason: Term,
    said: Term,
    raised: Raised,
    fault: Term,
}

#[derive(Drop)]
enum Following {
    NextRow(Place),
    Return(Returning),
}

/// The action after a native, with the memory that it may take.
pub struct Continuation {
    following: Following,
}

impl Drop for Continuation {
    fn drop(self) {
        let Continuation {
            following: _following,
        } = self;
    }
}

impl Model for Continuation {
    ghost use Rattle.std.specs.Coded.{codes};
    ghost use Rattle.beam_term.specs.Coding.{term_code};
    ghost use Rattle.beam_machine.specs.declared.callee.After.{After};
    ghost use Rattle.beam_proc.specs.Continuation.{after_of, IsPrepared};

    ghost Value = { After };

    ghost coded = { Prim.hlevel (codes, term_code) };

    ghost view = { λ p. after_of p.following };

    ghost invariant = { λ p. IsPrepared p.following };
}

impl Returning {
    fn new(alloc: Global, known: &Known) -> Result<Returning, AllocError>
        ensures { IfOk result IsReturning }
    {
        let reason = known.normal()?;
        let said = reason.clone()?;
        let raised = Raised::new(alloc, Exception::Fault(Fault::IllegalOperand))?;
        let fault = raised.copy_reason()?;
        Ok(Returning {
            reason,
            said,
            raised,
            fault,
        })
    }
}

impl Continuation {
    /// The action after a native. Where memory is refused there is none.
    pub fn new(alloc: Global, known: &Known, after: After) -> Result<Continuation, AllocError>
        ensures { IfOk result (λ p. p ≡ after) }
    {
        let following = match after {
            After::NextRow(next) => Following::NextRow(next),
            After::Return => Following::Return(Returning::new(alloc, known)?),
        };
        Ok(Continuation { following })
    }

    fn into_following(self) -> Following
        ensures after { after_of result ≡ self }
        ensures prepared { IsPrepared result }
    {
        let Continuation { following } = self;
        following
    }
}

impl Process {
    /// Puts a value into x0, and goes on, without memory.
    fn go_on_prepared(&mut self, next: Place, answer: ReturnValue) -> Then
        requires runs { self.old.status ≡ Status.Running }
        requires written { 0 < length self.old.x }
        ensures process { self.new ≡ goes_on (put_x self.old 0 answer) next }
        ensures then { result ≡ then_of self.new.status }
    {
        let (value, _said) = answer.into_both();
        registers::write(&mut self.x, 0, value);
        self.go_on(next)
    }

    /// Raises an exception, and ends with that reason if nothing catches it, without memory.
    #[tactic(auto, using(crate::proofs::Tags::unwound_is))]
    fn raise_at_once(&mut self, raised: Raised, reason: Term) -> Then
        requires runs { self.old.status ≡ Status.Running }
        requires reason { reason ≡ exit_reason raised }
        ensures process { self.new ≡ raises self.old raised }
        ensures then { result ≡ then_of self.new.status }
    {
        let then = self.unwind(raised);
        if matches!(&then, Then::Ended { .. }) {
            self.end(reason, Term::nil());
        }
        then
    }

    /// Puts a value into x0, and returns, without memory.
    #[tactic(auto, using(crate::proofs::Tags::returns_is, crate::proofs::Tags::read_written))]
    fn return_prepared(&mut self, returning: Returning, answer: ReturnValue) -> Then
        requires runs { self.old.status ≡ Status.Running }
        requires written { 0 < length self.old.x }
        requires prepared { IsReturning returning }
        ensures process { self.new ≡ returns (put_x self.old 0 answer) }
        ensures then { result ≡ then_of self.new.status }
    {
        let Returning {
            reason,
            said,
            raised,
            fault,
        } = returning;
        let (value, copy) = answer.into_both();
        match self.frames.back() {
            None => {
                registers::write(&mut self.x, 0, value);
                self.raise_at_once(raised, fault)
            }
            Some(None) => {
                self.end(reason, value);
                Then::Ended {
                    reason: said,
                    value: copy,
                }
            }
            Some(Some(place)) => {
                registers::write(&mut self.x, 0, value);
                self.frames.pop();
                self.go_on(place)
            }
        }
    }

    /// Puts the value of a called native into x0, which was written before, and goes on or returns, without memory.
    pub fn return_prepared_value(&mut self, prepared: Continuation, answer: ReturnValue) -> Then
        requires runs { self.old.status ≡ Status.Running }
        requires written { 0 < length self.old.x }
        ensures process { self.new ≡ answers self.old prepared (Ok answer) }
        ensures then { result ≡ then_of self.new.status }
    {
        match prepared.into_following() {
            Following::NextRow(next) => self.go_on_prepared(next, answer),
            Following::Return(returning) => self.return_prepared(returning, answer),
        }
    }

    /// The reason with which it ends once a called native has a value and the action after it is done; None if it doesn't end.
    #[tactic(auto, using(crate::proofs::Lasting::ends_after))]
    pub fn end_after<'a>(&self, prepared: &'a Continuation) -> Option<&'a Term>
        requires { self.now.status ≡ Status.Running }
        ensures { (value : TermValue) → option_copied result ≡ reason_of (answers self.now prepared.now (Ok value)).status }
    {
        let Following::Return(returning) = &prepared.following else {
            return None;
        };
        match self.frames.back() {
            Some(Some(_)) => None,
            Some(None) => Some(&returning.reason),
            None if self.frames.first_tag().is_some() => None,
            None => Some(&returning.fault),
        }
    }

    /// The reason with which it ends once it has dropped its `count` y registers, which are all that it has, a called native has a value
    /// and the action after it is done; None if it doesn't end.
    #[tactic(auto, using(crate::proofs::Lasting::ends_after_dropping))]
    pub fn end_after_dropping<'a>(&self, count: u32, prepared: &'a Continuation) -> Option<&'a Term>
        requires runs { self.now.status ≡ Status.Running }
        requires can { is_some (dropped count self.now self.now.frames) ≡ true }
        ensures { (value : TermValue) → option_copied result
            ≡ reason_of (answers (record self.now { frames = with_y self.now.frames None }) prepared.now (Ok value)).status }
    {
        let Following::Return(returning) = &prepared.following else {
            return None;
        };
        match self.frames.newest_back() {
            Some(_) => None,
            None => Some(&returning.reason),
        }
    }
}
