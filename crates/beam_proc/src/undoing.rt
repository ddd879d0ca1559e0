//! Changes of a process that can be undone without memory.
ghost use Rattle.std.specs.Prelude.{◌≡◌, slice_get, IfOk, OnOk, OnErr};
ghost use Rattle.beam_machine.specs.Process.{put_x, written_x};
ghost use Rattle.beam_machine.specs.Row.{goes_on};
ghost use Rattle.beam_proc.specs.Undoing.{with_first, stepped_back};

use crate::process::Process;
use beam_machine::process::{Goes, Status};
use beam_model::place::Place;
use beam_term::Term;
use std::alloc::AllocError;
use std::mem;

/// The old state of a step: the value of x0, if it was written, and where the process went on.
#[derive(Drop)]
pub struct Stepped {
    first: Option<Term>,
    goes: Goes,
}

/// Writes x0, and answers its old value, if it was written before. Where memory is refused nothing changes.
fn exchange_first(x: &mut Vec<Term>, value: Term) -> Result<Option<Term>, AllocError>
    ensures ok { OnOk result (x.new.items ≡ written_x x.old.items 0 value) }
    ensures held { IfOk result (λ held. held ≡ slice_get x.old.items 0) }
    ensures err { OnErr result (x.new.items ≡ x.old.items) }
{
    if x.is_empty() {
        x.push(value)?;
        return Ok(None);
    }
    Ok(Some(mem::replace(&mut x[0], value)))
}

/// Gives x0 its old value, if it was written before.
fn restore_first(x: &mut Vec<Term>, held: Option<Term>)
    ensures { x.new.items ≡ with_first held x.old.items }
{
    match held {
        Some(value) => {
            if !x.is_empty() {
                x[0] = value;
            }
        }
        None => x.clear(),
    }
}

impl Process {
    /// Puts a value into x0, and goes on. Where memory is refused nothing changes.
    #[tactic(auto, using(crate::proofs::UndoneSteps::first_back))]
    pub fn step_with(&mut self, next: Place, value: Term) -> Result<Stepped, AllocError>
        requires { self.old.status ≡ Status.Running }
        ensures ok { IfOk result (λ s. (self.new ≡ goes_on (put_x self.old 0 value) next) × (stepped_back self.new s ≡ self.old)) }
        ensures err { OnErr result (self.new ≡ self.old) }
    {
        let first = exchange_first(&mut self.x, value)?;
        let goes = mem::replace(&mut self.goes, Goes::At(next));
        Ok(Stepped { first, goes })
    }

    /// Undoes a step.
    pub fn step_back(&mut self, stepped: Stepped)
        ensures { self.new ≡ stepped_back self.old stepped }
    {
        let Stepped { first, goes } = stepped;
        restore_first(&mut self.x, first);
        self.goes = goes;
    }
}
