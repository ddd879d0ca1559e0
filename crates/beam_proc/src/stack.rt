//! The y registers.
ghost use Rattle.std.specs.Prelude.{◌≡◌, true, false, Some, is_some, List, OnOk, OnErr};
ghost use Rattle.beam_term.specs.TermValue.{TermValue};
ghost use Rattle.beam_machine.specs.Process.{dropped};
ghost use Rattle.beam_machine.specs.Row.{tags, cleared};
ghost use Rattle.beam_proc.specs.Does.{Does};
ghost use Rattle.beam_proc.specs.Frames.{has_register, all_there, cleared_x, cleared_y};

use crate::process::Process;
use crate::registers;
use beam_machine::action::Register;
use beam_machine::event::Then;
use beam_machine::process::{Slot, Status, Tag};
use beam_model::place::Place;
use beam_stack::frames::Frames;
use beam_term::Term;
use std::alloc::AllocError;

/// Whether there is a register to put a value into.
pub(crate) fn has_register(frames: &Frames, register: Register) -> bool
    ensures { result ≡ has_register frames.now register }
{
    match register {
        Register::X(_) => true,
        Register::Y(register) => (register as usize) < frames.y_count(),
    }
}

/// Whether an x register is among these.
fn names_x(registers: &[Register]) -> bool
    ensures { (x : List TermValue) → result ≡ false → cleared_x registers.now x ≡ x }
{
    let mut rest = registers;
    while let Some((register, more)) = rest.split_first() {
        if let Register::X(_) = register {
            return true;
        }
        rest = more;
    }
    false
}

/// Puts `[]` into the x registers among these. Where memory is refused some may have been written.
fn clear_x(x: &mut Vec<Term>, registers: &[Register]) -> Result<(), AllocError>
    ensures { OnOk result (x.new.items ≡ cleared_x registers.now x.old.items) }
{
    let mut rest = registers;
    while let Some((register, more)) = rest.split_first() {
        if let Register::X(register) = register {
            registers::put(x, *register, Term::nil())?;
        }
        rest = more;
    }
    Ok(())
}

/// Puts `[]` into the x registers among these. Where memory is refused nothing changes.
fn clear_named(x: &mut Vec<Term>, registers: &[Register]) -> Result<(), AllocError>
    ensures ok { OnOk result (x.new.items ≡ cleared_x registers.now x.old.items) }
    ensures err { OnErr result (x.new.items ≡ x.old.items) }
{
    if !names_x(registers) {
        return Ok(());
    }
    let mut copy = x.clone()?;
    clear_x(&mut copy, registers)?;
    *x = copy;
    Ok(())
}

/// Puts `[]` into the y registers among these.
#[tactic(auto, using(crate::proofs::Clears::all_there_after))]
fn clear_y(frames: &mut Frames, registers: &[Register])
    requires { all_there frames.old registers.now ≡ true }
    ensures { frames.new ≡ cleared_y registers.now frames.old }
{
    let mut rest = registers;
    while let Some((register, more)) = rest.split_first() {
        if let Register::Y(register) = register {
            frames.put_slot(*register, Slot::Value(Term::nil()));
        }
        rest = more;
    }
}

impl Process {
    /// Whether the newest frame has exactly that many y registers.
    #[tactic(auto, using(crate::proofs::Puts::dropped_is))]
    pub fn can_drop(&self, count: u32) -> bool
        ensures { result ≡ is_some (dropped count self.now self.now.frames) }
    {
        self.frames.can_drop(count)
    }

    /// Drops the y registers of the newest frame, of which there are exactly that many, without memory.
    #[tactic(auto, using(crate::proofs::Puts::dropped_is))]
    pub fn drop_slots(&mut self, count: u32)
        requires { is_some (dropped count self.old self.old.frames) ≡ true }
        ensures { Some self.new ≡ dropped count self.old self.old.frames }
    {
        self.frames.drop_y();
    }

    /// Puts `[]` into registers, which are there. Where memory is refused for x registers nothing changes.
    #[tactic(auto, using(crate::proofs::Clears::cleared_all))]
    pub fn clear_all(&mut self, registers: &[Register]) -> Result<(), AllocError>
        requires { all_there self.old.frames registers.now ≡ true }
        ensures ok { OnOk result (cleared registers.now (Some self.old) ≡ Some self.new) }
        ensures status { self.new.status ≡ self.old.status }
        ensures err { OnErr result (self.new ≡ self.old) }
    {
        clear_named(&mut self.x, registers)?;
        clear_y(&mut self.frames, registers);
        Ok(())
    }

    /// Puts a catch tag of a label into a y register, and goes on.
    pub fn tag(
        &mut self,
        next: Place,
        dest: Register,
        label: u32,
        target: Option<usize>,
    ) -> Result<Then, AllocError>
        requires { self.old.status ≡ Status.Running }
        ensures { Does self.old (tags self.old next dest label target) result self.new }
    {
        match (dest, target) {
            (Register::Y(register), Some(at)) => {
                let place = Place::new(next.instance(), at);
                if self.put_y(register, Slot::Tag(Tag { label, place })) {
                    Ok(self.go_on(next))
                } else {
                    self.illegal()
                }
            }
            _ => self.illegal(),
        }
    }
}
