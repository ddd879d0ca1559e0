//! The x registers.
ghost use Rattle.std.specs.Prelude.{◌≡◌, ◌<◌, ◌≤◌, ◌+◌, ◌++◌, replicate, vec_len, vec_capacity, OnOk, OnErr};
ghost use Rattle.beam_term.specs.TermValue.{nil_term};
ghost use Rattle.beam_machine.specs.Process.{written_x};

use beam_term::Term;
use std::alloc::AllocError;

/// Reserves memory for a register. Where memory is refused nothing changes.
pub fn reserve(x: &mut Vec<Term>, register: u32) -> Result<(), AllocError>
    ensures items { x.new.items ≡ x.old.items }
    ensures len { vec_len x.new ≡ vec_len x.old }
    ensures ok { OnOk result (register < vec_capacity x.new) }
    ensures capacity { vec_capacity x.old ≤ vec_capacity x.new }
{
    let needed = register as usize + 1;
    if needed > x.capacity() {
        x.reserve(needed - x.len())?;
    }
    Ok(())
}

/// Adds `more` registers, which read `[]` and for which memory is reserved.
#[tactic(auto, using(crate::proofs::Lists::padded_more))]
fn pad(x: &mut Vec<Term>, more: usize)
    requires { vec_len x.old + more ≤ vec_capacity x.old }
    ensures items { x.new.items ≡ x.old.items ++ replicate more nil_term }
    ensures len { vec_len x.new ≡ vec_len x.old + more }
    ensures capacity { vec_capacity x.new ≡ vec_capacity x.old }
{
    for _done in 0..more {
        x.push_reserved(Term::nil());
    }
}

/// Writes a register for which memory is reserved.
pub fn write(x: &mut Vec<Term>, register: u32, value: Term)
    requires { register < vec_capacity x.old }
    ensures items { x.new.items ≡ written_x x.old.items register value }
    ensures capacity { vec_capacity x.new ≡ vec_capacity x.old }
{
    let register = register as usize;
    let had = x.len();
    if register < had {
        x[register] = value;
        return;
    }
    pad(x, register - had);
    x.push_reserved(value);
}

/// Writes a register. Where memory is refused nothing changes.
pub fn put(x: &mut Vec<Term>, register: u32, value: Term) -> Result<(), AllocError>
    ensures ok { OnOk result (x.new.items ≡ written_x x.old.items register value) }
    ensures err { OnErr result (x.new.items ≡ x.old.items) }
{
    reserve(x, register)?;
    write(x, register, value);
    Ok(())
}

/// Writes two registers. Where memory is refused nothing changes.
pub fn put_two(
    x: &mut Vec<Term>,
    first: u32,
    value: Term,
    second: u32,
    other: Term,
) -> Result<(), AllocError>
    ensures ok { OnOk result (x.new.items ≡ written_x (written_x x.old.items first value) second other) }
    ensures err { OnErr result (x.new.items ≡ x.old.items) }
{
    reserve(x, first)?;
    reserve(x, second)?;
    write(x, first, value);
    write(x, second, other);
    Ok(())
}

/// Writes x0, x1 and x2. Where memory is refused nothing changes.
pub fn put_three(
    x: &mut Vec<Term>,
    zeroth: Term,
    first: Term,
    second: Term,
) -> Result<(), AllocError>
    ensures ok { OnOk result (x.new.items ≡ written_x (written_x (written_x x.old.items 0 zeroth) 1 first) 2 second) }
    ensures err { OnErr result (x.new.items ≡ x.old.items) }
{
    reserve(x, 2)?;
    write(x, 0, zeroth);
    write(x, 1, first);
    write(x, 2, second);
    Ok(())
}

/// Writes `[]` into a register, and then x0, x1 and x2. Where memory is refused nothing changes.
pub fn put_four(
    x: &mut Vec<Term>,
    register: u32,
    zeroth: Term,
    first: Term,
    second: Term,
) -> Result<(), AllocError>
    ensures ok { OnOk result (x.new.items ≡ written_x (written_x (written_x (written_x x.old.items register nil_term) 0 zeroth) 1 first) 2 second) }
    ensures err { OnErr result (x.new.items ≡ x.old.items) }
{
    reserve(x, register)?;
    reserve(x, 2)?;
    write(x, register, Term::nil());
    write(x, 0, zeroth);
    write(x, 1, first);
    write(x, 2, second);
    Ok(())
}
