//! Pairs that are taken apart, or made, in the x register where they stand: terms that only this register owns aren't shared.
ghost use Rattle.std.specs.Prelude.{◌≡◌, ◌<◌, ◌≢◌, true, false, List, length, slice_set};
ghost use Rattle.beam_term.specs.TermValue.{TermValue, nil_term};
ghost use Rattle.beam_machine.specs.Process.{read_x};
ghost use Rattle.beam_proc.specs.Pairs.{PutsBefore, TakesApart};

use crate::process::Process;
use crate::quick::rewrite;
use beam_stack::plain::forget_plain;
use beam_term::{NoPair, Term, pair};
use std::alloc::Global;
use std::mem;

/// Takes the value out of a register that was written before, which then holds `[]`.
#[inline(always)]
fn take(x: &mut Vec<Term>, register: usize) -> Term
    requires { register < length x.old.items }
    ensures value { result ≡ read_x x.old.items register }
    ensures items { x.new.items ≡ slice_set x.old.items register nil_term }
{
    mem::replace(&mut x[register], Term::nil())
}

/// Puts a value into a register that holds `[]`, which has nothing to be freed.
#[inline(always)]
#[tactic(auto, using(crate::proofs::Emptied::empty_plain))]
fn give(x: &mut Vec<Term>, register: usize, value: Term)
    requires register { register < length x.old.items }
    requires empty { read_x x.old.items register ≡ nil_term }
    ensures items { x.new.items ≡ slice_set x.old.items register value }
{
    forget_plain(mem::replace(&mut x[register], value));
}

/// Takes the pair in a register apart, as `Process::take_apart` does.
#[inline(always)]
#[tactic(auto, using(crate::proofs::Emptied::emptied, crate::proofs::Emptied::emptied_behind))]
fn take_apart(x: &mut Vec<Term>, register: usize, head: u32) -> bool
    requires register { register < length x.old.items }
    requires head { head < length x.old.items }
    requires other { register ≢ head }
    ensures done { result ≡ true → TakesApart x.old.items register head x.new.items }
    ensures left { result ≡ false → x.new.items ≡ x.old.items }
{
    match take(x, register).into_pair() {
        Ok((first, rest)) => {
            rewrite(x, head, first);
            give(x, register, rest);
            true
        }
        Err(whole) => {
            give(x, register, whole);
            false
        }
    }
}

/// Puts a head before the value of a register, as `Process::put_before` does.
#[inline(always)]
#[tactic(auto, using(crate::proofs::Emptied::emptied))]
fn put_before(x: &mut Vec<Term>, alloc: Global, head: Term, register: usize) -> bool
    requires { register < length x.old.items }
    ensures done { result ≡ true → PutsBefore x.old.items head register x.new.items }
    ensures left { result ≡ false → x.new.items ≡ x.old.items }
{
    match pair(alloc, head, take(x, register)) {
        Ok(whole) => {
            let _lawful = whole.depth();
            give(x, register, whole);
            true
        }
        Err(NoPair { tail, .. }) => {
            give(x, register, tail);
            false
        }
    }
}

impl Process {
    /// Takes the pair in an x register apart: its head goes into another register that was written before, and its tail stays in the
    /// pair's. False where the register holds no pair, or one with another owner; then nothing changes. It takes no memory.
    #[inline(always)]
    pub fn take_apart(&mut self, register: u32, head: u32) -> bool
        ensures done { result ≡ true → (x : List TermValue) × TakesApart self.old.x register head x × (self.new ≡ record self.old { x = x }) }
        ensures left { result ≡ false → self.new ≡ self.old }
    {
        let count = self.x.len();
        register != head
            && (register as usize) < count
            && (head as usize) < count
            && take_apart(&mut self.x, register as usize, head)
    }

    /// Puts the pair of a head and the value of an x register into that register. False where it was never written, the pair would be too
    /// deep, or memory is refused; then nothing changes.
    #[inline(always)]
    pub fn put_before(&mut self, head: Term, register: u32) -> bool
        ensures done { result ≡ true → (x : List TermValue) × PutsBefore self.old.x head register x × (self.new ≡ record self.old { x = x }) }
        ensures left { result ≡ false → self.new ≡ self.old }
    {
        let register = register as usize;
        register < self.x.len() && put_before(&mut self.x, self.alloc, head, register)
    }
}
