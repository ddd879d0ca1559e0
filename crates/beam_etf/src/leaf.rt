// Terms without parts, after their tags.
ghost use Rattle.std.specs.Prelude.{◌≡◌, ◌≤◌, ◌^◌, MatchOption, IfOk, vec_len};
ghost use Rattle.beam_term.specs.TermValue.{IsSmall};
ghost use Rattle.beam_model.specs.External.{little};
ghost use Rattle.beam_model.specs.ExternalReading.{big_at, small_atom_at, long_atom_at, atom_of_form, external_atom_at, pid_at, words_at, reference_at, leaf_at};
ghost use Rattle.beam_etf.specs.Faults.{Gives};

use crate::error::EtfError;
use crate::fields::{read_byte, read_bytes, read_text, read_u16, read_u32};
use crate::form::form_of;
use beam_model::external::Form;
use beam_term::{Atom, Pid, Reference, Term};
use std::alloc::Global;

// The greatest magnitude of an integer: that of -2^59.
const MAX_MAGNITUDE: u64 = 1 << 59;

// The number of these bytes, lowest byte first, where it is below 2^64.
fn magnitude(digits: &[u8]) -> Option<u64>
    ensures { MatchOption result (2 ^ 64 ≤ little digits.now) (λ n. n ≡ little digits.now) }
{
    let mut value: u64 = 0;
    for i in (0..digits.len()).rev() {
        if value >= 1 << 56 {
            return None;
        }
        value = value * 256 + digits[i] as u64;
    }
    Some(value)
}

// A count of bytes, a sign, and a magnitude of as many bytes.
#[tactic(auto, unfolding(beam_model::specs::ExternalReading::big_at))]
fn read_big(bytes: &[u8]) -> Result<(i64, &[u8]), EtfError>
    ensures read { Gives (λ x. (x.0, x.1.now)) result (big_at bytes.now) }
    ensures small { IfOk result (λ x. IsSmall x.0) }
{
    let (count, rest) = read_byte(bytes)?;
    let (sign, rest) = read_byte(rest)?;
    if sign > 1 {
        return Err(EtfError::BadTag);
    }
    let (digits, rest) = read_bytes(count as usize, rest)?;
    let Some(magnitude) = magnitude(digits) else {
        return Err(EtfError::IntegerTooLarge);
    };
    let greatest = if sign == 0 {
        MAX_MAGNITUDE - 1
    } else {
        MAX_MAGNITUDE
    };
    if magnitude > greatest {
        return Err(EtfError::IntegerTooLarge);
    }
    let integer = magnitude as i64;
    Ok((if sign == 0 { integer } else { -integer }, rest))
}

#[tactic(auto, unfolding(beam_model::specs::ExternalReading::small_atom_at))]
fn read_small_atom(alloc: Global, bytes: &[u8]) -> Result<(Atom, &[u8]), EtfError>
    ensures { Gives (λ x. (x.0, x.1.now)) result (small_atom_at bytes.now) }
{
    let (count, rest) = read_byte(bytes)?;
    read_text(alloc, count as usize, rest)
}

#[tactic(auto, unfolding(beam_model::specs::ExternalReading::long_atom_at))]
fn read_long_atom(alloc: Global, bytes: &[u8]) -> Result<(Atom, &[u8]), EtfError>
    ensures { Gives (λ x. (x.0, x.1.now)) result (long_atom_at bytes.now) }
{
    let (count, rest) = read_u16(bytes)?;
    read_text(alloc, count as usize, rest)
}

// An atom where one is wanted.
#[tactic(auto, unfolding(beam_model::specs::ExternalReading::external_atom_at, beam_model::specs::ExternalReading::atom_of_form))]
fn read_atom(alloc: Global, bytes: &[u8]) -> Result<(Atom, &[u8]), EtfError>
    ensures { Gives (λ x. (x.0, x.1.now)) result (external_atom_at bytes.now) }
{
    let (tag, rest) = read_byte(bytes)?;
    match form_of(tag) {
        Form::SmallAtom => read_small_atom(alloc, rest),
        Form::LongAtom => read_long_atom(alloc, rest),
        Form::LeftOut => Err(EtfError::OutOfProfile),
        _ => Err(EtfError::BadTag),
    }
}

#[tactic(auto, unfolding(beam_model::specs::ExternalReading::pid_at))]
fn read_pid(alloc: Global, bytes: &[u8]) -> Result<(Term, &[u8]), EtfError>
    ensures { Gives (λ x. (x.0, x.1.now)) result (pid_at bytes.now) }
{
    let (node, rest) = read_atom(alloc, bytes)?;
    let (id, rest) = read_u32(rest)?;
    let (serial, rest) = read_u32(rest)?;
    let (creation, rest) = read_u32(rest)?;
    let pid = Pid {
        node,
        id,
        serial,
        creation,
    };
    Ok((Term::pid(alloc, pid)?, rest))
}

// `count` words of four bytes.
fn read_words(alloc: Global, count: u16, bytes: &[u8]) -> Result<(Vec<u32>, &[u8]), EtfError>
    ensures read { Gives (λ x. (x.0.items, x.1.now)) result (words_at count bytes.now) }
    ensures count { IfOk result (λ x. vec_len x.0 ≡ count) }
{
    let mut words = Vec::new(alloc);
    let mut rest = bytes;
    for _ in 0..count {
        let (word, after) = read_u32(rest)?;
        words.push(word)?;
        rest = after;
    }
    Ok((words, rest))
}

#[tactic(auto, unfolding(beam_model::specs::ExternalReading::reference_at))]
fn read_reference(alloc: Global, bytes: &[u8]) -> Result<(Term, &[u8]), EtfError>
    ensures { Gives (λ x. (x.0, x.1.now)) result (reference_at bytes.now) }
{
    let (count, rest) = read_u16(bytes)?;
    if count == 0 || count > 5 {
        return Err(EtfError::OutOfProfile);
    }
    let (node, rest) = read_atom(alloc, rest)?;
    let (creation, rest) = read_u32(rest)?;
    let (words, rest) = read_words(alloc, count, rest)?;
    let Some(reference) = Reference::new(node, creation, words) else {
        unreachable!();
    };
    Ok((Term::reference(alloc, reference)?, rest))
}

/// Reads a term of a form without parts, after its tag. A form that isn't read is refused with its fault.
#[tactic(auto, unfolding(beam_model::specs::ExternalReading::leaf_at))]
pub fn read_leaf(alloc: Global, form: Form, bytes: &[u8]) -> Result<(Term, &[u8]), EtfError>
    ensures { Gives (λ x. (x.0, x.1.now)) result (leaf_at form bytes.now) }
{
    match form {
        Form::SmallInteger => {
            let (n, rest) = read_byte(bytes)?;
            Ok((Term::integer(n as i64), rest))
        }
        Form::Integer => {
            let (n, rest) = read_u32(bytes)?;
            Ok((Term::integer(n.cast_signed() as i64), rest))
        }
        Form::SmallBig => {
            let (n, rest) = read_big(bytes)?;
            Ok((Term::integer(n), rest))
        }
        Form::Nil => Ok((Term::nil(), bytes)),
        Form::SmallAtom => {
            let (text, rest) = read_small_atom(alloc, bytes)?;
            Ok((Term::atom(text), rest))
        }
        Form::LongAtom => {
            let (text, rest) = read_long_atom(alloc, bytes)?;
            Ok((Term::atom(text), rest))
        }
        Form::Pid => read_pid(alloc, bytes),
        Form::Reference => read_reference(alloc, bytes),
        Form::LeftOut => Err(EtfError::OutOfProfile),
        _ => Err(EtfError::BadTag),
    }
}
