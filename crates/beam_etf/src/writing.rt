// The one spelling of each term.
ghost use Rattle.std.specs.Prelude.{◌≡◌, ◌≤◌, ◌<◌, ◌^◌, ◌++◌, ◌∷◌, OnOk, ◌<ℤ◌, ◌≤ℤ◌, ℤ, pos, neg_ℤ, unsigned_abs, [], List, IfOk, IsTrue, OnErr, length, false, true};
ghost use Rattle.std.specs.Result.{IsOkUnless};
ghost use Rattle.std.specs.Int.{w16, w32, to_be_bytes, cast_unsigned};
ghost use Rattle.beam_term.specs.TermValue.{TermValue, IsTerm, terms_of, pair_term};
ghost use Rattle.beam_model.specs.External.{byte_count, sign_of, written_big, written_integer, written_atom, written_pid, written_reference, tuple_front, is_byte, is_byte_list, pair_count, bytes_of_list, written_part, all_written, external_bytes, IsExternal};

use crate::error::EtfError;
use beam_term::{Atom, Pid, Reference, Term, TermView};
use std::alloc::AllocError;

/// How many bytes the magnitude of an integer takes that is written by its sign and its magnitude: 4 to 8.
pub fn byte_count(n: u64) -> usize
    ensures value { result ≡ byte_count n }
    ensures few { result ≤ 8 }
{
    if n < 1 << 32 {
        4
    } else if n < 1 << 40 {
        5
    } else if n < 1 << 48 {
        6
    } else if n < 1 << 56 {
        7
    } else {
        8
    }
}

// An integer of one byte.
fn write_small(n: i64, out: &mut Vec<u8>) -> Result<(), AllocError>
    requires from { pos 0 ≤ℤ n }
    requires below { n <ℤ pos 256 }
    ensures { OnOk result (out.new.items ≡ out.old.items ++ (97 ∷ unsigned_abs n ∷ [])) }
{
    out.push(97)?;
    out.push(n as u8)?;
    Ok(())
}

// An integer of 32 bits.
fn write_word(n: i64, out: &mut Vec<u8>) -> Result<(), AllocError>
    requires from { neg_ℤ (pos (2 ^ 31)) ≤ℤ n }
    requires below { n <ℤ pos (2 ^ 31) }
    ensures { OnOk result (out.new.items ≡ out.old.items ++ (98 ∷ to_be_bytes w32 (cast_unsigned w32 n))) }
{
    out.push(98)?;
    out.extend_from_slice(&(n as i32).to_be_bytes())
}

fn sign(n: i64) -> u8
    ensures { result ≡ sign_of n }
{
    if n < 0 { 1 } else { 0 }
}

// An integer by its sign and its magnitude.
fn write_big(n: i64, out: &mut Vec<u8>) -> Result<(), AllocError>
    ensures { OnOk result (out.new.items ≡ out.old.items ++ written_big (sign_of n) (unsigned_abs n)) }
{
    let magnitude = n.unsigned_abs();
    let count = byte_count(magnitude);
    out.push(110)?;
    out.push(count as u8)?;
    out.push(sign(n))?;
    out.extend_from_slice(&magnitude.to_le_bytes()[..count])
}

#[inline(never)]
fn write_integer(n: i64, out: &mut Vec<u8>) -> Result<(), AllocError>
    ensures { OnOk result (out.new.items ≡ out.old.items ++ written_integer n) }
{
    if n < -(1 << 31) {
        write_big(n, out)
    } else if n < 0 {
        write_word(n, out)
    } else if n < 256 {
        write_small(n, out)
    } else if n < 1 << 31 {
        write_word(n, out)
    } else {
        write_big(n, out)
    }
}

#[inline(never)]
#[tactic(auto, unfolding(beam_model::specs::External::written_atom))]
fn write_atom(atom: &Atom, out: &mut Vec<u8>) -> Result<(), AllocError>
    ensures { OnOk result (out.new.items ≡ out.old.items ++ written_atom atom.now) }
{
    let text = atom.as_str();
    if text.len() < 256 {
        out.push(119)?;
        out.push(text.len() as u8)?;
    } else {
        out.push(118)?;
        out.extend_from_slice(&(text.len() as u16).to_be_bytes())?;
    }
    out.extend_from_slice(text.as_bytes())
}

#[inline(never)]
#[tactic(auto, unfolding(beam_model::specs::External::written_pid))]
fn write_pid(pid: &Pid, out: &mut Vec<u8>) -> Result<(), AllocError>
    ensures { OnOk result (out.new.items ≡ out.old.items ++ written_pid pid.now.node pid.now.id pid.now.serial pid.now.creation) }
{
    out.push(88)?;
    write_atom(&pid.node, out)?;
    out.extend_from_slice(&pid.id.to_be_bytes())?;
    out.extend_from_slice(&pid.serial.to_be_bytes())?;
    out.extend_from_slice(&pid.creation.to_be_bytes())
}

#[inline(never)]
#[tactic(auto, unfolding(beam_model::specs::External::written_reference))]
fn write_reference(reference: &Reference, out: &mut Vec<u8>) -> Result<(), AllocError>
    ensures { OnOk result (out.new.items ≡ out.old.items ++ written_reference reference.now.node reference.now.creation reference.now.words) }
{
    let words = reference.words();
    out.push(90)?;
    out.extend_from_slice(&(words.len() as u16).to_be_bytes())?;
    write_atom(reference.node(), out)?;
    out.extend_from_slice(&reference.creation().to_be_bytes())?;
    for word in words {
        out.extend_from_slice(&word.to_be_bytes())?;
    }
    Ok(())
}

#[inline(never)]
#[tactic(auto, unfolding(beam_model::specs::External::tuple_front))]
fn write_tuple_front(count: u32, out: &mut Vec<u8>) -> Result<(), AllocError>
    ensures { OnOk result (out.new.items ≡ out.old.items ++ tuple_front count) }
{
    if count < 256 {
        out.push(104)?;
        out.push(count as u8)?;
        Ok(())
    } else {
        out.push(105)?;
        out.extend_from_slice(&count.to_be_bytes())
    }
}

fn is_byte(term: &Term) -> bool
    ensures { result ≡ is_byte term.now }
{
    match term.view() {
        TermView::Integer(n) => 0 <= n && n < 256,
        _ => false,
    }
}

/// Whether a term is a proper list of integers from 0 to 255.
#[inline(never)]
pub fn is_byte_list(list: &Term) -> bool
    ensures { result ≡ is_byte_list list.now }
{
    let mut rest = list;
    while let TermView::Pair(head, tail) = rest.view() {
        if !is_byte(head) {
            return false;
        }
        rest = tail;
    }
    rest.is_nil()
}

/// How many elements of a list stand before its tail: at most 4,096.
#[inline(never)]
pub fn pair_count(list: &Term) -> u32
    ensures value { result ≡ pair_count list.now }
    ensures few { result ≤ 4096 }
{
    let _lawful = list.depth();
    let mut rest = list;
    let mut count = 0;
    while let TermView::Pair(_, tail) = rest.view() {
        count += 1;
        rest = tail;
    }
    count
}

// The integers of a text, each as a byte.
fn write_text(text: &Term, out: &mut Vec<u8>) -> Result<(), AllocError>
    requires { IsTrue (is_byte_list text.now) }
    ensures { OnOk result (out.new.items ≡ out.old.items ++ bytes_of_list text.now) }
{
    let mut rest = text;
    while let TermView::Pair(head, tail) = rest.view() {
        if let Some(byte) = head.as_integer() {
            out.push(byte as u8)?;
        }
        rest = tail;
    }
    Ok(())
}

// A text that is written as its bytes.
#[inline(never)]
fn write_string(list: &Term, out: &mut Vec<u8>) -> Result<(), AllocError>
    requires { IsTrue (is_byte_list list.now) }
    ensures { OnOk result (out.new.items ≡ out.old.items ++ (107 ∷ (to_be_bytes w16 (pair_count list.now) ++ bytes_of_list list.now))) }
{
    out.push(107)?;
    out.extend_from_slice(&(pair_count(list) as u16).to_be_bytes())?;
    write_text(list, out)
}

#[inline(never)]
fn write_nil(out: &mut Vec<u8>) -> Result<(), AllocError>
    ensures { OnOk result (out.new.items ≡ out.old.items ++ (106 ∷ [])) }
{
    out.push(106)?;
    Ok(())
}

#[inline(never)]
fn write_list_front(count: u32, out: &mut Vec<u8>) -> Result<(), AllocError>
    ensures { OnOk result (out.new.items ≡ out.old.items ++ (108 ∷ to_be_bytes w32 count)) }
{
    out.push(108)?;
    out.extend_from_slice(&count.to_be_bytes())
}

// Functions with large frames stay out of the recursion: they aren't inlined.
#[cycle(write)]
fn write(term: &Term, out: &mut Vec<u8>) -> Result<(), AllocError>
    ensures { OnOk result (out.new.items ≡ out.old.items ++ written_part false term.now) }
{
    match term.view() {
        TermView::Integer(n) => write_integer(n, out),
        TermView::Atom(atom) => write_atom(atom, out),
        TermView::Reference(reference) => write_reference(reference, out),
        TermView::Pid(pid) => write_pid(pid, out),
        TermView::Nil => write_nil(out),
        TermView::Pair(head, tail) => write_list(term, head, tail, out),
        TermView::Tuple(items) => {
            write_tuple_front(items.len() as u32, out)?;
            write_items(items, out)
        }
    }
}

#[cycle(write)]
fn write_list(list: &Term, head: &Term, tail: &Term, out: &mut Vec<u8>) -> Result<(), AllocError>
    requires { pair_term head.now tail.now ≡ list.now }
    ensures { OnOk result (out.new.items ≡ out.old.items ++ written_part false list.now) }
{
    let count = pair_count(list);
    if is_byte_list(list) {
        return write_string(list, out);
    }
    write_list_front(count, out)?;
    write_elements(head, tail, out)
}

// The elements and the tail of a list.
#[cycle(write)]
fn write_elements(head: &Term, tail: &Term, out: &mut Vec<u8>) -> Result<(), AllocError>
    ensures { OnOk result (out.new.items ≡ out.old.items ++ (written_part false head.now ++ written_part true tail.now)) }
{
    write(head, out)?;
    let mut rest = tail;
    while let Some((next, after)) = rest.as_pair() {
        write(next, out)?;
        rest = after;
    }
    write(rest, out)
}

#[cycle(write)]
fn write_items(items: &[Term], out: &mut Vec<u8>) -> Result<(), AllocError>
    ensures { OnOk result (out.new.items ≡ out.old.items ++ all_written (terms_of items.now)) }
{
    for item in items {
        write(item, out)?;
    }
    Ok(())
}

/// Appends the one spelling of a term: each form as short as the format has it, a text as a string, and any other list as one list
/// down to its tail. Fails with NoMemory alone, and then nothing is appended.
///
/// Source: External Term Format.
pub fn write_term(term: &Term, out: &mut Vec<u8>) -> Result<(), EtfError>
    ensures ok { OnOk result (out.new.items ≡ out.old.items ++ external_bytes term.now) }
    ensures unchanged { OnErr result (out.new.items ≡ out.old.items) }
    ensures memory { IsOkUnless result EtfError.NoMemory }
{
    let mut whole = Vec::new(*out.allocator());
    whole.push(131)?;
    write(term, &mut whole)?;
    out.extend_from_slice(&whole)?;
    Ok(())
}

/// The bytes that are written for a term spell it, so that they are read as that term.
pub fn written_again()
    ensures { (t : TermValue) → IsTerm t → IsExternal (external_bytes t) t }
{}
