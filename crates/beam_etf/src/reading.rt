// Terms with parts. `depth_left` is how many levels of pairs and tuples may still nest.
ghost use Rattle.std.specs.Prelude.{◌≡◌, ◌≢◌, ◌≤◌, ◌<◌, ◌^◌, ◌⊎◌, ◌∷◌, ◌++◌, ℕ, List, [], IfOk, IfErr, MatchResult, Ok, Err, ◌↔◌, length, vec_len, take, drop};
ghost use Rattle.beam_term.specs.TermValue.{TermValue, list_before, tuple_of, depth_of};
ghost use Rattle.beam_model.specs.External.{IsExternal};
ghost use Rattle.beam_model.specs.ExternalFault.{HasExternalFault};
ghost use Rattle.std.specs.Result.{IsOkUnless};
ghost use Rattle.beam_model.specs.ExternalReading.{text_list, external_string_at, after_empty_lists, below, whole_at, external_tuple_at, external_list_at, external_at};
ghost use Rattle.beam_etf.specs.Faults.{Gives, fault_of};
ghost use Rattle.beam_etf.specs.Puts.{Puts, BeginsWith, HasElements, LeavesParts};

use crate::error::EtfError;
use crate::fields::{read_byte, read_bytes, read_u16, read_u32};
use crate::form::form_of;
use crate::leaf::read_leaf;
use beam_model::external::Form;
use beam_term::{MAX_DEPTH, Term, TermError, cons, list_with_tail, tuple};
use std::alloc::Global;

// The tag of a list, and the count of no elements.
const EMPTY_LIST: [u8; 5] = [108, 0, 0, 0, 0];

// The list of these bytes.
fn text_list(alloc: Global, text: &[u8]) -> Result<Term, TermError>
    requires { length text.now ≤ 4096 }
    ensures ok { IfOk result (λ t. t ≡ text_list text.now) }
    ensures memory { IsOkUnless result TermError.NoMemory }
{
    let mut list = Term::nil();
    for i in (0..text.len()).rev() {
        list = cons(alloc, Term::integer(text[i] as i64), list)?;
    }
    Ok(list)
}

#[tactic(auto, unfolding(beam_model::specs::ExternalReading::external_string_at))]
fn read_string(alloc: Global, depth_left: u16, bytes: &[u8]) -> Result<(Term, &[u8]), EtfError>
    requires { depth_left ≤ 4096 }
    ensures { Gives (λ x. (x.0, x.1.now)) result (external_string_at depth_left bytes.now) }
{
    let (count, rest) = read_u16(bytes)?;
    if count > depth_left {
        return Err(EtfError::TooDeep);
    }
    let (text, rest) = read_bytes(count as usize, rest)?;
    Ok((text_list(alloc, text)?, rest))
}

// The bytes after lists of no elements, each of which is its tail.
#[tactic(auto, unfolding(beam_model::specs::ExternalReading::after_empty_lists))]
fn after_empty_lists(bytes: &[u8]) -> &[u8]
    ensures { result.now ≡ after_empty_lists bytes.now }
{
    let mut rest = bytes;
    while rest.starts_with(&EMPTY_LIST) {
        rest = &rest[5..];
    }
    rest
}

// The front of a term: a whole term without parts, or the count of a list's or a tuple's elements.
#[derive(Drop)]
enum Front {
    Whole(Term),
    List(u32),
    Tuple(u32),
}

#[tactic(auto, unfolding(beam_model::specs::ExternalReading::whole_at, beam_model::specs::ExternalReading::term_of_form))]
fn read_front(alloc: Global, depth_left: u16, bytes: &[u8]) -> Result<(Front, &[u8]), EtfError>
    requires { depth_left ≤ 4096 }
    ensures front { BeginsWith depth_left bytes.now result }
    ensures some { IfOk result (λ x. HasElements x.0) }
{
    let (tag, rest) = read_byte(after_empty_lists(bytes))?;
    match form_of(tag) {
        Form::String => {
            let (text, rest) = read_string(alloc, depth_left, rest)?;
            Ok((Front::Whole(text), rest))
        }
        Form::List => {
            let (count, rest) = read_u32(rest)?;
            Ok((Front::List(count), rest))
        }
        Form::SmallTuple => {
            let (count, rest) = read_byte(rest)?;
            Ok((Front::Tuple(count as u32), rest))
        }
        Form::LargeTuple => {
            let (count, rest) = read_u32(rest)?;
            Ok((Front::Tuple(count), rest))
        }
        form => {
            let (leaf, rest) = read_leaf(alloc, form, rest)?;
            Ok((Front::Whole(leaf), rest))
        }
    }
}

// The parts of a term that are still to be read.
#[derive(Clone, Copy)]
enum Parts {
    None,
    List(u32),
    Tuple(u32),
}

// Reads the front of a term; a whole term goes onto the stack. Not inlined, so that the recursion's frames stay small.
#[inline(never)]
fn next(
    alloc: Global,
    depth_left: u16,
    rest: &mut &[u8],
    done: &mut Vec<Term>,
) -> Result<Parts, EtfError>
    requires { depth_left ≤ 4096 }
    ensures { LeavesParts depth_left rest.old.now rest.new.now done.old.items done.new.items result }
{
    let (front, after) = read_front(alloc, depth_left, *rest)?;
    *rest = after;
    match front {
        Front::Whole(term) => {
            done.push(term)?;
            Ok(Parts::None)
        }
        Front::List(count) => Ok(Parts::List(count)),
        Front::Tuple(count) => Ok(Parts::Tuple(count)),
    }
}

// Replaces the terms on the stack from index `start` on by their list, whose tail is the last of them.
#[inline(never)]
#[tactic(auto, using(crate::proofs::Stack::stack))]
fn put_list(alloc: Global, start: usize, done: &mut Vec<Term>) -> Result<(), TermError>
    requires { start < vec_len done.old }
    ensures { (front items : List TermValue) (tail : TermValue) → done.old.items ≡ front ++ (items ++ tail ∷ []) → length front ≡ start
        → MatchResult result (λ _. done.new.items ≡ front ++ list_before items tail ∷ [])
        (λ e. e ≡ TermError.TooDeep → 4096 < depth_of (list_before items tail)) }
{
    let Some(tail) = done.pop() else {
        unreachable!();
    };
    let items = done.split_off(start)?;
    let list = list_with_tail(alloc, items, tail)?;
    done.push(list)?;
    Ok(())
}

// Replaces the terms on the stack from index `start` on by their tuple.
#[inline(never)]
#[tactic(auto, using(crate::proofs::Stack::stack))]
fn put_tuple(alloc: Global, start: usize, done: &mut Vec<Term>) -> Result<(), TermError>
    requires { start ≤ vec_len done.old }
    ensures { (front items : List TermValue) → done.old.items ≡ front ++ items → length front ≡ start
        → MatchResult result (λ _. done.new.items ≡ front ++ tuple_of items ∷ [])
        (λ e. e ≡ TermError.TooDeep → (4096 < depth_of (tuple_of items)) ⊎ (2 ^ 32 ≤ length items)) }
{
    let items = done.split_off(start)?;
    let tuple = tuple(alloc, items)?;
    done.push(tuple)?;
    Ok(())
}

// Reads a term and puts it onto the stack of the terms that were read.
#[cycle(read)]
fn read(
    alloc: Global,
    depth_left: u16,
    rest: &mut &[u8],
    done: &mut Vec<Term>,
) -> Result<(), EtfError>
    requires { depth_left ≤ 4096 }
    ensures { Puts (whole_at (below depth_left) depth_left rest.old.now) rest.new.now done.old.items done.new.items result }
{
    match next(alloc, depth_left, rest, done)? {
        Parts::None => Ok(()),
        Parts::List(count) => read_list(alloc, depth_left, count, rest, done),
        Parts::Tuple(count) => read_tuple(alloc, depth_left, count, rest, done),
    }
}

// Reads `count` elements and a tail, with one level of room less at each element, and puts their list onto the stack.
#[cycle(read)]
#[tactic(auto, unfolding(beam_model::specs::ExternalReading::external_list_at))]
fn read_list(
    alloc: Global,
    depth_left: u16,
    count: u32,
    rest: &mut &[u8],
    done: &mut Vec<Term>,
) -> Result<(), EtfError>
    requires shallow { depth_left ≤ 4096 }
    requires some { 1 ≤ count }
    ensures { Puts (external_list_at (below depth_left) depth_left count rest.old.now) rest.new.now done.old.items done.new.items result }
{
    if count > depth_left as u32 {
        return Err(EtfError::TooDeep);
    }
    let start = done.len();
    let mut left = depth_left;
    for _ in 0..count {
        left -= 1;
        read(alloc, left, rest, done)?;
    }
    read(alloc, left, rest, done)?;
    put_list(alloc, start, done)?;
    Ok(())
}

// Reads `count` elements, with one level of room less, and puts their tuple onto the stack.
#[cycle(read)]
#[tactic(auto, unfolding(beam_model::specs::ExternalReading::external_tuple_at))]
fn read_tuple(
    alloc: Global,
    depth_left: u16,
    count: u32,
    rest: &mut &[u8],
    done: &mut Vec<Term>,
) -> Result<(), EtfError>
    requires { depth_left ≤ 4096 }
    ensures { Puts (external_tuple_at (below depth_left) depth_left count rest.old.now) rest.new.now done.old.items done.new.items result }
{
    if depth_left == 0 {
        return Err(EtfError::TooDeep);
    }
    let start = done.len();
    for _ in 0..count {
        read(alloc, depth_left - 1, rest, done)?;
    }
    put_tuple(alloc, start, done)?;
    Ok(())
}

// The version byte, and a term.
#[tactic(auto, using(crate::proofs::Rooms::rooms), unfolding(beam_model::specs::ExternalReading::external_at))]
fn read_external(alloc: Global, bytes: &[u8]) -> Result<(Term, &[u8]), EtfError>
    ensures { Gives (λ x. (x.0, x.1.now)) result (external_at bytes.now) }
{
    let (version, rest) = read_byte(bytes)?;
    if version != 131 {
        return Err(EtfError::BadTag);
    }
    let mut rest = rest;
    let mut done = Vec::new(alloc);
    read(alloc, MAX_DEPTH, &mut rest, &mut done)?;
    let Some(term) = done.pop() else {
        unreachable!();
    };
    Ok((term, rest))
}

/// The term that a front of the bytes spells, and how many bytes it takes. Bytes may follow it.
///
/// Refuses with the first fault in the order of the bytes: Truncated where they end inside a field, BadTag at a first byte other
/// than 131, at a tag that is none and at a sign other than 0 and 1, OutOfProfile at a form that the profile leaves out, at an atom
/// of more than 255 characters and at a reference's count of words outside 1 to 5, IntegerTooLarge at an integer outside
/// -2^59..2^59-1, BadUtf8 at an atom that isn't UTF-8, and TooDeep where pairs and tuples nest deeper than 4,096, as soon as that is
/// certain. Nothing is reserved by a count that the bytes claim.
///
/// Source: External Term Format.
pub fn read_term(alloc: Global, bytes: &[u8]) -> Result<(Term, usize), EtfError>
    // The bytes spell the term that is read.
    ensures found { IfOk result (λ x. (x.1 ≤ length bytes.now) × IsExternal (take x.1 bytes.now) x.0) }
    // A spelled term is read, unless memory runs out.
    ensures only { (t : TermValue) (front rest : List ℕ) → bytes.now ≡ front ++ rest → IsExternal front t
        → MatchResult result (λ x. (x.0 ≡ t) × (x.1 ≡ length front)) (λ e. e ≡ EtfError.NoMemory) }
    // Bytes that end inside a spelled term are Truncated: after any other fault no continuation of the bytes is a spelling.
    ensures cut { (t : TermValue) (more : List ℕ) → IsExternal (bytes.now ++ more) t → more ≢ []
        → MatchResult result (λ x. ⊥) (λ e. e ≢ EtfError.NoMemory → e ≡ EtfError.Truncated) }
    // Bytes that are refused have the fault that the error names.
    ensures fault { IfErr result (λ e. e ≢ EtfError.NoMemory → HasExternalFault bytes.now (fault_of e)) }
    // Both are results of reading the bytes from left to right: the term and the bytes after it,
    ensures read { IfOk result (λ x. external_at bytes.now ≡ Ok (x.0, drop x.1 bytes.now)) }
    // or the first fault in the order of the bytes.
    ensures first { IfErr result (λ e. e ≢ EtfError.NoMemory → external_at bytes.now ≡ Err (fault_of e)) }
{
    let (term, rest) = read_external(alloc, bytes)?;
    Ok((term, bytes.len() - rest.len()))
}

/// No spelling is the beginning of another: a written term is read again, with any bytes after it.
pub fn one_spelling()
    ensures { (a b x y : List ℕ) (t u : TermValue) → IsExternal a t → IsExternal b u → a ++ x ≡ b ++ y → (a ≡ b) × (t ≡ u) }
{}

/// Bytes spell a term exactly where reading them from left to right gives this term, with any bytes after them.
pub fn spelled_is_read()
    ensures { (t : TermValue) (front rest : List ℕ) → IsExternal front t ↔ (external_at (front ++ rest) ≡ Ok (t, rest)) }
{}
