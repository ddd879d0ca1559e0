//! The term that a text is. `depth_left` is how deep a term may still be.

ghost use Rattle.std.specs.Prelude.{◌≡◌, ◌-◌, ◌≤◌, ◌<◌, ◌^◌, ◌⊎◌, ◌==◌, ◌||◌, ◌∷◌, ◌++◌, [], List, length, vec_len, IfOk, IfErr, MatchResult, Ok, Err, ℕ};
ghost use Rattle.std.specs.Str.{chars};
ghost use Rattle.beam_term.specs.TermValue.{TermValue, IsTerm, depth_of, pair_term, tuple_of, list_before};
ghost use Rattle.beam_model.specs.Text.{is_digit};
ghost use Rattle.beam_model.specs.TextReading.{Reading, list_of_characters, closed_by, string_within, items_after, list_by, term_at, pairs_at, tuple_at, read_text, line_of, term_of_text};
ghost use Rattle.beam_model.specs.TextGrammar.{IsTextOf};
ghost use Rattle.beam_erltext.specs.Gives.{Gives};
ghost use Rattle.beam_erltext.specs.Puts.{Puts, BeginsWith, FitsDepth, StopsAt, LeavesParts, IsAfterElement, Closes, Follows, tuple_elements_at};

use crate::error::TextError;
use crate::read_fault::ReadFault;
use crate::token::{read_atom, read_integer, read_string, skip_blanks};
use beam_term::{Term, TermError, cons, list_with_tail, tuple};
use std::alloc::{AllocError, AllocFailed, Global};

/// How deep a term may be.
pub const MAX_DEPTH: u16 = 4096;

// A pair that isn't too deep.
fn pair(alloc: Global, head: Term, tail: Term) -> Result<Term, ReadFault>
    requires { depth_of (pair_term head tail) ≤ 4096 }
    ensures ok { IfOk result (λ t. t ≡ pair_term head tail) }
    ensures memory { IfErr result (λ e. e ≡ ReadFault.NoMemory) }
{
    match cons(alloc, head, tail) {
        Ok(term) => Ok(term),
        Err(TermError::NoMemory) => Err(ReadFault::NoMemory),
        Err(TermError::TooDeep) => unreachable!(),
    }
}

// A tuple that is neither too deep nor too large.
fn made_tuple(alloc: Global, items: Vec<Term>) -> Result<Term, ReadFault>
    requires shallow { depth_of (tuple_of items.items) ≤ 4096 }
    requires short { vec_len items < 2 ^ 32 }
    ensures ok { IfOk result (λ t. t ≡ tuple_of items.items) }
    ensures memory { IfErr result (λ e. e ≡ ReadFault.NoMemory) }
{
    match tuple(alloc, items) {
        Ok(term) => Ok(term),
        Err(TermError::NoMemory) => Err(ReadFault::NoMemory),
        Err(TermError::TooDeep) => unreachable!(),
    }
}

// The list of these characters.
#[tactic(auto, using(crate::proofs::Depths::depth_of_characters))]
fn character_list(alloc: Global, characters: &[char]) -> Result<Term, ReadFault>
    requires { length characters.now ≤ 4096 }
    ensures ok { IfOk result (λ t. t ≡ list_of_characters characters.now) }
    ensures memory { IfErr result (λ e. e ≡ ReadFault.NoMemory) }
{
    let mut list = Term::nil();
    for i in (0..characters.len()).rev() {
        list = pair(alloc, Term::integer(characters[i] as i64), list)?;
    }
    Ok(list)
}

fn characters_of(alloc: Global, string: &str) -> Result<Vec<char>, AllocError>
    ensures { IfOk result (λ v. v.items ≡ chars string.now) }
{
    string.chars().collect(alloc)
}

// A string as a term of at most this depth.
fn read_characters(alloc: Global, depth_left: u16, text: &[u8]) -> Result<(Term, &[u8]), ReadFault>
    requires { depth_left ≤ 4096 }
    ensures gives { Gives (λ x. (x.0, x.1.now)) result (string_within depth_left text.now) }
    ensures depth { IfOk result (λ x. depth_of x.0 ≤ depth_left) }
{
    let (string, rest) = read_string(alloc, text)?;
    let characters = characters_of(alloc, string.as_str())?;
    if characters.len() > depth_left as usize {
        return Err(ReadFault::At(text.len()));
    }
    Ok((character_list(alloc, &characters)?, rest))
}

fn begins_integer(byte: u8) -> bool
    ensures { result ≡ (byte == 45 || is_digit byte) }
{
    matches!(byte, b'-' | b'0'..=b'9')
}

// The front of a term: a whole term, or the opening mark of a list or a tuple that has elements.
#[derive(Drop)]
enum Front {
    Whole(Term),
    List,
    Tuple,
}

// The front of a list, after its opening bracket.
fn list_front(text: &[u8]) -> Result<(Front, &[u8]), ReadFault>
    ensures front { (depth_left : ℕ) → BeginsWith depth_left (list_by (pairs_at depth_left) text.now) result }
    ensures fits { (depth_left : ℕ) → IfOk result (λ x. FitsDepth depth_left x.0) }
{
    match text {
        [] => Err(ReadFault::At(0)),
        [b']', rest @ ..] => Ok((Front::Whole(Term::nil()), skip_blanks(rest))),
        _ => Ok((Front::List, text)),
    }
}

// The front of a tuple, after its opening brace.
#[tactic(auto, using(crate::proofs::Rooms::tuple_at_is, crate::proofs::Rooms::tuple_at_none))]
fn tuple_front(alloc: Global, depth_left: u16, text: &[u8]) -> Result<(Front, &[u8]), ReadFault>
    ensures front { BeginsWith depth_left (tuple_at depth_left text.now) result }
    ensures fits { IfOk result (λ x. FitsDepth depth_left x.0) }
{
    if depth_left == 0 {
        return Err(ReadFault::At(text.len()));
    }
    let Some((first, others)) = text.split_first() else {
        return Err(ReadFault::At(0));
    };
    if *first != b'}' {
        return Ok((Front::Tuple, text));
    }
    let empty = made_tuple(alloc, Vec::new(alloc))?;
    Ok((Front::Whole(empty), skip_blanks(others)))
}

#[tactic(auto, using(crate::proofs::Rooms::term_at_is))]
fn read_front(alloc: Global, depth_left: u16, text: &[u8]) -> Result<(Front, &[u8]), ReadFault>
    requires { depth_left ≤ 4096 }
    ensures front { BeginsWith depth_left (term_at depth_left text.now) result }
    ensures fits { IfOk result (λ x. FitsDepth depth_left x.0) }
{
    let Some((first, others)) = text.split_first() else {
        return Err(ReadFault::At(0));
    };
    match *first {
        b'[' => list_front(skip_blanks(others)),
        b'{' => tuple_front(alloc, depth_left, skip_blanks(others)),
        b'"' => {
            let (string, rest) = read_characters(alloc, depth_left, text)?;
            Ok((Front::Whole(string), rest))
        }
        byte if begins_integer(byte) => {
            let (value, rest) = read_integer(text)?;
            Ok((Front::Whole(Term::integer(value)), rest))
        }
        _ => {
            let (name, rest) = read_atom(alloc, text)?;
            Ok((Front::Whole(Term::atom(name)), rest))
        }
    }
}

// Why a reader stops: for a fault, whose place it has written, or for want of memory.
#[derive(Clone, Copy)]
enum ReadStop {
    NoMemory,
    Fault,
}

impl From<AllocError> for ReadStop {
    ghost use Rattle.std.specs.Prelude.{◌≡◌};
    ghost use Rattle.beam_erltext.specs.declared.read.ReadStop.TheVariants.{NoMemory};

    ghost from_gives = { λ _ s. s ≡ NoMemory };

    fn from(_e: AllocError) -> ReadStop {
        ReadStop::NoMemory
    }
}

impl<T: Drop> From<AllocFailed<T>> for ReadStop {
    ghost use Rattle.std.specs.Prelude.{◌≡◌};
    ghost use Rattle.beam_erltext.specs.declared.read.ReadStop.TheVariants.{NoMemory};

    ghost from_gives = { λ _ s. s ≡ NoMemory };

    fn from(_e: AllocFailed<T>) -> ReadStop {
        ReadStop::NoMemory
    }
}

impl From<TermError> for ReadStop {
    ghost use Rattle.std.specs.Prelude.{◌≡◌};
    ghost use Rattle.beam_erltext.specs.Puts.{stop_of};

    ghost from_gives = { λ e s. s ≡ stop_of e };

    fn from(e: TermError) -> ReadStop {
        match e {
            TermError::NoMemory => ReadStop::NoMemory,
            TermError::TooDeep => ReadStop::Fault,
        }
    }
}

// A reader's stop at a fault, whose place is written to `place`.
fn stop_at(fault: ReadFault, place: &mut usize) -> ReadStop
    ensures { StopsAt fault place.new result }
{
    match fault {
        ReadFault::NoMemory => ReadStop::NoMemory,
        ReadFault::At(left) => {
            *place = left;
            ReadStop::Fault
        }
    }
}

// Which parts of a term are still to be read.
#[derive(Clone, Copy)]
enum Parts {
    None,
    List,
    Tuple,
}

// Reads the front of a term; a whole term goes onto the stack. Not inlined, so that the recursion's frames stay small.
#[inline(never)]
fn next(
    alloc: Global,
    depth_left: u16,
    text: &mut &[u8],
    done: &mut Vec<Term>,
    place: &mut usize,
) -> Result<Parts, ReadStop>
    requires { depth_left ≤ 4096 }
    ensures { LeavesParts depth_left text.old.now text.new.now place.new done.old.items done.new.items result }
{
    match read_front(alloc, depth_left, *text) {
        Err(fault) => Err(stop_at(fault, place)),
        Ok((front, rest)) => {
            *text = rest;
            match front {
                Front::Whole(term) => {
                    done.push(term)?;
                    Ok(Parts::None)
                }
                Front::List => Ok(Parts::List),
                Front::Tuple => Ok(Parts::Tuple),
            }
        }
    }
}

// The continuation of a list after an element.
#[derive(Clone, Copy)]
enum AfterElement {
    Element,
    Tail,
    End,
}

#[inline(never)]
fn after_element(text: &mut &[u8], place: &mut usize) -> Result<AfterElement, ReadStop>
    ensures { IsAfterElement text.old.now text.new.now place.new result }
{
    match *text {
        [] => {
            *place = 0;
            Err(ReadStop::Fault)
        }
        [b']', rest @ ..] => {
            *text = skip_blanks(rest);
            Ok(AfterElement::End)
        }
        [b',', rest @ ..] => {
            *text = skip_blanks(rest);
            Ok(AfterElement::Element)
        }
        [b'|', rest @ ..] => {
            *text = skip_blanks(rest);
            Ok(AfterElement::Tail)
        }
        others => {
            *place = others.len();
            Err(ReadStop::Fault)
        }
    }
}

// The bracket that closes a list after its tail.
#[inline(never)]
fn close(text: &mut &[u8], place: &mut usize) -> Result<(), ReadStop>
    ensures { (t : TermValue) → Closes (closed_by 93 t text.old.now) t text.new.now place.new result }
{
    match *text {
        [] => {
            *place = 0;
            Err(ReadStop::Fault)
        }
        [b']', rest @ ..] => {
            *text = skip_blanks(rest);
            Ok(())
        }
        others => {
            *place = others.len();
            Err(ReadStop::Fault)
        }
    }
}

// Whether a further element of a tuple follows.
#[inline(never)]
fn after_item(text: &mut &[u8], place: &mut usize) -> Result<bool, ReadStop>
    ensures { (items : List ℕ → Reading (List TermValue)) → Follows items (items_after items text.old.now) text.new.now place.new result }
{
    match *text {
        [] => {
            *place = 0;
            Err(ReadStop::Fault)
        }
        [b'}', rest @ ..] => {
            *text = skip_blanks(rest);
            Ok(false)
        }
        [b',', rest @ ..] => {
            *text = skip_blanks(rest);
            Ok(true)
        }
        others => {
            *place = others.len();
            Err(ReadStop::Fault)
        }
    }
}

// Replaces the terms on the stack from index `start` on by their list, whose tail is the last of them.
#[inline(never)]
#[tactic(auto, using(crate::proofs::Stack::stack))]
fn put_list(alloc: Global, start: usize, done: &mut Vec<Term>) -> Result<(), TermError>
    requires { start < vec_len done.old }
    ensures { (front items : List TermValue) (tail : TermValue) → done.old.items ≡ front ++ (items ++ tail ∷ []) → length front ≡ start
        → MatchResult result (λ _. done.new.items ≡ front ++ list_before items tail ∷ [])
        (λ e. e ≡ TermError.TooDeep → 4096 < depth_of (list_before items tail)) }
{
    let Some(tail) = done.pop() else {
        unreachable!();
    };
    let items = done.split_off(start)?;
    let list = list_with_tail(alloc, items, tail)?;
    done.push(list)?;
    Ok(())
}

// Replaces the terms on the stack from index `start` on by their tuple.
#[inline(never)]
#[tactic(auto, using(crate::proofs::Stack::stack))]
fn put_tuple(alloc: Global, start: usize, done: &mut Vec<Term>) -> Result<(), TermError>
    requires { start ≤ vec_len done.old }
    ensures { (front items : List TermValue) → done.old.items ≡ front ++ items → length front ≡ start
        → MatchResult result (λ _. done.new.items ≡ front ++ tuple_of items ∷ [])
        (λ e. e ≡ TermError.TooDeep → (4096 < depth_of (tuple_of items)) ⊎ (2 ^ 32 ≤ length items)) }
{
    let items = done.split_off(start)?;
    let tuple = tuple(alloc, items)?;
    done.push(tuple)?;
    Ok(())
}

// Reads a term and puts it onto the stack of the terms that were read.
#[cycle(read)]
fn read(
    alloc: Global,
    depth_left: u16,
    text: &mut &[u8],
    done: &mut Vec<Term>,
    place: &mut usize,
) -> Result<(), ReadStop>
    requires { depth_left ≤ 4096 }
    ensures { Puts depth_left (term_at depth_left text.old.now) text.new.now place.new done.old.items done.new.items result }
{
    match next(alloc, depth_left, text, done, place)? {
        Parts::None => Ok(()),
        Parts::List => read_list(alloc, depth_left, text, done, place),
        Parts::Tuple => read_tuple(alloc, depth_left, text, done, place),
    }
}

// The elements of a list, and its end; each element leaves one level of depth less to those after it.
#[cycle(read)]
fn read_list(
    alloc: Global,
    depth_left: u16,
    text: &mut &[u8],
    done: &mut Vec<Term>,
    place: &mut usize,
) -> Result<(), ReadStop>
    requires { depth_left ≤ 4096 }
    ensures { Puts depth_left (pairs_at depth_left text.old.now) text.new.now place.new done.old.items done.new.items result }
{
    let start = done.len();
    let mut left = depth_left;
    'elements: loop {
        if left == 0 {
            *place = text.len();
            return Err(ReadStop::Fault);
        }
        left -= 1;
        read(alloc, left, text, done, place)?;
        match after_element(text, place)? {
            AfterElement::Element => {}
            AfterElement::End => {
                done.push(Term::nil())?;
                put_list(alloc, start, done)?;
                return Ok(());
            }
            AfterElement::Tail => {
                read(alloc, left, text, done, place)?;
                close(text, place)?;
                put_list(alloc, start, done)?;
                return Ok(());
            }
        }
    }
}

// The elements of a tuple, each of one level of depth less, and its end.
#[cycle(read)]
fn read_tuple(
    alloc: Global,
    depth_left: u16,
    text: &mut &[u8],
    done: &mut Vec<Term>,
    place: &mut usize,
) -> Result<(), ReadStop>
    requires shallow { depth_left ≤ 4096 }
    requires some { 0 < depth_left }
    ensures { Puts depth_left (tuple_elements_at (depth_left - 1) text.old.now) text.new.now place.new done.old.items done.new.items result }
{
    let start = done.len();
    let whole = text.len();
    for _ in 0..whole {
        read(alloc, depth_left - 1, text, done, place)?;
        if !after_item(text, place)? {
            if done.len() - start > u32::MAX as usize {
                *place = whole;
                return Err(ReadStop::Fault);
            }
            put_tuple(alloc, start, done)?;
            return Ok(());
        }
    }
    *place = text.len();
    Err(ReadStop::Fault)
}

/// The term, at most `depth_left` deep, at the front of a text that begins with it, and the text after it
/// and its blanks. The fault stands where the reading stops: at an integer, an atom or a string past
/// the limits of terms, at the first element that would be too deep, or at what no text goes on with.
pub fn read_term(alloc: Global, depth_left: u16, text: &[u8]) -> Result<(Term, &[u8]), ReadFault>
    requires { depth_left ≤ 4096 }
    ensures gives { Gives (λ x. (x.0, x.1.now)) result (term_at depth_left text.now) }
    ensures depth { IfOk result (λ x. depth_of x.0 ≤ depth_left) }
{
    let mut rest = text;
    let mut done = Vec::new(alloc);
    let mut place = 0;
    match read(alloc, depth_left, &mut rest, &mut done, &mut place) {
        Ok(()) => match done.pop() {
            Some(term) => Ok((term, rest)),
            None => unreachable!(),
        },
        Err(ReadStop::NoMemory) => Err(ReadFault::NoMemory),
        Err(ReadStop::Fault) => Err(ReadFault::At(place)),
    }
}

#[tactic(auto, unfolding(beam_model::specs::TextReading::read_text))]
fn read_whole(alloc: Global, text: &[u8]) -> Result<Term, ReadFault>
    ensures { Gives (λ t. t) result (read_text text.now) }
{
    let (term, rest) = read_term(alloc, MAX_DEPTH, skip_blanks(text))?;
    if !rest.is_empty() {
        return Err(ReadFault::At(rest.len()));
    }
    Ok(term)
}

/// The line, from 1, of the place after which `left` bytes of the text follow.
pub fn line_at(text: &[u8], left: usize) -> usize
    ensures { result ≡ line_of text.now left }
{
    let front = &text[..text.len().saturating_sub(left)];
    1 + front.iter().filter(|byte| **byte == b'\n').count()
}

/// The term that a text is, and nothing else but blanks round it.
///
/// Integers stand in decimal, atoms bare or in quotes, strings for the lists of their characters;
/// between tokens stand blanks, but no comments. Pids and references have no text that is read.
/// Fails with `Syntax` at the first fault, also at an integer, an atom, a tuple or a depth past the
/// limits of terms (Erlang Reference Manual, Data Types).
pub fn read_erl(alloc: Global, text: &str) -> Result<Term, TextError>
    // The texts of terms, by the grammar.
    ensures spelled { IfOk result (λ t. IsTextOf text.now t) }
    ensures found { (t : TermValue) → IsTerm t → IsTextOf text.now t → MatchResult result (λ u. u ≡ t) (λ e. e ≡ TextError.NoMemory) }

    // The first fault from the left.
    ensures value { IfOk result (λ t. term_of_text text.now ≡ Ok t) }
    ensures syntax { (line : ℕ) → result ≡ Err (TextError.Syntax line) → term_of_text text.now ≡ Err line }
{
    match read_whole(alloc, text.as_bytes()) {
        Ok(term) => Ok(term),
        Err(ReadFault::NoMemory) => Err(TextError::NoMemory),
        Err(ReadFault::At(left)) => Err(TextError::Syntax(line_at(text.as_bytes(), left))),
    }
}
