//! A text of forms: comments, full stops, brackets and commas.

ghost use Rattle.std.specs.Prelude.{◌≡◌, ◌<◌, if◌then◌else◌, [], None, IfOk, length, reverse};
ghost use Rattle.beam_model.specs.Forms.{inside_after, is_comment, is_outside, uncommented, is_closing, closed, open_after, is_stop, stop_in, alone, elements_from, elements_within, bracketed_elements};
ghost use Rattle.beam_listing.specs.Gives.{Gives};

use crate::miss::Miss;
use crate::part::FormPart;
use beam_erltext::token::skip_blanks;
use beam_model::lex_state::LexState;
use std::alloc::{AllocError, Global};

fn inside_after(state: LexState, byte: u8) -> LexState
    ensures { result ≡ inside_after state byte }
{
    match state {
        LexState::Nothing if byte == b'%' => LexState::Comment,
        LexState::Nothing if byte == b'"' || byte == b'\'' => LexState::Quotes(byte),
        LexState::Nothing => LexState::Nothing,
        LexState::Quotes(quote) if byte == quote => LexState::Nothing,
        LexState::Quotes(quote) if byte == b'\\' => LexState::Escape(quote),
        LexState::Quotes(quote) | LexState::Escape(quote) => LexState::Quotes(quote),
        LexState::Comment if byte == b'\n' => LexState::Nothing,
        LexState::Comment => LexState::Comment,
    }
}

fn is_comment(state: LexState) -> bool
    ensures { result ≡ is_comment state }
{
    matches!(state, LexState::Comment)
}

fn is_outside(state: LexState) -> bool
    ensures { result ≡ is_outside state }
{
    matches!(state, LexState::Nothing)
}

/// The text with blanks in the place of its comments.
#[tactic(auto, unfolding(beam_model::specs::Forms::uncommented_from))]
pub fn uncommented(alloc: Global, text: &[u8]) -> Result<Vec<u8>, AllocError>
    ensures { IfOk result (λ v. v.items ≡ uncommented text.now) }
{
    let mut shown = Vec::new(alloc);
    let mut state = LexState::Nothing;
    let mut rest = text;
    while let Some((first, others)) = rest.split_first() {
        state = inside_after(state, *first);
        shown.push(if is_comment(state) { b' ' } else { *first })?;
        rest = others;
    }
    Ok(shown)
}

fn is_closing(byte: u8) -> bool
    ensures { result ≡ is_closing byte }
{
    matches!(byte, b')' | b']' | b'}')
}

// Takes the innermost open bracket off, if this byte closes it.
#[tactic(auto, using(crate::proofs::Reversed::reversed_push))]
fn close(brackets: &mut Vec<u8>, byte: u8) -> Result<(), Miss>
    ensures { Gives (λ _. reverse brackets.new.items) result (closed byte (reverse brackets.old.items)) }
{
    match brackets.pop() {
        Some(expected) if expected == byte => Ok(()),
        _ => Err(Miss::Unknown),
    }
}

// The brackets that are open after a byte, each by its closing bracket, the innermost last.
#[tactic(auto, using(crate::proofs::Reversed::reversed_push))]
fn nest(brackets: &mut Vec<u8>, state: LexState, byte: u8) -> Result<(), Miss>
    ensures { Gives (λ _. reverse brackets.new.items) result (open_after state byte (reverse brackets.old.items)) }
{
    if !is_outside(state) {
        return Ok(());
    }
    match byte {
        b'(' => Ok(brackets.push(b')')?),
        b'[' => Ok(brackets.push(b']')?),
        b'{' => Ok(brackets.push(b'}')?),
        b')' | b']' | b'}' => close(brackets, byte),
        _ => Ok(()),
    }
}

#[tactic(auto, using(crate::proofs::Reversed::reversed_length))]
fn is_stop(mark: u8, state: LexState, brackets: &[u8], byte: u8) -> bool
    ensures { result ≡ is_stop mark state (reverse brackets.now) byte }
{
    is_outside(state) && brackets.is_empty() && (byte == mark || is_closing(byte))
}

/// How many bytes stand before the first mark or closing bracket that is outside of quotes and brackets.
#[tactic(auto, unfolding(beam_model::specs::Forms::stop_from))]
pub fn stop(alloc: Global, mark: u8, text: &[u8]) -> Result<usize, Miss>
    ensures value { Gives (λ n. n) result (stop_in mark text.now) }
    ensures within { IfOk result (λ n. n < length text.now) }
{
    let mut state = LexState::Nothing;
    let mut brackets = Vec::new(alloc);
    let mut count = 0;
    let mut rest = text;
    while let Some((first, others)) = rest.split_first() {
        if is_stop(mark, state, &brackets, *first) {
            return Ok(count);
        }
        nest(&mut brackets, state, *first)?;
        state = inside_after(state, *first);
        count += 1;
        rest = others;
    }
    Err(Miss::Unknown)
}

// The elements up to the end of the bracket.
#[tactic(auto, using(crate::proofs::Fuel::elements_from_is), unfolding(beam_model::specs::Forms::elements_from))]
fn elements_up_to(alloc: Global, close: u8, text: &[u8]) -> Result<Vec<FormPart<'_>>, Miss>
    ensures { Gives (λ v. v.items) result (elements_from (length text.now) close [] text.now) }
{
    let mut elements = Vec::new(alloc);
    let mut rest = text;
    for _ in 0..text.len() {
        let size = stop(alloc, b',', rest)?;
        if size == 0 {
            return Err(Miss::Unknown);
        }
        let (element, after) = rest.split_at(size);
        elements.push(FormPart::new(element))?;
        let Some((mark, others)) = after.split_first() else {
            return Err(Miss::Unknown);
        };
        if *mark != b',' {
            return ended(elements, *mark == close, skip_blanks(others));
        }
        rest = skip_blanks(others);
    }
    Err(Miss::Unknown)
}

// The elements, where their bracket is closed and nothing stands after it.
fn ended<'a>(
    elements: Vec<FormPart<'a>>,
    is_closed: bool,
    after: &[u8],
) -> Result<Vec<FormPart<'a>>, Miss>
    ensures { Gives (λ v. v.items) result (if is_closed then alone elements.entry.items after.now else None) }
{
    if is_closed && after.is_empty() {
        return Ok(elements);
    }
    Err(Miss::Unknown)
}

#[tactic(auto, unfolding(beam_model::specs::Forms::elements_within))]
fn elements_within(alloc: Global, close: u8, text: &[u8]) -> Result<Vec<FormPart<'_>>, Miss>
    ensures { Gives (λ v. v.items) result (elements_within close text.now) }
{
    let Some((first, others)) = text.split_first() else {
        return Err(Miss::Unknown);
    };
    if *first != close {
        return elements_up_to(alloc, close, text);
    }
    ended(Vec::new(alloc), true, skip_blanks(others))
}

/// The elements of a text in these brackets, in their order.
#[tactic(auto, unfolding(beam_model::specs::Forms::bracketed_elements))]
pub fn elements(
    alloc: Global,
    opening: u8,
    close: u8,
    text: &[u8],
) -> Result<Vec<FormPart<'_>>, Miss>
    ensures { Gives (λ v. v.items) result (bracketed_elements opening close text.now) }
{
    let Some((first, others)) = text.split_first() else {
        return Err(Miss::Unknown);
    };
    if *first != opening {
        return Err(Miss::Unknown);
    }
    elements_within(alloc, close, skip_blanks(others))
}
