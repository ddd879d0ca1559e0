//! The tokens of Erlang text, each read from the front of a text that begins with it, with the
//! blanks after it. A reader answers the value and the rest of the text, or the fault.

ghost use Rattle.std.specs.Prelude.{◌≡◌, ◌≤◌, ◌^◌, ◌++◌, length, IfOk, OnOk, MatchOption, encode_utf8, true, false};
ghost use Rattle.std.specs.Str.{is_utf8};
ghost use Rattle.std.specs.String.{string_bytes};
ghost use Rattle.beam_term.specs.TermValue.{IsSmall};
ghost use Rattle.beam_model.specs.Text.{is_digit};
ghost use Rattle.beam_model.specs.TextReading.{is_blank, after_blanks, digits_after, digits_at, integer_at, hexadecimal_after, hexadecimal_at, code_point_at, escape_of, escape_at, quoted_at, name_len, checked_atom, unquoted_atom_at, atom_at, string_at};
ghost use Rattle.beam_erltext.specs.Gives.{Gives};

use crate::print::{is_bare_atom, is_name_byte};
use crate::read_fault::ReadFault;
use beam_term::{Atom, AtomError};
use std::alloc::{AllocError, Global};

fn is_blank_byte(byte: u8) -> bool
    ensures { result ≡ is_blank byte }
{
    matches!(byte, b' ' | 9..=13)
}

/// The text after the blanks that it begins with: spaces, tabs and line ends.
#[tactic(auto, unfolding(beam_model::specs::TextReading::after_blanks))]
pub fn skip_blanks(text: &[u8]) -> &[u8]
    ensures { result.now ≡ after_blanks text.now }
{
    let mut rest = text;
    while let Some((first, others)) = rest.split_first() {
        if !is_blank_byte(*first) {
            return rest;
        }
        rest = others;
    }
    rest
}

fn is_digit_byte(byte: u8) -> bool
    ensures { result ≡ is_digit byte }
{
    matches!(byte, b'0'..=b'9')
}

// The greatest size of an integer.
const LIMIT: u64 = 1 << 59;

#[tactic(auto, unfolding(beam_model::specs::TextReading::digits_after))]
fn read_digits(text: &[u8]) -> Result<(u64, &[u8]), ReadFault>
    ensures gives { Gives (λ x. (x.0, x.1.now)) result (digits_after 0 text.now) }
    ensures small { IfOk result (λ x. x.0 ≤ 2 ^ 59) }
{
    let mut value = 0;
    let mut rest = text;
    while let Some((first, others)) = rest.split_first() {
        if !is_digit_byte(*first) {
            return Ok((value, rest));
        }
        let more = 10 * value + (*first - b'0') as u64;
        if more > LIMIT {
            return Err(ReadFault::At(rest.len()));
        }
        value = more;
        rest = others;
    }
    Ok((value, rest))
}

#[tactic(auto, unfolding(beam_model::specs::TextReading::digits_at))]
fn read_number(text: &[u8]) -> Result<(u64, &[u8]), ReadFault>
    ensures gives { Gives (λ x. (x.0, x.1.now)) result (digits_at text.now) }
    ensures small { IfOk result (λ x. x.0 ≤ 2 ^ 59) }
{
    match text {
        [] => Err(ReadFault::At(0)),
        [first, ..] => {
            if !is_digit_byte(*first) {
                return Err(ReadFault::At(text.len()));
            }
            read_digits(text)
        }
    }
}

/// The integer at the front of the text: digits, or a minus sign right before digits.
#[tactic(auto, unfolding(beam_model::specs::TextReading::integer_at))]
pub fn read_integer(text: &[u8]) -> Result<(i64, &[u8]), ReadFault>
    ensures gives { Gives (λ x. (x.0, x.1.now)) result (integer_at text.now) }
    ensures small { IfOk result (λ x. IsSmall x.0) }
{
    match text {
        [] => Err(ReadFault::At(0)),
        [b'-', digits @ ..] => {
            let (size, rest) = read_number(digits)?;
            Ok((-(size as i64), skip_blanks(rest)))
        }
        _ => {
            let (size, rest) = read_number(text)?;
            if size == LIMIT {
                return Err(ReadFault::At(text.len()));
            }
            Ok((size as i64, skip_blanks(rest)))
        }
    }
}

#[tactic(auto, unfolding(beam_model::specs::TextReading::hexadecimal_after))]
fn read_hexadecimal_digits(text: &[u8]) -> Result<(u32, &[u8]), ReadFault>
    ensures gives { Gives (λ x. (x.0, x.1.now)) result (hexadecimal_after 0 text.now) }
{
    let mut value = 0;
    let mut rest = text;
    while let Some((first, others)) = rest.split_first() {
        let Some(digit) = (*first as char).to_digit(16) else {
            if *first == b'}' {
                return Ok((value, others));
            }
            return Err(ReadFault::At(rest.len()));
        };
        let more = 16 * value + digit;
        if more >= 0x11_0000 {
            return Err(ReadFault::At(rest.len()));
        }
        value = more;
        rest = others;
    }
    Err(ReadFault::At(0))
}

#[tactic(auto, unfolding(beam_model::specs::TextReading::hexadecimal_at))]
fn read_hexadecimal(text: &[u8]) -> Result<(u32, &[u8]), ReadFault>
    ensures { Gives (λ x. (x.0, x.1.now)) result (hexadecimal_at text.now) }
{
    match text {
        [] => Err(ReadFault::At(0)),
        [first, ..] => {
            if (*first as char).to_digit(16).is_none() {
                return Err(ReadFault::At(text.len()));
            }
            read_hexadecimal_digits(text)
        }
    }
}

#[tactic(auto, unfolding(beam_model::specs::TextReading::code_point_at))]
fn read_code_point(text: &[u8]) -> Result<(char, &[u8]), ReadFault>
    ensures { Gives (λ x. (x.0, x.1.now)) result (code_point_at text.now) }
{
    match text {
        [] => Err(ReadFault::At(0)),
        [b'{', digits @ ..] => {
            let (code, rest) = read_hexadecimal(digits)?;
            match char::from_u32(code) {
                Some(character) => Ok((character, rest)),
                None => Err(ReadFault::At(text.len())),
            }
        }
        _ => Err(ReadFault::At(text.len())),
    }
}

fn escaped_by(letter: u8) -> Option<u8>
    ensures { result ≡ escape_of letter }
{
    match letter {
        b'n' => Some(b'\n'),
        b't' => Some(b'\t'),
        b'r' => Some(b'\r'),
        b'b' => Some(8),
        b'f' => Some(12),
        b'v' => Some(11),
        b'e' => Some(27),
        b's' => Some(b' '),
        b'd' => Some(127),
        b'"' | b'\'' | b'\\' => Some(letter),
        _ => None,
    }
}

#[tactic(auto, unfolding(beam_model::specs::TextReading::escape_at))]
fn read_escape(text: &[u8]) -> Result<(char, &[u8]), ReadFault>
    ensures { Gives (λ x. (x.0, x.1.now)) result (escape_at text.now) }
{
    match text {
        [] => Err(ReadFault::At(0)),
        [b'x', code @ ..] => read_code_point(code),
        [letter, rest @ ..] => match escaped_by(*letter) {
            Some(character) => Ok((character as char, rest)),
            None => Err(ReadFault::At(text.len())),
        },
    }
}

// The bytes up to the closing quote, and the text after it.
#[tactic(auto, unfolding(beam_model::specs::TextReading::quoted_within))]
fn read_quoted(alloc: Global, quote: u8, text: &[u8]) -> Result<(Vec<u8>, &[u8]), ReadFault>
    ensures { Gives (λ x. (x.0.items, x.1.now)) result (quoted_at quote text.now) }
{
    let mut content = Vec::new(alloc);
    let mut rest = text;
    for _ in 0..text.len() {
        let Some((first, others)) = rest.split_first() else {
            return Err(ReadFault::At(0));
        };
        if *first == quote {
            return Ok((content, others));
        }
        if *first == b'\\' {
            let (character, behind) = read_escape(others)?;
            push_character(&mut content, character)?;
            rest = behind;
        } else {
            content.push(*first)?;
            rest = others;
        }
    }
    Err(ReadFault::At(rest.len()))
}

fn push_character(content: &mut Vec<u8>, character: char) -> Result<(), AllocError>
    ensures { OnOk result (content.new.items ≡ content.old.items ++ encode_utf8 character) }
{
    let mut buffer = [0; 4];
    content.extend_from_slice(character.encode_utf8(&mut buffer).as_bytes())
}

fn name_length(text: &[u8]) -> usize
    ensures value { result ≡ name_len text.now }
    ensures bound { result ≤ length text.now }
{
    let mut length = 0;
    while length < text.len() && is_name_byte(text[length]) {
        length += 1;
    }
    length
}

fn checked_text(bytes: &[u8]) -> Option<&str>
    ensures { MatchOption result (is_utf8 bytes.now ≡ false) (λ s. (is_utf8 bytes.now ≡ true) × (s.now ≡ bytes.now)) }
{
    match str::from_utf8(bytes) {
        Ok(text) => Some(text),
        Err(_) => None,
    }
}

// The atom of this name, or a fault where the atom stands.
fn made_atom<'a>(
    alloc: Global,
    text: &'a [u8],
    name: &[u8],
    rest: &'a [u8],
) -> Result<(Atom, &'a [u8]), ReadFault>
    ensures { Gives (λ x. (x.0, x.1.now)) result (checked_atom text.now name.now rest.now) }
{
    let Some(name) = checked_text(name) else {
        return Err(ReadFault::At(text.len()));
    };
    match Atom::new(alloc, name) {
        Ok(atom) => Ok((atom, skip_blanks(rest))),
        Err(AtomError::TooLong) => Err(ReadFault::At(text.len())),
        Err(AtomError::NoMemory) => Err(ReadFault::NoMemory),
    }
}

fn read_bare_atom(alloc: Global, text: &[u8]) -> Result<(Atom, &[u8]), ReadFault>
    ensures { Gives (λ x. (x.0, x.1.now)) result (unquoted_atom_at text.now) }
{
    let (name, rest) = text.split_at(name_length(text));
    if !is_bare_atom(name) {
        return Err(ReadFault::At(text.len()));
    }
    made_atom(alloc, text, name, rest)
}

/// The atom at the front of the text, bare or in quotes.
#[tactic(auto, unfolding(beam_model::specs::TextReading::atom_at))]
pub fn read_atom(alloc: Global, text: &[u8]) -> Result<(Atom, &[u8]), ReadFault>
    ensures { Gives (λ x. (x.0, x.1.now)) result (atom_at text.now) }
{
    match text {
        [b'\'', quoted @ ..] => {
            let (name, rest) = read_quoted(alloc, b'\'', quoted)?;
            made_atom(alloc, text, &name, rest)
        }
        _ => read_bare_atom(alloc, text),
    }
}

/// The text in double quotes at the front of the text, which begins with a double quote.
#[tactic(auto, unfolding(beam_model::specs::TextReading::string_at))]
pub fn read_string(alloc: Global, text: &[u8]) -> Result<(String, &[u8]), ReadFault>
    ensures { Gives (λ x. (string_bytes x.0, x.1.now)) result (string_at text.now) }
{
    match text {
        [] => Err(ReadFault::At(0)),
        [_, quoted @ ..] => {
            let (bytes, rest) = read_quoted(alloc, b'"', quoted)?;
            match checked_text(&bytes) {
                Some(string) => Ok((String::from_str(alloc, string)?, skip_blanks(rest))),
                None => Err(ReadFault::At(text.len())),
            }
        }
    }
}
