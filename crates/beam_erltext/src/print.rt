//! The one text that is printed of a term.

ghost use Rattle.std.specs.Prelude.{◌≡◌, ◌≢◌, ◌↔◌, ◌++◌, [], true, OnOk, OnErr, IsTrue, ◌<◌};
ghost use Rattle.std.specs.List.{list_all};
ghost use Rattle.std.specs.Result.{IsOkUnless};
ghost use Rattle.std.specs.Fmt.{digits, decimal, digit_glyph};
ghost use Rattle.beam_term.specs.TermValue.{terms_of};
ghost use Rattle.beam_term.specs.Order.{rank_of};
ghost use Rattle.beam_model.specs.Text.{text_of, tail_text, items_text, pid_text, reference_text, atom_text, escaped, is_lower, is_digit, is_name, is_unquoted, is_reserved};

use crate::error::TextError;
use beam_term::{Term, TermView};
use itoa::Buffer;
use std::alloc::AllocError;

/// Appends the text of the term: integers in decimal, atoms bare where they may be and else in
/// quotes, no blanks (Erlang Reference Manual, Data Types). Pids are printed
/// `<0.ID.SERIAL>` and references `#Ref<0.W3.W2.W1>`, the words from the last to the first.
/// A list of numbers is printed as a list, never as a string.
pub fn print_erl(term: &Term, out: &mut Vec<u8>) -> Result<(), TextError>
    ensures printed { OnOk result (out.new.items ≡ out.old.items ++ text_of term.now) }
    ensures err { OnErr result (out.new.items ≡ out.old.items) }
    ensures memory { IsOkUnless result TextError.NoMemory }
{
    let mut text = Vec::new(*out.allocator());
    print_term(term, &mut text)?;
    out.extend_from_slice(&text)?;
    Ok(())
}

/// Appends the text of the atom of that name: bare where it may be, and else in quotes.
pub fn print_atom(name: &str, out: &mut Vec<u8>) -> Result<(), TextError>
    ensures printed { OnOk result (out.new.items ≡ out.old.items ++ atom_text name.now) }
    ensures err { OnErr result (out.new.items ≡ out.old.items) }
    ensures memory { IsOkUnless result TextError.NoMemory }
{
    let mut text = Vec::new(*out.allocator());
    print_name(name, &mut text)?;
    out.extend_from_slice(&text)?;
    Ok(())
}

// Writes the characters of a mark. Not inlined, so that the recursion's frames stay small.
#[inline(never)]
fn print_mark(mark: &[u8], out: &mut Vec<u8>) -> Result<(), AllocError>
    ensures { OnOk result (out.new.items ≡ out.old.items ++ mark.now) }
{
    out.extend_from_slice(mark)
}

// A term without parts.
#[inline(never)]
fn print_leaf(term: &Term, out: &mut Vec<u8>) -> Result<(), AllocError>
    requires no_tuple { rank_of term.now ≢ 4 }
    requires no_pair { rank_of term.now ≢ 6 }
    ensures { OnOk result (out.new.items ≡ out.old.items ++ text_of term.now) }
{
    match term.view() {
        TermView::Integer(n) => out.extend_from_slice(Buffer::new().format(n).as_bytes()),
        TermView::Atom(name) => print_name(name.as_str(), out),
        TermView::Reference(of) => print_reference(of.words(), out),
        TermView::Pid(pid) => print_pid(pid.id, pid.serial, out),
        TermView::Nil => out.extend_from_slice(b"[]"),
        TermView::Pair(_, _) | TermView::Tuple(_) => unreachable!(),
    }
}

#[cycle(print)]
#[tactic(auto, using(beam_term::specs::TermRules::terms))]
fn print_term(term: &Term, out: &mut Vec<u8>) -> Result<(), AllocError>
    ensures { OnOk result (out.new.items ≡ out.old.items ++ text_of term.now) }
{
    if let Some((head, tail)) = term.as_pair() {
        print_mark(b"[", out)?;
        print_elements(head, tail, out)?;
        return print_mark(b"]", out);
    }
    let Some(items) = term.as_tuple() else {
        return print_leaf(term, out);
    };
    print_mark(b"{", out)?;
    print_items(items, out)?;
    print_mark(b"}", out)
}

// The elements and the tail of a list. The loop goes through the pairs, so that only heads and elements take stack.
#[cycle(print)]
#[tactic(auto, using(beam_term::specs::TermRules::terms))]
fn print_elements(head: &Term, tail: &Term, out: &mut Vec<u8>) -> Result<(), AllocError>
    ensures { OnOk result (out.new.items ≡ out.old.items ++ (text_of head.now ++ tail_text tail.now)) }
{
    print_term(head, out)?;
    let mut rest = tail;
    while let Some((next, after)) = rest.as_pair() {
        print_mark(b",", out)?;
        print_term(next, out)?;
        rest = after;
    }
    if rest.is_nil() {
        return Ok(());
    }
    print_mark(b"|", out)?;
    print_term(rest, out)
}

#[cycle(print)]
#[tactic(auto, using(beam_term::specs::TermRules::terms))]
fn print_items(items: &[Term], out: &mut Vec<u8>) -> Result<(), AllocError>
    ensures { OnOk result (out.new.items ≡ out.old.items ++ items_text [] (terms_of items.now)) }
{
    let mut separator: &[u8] = &[];
    for item in items {
        print_mark(separator, out)?;
        print_term(item, out)?;
        separator = b",";
    }
    Ok(())
}

fn print_reference(words: &[u32], out: &mut Vec<u8>) -> Result<(), AllocError>
    ensures { OnOk result (out.new.items ≡ out.old.items ++ reference_text words.now) }
{
    out.extend_from_slice(b"#Ref<0")?;
    let mut left = words;
    while let Some((last, others)) = left.split_last() {
        out.extend_from_slice(b".")?;
        out.extend_from_slice(Buffer::new().format(*last).as_bytes())?;
        left = others;
    }
    out.extend_from_slice(b">")
}

fn print_pid(id: u32, serial: u32, out: &mut Vec<u8>) -> Result<(), AllocError>
    ensures { OnOk result (out.new.items ≡ out.old.items ++ pid_text id serial) }
{
    out.extend_from_slice(b"<0.")?;
    out.extend_from_slice(Buffer::new().format(id).as_bytes())?;
    out.extend_from_slice(b".")?;
    out.extend_from_slice(Buffer::new().format(serial).as_bytes())?;
    out.extend_from_slice(b">")
}

fn print_name(name: &str, out: &mut Vec<u8>) -> Result<(), AllocError>
    ensures { OnOk result (out.new.items ≡ out.old.items ++ atom_text name.now) }
{
    if is_bare_atom(name.as_bytes()) {
        return out.extend_from_slice(name.as_bytes());
    }
    out.extend_from_slice(b"'")?;
    for byte in name.as_bytes() {
        print_escaped(*byte, out)?;
    }
    out.extend_from_slice(b"'")
}

fn print_escaped(byte: u8, out: &mut Vec<u8>) -> Result<(), AllocError>
    ensures { OnOk result (out.new.items ≡ out.old.items ++ escaped byte) }
{
    match byte {
        b'\'' | b'\\' => out.extend_from_slice(&[b'\\', byte]),
        0..32 | 127 => {
            out.extend_from_slice(b"\\x{")?;
            print_hex(byte, out)?;
            out.extend_from_slice(b"}")
        }
        _ => out.extend_from_slice(&[byte]),
    }
}

#[tactic(auto, using(std::proofs::lemmas::Fmt::hex_one_digit, std::proofs::lemmas::Fmt::hex_two_digits))]
fn print_hex(byte: u8, out: &mut Vec<u8>) -> Result<(), AllocError>
    ensures { OnOk result (out.new.items ≡ out.old.items ++ digits 16 true byte) }
{
    if byte < 16 {
        return out.extend_from_slice(&[hex_digit(byte)]);
    }
    out.extend_from_slice(&[hex_digit(byte / 16), hex_digit(byte % 16)])
}

fn hex_digit(value: u8) -> u8
    requires { value < 16 }
    ensures { result ≡ digit_glyph true value }
{
    if value < 10 {
        b'0' + value
    } else {
        b'A' + (value - 10)
    }
}

fn is_lower_letter(byte: u8) -> bool
    ensures { result ≡ is_lower byte }
{
    byte.is_ascii_lowercase()
}

pub fn is_name_byte(byte: u8) -> bool
    ensures { result ≡ is_name byte }
{
    matches!(byte, b'a'..=b'z' | b'0'..=b'9' | b'@'..=b'Z' | b'_')
}

const RESERVED_WORDS: [&[u8]; 29] = [
    b"after", b"and", b"andalso", b"band", b"begin", b"bnot", b"bor", b"bsl", b"bsr", b"bxor",
    b"case", b"catch", b"cond", b"div", b"else", b"end", b"fun", b"if", b"let", b"maybe", b"not",
    b"of", b"or", b"orelse", b"receive", b"rem", b"try", b"when", b"xor",
];

#[tactic(auto, unfolding(beam_model::specs::Text::is_reserved))]
fn is_reserved_word(text: &[u8]) -> bool
    ensures { result ≡ is_reserved text.now }
{
    RESERVED_WORDS.contains(&text)
}

/// Whether an atom of that name is printed without quotes.
pub fn is_bare_atom(name: &[u8]) -> bool
    ensures { result ≡ is_unquoted name.now }
{
    let Some((first, others)) = name.split_first() else {
        return false;
    };
    if !is_lower_letter(*first) || is_reserved_word(name) {
        return false;
    }
    are_name_bytes(others)
}

fn are_name_bytes(bytes: &[u8]) -> bool
    ensures { result ≡ list_all is_name bytes.now }
{
    bytes.iter().all(|byte| is_name_byte(*byte))
}
