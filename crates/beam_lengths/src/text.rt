//! How long the text of a term would be.

ghost use Rattle.std.specs.Prelude.{◌≡◌, ◌≢◌, ◌<◌, ◌≤◌, ◌++◌, [], length, IfSome, IfNone};
ghost use Rattle.std.specs.Fmt.{decimal};
ghost use Rattle.beam_term.specs.TermValue.{terms_of};
ghost use Rattle.beam_term.specs.Order.{rank_of};
ghost use Rattle.beam_model.specs.Text.{text_of, tail_text, items_text, pid_text, reference_text, atom_text, escaped};
ghost use Rattle.beam_lengths.specs.Left.{IsLeft};

use beam_erltext::is_bare_atom;
use beam_term::{Term, TermView};
use itoa::Buffer;

/// How many bytes the text of a term has, as `print_erl` writes it; `None` where it has more than `most`. It takes no memory, and counts
/// at most `most` + 1 terms: each takes a byte of `most`, or ends it.
pub fn text_length(term: &Term, most: usize) -> Option<usize>
    ensures within { IfSome result (λ n. (n ≡ length (text_of term.now)) × (n ≤ most)) }
    ensures above { IfNone result (most < length (text_of term.now)) }
{
    let left = after_term(term, most)?;
    Some(most - left)
}

// Each function below answers what is left of a limit after the text that it counts.

// A term without parts. Not inlined, so that the recursion's frames stay small.
#[inline(never)]
fn after_leaf(term: &Term, limit: usize) -> Option<usize>
    requires no_tuple { rank_of term.now ≢ 4 }
    requires no_pair { rank_of term.now ≢ 6 }
    ensures { IsLeft result limit (length (text_of term.now)) }
{
    match term.view() {
        TermView::Integer(n) => limit.checked_sub(Buffer::new().format(n).len()),
        TermView::Atom(name) => after_name(name.as_str().as_bytes(), limit),
        TermView::Reference(of) => after_reference(of.words(), limit),
        TermView::Pid(pid) => after_pid(pid.id, pid.serial, limit),
        TermView::Nil => limit.checked_sub(2),
        TermView::Pair(_, _) | TermView::Tuple(_) => unreachable!(),
    }
}

#[cycle(text)]
#[tactic(auto, using(beam_term::specs::TermRules::terms))]
fn after_term(term: &Term, limit: usize) -> Option<usize>
    ensures { IsLeft result limit (length (text_of term.now)) }
{
    if let Some((head, tail)) = term.as_pair() {
        return after_elements(head, tail, limit.checked_sub(2)?);
    }
    let Some(items) = term.as_tuple() else {
        return after_leaf(term, limit);
    };
    after_items(items, limit.checked_sub(2)?)
}

// The elements and the tail of a list. The loop goes through the pairs, so that only heads and elements take stack.
#[cycle(text)]
#[tactic(auto, using(beam_term::specs::TermRules::terms))]
fn after_elements(head: &Term, tail: &Term, limit: usize) -> Option<usize>
    ensures { IsLeft result limit (length (text_of head.now ++ tail_text tail.now)) }
{
    let mut left = after_term(head, limit)?;
    let mut rest = tail;
    while let Some((next, after)) = rest.as_pair() {
        left = after_term(next, left.checked_sub(1)?)?;
        rest = after;
    }
    if rest.is_nil() {
        return Some(left);
    }
    after_term(rest, left.checked_sub(1)?)
}

#[cycle(text)]
#[tactic(auto, using(beam_term::specs::TermRules::terms))]
fn after_items(items: &[Term], limit: usize) -> Option<usize>
    ensures { IsLeft result limit (length (items_text [] (terms_of items.now))) }
{
    let mut left = limit;
    let mut separator: &[u8] = &[];
    for item in items {
        left = after_term(item, left.checked_sub(separator.len())?)?;
        separator = b",";
    }
    Some(left)
}

fn decimal_length(n: u32) -> usize
    ensures value { result ≡ length (decimal n) }
    ensures short { result ≤ 40 }
{
    Buffer::new().format(n).len()
}

// The words of a reference, each after a dot, between `#Ref<0` and `>`.
fn after_reference(words: &[u32], limit: usize) -> Option<usize>
    ensures { IsLeft result limit (length (reference_text words.now)) }
{
    let mut left = limit.checked_sub(7)?;
    let mut rest = words;
    while let Some((last, others)) = rest.split_last() {
        left = left.checked_sub(1 + decimal_length(*last))?;
        rest = others;
    }
    Some(left)
}

// Both numbers of a pid, between `<0.`, a dot and `>`.
fn after_pid(id: u32, serial: u32, limit: usize) -> Option<usize>
    ensures { IsLeft result limit (length (pid_text id serial)) }
{
    limit.checked_sub(5 + decimal_length(id) + decimal_length(serial))
}

fn after_name(name: &[u8], limit: usize) -> Option<usize>
    ensures { IsLeft result limit (length (atom_text name.now)) }
{
    if is_bare_atom(name) {
        return limit.checked_sub(name.len());
    }
    let mut left = limit.checked_sub(2)?;
    for byte in name {
        left = left.checked_sub(escaped_length(*byte))?;
    }
    Some(left)
}

// A byte between quotes: as it is, after a backslash, or as `\x{..}` with one or two digits.
#[tactic(auto, using(std::proofs::lemmas::Fmt::hex_one_digit, std::proofs::lemmas::Fmt::hex_two_digits))]
fn escaped_length(byte: u8) -> usize
    ensures { result ≡ length (escaped byte) }
{
    match byte {
        b'\'' | b'\\' => 2,
        0..16 => 5,
        16..32 | 127 => 6,
        _ => 1,
    }
}
