//! How many external bytes a term would have.

ghost use Rattle.std.specs.Prelude.{◌≡◌, ◌+◌, ◌<◌, ◌≤◌, ◌++◌, false, true, length, unsigned_abs, IfSome, IfNone};
ghost use Rattle.beam_term.specs.TermValue.{pair_term, terms_of};
ghost use Rattle.beam_model.specs.External.{byte_count, written_integer, written_atom, written_pid, written_reference, tuple_front, written_part, all_written, external_bytes};
ghost use Rattle.beam_lengths.specs.Left.{IsLeft};

use beam_etf::{byte_count, is_byte_list, pair_count};
use beam_term::{Atom, Pid, Reference, Term, TermView};

/// How many external bytes a term has, as `write_term` writes them; `None` where it has more than `most`. It takes no memory, and counts
/// at most `most` + 1 terms: each takes a byte of `most`, or ends it. Before that a list is looked through at most twice, as far as its
/// elements are bytes, and each of these takes a byte too.
pub fn external_length(term: &Term, most: usize) -> Option<usize>
    ensures within { IfSome result (λ n. (n ≡ length (external_bytes term.now)) × (n ≤ most)) }
    ensures above { IfNone result (most < length (external_bytes term.now)) }
{
    let left = after_term(term, most.checked_sub(1)?)?;
    Some(most - left)
}

// An integer by its sign and its magnitude.
fn big_length(n: i64) -> usize
    ensures value { result ≡ 3 + byte_count (unsigned_abs n) }
    ensures few { result ≤ 11 }
{
    3 + byte_count(n.unsigned_abs())
}

#[inline(never)]
fn integer_length(n: i64) -> usize
    ensures { result ≡ length (written_integer n) }
{
    if n < -(1 << 31) {
        big_length(n)
    } else if n < 0 {
        5
    } else if n < 256 {
        2
    } else if n < 1 << 31 {
        5
    } else {
        big_length(n)
    }
}

#[tactic(auto, unfolding(beam_model::specs::External::tuple_front))]
fn tuple_front_length(count: usize) -> usize
    ensures { result ≡ length (tuple_front count) }
{
    if count < 256 { 2 } else { 5 }
}

// Each function below answers what is left of a limit after the bytes that it counts.

#[inline(never)]
#[tactic(auto, unfolding(beam_model::specs::External::written_atom))]
fn after_atom(atom: &Atom, limit: usize) -> Option<usize>
    ensures { IsLeft result limit (length (written_atom atom.now)) }
{
    let count = atom.as_str().len();
    let front = if count < 256 { 2 } else { 3 };
    limit.checked_sub(front)?.checked_sub(count)
}

#[inline(never)]
#[tactic(auto, unfolding(beam_model::specs::External::written_pid))]
fn after_pid(pid: &Pid, limit: usize) -> Option<usize>
    ensures { IsLeft result limit (length (written_pid pid.now.node pid.now.id pid.now.serial pid.now.creation)) }
{
    after_atom(&pid.node, limit.checked_sub(13)?)
}

#[inline(never)]
#[tactic(auto, using(crate::proofs::Forms::reference_length))]
fn after_reference(reference: &Reference, limit: usize) -> Option<usize>
    ensures { IsLeft result limit (length (written_reference reference.now.node reference.now.creation reference.now.words)) }
{
    let words = 4 * reference.words().len();
    after_atom(reference.node(), limit.checked_sub(7 + words)?)
}

#[cycle(external)]
#[tactic(auto, using(crate::proofs::Forms::tuple_length))]
fn after_term(term: &Term, limit: usize) -> Option<usize>
    ensures { IsLeft result limit (length (written_part false term.now)) }
{
    match term.view() {
        TermView::Integer(n) => limit.checked_sub(integer_length(n)),
        TermView::Atom(atom) => after_atom(atom, limit),
        TermView::Reference(reference) => after_reference(reference, limit),
        TermView::Pid(pid) => after_pid(pid, limit),
        TermView::Nil => limit.checked_sub(1),
        TermView::Pair(head, tail) => after_list(term, head, tail, limit),
        TermView::Tuple(items) => {
            let front = tuple_front_length(items.len());
            after_items(items, limit.checked_sub(front)?)
        }
    }
}

#[cycle(external)]
#[tactic(auto, using(crate::proofs::Forms::string_length, crate::proofs::Forms::list_length))]
fn after_list(list: &Term, head: &Term, tail: &Term, limit: usize) -> Option<usize>
    requires { pair_term head.now tail.now ≡ list.now }
    ensures { IsLeft result limit (length (written_part false list.now)) }
{
    if is_byte_list(list) {
        return limit.checked_sub(3 + pair_count(list) as usize);
    }
    after_elements(head, tail, limit.checked_sub(5)?)
}

// The elements and the tail of a list.
#[cycle(external)]
fn after_elements(head: &Term, tail: &Term, limit: usize) -> Option<usize>
    ensures { IsLeft result limit (length (written_part false head.now ++ written_part true tail.now)) }
{
    let mut left = after_term(head, limit)?;
    let mut rest = tail;
    while let Some((next, after)) = rest.as_pair() {
        left = after_term(next, left)?;
        rest = after;
    }
    after_term(rest, left)
}

#[cycle(external)]
fn after_items(items: &[Term], limit: usize) -> Option<usize>
    ensures { IsLeft result limit (length (all_written (terms_of items.now))) }
{
    let mut left = limit;
    for item in items {
        left = after_term(item, left)?;
    }
    Some(left)
}
