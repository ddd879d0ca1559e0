// Source: Erlang Reference Manual, "Term Comparisons". Integers stand below atoms, atoms below references, then pids, tuples,
// the empty list and pairs.
ghost use Rattle.std.specs.Prelude.{◌≡◌, ◌≢◌, length, reverse};
ghost use Rattle.beam_term.specs.TermValue.{terms_of};
ghost use Rattle.std.specs.Ordering.{ordering_then, nat_cmp};
ghost use Rattle.std.specs.Cmp.Lexicographic.{slice_cmp};
ghost use Rattle.beam_term.specs.Order.{rank_of, term_cmp, terms_cmp};

use crate::identifier::{Pid, Reference};
use crate::term::{Term, TermView};
use std::cmp::Ordering;

// The place of a term's kind among the kinds.
fn rank(term: &Term) -> u8
    ensures { result ≡ rank_of term.now }
{
    match term.view() {
        TermView::Integer(_) => 0,
        TermView::Atom(_) => 1,
        TermView::Reference(_) => 2,
        TermView::Pid(_) => 3,
        TermView::Tuple(_) => 4,
        TermView::Nil => 5,
        TermView::Pair(_, _) => 6,
    }
}

fn compare_words(xs: &[u32], ys: &[u32]) -> Ordering
    ensures { result ≡ slice_cmp nat_cmp (reverse xs.now) (reverse ys.now) }
{
    xs.iter().rev().cmp(ys.iter().rev())
}

fn compare_references(p: &Reference, q: &Reference) -> Ordering
    ensures { result ≡ ordering_then (nat_cmp (length p.now.words) (length q.now.words))
        (ordering_then (slice_cmp nat_cmp (reverse p.now.words) (reverse q.now.words))
        (ordering_then (slice_cmp nat_cmp p.now.node q.now.node) (nat_cmp p.now.creation q.now.creation))) }
{
    let words = p.words();
    let others = q.words();
    words
        .len()
        .cmp(&others.len())
        .then(compare_words(words, others))
        .then(p.node().cmp(q.node()))
        .then(p.creation().cmp(&q.creation()))
}

fn compare_pids(p: &Pid, q: &Pid) -> Ordering
    ensures { result ≡ ordering_then (nat_cmp p.now.id q.now.id)
        (ordering_then (nat_cmp p.now.serial q.now.serial)
        (ordering_then (slice_cmp nat_cmp p.now.node q.now.node) (nat_cmp p.now.creation q.now.creation))) }
{
    p.id.cmp(&q.id)
        .then(p.serial.cmp(&q.serial))
        .then(p.node.cmp(&q.node))
        .then(p.creation.cmp(&q.creation))
}

// Terms of which the first has no parts. They stay out of the recursion, whose frames are to be small.
#[inline(never)]
#[tactic(auto, using(crate::specs::OrderLaws::by_kind))]
fn compare_leaf(s: &Term, t: &Term) -> Ordering
    requires no_tuple { rank_of s.now ≢ 4 }
    requires no_pair { rank_of s.now ≢ 6 }
    ensures { result ≡ term_cmp s.now t.now }
{
    match s.view() {
        TermView::Integer(m) => match t.view() {
            TermView::Integer(n) => m.cmp(&n),
            _ => rank(s).cmp(&rank(t)),
        },
        TermView::Atom(a) => match t.view() {
            TermView::Atom(b) => a.cmp(b),
            _ => rank(s).cmp(&rank(t)),
        },
        TermView::Reference(p) => match t.view() {
            TermView::Reference(q) => compare_references(p, q),
            _ => rank(s).cmp(&rank(t)),
        },
        TermView::Pid(p) => match t.view() {
            TermView::Pid(q) => compare_pids(p, q),
            _ => rank(s).cmp(&rank(t)),
        },
        TermView::Nil => match t.view() {
            TermView::Nil => Ordering::Equal,
            _ => rank(s).cmp(&rank(t)),
        },
        TermView::Tuple(_) | TermView::Pair(_, _) => unreachable!(),
    }
}

// The pairs of two lists are gone through by the loop, so that only heads and elements take stack.
#[cycle(compare)]
#[tactic(auto, using(crate::specs::OrderLaws::by_kind))]
fn compare(s: &Term, t: &Term) -> Ordering
    ensures { result ≡ term_cmp s.now t.now }
{
    let mut s = s;
    let mut t = t;
    while let Some((a, b)) = s.as_pair() {
        let Some((c, d)) = t.as_pair() else {
            return rank(s).cmp(&rank(t));
        };
        match compare(a, c) {
            Ordering::Equal => {}
            unequal => return unequal,
        }
        s = b;
        t = d;
    }
    let Some(xs) = s.as_tuple() else {
        return compare_leaf(s, t);
    };
    let Some(ys) = t.as_tuple() else {
        return rank(s).cmp(&rank(t));
    };
    match xs.len().cmp(&ys.len()) {
        Ordering::Equal => compare_items(xs, ys),
        unequal => unequal,
    }
}

#[cycle(compare)]
fn compare_items(xs: &[Term], ys: &[Term]) -> Ordering
    requires { length xs.now ≡ length ys.now }
    ensures { result ≡ terms_cmp (terms_of xs.now) (terms_of ys.now) }
{
    for i in 0..xs.len() {
        match compare(&xs[i], &ys[i]) {
            Ordering::Equal => {}
            unequal => return unequal,
        }
    }
    Ordering::Equal
}

impl PartialEq for Term {
    ghost use Rattle.beam_term.specs.Order.{term_eq};
    ghost use Rattle.beam_term.specs.OrderLaws.{term_eq_partial};

    ghost eq = { term_eq };

    ghost laws = { term_eq_partial };

    fn eq(&self, other: &Term) -> bool {
        compare(self, other).is_eq()
    }
}

impl Eq for Term {
    ghost use Rattle.beam_term.specs.OrderLaws.{term_eq_equiv};

    ghost laws = { term_eq_equiv };
}

impl PartialOrd for Term {
    ghost use Rattle.std.specs.Ordering.{as_partial_cmp};
    ghost use Rattle.beam_term.specs.Order.{term_cmp};
    ghost use Rattle.beam_term.specs.OrderLaws.{term_partial_order};

    ghost partial_cmp = { as_partial_cmp term_cmp };

    ghost laws = { term_partial_order };

    fn partial_cmp(&self, other: &Term) -> Option<Ordering> {
        Some(compare(self, other))
    }
}

impl Ord for Term {
    ghost use Rattle.std.specs.Prelude.{◌≡◌, refl};
    ghost use Rattle.beam_term.specs.Order.{term_cmp};
    ghost use Rattle.beam_term.specs.CodePointOrder.{in_code_points};
    ghost use Rattle.beam_term.specs.OrderLaws.{term_cmp_total};

    ghost cmp = { term_cmp };

    ghost total = { term_cmp_total };

    ghost matches_partial_cmp = { λ x y. refl };

    ghost matches_eq = { λ x y. refl };

    /// The order of terms; atoms and the names of nodes stand in it by their code points.
    fn cmp(&self, other: &Term) -> Ordering
        ensures in_order { result ≡ term_cmp self.now other.now }
        ensures by_code_points { result ≡ term_cmp (in_code_points self.now) (in_code_points other.now) }
    {
        let _lawful = self.depth();
        let _other_lawful = other.depth();
        compare(self, other)
    }
}
