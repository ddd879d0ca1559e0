// Hashes of terms: equal terms hash alike. A term has a hash of its own, over all of it, and that alone is fed to a hasher.
ghost use Rattle.std.specs.Prelude.{◌≡◌, ◌≢◌, [], ◌∷◌, ◌++◌, fold};
ghost use Rattle.std.specs.Hash as fed;
ghost use Rattle.std.specs.Hash.DefaultHasher as sip;
ghost use Rattle.beam_term.specs.Order.{rank_of};
ghost use Rattle.beam_term.specs.TermValue.{terms_of};
ghost use Rattle.beam_term.specs.Hashed.{term_fed, terms_fed, pid_fed, reference_fed};

use crate::identifier::{Pid, Reference};
use crate::term::{Term, TermView};
use std::hash::{DefaultHasher, Hash, Hasher};

fn hash_reference(reference: &Reference, state: &mut DefaultHasher)
    ensures { state.new ≡ fold sip.write state.old (reference_fed reference.now.node reference.now.creation reference.now.words) }
{
    state.write_u8(2);
    reference.node().hash(state);
    reference.creation().hash(state);
    reference.words().hash(state);
}

fn hash_pid(pid: &Pid, state: &mut DefaultHasher)
    ensures { state.new ≡ fold sip.write state.old (pid_fed pid.now.node pid.now.id pid.now.serial pid.now.creation) }
{
    state.write_u8(3);
    pid.node.hash(state);
    pid.id.hash(state);
    pid.serial.hash(state);
    pid.creation.hash(state);
}

// A term without parts. It stays out of the recursion, whose frames are to be small.
#[inline(never)]
fn hash_leaf(term: &Term, state: &mut DefaultHasher)
    requires no_tuple { rank_of term.now ≢ 4 }
    requires no_pair { rank_of term.now ≢ 6 }
    ensures { state.new ≡ fold sip.write state.old (term_fed term.now) }
{
    match term.view() {
        TermView::Integer(n) => {
            state.write_u8(0);
            n.hash(state);
        }
        TermView::Atom(text) => {
            state.write_u8(1);
            text.hash(state);
        }
        TermView::Reference(reference) => hash_reference(reference, state),
        TermView::Pid(pid) => hash_pid(pid, state),
        TermView::Nil => state.write_u8(5),
        TermView::Tuple(_) | TermView::Pair(_, _) => unreachable!(),
    }
}

#[inline(never)]
fn hash_kind(kind: u8, state: &mut DefaultHasher)
    ensures { state.new ≡ fold sip.write state.old ((kind ∷ []) ∷ []) }
{
    state.write_u8(kind);
}

#[inline(never)]
fn hash_size(size: usize, state: &mut DefaultHasher)
    ensures { state.new ≡ fold sip.write state.old (fed.u8 4 ++ fed.usize size) }
{
    state.write_u8(4);
    state.write_usize(size);
}

// The pairs of a list are gone through by the loop, so that only heads and elements take stack.
#[cycle(hash)]
fn hash_term(term: &Term, state: &mut DefaultHasher)
    ensures { state.new ≡ fold sip.write state.old (term_fed term.now) }
{
    let mut rest = term;
    while let Some((head, tail)) = rest.as_pair() {
        hash_kind(6, state);
        hash_term(head, state);
        rest = tail;
    }
    match rest.as_tuple() {
        Some(items) => {
            hash_size(items.len(), state);
            hash_items(items, state);
        }
        None => hash_leaf(rest, state),
    }
}

#[cycle(hash)]
fn hash_items(items: &[Term], state: &mut DefaultHasher)
    ensures { state.new ≡ fold sip.write state.old (terms_fed (terms_of items.now)) }
{
    for item in items {
        hash_term(item, state);
    }
}

impl Hash for Term {
    ghost use Rattle.beam_term.specs.Hashed.{hash_fed, equal_fed};

    ghost hash_input = { hash_fed };

    ghost respects_eq = { equal_fed };

    fn hash<H: Hasher>(&self, state: &mut H) {
        let mut own = DefaultHasher::new();
        hash_term(self, &mut own);
        state.write_u64(own.finish());
    }
}
