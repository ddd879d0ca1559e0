// Source: External Term Format; Erlang Reference Manual, "Data Types".
ghost use Rattle.std.specs.Prelude.{◌≡◌, ◌<◌, ◌≤◌, ◌^◌, ◌↔◌, ◌⊎◌, IfOk, IsErrOf, vec_len, IfErr};
ghost use Rattle.std.specs.Result.{IsOkUnless};
ghost use Rattle.beam_term.specs.TermValue.{depth_of, items_depth, terms_of, pair_term, tuple_of, nil_term, int_term, atom_term, reference_term, pid_term, IsTerm, IsSmall, AreInRange};
ghost use Rattle.beam_term.specs.TermView.{shown};

use crate::atom::Atom;
use crate::error::TermError;
use crate::identifier::{Pid, Reference};
use std::alloc::{AllocError, Global};
use std::marker::Model;
use std::sync::Arc;

/// How deep pairs and tuples may nest.
pub const MAX_DEPTH: u16 = 4096;

/// A term. Contracts see a value of `TermValue`, never how it lies in memory.
#[cycle(term)]
#[derive(Debug, Drop)]
pub struct Term {
    node: Node,
}

#[cycle(term)]
#[derive(Debug)]
enum Node {
    Integer(i64),
    Atom(Atom),
    Reference(Arc<Reference>),
    Pid(Arc<Pid>),
    Nil,
    Pair(Arc<PairCell>),
    Tuple(Arc<TupleCell>),
}

#[cycle(term)]
#[derive(Debug, Drop)]
struct PairCell {
    depth: u16,
    head: Term,
    tail: Term,
}

#[cycle(term)]
#[derive(Debug, Drop)]
struct TupleCell {
    depth: u16,
    items: Vec<Term>,
}

// The pairs of a list are dropped by the loop, so that only heads and elements take stack.
impl Drop for Node {
    #[cycle(dropping)]
    fn drop(mut self) {
        loop {
            match self {
                Node::Integer(_) | Node::Nil => return,
                Node::Atom(_) | Node::Reference(_) | Node::Pid(_) => return,
                Node::Pair(cell) => {
                    let Some(
                        PairCell {
                            depth: _,
                            head,
                            tail,
                        },
                    ) = Arc::into_inner(cell)
                    else {
                        return;
                    };
                    drop(head);
                    let Term { node } = tail;
                    self = node;
                }
                Node::Tuple(_) => return,
            }
        }
    }
}

impl Node {
    ghost use Rattle.beam_term.specs.Term.{term_of_node};

    // The parts of a pair that nothing else owns, else the node itself.
    #[inline(always)]
    fn into_pair(self) -> Result<(Term, Term), Node>
        ensures parts { IfOk result (λ p. term_of_node self ≡ pair_term p.0 p.1) }
        ensures whole { IfErr result (λ n. n ≡ self) }
    {
        match self {
            Node::Pair(cell) => match Arc::try_unwrap(cell) {
                Ok(cell) => {
                    let PairCell { head, tail, .. } = cell;
                    Ok((head, tail))
                }
                Err(cell) => Err(Node::Pair(cell)),
            },
            node => Err(node),
        }
    }
}

impl Model for Term {
    ghost use Rattle.beam_term.specs.TermValue.{TermValue, depth_of};
    ghost use Rattle.beam_term.specs.Coding.{term_code};

    ghost Value = { TermValue };

    ghost coded = { term_code };

    ghost use Rattle.beam_term.specs.Term.{term_of_node, IsNode};

    ghost view = { λ t. term_of_node t.node };

    ghost invariant = { λ t. IsNode t.node };

    ghost size = { depth_of };

    ghost use Rattle.beam_term.specs.TermFalls.{deep_le-depth};

    ghost size_decreases = { λ a h. deep_le-depth a.node };
}

/// A term, taken apart by one level.
#[derive(Clone, Copy)]
pub enum TermView<'a> {
    Integer(i64),
    Atom(&'a Atom),
    Reference(&'a Reference),
    Pid(&'a Pid),
    /// The empty list.
    Nil,
    /// Head and tail.
    Pair(&'a Term, &'a Term),
    /// The elements.
    Tuple(&'a [Term]),
}

impl Term {
    /// The empty list.
    #[inline(always)]
    pub fn nil() -> Term
        ensures { result ≡ nil_term }
    {
        Term { node: Node::Nil }
    }

    /// An integer of -2^59..2^59-1.
    #[inline(always)]
    pub fn integer(n: i64) -> Term
        requires { IsSmall n }
        ensures { result ≡ int_term n }
    {
        Term {
            node: Node::Integer(n),
        }
    }

    /// An atom.
    pub fn atom(text: Atom) -> Term
        ensures { result ≡ atom_term text }
    {
        let _lawful = text.as_str();
        Term {
            node: Node::Atom(text),
        }
    }

    /// A reference.
    pub fn reference(alloc: Global, of: Reference) -> Result<Term, TermError>
        ensures ok { IfOk result (λ t. t ≡ reference_term of.node of.creation of.words) }
        ensures memory { IsOkUnless result TermError.NoMemory }
    {
        let _lawful = of.node().as_str();
        let _creation = of.creation();
        let _words = of.words();
        Ok(Term {
            node: Node::Reference(Arc::new(alloc, of)?),
        })
    }

    /// A pid.
    pub fn pid(alloc: Global, of: Pid) -> Result<Term, TermError>
        ensures ok { IfOk result (λ t. t ≡ pid_term of.node of.id of.serial of.creation) }
        ensures memory { IsOkUnless result TermError.NoMemory }
    {
        let _lawful = of.node.as_str();
        Ok(Term {
            node: Node::Pid(Arc::new(alloc, of)?),
        })
    }

    /// How deep pairs and tuples nest: 0 for a term that has no parts.
    pub fn depth(&self) -> u16
        ensures value { result ≡ depth_of self.now }
        ensures lawful { IsTerm self.now }
    {
        match &self.node {
            Node::Pair(p) => p.depth,
            Node::Tuple(t) => t.depth,
            _ => 0,
        }
    }

    /// The term, taken apart by one level.
    #[inline(always)]
    pub fn view(&self) -> TermView<'_>
        ensures value { shown result ≡ self.now }
        ensures lawful { IsTerm self.now }
    {
        match &self.node {
            Node::Integer(n) => TermView::Integer(*n),
            Node::Atom(a) => TermView::Atom(a),
            Node::Reference(r) => TermView::Reference(r),
            Node::Pid(p) => TermView::Pid(p),
            Node::Nil => TermView::Nil,
            Node::Pair(p) => TermView::Pair(&p.head, &p.tail),
            Node::Tuple(t) => TermView::Tuple(&t.items),
        }
    }

    /// The head and the tail of a pair that nothing else owns, which are moved and not shared. Any other term comes back. It takes no
    /// memory.
    #[inline(always)]
    pub fn into_pair(self) -> Result<(Term, Term), Term>
        ensures parts { IfOk result (λ p. pair_term p.0 p.1 ≡ self) }
        ensures whole { IfErr result (λ t. t ≡ self) }
    {
        let Term { node } = self;
        match node.into_pair() {
            Ok(parts) => Ok(parts),
            Err(node) => Err(Term { node }),
        }
    }

    /// The same term with one more owner; nothing is copied.
    pub fn try_share(&self) -> Result<Term, TermError>
        ensures ok { IfOk result (λ t. t ≡ self.now) }
        ensures memory { IsOkUnless result TermError.NoMemory }
    {
        let node = match &self.node {
            Node::Integer(n) => Node::Integer(*n),
            Node::Atom(a) => Node::Atom(a.try_share()?),
            Node::Reference(r) => Node::Reference(Arc::try_clone(r)?),
            Node::Pid(p) => Node::Pid(Arc::try_clone(p)?),
            Node::Nil => Node::Nil,
            Node::Pair(p) => Node::Pair(Arc::try_clone(p)?),
            Node::Tuple(t) => Node::Tuple(Arc::try_clone(t)?),
        };
        Ok(Term { node })
    }
}

/// Why a pair isn't made, and its parts.
#[derive(Drop)]
pub struct NoPair {
    pub error: TermError,
    pub head: Term,
    pub tail: Term,
}

/// The pair of a head and a tail. Fails with TooDeep where it would nest deeper than 4,096, and else only for memory; the parts come
/// back then.
#[inline(always)]
pub fn pair(alloc: Global, head: Term, tail: Term) -> Result<Term, NoPair>
    ensures ok { IfOk result (λ t. t ≡ pair_term head tail) }
    ensures shallow { IfOk result (λ _. depth_of (pair_term head tail) ≤ 4096) }
    ensures too_deep { IfErr result (λ e. (e.error ≡ TermError.TooDeep) ↔ (4096 < depth_of (pair_term head tail))) }
    ensures parts { IfErr result (λ e. (e.head ≡ head) × (e.tail ≡ tail)) }
{
    let depth = head.depth().max(tail.depth());
    if depth >= MAX_DEPTH {
        return Err(NoPair {
            error: TermError::TooDeep,
            head,
            tail,
        });
    }
    let depth = depth + 1;
    match Arc::new(alloc, PairCell { depth, head, tail }) {
        Ok(cell) => Ok(Term {
            node: Node::Pair(cell),
        }),
        Err(failed) => {
            let PairCell { head, tail, .. } = failed.value;
            Err(NoPair {
                error: TermError::NoMemory,
                head,
                tail,
            })
        }
    }
}

/// The pair of a head and a tail. Fails with TooDeep where it would nest deeper than 4,096; the parts are dropped then.
pub fn cons(alloc: Global, head: Term, tail: Term) -> Result<Term, TermError>
    ensures ok { IfOk result (λ t. t ≡ pair_term head tail) }
    ensures too_deep { IsErrOf result TermError.TooDeep ↔ (4096 < depth_of (pair_term head tail)) }
{
    match pair(alloc, head, tail) {
        Ok(pair) => Ok(pair),
        Err(failed) => Err(failed.error),
    }
}

// The depth of the deepest of these terms; 0 if there are none.
fn deepest(items: &[Term]) -> u16
    ensures value { result ≡ items_depth (terms_of items.now) }
    ensures lawful { AreInRange (terms_of items.now) }
    ensures shallow { result ≤ 4096 }
{
    let mut deepest = 0;
    for item in items {
        deepest = item.depth().max(deepest);
    }
    deepest
}

/// The tuple of these elements. Fails with TooDeep where it would nest deeper than 4,096 or have 2^32 elements or more; they are
/// dropped then.
#[tactic(auto, using(crate::specs::Elements::elements))]
pub fn tuple(alloc: Global, items: Vec<Term>) -> Result<Term, TermError>
    ensures ok { IfOk result (λ t. t ≡ tuple_of items.items) }
    ensures too_deep { IsErrOf result TermError.TooDeep
        ↔ (4096 < depth_of (tuple_of items.items)) ⊎ (2 ^ 32 ≤ vec_len items) }
{
    let depth = deepest(&items);
    if depth >= MAX_DEPTH || items.len() > u32::MAX as usize {
        return Err(TermError::TooDeep);
    }
    let depth = depth + 1;
    let cell = Arc::new(alloc, TupleCell { depth, items })?;
    Ok(Term {
        node: Node::Tuple(cell),
    })
}

impl Term {
    ghost use Rattle.std.specs.Prelude.{◌≡◌, ◌≢◌, ◌↔◌, IsTrue, MatchOption};
    ghost use Rattle.beam_term.specs.TermValue.{int_term, atom_term, pid_term, nil_term, pair_term, tuple_of};
    ghost use Rattle.beam_term.specs.Order.{rank_of};

    /// The integer, where it is one.
    #[inline(always)]
    pub fn as_integer(&self) -> Option<i64>
        ensures { MatchOption result (rank_of self.now ≢ 0) (λ n. self.now ≡ int_term n) }
    {
        match self.view() {
            TermView::Integer(n) => Some(n),
            _ => None,
        }
    }

    /// The atom, where it is one.
    pub fn as_atom(&self) -> Option<&Atom>
        ensures { MatchOption result (rank_of self.now ≢ 1) (λ a. self.now ≡ atom_term a.now) }
    {
        match self.view() {
            TermView::Atom(atom) => Some(atom),
            _ => None,
        }
    }

    /// The pid, where it is one.
    pub fn as_pid(&self) -> Option<&Pid>
        ensures { MatchOption result (rank_of self.now ≢ 3)
            (λ p. self.now ≡ pid_term p.now.node p.now.id p.now.serial p.now.creation) }
    {
        match self.view() {
            TermView::Pid(pid) => Some(pid),
            _ => None,
        }
    }

    /// The elements, where it is a tuple.
    #[inline(always)]
    pub fn as_tuple(&self) -> Option<&[Term]>
        ensures { MatchOption result (rank_of self.now ≢ 4) (λ xs. self.now ≡ tuple_of xs.now) }
    {
        match self.view() {
            TermView::Tuple(items) => Some(items),
            _ => None,
        }
    }

    /// Whether it is the empty list.
    pub fn is_nil(&self) -> bool
        ensures { IsTrue result ↔ (self.now ≡ nil_term) }
    {
        match self.view() {
            TermView::Nil => true,
            _ => false,
        }
    }

    /// The head and the tail, where it is a pair.
    #[inline(always)]
    pub fn as_pair(&self) -> Option<(&Term, &Term)>
        ensures { MatchOption result (rank_of self.now ≢ 6) (λ p. self.now ≡ pair_term p.0.now p.1.now) }
    {
        match self.view() {
            TermView::Pair(head, tail) => Some((head, tail)),
            _ => None,
        }
    }
}

impl Clone for Term {
    ghost use Rattle.std.specs.Prelude.{◌≡◌};

    ghost is_clone = { λ s t. t ≡ s };

    fn clone(&self) -> Result<Term, AllocError> {
        match self.try_share() {
            Ok(term) => Ok(term),
            Err(_) => Err(AllocError),
        }
    }
}
