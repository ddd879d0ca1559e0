// Source: Erlang Reference Manual, "Data Types", "List".
ghost use Rattle.std.specs.Prelude.{◌≡◌, ◌<◌, IfOk, IsErrOf};
ghost use Rattle.beam_term.specs.TermValue.{list_of, list_before, depth_of};

use crate::error::TermError;
use crate::term::{Term, cons};
use std::alloc::Global;

/// The list of these elements. Fails with TooDeep where it would nest deeper than 4,096; the elements are dropped then.
pub fn list(alloc: Global, items: Vec<Term>) -> Result<Term, TermError>
    ensures ok { IfOk result (λ t. t ≡ list_of items.items) }
    ensures too_deep { IsErrOf result TermError.TooDeep → 4096 < depth_of (list_of items.items) }
{
    list_with_tail(alloc, items, Term::nil())
}

/// The list of these elements, which ends in `tail`: an improper list where that is no list. Fails with TooDeep where it would
/// nest deeper than 4,096; the elements and the tail are dropped then.
#[tactic(auto, using(crate::specs::Depth::list_depth))]
pub fn list_with_tail(alloc: Global, items: Vec<Term>, tail: Term) -> Result<Term, TermError>
    ensures ok { IfOk result (λ t. t ≡ list_before items.items tail) }
    ensures too_deep { IsErrOf result TermError.TooDeep → 4096 < depth_of (list_before items.items tail) }
{
    let mut items = items;
    let mut list = tail;
    while let Some(item) = items.pop() {
        list = cons(alloc, item, list)?;
    }
    Ok(list)
}
