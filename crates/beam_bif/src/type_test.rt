//! Tests of types.

ghost use Rattle.std.specs.Prelude.{◌≡◌};
ghost use Rattle.beam_model.specs.Native.{is_of_type, is_boolean};

use crate::truth::truth_in;
use beam_model::native::TypeTest;
use beam_term::{Term, TermView};

fn is_boolean(term: &Term) -> bool
    ensures { result ≡ is_boolean term.now }
{
    truth_in(term).is_some()
}

/// Whether a term is of this type. None is a float, a port, a binary, a function or a map.
pub fn is_of_type(test: TypeTest, term: &Term) -> bool
    ensures { result ≡ is_of_type test term.now }
{
    match test {
        TypeTest::Integer | TypeTest::Number => matches!(term.view(), TermView::Integer(_)),
        TypeTest::Atom => matches!(term.view(), TermView::Atom(_)),
        TypeTest::Pid => matches!(term.view(), TermView::Pid(_)),
        TypeTest::Reference => matches!(term.view(), TermView::Reference(_)),
        TypeTest::Nil => matches!(term.view(), TermView::Nil),
        TypeTest::List => matches!(term.view(), TermView::Nil | TermView::Pair(_, _)),
        TypeTest::NonemptyList => matches!(term.view(), TermView::Pair(_, _)),
        TypeTest::Tuple => matches!(term.view(), TermView::Tuple(_)),
        TypeTest::Boolean => is_boolean(term),
        TypeTest::Float | TypeTest::Port | TypeTest::Binary | TypeTest::Function | TypeTest::Map =>
            false,
    }
}
