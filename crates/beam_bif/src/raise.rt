//! Exceptions that a program raises itself.

ghost use Rattle.std.specs.Prelude.{◌≡◌, Err};
ghost use Rattle.beam_model.specs.Native.{class_in, raise_of};
ghost use Rattle.beam_model.specs.declared.exception.Exception.TheVariants as exception;
ghost use Rattle.beam_bif.specs.Gives.{Gives};

use crate::error::NativeError;
use crate::value::atom;
use beam_model::exception::{Class, Exception};
use beam_term::{Term, TermView};
use std::alloc::Global;

/// An exception of this class and value.
pub fn raise(class: Class, value: &Term) -> Result<Term, NativeError>
    ensures { Gives result (Err (exception.Raised class value.now)) }
{
    match value.try_share() {
        Ok(same) => Err(NativeError::Raised(Exception::Raised(class, same))),
        Err(_) => Err(NativeError::NoMemory),
    }
}

// The class that a term names.
fn class_in(term: &Term) -> Option<Class>
    ensures { result ≡ class_in term.now }
{
    match term.view() {
        TermView::Atom(name) => {
            let text = name.as_str();
            if text == "error" {
                Some(Class::Error)
            } else if text == "exit" {
                Some(Class::Exit)
            } else if text == "throw" {
                Some(Class::Throw)
            } else {
                None
            }
        }
        _ => None,
    }
}

/// An exception of the class that a term names. Where it names none, the value is the atom badarg.
pub fn raise_of(alloc: Global, class: &Term, value: &Term) -> Result<Term, NativeError>
    ensures { Gives result (raise_of (class_in class.now) value.now) }
{
    match class_in(class) {
        Some(class) => raise(class, value),
        None => atom(alloc, "badarg"),
    }
}
