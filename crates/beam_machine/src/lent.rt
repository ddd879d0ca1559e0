//! Values that a row borrows from its code.
ghost use Rattle.std.specs.Prelude.{◌≡◌};

use beam_term::Term;
use std::marker::Model;

/// A part of the code that a row names. Contracts see the part.
#[derive(Drop)]
pub struct Lent<'a, T: Drop + 'a> {
    of: &'a T,
}

impl<'a, T: Drop + 'a> Model for Lent<'a, T> {
    ghost Value = { T };

    ghost view = { λ l. l.of.now };
}

impl<'a, T: Drop + 'a> Lent<'a, T> {
    /// This part.
    pub fn new(of: &'a T) -> Lent<'a, T>
        ensures { result ≡ of.now }
    {
        Lent { of }
    }

    /// The part.
    #[inline(always)]
    pub fn get(&self) -> &'a T
        ensures { result.now ≡ self.now }
    {
        self.of
    }
}

/// Where the term of a constant is.
#[derive(Drop)]
pub enum MaybeOwned<'a> {
    /// In the constant itself.
    Here(Term),
    /// In the code.
    Lent(&'a Term),
}

/// A term that a row names. Contracts see the term.
#[derive(Drop)]
pub struct Constant<'a> {
    inner: MaybeOwned<'a>,
}

impl<'a> Model for Constant<'a> {
    ghost use Rattle.std.specs.Coded.{codes};
    ghost use Rattle.beam_term.specs.Coding.{term_code};
    ghost use Rattle.beam_term.specs.TermValue.{TermValue};
    ghost use Rattle.beam_machine.specs.MaybeOwned.{term_of_constant};

    ghost Value = { TermValue };

    ghost coded = { Prim.hlevel (codes, term_code) };

    ghost view = { λ c. term_of_constant c.inner };
}

impl<'a> Constant<'a> {
    /// The constant of a term.
    #[inline(always)]
    pub fn new(term: Term) -> Constant<'a>
        ensures { result ≡ term }
    {
        Constant {
            inner: MaybeOwned::Here(term),
        }
    }

    /// The constant of a term of the code, which isn't copied.
    #[inline(always)]
    pub fn lent(term: &'a Term) -> Constant<'a>
        ensures { result ≡ term.now }
    {
        Constant {
            inner: MaybeOwned::Lent(term),
        }
    }

    /// Its term.
    #[inline(always)]
    pub fn term(&self) -> &Term
        ensures { result.now ≡ self.now }
    {
        match &self.inner {
            MaybeOwned::Here(term) => term,
            MaybeOwned::Lent(term) => term,
        }
    }
}
