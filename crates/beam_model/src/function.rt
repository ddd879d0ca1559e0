//! Functions of modules.

use beam_term::Atom;
use std::hash::{Hash, Hasher};

/// A function of another module, by its name and arity.
#[derive(Debug, Drop, PartialEq, Eq, Hash)]
pub struct Import {
    pub module: Atom,
    pub function: Atom,
    pub arity: u32,
}

/// A function that other modules may call, with the label of its entry.
#[derive(Debug, Drop)]
pub struct Export {
    pub name: Atom,
    pub arity: u32,
    pub label: u32,
}

/// A name and an arity.
#[derive(Debug, Drop, PartialEq, Eq, Hash)]
pub struct Signature {
    pub name: Atom,
    pub arity: u32,
}

/// A function of a listing, with the label of its entry.
#[derive(Debug, Drop, PartialEq, Eq, Hash)]
pub struct Function {
    pub name: Atom,
    pub arity: u32,
    pub entry: u32,
}
