//! Exceptions.

use beam_term::Term;

/// A reason of class error that a row raises by itself.
#[derive(Clone, Copy, Debug, PartialEq, Eq)]
pub enum Fault {
    Undef,
    FunctionClause,
    IllegalOperand,
    Badarith,
    Badarg,
    SystemLimit,
    IfClause,
    TimeoutValue,
}

/// A reason of class error that names a value.
#[derive(Clone, Copy, Debug, PartialEq, Eq)]
pub enum ClauseFault {
    TryClause,
    Badmatch,
    CaseClause,
    Badrecord,
}

/// The class of an exception.
#[derive(Clone, Copy, Debug, PartialEq, Eq)]
pub enum Class {
    Error,
    Exit,
    Throw,
}

/// An exception: a fault, whose class is error, or the class and value that a program raised.
#[derive(Debug, Drop)]
pub enum Exception {
    Fault(Fault),
    Raised(Class, Term),
}
