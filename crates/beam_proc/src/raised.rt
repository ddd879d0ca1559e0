//! Exceptions that are ready to be raised.
ghost use Rattle.std.specs.Prelude.{◌≡◌, ◌<◌, ◌≤◌, IfOk, MatchOption, codes};
ghost use Rattle.beam_term.specs.TermValue.{nil_term, atom_term, depth_of};
ghost use Rattle.beam_machine.specs.declared.event.Then.TheVariants as TheThen;
ghost use Rattle.beam_model.specs.declared.exception.Class.TheVariants as class;
ghost use Rattle.beam_model.specs.Exception.{reason_text, class_text, clause_text, class_term, class_of, value_of, exit_reason_by, exit_reason, caught, caught_by, clause_exception, trace_of, around, pair_of};

use crate::terms::{atom, pair};
use beam_machine::event::Then;
use beam_model::exception::{Class, ClauseFault, Exception, Fault};
use beam_term::{Term, cons};
use std::alloc::{AllocError, Global};
use std::marker::Model;

/// An exception, with all that it takes to end a process with it.
#[derive(Drop)]
pub struct Raised {
    pub(crate) exception: Exception,
    /// The reason of the end, if nothing catches the exception.
    pub(crate) reason: Term,
}

impl Model for Raised {
    ghost use Rattle.std.specs.Prelude.{◌≡◌};
    ghost use Rattle.std.specs.Coded.{codes};
    ghost use Rattle.beam_term.specs.Coding.{term_code};
    ghost use Rattle.beam_model.specs.declared.exception.Exception.{Exception};
    ghost use Rattle.beam_model.specs.Exception.{exit_reason};

    ghost Value = { Exception };

    ghost coded = { Prim.hlevel (codes, term_code) };

    ghost view = { λ r. r.exception };

    ghost invariant = { λ r. r.reason ≡ exit_reason r.exception };
}

impl Raised {
    /// An exception that is ready to be raised, if memory isn't refused.
    pub fn new(alloc: Global, exception: Exception) -> Result<Raised, AllocError>
        ensures { IfOk result (λ r. r ≡ exception) }
    {
        let reason = end_of(alloc, &exception)?;
        Ok(Raised { exception, reason })
    }

    /// A copy of the reason of the end.
    pub(crate) fn copy_reason(&self) -> Result<Term, AllocError>
        ensures { IfOk result (λ reason. reason ≡ exit_reason self.now) }
    {
        self.reason.clone()
    }

    /// The end, for an exception that nothing catches.
    pub(crate) fn into_end(self) -> Then
        ensures { result ≡ TheThen.Ended (exit_reason self) nil_term }
    {
        let Raised {
            exception: _exception,
            reason,
        } = self;
        Then::Ended {
            reason,
            value: Term::nil(),
        }
    }
}

/// The text of a fault's reason.
fn text_of(fault: Fault) -> &'static str
    ensures { result.now ≡ reason_text fault }
{
    match fault {
        Fault::Undef => "undef",
        Fault::FunctionClause => "function_clause",
        Fault::IllegalOperand => "illegal_operand",
        Fault::Badarith => "badarith",
        Fault::Badarg => "badarg",
        Fault::SystemLimit => "system_limit",
        Fault::IfClause => "if_clause",
        Fault::TimeoutValue => "timeout_value",
    }
}

/// The first element of the reason of a fault that names a value.
fn text_of_clause(fault: ClauseFault) -> &'static str
    ensures { result.now ≡ clause_text fault }
{
    match fault {
        ClauseFault::TryClause => "try_clause",
        ClauseFault::Badmatch => "badmatch",
        ClauseFault::CaseClause => "case_clause",
        ClauseFault::Badrecord => "badrecord",
    }
}

/// The text of a class.
fn text_of_class(class: Class) -> &'static str
    ensures { result.now ≡ class_text class }
{
    match class {
        Class::Error => "error",
        Class::Exit => "exit",
        Class::Throw => "throw",
    }
}

/// The class of an exception.
pub(crate) fn class_of(exception: &Exception) -> Class
    ensures { result ≡ class_of exception.now }
{
    match exception {
        Exception::Fault(_) => Class::Error,
        Exception::Raised(class, _) => *class,
    }
}

/// The value of an exception.
pub(crate) fn value_of(alloc: Global, exception: &Exception) -> Result<Term, AllocError>
    ensures { IfOk result (λ t. t ≡ value_of exception.now) }
{
    match exception {
        Exception::Fault(fault) => atom(alloc, text_of(*fault)),
        Exception::Raised(_, value) => value.clone(),
    }
}

/// A class as a term.
pub(crate) fn class_term(alloc: Global, class: Class) -> Result<Term, AllocError>
    ensures { IfOk result (λ t. t ≡ class_term class) }
{
    atom(alloc, text_of_class(class))
}

/// A raw trace of a class.
pub(crate) fn trace_of(alloc: Global, class: Class) -> Result<Term, AllocError>
    ensures { IfOk result (λ t. t ≡ trace_of class) }
{
    match cons(alloc, class_term(alloc, class)?, Term::nil()) {
        Ok(trace) => Ok(trace),
        Err(_) => Err(AllocError),
    }
}

/// The atom that stands for a value that is too deep.
pub(crate) fn too_deep(alloc: Global) -> Result<Term, AllocError>
    ensures { IfOk result (λ t. t ≡ atom_term (codes "system_limit")) }
{
    atom(alloc, "system_limit")
}

/// A tuple of an atom and a value.
fn tagged(alloc: Global, tag: &str, value: &Term) -> Result<Term, AllocError>
    ensures { IfOk result (λ t. t ≡ around (pair_of (atom_term tag.now)) value.now) }
{
    if let Some(whole) = pair(alloc, atom(alloc, tag)?, value.clone()?)? {
        return Ok(whole);
    }
    match pair(alloc, atom(alloc, tag)?, too_deep(alloc)?)? {
        Some(whole) => Ok(whole),
        None => unreachable!(),
    }
}

/// A tuple of a value and an empty trace.
fn with_trace(alloc: Global, value: &Term) -> Result<Term, AllocError>
    ensures { IfOk result (λ t. t ≡ around (λ v. pair_of v nil_term) value.now) }
{
    if let Some(whole) = pair(alloc, value.clone()?, Term::nil())? {
        return Ok(whole);
    }
    match pair(alloc, too_deep(alloc)?, Term::nil())? {
        Some(whole) => Ok(whole),
        None => unreachable!(),
    }
}

/// The reason of an uncaught throw of a value, with an empty trace, if it isn't too deep.
fn nocatch(alloc: Global, value: Term) -> Result<Option<Term>, AllocError>
    ensures { IfOk result (λ made. MatchOption made (4096 < depth_of (pair_of (pair_of (atom_term (codes "nocatch")) value) nil_term))
        (λ t. (t ≡ pair_of (pair_of (atom_term (codes "nocatch")) value) nil_term) × (depth_of t ≤ 4096))) }
{
    match pair(alloc, atom(alloc, "nocatch")?, value)? {
        Some(thrown) => pair(alloc, thrown, Term::nil()),
        None => Ok(None),
    }
}

/// The reason of an end by an uncaught throw.
fn end_by_throw(alloc: Global, value: &Term) -> Result<Term, AllocError>
    ensures { IfOk result (λ t. t ≡ exit_reason_by class.Throw value.now) }
{
    if let Some(whole) = nocatch(alloc, value.clone()?)? {
        return Ok(whole);
    }
    match nocatch(alloc, too_deep(alloc)?)? {
        Some(whole) => Ok(whole),
        None => unreachable!(),
    }
}

/// The reason of an end by an exception.
fn end_of(alloc: Global, exception: &Exception) -> Result<Term, AllocError>
    ensures { IfOk result (λ t. t ≡ exit_reason exception.now) }
{
    let value = value_of(alloc, exception)?;
    match class_of(exception) {
        Class::Error => with_trace(alloc, &value),
        Class::Throw => end_by_throw(alloc, &value),
        Class::Exit => Ok(value),
    }
}

/// The atom `EXIT` with a value and an empty trace, if that isn't too deep.
fn exit_with(alloc: Global, value: Term) -> Result<Option<Term>, AllocError>
    ensures { IfOk result (λ made. MatchOption made (4096 < depth_of (pair_of (atom_term (codes "EXIT")) (pair_of value nil_term)))
        (λ t. (t ≡ pair_of (atom_term (codes "EXIT")) (pair_of value nil_term)) × (depth_of t ≤ 4096))) }
{
    match pair(alloc, value, Term::nil())? {
        Some(reason) => pair(alloc, atom(alloc, "EXIT")?, reason),
        None => Ok(None),
    }
}

/// The value that catch makes of an error.
fn caught_error(alloc: Global, value: &Term) -> Result<Term, AllocError>
    ensures { IfOk result (λ t. t ≡ caught_by class.Error value.now) }
{
    if let Some(whole) = exit_with(alloc, value.clone()?)? {
        return Ok(whole);
    }
    match exit_with(alloc, too_deep(alloc)?)? {
        Some(whole) => Ok(whole),
        None => unreachable!(),
    }
}

/// The value that catch makes of an exception.
pub(crate) fn caught(alloc: Global, exception: &Exception) -> Result<Term, AllocError>
    ensures { IfOk result (λ t. t ≡ caught exception.now) }
{
    let value = value_of(alloc, exception)?;
    match class_of(exception) {
        Class::Error => caught_error(alloc, &value),
        Class::Throw => Ok(value),
        Class::Exit => tagged(alloc, "EXIT", &value),
    }
}

/// The exception of a value for which no clause was found.
pub(crate) fn clause_exception(
    alloc: Global,
    fault: ClauseFault,
    value: &Term,
) -> Result<Exception, AllocError>
    ensures { IfOk result (λ e. e ≡ clause_exception fault value.now) }
{
    let reason = tagged(alloc, text_of_clause(fault), value)?;
    Ok(Exception::Raised(Class::Error, reason))
}
