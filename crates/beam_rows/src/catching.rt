//! Raising and catching.
ghost use Rattle.std.specs.Prelude.{◌≡◌};
ghost use Rattle.std.specs.List.{AllByRecursion};
ghost use Rattle.beam_model.specs.Native.{class_in};
ghost use Rattle.beam_machine.specs.Row.{traced, catch_rows};
ghost use Rattle.beam_proc.specs.Does.{Does};
ghost use Rattle.beam_shape_laws.specs.Finds.{HasValue, catching_reads};

use crate::operand::{copied, source_there};
use beam_machine::action::{Catching, Source};
use beam_machine::event::Then;
use beam_machine::process::Status;
use beam_model::exception::{Class, ClauseFault};
use beam_model::place::Place;
use beam_proc::process::Process;
use beam_term::{Term, TermView};
use std::alloc::AllocError;

/// The class that a term names.
fn class_in(term: &Term) -> Option<Class>
    ensures { result ≡ class_in term.now }
{
    match term.view() {
        TermView::Atom(name) => match name.as_str() {
            "error" => Some(Class::Error),
            "exit" => Some(Class::Exit),
            "throw" => Some(Class::Throw),
            _ => None,
        },
        _ => None,
    }
}

/// The class that a raw trace names.
fn traced(trace: &Term) -> Option<Class>
    ensures { result ≡ traced trace.now }
{
    match trace.view() {
        TermView::Pair(head, tail) if tail.is_nil() => class_in(head),
        _ => None,
    }
}

fn raise_clause(
    process: &mut Process,
    next: Place,
    fault: ClauseFault,
    source: &Source<'_>,
) -> Result<Then, AllocError>
    requires runs { process.old.status ≡ Status.Running }
    requires value { HasValue process.old source.now }
    ensures { Does process.old (catch_rows (Catching.RaiseClause fault source.now) next process.old) result process.new }
{
    let value = copied(process, source)?;
    process.raise_clause(fault, &value)
}

fn raise_again(
    process: &mut Process,
    next: Place,
    trace: &Source<'_>,
    value: &Source<'_>,
) -> Result<Then, AllocError>
    requires runs { process.old.status ≡ Status.Running }
    requires trace { HasValue process.old trace.now }
    requires value { HasValue process.old value.now }
    ensures { Does process.old (catch_rows (Catching.RaiseAgain trace.now value.now) next process.old) result process.new }
{
    let nil = Term::nil();
    let class = traced(source_there(process, &nil, trace));
    let value = copied(process, value)?;
    process.raise_again(class, value)
}

fn raw_raise(process: &mut Process, next: Place) -> Result<Then, AllocError>
    requires { process.old.status ≡ Status.Running }
    ensures { Does process.old (catch_rows Catching.RawRaise next process.old) result process.new }
{
    let nil = Term::nil();
    let class = class_in(process.read_x(&nil, 0));
    process.raw_raise(next, class)
}

/// Executes the row of raising or catching.
pub(crate) fn catch_rows(
    process: &mut Process,
    next: Place,
    catching: &Catching<'_>,
) -> Result<Then, AllocError>
    requires runs { process.old.status ≡ Status.Running }
    requires values { AllByRecursion (HasValue process.old) (catching_reads catching.now) }
    ensures { Does process.old (catch_rows catching.now next process.old) result process.new }
{
    match catching {
        Catching::Raise(fault) => process.fault(*fault),
        Catching::RaiseClause { fault, source } => raise_clause(process, next, *fault, source),
        Catching::RaiseAgain { trace, value } => raise_again(process, next, trace, value),
        Catching::RawRaise => raw_raise(process, next),
        Catching::Catch {
            dest,
            label,
            target,
        } => process.tag(next, *dest, *label, *target),
        Catching::CatchEnd(dest) => process.catch_end(next, *dest),
        Catching::TryEnd(dest) => process.try_end(next, *dest),
        Catching::TryCase(dest) => process.try_case(next, *dest),
        Catching::BuildStacktrace => process.build_stacktrace(next),
    }
}
