//! Calls of functions of module `erlang` by name.

ghost use Rattle.std.specs.Prelude.{◌≡◌, Ok};
ghost use Rattle.beam_term.specs.TermValue.{atom_term, pid_term};
ghost use Rattle.beam_model.specs.Exception.{reason_text};
ghost use Rattle.beam_model.specs.NativeNames.{bif_value};
ghost use Rattle.beam_bif.specs.Gives.{Gives, BifGives};

use crate::call::call;
use crate::error::{BifError, NativeError};
use crate::name::native_named;
use crate::value::{atom, raised};
use beam_model::exception::{Class, Exception, Fault};
use beam_term::{Atom, Pid, Term};
use std::alloc::Global;

/// The reason of a fault, an atom.
pub fn reason(alloc: Global, fault: Fault) -> Result<Term, NativeError>
    ensures { Gives result (Ok (atom_term (reason_text fault))) }
{
    match fault {
        Fault::Undef => atom(alloc, "undef"),
        Fault::FunctionClause => atom(alloc, "function_clause"),
        Fault::IllegalOperand => atom(alloc, "illegal_operand"),
        Fault::Badarith => atom(alloc, "badarith"),
        Fault::Badarg => atom(alloc, "badarg"),
        Fault::SystemLimit => atom(alloc, "system_limit"),
        Fault::IfClause => atom(alloc, "if_clause"),
        Fault::TimeoutValue => atom(alloc, "timeout_value"),
    }
}

fn called(alloc: Global, function: &Atom, arguments: &[Term], own: Pid) -> Result<Term, NativeError>
    ensures { Gives result (bif_value function.now arguments.now
        (pid_term own.node own.id own.serial own.creation)) }
{
    if arguments.len() > 3 {
        return Err(raised(Fault::Undef));
    }
    let Some(native) = native_named(function, arguments.len() as u32) else {
        return Err(raised(Fault::Undef));
    };
    match Term::pid(alloc, own) {
        Ok(own) => call(alloc, native, arguments, &own),
        Err(_) => Err(NativeError::NoMemory),
    }
}

/// Calls a function of module `erlang` with these arguments, in the process of this pid. Answers the value, or the class and value of an
/// exception: undef for a function that isn't known, or that asks something of the node.
pub fn call_bif(
    alloc: Global,
    function: &Atom,
    arguments: &[Term],
    own: Pid,
) -> Result<Term, BifError>
    ensures { BifGives result (bif_value function.now arguments.now
        (pid_term own.node own.id own.serial own.creation)) }
{
    match called(alloc, function, arguments, own) {
        Ok(term) => Ok(term),
        Err(NativeError::NoMemory) => Err(BifError::NoMemory),
        Err(NativeError::Raised(Exception::Raised(class, value))) => {
            Err(BifError::Raise(class, value))
        }
        Err(NativeError::Raised(Exception::Fault(fault))) => match reason(alloc, fault) {
            Ok(reason) => Err(BifError::Raise(Class::Error, reason)),
            Err(_) => Err(BifError::NoMemory),
        },
    }
}
