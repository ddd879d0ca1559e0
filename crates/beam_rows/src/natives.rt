//! What natives return in a process.
ghost use Rattle.std.specs.Prelude.{◌≡◌, Result, IfOk};
ghost use Rattle.beam_term.specs.TermValue.{TermValue};
ghost use Rattle.beam_model.specs.declared.exception.Exception.{Exception as TheException};
ghost use Rattle.beam_model.specs.Native.{native_value};
ghost use Rattle.beam_machine.specs.Process.{own_pid};
ghost use Rattle.beam_machine.specs.Row.{arguments_of};
ghost use Rattle.beam_bif.specs.Gives.{Gives};

use beam_bif::call::call;
use beam_bif::error::NativeError;
use beam_model::exception::Exception;
use beam_model::native::Native;
use beam_proc::process::Process;
use beam_term::Term;
use std::alloc::AllocError;

/// What a native returned, a value or an exception. `Err` where memory was refused.
pub fn native_result(
    computed: Result<Term, NativeError>,
) -> Result<Result<Term, Exception>, AllocError>
    ensures { (value : Result TermValue TheException) → Gives computed value → IfOk result (λ g. g ≡ value) }
{
    match computed {
        Ok(value) => Ok(Ok(value)),
        Err(NativeError::Raised(exception)) => Ok(Err(exception)),
        Err(NativeError::NoMemory) => Err(AllocError),
    }
}

/// The value or the exception of a native, called with the first x registers. Memory for the pid is taken only where the native may read
/// it.
#[tactic(auto, using(crate::proofs::Pids::without_pid))]
pub fn native_value(
    process: &Process,
    native: Native,
    arity: u32,
) -> Result<Result<Term, Exception>, AllocError>
    ensures { IfOk result (λ g. g ≡ native_value native (arguments_of process.now arity) (own_pid process.now.pid)) }
{
    let alloc = process.alloc();
    let own = match native {
        Native::Nullary(_) => process.own_pid()?,
        Native::Unary(_) | Native::Binary(_) | Native::Ternary(_) => Term::nil(),
    };
    let arguments = process.arguments(arity)?;
    native_result(call(alloc, native, &arguments, &own))
}
