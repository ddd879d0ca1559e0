//! A session over the standard streams.
ghost use Rattle.std.specs.Prelude.{◌≡◌, IfErr, Option};
ghost use Rattle.beam_remote.specs.declared.error.SessionFailure.{SessionFailure};
ghost use Rattle.beam_tools.specs.declared.os_error.OsError.{OsError};

use crate::stream_session::pipe_over;
use beam_tools::job::JobFault;
use std::io;

/// Answers the commands on standard input on standard output, over a node that begins empty, up to the input's end or a fault.
pub fn pipe<'a, R: Input + Print + AllocGlobal>(rt: &R) -> Result<(), JobFault<'a>>
    ensures fault { IfErr result (λ f. (why : SessionFailure) × (os_error : Option OsError) × (f ≡ JobFault.Pipe why os_error)) }
{
    let (port, end) = pipe_over(rt.alloc(), rt.reader(), io::writer(rt));
    match end {
        Ok(_) => Ok(()),
        Err(error) => Err(JobFault::Pipe(error.why, port.os_error())),
    }
}
