//! Sessions.
ghost use Rattle.std.specs.Prelude.{◌≡◌, ◌++◌, ℕ, List, false, IfErr, IfOk, OnOk};
ghost use Rattle.beam_remote.specs.Found.{IfEnded, IsNeeded, IsReceived, failures_after, failures_receiving};
ghost use Rattle.beam_remote.specs.Serving.{AllAnswered, IsServed, IsStopped};
ghost use Rattle.beam_remote.specs.DeviceHistory.{EachRead, appended};

use crate::answer::answer;
use crate::desk::Desk;
use crate::error::{ServeError, Served, SessionFailure};
use crate::next_command_error::NextCommandError;
use crate::port::Port;
use crate::reading::next_command;
use crate::tell::{tell, tell_fault};
use beam_frame::FrameReader;
use beam_machine::command::Command;
use std::alloc::Global;

/// The next command; `None` where the input ends between two frames. A fault of the stream is written to the port.
fn receive<P: Port>(
    alloc: Global,
    port: &mut P,
    reader: &mut FrameReader,
) -> Result<Option<Command>, SessionFailure>
    requires { reader.old.failed ≡ false }
    ensures received { (read begun : List ℕ) × (P.input port.new ≡ appended (P.input port.old) read)
        × (P.output port.new ≡ appended (P.output port.old) begun)
        × IsReceived (reader.old.pending ++ read) result reader.new.pending begun }
    ensures needed { EachRead (IsNeeded reader.old.pending (P.input port.old) (P.output port.old)) (P.moments port.old) (P.moments port.new) }
    ensures waits { IfOk result (λ _. reader.new.failed ≡ false) }
    ensures end { IfEnded result (P.at_end port.new) }
    ensures failed { P.failed port.new ≡ failures_receiving result (P.failed port.old) }
{
    match next_command(port, reader) {
        Ok(command) => Ok(command),
        Err(NextCommandError::ReadFailed) => Err(SessionFailure::ReadFailed),
        Err(NextCommandError::CutFrame) => Err(SessionFailure::CutFrame),
        Err(NextCommandError::Fault(fault)) => Err(tell_fault(alloc, port, fault)),
        Err(NextCommandError::NoMemory) => Err(SessionFailure::NoMemory),
    }
}

/// A session: reads commands up to the end of the input, and answers each before it reads on.
///
/// The reply to a command is written before the next command is handed to the desk. `done` counts the commands that were
/// answered, refused ones too, `told` the replies that were written whole. It stops with
///
/// - `ReadFailed` and `WriteFailed` where a call of the port fails;
/// - `CutFrame` where the input ends inside a frame;
/// - `BadFrame` where a fault stands in a frame's place, or a reply is too long to be written (1): a frame of kind 7 then tells
///   the fault, after all replies before it. It isn't counted in `told`, and one that can't be written is `WriteFailed`;
/// - `NoMemory` where memory is refused for a frame, and after 2^64 - 1 commands, which can't be counted.
///
/// A reply that couldn't be written doesn't undo its command.
pub fn serve<P: Port, D: Desk>(
    alloc: Global,
    port: &mut P,
    desk: &mut D,
) -> Result<Served, ServeError>
    ensures served { IfOk result (λ served. (read written : List ℕ)
        × (P.input port.new ≡ appended (P.input port.old) read)
        × (P.output port.new ≡ appended (P.output port.old) written)
        × IsServed D.answers desk.old read written served desk.new) }
    ensures end { OnOk result (P.at_end port.new) }
    ensures quiet { OnOk result (P.failed port.new ≡ P.failed port.old) }

    ensures stopped { IfErr result (λ e. (read written : List ℕ)
        × (P.input port.new ≡ appended (P.input port.old) read)
        × (P.output port.new ≡ appended (P.output port.old) written)
        × IsStopped D.answers desk.old read written e desk.new) }
    ensures cut { IfErr result (λ e. e.why ≡ SessionFailure.CutFrame → P.at_end port.new) }
    ensures failures { IfErr result (λ e. P.failed port.new ≡ failures_after e.why (P.failed port.old)) }

    ensures prompt { EachRead (AllAnswered D.answers desk.old (P.input port.old) (P.output port.old)) (P.moments port.old) (P.moments port.new) }
{
    let mut reader = FrameReader::new(alloc);
    // A loop is proved to end, so this one counts the commands.
    for done in 0..u64::MAX {
        let command = match receive(alloc, port, &mut reader) {
            Ok(Some(command)) => command,
            Ok(None) => return Ok(Served { done, told: done }),
            Err(why) => {
                let told = done;
                return Err(ServeError { why, done, told });
            }
        };
        let response = answer(alloc, desk, command);
        match tell(alloc, port, &response) {
            Ok(()) => {}
            Err(why) => {
                let told = done;
                let done = done + 1;
                return Err(ServeError { why, done, told });
            }
        }
    }
    Err(ServeError {
        why: SessionFailure::NoMemory,
        done: u64::MAX,
        told: u64::MAX,
    })
}
