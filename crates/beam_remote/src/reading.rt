//! Commands that are read from a device.
ghost use Rattle.std.specs.Prelude.{◌≡◌, ◌++◌, ℕ, List, false, IfOk};
ghost use Rattle.beam_frame.specs.declared.error.FrameError.TheVariants as frame;
ghost use Rattle.beam_remote.specs.Found.{IfAtEnd, IsFound, IsNeeded, failures_reading, of_frame_error};
ghost use Rattle.beam_remote.specs.DeviceHistory.{EachRead, appended};

use crate::next_command_error::NextCommandError;
use crate::port::Port;
use beam_frame::{FrameError, FrameReader};
use beam_machine::command::{Command, FrameFault};

/// Why a reader of frames gives no further command.
fn of_frame_error(error: FrameError) -> NextCommandError
    requires { error ≡ frame.Failed → ⊥ }
    ensures { result ≡ of_frame_error error }
{
    match error {
        FrameError::TooLong => NextCommandError::Fault(FrameFault::TooLong),
        FrameError::BadKind => NextCommandError::Fault(FrameFault::BadKind),
        FrameError::BadCommand => NextCommandError::Fault(FrameFault::BadCommand),
        FrameError::NoMemory => NextCommandError::NoMemory,
        FrameError::Failed => unreachable!(),
    }
}

/// The next command, for which no more is read than it takes; `None` where the input ends between two frames.
pub(crate) fn next_command<P: Port>(
    port: &mut P,
    reader: &mut FrameReader,
) -> Result<Option<Command>, NextCommandError>
    requires { reader.old.failed ≡ false }
    ensures found { (read : List ℕ) × (P.input port.new ≡ appended (P.input port.old) read)
        × IsFound (reader.old.pending ++ read) result reader.new.pending }
    ensures needed { EachRead (IsNeeded reader.old.pending (P.input port.old) (P.output port.old)) (P.moments port.old) (P.moments port.new) }
    ensures waits { IfOk result (λ _. reader.new.failed ≡ false) }
    ensures end { IfAtEnd result (P.at_end port.new) }
    ensures output { P.output port.new ≡ P.output port.old }
    ensures failed { P.failed port.new ≡ failures_reading result (P.failed port.old) }
{
    let mut buffer = [0; 4096];
    loop {
        match reader.next() {
            Ok(Some(command)) => return Ok(Some(command)),
            Ok(None) => {}
            Err(error) => return Err(of_frame_error(error)),
        }
        let Ok(count) = port.read(&mut buffer) else {
            return Err(NextCommandError::ReadFailed);
        };
        if count == 0 {
            return if reader.is_empty() {
                Ok(None)
            } else {
                Err(NextCommandError::CutFrame)
            };
        }
        let Ok(()) = reader.feed(&buffer[..count]) else {
            return Err(NextCommandError::NoMemory);
        };
    }
}
