//! Replies that are written to a device.
ghost use Rattle.std.specs.Prelude.{◌≡◌, ℕ, List, IfErr, OnOk};
ghost use Rattle.beam_machine.specs.Frames.{number_of_fault};
ghost use Rattle.beam_remote.specs.Found.{StopsTelling, TellsFault, failures_after, failures_telling};
ghost use Rattle.beam_remote.specs.Serving.{reply_frame};
ghost use Rattle.beam_remote.specs.DeviceHistory.{appended};

use crate::error::SessionFailure;
use crate::port::Port;
use crate::write::write_all;
use beam_frame::{FrameError, encode_fault, encode_reply};
use beam_machine::command::{FrameFault, Response};
use std::alloc::Global;

fn number_of(fault: FrameFault) -> u8
    ensures { result ≡ number_of_fault fault }
{
    match fault {
        FrameFault::TooLong => 1,
        FrameFault::BadKind => 2,
        FrameFault::BadCommand => 3,
    }
}

/// Writes the frame of a fault with which a session ends, and answers why the session ends.
pub(crate) fn tell_fault<P: Port>(alloc: Global, port: &mut P, fault: FrameFault) -> SessionFailure
    ensures told { (begun : List ℕ) × (P.output port.new ≡ appended (P.output port.old) begun) × TellsFault fault result begun }
    ensures input { P.input port.new ≡ P.input port.old }
    ensures moments { P.moments port.new ≡ P.moments port.old }
    ensures failed { P.failed port.new ≡ failures_after result (P.failed port.old) }
{
    let mut frame = Vec::new(alloc);
    let Ok(()) = encode_fault(fault, &mut frame) else {
        return SessionFailure::NoMemory;
    };
    let Ok(()) = write_all(port, &frame) else {
        return SessionFailure::WriteFailed;
    };
    SessionFailure::BadFrame(number_of(fault))
}

/// Writes the frame of a reply. In place of a reply that is too long, it writes the frame of that fault, and the session ends.
pub(crate) fn tell<P: Port>(
    alloc: Global,
    port: &mut P,
    response: &Response,
) -> Result<(), SessionFailure>
    ensures whole { OnOk result (P.output port.new ≡ appended (P.output port.old) (reply_frame response.now)) }
    ensures stops { IfErr result (λ why. (begun : List ℕ) × (P.output port.new ≡ appended (P.output port.old) begun)
        × StopsTelling response.now why begun) }
    ensures input { P.input port.new ≡ P.input port.old }
    ensures moments { P.moments port.new ≡ P.moments port.old }
    ensures failed { P.failed port.new ≡ failures_telling result (P.failed port.old) }
{
    let mut frame = Vec::new(alloc);
    match encode_reply(response, &mut frame) {
        Ok(()) => {
            let Ok(()) = write_all(port, &frame) else {
                return Err(SessionFailure::WriteFailed);
            };
            Ok(())
        }
        Err(FrameError::TooLong) => Err(tell_fault(alloc, port, FrameFault::TooLong)),
        Err(_) => Err(SessionFailure::NoMemory),
    }
}
