//! Files that are loaded.
ghost use Rattle.std.specs.Prelude.{◌≡◌, ℕ, List, IfErr, IfOk, OnOk};
ghost use Rattle.beam_remote.specs.Loading.{IfWhole, IsLoaded, IsNotLoaded, IsUnread, failures_loading};
ghost use Rattle.beam_remote.specs.DeviceHistory.{appended};

use crate::answer::prepare;
use crate::desk::Desk;
use crate::error::LoadError;
use crate::source::Source;
use beam_machine::command::{Bytes, Response};
use beam_machine::debug::DebugEvent;
use beam_machine::event::Event;
use std::alloc::Global;

/// The most bytes of a file.
const LONGEST_FILE: usize = 8_388_608;

/// All bytes up to the end of the source, if they are at most 8,388,608.
fn read_whole<F: Source>(alloc: Global, source: &mut F) -> Result<Vec<u8>, LoadError>
    ensures whole { IfOk result (λ v. F.input source.new ≡ appended (F.input source.old) v.items) }
    ensures end { OnOk result (F.at_end source.new) }
    ensures unread { IfErr result (λ e. (bytes : List ℕ) × (F.input source.new ≡ appended (F.input source.old) bytes) × IsUnread bytes e) }
    ensures failed { F.failed source.new ≡ failures_loading result (F.failed source.old) }
{
    let mut bytes = Vec::new(alloc);
    let mut buffer = [0; 4096];
    while bytes.len() <= LONGEST_FILE {
        let Ok(count) = source.read(&mut buffer) else {
            return Err(LoadError::ReadFailed);
        };
        if count == 0 {
            return Ok(bytes);
        }
        let Ok(()) = bytes.extend_from_slice(&buffer[..count]) else {
            return Err(LoadError::NoMemory);
        };
    }
    Err(LoadError::TooLong)
}

/// Reads a file to its end, prepares it, and hands its load to the desk, as `Load`. The answer is the desk's.
///
/// `ReadFailed` where a read fails, `TooLong` only where the file has more than 8,388,608 bytes, `BadFile` with a fault of the earliest
/// layer that has one where the file can't be loaded, and `NoMemory` where memory is refused before the desk is asked: then the desk is
/// handed nothing. `Refused`, `Busy` or `JournalFull` where the desk refuses with that.
pub fn load_path<F: Source, D: Desk>(
    alloc: Global,
    source: &mut F,
    desk: &mut D,
) -> Result<Response, LoadError>
    ensures loaded { IfOk result (λ response. (file : List ℕ) × (F.input source.new ≡ appended (F.input source.old) file)
        × IsLoaded D.answers desk.old file response desk.new) }
    ensures refused { IfErr result (λ e. (file : List ℕ) × (F.input source.new ≡ appended (F.input source.old) file)
        × IsNotLoaded D.answers desk.old file e desk.new) }
    ensures end { IfWhole result (F.at_end source.new) }
    ensures failures { F.failed source.new ≡ failures_loading result (F.failed source.old) }
{
    let file = match read_whole(alloc, source) {
        Ok(bytes) => Bytes::new(bytes),
        Err(error) => return Err(error),
    };
    let image = match prepare(alloc, &file) {
        Ok(image) => image,
        Err(Response::BadFile { layer, number }) => return Err(LoadError::BadFile {
            layer,
            number,
        }),
        Err(_) => return Err(LoadError::NoMemory),
    };
    match desk.command(DebugEvent::Node(Event::Load(image))) {
        Response::Refused(refused) => Err(LoadError::Refused(refused)),
        Response::Busy => Err(LoadError::Busy),
        Response::JournalFull => Err(LoadError::JournalFull),
        response => Ok(response),
    }
}
