//! Bytes that are written whole.
ghost use Rattle.std.specs.Prelude.{◌≡◌, MatchResult, OnErr, OnOk};
ghost use Rattle.beam_remote.specs.DeviceHistory.{IsBegun, appended, saturating_increment};

use crate::port::{DeviceFailed, Port};

/// Writes all bytes, or a beginning of them.
pub fn write_all<P: Port>(port: &mut P, bytes: &[u8]) -> Result<(), DeviceFailed>
    ensures whole { OnOk result (P.output port.new ≡ appended (P.output port.old) bytes.now) }
    ensures begun { OnErr result (IsBegun (P.output port.old) bytes.now (P.output port.new)) }
    ensures input { P.input port.new ≡ P.input port.old }
    ensures moments { P.moments port.new ≡ P.moments port.old }
    ensures failed { MatchResult result (λ _. P.failed port.new ≡ P.failed port.old) (λ _. P.failed port.new ≡ saturating_increment (P.failed port.old)) }
{
    let mut rest = bytes;
    while !rest.is_empty() {
        let count = port.write(rest)?;
        rest = &rest[count..];
    }
    Ok(())
}
