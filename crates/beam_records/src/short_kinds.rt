//! Events that are numbers alone, written without memory of their own: they are nearly all entries of a journal.
ghost use Rattle.std.specs.Prelude.{◌≡◌, ◌<◌, ◌^◌, ◌++◌, OnOk, OnErr};
ghost use Rattle.std.specs.Result.{IsOkUnless};
ghost use Rattle.byteorder.specs.Endian.{big_bytes};
ghost use Rattle.beam_machine.specs.declared.debug.DebugEvent.TheVariants.{Node};
ghost use Rattle.beam_machine.specs.declared.event.Event.TheVariants.{Steps, Deliver, Clock, Timeout};
ghost use Rattle.beam_records.specs.JournalFile.{IsSeat, opening};
ghost use Rattle.beam_records.specs.Pieces.{Adds};

use crate::error::RecordError;
use crate::pieces::put_body;

/// Two numbers in two bytes each.
fn short_numbers(pid: u16, rows: u16) -> [u8; 4]
    ensures { result ≡ big_bytes 2 pid ++ big_bytes 2 rows }
{
    let [a, b] = pid.to_be_bytes();
    let [c, d] = rows.to_be_bytes();
    [a, b, c, d]
}

/// Two numbers in four bytes each.
fn long_numbers(pid: u32, rows: u32) -> [u8; 8]
    ensures { result ≡ big_bytes 4 pid ++ big_bytes 4 rows }
{
    let [a, b, c, d] = pid.to_be_bytes();
    let [e, f, g, h] = rows.to_be_bytes();
    [a, b, c, d, e, f, g, h]
}

/// A number in two bytes.
fn short_number(pid: u16) -> [u8; 2]
    ensures { result ≡ big_bytes 2 pid }
{
    pid.to_be_bytes()
}

/// A number in four bytes.
fn long_number(pid: u32) -> [u8; 4]
    ensures { result ≡ big_bytes 4 pid }
{
    pid.to_be_bytes()
}

/// A time in eight bytes.
fn time(now: u64) -> [u8; 8]
    ensures { result ≡ big_bytes 8 now }
{
    now.to_be_bytes()
}

/// A number that two bytes hold.
fn narrow(number: u32) -> u16
    requires { number < 2 ^ 16 }
    ensures { result ≡ number }
{
    number as u16
}

/// Appends the record of `rows` rows of a process, in the shortest form.
pub(crate) fn put_steps(
    out: &mut Vec<u8>,
    pid: u32,
    rows: u32,
    seat: Option<u32>,
) -> Result<(), RecordError>
    requires { IsSeat seat }
    ensures ok { OnOk result (Adds out.old.items out.new.items (record { event = Node (Steps pid rows); seat = seat })) }
    ensures short { pid < 2 ^ 16 → rows < 2 ^ 16 → OnOk result (out.new.items ≡ out.old.items ++ (opening seat 32 ++ (big_bytes 2 pid ++ big_bytes 2 rows))) }
    ensures memory { IsOkUnless result RecordError.NoMemory }
    ensures err { OnErr result (out.new.items ≡ out.old.items) }
{
    if pid >= 1 << 16 {
        return put_body(out, seat, 8, &long_numbers(pid, rows));
    }
    if rows >= 1 << 16 {
        return put_body(out, seat, 8, &long_numbers(pid, rows));
    }
    put_body(out, seat, 32, &short_numbers(narrow(pid), narrow(rows)))
}

/// Appends the record of the arrival of a process's signals, in the shortest form.
pub(crate) fn put_deliver(out: &mut Vec<u8>, pid: u32, seat: Option<u32>) -> Result<(), RecordError>
    requires { IsSeat seat }
    ensures ok { OnOk result (Adds out.old.items out.new.items (record { event = Node (Deliver pid); seat = seat })) }
    ensures short { pid < 2 ^ 16 → OnOk result (out.new.items ≡ out.old.items ++ (opening seat 33 ++ big_bytes 2 pid)) }
    ensures memory { IsOkUnless result RecordError.NoMemory }
    ensures err { OnErr result (out.new.items ≡ out.old.items) }
{
    if pid >= 1 << 16 {
        return put_body(out, seat, 9, &long_number(pid));
    }
    put_body(out, seat, 33, &short_number(narrow(pid)))
}

/// Appends the record of a move of the clock.
pub(crate) fn put_clock(out: &mut Vec<u8>, now: u64, seat: Option<u32>) -> Result<(), RecordError>
    requires { IsSeat seat }
    ensures ok { OnOk result (Adds out.old.items out.new.items (record { event = Node (Clock now); seat = seat })) }
    ensures memory { IsOkUnless result RecordError.NoMemory }
    ensures err { OnErr result (out.new.items ≡ out.old.items) }
{
    put_body(out, seat, 10, &time(now))
}

/// Appends the record of a deadline that came.
pub(crate) fn put_timeout(out: &mut Vec<u8>, pid: u32, seat: Option<u32>) -> Result<(), RecordError>
    requires { IsSeat seat }
    ensures ok { OnOk result (Adds out.old.items out.new.items (record { event = Node (Timeout pid); seat = seat })) }
    ensures memory { IsOkUnless result RecordError.NoMemory }
    ensures err { OnErr result (out.new.items ≡ out.old.items) }
{
    put_body(out, seat, 11, &long_number(pid))
}
