//! Replies as frames.
ghost use Rattle.std.specs.Prelude.{◌≡◌, ◌≤◌, ◌<◌, ◌^◌, ◌++◌, ◌∷◌, [], length, ◌⊎◌, OnOk, OnErr, IfErr, IsErrOf, IsFalse};
ghost use Rattle.std.specs.List.{flat_map};
ghost use Rattle.beam_model.specs.External.{external_bytes};
ghost use Rattle.beam_machine.specs.declared.command.Response.TheVariants.{Node};
ghost use Rattle.std.specs.Result.{IsOkUnless};
ghost use Rattle.byteorder.specs.Endian.{big_bytes};
ghost use Rattle.beam_machine.specs.Frames.{longest_frame, reply_body, then_bytes, instance_number, numbers_bytes, frame_of, fault_frame};

use crate::error::FrameError;
use crate::reading::LONGEST_FRAME;
use beam_etf::write_term;
use beam_lengths::{external_length, parts_length, write_parts};
use beam_machine::command::{FrameFault, Response};
use beam_machine::event::{Numbers, Reply, Then};
use beam_term::Term;
use byteorder::{BigEndian, ByteOrder};

/// Adds a number in four bytes.
fn put_number(out: &mut Vec<u8>, number: u32) -> Result<(), FrameError>
    ensures ok { OnOk result (out.new.items ≡ out.old.items ++ big_bytes 4 number) }
    ensures memory { IsOkUnless result FrameError.NoMemory }
{
    let mut bytes = [0; 4];
    BigEndian::write_u32(&mut bytes, number);
    out.extend_from_slice(&bytes)?;
    Ok(())
}

/// Adds a term as external term with its version byte.
fn put_term(out: &mut Vec<u8>, term: &Term) -> Result<(), FrameError>
    ensures ok { OnOk result (out.new.items ≡ out.old.items ++ external_bytes term.now) }
    ensures memory { IsOkUnless result FrameError.NoMemory }
{
    match write_term(term, out) {
        Ok(()) => Ok(()),
        Err(_) => Err(FrameError::NoMemory),
    }
}

/// Adds how a process stands after its rows.
fn put_then(out: &mut Vec<u8>, then: &Then) -> Result<(), FrameError>
    ensures ok { OnOk result (out.new.items ≡ out.old.items ++ then_bytes then.now) }
    ensures memory { IsOkUnless result FrameError.NoMemory }
{
    match then {
        Then::GoesOn => out.push(0)?,
        Then::Waits => out.push(1)?,
        Then::Ended { reason, value } => {
            out.push(3)?;
            put_term(out, reason)?;
            put_term(out, value)?;
        }
    }
    Ok(())
}

/// Adds the lowest four bytes of a count.
fn put_count(out: &mut Vec<u8>, count: usize) -> Result<(), FrameError>
    ensures ok { OnOk result (out.new.items ≡ out.old.items ++ big_bytes 4 count) }
    ensures memory { IsOkUnless result FrameError.NoMemory }
{
    let mut bytes = [0; 8];
    BigEndian::write_u64(&mut bytes, count as u64);
    out.extend_from_slice(&bytes[4..])?;
    Ok(())
}

/// Adds the numbers of a module's instances, 0 for none.
fn put_numbers(out: &mut Vec<u8>, numbers: &Numbers) -> Result<(), FrameError>
    ensures ok { OnOk result (out.new.items ≡ out.old.items ++ numbers_bytes numbers.now) }
    ensures memory { IsOkUnless result FrameError.NoMemory }
{
    put_number(out, numbers.current.unwrap_or(0))?;
    put_number(out, numbers.old.unwrap_or(0))
}

/// Adds how many modules there are, and the numbers of each.
fn put_list(out: &mut Vec<u8>, list: &[Numbers]) -> Result<(), FrameError>
    ensures ok { OnOk result (out.new.items ≡ (out.old.items ++ big_bytes 4 (length list.now)) ++ flat_map numbers_bytes list.now) }
    ensures memory { IsOkUnless result FrameError.NoMemory }
{
    put_count(out, list.len())?;
    for numbers in list {
        put_numbers(out, numbers)?;
    }
    Ok(())
}

/// Adds the kind and the body of an answer of the node.
fn put_reply(out: &mut Vec<u8>, reply: &Reply) -> Result<(), FrameError>
    ensures ok { OnOk result (out.new.items ≡ out.old.items ++ reply_body (Node reply.now)) }
    ensures memory { IsOkUnless result FrameError.NoMemory }
{
    match reply {
        Reply::Done => {
            out.push(0)?;
            Ok(())
        }
        Reply::Changed(changed) => {
            out.push(1)?;
            out.push(if *changed { 1 } else { 0 })?;
            Ok(())
        }
        Reply::Started(pid) => {
            out.push(2)?;
            put_number(out, *pid)
        }
        Reply::Ran { count, then } => {
            out.push(3)?;
            put_number(out, *count)?;
            put_then(out, then)
        }
        Reply::Versions { current, old } => {
            out.push(5)?;
            put_number(out, current.unwrap_or(0))?;
            put_number(out, old.unwrap_or(0))
        }
        Reply::Upgraded(numbers) => {
            out.push(8)?;
            put_list(out, numbers.as_slice())
        }
    }
}

/// Adds the kind and the body of a reply.
fn put_body(out: &mut Vec<u8>, response: &Response) -> Result<(), FrameError>
    ensures ok { OnOk result (out.new.items ≡ out.old.items ++ reply_body response.now) }
    ensures memory { IsOkUnless result FrameError.NoMemory }
{
    match response {
        Response::Node(reply) => put_reply(out, reply),
        Response::Held { count } => {
            out.push(3)?;
            put_number(out, *count)?;
            out.push(2)?;
            Ok(())
        }
        Response::Viewed(text) => {
            out.push(4)?;
            write_parts(text, out)?;
            Ok(())
        }
        Response::Refused(refusal) => {
            out.extend_from_slice(&[6, refusal.number()])?;
            Ok(())
        }
        Response::Busy => {
            out.extend_from_slice(&[6, 6])?;
            Ok(())
        }
        Response::JournalFull => {
            out.extend_from_slice(&[6, 10])?;
            Ok(())
        }
        Response::BadFile { layer, number } => {
            out.extend_from_slice(&[6, 12, *layer, *number])?;
            Ok(())
        }
    }
}

/// Adds a kind and its body with their length before them.
fn put_frame(out: &mut Vec<u8>, body: &[u8]) -> Result<(), FrameError>
    requires { length body.now ≤ longest_frame }
    ensures ok { OnOk result (out.new.items ≡ out.old.items ++ frame_of body.now) }
    ensures memory { IsOkUnless result FrameError.NoMemory }
    ensures unchanged { OnErr result (out.new.items ≡ out.old.items) }
{
    let mut length = [0; 4];
    BigEndian::write_u32(&mut length, body.len() as u32);
    out.reserve(4 + body.len())?;
    out.extend_from_slice(&length)?;
    out.extend_from_slice(body)?;
    Ok(())
}

/// Whether no term and no text of a reply is by itself too long for a frame. It takes no memory, and the steps that it takes don't exceed
/// what fits into a frame.
#[tactic(auto, using(crate::proofs::Fits::long_reason, crate::proofs::Fits::long_value))]
fn fits(response: &Response) -> bool
    ensures { IsFalse result → longest_frame < length (reply_body response.now) }
{
    match response {
        Response::Viewed(text) => parts_length(text, LONGEST_FRAME).is_some(),
        Response::Node(
            Reply::Ran {
                then: Then::Ended { reason, value },
                ..
            },
        ) => {
            external_length(reason, LONGEST_FRAME).is_some()
                && external_length(value, LONGEST_FRAME).is_some()
        }
        _ => true,
    }
}

/// Appends the frame of a reply: the length of kind and body, the kind, and the body.
///
/// `TooLong` where kind and body have more than 8,388,608 bytes, `NoMemory` where memory is refused. After a refusal nothing is
/// appended. Of a reply with a term or a text that is too long by itself nothing is written, however much longer it is.
pub fn encode_reply(response: &Response, out: &mut Vec<u8>) -> Result<(), FrameError>
    ensures ok { OnOk result (out.new.items ≡ out.old.items ++ frame_of (reply_body response.now)) }
    ensures fits { OnOk result (length (reply_body response.now) ≤ longest_frame) }
    ensures long { IsErrOf result FrameError.TooLong → longest_frame < length (reply_body response.now) }
    ensures memory { length (reply_body response.now) ≤ longest_frame → IsOkUnless result FrameError.NoMemory }
    ensures errors { IfErr result (λ e. (e ≡ FrameError.TooLong) ⊎ (e ≡ FrameError.NoMemory)) }
    ensures unchanged { OnErr result (out.new.items ≡ out.old.items) }
{
    if !fits(response) {
        return Err(FrameError::TooLong);
    }
    let mut body = Vec::new(*out.allocator());
    put_body(&mut body, response)?;
    if body.len() > LONGEST_FRAME {
        return Err(FrameError::TooLong);
    }
    put_frame(out, &body)
}

/// Appends the frame of a fault, the last reply of a session. `NoMemory` where memory is refused; then nothing is appended.
pub fn encode_fault(fault: FrameFault, out: &mut Vec<u8>) -> Result<(), FrameError>
    ensures ok { OnOk result (out.new.items ≡ out.old.items ++ fault_frame fault) }
    ensures memory { IsOkUnless result FrameError.NoMemory }
    ensures unchanged { OnErr result (out.new.items ≡ out.old.items) }
{
    put_frame(out, &[7, FrameError::from(fault).number()])
}
