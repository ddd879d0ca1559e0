//! Writing operands.

ghost use Rattle.std.specs.Prelude.{◌≡◌, ◌<◌, ◌≤◌, ◌^◌, ◌++◌, List, ℕ, IfErr, OnOk, OnErr, Ok};
ghost use Rattle.beam_model.specs.Compact.{tag_number, magnitude, wide_length, wide_of, field, single_spelling, members_spelling, spelling};
ghost use Rattle.beam_operand.specs.Faults.{Fails, Appends, Begins};

use crate::error::OperandError;
use beam_model::compact::{Compact, CompactOperand, CompactTag};
use byteorder::{BigEndian, ByteOrder};
use std::alloc::AllocError;

fn tag_number_of(tag: CompactTag) -> u8
    ensures value { result ≡ tag_number tag }
    ensures below { result < 8 }
{
    tag as u8
}

/// In how many bytes the third form holds a value.
fn width(value: i64) -> usize
    ensures value { result ≡ wide_length value }
    ensures low { 2 ≤ result }
    ensures high { result ≤ 8 }
{
    let magnitude = if value < 0 { -(value + 1) } else { value };
    if magnitude < 1 << 15 {
        2
    } else if magnitude < 1 << 23 {
        3
    } else if magnitude < 1 << 31 {
        4
    } else if magnitude < 1 << 39 {
        5
    } else if magnitude < 1 << 47 {
        6
    } else if magnitude < 1 << 55 {
        7
    } else {
        8
    }
}

fn push_wide(out: &mut Vec<u8>, tag: u8, value: i64) -> Result<(), AllocError>
    requires { tag < 8 }
    ensures ok { OnOk result (out.new.items ≡ out.old.items ++ wide_of (wide_length value) tag value) }
    ensures err { OnErr result (out.new.items ≡ out.old.items) }
{
    let count = width(value);
    let mut bytes = [0u8; 9];
    bytes[0] = (count as u8 - 2) * 32 + 24 + tag;
    BigEndian::write_int(&mut bytes[1..], value, count);
    out.extend_from_slice(&bytes[..count + 1])
}

#[tactic(auto, unfolding(beam_model::specs::Compact::field))]
fn push_field(out: &mut Vec<u8>, tag: CompactTag, value: i64) -> Result<(), AllocError>
    ensures ok { OnOk result (out.new.items ≡ out.old.items ++ field (tag_number tag) value) }
    ensures err { OnErr result (out.new.items ≡ out.old.items) }
{
    let tag = tag_number_of(tag);
    if value < 0 || value >= 2048 {
        return push_wide(out, tag, value);
    }
    if value < 16 {
        return out.extend_from_slice(&[value as u8 * 16 + tag]);
    }
    let first = (value / 256) as u8 * 32 + 8 + tag;
    out.extend_from_slice(&[first, (value % 256) as u8])
}

#[tactic(auto, unfolding(beam_model::specs::Compact::single_spelling))]
fn push_single(out: &mut Vec<u8>, operand: &Compact) -> Result<(), OperandError>
    ensures ok { OnOk result (Appends out.old.items out.new.items (single_spelling operand.now)) }
    ensures fault { IfErr result (λ e. Fails e (single_spelling operand.now)) }
    ensures err { OnErr result (Begins out.old.items out.new.items) }
{
    match operand {
        Compact::Number(n) => push_field(out, CompactTag::Number, *n as i64)?,
        Compact::Integer(n) => {
            if *n < -(1 << 59) || *n >= 1 << 59 {
                return Err(OperandError::IntegerTooLarge);
            }
            push_field(out, CompactTag::Integer, *n)?;
        }
        Compact::Nil => push_field(out, CompactTag::Atom, 0)?,
        Compact::Atom(0) => return Err(OperandError::UnsupportedOperand),
        Compact::Atom(n) => push_field(out, CompactTag::Atom, *n as i64)?,
        Compact::X(n) => push_field(out, CompactTag::X, *n as i64)?,
        Compact::Y(n) => push_field(out, CompactTag::Y, *n as i64)?,
        Compact::Label(n) => push_field(out, CompactTag::Label, *n as i64)?,
        Compact::Literal(n) => {
            push_field(out, CompactTag::Extended, 4)?;
            push_field(out, CompactTag::Number, *n as i64)?;
        }
    }
    Ok(())
}

fn push_members(out: &mut Vec<u8>, members: &[Compact]) -> Result<(), OperandError>
    ensures ok { OnOk result (Appends out.old.items out.new.items (members_spelling members.now)) }
    ensures fault { IfErr result (λ e. Fails e (members_spelling members.now)) }
    ensures err { OnErr result (Begins out.old.items out.new.items) }
{
    for member in members {
        push_single(out, member)?;
    }
    Ok(())
}

#[tactic(auto, unfolding(beam_model::specs::Compact::spelling))]
fn push_operand(out: &mut Vec<u8>, operand: &CompactOperand) -> Result<(), OperandError>
    ensures ok { OnOk result (Appends out.old.items out.new.items (spelling operand.now)) }
    ensures fault { IfErr result (λ e. Fails e (spelling operand.now)) }
    ensures err { OnErr result (Begins out.old.items out.new.items) }
{
    match operand {
        CompactOperand::One(operand) => push_single(out, operand),
        CompactOperand::List(list) => {
            let members = list.members();
            if members.len() >= 1 << 32 {
                return Err(OperandError::IntegerTooLarge);
            }
            push_field(out, CompactTag::Extended, 1)?;
            push_field(out, CompactTag::Number, members.len() as i64)?;
            push_members(out, members)
        }
    }
}

/// Writes the one shortest spelling of an operand at the end. An integer outside the range, and a list of more than
/// 4,294,967,295 members, are IntegerTooLarge; atom 0, whose spelling is nil's, is UnsupportedOperand.
/// An `Err` changes nothing.
pub fn write_operand(operand: &CompactOperand, out: &mut Vec<u8>) -> Result<(), OperandError>
    ensures ok { OnOk result (Appends out.old.items out.new.items (spelling operand.now)) }
    ensures fault { IfErr result (λ e. Fails e (spelling operand.now)) }
    ensures err { OnErr result (out.new.items ≡ out.old.items) }
{
    let length = out.len();
    let written = push_operand(out, operand);
    if written.is_err() {
        out.truncate(length);
    }
    written
}
