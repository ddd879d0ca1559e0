//! Reading operands.

ghost use Rattle.std.specs.Prelude.{◌≡◌, ◌≢◌, ◌≤◌, ◌++◌, ℕ, List, IfOk, IfErr, MatchResult, length, take, drop};
ghost use Rattle.beam_model.specs.declared.compact.CompactOperand.{CompactOperand};
ghost use Rattle.beam_model.specs.Compact.{compact_tag, value_at, natural, natural_at, compact_integer_at, number_at, register_of_tag, register_at, extended_of, single_of_tag, single_at, members_at, compact_list_at, operand_of_tag, operand_at, HasSmall, HasSmallIntegers};
ghost use Rattle.beam_model.specs.CompactForm.{IsSpelling};
ghost use Rattle.beam_operand.specs.Faults.{Gives};

use crate::error::OperandError;
use beam_model::compact::{Compact, CompactList, CompactOperand, CompactTag};
use byteorder::{BigEndian, ByteOrder};
use std::alloc::Global;

#[inline]
fn tag(first: u8) -> CompactTag
    ensures { result ≡ compact_tag first }
{
    match first % 8 {
        0 => CompactTag::Number,
        1 => CompactTag::Integer,
        2 => CompactTag::Atom,
        3 => CompactTag::X,
        4 => CompactTag::Y,
        5 => CompactTag::Label,
        6 => CompactTag::Character,
        _ => CompactTag::Extended,
    }
}

#[inline]
#[tactic(auto, unfolding(beam_model::specs::Compact::value_at))]
fn value(first: u8, bytes: &[u8]) -> Result<(i64, &[u8]), OperandError>
    ensures exact { Gives (λ r. (r.0, r.1.now)) result (value_at first bytes.now) }
    ensures memory { IfErr result (λ e. e ≢ OperandError.NoMemory) }
{
    if first % 16 < 8 {
        return Ok(((first / 16) as i64, bytes));
    }
    if first % 32 < 16 {
        return match bytes {
            [] => Err(OperandError::Truncated),
            [second, rest @ ..] => Ok(((first / 32) as i64 * 256 + *second as i64, rest)),
        };
    }
    if first / 32 == 7 {
        return Err(OperandError::IntegerTooLarge);
    }
    let count = (first / 32) as usize + 2;
    if bytes.len() < count {
        return Err(OperandError::Truncated);
    }
    Ok((BigEndian::read_int(bytes, count), &bytes[count..]))
}

#[inline]
#[tactic(auto, unfolding(beam_model::specs::Compact::natural_at))]
fn natural_behind(first: u8, bytes: &[u8]) -> Result<(u32, &[u8]), OperandError>
    ensures exact { Gives (λ r. (r.0, r.1.now)) result (natural_at first bytes.now) }
    ensures memory { IfErr result (λ e. e ≢ OperandError.NoMemory) }
{
    let (value, rest) = value(first, bytes)?;
    if value < 0 {
        return Err(OperandError::BadSign);
    }
    if value >= 1 << 32 {
        return Err(OperandError::IntegerTooLarge);
    }
    Ok((value as u32, rest))
}

#[inline]
#[tactic(auto, unfolding(beam_model::specs::Compact::compact_integer_at))]
fn integer_behind(first: u8, bytes: &[u8]) -> Result<(i64, &[u8]), OperandError>
    ensures exact { Gives (λ r. (r.0, r.1.now)) result (compact_integer_at first bytes.now) }
    ensures memory { IfErr result (λ e. e ≢ OperandError.NoMemory) }
{
    let (value, rest) = value(first, bytes)?;
    if value < -(1 << 59) || value >= 1 << 59 {
        return Err(OperandError::IntegerTooLarge);
    }
    Ok((value, rest))
}

#[inline]
#[tactic(auto, unfolding(beam_model::specs::Compact::number_at))]
fn number(bytes: &[u8]) -> Result<(u32, &[u8]), OperandError>
    ensures exact { Gives (λ r. (r.0, r.1.now)) result (number_at bytes.now) }
    ensures memory { IfErr result (λ e. e ≢ OperandError.NoMemory) }
{
    match bytes {
        [] => Err(OperandError::Truncated),
        [first, rest @ ..] => {
            if *first % 8 == 0 {
                natural_behind(*first, rest)
            } else {
                Err(OperandError::UnsupportedOperand)
            }
        }
    }
}

#[inline]
#[tactic(auto, unfolding(beam_model::specs::Compact::register_of_tag))]
fn register_behind(
    tag: CompactTag,
    first: u8,
    bytes: &[u8],
) -> Result<(Compact, &[u8]), OperandError>
    ensures exact { Gives (λ r. (r.0, r.1.now)) result (register_of_tag tag first bytes.now) }
    ensures memory { IfErr result (λ e. e ≢ OperandError.NoMemory) }
{
    match tag {
        CompactTag::X => {
            let (number, rest) = natural_behind(first, bytes)?;
            Ok((Compact::X(number), rest))
        }
        CompactTag::Y => {
            let (number, rest) = natural_behind(first, bytes)?;
            Ok((Compact::Y(number), rest))
        }
        _ => Err(OperandError::UnsupportedOperand),
    }
}

#[inline]
fn register(bytes: &[u8]) -> Result<(Compact, &[u8]), OperandError>
    ensures exact { Gives (λ r. (r.0, r.1.now)) result (register_at bytes.now) }
    ensures memory { IfErr result (λ e. e ≢ OperandError.NoMemory) }
{
    match bytes {
        [] => Err(OperandError::Truncated),
        [first, rest @ ..] => register_behind(tag(*first), *first, rest),
    }
}

#[inline]
#[tactic(auto, unfolding(beam_model::specs::Compact::extended_of))]
fn extended(value: i64, bytes: &[u8]) -> Result<(Compact, &[u8]), OperandError>
    ensures exact { Gives (λ r. (r.0, r.1.now)) result (extended_of value bytes.now) }
    ensures memory { IfErr result (λ e. e ≢ OperandError.NoMemory) }
{
    match value {
        4 => {
            let (index, rest) = number(bytes)?;
            Ok((Compact::Literal(index), rest))
        }
        5 => {
            let (register, rest) = register(bytes)?;
            let (_type_index, rest) = number(rest)?;
            Ok((register, rest))
        }
        _ => Err(OperandError::UnsupportedOperand),
    }
}

#[inline]
#[tactic(auto, unfolding(beam_model::specs::Compact::single_of_tag))]
fn single_behind(tag: CompactTag, first: u8, bytes: &[u8]) -> Result<(Compact, &[u8]), OperandError>
    ensures exact { Gives (λ r. (r.0, r.1.now)) result (single_of_tag tag first bytes.now) }
    ensures memory { IfErr result (λ e. e ≢ OperandError.NoMemory) }
{
    match tag {
        CompactTag::Number => {
            let (number, rest) = natural_behind(first, bytes)?;
            Ok((Compact::Number(number), rest))
        }
        CompactTag::Integer => {
            let (integer, rest) = integer_behind(first, bytes)?;
            Ok((Compact::Integer(integer), rest))
        }
        CompactTag::Atom => {
            let (number, rest) = natural_behind(first, bytes)?;
            let atom = if number == 0 {
                Compact::Nil
            } else {
                Compact::Atom(number)
            };
            Ok((atom, rest))
        }
        CompactTag::X | CompactTag::Y => register_behind(tag, first, bytes),
        CompactTag::Label => {
            let (number, rest) = natural_behind(first, bytes)?;
            Ok((Compact::Label(number), rest))
        }
        CompactTag::Character => Err(OperandError::UnsupportedOperand),
        CompactTag::Extended => {
            let (value, rest) = value(first, bytes)?;
            extended(value, rest)
        }
    }
}

/// Reads an operand that is no list at the front, and gives the bytes after it. It takes longer spellings than the shortest too, as
/// `read_operand` does, and its refusals are the same; a list is an UnsupportedOperand. Without memory.
#[inline]
pub fn read_single(bytes: &[u8]) -> Result<(Compact, &[u8]), OperandError>
    ensures exact { Gives (λ r. (r.0, r.1.now)) result (single_at bytes.now) }
    ensures memory { IfErr result (λ e. e ≢ OperandError.NoMemory) }
    // An integer is one that a term may be.
    ensures small { IfOk result (λ r. HasSmall r.0) }
{
    match bytes {
        [] => Err(OperandError::Truncated),
        [first, rest @ ..] => single_behind(tag(*first), *first, rest),
    }
}

fn members(alloc: Global, count: u32, bytes: &[u8]) -> Result<(Vec<Compact>, &[u8]), OperandError>
    ensures { Gives (λ r. (r.0.items, r.1.now)) result (members_at count bytes.now) }
{
    let mut members = Vec::new(alloc);
    let mut rest = bytes;
    for _ in 0..count {
        let (member, after) = read_single(rest)?;
        members.push(member)?;
        rest = after;
    }
    Ok((members, rest))
}

#[tactic(auto, unfolding(beam_model::specs::Compact::compact_list_at))]
fn list(alloc: Global, bytes: &[u8]) -> Result<(CompactOperand, &[u8]), OperandError>
    ensures { Gives (λ r. (r.0, r.1.now)) result (compact_list_at bytes.now) }
{
    let (count, rest) = number(bytes)?;
    let (members, rest) = members(alloc, count, rest)?;
    Ok((CompactOperand::List(CompactList::new(members)), rest))
}

#[tactic(auto, unfolding(beam_model::specs::Compact::operand_of_tag))]
fn operand_behind(
    alloc: Global,
    tag: CompactTag,
    first: u8,
    bytes: &[u8],
) -> Result<(CompactOperand, &[u8]), OperandError>
    ensures { Gives (λ r. (r.0, r.1.now)) result (operand_of_tag tag first bytes.now) }
{
    if tag == CompactTag::Extended {
        let (value, rest) = value(first, bytes)?;
        if value == 1 {
            return list(alloc, rest);
        }
        let (operand, rest) = extended(value, rest)?;
        return Ok((CompactOperand::One(operand), rest));
    }
    let (operand, rest) = single_behind(tag, first, bytes)?;
    Ok((CompactOperand::One(operand), rest))
}

fn operand(alloc: Global, bytes: &[u8]) -> Result<(CompactOperand, &[u8]), OperandError>
    ensures { Gives (λ r. (r.0, r.1.now)) result (operand_at bytes.now) }
{
    match bytes {
        [] => Err(OperandError::Truncated),
        [first, rest @ ..] => operand_behind(alloc, tag(*first), *first, rest),
    }
}

/// Reads the operand at the front, and answers how many bytes it takes (BEAM files, compact term encoding). It takes
/// longer spellings than the shortest too. Truncated: the bytes end inside it. IntegerTooLarge: nine bytes or more, an
/// integer outside -2^59 to 2^59 - 1, another value above 4,294,967,295. BadSign: a negative value under another tag
/// than i. UnsupportedOperand: tag h, another value under z than 1, 4 and 5, a list inside a list, an index that is
/// no u. The first fault of the bytes, from the left. NoMemory: for the members of a list.
pub fn read_operand(alloc: Global, bytes: &[u8]) -> Result<(CompactOperand, usize), OperandError>
    ensures length { IfOk result (λ r. r.1 ≤ length bytes.now) }
    // The bytes spell the operand that is read.
    ensures found { IfOk result (λ r. IsSpelling r.0 (take r.1 bytes.now)) }
    // A spelled operand is read, whatever follows it, unless memory runs out.
    ensures only { (text rest : List ℕ) (v : CompactOperand) → IsSpelling v text → bytes.now ≡ text ++ rest
        → MatchResult result (λ r. (r.0 ≡ v) × (r.1 ≡ length text)) (λ e. e ≡ OperandError.NoMemory) }
    // Each integer is one that a term may be.
    ensures small { IfOk result (λ r. HasSmallIntegers r.0) }
    // Which fault it is.
    ensures exact { Gives (λ r. (r.0, drop r.1 bytes.now)) result (operand_at bytes.now) }
{
    let (operand, rest) = operand(alloc, bytes)?;
    Ok((operand, bytes.len() - rest.len()))
}
