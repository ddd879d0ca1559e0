//! The meanings of operands under the letters of the opcode table.

ghost use Rattle.std.specs.Prelude.{◌≡◌, ◌≤◌, ◌<◌, ◌+◌, Option, Some, None, IfOk, length};
ghost use Rattle.std.specs.List.{All};
ghost use Rattle.beam_model.specs.Compact.{HasSmall, HasSmallIntegers};
ghost use Rattle.beam_model.specs.CodeChunk.{argument_of_atom, argument_of_literal, argument_of_source, argument_of_member, argument_of, import_of_index, members_of, meaning_of, spelled_at, meant_at};
ghost use Rattle.beam_code.specs.Faults.{Gives};
ghost use Rattle.beam_code.specs.Whole.{argument_of_byte, import_of_byte, number_in_two, number_in_three, wide_number, argument_of_bytes};

use crate::error::CodeError;
use crate::share::shared_import;
use beam_model::compact::{Compact, CompactOperand};
use beam_model::function::Import;
use beam_model::instruction::{Argument, Arguments, Operand};
use beam_model::opcode::Kind;
use beam_operand::{OperandError, read_operand};
use beam_term::{Atom, Term};
use std::alloc::{AllocError, Global};

/// The atom of an index, counted from 1, if there is one.
fn atom(atoms: &[Atom], index: u32) -> Result<Option<Argument>, AllocError>
    ensures { IfOk result (λ a. a ≡ argument_of_atom atoms.now index) }
{
    if index == 0 {
        return Ok(None);
    }
    let Some(atom) = atoms.get(index as usize - 1) else {
        return Ok(None);
    };
    Ok(Some(Argument::Term(Term::atom(atom.clone()?))))
}

/// The literal of an index, counted from 0, if there is one.
fn literal(literals: &[Term], index: u32) -> Result<Option<Argument>, AllocError>
    ensures { IfOk result (λ a. a ≡ argument_of_literal literals.now index) }
{
    let Some(term) = literals.get(index as usize) else {
        return Ok(None);
    };
    Ok(Some(Argument::Term(term.clone()?)))
}

/// A register or a term.
fn source(atoms: &[Atom], literals: &[Term], x: Compact) -> Result<Option<Argument>, AllocError>
    requires { HasSmall x }
    ensures { IfOk result (λ a. a ≡ argument_of_source atoms.now literals.now x) }
{
    match x {
        Compact::X(n) => Ok(Some(Argument::X(n))),
        Compact::Y(n) => Ok(Some(Argument::Y(n))),
        Compact::Integer(n) => Ok(Some(Argument::Term(Term::integer(n)))),
        Compact::Nil => Ok(Some(Argument::Term(Term::nil()))),
        Compact::Atom(n) => atom(atoms, n),
        Compact::Literal(n) => literal(literals, n),
        Compact::Number(_) | Compact::Label(_) => Ok(None),
    }
}

/// A member of a list: a source, a number or a label.
fn member(atoms: &[Atom], literals: &[Term], x: Compact) -> Result<Option<Argument>, AllocError>
    requires { HasSmall x }
    ensures { IfOk result (λ a. a ≡ argument_of_member atoms.now literals.now x) }
{
    match x {
        Compact::Number(n) => Ok(Some(Argument::Number(n))),
        Compact::Label(n) => Ok(Some(Argument::Label(n))),
        _ => source(atoms, literals, x),
    }
}

/// What an operand that is no list means under a letter but E and L.
fn argument(
    kind: Kind,
    atoms: &[Atom],
    literals: &[Term],
    x: Compact,
) -> Result<Option<Argument>, AllocError>
    requires { HasSmall x }
    ensures { IfOk result (λ a. a ≡ argument_of kind atoms.now literals.now x) }
{
    match (kind, x) {
        (Kind::Number | Kind::Arity | Kind::FrameSize, Compact::Number(n)) => Ok(Some(
            Argument::Number(n),
        )),
        (Kind::Label | Kind::FailLabel, Compact::Label(n)) => Ok(Some(Argument::Label(n))),
        (Kind::Atom, Compact::Atom(n)) => atom(atoms, n),
        (Kind::Source, x) => source(atoms, literals, x),
        (Kind::Register, Compact::X(n)) => Ok(Some(Argument::X(n))),
        (Kind::Register, Compact::Y(n)) => Ok(Some(Argument::Y(n))),
        _ => Ok(None),
    }
}

/// The import of an index, counted from 0, if there is one.
#[inline(always)]
fn import(imports: &[Import], x: Compact) -> Result<Option<Import>, AllocError>
    ensures { IfOk result (λ i. i ≡ import_of_index imports.now x) }
{
    let Compact::Number(index) = x else {
        return Ok(None);
    };
    let Some(import) = imports.get(index as usize) else {
        return Ok(None);
    };
    Ok(Some(shared_import(import)?))
}

/// What the members of a list mean, if each has a meaning.
fn members(
    alloc: Global,
    atoms: &[Atom],
    literals: &[Term],
    xs: &[Compact],
) -> Result<Option<Arguments>, AllocError>
    requires { All HasSmall xs.now }
    ensures { IfOk result (λ a. a ≡ members_of atoms.now literals.now xs.now) }
{
    let mut items = Vec::new(alloc);
    for x in xs {
        let Some(argument) = member(atoms, literals, *x)? else {
            return Ok(None);
        };
        items.push(argument)?;
    }
    Ok(Some(Arguments { items }))
}

/// What an operand means under its letter, if it has a meaning.
#[tactic(auto, unfolding(beam_model::specs::CodeChunk::meaning_of))]
fn meaning(
    alloc: Global,
    kind: Kind,
    atoms: &[Atom],
    imports: &[Import],
    literals: &[Term],
    operand: &CompactOperand,
) -> Result<Option<Operand>, AllocError>
    requires { HasSmallIntegers operand.now }
    ensures { IfOk result (λ o. o ≡ meaning_of kind atoms.now imports.now literals.now operand.now) }
{
    match (kind, operand) {
        (Kind::Import | Kind::Native(_), CompactOperand::One(x)) => match import(imports, *x)? {
            Some(import) => Ok(Some(Operand::Import(import))),
            None => Ok(None),
        },
        (Kind::List, CompactOperand::List(list)) => {
            match members(alloc, atoms, literals, list.members())? {
                Some(arguments) => Ok(Some(Operand::List(arguments))),
                None => Ok(None),
            }
        }
        (_, CompactOperand::One(x)) => match argument(kind, atoms, literals, *x)? {
            Some(argument) => Ok(Some(Operand::One(argument))),
            None => Ok(None),
        },
        (_, CompactOperand::List(_)) => Ok(None),
    }
}

/// The operand as it is spelled at a position, and the position after it.
#[tactic(auto, unfolding(beam_model::specs::CodeChunk::spelled_at))]
fn spelled(alloc: Global, code: &[u8], at: usize) -> Result<(CompactOperand, usize), CodeError>
    requires { at ≤ length code.now }
    ensures exact { Gives (λ r. r) result (spelled_at code.now at) }
    ensures next { IfOk result (λ r. (at ≤ r.1) × (r.1 ≤ length code.now)) }
    ensures small { IfOk result (λ r. HasSmallIntegers r.0) }
{
    match read_operand(alloc, &code[at..]) {
        Ok((operand, count)) => Ok((operand, at + count)),
        Err(OperandError::Truncated) => Err(CodeError::Truncated),
        Err(OperandError::NoMemory) => Err(CodeError::NoMemory),
        Err(_) => Err(CodeError::BadOperand(at)),
    }
}

/// The meaning, under its letter, of a byte that spells a whole operand; `None` where it spells none, or an index of a table.
#[inline(always)]
fn short(kind: Kind, byte: u8) -> Option<Argument>
    ensures { result ≡ argument_of_byte kind byte }
{
    let number = (byte / 16) as u32;
    match (kind, byte % 16) {
        (Kind::Number | Kind::Arity | Kind::FrameSize, 0) => Some(Argument::Number(number)),
        (Kind::Source, 1) => Some(Argument::Term(Term::integer(number as i64))),
        (Kind::Source | Kind::Register, 3) => Some(Argument::X(number)),
        (Kind::Source | Kind::Register, 4) => Some(Argument::Y(number)),
        (Kind::Label | Kind::FailLabel, 5) => Some(Argument::Label(number)),
        _ => None,
    }
}

/// The import that a byte names as a whole under a letter of imports.
#[inline(always)]
fn near_import(kind: Kind, imports: &[Import], byte: u8) -> Result<Option<Import>, AllocError>
    ensures { IfOk result (λ i. i ≡ import_of_byte kind imports.now byte) }
{
    match (kind, byte % 16) {
        (Kind::Import | Kind::Native(_), 0) => {
            import(imports, Compact::Number((byte / 16) as u32))
        }
        _ => Ok(None),
    }
}

/// The number that two bytes spell under a tag.
#[inline(always)]
fn in_two(tag: u8, bytes: &[u8]) -> Option<u32>
    requires { tag < 8 }
    ensures { result ≡ number_in_two tag bytes.now }
{
    match bytes {
        [first, second, ..] if *first % 32 == tag + 8 => {
            Some((*first / 32) as u32 * 256 + *second as u32)
        }
        _ => None,
    }
}

/// The number without a sign that three bytes spell under a tag.
#[inline(always)]
fn in_three(tag: u8, bytes: &[u8]) -> Option<u32>
    requires { tag < 8 }
    ensures { result ≡ number_in_three tag bytes.now }
{
    match bytes {
        [first, second, third, ..] if *first == tag + 24 && *second < 128 => {
            Some(*second as u32 * 256 + *third as u32)
        }
        _ => None,
    }
}

/// The number that two or three bytes spell under a tag, and how many they are.
#[inline(always)]
fn in_some(tag: u8, bytes: &[u8]) -> Option<(u32, usize)>
    requires { tag < 8 }
    ensures { result ≡ wide_number tag bytes.now }
{
    match in_two(tag, bytes) {
        Some(number) => Some((number, 2)),
        None => match in_three(tag, bytes) {
            Some(number) => Some((number, 3)),
            None => None,
        },
    }
}

/// What two or three bytes mean under a letter of numbers or of labels, and how many they are.
#[inline(always)]
fn wide(kind: Kind, bytes: &[u8]) -> Option<(Argument, usize)>
    ensures { result ≡ argument_of_bytes kind bytes.now }
{
    match kind {
        Kind::Number => match in_some(0, bytes) {
            Some((number, count)) => Some((Argument::Number(number), count)),
            None => None,
        },
        Kind::Label | Kind::FailLabel => match in_some(5, bytes) {
            Some((number, count)) => Some((Argument::Label(number), count)),
            None => None,
        },
        _ => None,
    }
}

/// The operand of a kind at a position, and the position after it.
#[inline(always)]
pub fn operand(
    alloc: Global,
    atoms: &[Atom],
    imports: &[Import],
    literals: &[Term],
    code: &[u8],
    kind: Kind,
    at: usize,
) -> Result<(Operand, usize), CodeError>
    requires { at ≤ length code.now }
    ensures exact { Gives (λ r. r) result (meant_at atoms.now imports.now literals.now code.now kind at) }
    ensures next { IfOk result (λ r. (at ≤ r.1) × (r.1 ≤ length code.now)) }
{
    if let Some(byte) = code.get(at) {
        if let Some(argument) = short(kind, *byte) {
            return Ok((Operand::One(argument), at + 1));
        }
        if let Some(import) = near_import(kind, imports, *byte)? {
            return Ok((Operand::Import(import), at + 1));
        }
    }
    if let Some((argument, count)) = wide(kind, &code[at..]) {
        return Ok((Operand::One(argument), at + count));
    }
    any_operand(alloc, atoms, imports, literals, code, kind, at)
}

/// The operand of a kind at a position, in any spelling, and the position after it.
#[tactic(auto, unfolding(beam_model::specs::CodeChunk::meant_at))]
fn any_operand(
    alloc: Global,
    atoms: &[Atom],
    imports: &[Import],
    literals: &[Term],
    code: &[u8],
    kind: Kind,
    at: usize,
) -> Result<(Operand, usize), CodeError>
    requires { at ≤ length code.now }
    ensures exact { Gives (λ r. r) result (meant_at atoms.now imports.now literals.now code.now kind at) }
    ensures next { IfOk result (λ r. (at ≤ r.1) × (r.1 ≤ length code.now)) }
{
    let (operand, next) = spelled(alloc, code, at)?;
    match meaning(alloc, kind, atoms, imports, literals, &operand)? {
        Some(operand) => Ok((operand, next)),
        None => Err(CodeError::BadOperand(at)),
    }
}
