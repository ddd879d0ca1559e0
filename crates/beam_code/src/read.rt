//! Reading the Code chunk.

ghost use Rattle.std.specs.Prelude.{◌≡◌, ◌+◌, ◌≤◌, ◌<◌, ◌^◌, IfOk, MatchResult, length};
ghost use Rattle.beam_model.specs.CodeChunk.{CodeParts, word_at, expected_at, code_of};
ghost use Rattle.beam_model.specs.CodeForm.{IsCode};
ghost use Rattle.beam_code.specs.Faults.{Gives};
ghost use Rattle.beam_code.specs.ReadChunk.{parts_of, tables_of};
ghost use Rattle.beam_code.specs.ChunkLayout.{HasLayout};

use crate::error::CodeError;
use crate::instruction::{ChunkLayout, instructions};
use beam_model::function::Import;
use beam_model::instruction::Instruction;
use beam_term::{Atom, Term};
use byteorder::{BigEndian, ByteOrder};
use std::alloc::Global;

/// The content of a Code chunk.
#[derive(Debug, Drop)]
pub struct CodeChunk {
    pub label_count: u32,
    pub function_count: u32,
    pub instructions: Vec<Instruction>,
}

/// The number in the four bytes at a position.
#[tactic(auto, unfolding(beam_model::specs::CodeChunk::word_at))]
fn word(code: &[u8], at: usize) -> Result<u32, CodeError>
    requires { at ≤ 16 }
    ensures exact { Gives (λ r. r) result (word_at code.now at) }
    ensures within { IfOk result (λ _. at + 4 ≤ length code.now) }
{
    if code.len() < at + 4 {
        return Err(CodeError::Truncated);
    }
    Ok(BigEndian::read_u32(&code[at..]))
}

/// Reads a number in four bytes that has to be this one.
#[tactic(auto, unfolding(beam_model::specs::CodeChunk::expected_at))]
fn expect_word(code: &[u8], at: usize, expected: u32) -> Result<u32, CodeError>
    requires { at ≤ 16 }
    ensures { Gives (λ r. r) result (expected_at code.now at expected) }
{
    let word = word(code, at)?;
    if word != expected {
        return Err(CodeError::BadOperand(at));
    }
    Ok(word)
}

/// The head and the instructions of a Code chunk, and where they stand.
#[tactic(auto, unfolding(beam_model::specs::CodeChunk::code_of))]
pub fn code_chunk(
    alloc: Global,
    code: &[u8],
    atoms: &[Atom],
    imports: &[Import],
    literals: &[Term],
) -> Result<(CodeChunk, ChunkLayout), CodeError>
    ensures exact { Gives (λ r. parts_of r.0) result (code_of atoms.now imports.now literals.now code.now) }
    ensures places { IfOk result (λ r. HasLayout (tables_of atoms.now imports.now literals.now) code.now r.0.instructions.items r.1) }
{
    let _size = expect_word(code, 0, 16)?;
    let _format = expect_word(code, 4, 0)?;
    let _greatest = word(code, 8)?;
    let label_count = word(code, 12)?;
    let function_count = word(code, 16)?;
    let (instructions, places) = instructions(alloc, atoms, imports, literals, code)?;
    let chunk = CodeChunk {
        label_count,
        function_count,
        instructions,
    };
    Ok((chunk, places))
}

/// Reads a Code chunk (BEAM file format) with its file's atoms, counted from 1, imports and literals, counted from 0: a head of
/// five numbers, and the instructions up to int_code_end. What follows is ignored, and so is the head's greatest opcode.
/// UnsupportedOpcode: an opcode outside the profile. BadOperand: the head doesn't begin with 16 and 0, or an operand
/// can't be read, isn't of the kind that its opcode wants there, or has an index outside its table. A literal stands for its
/// term where a source may stand, but not for an atom where the opcode wants one. Truncated: the chunk ends before int_code_end.
/// The first fault of the bytes, from the left. NoMemory too for a chunk above 4,294,967,295 bytes.
pub fn read_code(
    alloc: Global,
    code: &[u8],
    atoms: &[Atom],
    imports: &[Import],
    literals: &[Term],
) -> Result<CodeChunk, CodeError>
    // The chunk spells the instructions that are read.
    ensures spelled { IfOk result (λ c. IsCode (tables_of atoms.now imports.now literals.now) (parts_of c) code.now) }
    // Spelled instructions are read, unless memory runs out.
    ensures only { (p : CodeParts) → IsCode (tables_of atoms.now imports.now literals.now) p code.now
        → MatchResult result (λ c. parts_of c ≡ p) (λ e. e ≡ CodeError.NoMemory) }
    // Which fault it is.
    ensures exact { Gives parts_of result (code_of atoms.now imports.now literals.now code.now) }
{
    let (chunk, _places) = code_chunk(alloc, code, atoms, imports, literals)?;
    Ok(chunk)
}
