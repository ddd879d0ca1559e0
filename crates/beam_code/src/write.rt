//! Writing the Code chunk.

ghost use Rattle.std.specs.Prelude.{◌≡◌, IfOk, IfErr, Some, option_map};
ghost use Rattle.byteorder.specs.Endian.{big_bytes};
ghost use Rattle.beam_model.specs.Opcodes.{number_of};
ghost use Rattle.beam_model.specs.CodeChunk.{listed_operands};
ghost use Rattle.beam_model.specs.Assembly.{word, operand_bytes, operands_bytes, instruction_bytes, instructions_bytes, greatest_opcode, words_bytes, code_bytes};
ghost use Rattle.beam_code.specs.Writing.{Adds, Refuses};

use crate::compact::compact;
use crate::error::CodeError;
use crate::numbering::Numbering;
use beam_genop::number;
use beam_model::instruction::{Argument, Instruction, Operand};
use beam_model::opcode::Opcode;
use beam_operand::{OperandError, write_operand};
use byteorder::{BigEndian, ByteOrder};
use std::alloc::{AllocError, Global};

#[tactic(auto, unfolding(beam_model::specs::Assembly::operand_bytes))]
fn push_operand(
    out: &mut Vec<u8>,
    numbering: &Numbering,
    operand: &Operand,
) -> Result<(), CodeError>
    ensures { Adds out.old.items out.new.items result (operand_bytes numbering.now operand.now) }
{
    let at = out.len();
    let Some(spelled) = compact(*out.allocator(), numbering, operand)? else {
        return Err(CodeError::BadOperand(at));
    };
    match write_operand(&spelled, out) {
        Ok(()) => Ok(()),
        Err(OperandError::NoMemory) => Err(CodeError::NoMemory),
        Err(_) => Err(CodeError::BadOperand(at)),
    }
}

fn push_operands(
    out: &mut Vec<u8>,
    numbering: &Numbering,
    operands: &[Operand],
) -> Result<(), CodeError>
    ensures { Adds out.old.items out.new.items result (operands_bytes numbering.now operands.now) }
{
    let mut rest = operands;
    while let Some((operand, others)) = rest.split_first() {
        push_operand(out, numbering, operand)?;
        rest = others;
    }
    Ok(())
}

/// Adds the operands of an instruction. A line's is 0.
fn push_listed(
    out: &mut Vec<u8>,
    numbering: &Numbering,
    opcode: Opcode,
    operands: &[Operand],
) -> Result<(), CodeError>
    ensures { Adds out.old.items out.new.items result (operands_bytes numbering.now (listed_operands opcode operands.now)) }
{
    if opcode == Opcode::Line {
        let zero = [Operand::One(Argument::Number(0))];
        return push_operands(out, numbering, &zero);
    }
    push_operands(out, numbering, operands)
}

#[tactic(auto, unfolding(beam_model::specs::Assembly::instruction_bytes))]
fn push_instruction(
    out: &mut Vec<u8>,
    numbering: &Numbering,
    instruction: &Instruction,
) -> Result<(), CodeError>
    ensures { Adds out.old.items out.new.items result (instruction_bytes numbering.now instruction.now) }
{
    let opcode = instruction.opcode;
    out.push(number(opcode))?;
    push_listed(out, numbering, opcode, instruction.operands.as_slice())
}

fn push_instructions(
    out: &mut Vec<u8>,
    numbering: &Numbering,
    instructions: &[Instruction],
) -> Result<(), CodeError>
    ensures { Adds out.old.items out.new.items result (instructions_bytes numbering.now instructions.now) }
{
    let mut rest = instructions;
    while let Some((instruction, others)) = rest.split_first() {
        push_instruction(out, numbering, instruction)?;
        rest = others;
    }
    Ok(())
}

/// The greatest opcode that is used. int_code_end ends each chunk.
fn greatest_opcode(instructions: &[Instruction]) -> u8
    ensures { result ≡ greatest_opcode instructions.now }
{
    let mut greatest = number(Opcode::IntCodeEnd);
    let mut rest = instructions;
    while let Some((instruction, others)) = rest.split_first() {
        greatest = greatest.max(number(instruction.opcode));
        rest = others;
    }
    greatest
}

/// Adds a number of four bytes.
fn push_word(out: &mut Vec<u8>, number: u32) -> Result<(), CodeError>
    ensures { Adds out.old.items out.new.items result (option_map (λ n. big_bytes 4 n) (word number)) }
{
    let mut bytes = [0; 4];
    BigEndian::write_u32(&mut bytes, number);
    out.extend_from_slice(&bytes)?;
    Ok(())
}

/// Adds numbers of four bytes.
fn push_words(out: &mut Vec<u8>, words: &[u32]) -> Result<(), CodeError>
    ensures { Adds out.old.items out.new.items result (words_bytes words.now) }
{
    let mut rest = words;
    while let Some((word, others)) = rest.split_first() {
        push_word(out, *word)?;
        rest = others;
    }
    Ok(())
}

/// Writes a Code chunk (BEAM file format): a head of five numbers, the instructions with the numbers of their atoms, imports and
/// literals, and int_code_end. A line is written with the operand 0.
///
/// BadOperand: an operand can't be spelled, since an atom, an import or a literal of it has no number, or its number is above
/// 4,294,967,295; or it has more members than that. The position counts bytes of the chunk.
#[tactic(auto, unfolding(beam_model::specs::Assembly::code_bytes))]
pub fn write_code(
    alloc: Global,
    numbering: &Numbering,
    label_count: u32,
    function_count: u32,
    instructions: &[Instruction],
) -> Result<Vec<u8>, CodeError>
    ensures bytes { IfOk result (λ v. code_bytes numbering.now
        (record { label_count = label_count; function_count = function_count; instructions = instructions.now }) ≡ Some v.items) }
    ensures fault { IfErr result (λ e. Refuses e (code_bytes numbering.now
        (record { label_count = label_count; function_count = function_count; instructions = instructions.now }))) }
{
    let greatest = greatest_opcode(instructions) as u32;
    let mut out = Vec::new(alloc);
    push_words(&mut out, &[16, 0, greatest, label_count, function_count])?;
    push_instructions(&mut out, numbering, instructions)?;
    out.push(number(Opcode::IntCodeEnd))?;
    Ok(out)
}
