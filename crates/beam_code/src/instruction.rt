//! Instructions: an opcode, and as many operands as it has kinds.

ghost use Rattle.std.specs.Prelude.{◌≡◌, ◌≤◌, ◌<◌, ◌++◌, IfOk, OnOk, length, map, take, drop};
ghost use Rattle.std.specs.Arc.{arc_value};
ghost use Rattle.std.specs.List.{All};
ghost use Rattle.beam_model.specs.Opcodes.{kinds_of};
ghost use Rattle.beam_model.specs.CodeChunk.{operands_at, opcode_at, is_end, listed_operands, instruction_after_opcode, instructions_at};
ghost use Rattle.beam_code.specs.Bytes.{standing_at};
ghost use Rattle.beam_code.specs.Faults.{Gives};
ghost use Rattle.beam_code.specs.ReadChunk.{tables_of};
ghost use Rattle.beam_code.specs.ChunkLayout.{HasLayout};
ghost use Rattle.beam_code.specs.Shared.{put_last, made_of, IsWithin, IsPut};

use crate::error::CodeError;
use crate::labels::labels;
use crate::operand::operand;
use crate::starts::Starts;
use beam_genop::{by_number, kinds};
use beam_model::function::Import;
use beam_model::instruction::{Argument, Instruction, Operand, Operands};
use beam_model::opcode::{Kind, Opcode};
use beam_term::{Atom, Term};
use std::alloc::{AllocError, Global};
use std::sync::Arc;

/// Where the instructions of a chunk stand. Positions count the chunk's bytes.
pub struct ChunkLayout {
    /// Where each begins.
    pub starts: Starts,
    /// The labels in the order of their numbers, each with the byte after its label instruction.
    pub labels: Vec<(u32, u32)>,
    /// Where int_code_end stands.
    pub end: u32,
}

impl Drop for ChunkLayout {
    fn drop(self) {
        let ChunkLayout {
            starts: _starts,
            labels: _labels,
            end: _end,
        } = self;
    }
}

/// Where the first instruction of a chunk stands.
const FIRST: usize = 20;

/// The opcode of an instruction, and where its operands stand in a vector that it shares with others.
#[derive(Clone, Copy)]
struct InstructionSpan {
    opcode: Opcode,
    from: u32,
    count: u32,
}

/// Puts the operands of these kinds from a position on last. Returns the position after them.
#[inline(always)]
fn operands(
    alloc: Global,
    atoms: &[Atom],
    imports: &[Import],
    literals: &[Term],
    code: &[u8],
    kinds: &[Kind],
    at: usize,
    pool: &mut Vec<Operand>,
) -> Result<usize, CodeError>
    requires { at ≤ length code.now }
    ensures exact { Gives (λ n. (pool.new.items, n)) result (put_last pool.old.items (operands_at atoms.now imports.now literals.now code.now kinds.now at)) }
    ensures next { IfOk result (λ n. (at ≤ n) × (n ≤ length code.now)) }
{
    let mut next = at;
    for kind in kinds {
        let (operand, behind) = operand(alloc, atoms, imports, literals, code, *kind, next)?;
        pool.push(operand)?;
        next = behind;
    }
    Ok(next)
}

/// The opcode at a position.
#[tactic(auto, unfolding(beam_model::specs::CodeChunk::opcode_at))]
fn opcode(code: &[u8], at: usize) -> Result<Opcode, CodeError>
    ensures exact { Gives (λ r. r) result (opcode_at code.now at) }
    ensures within { IfOk result (λ _. at < length code.now) }
{
    let Some(number) = code.get(at) else {
        return Err(CodeError::Truncated);
    };
    match by_number(*number) {
        Some(opcode) => Ok(opcode),
        None => Err(CodeError::UnsupportedOpcode(*number, at)),
    }
}

/// Makes the operands from a position on those of a listing, in which a line has the operand 0.
fn as_listed(opcode: Opcode, pool: &mut Vec<Operand>, from: usize) -> Result<(), AllocError>
    ensures { OnOk result (pool.new.items ≡ take from pool.old.items ++ listed_operands opcode (drop from pool.old.items)) }
{
    if opcode == Opcode::Line {
        pool.truncate(from);
        pool.push(Operand::One(Argument::Number(0)))?;
    }
    Ok(())
}

/// Reads the operands of an opcode from a position on, and appends them to `pool`. Answers the instruction and the position after it.
/// NoMemory too if `pool` would have more than 4,294,967,295 operands.
#[inline(always)]
fn instruction(
    alloc: Global,
    atoms: &[Atom],
    imports: &[Import],
    literals: &[Term],
    code: &[u8],
    opcode: Opcode,
    at: usize,
    pool: &mut Vec<Operand>,
) -> Result<(InstructionSpan, usize), CodeError>
    requires { at ≤ length code.now }
    ensures exact { Gives (λ r. (made_of pool.new.items r.0, r.1)) result (instruction_after_opcode atoms.now imports.now literals.now code.now opcode at) }
    ensures put { IfOk result (λ r. IsPut pool.old.items pool.new.items r.0) }
    ensures next { IfOk result (λ r. (at ≤ r.1) × (r.1 ≤ length code.now)) }
{
    let start = pool.len();
    let next = operands(
        alloc,
        atoms,
        imports,
        literals,
        code,
        kinds(opcode),
        at,
        pool,
    )?;
    as_listed(opcode, pool, start)?;
    let end = pool.len();
    if end > u32::MAX as usize {
        return Err(CodeError::NoMemory);
    }
    let from = start as u32;
    let count = (end - start) as u32;
    let head = InstructionSpan {
        opcode,
        from,
        count,
    };
    Ok((head, next))
}

/// The instructions whose operands stand in a vector, which they share.
fn sharing(
    alloc: Global,
    heads: &[InstructionSpan],
    pool: &Arc<Vec<Operand>>,
) -> Result<Vec<Instruction>, AllocError>
    requires { All (IsWithin (arc_value pool.now).items) heads.now }
    ensures { IfOk result (λ is. is.items ≡ map (made_of (arc_value pool.now).items) heads.now) }
{
    let mut instructions = Vec::with_capacity(alloc, heads.len())?;
    for head in heads {
        let operands = Operands::part(pool, head.from, head.count)?;
        instructions.push(Instruction {
            opcode: head.opcode,
            operands,
        })?;
    }
    Ok(instructions)
}

/// The instruction at a position, int_code_end too, and the position after it.
#[tactic(auto, unfolding(crate::specs::Bytes::standing_at))]
pub fn standing(
    alloc: Global,
    atoms: &[Atom],
    imports: &[Import],
    literals: &[Term],
    code: &[u8],
    at: usize,
) -> Result<(Instruction, usize), CodeError>
    ensures { Gives (λ r. r) result (standing_at (tables_of atoms.now imports.now literals.now) code.now at) }
{
    let opcode = opcode(code, at)?;
    let mut pool = Vec::new(alloc);
    let (head, next) = instruction(
        alloc,
        atoms,
        imports,
        literals,
        code,
        opcode,
        at + 1,
        &mut pool,
    )?;
    let operands = Operands::new(alloc, pool)?;
    let opcode = head.opcode;
    Ok((Instruction { opcode, operands }, next))
}

fn is_end_of_code(opcode: Opcode) -> bool
    ensures { result ≡ is_end opcode }
{
    matches!(opcode, Opcode::IntCodeEnd)
}

/// The instructions of a chunk up to int_code_end, and their layout. NoMemory too if a position may not fit in a u32.
pub fn instructions(
    alloc: Global,
    atoms: &[Atom],
    imports: &[Import],
    literals: &[Term],
    code: &[u8],
) -> Result<(Vec<Instruction>, ChunkLayout), CodeError>
    requires { 20 ≤ length code.now }
    ensures exact { Gives (λ r. r.0.items) result (instructions_at atoms.now imports.now literals.now code.now (length code.now) 20) }
    ensures places { IfOk result (λ r. HasLayout (tables_of atoms.now imports.now literals.now) code.now r.0.items r.1) }
{
    if code.len() > u32::MAX as usize {
        return Err(CodeError::NoMemory);
    }
    let mut heads = Vec::new(alloc);
    let mut pool = Vec::new(alloc);
    let mut starts = Starts::new(alloc);
    let mut at = FIRST;
    loop {
        let opcode = opcode(code, at)?;
        if is_end_of_code(opcode) {
            let end = at as u32;
            let pool = Arc::new(alloc, pool)?;
            let instructions = sharing(alloc, &heads, &pool)?;
            let labels = labels(alloc, &instructions, &starts, end)?;
            return Ok((
                instructions,
                ChunkLayout {
                    starts,
                    labels,
                    end,
                },
            ));
        }
        let (head, next) = instruction(
            alloc,
            atoms,
            imports,
            literals,
            code,
            opcode,
            at + 1,
            &mut pool,
        )?;
        starts.push(at as u32)?;
        heads.push(head)?;
        at = next;
    }
}
