//! What the operands of a row name: y registers that it reads and writes, and labels to which it may go by itself.
ghost use Rattle.std.specs.Prelude.{◌≡◌, ◌++◌, IfOk, OnOk};
ghost use Rattle.std.specs.List.{flat_map};
ghost use Rattle.beam_model.specs.Framed.{is_read, is_written, is_jump, in_list};
ghost use Rattle.beam_shapes.specs.OperandRoles.{is_of, numbers_of, numbers_in, may_name, may_name_some, named};

use beam_genop::kinds;
use beam_model::instruction::{Argument, Instruction, Operand};
use beam_model::opcode::{Kind, Opcode};
use std::alloc::{AllocError, Global};

/// The role of the operands that are looked for.
#[derive(Clone, Copy)]
pub enum OperandRole {
    /// y registers that the row reads.
    Reads,
    /// y registers that it writes.
    Writes,
    /// Labels to which it may go by itself.
    Jumps,
}

fn is_read(opcode: Opcode, kind: Kind) -> bool
    ensures { result ≡ is_read opcode kind }
{
    match (opcode, kind) {
        (Opcode::Swap, Kind::Register) => true,
        (Opcode::InitYregs, Kind::List) => false,
        (_, Kind::Source | Kind::List) => true,
        _ => false,
    }
}

fn is_written(opcode: Opcode, kind: Kind) -> bool
    ensures { result ≡ is_written opcode kind }
{
    match (opcode, kind) {
        (Opcode::InitYregs, Kind::List) => true,
        (_, Kind::Register) => true,
        _ => false,
    }
}

fn is_jump(opcode: Opcode, kind: Kind) -> bool
    ensures { result ≡ is_jump opcode kind }
{
    match kind {
        Kind::Label => !matches!(
            opcode,
            Opcode::Call | Opcode::CallOnly | Opcode::CallLast | Opcode::Catch | Opcode::Try
        ),
        Kind::List => matches!(opcode, Opcode::SelectVal | Opcode::SelectTupleArity),
        Kind::FailLabel => true,
        _ => false,
    }
}

fn is_of(role: OperandRole, opcode: Opcode, kind: Kind) -> bool
    ensures { result ≡ is_of role opcode kind }
{
    match role {
        OperandRole::Reads => is_read(opcode, kind),
        OperandRole::Writes => is_written(opcode, kind),
        OperandRole::Jumps => is_jump(opcode, kind),
    }
}

/// The number that an argument names.
#[inline(always)]
fn number_of(role: OperandRole, argument: &Argument) -> Option<u32>
    ensures { in_list result ≡ numbers_of role argument.now }
{
    match (role, argument) {
        (OperandRole::Jumps, Argument::Label(label)) if *label > 0 => Some(*label),
        (OperandRole::Reads | OperandRole::Writes, Argument::Y(number)) => Some(*number),
        _ => None,
    }
}

/// Appends the number that an argument names, if it names one.
fn push_argument(
    role: OperandRole,
    argument: &Argument,
    found: &mut Vec<u32>,
) -> Result<(), AllocError>
    ensures { OnOk result (found.new.items ≡ found.old.items ++ numbers_of role argument.now) }
{
    if let Some(number) = number_of(role, argument) {
        found.push(number)?;
    }
    Ok(())
}

fn push_arguments(
    role: OperandRole,
    arguments: &[Argument],
    found: &mut Vec<u32>,
) -> Result<(), AllocError>
    ensures { OnOk result (found.new.items ≡ found.old.items ++ flat_map (numbers_of role) arguments.now) }
{
    let mut rest = arguments;
    while let Some((argument, others)) = rest.split_first() {
        push_argument(role, argument, found)?;
        rest = others;
    }
    Ok(())
}

fn push_operand(
    role: OperandRole,
    operand: &Operand,
    found: &mut Vec<u32>,
) -> Result<(), AllocError>
    ensures { OnOk result (found.new.items ≡ found.old.items ++ numbers_in role operand.now) }
{
    match operand {
        Operand::One(argument) => push_argument(role, argument, found),
        Operand::Import(_) => Ok(()),
        Operand::List(arguments) => push_arguments(role, arguments.as_slice(), found),
    }
}

/// Whether an operand may name something, whatever its kind is.
#[inline(always)]
fn may_name(role: OperandRole, operand: &Operand) -> bool
    ensures { result ≡ may_name role operand.now }
{
    match operand {
        Operand::One(argument) => number_of(role, argument).is_some(),
        Operand::Import(_) => false,
        Operand::List(_) => true,
    }
}

/// Whether the operands of a row may name something, whatever their kinds are.
#[inline(always)]
pub fn may_name_some(role: OperandRole, instruction: &Instruction) -> bool
    ensures { result ≡ may_name_some role instruction.now }
{
    let operands = instruction.operands.as_slice();
    operands.iter().any(|operand| may_name(role, operand))
}

/// Appends the numbers that the operands of a row name, from the left.
pub fn push_named(
    role: OperandRole,
    instruction: &Instruction,
    found: &mut Vec<u32>,
) -> Result<(), AllocError>
    ensures { OnOk result (found.new.items ≡ found.old.items ++ named role instruction.now) }
{
    if may_name_some(role, instruction) {
        push_each(role, instruction, found)
    } else {
        Ok(())
    }
}

/// Appends the numbers that the operands of a row name, from the left: the general way, which looks at each operand.
fn push_each(
    role: OperandRole,
    instruction: &Instruction,
    found: &mut Vec<u32>,
) -> Result<(), AllocError>
    ensures { OnOk result (found.new.items ≡ found.old.items ++ named role instruction.now) }
{
    let mut kinds = kinds(instruction.opcode);
    let mut rest = instruction.operands.as_slice();
    while let Some((kind, other_kinds)) = kinds.split_first() {
        let Some((operand, others)) = rest.split_first() else {
            break;
        };
        if is_of(role, instruction.opcode, *kind) {
            push_operand(role, operand, found)?;
        }
        kinds = other_kinds;
        rest = others;
    }
    Ok(())
}

/// What the operands of a row name, from the left.
pub fn named(
    alloc: Global,
    role: OperandRole,
    instruction: &Instruction,
) -> Result<Vec<u32>, AllocError>
    ensures { IfOk result (λ found. found.items ≡ named role instruction.now) }
{
    let mut found = Vec::new(alloc);
    push_named(role, instruction, &mut found)?;
    Ok(found)
}
