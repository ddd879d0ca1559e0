//! Instructions whose operands aren't those of their opcode, printed.

use beam_listing::print::print_instruction;
use beam_model::function::Import;
use beam_model::instruction::{Argument, Instruction, Operand, Operands};
use beam_model::opcode::Opcode;
use beam_term::Atom;
use std::alloc::Global;
use std::process::Abort;
use std::test::Fail;

/// An operand, as plain numbers.
#[derive(Clone, Copy)]
enum PlainOperand {
    Label(u32),
    Number(u32),
    X(u32),
    /// m:f/9.
    Import,
}

fn import(alloc: Global) -> Result<Operand, Fail> {
    let module = Atom::new(alloc, "m")?;
    let function = Atom::new(alloc, "f")?;
    Ok(Operand::Import(Import {
        module,
        function,
        arity: 9,
    }))
}

fn operand(alloc: Global, shape: PlainOperand) -> Result<Operand, Fail> {
    match shape {
        PlainOperand::Label(number) => Ok(Operand::One(Argument::Label(number))),
        PlainOperand::Number(number) => Ok(Operand::One(Argument::Number(number))),
        PlainOperand::X(number) => Ok(Operand::One(Argument::X(number))),
        PlainOperand::Import => import(alloc),
    }
}

fn push_operands(
    alloc: Global,
    items: &mut Vec<Operand>,
    shapes: &[PlainOperand],
) -> Result<(), Fail> {
    for shape in shapes {
        items.push(operand(alloc, *shape)?)?;
    }
    Ok(())
}

fn print(instruction: &Instruction, out: &mut Vec<u8>) -> Result<(), Fail> {
    print_instruction(instruction, out)?;
    Ok(())
}

/// Prints an instruction: the one function that owns it.
fn print_shapes(
    alloc: Global,
    opcode: Opcode,
    shapes: &[PlainOperand],
    out: &mut Vec<u8>,
) -> Result<(), Fail> {
    let mut items = Vec::new(alloc);
    push_operands(alloc, &mut items, shapes)?;
    let instruction = Instruction {
        opcode,
        operands: Operands::new(alloc, items)?,
    };
    print(&instruction, out)
}

fn is_printed(
    rt: &impl Abort,
    alloc: Global,
    opcode: Opcode,
    shapes: &[PlainOperand],
    text: &str,
) -> Result<(), Fail> {
    let mut out = Vec::new(alloc);
    print_shapes(alloc, opcode, shapes, &mut out)?;
    assert_eq!(rt; out.as_slice(), text.as_bytes(), "{text}");
    Ok(())
}

#[test]
fn no_operands(rt: HostRuntime) -> Result<(), Fail> {
    let alloc = rt.alloc();
    is_printed(&rt, alloc, Opcode::Move, &[], "move")?;
    is_printed(&rt, alloc, Opcode::IsLt, &[], "is_lt")?;
    is_printed(&rt, alloc, Opcode::Line, &[], "{line,[]}")
}

#[test]
fn few_operands(rt: HostRuntime) -> Result<(), Fail> {
    let alloc = rt.alloc();
    let shapes = [PlainOperand::Label(1)];
    is_printed(&rt, alloc, Opcode::IsLt, &shapes, "{test,is_lt,{f,1},[]}")?;
    let shapes = [
        PlainOperand::Label(0),
        PlainOperand::Number(2),
        PlainOperand::X(0),
    ];
    is_printed(
        &rt,
        alloc,
        Opcode::GcBif2,
        &shapes,
        "{gc_bif2,{f,0},2,{x,0}}",
    )?;
    let shapes = [
        PlainOperand::Label(0),
        PlainOperand::Number(2),
        PlainOperand::Import,
    ];
    is_printed(&rt, alloc, Opcode::GcBif2, &shapes, "{gc_bif,f,{f,0},2,[]}")
}
