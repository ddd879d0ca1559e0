//! The texts of instructions.

ghost use Rattle.std.specs.Prelude.{◌≡◌, ◌++◌, ◌∷◌, [], OnErr, OnOk, codes};
ghost use Rattle.beam_print.specs.Begun.{IsBegun, IsWrittenUpTo};
ghost use Rattle.beam_model.specs.ListingText.{bif0_text, bif_text, gc_bif_text, instruction_text, line_text, native_text, operands_text, plain_text, raise_text, shape_text, test_text};
ghost use Rattle.beam_model.specs.Text.{atom_text};

use crate::blocks::write_block;
use crate::operand_text::{print_call, print_operand, print_operands, write_members};
use crate::print_error::PrintError;
use crate::shape::shape_of;
use beam_erltext::{TextError, print_atom};
use beam_genop::name;
use beam_model::function::Import;
use beam_model::instruction::{Argument, Instruction, Operand};
use beam_model::shape::Shape;
use std::io::Write;

fn print_plain(name: &str, operands: &[Operand], out: &mut Vec<u8>) -> Result<(), TextError>
    ensures { OnOk result (out.new.items ≡ out.old.items ++ plain_text (atom_text name.now) operands.now) }
{
    if operands.is_empty() {
        return print_atom(name, out);
    }
    out.extend_from_slice(b"{")?;
    print_atom(name, out)?;
    print_operands(b",", operands, out)?;
    out.extend_from_slice(b"}")?;
    Ok(())
}

fn print_test(name: &str, operands: &[Operand], out: &mut Vec<u8>) -> Result<(), TextError>
    ensures { OnOk result (out.new.items ≡ out.old.items ++ test_text (atom_text name.now) operands.now) }
{
    let Some((label, arguments)) = operands.split_first() else {
        return print_plain(name, operands, out);
    };
    out.extend_from_slice(b"{test,")?;
    print_atom(name, out)?;
    out.extend_from_slice(b",")?;
    print_operand(label, out)?;
    out.extend_from_slice(b",[")?;
    print_operands(b"", arguments, out)?;
    out.extend_from_slice(b"]}")?;
    Ok(())
}

fn print_bif0(name: &str, operands: &[Operand], out: &mut Vec<u8>) -> Result<(), TextError>
    ensures { OnOk result (out.new.items ≡ out.old.items ++ bif0_text (atom_text name.now) operands.now) }
{
    let [Operand::Import(native), rest @ ..] = operands else {
        return print_plain(name, operands, out);
    };
    out.extend_from_slice(b"{bif,")?;
    print_atom(native.function.as_str(), out)?;
    out.extend_from_slice(b",{f,0},[")?;
    print_call(rest, out)?;
    out.extend_from_slice(b"}")?;
    Ok(())
}

// Appends a native and its fail label.
fn print_native(
    before: &[u8],
    native: &Import,
    label: &Operand,
    out: &mut Vec<u8>,
) -> Result<(), TextError>
    ensures { OnOk result (out.new.items ≡ out.old.items ++ native_text before.now native.now label.now) }
{
    out.extend_from_slice(before)?;
    print_atom(native.function.as_str(), out)?;
    out.extend_from_slice(b",")?;
    print_operand(label, out)
}

fn print_bif(name: &str, operands: &[Operand], out: &mut Vec<u8>) -> Result<(), TextError>
    ensures { OnOk result (out.new.items ≡ out.old.items ++ bif_text (atom_text name.now) operands.now) }
{
    let [label, Operand::Import(native), rest @ ..] = operands else {
        return print_plain(name, operands, out);
    };
    print_native(b"{bif,", native, label, out)?;
    out.extend_from_slice(b",[")?;
    print_call(rest, out)?;
    out.extend_from_slice(b"}")?;
    Ok(())
}

fn print_gc_bif(name: &str, operands: &[Operand], out: &mut Vec<u8>) -> Result<(), TextError>
    ensures { OnOk result (out.new.items ≡ out.old.items ++ gc_bif_text (atom_text name.now) operands.now) }
{
    let [label, live, Operand::Import(native), rest @ ..] = operands else {
        return print_plain(name, operands, out);
    };
    print_native(b"{gc_bif,", native, label, out)?;
    out.extend_from_slice(b",")?;
    print_operand(live, out)?;
    out.extend_from_slice(b",[")?;
    print_call(rest, out)?;
    out.extend_from_slice(b"}")?;
    Ok(())
}

fn print_raise(operands: &[Operand], out: &mut Vec<u8>) -> Result<(), TextError>
    ensures { OnOk result (out.new.items ≡ out.old.items ++ raise_text operands.now) }
{
    out.extend_from_slice(b"{raise,[")?;
    print_operands(b"", operands, out)?;
    out.extend_from_slice(b"]}")?;
    Ok(())
}

fn print_line(out: &mut Vec<u8>) -> Result<(), TextError>
    ensures { OnOk result (out.new.items ≡ out.old.items ++ line_text) }
{
    out.extend_from_slice(b"{line,[]}")?;
    Ok(())
}

fn print_shape(
    shape: Shape,
    name: &str,
    operands: &[Operand],
    out: &mut Vec<u8>,
) -> Result<(), TextError>
    ensures { OnOk result (out.new.items ≡ out.old.items ++ shape_text shape (atom_text name.now) operands.now) }
{
    match shape {
        Shape::Plain => print_plain(name, operands, out),
        Shape::Line => print_line(out),
        Shape::Test => print_test(name, operands, out),
        Shape::Bif0 => print_bif0(name, operands, out),
        Shape::Bif => print_bif(name, operands, out),
        Shape::GcBif => print_gc_bif(name, operands, out),
        Shape::Raise => print_raise(operands, out),
    }
}

/// Appends the text of an instruction. Where memory is refused, a part of it may stand there.
pub fn append_instruction(instruction: &Instruction, out: &mut Vec<u8>) -> Result<(), TextError>
    ensures { OnOk result (out.new.items ≡ out.old.items ++ instruction_text instruction.now) }
{
    let opcode = instruction.opcode;
    print_shape(
        shape_of(opcode),
        name(opcode),
        instruction.operands.as_slice(),
        out,
    )
}

// Prints a name and the operands before a list, up to the list's members.
fn print_before_members(
    name: &str,
    operands: &[Operand],
    out: &mut Vec<u8>,
) -> Result<(), TextError>
    ensures { OnOk result (out.new.items ≡ out.old.items ++ (codes "{" ++ atom_text name.now ++ operands_text (codes ",") operands.now ++ codes ",{list,[")) }
{
    out.extend_from_slice(b"{")?;
    print_atom(name, out)?;
    print_operands(b",", operands, out)?;
    out.extend_from_slice(b",{list,[")?;
    Ok(())
}

// Writes an instruction whose last operand is a list.
fn write_listed<W: Write>(
    name: &str,
    operands: &[Operand],
    members: &[Argument],
    waiting: &mut Vec<u8>,
    out: &mut W,
) -> Result<(), PrintError>
    ensures written { OnOk result (IsWrittenUpTo (W.contents out.old) (W.contents out.new)
        (waiting.old.items ++ plain_text (atom_text name.now) (operands.now ++ Operand.List members.now ∷ [])) waiting.new.items) }
    ensures begun { OnErr result (IsBegun (W.contents out.old) (W.contents out.new)
        (waiting.old.items ++ plain_text (atom_text name.now) (operands.now ++ Operand.List members.now ∷ []))) }
{
    print_before_members(name, operands, waiting)?;
    write_members(members, waiting, out)?;
    waiting.extend_from_slice(b"]}}")?;
    Ok(())
}

/// Appends the text of an instruction to the waiting text, and writes that block by block. A list, which is always the last
/// operand, is written member by member, since its text can be far longer than the file.
#[tactic(auto, using(crate::proofs::Begun::not_begun))]
pub fn write_instruction<W: Write>(
    instruction: &Instruction,
    waiting: &mut Vec<u8>,
    out: &mut W,
) -> Result<(), PrintError>
    ensures written { OnOk result (IsWrittenUpTo (W.contents out.old) (W.contents out.new)
        (waiting.old.items ++ instruction_text instruction.now) waiting.new.items) }
    ensures begun { OnErr result (IsBegun (W.contents out.old) (W.contents out.new)
        (waiting.old.items ++ instruction_text instruction.now)) }
{
    let opcode = instruction.opcode;
    let operands = instruction.operands.as_slice();
    match (shape_of(opcode), operands.split_last()) {
        (Shape::Plain, Some((Operand::List(members), others))) => {
            write_listed(name(opcode), others, members.as_slice(), waiting, out)
        }
        _ => {
            append_instruction(instruction, waiting)?;
            write_block(waiting, out)
        }
    }
}
