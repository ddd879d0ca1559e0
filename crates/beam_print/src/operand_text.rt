//! The texts of operands.

ghost use Rattle.std.specs.Prelude.{◌≡◌, ◌++◌, ◌∷◌, [], OnErr, OnOk};
ghost use Rattle.std.specs.Fmt.{decimal};
ghost use Rattle.beam_print.specs.Begun.{IsBegun, IsWrittenUpTo};
ghost use Rattle.beam_model.specs.ListingText.{argument_text, arguments_text, call_text, import_text, list_text, operand_text, operands_text, tagged, term_text};

use crate::blocks::write_block;
use crate::print_error::PrintError;
use beam_erltext::{TextError, print_atom, print_erl};
use beam_model::function::Import;
use beam_model::instruction::{Argument, Operand};
use beam_term::{Term, TermView};
use itoa::Buffer;
use std::io::Write;

pub fn print_number(number: u32, out: &mut Vec<u8>) -> Result<(), TextError>
    ensures { OnOk result (out.new.items ≡ out.old.items ++ decimal number) }
{
    out.extend_from_slice(Buffer::new().format(number).as_bytes())?;
    Ok(())
}

/// Appends a name with a number, in braces.
pub fn print_tagged(name: &[u8], number: u32, out: &mut Vec<u8>) -> Result<(), TextError>
    ensures { OnOk result (out.new.items ≡ out.old.items ++ tagged name.now (decimal number)) }
{
    out.extend_from_slice(b"{")?;
    out.extend_from_slice(name)?;
    out.extend_from_slice(b",")?;
    print_number(number, out)?;
    out.extend_from_slice(b"}")?;
    Ok(())
}

fn print_term(term: &Term, out: &mut Vec<u8>) -> Result<(), TextError>
    ensures { OnOk result (out.new.items ≡ out.old.items ++ term_text term.now) }
{
    match term.view() {
        TermView::Nil => {
            out.extend_from_slice(b"nil")?;
            return Ok(());
        }
        TermView::Integer(_) => out.extend_from_slice(b"{integer,")?,
        TermView::Atom(_) => out.extend_from_slice(b"{atom,")?,
        _ => out.extend_from_slice(b"{literal,")?,
    }
    print_erl(term, out)?;
    out.extend_from_slice(b"}")?;
    Ok(())
}

fn print_argument(argument: &Argument, out: &mut Vec<u8>) -> Result<(), TextError>
    ensures { OnOk result (out.new.items ≡ out.old.items ++ argument_text argument.now) }
{
    match argument {
        Argument::Term(term) => print_term(term, out),
        Argument::X(number) => print_tagged(b"x", *number, out),
        Argument::Y(number) => print_tagged(b"y", *number, out),
        Argument::Label(number) => print_tagged(b"f", *number, out),
        Argument::Number(number) => print_number(*number, out),
    }
}

fn print_member(separator: &[u8], member: &Argument, out: &mut Vec<u8>) -> Result<(), TextError>
    ensures { OnOk result (out.new.items ≡ out.old.items ++ separator.now ++ argument_text member.now) }
{
    out.extend_from_slice(separator)?;
    print_argument(member, out)
}

fn print_arguments(arguments: &[Argument], out: &mut Vec<u8>) -> Result<(), TextError>
    ensures { OnOk result (out.new.items ≡ out.old.items ++ arguments_text [] arguments.now) }
{
    let mut separator: &[u8] = &[];
    for argument in arguments {
        print_member(separator, argument, out)?;
        separator = b",";
    }
    Ok(())
}

#[tactic(auto, using(crate::proofs::Begun::not_begun))]
fn write_member<W: Write>(
    separator: &[u8],
    member: &Argument,
    waiting: &mut Vec<u8>,
    out: &mut W,
) -> Result<(), PrintError>
    ensures written { OnOk result (IsWrittenUpTo (W.contents out.old) (W.contents out.new)
        (waiting.old.items ++ (separator.now ++ argument_text member.now)) waiting.new.items) }
    ensures begun { OnErr result (IsBegun (W.contents out.old) (W.contents out.new)
        (waiting.old.items ++ (separator.now ++ argument_text member.now))) }
{
    print_member(separator, member, waiting)?;
    write_block(waiting, out)
}

/// Appends the members of a list to the waiting text, and writes that block by block.
pub fn write_members<W: Write>(
    members: &[Argument],
    waiting: &mut Vec<u8>,
    out: &mut W,
) -> Result<(), PrintError>
    ensures written { OnOk result (IsWrittenUpTo (W.contents out.old) (W.contents out.new)
        (waiting.old.items ++ arguments_text [] members.now) waiting.new.items) }
    ensures begun { OnErr result (IsBegun (W.contents out.old) (W.contents out.new)
        (waiting.old.items ++ arguments_text [] members.now)) }
{
    let mut separator: &[u8] = &[];
    for member in members {
        write_member(separator, member, waiting, out)?;
        separator = b",";
    }
    Ok(())
}

fn print_import(import: &Import, out: &mut Vec<u8>) -> Result<(), TextError>
    ensures { OnOk result (out.new.items ≡ out.old.items ++ import_text import.now) }
{
    out.extend_from_slice(b"{extfunc,")?;
    print_atom(import.module.as_str(), out)?;
    out.extend_from_slice(b",")?;
    print_atom(import.function.as_str(), out)?;
    out.extend_from_slice(b",")?;
    print_number(import.arity, out)?;
    out.extend_from_slice(b"}")?;
    Ok(())
}

fn print_list(arguments: &[Argument], out: &mut Vec<u8>) -> Result<(), TextError>
    ensures { OnOk result (out.new.items ≡ out.old.items ++ list_text arguments.now) }
{
    out.extend_from_slice(b"{list,[")?;
    print_arguments(arguments, out)?;
    out.extend_from_slice(b"]}")?;
    Ok(())
}

pub fn print_operand(operand: &Operand, out: &mut Vec<u8>) -> Result<(), TextError>
    ensures { OnOk result (out.new.items ≡ out.old.items ++ operand_text operand.now) }
{
    match operand {
        Operand::One(argument) => print_argument(argument, out),
        Operand::Import(import) => print_import(import, out),
        Operand::List(arguments) => print_list(arguments.as_slice(), out),
    }
}

/// Appends operands: `before` in front of the first, and commas between them. Nothing if there are none.
pub fn print_operands(
    before: &[u8],
    operands: &[Operand],
    out: &mut Vec<u8>,
) -> Result<(), TextError>
    ensures { OnOk result (out.new.items ≡ out.old.items ++ operands_text before.now operands.now) }
{
    let mut separator = before;
    for operand in operands {
        out.extend_from_slice(separator)?;
        print_operand(operand, out)?;
        separator = b",";
    }
    Ok(())
}

// Appends arguments in front of a closing bracket, and after it the last operand.
fn print_split(arguments: &[Operand], dest: &Operand, out: &mut Vec<u8>) -> Result<(), TextError>
    ensures { OnOk result (out.new.items ≡ out.old.items ++ call_text [] (arguments.now ++ dest.now ∷ [])) }
{
    print_operands(b"", arguments, out)?;
    out.extend_from_slice(b"],")?;
    print_operand(dest, out)
}

/// Appends arguments in front of a closing bracket, and after it the last operand.
pub fn print_call(operands: &[Operand], out: &mut Vec<u8>) -> Result<(), TextError>
    ensures { OnOk result (out.new.items ≡ out.old.items ++ call_text [] operands.now) }
{
    let Some((dest, arguments)) = operands.split_last() else {
        out.extend_from_slice(b"]")?;
        return Ok(());
    };
    print_split(arguments, dest, out)
}
