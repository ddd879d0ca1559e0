//! The texts of listings.

ghost use Rattle.std.specs.Prelude.{◌≡◌, ◌++◌, [], option_map, OnErr, OnOk};
ghost use Rattle.beam_model.specs.ListingText.{before_text, after_leading_lines, front_label_or_zero, export_text, exports_line, exports_text, function_line, function_line_at, informed_text, instruction_text, instructions_text, labels_lines, listing_text, module_line, stop};
ghost use Rattle.beam_print.specs.Begun.{IsBegun, IsWrittenUpTo};

use crate::blocks::write_block;
use crate::instruction_text::write_instruction;
use crate::operand_text::{print_number, print_tagged};
use crate::print_error::PrintError;
use beam_erltext::{TextError, print_atom};
use beam_model::function::Export;
use beam_model::instruction::{Instruction, Operand};
use beam_model::listing::Listing;
use beam_model::opcode::Opcode;
use beam_model::operand_value::{atom_in, number_in};
use beam_term::Atom;
use std::io::Write;

// ---- functions

fn after_leading_lines(instructions: &[Instruction]) -> &[Instruction]
    ensures { result.now ≡ after_leading_lines instructions.now }
{
    let mut rest = instructions;
    while let Some((first, others)) = rest.split_first() {
        if !matches!(first.opcode, Opcode::Line) {
            return rest;
        }
        rest = others;
    }
    rest
}

fn front_label_or_zero(instructions: &[Instruction]) -> u32
    ensures { result ≡ front_label_or_zero instructions.now }
{
    match instructions {
        [first, ..] => first.label().unwrap_or(0),
        [] => 0,
    }
}

fn print_function(name: &Atom, arity: u32, entry: u32, out: &mut Vec<u8>) -> Result<(), TextError>
    ensures { OnOk result (out.new.items ≡ out.old.items ++ function_line name.now arity entry) }
{
    out.extend_from_slice(b"{function,")?;
    print_atom(name.as_str(), out)?;
    out.extend_from_slice(b",")?;
    print_number(arity, out)?;
    out.extend_from_slice(b",")?;
    print_number(entry, out)?;
    out.extend_from_slice(b"}.\n")?;
    Ok(())
}

fn print_informed(operands: &[Operand], entry: u32, out: &mut Vec<u8>) -> Result<(), TextError>
    ensures { OnOk result (out.new.items ≡ out.old.items ++ informed_text operands.now entry) }
{
    let [_, function, arity] = operands else {
        return Ok(());
    };
    match (atom_in(function), number_in(arity)) {
        (Some(name), Some(arity)) => print_function(name, arity, entry, out),
        _ => Ok(()),
    }
}

// The line of a function whose func_info stands in front.
fn print_head(instructions: &[Instruction], out: &mut Vec<u8>) -> Result<(), TextError>
    ensures { OnOk result (out.new.items ≡ out.old.items ++ function_line_at instructions.now) }
{
    match instructions {
        [first, rest @ ..] if matches!(first.opcode, Opcode::FuncInfo) => {
            print_informed(first.operands.as_slice(), front_label_or_zero(rest), out)
        }
        _ => Ok(()),
    }
}

fn print_before(
    first: &Instruction,
    rest: &[Instruction],
    out: &mut Vec<u8>,
) -> Result<(), TextError>
    ensures { OnOk result (out.new.items ≡ out.old.items ++ before_text first.now rest.now) }
{
    match first.label() {
        Some(_) => print_head(after_leading_lines(rest), out),
        None => Ok(()),
    }
}

// ---- listings

// Writes an instruction, with the line of a function that it begins.
fn write_line<W: Write>(
    first: &Instruction,
    rest: &[Instruction],
    waiting: &mut Vec<u8>,
    out: &mut W,
) -> Result<(), PrintError>
    ensures written { OnOk result (IsWrittenUpTo (W.contents out.old) (W.contents out.new)
        (waiting.old.items ++ (before_text first.now rest.now ++ instruction_text first.now ++ stop)) waiting.new.items) }
    ensures begun { OnErr result (IsBegun (W.contents out.old) (W.contents out.new)
        (waiting.old.items ++ (before_text first.now rest.now ++ instruction_text first.now ++ stop))) }
{
    print_before(first, rest, waiting)?;
    write_instruction(first, waiting, out)?;
    waiting.extend_from_slice(b".\n")?;
    Ok(())
}

fn write_instructions<W: Write>(
    instructions: &[Instruction],
    waiting: &mut Vec<u8>,
    out: &mut W,
) -> Result<(), PrintError>
    ensures written { OnOk result (IsWrittenUpTo (W.contents out.old) (W.contents out.new)
        (waiting.old.items ++ instructions_text instructions.now) waiting.new.items) }
    ensures begun { OnErr result (IsBegun (W.contents out.old) (W.contents out.new)
        (waiting.old.items ++ instructions_text instructions.now)) }
{
    let mut left = instructions;
    while let Some((first, others)) = left.split_first() {
        write_line(first, others, waiting, out)?;
        left = others;
    }
    Ok(())
}

fn print_export(export: &Export, out: &mut Vec<u8>) -> Result<(), TextError>
    ensures { OnOk result (out.new.items ≡ out.old.items ++ export_text export.now) }
{
    out.extend_from_slice(b"{")?;
    print_atom(export.name.as_str(), out)?;
    out.extend_from_slice(b",")?;
    print_number(export.arity, out)?;
    out.extend_from_slice(b"}")?;
    Ok(())
}

#[tactic(auto, using(crate::proofs::Begun::not_begun))]
fn write_export<W: Write>(
    separator: &[u8],
    export: &Export,
    waiting: &mut Vec<u8>,
    out: &mut W,
) -> Result<(), PrintError>
    ensures written { OnOk result (IsWrittenUpTo (W.contents out.old) (W.contents out.new)
        (waiting.old.items ++ (separator.now ++ export_text export.now)) waiting.new.items) }
    ensures begun { OnErr result (IsBegun (W.contents out.old) (W.contents out.new)
        (waiting.old.items ++ (separator.now ++ export_text export.now))) }
{
    waiting.extend_from_slice(separator)?;
    print_export(export, waiting)?;
    write_block(waiting, out)
}

fn write_exports<W: Write>(
    exports: &[Export],
    waiting: &mut Vec<u8>,
    out: &mut W,
) -> Result<(), PrintError>
    ensures written { OnOk result (IsWrittenUpTo (W.contents out.old) (W.contents out.new)
        (waiting.old.items ++ exports_text [] exports.now) waiting.new.items) }
    ensures begun { OnErr result (IsBegun (W.contents out.old) (W.contents out.new)
        (waiting.old.items ++ exports_text [] exports.now)) }
{
    let mut separator: &[u8] = &[];
    for export in exports {
        write_export(separator, export, waiting, out)?;
        separator = b",";
    }
    Ok(())
}

fn print_module(name: &Atom, out: &mut Vec<u8>) -> Result<(), TextError>
    ensures { OnOk result (out.new.items ≡ out.old.items ++ module_line name.now) }
{
    out.extend_from_slice(b"{module,")?;
    print_atom(name.as_str(), out)?;
    out.extend_from_slice(b"}.\n")?;
    Ok(())
}

fn write_exports_line<W: Write>(
    exports: &[Export],
    waiting: &mut Vec<u8>,
    out: &mut W,
) -> Result<(), PrintError>
    ensures written { OnOk result (IsWrittenUpTo (W.contents out.old) (W.contents out.new)
        (waiting.old.items ++ exports_line exports.now) waiting.new.items) }
    ensures begun { OnErr result (IsBegun (W.contents out.old) (W.contents out.new)
        (waiting.old.items ++ exports_line exports.now)) }
{
    waiting.extend_from_slice(b"{exports,[")?;
    write_exports(exports, waiting, out)?;
    waiting.extend_from_slice(b"]}.\n")?;
    Ok(())
}

fn print_labels(count: u32, out: &mut Vec<u8>) -> Result<(), TextError>
    ensures { OnOk result (out.new.items ≡ out.old.items ++ labels_lines count) }
{
    out.extend_from_slice(b"{attributes,[]}.\n")?;
    print_tagged(b"labels", count, out)?;
    out.extend_from_slice(b".\n")?;
    Ok(())
}

/// Appends the text of a listing to the waiting text, and writes that block by block.
#[tactic(auto, unfolding(beam_model::specs::ListingText::listing_text))]
pub fn write_forms<W: Write>(
    listing: &Listing,
    waiting: &mut Vec<u8>,
    out: &mut W,
) -> Result<(), PrintError>
    ensures written { OnOk result (IsWrittenUpTo (W.contents out.old) (W.contents out.new)
        (waiting.old.items ++ listing_text listing.now) waiting.new.items) }
    ensures begun { OnErr result (IsBegun (W.contents out.old) (W.contents out.new)
        (waiting.old.items ++ listing_text listing.now)) }
{
    print_module(&listing.module, waiting)?;
    write_exports_line(&listing.exports, waiting, out)?;
    print_labels(listing.label_count, waiting)?;
    write_instructions(&listing.instructions, waiting, out)
}
