//! Instructions, by the shapes in which they are written.

ghost use Rattle.std.specs.Prelude.{◌≡◌, ◌++◌, ◌<◌, IfOk, OnOk};
ghost use Rattle.beam_model.specs.Opcodes.{opcode_of, opcode_named};
ghost use Rattle.beam_model.specs.ListingForms.{instruction_of_parts, is_plain_shape, is_test_shape, is_bif0_shape, is_bif_shape, is_gc_bif_shape, is_raise_shape, is_end, plain_of, test_of, raise_by, raise_of_text, counted, bif0_of, bif_by, is_raise_call, bif_of, gc_bif_of, line_instruction, instruction_by};
ghost use Rattle.beam_model.specs.ListingShapes.{shape_of};
ghost use Rattle.beam_listing.specs.Gives.{Gives};

use crate::miss::Miss;
use crate::operand::{label, operands};
use crate::part::FormPart;
use crate::value::{atom, list_parts, only};
use beam_genop::{by_name, by_number, kinds};
use beam_model::instruction::{Argument, Instruction, Operand, Operands};
use beam_model::opcode::Opcode;
use beam_model::shape::Shape;
use beam_print::shape::shape_of;
use std::alloc::{AllocError, Global};

// The instruction of an opcode that is written in its shape.
fn instruction_of_parts(
    alloc: Global,
    fits: bool,
    opcode: Opcode,
    parts: &[FormPart<'_>],
) -> Result<Instruction, Miss>
    ensures { Gives (λ i. i) result (instruction_of_parts fits opcode parts.now) }
{
    if !fits {
        return Err(Miss::Unknown);
    }
    let operands = operands(alloc, kinds(opcode), parts)?;
    Ok(Instruction { opcode, operands })
}

fn is_plain_shape(shape: Shape) -> bool
    ensures { result ≡ is_plain_shape shape }
{
    matches!(shape, Shape::Plain)
}

fn is_test_shape(shape: Shape) -> bool
    ensures { result ≡ is_test_shape shape }
{
    matches!(shape, Shape::Test)
}

fn is_bif0_shape(shape: Shape) -> bool
    ensures { result ≡ is_bif0_shape shape }
{
    matches!(shape, Shape::Bif0)
}

fn is_bif_shape(shape: Shape) -> bool
    ensures { result ≡ is_bif_shape shape }
{
    matches!(shape, Shape::Bif)
}

fn is_gc_bif_shape(shape: Shape) -> bool
    ensures { result ≡ is_gc_bif_shape shape }
{
    matches!(shape, Shape::GcBif)
}

fn is_raise_shape(shape: Shape) -> bool
    ensures { result ≡ is_raise_shape shape }
{
    matches!(shape, Shape::Raise)
}

fn is_end(opcode: Opcode) -> bool
    ensures { result ≡ is_end opcode }
{
    matches!(opcode, Opcode::IntCodeEnd)
}

// Appends these parts to others.
fn append<'a>(parts: &mut Vec<FormPart<'a>>, more: &[FormPart<'a>]) -> Result<(), AllocError>
    ensures { OnOk result (parts.new.items ≡ parts.old.items ++ more.now) }
{
    for part in more {
        parts.push(FormPart::new(part.text()))?;
    }
    Ok(())
}

// The parts of three lists, one after another.
fn joined<'a>(
    alloc: Global,
    front: &[FormPart<'a>],
    middle: &[FormPart<'a>],
    back: &[FormPart<'a>],
) -> Result<Vec<FormPart<'a>>, AllocError>
    ensures { IfOk result (λ v. v.items ≡ front.now ++ middle.now ++ back.now) }
{
    let mut parts = Vec::new(alloc);
    append(&mut parts, front)?;
    append(&mut parts, middle)?;
    append(&mut parts, back)?;
    Ok(parts)
}

fn named(name: &str) -> Result<Opcode, Miss>
    ensures { Gives (λ o. o) result (opcode_named name.now) }
{
    match by_name(name) {
        Some(opcode) => Ok(opcode),
        None => Err(Miss::Unknown),
    }
}

fn numbered(number: u8) -> Result<Opcode, Miss>
    ensures { Gives (λ o. o) result (opcode_of number) }
{
    match by_number(number) {
        Some(opcode) => Ok(opcode),
        None => Err(Miss::Unknown),
    }
}

// The opcode of a native with `count` arguments, where `first` is the opcode of a native with none. Unknown for 3 or more.
#[tactic(auto, unfolding(beam_model::specs::ListingForms::counted))]
fn counted(first: u8, count: usize) -> Result<Opcode, Miss>
    requires { first < 200 }
    ensures { Gives (λ o. o) result (counted first count) }
{
    if count >= 3 {
        return Err(Miss::Unknown);
    }
    numbered(first + count as u8)
}

/// The instruction of `{name,operands..}`, or of a name alone.
#[tactic(auto, unfolding(beam_model::specs::ListingForms::plain_of))]
pub fn plain(alloc: Global, name: &str, parts: &[FormPart<'_>]) -> Result<Instruction, Miss>
    ensures { Gives (λ i. i) result (plain_of name.now parts.now) }
{
    let opcode = named(name)?;
    if is_end(opcode) {
        return Err(Miss::Unknown);
    }
    instruction_of_parts(alloc, is_plain_shape(shape_of(opcode)), opcode, parts)
}

// `{test,name,F,[arguments]}`
#[tactic(auto, unfolding(beam_model::specs::ListingForms::test_of))]
fn test(alloc: Global, parts: &[FormPart<'_>]) -> Result<Instruction, Miss>
    ensures { Gives (λ i. i) result (test_of parts.now) }
{
    let [name, fail, arguments] = parts else {
        return Err(Miss::Unknown);
    };
    let name = atom(alloc, name.text())?;
    let opcode = named(name.as_str())?;
    let arguments = list_parts(alloc, arguments.text())?;
    let parts = joined(alloc, &[FormPart::new(fail.text())], &arguments, &[])?;
    instruction_of_parts(alloc, is_test_shape(shape_of(opcode)), opcode, &parts)
}

// The instruction raise of these operands.
#[tactic(auto, unfolding(beam_model::specs::ListingForms::raise_by))]
fn raise_by(alloc: Global, parts: &[FormPart<'_>]) -> Result<Instruction, Miss>
    ensures { Gives (λ i. i) result (raise_by parts.now) }
{
    let opcode = numbered(108)?;
    instruction_of_parts(alloc, is_raise_shape(shape_of(opcode)), opcode, parts)
}

// `{raise,[operands]}`
#[tactic(auto, unfolding(beam_model::specs::ListingForms::raise_of_text))]
fn raise(alloc: Global, list: &[u8]) -> Result<Instruction, Miss>
    ensures { Gives (λ i. i) result (raise_of_text list.now) }
{
    let parts = list_parts(alloc, list)?;
    raise_by(alloc, &parts)
}

// `{bif,Name,{f,0},[],D}`
#[tactic(auto, unfolding(beam_model::specs::ListingForms::bif0_of))]
fn bif0<'a>(alloc: Global, name: &'a [u8], fail: &[u8], dest: &'a [u8]) -> Result<Instruction, Miss>
    ensures { Gives (λ i. i) result (bif0_of name.now fail.now dest.now) }
{
    let label = label(alloc, fail)?;
    let opcode = numbered(9)?;
    let fits = label == 0 && is_bif0_shape(shape_of(opcode));
    instruction_of_parts(
        alloc,
        fits,
        opcode,
        &[FormPart::new(name), FormPart::new(dest)],
    )
}

// `{bif,Name,F,[arguments],D}`
#[tactic(auto, unfolding(beam_model::specs::ListingForms::bif_by))]
fn bif_by<'a>(
    alloc: Global,
    name: &'a [u8],
    fail: &'a [u8],
    arguments: &[FormPart<'a>],
    dest: &'a [u8],
) -> Result<Instruction, Miss>
    ensures { Gives (λ i. i) result (bif_by name.now fail.now arguments.now dest.now) }
{
    if arguments.is_empty() {
        return bif0(alloc, name, fail, dest);
    }
    let opcode = counted(9, arguments.len())?;
    let front = [FormPart::new(fail), FormPart::new(name)];
    let parts = joined(alloc, &front, arguments, &[FormPart::new(dest)])?;
    instruction_of_parts(alloc, is_bif_shape(shape_of(opcode)), opcode, &parts)
}

// Two arguments of the native raise.
fn is_raise_call(name: &str, parts: &[FormPart<'_>]) -> bool
    ensures { result ≡ is_raise_call name.now parts.now }
{
    parts.len() == 2 && name == "raise"
}

#[tactic(auto, unfolding(beam_model::specs::ListingForms::bif_of))]
fn bif(alloc: Global, parts: &[FormPart<'_>]) -> Result<Instruction, Miss>
    ensures { Gives (λ i. i) result (bif_of parts.now) }
{
    let [name, fail, arguments, dest] = parts else {
        return Err(Miss::Unknown);
    };
    let native = atom(alloc, name.text())?;
    let arguments = list_parts(alloc, arguments.text())?;
    if is_raise_call(native.as_str(), &arguments) {
        return raise_by(alloc, &arguments);
    }
    bif_by(alloc, name.text(), fail.text(), &arguments, dest.text())
}

// `{gc_bif,Name,F,Live,[arguments],D}`
#[tactic(auto, unfolding(beam_model::specs::ListingForms::gc_bif_of))]
fn gc_bif(alloc: Global, parts: &[FormPart<'_>]) -> Result<Instruction, Miss>
    ensures { Gives (λ i. i) result (gc_bif_of parts.now) }
{
    let [name, fail, live, arguments, dest] = parts else {
        return Err(Miss::Unknown);
    };
    let arguments = list_parts(alloc, arguments.text())?;
    let opcode = counted(123, arguments.len())?;
    let front = [
        FormPart::new(fail.text()),
        FormPart::new(live.text()),
        FormPart::new(name.text()),
    ];
    let parts = joined(alloc, &front, &arguments, &[FormPart::new(dest.text())])?;
    instruction_of_parts(alloc, is_gc_bif_shape(shape_of(opcode)), opcode, &parts)
}

// `{line,_}`
fn line(alloc: Global) -> Result<Instruction, AllocError>
    ensures { IfOk result (λ i. i ≡ line_instruction) }
{
    let mut items = Vec::new(alloc);
    items.push(Operand::One(Argument::Number(0)))?;
    Ok(Instruction {
        opcode: Opcode::Line,
        operands: Operands::new(alloc, items)?,
    })
}

/// The instruction of a form with this name and these parts after it.
#[tactic(auto, unfolding(beam_model::specs::ListingForms::instruction_by))]
pub fn instruction(alloc: Global, name: &str, parts: &[FormPart<'_>]) -> Result<Instruction, Miss>
    ensures { Gives (λ i. i) result (instruction_by name.now parts.now) }
{
    match name {
        "test" => test(alloc, parts),
        "bif" => bif(alloc, parts),
        "gc_bif" => gc_bif(alloc, parts),
        "raise" => raise(alloc, only(parts)?),
        "line" => {
            let _about = only(parts)?;
            Ok(line(alloc)?)
        }
        _ => plain(alloc, name, parts),
    }
}
