//! Where a row stands.
ghost use Rattle.std.specs.Prelude.{◌≡◌, ◌+◌, slice_get, take, option_and_then, option_map, None, IfOk};
ghost use Rattle.std.specs.Option.{option_copied};
ghost use Rattle.beam_model.specs.Listing.{is_row_by};
ghost use Rattle.beam_machine.specs.View.{function_from, function_of, last_function, last_label, location, location_in};
ghost use Rattle.beam_debug.specs.LabelOrRows.{IsOneRow, label_or_rows_at};
ghost use Rattle.beam_debug.specs.Seen.{location_seen};

use crate::label_or_rows::LabelOrRows;
use crate::view::Location;
use beam_code::Instr;
use beam_codesrv::CodeTable;
use beam_image::Image;
use beam_model::function::Import;
use beam_model::instruction::Instruction;
use beam_model::opcode::Opcode;
use beam_model::operand_value::{atom_in, number_in};
use beam_model::place::Place;
use beam_term::Atom;
use std::alloc::AllocError;

/// The instruction at a position; `None` after the last.
fn instruction(image: &Image, at: usize) -> Option<Instr<'_>>
    ensures { option_map (λ i. i.instruction) result ≡ slice_get image.now.instructions at }
{
    if at < image.code().len() {
        Some(image.fetch(Place::new(0, at)))
    } else {
        None
    }
}

/// The function that the operands of a function's head name.
fn function_from(
    module: Option<&Atom>,
    function: Option<&Atom>,
    arity: Option<u32>,
) -> Result<Option<Import>, AllocError>
    ensures { IfOk result (λ f. f ≡ function_from (option_copied «module».entry) (option_copied function.entry) arity) }
{
    match (module, function, arity) {
        (Some(module), Some(function), Some(arity)) => Ok(Some(Import {
            module: module.clone()?,
            function: function.clone()?,
            arity,
        })),
        _ => Ok(None),
    }
}

/// The function whose head an instruction is.
fn function_of(instruction: &Instruction) -> Result<Option<Import>, AllocError>
    ensures { IfOk result (λ f. f ≡ function_of instruction.now) }
{
    match (instruction.opcode, instruction.operands.as_slice()) {
        (Opcode::FuncInfo, [module, function, arity]) => {
            function_from(atom_in(module), atom_in(function), number_in(arity))
        }
        _ => Ok(None),
    }
}

/// The function whose head an instruction is. Only a head is read, which takes memory.
fn head_function(instruction: Instr<'_>) -> Result<Option<Import>, AllocError>
    ensures { IfOk result (λ f. f ≡ function_of instruction.entry.instruction) }
{
    match instruction.opcode() {
        Opcode::FuncInfo => {
            let head = instruction.read()?;
            function_of(&head)
        }
        _ => Ok(None),
    }
}

/// The function whose head is at a position.
fn function_at(image: &Image, at: usize) -> Result<Option<Import>, AllocError>
    ensures { IfOk result (λ f. f ≡ option_and_then function_of (slice_get image.now.instructions at)) }
{
    match instruction(image, at) {
        Some(instruction) => head_function(instruction),
        None => Ok(None),
    }
}

/// The function whose head is the last one at a position or before it, in time linear in the rows after that head.
fn last_function(image: &Image, at: usize) -> Result<Option<Import>, AllocError>
    ensures { IfOk result (λ f. f ≡ last_function None (take (at + 1) image.now.instructions)) }
{
    let mut left = at;
    loop {
        let found = function_at(image, left)?;
        if found.is_some() {
            return Ok(found);
        }
        if left == 0 {
            return Ok(None);
        }
        left -= 1;
    }
}

/// Whether an instruction of that opcode is a row.
fn is_row(opcode: Opcode) -> bool
    ensures { result ≡ is_row_by opcode }
{
    !matches!(opcode, Opcode::Label | Opcode::Line)
}

/// How the instruction at a position counts in the search for the last label.
fn label_or_rows(image: &Image, at: usize) -> LabelOrRows
    ensures value { result ≡ label_or_rows_at (slice_get image.now.instructions at) }
    ensures one { IsOneRow result }
{
    match instruction(image, at) {
        Some(instruction) => match instruction.label() {
            Some(label) => LabelOrRows::Label(label),
            None if is_row(instruction.opcode()) => LabelOrRows::Rows(1),
            None => LabelOrRows::Rows(0),
        },
        None => LabelOrRows::Rows(0),
    }
}

/// The last label before a position, or 0, and how many rows are between the two, in time linear in that number.
fn last_label(image: &Image, at: usize) -> (u32, usize)
    ensures { record { label = result.0; rows = result.1 } ≡ last_label (record { label = 0; rows = 0 }) (take at image.now.instructions) }
{
    let mut rows = 0;
    let mut left = at;
    while left > 0 {
        left -= 1;
        match label_or_rows(image, left) {
            LabelOrRows::Label(label) => return (label, rows),
            LabelOrRows::Rows(more) => rows += more,
        }
    }
    (0, rows)
}

/// Where a row of an image stands: at this place, of whose number nothing is read but what is told. It takes time linear in the row's function,
/// and memory for the function's name alone.
pub fn location_in(image: &Image, place: Place) -> Result<Location, AllocError>
    ensures { IfOk result (λ s. location_seen s ≡ location_in place image.now.instructions) }
{
    let (label, rows) = last_label(image, place.at());
    Ok(Location {
        function: last_function(image, place.at())?,
        label,
        rows,
        instance: place.instance(),
    })
}

/// Where a row stands, in time linear in its function.
pub(crate) fn location(table: &CodeTable, place: Place) -> Result<Location, AllocError>
    ensures { IfOk result (λ s. location_seen s ≡ location table.now place) }
{
    match table.image_of(place.instance()) {
        Some(image) => location_in(image, place),
        None => Ok(Location {
            function: None,
            label: 0,
            rows: 0,
            instance: place.instance(),
        }),
    }
}
