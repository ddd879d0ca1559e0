//! Mismatches: what a row needs of the newest frame, and what the frame has instead.
ghost use Rattle.beam_shapes.specs.Shown.{IsShape};

use crate::named::{OperandRole, named};
use crate::row::{Effect, effect_of, tag};
use crate::shape::Shape;
use crate::trees::Trees;
use beam_model::instruction::Instruction;
use std::alloc::{AllocError, Global};

/// What a row needs of the newest frame.
#[derive(Clone, Copy)]
pub enum Expected {
    /// A value in the y register of this number.
    Value(u32),
    /// A y register of this number.
    Register(u32),
    /// A y register for its catch tag.
    TagRegister,
    /// No y registers.
    NoRegisters,
    /// Exactly this number of y registers.
    Registers(u32),
    /// The same frame as at the row to which it goes.
    SameFrame,
}

/// What the newest frame has instead.
#[derive(Clone, Copy)]
pub enum Actual {
    /// No y registers.
    NoRegisters,
    /// This number of y registers.
    Registers(u32),
    /// A catch tag in the y register that the row needs.
    Tag,
    /// Different frames on different paths to the row.
    Others,
}

/// What a row needs, and what the newest frame has instead.
#[derive(Clone, Copy)]
pub struct Mismatch {
    pub expected: Expected,
    pub actual: Actual,
}

/// The frame of a shape.
fn frame_of(shape: Shape) -> Actual {
    match shape {
        Shape::Bare => Actual::NoRegisters,
        Shape::Sized(registers) => Actual::Registers(registers.size()),
        Shape::Any => Actual::Others,
    }
}

/// The first of these registers that has no value.
fn first_without_value(trees: &Trees, shape: Shape, numbers: &[u32]) -> Option<u32>
    requires { IsShape trees.now shape }
{
    for number in numbers {
        if !shape.is_value(trees, *number) {
            return Some(*number);
        }
    }
    None
}

/// The first of these registers that isn't there.
fn first_absent(trees: &Trees, shape: Shape, numbers: &[u32]) -> Option<u32>
    requires { IsShape trees.now shape }
{
    for number in numbers {
        if !shape.is_there(trees, *number) {
            return Some(*number);
        }
    }
    None
}

/// The frame that a row needs, if it needs a certain one and the shape is another.
fn frame_expected(effect: Effect, shape: Shape) -> Option<Expected> {
    match (effect, shape) {
        (Effect::WantsBare | Effect::Allocates(_), Shape::Bare) => None,
        (Effect::WantsBare | Effect::Allocates(_), _) => Some(Expected::NoRegisters),
        (Effect::Drops(count), Shape::Sized(registers)) if registers.size() == count => None,
        (Effect::Drops(count), _) => Some(Expected::Registers(count)),
        (Effect::Trims(first, rest), shape) => trim_expected(first.saturating_add(rest), shape),
        (Effect::Keeps, _) => None,
    }
}

/// How many y registers a trim needs, if the shape has another number.
fn trim_expected(count: u32, shape: Shape) -> Option<Expected> {
    match shape {
        Shape::Sized(registers) if registers.size() == count => None,
        _ => Some(Expected::Registers(count)),
    }
}

/// The mismatch of a row with a frame of this shape. None where it finds its registers and the frame that it needs.
pub(crate) fn mismatch_of(
    alloc: Global,
    trees: &Trees,
    instruction: &Instruction,
    shape: Shape,
) -> Result<Option<Mismatch>, AllocError>
    requires { IsShape trees.now shape }
{
    let reads = named(alloc, OperandRole::Reads, instruction)?;
    let writes = named(alloc, OperandRole::Writes, instruction)?;
    let frame = frame_of(shape);
    if let Some(number) = first_without_value(trees, shape, &reads) {
        let actual = if shape.is_there(trees, number) {
            Actual::Tag
        } else {
            frame
        };
        return Ok(Some(Mismatch {
            expected: Expected::Value(number),
            actual,
        }));
    }
    let expected = match first_absent(trees, shape, &writes) {
        Some(number) => Some(Expected::Register(number)),
        None if tag(instruction).is_some() && writes.is_empty() => Some(Expected::TagRegister),
        None => frame_expected(effect_of(instruction), shape),
    };
    Ok(expected.map(|expected| Mismatch {
        expected,
        actual: frame,
    }))
}
