//! The forms of instructions, by their opcodes.

ghost use Rattle.std.specs.Prelude.{◌≡◌};
ghost use Rattle.beam_model.specs.ListingShapes.{shape_of};

use beam_genop::number;
use beam_model::opcode::Opcode;
use beam_model::shape::Shape;

/// How the instructions of an opcode are written.
pub fn shape_of(opcode: Opcode) -> Shape
    ensures { result ≡ shape_of opcode }
{
    match number(opcode) {
        9 => Shape::Bif0,
        10 | 11 => Shape::Bif,
        39..=58 | 77 | 114 | 156 | 159 => Shape::Test,
        108 => Shape::Raise,
        124 | 125 => Shape::GcBif,
        153 => Shape::Line,
        _ => Shape::Plain,
    }
}
