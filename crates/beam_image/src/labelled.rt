//! Instructions with the rows after their labels.
ghost use Rattle.std.specs.Prelude.{◌≡◌};
ghost use Rattle.beam_model.specs.Listing.{row_of_label};
ghost use Rattle.beam_shapes.specs.Tabled.{HasRows};

use beam_model::instruction::Instruction;
use beam_shapes::label_rows::LabelRows;
use std::marker::Model;

/// Instructions with the rows after their labels. Contracts see the instructions.
#[derive(Drop)]
pub struct Labelled<'a> {
    instructions: &'a [Instruction],
    rows: &'a LabelRows,
}

impl<'a> Model for Labelled<'a> {
    ghost use Rattle.std.specs.Prelude.{List};
    ghost use Rattle.std.specs.Coded.{codes};
    ghost use Rattle.beam_term.specs.Coding.{term_code};
    ghost use Rattle.beam_model.specs.declared.instruction.Instruction.{Instruction};
    ghost use Rattle.beam_shapes.specs.Tabled.{HasRows};

    ghost Value = { List Instruction };

    ghost coded = { Prim.hlevel (codes, term_code) };

    ghost view = { λ l. l.instructions.now };

    ghost invariant = { λ l. HasRows 0 l.instructions.now l.rows.now };
}

impl<'a> Labelled<'a> {
    /// These instructions, with these rows.
    pub fn new(instructions: &'a [Instruction], rows: &'a LabelRows) -> Labelled<'a>
        requires { HasRows 0 instructions.now rows.now }
        ensures { result ≡ instructions.now }
    {
        Labelled { instructions, rows }
    }

    /// The instructions.
    pub fn instructions(&self) -> &'a [Instruction]
        ensures { result.now ≡ self.now }
    {
        self.instructions
    }

    /// The first row after a label.
    pub fn row_of_label(&self, label: u32) -> Option<usize>
        ensures { result ≡ row_of_label label 0 self.now }
    {
        self.rows.row(label)
    }
}
