//! Instructions, with the rows to which their labels lead.
ghost use Rattle.std.specs.Prelude.{◌≡◌, ◌<◌, ◌≤◌, length, is_some, count_by, IfOk, IfSome};
ghost use Rattle.beam_model.specs.Listing.{label_of, row_of_label, next_row};
ghost use Rattle.beam_model.specs.Framed.{row_at};

use crate::label_rows::LabelRows;
use crate::row::tag;
use beam_model::instruction::{Instruction, Operands};
use beam_model::opcode::Opcode;
use std::alloc::{AllocError, Global};
use std::marker::Model;

/// Instructions, with the rows to which their labels lead.
pub struct LabelledCode<'a> {
    instructions: &'a [Instruction],
    rows: LabelRows,
    end: Instruction,
}

impl<'a> Drop for LabelledCode<'a> {
    fn drop(self) {
        let LabelledCode {
            instructions: _instructions,
            rows: _rows,
            end: _end,
        } = self;
    }
}

impl<'a> Model for LabelledCode<'a> {
    ghost use Rattle.std.specs.Prelude.{◌≡◌, List};
    ghost use Rattle.std.specs.Coded.{codes};
    ghost use Rattle.beam_term.specs.Coding.{term_code};
    ghost use Rattle.beam_model.specs.declared.instruction.Instruction.{Instruction};
    ghost use Rattle.beam_model.specs.Fetch.{end_of_code};
    ghost use Rattle.beam_shapes.specs.Tabled.{HasRows};

    ghost Value = { List Instruction };

    ghost coded = { Prim.hlevel (codes, term_code) };

    ghost view = { λ c. c.instructions.now };

    ghost invariant = { λ c. HasRows 0 c.instructions.now c.rows × (c.end ≡ end_of_code) };
}

/// How many of these instructions are labels.
fn count_of_labels(instructions: &[Instruction]) -> usize
    ensures { result ≡ count_by (λ i. is_some (label_of i)) instructions.now }
{
    instructions
        .iter()
        .filter(|instruction| instruction.label().is_some())
        .count()
}

impl<'a> LabelledCode<'a> {
    pub fn new(
        alloc: Global,
        instructions: &'a [Instruction],
    ) -> Result<LabelledCode<'a>, AllocError>
        ensures { IfOk result (λ code. code ≡ instructions.now) }
    {
        let size = count_of_labels(instructions) + 1;
        let rows = LabelRows::of(alloc, instructions, size)?;
        let end = Instruction {
            opcode: Opcode::IntCodeEnd,
            operands: Operands::new(alloc, Vec::new(alloc))?,
        };
        Ok(LabelledCode {
            instructions,
            rows,
            end,
        })
    }

    pub fn instructions(&self) -> &'a [Instruction]
        ensures { result.now ≡ self.now }
    {
        self.instructions
    }

    /// How many rows write a catch tag.
    pub fn tags(&self) -> usize {
        self.instructions
            .iter()
            .filter(|instruction| tag(instruction).is_some())
            .count()
    }

    /// The position of the row to which a label leads.
    pub fn row_of(&self, label: u32) -> Option<usize>
        ensures row { result ≡ row_of_label label 0 self.now }
        ensures within { IfSome result (λ row. row ≤ length self.now) }
    {
        self.rows.row(label)
    }

    /// The instruction at a position, and `int_code_end` after the last.
    pub fn row_at(&self, at: usize) -> &Instruction
        ensures { result.now ≡ row_at self.now at }
    {
        match self.instructions.get(at) {
            Some(instruction) => instruction,
            None => &self.end,
        }
    }

    /// The position of the first row after an instruction.
    pub fn next_row(&self, at: usize) -> usize
        requires { at < length self.now }
        ensures row { result ≡ next_row at self.now }
        ensures within { result ≤ length self.now }
    {
        let end = self.instructions.len();
        let mut next = at + 1;
        while next < end && !self.instructions[next].is_row() {
            next += 1;
        }
        next
    }
}
