//! A listing: the content of a file, by names and labels.

use crate::function::Export;
use crate::instruction::Instruction;
use beam_term::Atom;
use std::marker::Model;

/// A module's listing. `int_code_end` isn't among the instructions.
#[derive(Debug, Drop)]
pub struct Listing {
    pub module: Atom,
    pub exports: Vec<Export>,
    /// The greatest label plus 1.
    pub label_count: u32,
    pub function_count: u32,
    pub instructions: Vec<Instruction>,
}

impl Model for Listing {
    ghost use Rattle.std.specs.Coded.{codes};
    ghost use Rattle.beam_term.specs.Coding.{term_code};
    ghost use Rattle.beam_model.specs.Listing.{Listing as TheListing};

    ghost Value = { TheListing };

    ghost coded = { Prim.hlevel (codes, term_code) };

    ghost view = { λ l. record { name = l.module; exports = l.exports.items; label_count = l.label_count; function_count = l.function_count; instructions = l.instructions.items } };
}
