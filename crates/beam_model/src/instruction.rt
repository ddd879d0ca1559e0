//! An instruction as it is written: an opcode and its operands.

use crate::function::Import;
use crate::opcode::Opcode;
use beam_term::Term;
use std::alloc::{AllocError, Global};
use std::marker::Model;
use std::sync::Arc;

/// An operand that is no list and no import. Labels and registers stand by their numbers, terms as they are.
#[derive(Debug, Drop)]
pub enum Argument {
    Term(Term),
    X(u32),
    Y(u32),
    Label(u32),
    Number(u32),
}

/// The members of a list operand.
#[derive(Debug, Drop)]
pub struct Arguments {
    pub items: Vec<Argument>,
}

/// An operand. It names what it means, and is never an index into a table.
#[derive(Debug, Drop)]
pub enum Operand {
    One(Argument),
    Import(Import),
    List(Arguments),
}

/// The operands of an instruction: a part of a vector that several instructions may share.
#[derive(Debug, Drop)]
pub struct Operands {
    pool: Arc<Vec<Operand>>,
    from: u32,
    count: u32,
}

/// An instruction of a listing.
#[derive(Debug, Drop)]
pub struct Instruction {
    pub opcode: Opcode,
    pub operands: Operands,
}

impl Model for Arguments {
    ghost use Rattle.std.specs.Prelude.{List};
    ghost use Rattle.std.specs.Coded.{codes};
    ghost use Rattle.beam_term.specs.Coding.{term_code};
    ghost use Rattle.beam_model.specs.declared.instruction.Argument.{Argument};

    ghost Value = { List Argument };

    ghost coded = { Prim.hlevel (codes, term_code) };

    ghost view = { λ a. a.items.items };
}

impl Model for Operands {
    ghost use Rattle.std.specs.Prelude.{List, ◌+◌, ◌≤◌, length, take, drop};
    ghost use Rattle.std.specs.Arc.{arc_value};
    ghost use Rattle.std.specs.Coded.{codes};
    ghost use Rattle.beam_term.specs.Coding.{term_code};
    ghost use Rattle.beam_model.specs.declared.instruction.Operand.{Operand};

    ghost Value = { List Operand };

    ghost coded = { Prim.hlevel (codes, term_code) };

    ghost view = { λ o. take o.count (drop o.from (arc_value o.pool).items) };

    ghost invariant = { λ o. o.from + o.count ≤ length (arc_value o.pool).items };
}

impl Arguments {
    ghost use Rattle.std.specs.Prelude.{◌≡◌};

    pub fn as_slice(&self) -> &[Argument]
        ensures { result.now ≡ self.now }
    {
        &self.items
    }
}

impl Operands {
    ghost use Rattle.std.specs.Prelude.{◌≡◌, ◌+◌, ◌≤◌, IfOk, length, take, drop};
    ghost use Rattle.std.specs.Arc.{arc_value};

    /// These operands, by themselves.
    pub fn new(alloc: Global, items: Vec<Operand>) -> Result<Operands, AllocError>
        ensures { IfOk result (λ o. o ≡ items.items) }
    {
        let Ok(count) = u32::try_from(items.len()) else {
            return Err(AllocError);
        };
        Ok(Operands {
            pool: Arc::new(alloc, items)?,
            from: 0,
            count,
        })
    }

    /// `count` operands of a shared vector, from position `from` on. Fails only for memory.
    pub fn part(pool: &Arc<Vec<Operand>>, from: u32, count: u32) -> Result<Operands, AllocError>
        requires { from + count ≤ length (arc_value pool.now).items }
        ensures { IfOk result (λ o. o ≡ take count (drop from (arc_value pool.now).items)) }
    {
        Ok(Operands {
            pool: Arc::try_clone(pool)?,
            from,
            count,
        })
    }

    #[inline(always)]
    pub fn as_slice(&self) -> &[Operand]
        ensures { result.now ≡ self.now }
    {
        let from = self.from as usize;
        &self.pool[from..from + self.count as usize]
    }
}

impl Instruction {
    ghost use Rattle.std.specs.Prelude.{◌≡◌};
    ghost use Rattle.beam_model.specs.Listing.{label_of, is_row};

    /// The number of a label instruction.
    #[inline(always)]
    pub fn label(&self) -> Option<u32>
        ensures { result ≡ label_of self.now }
    {
        match (self.opcode, self.operands.as_slice()) {
            (Opcode::Label, [Operand::One(Argument::Number(number))]) => Some(*number),
            _ => None,
        }
    }

    /// Whether it is a row. Labels and lines are none.
    #[inline(always)]
    pub fn is_row(&self) -> bool
        ensures { result ≡ is_row self.now }
    {
        !matches!(self.opcode, Opcode::Label | Opcode::Line)
    }
}
