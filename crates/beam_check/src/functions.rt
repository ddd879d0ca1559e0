//! The functions of a listing, one after the other.
ghost use Rattle.std.specs.Prelude.{◌≡◌, ◌++◌, option_map, IfOk};
ghost use Rattle.beam_model.specs.Loadable.{atom_of_term, next_stage, at_start, after_first_label, after_func_info, within_body, after_body_label, informed_by, functions_of, functions_from, function_at, may_end};
ghost use Rattle.beam_check.specs.Stage.{shown};

use beam_model::function::Function;
use beam_model::instruction::{Instruction, Operand};
use beam_model::listing::Listing;
use beam_model::opcode::Opcode;
use beam_model::operand_value::{atom_in, number_in};
use beam_term::{Atom, TermError};
use std::alloc::{AllocError, Global};

/// The stage before an instruction: what stands in front of it.
#[derive(Clone, Copy)]
pub enum Stage<'a> {
    Start,
    FirstLabel,
    Informed(&'a Atom, u32),
    Body,
    BodyLabel,
}

fn informed_by<'a>(owner: &Atom, operands: &'a [Operand]) -> Option<Stage<'a>>
    ensures { option_map shown result ≡ informed_by owner.now operands.now }
{
    let [name, function, arity] = operands else {
        return None;
    };
    match (atom_in(name), atom_in(function), number_in(arity)) {
        (Some(name), Some(function), Some(arity)) if name == owner => {
            Some(Stage::Informed(function, arity))
        }
        _ => None,
    }
}

fn at_start<'a>(instruction: &'a Instruction) -> Option<Stage<'a>>
    ensures { option_map shown result ≡ at_start instruction.now }
{
    instruction.label()?;
    Some(Stage::FirstLabel)
}

fn after_first_label<'a>(owner: &Atom, instruction: &'a Instruction) -> Option<Stage<'a>>
    ensures { option_map shown result ≡ after_first_label owner.now instruction.now.opcode instruction.now.operands }
{
    match instruction.opcode {
        Opcode::Line => Some(Stage::FirstLabel),
        Opcode::FuncInfo => informed_by(owner, instruction.operands.as_slice()),
        _ => None,
    }
}

fn after_func_info<'a>(instruction: &'a Instruction) -> Option<Stage<'a>>
    ensures { option_map shown result ≡ after_func_info instruction.now }
{
    instruction.label()?;
    Some(Stage::Body)
}

fn within_body<'a>(instruction: &'a Instruction) -> Option<Stage<'a>>
    ensures { option_map shown result ≡ within_body instruction.now.opcode }
{
    match instruction.opcode {
        Opcode::Label => Some(Stage::BodyLabel),
        Opcode::FuncInfo | Opcode::IntCodeEnd => None,
        _ => Some(Stage::Body),
    }
}

fn after_body_label<'a>(owner: &Atom, instruction: &'a Instruction) -> Option<Stage<'a>>
    ensures { option_map shown result ≡ after_body_label owner.now instruction.now.opcode instruction.now.operands }
{
    match instruction.opcode {
        Opcode::Label | Opcode::Line => Some(Stage::BodyLabel),
        Opcode::FuncInfo => informed_by(owner, instruction.operands.as_slice()),
        Opcode::IntCodeEnd => None,
        _ => Some(Stage::Body),
    }
}

impl<'a> Stage<'a> {
    /// The stage after an instruction, if the instruction may stand here.
    fn next_stage(self, owner: &Atom, instruction: &'a Instruction) -> Option<Stage<'a>>
        ensures { option_map shown result ≡ next_stage owner.now (shown self.entry) instruction.now }
    {
        match self {
            Stage::Start => at_start(instruction),
            Stage::FirstLabel => after_first_label(owner, instruction),
            Stage::Informed(_, _) => after_func_info(instruction),
            Stage::Body => within_body(instruction),
            Stage::BodyLabel => after_body_label(owner, instruction),
        }
    }

    /// Whether the list may end here.
    fn may_end(self) -> bool
        ensures { result ≡ may_end (shown self.entry) }
    {
        match self {
            Stage::Start | Stage::Body | Stage::BodyLabel => true,
            Stage::FirstLabel | Stage::Informed(_, _) => false,
        }
    }

    /// Adds the function whose entry label the instruction is, if it is one at this stage.
    fn note(self, instruction: &Instruction, functions: &mut Vec<Function>) -> Result<(), TermError>
        ensures { IfOk result (λ _. functions.new.items ≡ functions.old.items ++ function_at (shown self.entry) instruction.now) }
    {
        if let Stage::Informed(name, arity) = self {
            functions.push(Function {
                name: name.try_share()?,
                arity,
                entry: instruction.label().unwrap_or(0),
            })?;
        }
        Ok(())
    }
}

/// The functions of a listing; None where its instructions aren't functions, one after another.
pub fn functions_of(alloc: Global, listing: &Listing) -> Result<Option<Vec<Function>>, TermError>
    ensures { IfOk result (λ o. option_map (λ v. v.items) o ≡ functions_of listing.now) }
{
    let mut functions = Vec::new(alloc);
    let mut stage = Stage::Start;
    let mut rest = listing.instructions.as_slice();
    while let Some((instruction, others)) = rest.split_first() {
        let Some(next) = stage.next_stage(&listing.module, instruction) else {
            return Ok(None);
        };
        stage.note(instruction, &mut functions)?;
        stage = next;
        rest = others;
    }
    if stage.may_end() {
        Ok(Some(functions))
    } else {
        Ok(None)
    }
}
