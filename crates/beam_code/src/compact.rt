//! Operands as a file spells them, with the numbers of their atoms, imports and literals.

ghost use Rattle.std.specs.Prelude.{◌≡◌, IfOk};
ghost use Rattle.beam_model.specs.Assembly.{compact_term, compact_argument, compact_arguments, compact_of};

use crate::numbering::Numbering;
use beam_model::compact::{Compact, CompactList, CompactOperand};
use beam_model::instruction::{Argument, Operand};
use beam_term::{Term, TermView};
use std::alloc::{AllocError, Global};

#[tactic(auto, unfolding(beam_model::specs::Assembly::compact_term))]
fn compact_term(numbering: &Numbering, term: &Term) -> Option<Compact>
    ensures { result ≡ compact_term numbering.now term.now }
{
    match term.view() {
        TermView::Integer(n) => Some(Compact::Integer(n)),
        TermView::Atom(atom) => Some(Compact::Atom(numbering.atom_index(atom)?)),
        TermView::Nil => Some(Compact::Nil),
        TermView::Reference(_) | TermView::Pid(_) | TermView::Pair(_, _) | TermView::Tuple(_) =>
            Some(Compact::Literal(numbering.literal_index(term)?)),
    }
}

#[tactic(auto, unfolding(beam_model::specs::Assembly::compact_argument))]
fn compact_argument(numbering: &Numbering, argument: &Argument) -> Option<Compact>
    ensures { result ≡ compact_argument numbering.now argument.now }
{
    match argument {
        Argument::Term(term) => compact_term(numbering, term),
        Argument::X(n) => Some(Compact::X(*n)),
        Argument::Y(n) => Some(Compact::Y(*n)),
        Argument::Label(n) => Some(Compact::Label(*n)),
        Argument::Number(n) => Some(Compact::Number(*n)),
    }
}

fn compact_arguments(
    alloc: Global,
    numbering: &Numbering,
    arguments: &[Argument],
) -> Result<Option<CompactList>, AllocError>
    ensures { IfOk result (λ xs. xs ≡ compact_arguments numbering.now arguments.now) }
{
    let mut members = Vec::new(alloc);
    let mut rest = arguments;
    while let Some((argument, others)) = rest.split_first() {
        let Some(member) = compact_argument(numbering, argument) else {
            return Ok(None);
        };
        members.push(member)?;
        rest = others;
    }
    Ok(Some(CompactList::new(members)))
}

/// The operand as a file spells it. None where one of its atoms, imports or literals has no number.
#[tactic(auto, unfolding(beam_model::specs::Assembly::compact_of))]
pub fn compact(
    alloc: Global,
    numbering: &Numbering,
    operand: &Operand,
) -> Result<Option<CompactOperand>, AllocError>
    ensures { IfOk result (λ x. x ≡ compact_of numbering.now operand.now) }
{
    match operand {
        Operand::One(argument) => match compact_argument(numbering, argument) {
            Some(x) => Ok(Some(CompactOperand::One(x))),
            None => Ok(None),
        },
        Operand::Import(import) => match numbering.import_index(import) {
            Some(index) => Ok(Some(CompactOperand::One(Compact::Number(index)))),
            None => Ok(None),
        },
        Operand::List(arguments) => {
            match compact_arguments(alloc, numbering, arguments.as_slice())? {
                Some(members) => Ok(Some(CompactOperand::List(members))),
                None => Ok(None),
            }
        }
    }
}
