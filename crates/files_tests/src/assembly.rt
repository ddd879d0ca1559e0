//! Listings that no text gives, and those of very many atoms, assembled.

use crate::example::t_beam;
use crate::terms::reference;
use beam_asm::assemble;
use beam_disasm::disassemble;
use beam_model::instruction::{Argument, Instruction, Operand, Operands};
use beam_model::listing::Listing;
use beam_model::opcode::Opcode;
use beam_term::{Atom, Term, cons};
use std::alloc::Global;
use std::test::Fail;

/// The instructions that are added to the listing of t.beam.
#[derive(Clone, Copy)]
enum Ending {
    /// int_code_end, which is no instruction of a listing.
    CodeEnd,
    /// `count` moves of atoms, each of which is the letter `times` times, and a number of its own.
    Atoms {
        letter: &'static str,
        times: usize,
        count: u32,
    },
    /// A move of a reference.
    Reference,
    /// A move of a pair with a reference.
    Pair,
}

/// Puts an instruction that moves a term to x0 last.
fn push_move(alloc: Global, instructions: &mut Vec<Instruction>, term: Term) -> Result<(), Fail> {
    let items = vec![in alloc;
        Operand::One(Argument::Term(term)),
        Operand::One(Argument::X(0)),
    ]?;
    instructions.push(Instruction {
        opcode: Opcode::Move,
        operands: Operands::new(alloc, items)?,
    })?;
    Ok(())
}

fn push_code_end(alloc: Global, instructions: &mut Vec<Instruction>) -> Result<(), Fail> {
    instructions.push(Instruction {
        opcode: Opcode::IntCodeEnd,
        operands: Operands::new(alloc, Vec::new(alloc))?,
    })?;
    Ok(())
}

fn atom(alloc: Global, letters: &str, number: u32) -> Result<Term, Fail> {
    let text = format!(in alloc; "{letters}{number}")?;
    Ok(Term::atom(Atom::new(alloc, &text)?))
}

/// Puts moves of atoms that begin with these letters last, each of them once.
fn push_atoms(
    alloc: Global,
    instructions: &mut Vec<Instruction>,
    letters: &str,
    count: u32,
) -> Result<(), Fail> {
    for number in 0..count {
        push_move(alloc, instructions, atom(alloc, letters, number)?)?;
    }
    Ok(())
}

fn push_ending(
    alloc: Global,
    instructions: &mut Vec<Instruction>,
    ending: Ending,
) -> Result<(), Fail> {
    match ending {
        Ending::CodeEnd => push_code_end(alloc, instructions),
        Ending::Atoms {
            letter,
            times,
            count,
        } => {
            let letters = letter.repeat(alloc, times)?;
            push_atoms(alloc, instructions, &letters, count)
        }
        Ending::Reference => push_move(alloc, instructions, reference(alloc, 0, &[7])?),
        Ending::Pair => {
            let pair = cons(alloc, Term::nil(), reference(alloc, 0, &[7])?)?;
            push_move(alloc, instructions, pair)
        }
    }
}

fn number_of(alloc: Global, listing: &Listing) -> u8 {
    match assemble(alloc, listing) {
        Ok(_) => 0,
        Err(error) => error.number(),
    }
}

/// Assembles the listing of t.beam with this ending. Answers the number of the refusal, and 0 where it has a file.
fn refusal(alloc: Global, ending: Ending) -> Result<u8, Fail> {
    let mut listing = disassemble(alloc, t_beam())?;
    match push_ending(alloc, &mut listing.instructions, ending) {
        Ok(()) => Ok(number_of(alloc, &listing)),
        Err(fail) => Err(fail),
    }
}

/// Assembles the listing of t.beam with moves of `count` atoms at its end. Answers the number of the refusal, and 0 where it has a file.
fn refusal_of_atoms(
    alloc: Global,
    letter: &'static str,
    times: usize,
    count: u32,
) -> Result<u8, Fail> {
    refusal(
        alloc,
        Ending::Atoms {
            letter,
            times,
            count,
        },
    )
}

/// int_code_end is refused: it is no instruction of a listing's body.
#[test]
fn an_end_is_refused(rt: HostRuntime) -> Result<(), Fail> {
    assert_eq!(rt; refusal(rt.alloc(), Ending::CodeEnd)?, 2);
    Ok(())
}

/// The file also has the five atoms of the example.
#[test]
fn too_many_atoms_are_refused(rt: HostRuntime) -> Result<(), Fail> {
    assert_eq!(rt; refusal_of_atoms(rt.alloc(), "a", 1, 65_530)?, 0);
    assert_eq!(rt; refusal_of_atoms(rt.alloc(), "a", 1, 65_531)?, 8);
    Ok(())
}

/// Atoms of 255 bytes each, and an eleventh one of 256.
#[test]
fn too_long_atoms_are_refused(rt: HostRuntime) -> Result<(), Fail> {
    assert_eq!(rt; refusal_of_atoms(rt.alloc(), "é", 127, 10)?, 0);
    assert_eq!(rt; refusal_of_atoms(rt.alloc(), "é", 127, 11)?, 9);
    Ok(())
}

/// A reference in an operand, alone and in a pair, is a literal of the file.
#[test]
fn references_are_assembled(rt: HostRuntime) -> Result<(), Fail> {
    assert_eq!(rt; refusal(rt.alloc(), Ending::Reference)?, 0);
    assert_eq!(rt; refusal(rt.alloc(), Ending::Pair)?, 0);
    Ok(())
}

#[test]
fn a_file_that_is_too_large_is_refused(rt: HostRuntime) -> Result<(), Fail> {
    assert_eq!(rt; refusal_of_atoms(rt.alloc(), "a", 250, 33_000)?, 5);
    Ok(())
}
