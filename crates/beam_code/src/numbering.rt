//! Numbers of atoms, imports and literals, by their first uses.

ghost use Rattle.std.specs.Prelude.{◌≡◌, fold, IfOk, [], ◌∷◌};
ghost use Rattle.beam_model.specs.Assembly.{word, with_atom, with_import, with_term, with_argument, with_operand, with_instruction, atom_index, import_index, literal_index, noted};
ghost use Rattle.beam_term.specs.Order.{term_eq};

use crate::share::shared_import;
use beam_model::function::Import;
use beam_model::instruction::{Argument, Instruction, Operand};
use beam_term::{Atom, Term, TermView};
use indexmap::IndexSet;
use std::alloc::{AllocError, Global};
use std::marker::Model;

/// The atoms, imports and literals of instructions, each once, in the order of their first uses. Atoms are counted from 1, imports
/// and literals from 0.
#[derive(Drop)]
pub struct Numbering {
    pub atoms: IndexSet<Atom>,
    pub imports: IndexSet<Import>,
    pub literals: IndexSet<Term>,
}

impl Model for Numbering {
    ghost use Rattle.std.specs.Coded.{codes};
    ghost use Rattle.beam_term.specs.Coding.{term_code};
    ghost use Rattle.beam_model.specs.Assembly.{Numbering as TheNumbering};

    ghost Value = { TheNumbering };

    ghost coded = { Prim.hlevel (codes, term_code) };

    ghost view = { λ n. record { atoms = n.atoms.keys; imports = n.imports.keys; literals = n.literals.keys } };
}

/// A number that fits in four bytes.
fn four_bytes(number: usize) -> Option<u32>
    ensures { result ≡ word number }
{
    u32::try_from(number).ok()
}

impl Numbering {
    /// The numbers of a module's instructions. Its name is the first atom.
    pub fn of(
        alloc: Global,
        name: &Atom,
        instructions: &[Instruction],
    ) -> Result<Numbering, AllocError>
        ensures { IfOk result (λ n. n ≡ fold with_instruction (record { atoms = name.now ∷ []; imports = []; literals = [] }) instructions.now) }
    {
        let mut numbering = Numbering::first(alloc, name)?;
        let mut rest = instructions;
        while let Some((instruction, others)) = rest.split_first() {
            numbering.note_operands(instruction.operands.as_slice())?;
            rest = others;
        }
        Ok(numbering)
    }

    /// The number of a module's name alone.
    fn first(alloc: Global, name: &Atom) -> Result<Numbering, AllocError>
        ensures { IfOk result (λ n. n ≡ record { atoms = name.now ∷ []; imports = []; literals = [] }) }
    {
        let mut atoms = IndexSet::new(alloc);
        atoms.insert(name.clone()?)?;
        Ok(Numbering {
            atoms,
            imports: IndexSet::new(alloc),
            literals: IndexSet::new(alloc),
        })
    }

    fn note_atom(&mut self, atom: &Atom) -> Result<(), AllocError>
        ensures { IfOk result (λ _. self.new ≡ with_atom self.old atom.now) }
    {
        self.atoms.insert(atom.clone()?)?;
        Ok(())
    }

    fn note_literal(&mut self, literal: &Term) -> Result<(), AllocError>
        ensures { IfOk result (λ _. self.new ≡ record self.old { literals = noted term_eq self.old.literals literal.now }) }
    {
        self.literals.insert(literal.clone()?)?;
        Ok(())
    }

    fn note_import(&mut self, import: &Import) -> Result<(), AllocError>
        ensures { IfOk result (λ _. self.new ≡ with_import self.old import.now) }
    {
        self.note_atom(&import.module)?;
        self.note_atom(&import.function)?;
        self.imports.insert(shared_import(import)?)?;
        Ok(())
    }

    fn note_argument(&mut self, argument: &Argument) -> Result<(), AllocError>
        ensures { IfOk result (λ _. self.new ≡ with_argument self.old argument.now) }
    {
        let Argument::Term(term) = argument else {
            return Ok(());
        };
        match term.view() {
            TermView::Integer(_) | TermView::Nil => Ok(()),
            TermView::Atom(atom) => self.note_atom(atom),
            TermView::Reference(_) | TermView::Pid(_) | TermView::Pair(_, _) | TermView::Tuple(_) =>
                self.note_literal(term),
        }
    }

    fn note_arguments(&mut self, arguments: &[Argument]) -> Result<(), AllocError>
        ensures { IfOk result (λ _. self.new ≡ fold with_argument self.old arguments.now) }
    {
        let mut rest = arguments;
        while let Some((argument, others)) = rest.split_first() {
            self.note_argument(argument)?;
            rest = others;
        }
        Ok(())
    }

    fn note_operand(&mut self, operand: &Operand) -> Result<(), AllocError>
        ensures { IfOk result (λ _. self.new ≡ with_operand self.old operand.now) }
    {
        match operand {
            Operand::One(argument) => self.note_argument(argument),
            Operand::Import(import) => self.note_import(import),
            Operand::List(arguments) => self.note_arguments(arguments.as_slice()),
        }
    }

    fn note_operands(&mut self, operands: &[Operand]) -> Result<(), AllocError>
        ensures { IfOk result (λ _. self.new ≡ fold with_operand self.old operands.now) }
    {
        let mut rest = operands;
        while let Some((operand, others)) = rest.split_first() {
            self.note_operand(operand)?;
            rest = others;
        }
        Ok(())
    }

    /// The number of an atom, from 1.
    pub fn atom_index(&self, atom: &Atom) -> Option<u32>
        ensures { result ≡ atom_index self.now atom.now }
    {
        let place = self.atoms.get_index_of(atom)?;
        four_bytes(place.checked_add(1)?)
    }

    /// The number of an import, from 0.
    pub fn import_index(&self, import: &Import) -> Option<u32>
        ensures { result ≡ import_index self.now import.now }
    {
        four_bytes(self.imports.get_index_of(import)?)
    }

    /// The number of a literal, from 0.
    pub fn literal_index(&self, literal: &Term) -> Option<u32>
        ensures { result ≡ literal_index self.now literal.now }
    {
        four_bytes(self.literals.get_index_of(literal)?)
    }
}
