//! The tables that instructions speak of by index.

ghost use Rattle.std.specs.Prelude.{◌≡◌, ◌<◌, List, ℕ, MatchOption, Ok, Err, length};
ghost use Rattle.beam_model.specs.Tables.{atom_of_index, bad_table};

use beam_model::function::{Export, Import};
use beam_term::{Atom, Term};
use std::marker::Model;

/// The atoms of a file, counted from 1. The first names the module.
#[derive(Debug)]
pub struct AtomTable {
    pub(crate) atoms: Vec<Atom>,
}

impl Drop for AtomTable {
    fn drop(self) {
        let AtomTable { atoms: _atoms } = self;
    }
}

impl Model for AtomTable {
    ghost Value = { List (List ℕ) };

    ghost view = { λ t. t.atoms.items };

    ghost invariant = { λ t. 0 < length t.atoms.items };
}

impl AtomTable {
    /// The module's name, the first atom.
    #[tactic(auto, unfolding(beam_model::specs::Tables::atom_of_index))]
    pub fn module(&self) -> &Atom
        ensures { atom_of_index self.now 1 ≡ Ok result.now }
    {
        &self.atoms[0]
    }

    /// The atoms, that of index 1 first.
    pub fn as_slice(&self) -> &[Atom]
        ensures { result.now ≡ self.now }
    {
        &self.atoms
    }

    /// The atom of an index, where there is one.
    #[tactic(auto, unfolding(beam_model::specs::Tables::atom_of_index))]
    pub fn get(&self, index: u32) -> Option<&Atom>
        ensures { MatchOption result (atom_of_index self.now index ≡ Err bad_table) (λ a. atom_of_index self.now index ≡ Ok a.now) }
    {
        let index = index as usize;
        if index == 0 || self.atoms.len() < index {
            return None;
        }
        Some(&self.atoms[index - 1])
    }
}

/// The tables of a file. Imports and exports name their atoms; literals are counted from 0.
#[derive(Debug, Drop)]
pub struct Tables {
    pub atoms: AtomTable,
    pub imports: Vec<Import>,
    pub exports: Vec<Export>,
    pub literals: Vec<Term>,
}

impl Model for Tables {
    ghost use Rattle.std.specs.Coded.{codes};
    ghost use Rattle.beam_term.specs.Coding.{term_code};
    ghost use Rattle.beam_model.specs.Tables.{Tables as TheTables};

    ghost Value = { TheTables };

    ghost coded = { Prim.hlevel (codes, term_code) };

    ghost view = { λ t. record { atoms = t.atoms; imports = t.imports.items; exports = t.exports.items; literals = t.literals.items } };
}

/// The contents of the chunks `AtU8`, `ImpT` and `ExpT`, and of `LitT` where there are literals.
#[derive(Debug)]
pub struct TableChunks {
    pub atoms: Vec<u8>,
    pub imports: Vec<u8>,
    pub exports: Vec<u8>,
    pub literals: Option<Vec<u8>>,
}

impl Drop for TableChunks {
    fn drop(self) {
        let TableChunks {
            atoms: _atoms,
            imports: _imports,
            exports: _exports,
            literals: _literals,
        } = self;
    }
}
