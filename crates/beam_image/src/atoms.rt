//! The indices of atoms in the table of a file.
ghost use Rattle.std.specs.Prelude.{◌≡◌, IfOk, IfSome};
ghost use Rattle.beam_image.specs.InstructionRecord.{atom_text};

use beam_code::CodeBytes;
use beam_term::Atom;
use indexmap::IndexMap;
use std::alloc::{AllocError, Global};
use std::marker::Model;

/// An index of the atoms in the table of a file. Each look-up is compared with the table, so that no index is wrong. Contracts see the
/// code of the file.
pub struct Atoms<'a> {
    code: &'a CodeBytes,
    indices: IndexMap<Atom, usize>,
}

impl Drop for Atoms<'_> {
    fn drop(self) {
        let Atoms {
            code: _code,
            indices: _indices,
        } = self;
    }
}

impl<'a> Model for Atoms<'a> {
    ghost use Rattle.std.specs.Coded.{codes};
    ghost use Rattle.beam_term.specs.Coding.{term_code};
    ghost use Rattle.beam_code.specs.Bytes.{CodeBytes as TheBytes};

    ghost Value = { TheBytes };

    ghost coded = { Prim.hlevel (codes, term_code) };

    ghost view = { λ a. a.code.now };
}

impl<'a> Atoms<'a> {
    /// The indices of the atoms that this code names. It fails only for memory.
    pub fn of(alloc: Global, code: &'a CodeBytes) -> Result<Atoms<'a>, AllocError>
        ensures { IfOk result (λ a. a ≡ code.now) }
    {
        let atoms = code.atoms();
        let mut indices = IndexMap::with_capacity(alloc, atoms.len())?;
        for index in 0..atoms.len() {
            indices.insert(atoms[index].clone()?, index)?;
        }
        Ok(Atoms { code, indices })
    }

    fn found(&self, atom: &Atom) -> Option<usize>
        ensures { IfSome result (λ n. atom_text self.now n ≡ atom.now) }
    {
        let index = *self.indices.get(atom)?;
        match self.code.atoms().get(index) {
            Some(found) if found == atom => Some(index),
            _ => None,
        }
    }

    /// The index of an atom, if it is in the table and takes four bytes.
    pub fn index(&self, atom: &Atom) -> Option<u32>
        ensures { IfSome result (λ n. atom_text self.now n ≡ atom.now) }
    {
        u32::try_from(self.found(atom)?).ok()
    }
}
