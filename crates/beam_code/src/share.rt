//! Copies of imports, and terms of atoms. The atoms are shared.

ghost use Rattle.std.specs.Prelude.{◌≡◌, map, IfOk};
ghost use Rattle.beam_term.specs.TermValue.{atom_term};

use beam_model::function::Import;
use beam_term::{Atom, Term};
use std::alloc::{AllocError, Global};

pub fn shared_import(import: &Import) -> Result<Import, AllocError>
    ensures { IfOk result (λ i. i ≡ import.now) }
{
    Ok(Import {
        module: import.module.clone()?,
        function: import.function.clone()?,
        arity: import.arity,
    })
}

pub fn shared_imports(alloc: Global, imports: &[Import]) -> Result<Vec<Import>, AllocError>
    ensures { IfOk result (λ v. v.items ≡ imports.now) }
{
    let mut shared = Vec::with_capacity(alloc, imports.len())?;
    let mut rest = imports;
    while let Some((import, others)) = rest.split_first() {
        shared.push(shared_import(import)?)?;
        rest = others;
    }
    Ok(shared)
}

/// The terms of atoms.
pub fn atom_terms(alloc: Global, atoms: &[Atom]) -> Result<Vec<Term>, AllocError>
    ensures { IfOk result (λ v. v.items ≡ map (λ text. atom_term text) atoms.now) }
{
    let mut terms = Vec::with_capacity(alloc, atoms.len())?;
    for atom in atoms {
        terms.push(Term::atom(atom.clone()?))?;
    }
    Ok(terms)
}
