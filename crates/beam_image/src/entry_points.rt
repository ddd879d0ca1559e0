//! The rows at which exported functions begin, by name and arity.
ghost use Rattle.std.specs.Prelude.{◌≡◌, [], ◌∷◌, IfOk, OnOk, nat_eq};
ghost use Rattle.indexmap.specs.IndexMap.{insert_entry};
ghost use Rattle.beam_model.specs.SameText.{same_text};
ghost use Rattle.beam_code.specs.Bytes.{instructions_in};
ghost use Rattle.beam_image.specs.EntryRows.{entries_of, row_by_name, row_in, with_row};

use crate::code::LinkedCode;
use beam_model::function::Export;
use beam_term::Atom;
use indexmap::IndexMap;
use std::alloc::{AllocError, Global};
use std::marker::Model;

/// The rows of the exports of one arity, by name: `None` where the label isn't there.
struct RowsByName {
    by_name: IndexMap<Atom, Option<usize>>,
}

impl Drop for RowsByName {
    fn drop(self) {
        let RowsByName { by_name: _by_name } = self;
    }
}

impl Model for RowsByName {
    ghost use Rattle.beam_image.specs.EntryRows.{NamedRows};

    ghost Value = { NamedRows };

    ghost view = { λ r. r.by_name.entries };
}

impl RowsByName {
    fn new(alloc: Global) -> RowsByName
        ensures { result ≡ [] }
    {
        RowsByName {
            by_name: IndexMap::new(alloc),
        }
    }

    fn put(&mut self, name: Atom, row: Option<usize>) -> Result<(), AllocError>
        ensures { OnOk result (self.new ≡ insert_entry same_text self.old name row) }
    {
        self.by_name.insert(name, row)?;
        Ok(())
    }

    fn row(&self, name: &Atom) -> Option<usize>
        ensures { result ≡ row_by_name name.now self.now }
    {
        *self.by_name.get(name)?
    }
}

/// The row at which each exported function of a module begins: of two exports with one name and arity, that of the first.
/// A row is found in O(1), without memory: first by the arity, then by the name.
pub struct EntryPoints {
    by_arity: IndexMap<u32, RowsByName>,
}

impl Drop for EntryPoints {
    fn drop(self) {
        let EntryPoints {
            by_arity: _by_arity,
        } = self;
    }
}

impl Model for EntryPoints {
    ghost use Rattle.beam_image.specs.EntryRows.{Table};

    ghost Value = { Table };

    ghost view = { λ e. e.by_arity.entries };
}

/// Adds an arity that isn't there yet, with the row of its first function.
fn put_first(
    alloc: Global,
    by_arity: &mut IndexMap<u32, RowsByName>,
    arity: u32,
    name: Atom,
    row: Option<usize>,
) -> Result<(), AllocError>
    ensures { OnOk result (by_arity.new.entries ≡ insert_entry nat_eq by_arity.old.entries arity ((name, row) ∷ [])) }
{
    let mut rows = RowsByName::new(alloc);
    rows.put(name, row)?;
    by_arity.insert(arity, rows)?;
    Ok(())
}

/// Sets the row of a function.
#[tactic(auto, using(crate::proofs::Table::put_first, crate::proofs::Table::put_again))]
fn put(
    alloc: Global,
    by_arity: &mut IndexMap<u32, RowsByName>,
    arity: u32,
    name: Atom,
    row: Option<usize>,
) -> Result<(), AllocError>
    ensures { OnOk result (by_arity.new.entries ≡ with_row arity name row by_arity.old.entries) }
{
    match by_arity.get_mut(&arity) {
        Some(rows) => rows.put(name, row),
        None => put_first(alloc, by_arity, arity, name, row),
    }
}

impl EntryPoints {
    /// The entries of a module's exports, from the last to the first, so that the first of a name and arity stays.
    /// It fails only for memory.
    #[tactic(auto, unfolding(crate::specs::EntryRows::entries_of))]
    pub fn new(
        alloc: Global,
        exports: &[Export],
        code: &LinkedCode,
    ) -> Result<EntryPoints, AllocError>
        ensures { IfOk result (λ e. e ≡ entries_of (instructions_in code.now) exports.now) }
    {
        let mut by_arity = IndexMap::new(alloc);
        for at in (0..exports.len()).rev() {
            let export = &exports[at];
            let name = export.name.clone()?;
            let row = code.row_of_label(export.label);
            put(alloc, &mut by_arity, export.arity, name, row)?;
        }
        Ok(EntryPoints { by_arity })
    }

    /// The row at which an exported function begins: `None` where there is no such export, or no such label.
    pub fn row(&self, function: &Atom, arity: u32) -> Option<usize>
        ensures { result ≡ row_in function.now arity self.now }
    {
        self.by_arity.get(&arity)?.row(function)
    }
}
