//! The entries that exports name.
ghost use Rattle.std.specs.Prelude.{◌≡◌, IfOk};
ghost use Rattle.std.specs.List.{list_any, list_all};
ghost use Rattle.beam_model.specs.Loadable.{exported, is_entry, is_entry_of};
ghost use Rattle.beam_model.specs.declared.function.Function.{Function as TheFunction};

use beam_model::function::{Export, Function};
use beam_term::TermError;
use indexmap::IndexSet;
use std::alloc::Global;

/// The functions as a set.
#[tactic(auto, using(crate::proofs::Lists::pushed))]
fn entries(alloc: Global, functions: Vec<Function>) -> Result<IndexSet<Function>, TermError>
    ensures { IfOk result (λ s. (q : TheFunction) → list_any (is_entry q) s.keys ≡ list_any (λ f. is_entry f q) functions.items) }
{
    let mut entries = IndexSet::new(alloc);
    for function in functions {
        entries.insert(function)?;
    }
    Ok(entries)
}

/// Whether an export names the entry of a function with its name and arity.
fn is_entry_among(entries: &IndexSet<Function>, export: &Export) -> Result<bool, TermError>
    ensures { IfOk result (λ r. r ≡ list_any (is_entry (exported export.now)) entries.now.keys) }
{
    let entry = Function {
        name: export.name.try_share()?,
        arity: export.arity,
        entry: export.label,
    };
    Ok(entries.contains(&entry))
}

/// Whether each export names the entry of a function with its name and arity.
pub fn are_entries(
    alloc: Global,
    functions: Vec<Function>,
    exports: &[Export],
) -> Result<bool, TermError>
    ensures { IfOk result (λ all. all ≡ list_all (is_entry_of functions.items) exports.now) }
{
    let entries = &entries(alloc, functions)?;
    let mut rest = exports;
    while let Some((export, others)) = rest.split_first() {
        if !is_entry_among(entries, export)? {
            return Ok(false);
        }
        rest = others;
    }
    Ok(true)
}
