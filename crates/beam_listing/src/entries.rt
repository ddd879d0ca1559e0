//! The entries of a text's functions, by name and arity.

ghost use Rattle.std.specs.Prelude.{◌≡◌, unwrap_or, IfOk, map};
ghost use Rattle.indexmap.specs.IndexMap.{get};
ghost use Rattle.beam_model.specs.Loadable.{same_signature};
ghost use Rattle.beam_model.specs.ListingReading.{entry_label_of, export_by};
ghost use Rattle.beam_model.specs.declared.function.Signature.{Signature as TheSignature};

use beam_model::function::{Export, Function, Signature};
use indexmap::IndexMap;
use std::alloc::{AllocError, Global};

// The entry of each name and arity: of two functions with one name and arity, the first one's.
fn entries(alloc: Global, functions: &[Function]) -> Result<IndexMap<Signature, u32>, AllocError>
    ensures { IfOk result (λ m. (s : TheSignature) → unwrap_or (get same_signature m s) 0 ≡ entry_label_of functions.now s) }
{
    let mut entries = IndexMap::new(alloc);
    let mut rest = functions;
    while let Some((function, before)) = rest.split_last() {
        let signature = Signature {
            name: function.name.clone()?,
            arity: function.arity,
        };
        entries.insert(signature, function.entry)?;
        rest = before;
    }
    Ok(entries)
}

// The entry of a name and arity, 0 if there is none.
fn entry(entries: &IndexMap<Signature, u32>, signature: &Signature) -> u32
    ensures { result ≡ unwrap_or (get same_signature entries.now signature.now) 0 }
{
    match entries.get(signature) {
        Some(entry) => *entry,
        None => 0,
    }
}

/// The functions of a head, each with the entry of the first function of its name and arity, 0 if there is none. Takes time
/// linear in the functions and the signatures.
pub fn with_labels(
    alloc: Global,
    functions: &[Function],
    signatures: &[Signature],
) -> Result<Vec<Export>, AllocError>
    ensures { IfOk result (λ v. v.items ≡ map (export_by functions.now) signatures.now) }
{
    let entries = &entries(alloc, functions)?;
    let mut exports = Vec::new(alloc);
    for signature in signatures {
        exports.push(Export {
            name: signature.name.clone()?,
            arity: signature.arity,
            label: entry(entries, signature),
        })?;
    }
    Ok(exports)
}
