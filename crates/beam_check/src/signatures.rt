//! Names with arities, each of which is there once.
ghost use Rattle.std.specs.Prelude.{◌≡◌, ◌∷◌, ◌++◌, [], not, if◌then◌else◌, map, IfOk};
ghost use Rattle.std.specs.List.{list_any};
ghost use Rattle.beam_model.specs.Loadable.{same_signature, signature_of, exported_signature, are_signatures_new};

use beam_model::function::{Export, Function, Signature};
use beam_term::TermError;
use indexmap::IndexSet;
use std::alloc::Global;

/// Adds a signature at the end of the others, and answers whether it is new.
fn add(signatures: &mut IndexSet<Signature>, signature: Signature) -> Result<bool, TermError>
    ensures new { IfOk result (λ added. added ≡ not (list_any (same_signature signature) signatures.old.keys)) }
    ensures keys { IfOk result (λ added. signatures.new.keys ≡ (if added then signatures.old.keys ++ signature ∷ [] else signatures.old.keys)) }
{
    Ok(signatures.insert(signature)?)
}

/// Whether no two functions have one name and arity.
pub fn are_functions_distinct(alloc: Global, functions: &[Function]) -> Result<bool, TermError>
    ensures { IfOk result (λ distinct. distinct ≡ are_signatures_new [] (map signature_of functions.now)) }
{
    let mut signatures = IndexSet::new(alloc);
    let mut rest = functions;
    while let Some((function, others)) = rest.split_first() {
        let signature = Signature {
            name: function.name.try_share()?,
            arity: function.arity,
        };
        if !add(&mut signatures, signature)? {
            return Ok(false);
        }
        rest = others;
    }
    Ok(true)
}

/// Whether no two exports have one name and arity.
pub fn are_exports_distinct(alloc: Global, exports: &[Export]) -> Result<bool, TermError>
    ensures { IfOk result (λ distinct. distinct ≡ are_signatures_new [] (map exported_signature exports.now)) }
{
    let mut signatures = IndexSet::new(alloc);
    let mut rest = exports;
    while let Some((export, others)) = rest.split_first() {
        let signature = Signature {
            name: export.name.try_share()?,
            arity: export.arity,
        };
        if !add(&mut signatures, signature)? {
            return Ok(false);
        }
        rest = others;
    }
    Ok(true)
}
