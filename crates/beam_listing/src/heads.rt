//! The forms of a listing, each by its text: heads, functions and instructions.

ghost use Rattle.std.specs.Prelude.{◌≡◌, []};
ghost use Rattle.beam_model.specs.ListingForms.{function_of_parts, item_by, bare_item, item_of, module_of, signature_of_parts, signature_of_text, signatures_from, exports_of, attributes_of, labels_of};
ghost use Rattle.beam_listing.specs.Gives.{Gives};

use crate::instruction::{instruction, plain};
use crate::miss::Miss;
use crate::part::FormPart;
use crate::value::{atom, headed, list_parts, number, only, part, tuple_parts};
use beam_model::function::{Function, Signature};
use beam_model::item::Item;
use beam_term::Atom;
use std::alloc::Global;

// The function of `{function,F,A,Entry}`.
#[tactic(auto, unfolding(beam_model::specs::ListingForms::function_of_parts))]
fn function(alloc: Global, parts: &[FormPart<'_>]) -> Result<Function, Miss>
    ensures { Gives (λ f. f) result (function_of_parts parts.now) }
{
    let [name, arity, entry] = parts else {
        return Err(Miss::Unknown);
    };
    Ok(Function {
        name: atom(alloc, name.text())?,
        arity: number(arity.text())?,
        entry: number(entry.text())?,
    })
}

#[tactic(auto, unfolding(beam_model::specs::ListingForms::item_by))]
fn item_by(alloc: Global, name: &str, parts: &[FormPart<'_>]) -> Result<Item, Miss>
    ensures { Gives (λ i. i) result (item_by name.now parts.now) }
{
    match name {
        "function" => Ok(Item::Function(function(alloc, parts)?)),
        "%" => {
            let _about = only(parts)?;
            Ok(Item::Remark)
        }
        _ => Ok(Item::Instruction(instruction(alloc, name, parts)?)),
    }
}

// The instruction without operands, which is its name alone.
#[tactic(auto, unfolding(beam_model::specs::ListingForms::bare_item))]
fn bare_item(alloc: Global, text: &[u8]) -> Result<Item, Miss>
    ensures { Gives (λ i. i) result (bare_item text.now) }
{
    let name = atom(alloc, text)?;
    Ok(Item::Instruction(plain(alloc, name.as_str(), &[])?))
}

/// The item of a form after the heads.
#[tactic(auto, unfolding(beam_model::specs::ListingForms::item_of, beam_model::specs::ListingForms::headed_of))]
pub fn item(alloc: Global, text: &[u8]) -> Result<Item, Miss>
    ensures { Gives (λ i. i) result (item_of text.now) }
{
    match text {
        [] => Err(Miss::Unknown),
        [b'{', ..] => {
            let parts = tuple_parts(alloc, text)?;
            let (name, others) = headed(alloc, &parts)?;
            item_by(alloc, name.as_str(), others)
        }
        _ => bare_item(alloc, text),
    }
}

/// The name of `{module,M}`.
#[tactic(auto, unfolding(beam_model::specs::ListingForms::module_of))]
pub fn module(alloc: Global, text: &[u8]) -> Result<Atom, Miss>
    ensures { Gives (λ name. name) result (module_of text.now) }
{
    atom(alloc, part(alloc, "module", text)?)
}

// The name and arity of `{F,A}`.
#[tactic(auto, unfolding(beam_model::specs::ListingForms::signature_of_text))]
fn signature(alloc: Global, text: &[u8]) -> Result<Signature, Miss>
    ensures { Gives (λ s. s) result (signature_of_text text.now) }
{
    let parts = tuple_parts(alloc, text)?;
    let [name, arity] = parts.as_slice() else {
        return Err(Miss::Unknown);
    };
    Ok(Signature {
        name: atom(alloc, name.text())?,
        arity: number(arity.text())?,
    })
}

#[tactic(auto, unfolding(beam_model::specs::ListingForms::signatures_from))]
fn signatures(alloc: Global, parts: &[FormPart<'_>]) -> Result<Vec<Signature>, Miss>
    ensures { Gives (λ v. v.items) result (signatures_from [] parts.now) }
{
    let mut signatures = Vec::new(alloc);
    for part in parts {
        signatures.push(signature(alloc, part.text())?)?;
    }
    Ok(signatures)
}

/// The functions of `{exports,[{F,A},..]}`.
#[tactic(auto, unfolding(beam_model::specs::ListingForms::exports_of))]
pub fn exports(alloc: Global, text: &[u8]) -> Result<Vec<Signature>, Miss>
    ensures { Gives (λ v. v.items) result (exports_of text.now) }
{
    let parts = list_parts(alloc, part(alloc, "exports", text)?)?;
    signatures(alloc, &parts)
}

/// The part of `{attributes,_}`, as text.
#[tactic(auto, unfolding(beam_model::specs::ListingForms::attributes_of))]
pub fn attributes(alloc: Global, text: &[u8]) -> Result<&[u8], Miss>
    ensures { Gives (λ about. about.now) result (attributes_of text.now) }
{
    part(alloc, "attributes", text)
}

/// The count of `{labels,N}`.
#[tactic(auto, unfolding(beam_model::specs::ListingForms::labels_of))]
pub fn labels(alloc: Global, text: &[u8]) -> Result<u32, Miss>
    ensures { Gives (λ n. n) result (labels_of text.now) }
{
    number(part(alloc, "labels", text)?)
}
