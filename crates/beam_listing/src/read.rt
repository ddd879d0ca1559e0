//! The listing that a text has. Places are how many bytes of the text are left.

ghost use Rattle.std.specs.Prelude.{◌≡◌, Ok, Err, IfOk, IfErr, MatchResult, ℕ, length};
ghost use Rattle.beam_model.specs.Listing.{Listing as TheListing};
ghost use Rattle.beam_model.specs.ListingForms.{item_of, module_of, exports_of, attributes_of, labels_of};
ghost use Rattle.beam_model.specs.ListingReading.{fault_of, listing_form_at, next_form, with_item, body_from, no_body, listing_at, listing_of_forms, listing_of_text, syntax, unknown};
ghost use Rattle.beam_listing.specs.ListingForm.{IsListingText};
ghost use Rattle.beam_listing.specs.Reads.{Names, Reads, body_of};

use crate::entries::with_labels;
use crate::error::ListingError;
use crate::forms::{stop, uncommented};
use crate::heads::{attributes, exports, item, labels, module};
use crate::miss::Miss;
use crate::partial_terms::is_partial_term;
use crate::refusal::FormRefusal;
use beam_erltext::read::line_at;
use beam_erltext::token::skip_blanks;
use beam_model::function::{Function, Signature};
use beam_model::instruction::Instruction;
use beam_model::item::Item;
use beam_model::listing::Listing;
use beam_term::Atom;
use std::alloc::Global;

/// The functions and instructions that were read.
#[derive(Drop)]
pub struct ListingBody {
    functions: Vec<Function>,
    instructions: Vec<Instruction>,
}

// The form at the front of a text, and the text after its full stop.
#[tactic(auto, unfolding(beam_model::specs::ListingReading::listing_form_at))]
fn form(alloc: Global, text: &[u8]) -> Result<(&[u8], &[u8]), FormRefusal>
    ensures { Reads (λ x. (x.0.now, x.1.now)) result (listing_form_at text.now) }
{
    let size = match stop(alloc, b'.', text) {
        Ok(size) => size,
        Err(Miss::Unknown) => return Err(FormRefusal::Syntax(text.len())),
        Err(Miss::NoMemory) => return Err(FormRefusal::NoMemory),
    };
    let (form, after) = text.split_at(size);
    match after {
        [b'.', rest @ ..] => Ok((form, skip_blanks(rest))),
        _ => Err(FormRefusal::Syntax(text.len())),
    }
}

// The refusal of a form at the front of a text, where the form isn't the one that is looked for.
fn refusal(alloc: Global, text: &[u8], form: &[u8], miss: Miss) -> FormRefusal
    ensures unknown { miss ≡ Miss.Unknown → Names result (fault_of text.now form.now) }
    ensures memory { miss ≡ Miss.NoMemory → result ≡ FormRefusal.NoMemory }
{
    if matches!(miss, Miss::NoMemory) {
        return FormRefusal::NoMemory;
    }
    match is_partial_term(alloc, 4, form) {
        Ok(true) => FormRefusal::Unknown(text.len()),
        Ok(false) => FormRefusal::Syntax(text.len()),
        Err(_) => FormRefusal::NoMemory,
    }
}

#[tactic(auto, unfolding(beam_model::specs::ListingReading::next_form))]
fn module_head(alloc: Global, text: &[u8]) -> Result<(Atom, &[u8]), FormRefusal>
    ensures { Reads (λ x. (x.0, x.1.now)) result (next_form module_of text.now) }
{
    let Some(_) = text.first() else {
        return Err(FormRefusal::Unknown(0));
    };
    let (form, rest) = form(alloc, text)?;
    match module(alloc, form) {
        Ok(name) => Ok((name, rest)),
        Err(miss) => Err(refusal(alloc, text, form, miss)),
    }
}

#[tactic(auto, unfolding(beam_model::specs::ListingReading::next_form))]
fn exports_head(alloc: Global, text: &[u8]) -> Result<(Vec<Signature>, &[u8]), FormRefusal>
    ensures { Reads (λ x. (x.0.items, x.1.now)) result (next_form exports_of text.now) }
{
    let Some(_) = text.first() else {
        return Err(FormRefusal::Unknown(0));
    };
    let (form, rest) = form(alloc, text)?;
    match exports(alloc, form) {
        Ok(signatures) => Ok((signatures, rest)),
        Err(miss) => Err(refusal(alloc, text, form, miss)),
    }
}

#[tactic(auto, unfolding(beam_model::specs::ListingReading::next_form))]
fn attributes_head(alloc: Global, text: &[u8]) -> Result<(&[u8], &[u8]), FormRefusal>
    ensures { Reads (λ x. (x.0.now, x.1.now)) result (next_form attributes_of text.now) }
{
    let Some(_) = text.first() else {
        return Err(FormRefusal::Unknown(0));
    };
    let (form, rest) = form(alloc, text)?;
    match attributes(alloc, form) {
        Ok(about) => Ok((about, rest)),
        Err(miss) => Err(refusal(alloc, text, form, miss)),
    }
}

#[tactic(auto, unfolding(beam_model::specs::ListingReading::next_form))]
fn labels_head(alloc: Global, text: &[u8]) -> Result<(u32, &[u8]), FormRefusal>
    ensures { Reads (λ x. (x.0, x.1.now)) result (next_form labels_of text.now) }
{
    let Some(_) = text.first() else {
        return Err(FormRefusal::Unknown(0));
    };
    let (form, rest) = form(alloc, text)?;
    match labels(alloc, form) {
        Ok(count) => Ok((count, rest)),
        Err(miss) => Err(refusal(alloc, text, form, miss)),
    }
}

#[tactic(auto, unfolding(beam_model::specs::ListingReading::next_form))]
fn next_item(alloc: Global, text: &[u8]) -> Result<(Item, &[u8]), FormRefusal>
    ensures { Reads (λ x. (x.0, x.1.now)) result (next_form item_of text.now) }
{
    let Some(_) = text.first() else {
        return Err(FormRefusal::Unknown(0));
    };
    let (form, rest) = form(alloc, text)?;
    match item(alloc, form) {
        Ok(item) => Ok((item, rest)),
        Err(miss) => Err(refusal(alloc, text, form, miss)),
    }
}

// A body with one form more; at the form's beginning `left` bytes of the text are left.
fn with_item(left: usize, body: ListingBody, item: Item) -> Result<ListingBody, FormRefusal>
    ensures { Reads body_of result (with_item left (body_of body) item) }
{
    let mut body = body;
    match item {
        Item::Function(function) => {
            body.functions.push(function)?;
            Ok(body)
        }
        Item::Instruction(instruction) => {
            if body.functions.is_empty() {
                return Err(FormRefusal::Unknown(left));
            }
            body.instructions.push(instruction)?;
            Ok(body)
        }
        Item::Remark => Ok(body),
    }
}

// The functions and their instructions, up to the end of the text.
#[tactic(auto, using(crate::proofs::Fuel::body_from_is, crate::proofs::Fuel::body_from_none))]
fn functions(alloc: Global, text: &[u8]) -> Result<ListingBody, FormRefusal>
    ensures { Reads body_of result (body_from (length text.now) no_body text.now) }
{
    let mut body = ListingBody {
        functions: Vec::new(alloc),
        instructions: Vec::new(alloc),
    };
    let mut rest = text;
    for _ in 0..text.len() {
        if rest.is_empty() {
            return Ok(body);
        }
        let (item, after) = next_item(alloc, rest)?;
        body = with_item(rest.len(), body, item)?;
        rest = after;
    }
    if rest.is_empty() {
        return Ok(body);
    }
    Err(FormRefusal::Syntax(rest.len()))
}

// The number of functions. NoMemory above 4,294,967,295, which would fill any memory.
fn count(functions: &[Function]) -> Result<u32, FormRefusal>
    ensures ok { IfOk result (λ n. n ≡ length functions.now) }
    ensures memory { IfErr result (λ e. e ≡ FormRefusal.NoMemory) }
{
    match u32::try_from(functions.len()) {
        Ok(count) => Ok(count),
        Err(_) => Err(FormRefusal::NoMemory),
    }
}

#[tactic(auto, unfolding(beam_model::specs::ListingReading::listing_at))]
fn listing(alloc: Global, text: &[u8]) -> Result<Listing, FormRefusal>
    ensures { Reads (λ l. l) result (listing_at text.now) }
{
    let (module, after_module) = module_head(alloc, text)?;
    let (signatures, after_exports) = exports_head(alloc, after_module)?;
    let (_, after_attributes) = attributes_head(alloc, after_exports)?;
    let (label_count, rest) = labels_head(alloc, after_attributes)?;
    let ListingBody {
        functions,
        instructions,
    } = functions(alloc, rest)?;
    Ok(Listing {
        module,
        exports: with_labels(alloc, &functions, &signatures)?,
        label_count,
        function_count: count(&functions)?,
        instructions,
    })
}

// The listing of a text without comments.
#[tactic(auto, unfolding(beam_model::specs::ListingReading::listing_of_forms))]
fn read_forms(alloc: Global, text: &[u8]) -> Result<Listing, ListingError>
    ensures value { IfOk result (λ l. listing_of_forms text.now ≡ Ok l) }
    ensures syntax { (line : ℕ) → result ≡ Err (ListingError.Syntax line) → listing_of_forms text.now ≡ Err (syntax line) }
    ensures unknown { (line : ℕ) → result ≡ Err (ListingError.UnknownForm line) → listing_of_forms text.now ≡ Err (unknown line) }
{
    match listing(alloc, skip_blanks(text)) {
        Ok(listing) => Ok(listing),
        Err(FormRefusal::Syntax(left)) => Err(ListingError::Syntax(line_at(text, left))),
        Err(FormRefusal::Unknown(left)) => Err(ListingError::UnknownForm(line_at(text, left))),
        Err(FormRefusal::NoMemory) => Err(ListingError::NoMemory),
    }
}

/// The listing that a text has (the compiler's .S files): the heads `{module,M}`, `{exports,[{F,A},..]}`,
/// `{attributes,_}` and `{labels,N}` in this order, then `{function,F,A,Entry}` and its instructions, again and again,
/// each form with a full stop; a comment reaches from `%` to the line's end. An export's label is the entry of the first
/// function of its name and arity, 0 if there is none.
///
/// Fails with the line, from 1, where the first form with a fault begins: `Syntax` where it isn't terms with a full
/// stop, `UnknownForm` where it isn't one of a listing or stands out of its place, at the text's end where heads are
/// missing. `NoMemory`: the allocator refused memory.
pub fn read_listing(alloc: Global, text: &str) -> Result<Listing, ListingError>
    // The forms of the listing that is read stand in the text.
    ensures spelled { IfOk result (λ l. IsListingText text.now l) }
    // The listing whose forms stand in the text is read, unless memory runs out.
    ensures only { (l : TheListing) → IsListingText text.now l → MatchResult result (λ m. m ≡ l) (λ e. e ≡ ListingError.NoMemory) }
    // The result is also that of reading the text from the left, which tells the first fault.
    ensures value { IfOk result (λ l. listing_of_text text.now ≡ Ok l) }
    ensures syntax { (line : ℕ) → result ≡ Err (ListingError.Syntax line) → listing_of_text text.now ≡ Err (syntax line) }
    ensures unknown { (line : ℕ) → result ≡ Err (ListingError.UnknownForm line) → listing_of_text text.now ≡ Err (unknown line) }
{
    let shown = uncommented(alloc, text.as_bytes())?;
    read_forms(alloc, &shown)
}
