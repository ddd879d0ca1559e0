//! The check.
ghost use Rattle.std.specs.Prelude.{◌≡◌, false, true, None, Some, IfOk, IfErr, OnOk, MatchOption};
ghost use Rattle.std.specs.Result.{IsOkUnless};
ghost use Rattle.beam_model.specs.Loadable.{functions_of, are_heads_lawful, are_exports_lawful};
ghost use Rattle.beam_model.specs.Loads.{IsLoadable};
ghost use Rattle.beam_model.specs.Heads.{IsWellFormed};
ghost use Rattle.beam_check.specs.Fault.{StandsIn};

use crate::entries::are_entries;
use crate::error::CheckError;
use crate::functions::functions_of;
use crate::signatures::{are_exports_distinct, are_functions_distinct};
use crate::valid_operands::{
    are_labels_lawful_where, are_limits_met_where, are_natives_known_where, are_operands_valid,
};
use beam_model::function::Function;
use beam_model::listing::Listing;
use beam_shapes::search::frames;
use beam_term::TermError;
use std::alloc::Global;

/// The functions of a listing, where its heads are lawful.
fn lawful_functions(alloc: Global, listing: &Listing) -> Result<Option<Vec<Function>>, TermError>
    ensures { IfOk result (λ o. MatchOption o (are_heads_lawful listing.now ≡ false) (λ v. (functions_of listing.now ≡ Some v.items)
        × (are_heads_lawful listing.now ≡ true))) }
{
    let Some(functions) = functions_of(alloc, listing)? else {
        return Ok(None);
    };
    if functions.len() != listing.function_count as usize {
        return Ok(None);
    }
    if are_functions_distinct(alloc, &functions)? {
        Ok(Some(functions))
    } else {
        Ok(None)
    }
}

/// Whether the exports of a listing are lawful over its functions.
fn are_exports_lawful(
    alloc: Global,
    listing: &Listing,
    functions: Vec<Function>,
) -> Result<bool, TermError>
    requires { functions_of listing.now ≡ Some functions.items }
    ensures { IfOk result (λ lawful. lawful ≡ are_exports_lawful listing.now) }
{
    if !are_entries(alloc, functions, &listing.exports)? {
        return Ok(false);
    }
    are_exports_distinct(alloc, &listing.exports)
}

/// Whether a listing can be loaded: each label is defined once and below the label count, and each
/// label that an operand names is defined (a native's fail label may be 0); the instructions are
/// functions one after the other, each a label, any number of lines, `func_info` with the
/// module's name and an entry label, as many as the function count says, and no two of one name
/// and arity; each export names an entry label with its function's name and arity, and no two have
/// one name and arity; each native that an instruction calls is one that instructions may call;
/// registers are x0 to x1023 and y0 to y1022, and arities are at most 255; and each row finds the y
/// registers that it names, those that it reads without catch tags, and the frame that it needs,
/// on every path to it.
///
/// The answer is the first fault in the order of the errors' numbers. `NoMemory` may stand in place
/// of any answer where memory was refused.
#[tactic(auto, using(crate::proofs::WellFormed::well_formed, crate::proofs::WellFormed::loadable))]
pub fn check(alloc: Global, listing: &Listing) -> Result<(), CheckError>
    ensures loadable { OnOk result (IsLoadable listing.now) }
    // A listing that passes is well-formed.
    ensures well_formed { OnOk result (IsWellFormed listing.now) }
    // A well-formed listing passes, or memory runs out.
    ensures only { IsWellFormed listing.now → IsOkUnless result CheckError.NoMemory }
    ensures fault { IfErr result (λ e. StandsIn e listing.now) }
{
    let valid = are_operands_valid(alloc, listing)?;
    if !are_labels_lawful_where(alloc, listing, valid)? {
        return Err(CheckError::BadLabel);
    }
    let Some(functions) = lawful_functions(alloc, listing)? else {
        return Err(CheckError::BadHead);
    };
    if !are_exports_lawful(alloc, listing, functions)? {
        return Err(CheckError::BadExport);
    }
    if !are_natives_known_where(listing, valid) {
        return Err(CheckError::UnknownBif);
    }
    if !are_limits_met_where(listing, valid) {
        return Err(CheckError::LimitExceeded);
    }
    if !frames(alloc, listing)? {
        return Err(CheckError::FrameMismatch);
    }
    Ok(())
}
