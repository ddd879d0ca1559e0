//! The natives that instructions of built-in functions may call.

ghost use Rattle.std.specs.Prelude.{◌≡◌};
ghost use Rattle.beam_model.specs.NativeNames.{is_erlang, allowed, built_in_of};

use crate::name::{is_built_in, native_named};
use beam_model::function::Import;
use beam_model::native::Native;
use beam_term::Atom;

/// Whether a module has this name: its functions are natives, and it can't be loaded.
pub fn is_erlang(module: &Atom) -> bool
    ensures { result ≡ is_erlang «module».now }
{
    module.as_str() == "erlang"
}

fn allowed(native: Native) -> Option<Native>
    ensures { result ≡ allowed native }
{
    if is_built_in(native) {
        Some(native)
    } else {
        None
    }
}

/// The native that an import names, where an instruction of built-in functions may call it.
#[tactic(auto, unfolding(beam_model::specs::NativeNames::built_in_of))]
pub fn built_in_of(import: &Import) -> Option<Native>
    ensures { result ≡ built_in_of import.now }
{
    if !is_erlang(&import.module) {
        return None;
    }
    match native_named(&import.function, import.arity) {
        Some(native) => allowed(native),
        None => None,
    }
}
