//! The atom or the number that an operand is.
ghost use Rattle.std.specs.Prelude.{◌≡◌};
ghost use Rattle.std.specs.Option.{option_copied};
ghost use Rattle.beam_model.specs.Loadable.{atom_in, number_in};

use crate::instruction::{Argument, Operand};
use beam_term::Atom;

/// The atom that an operand is.
pub fn atom_in(operand: &Operand) -> Option<&Atom>
    ensures { option_copied result ≡ atom_in operand.now }
{
    match operand {
        Operand::One(Argument::Term(term)) => term.as_atom(),
        _ => None,
    }
}

/// The number that an operand is.
pub fn number_in(operand: &Operand) -> Option<u32>
    ensures { result ≡ number_in operand.now }
{
    match operand {
        Operand::One(Argument::Number(number)) => Some(*number),
        _ => None,
    }
}
