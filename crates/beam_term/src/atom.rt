// Source: External Term Format, ATOM_UTF8_EXT; Erlang Reference Manual, "Data Types", "Atom".
ghost use Rattle.std.specs.Prelude.{◌≡◌, length};
ghost use Rattle.std.specs.Str.{chars};

use crate::error::{AtomError, TermError};
use std::alloc::{AllocError, Global};
use std::cmp::Ordering;
use std::fmt;
use std::fmt::Debug;
use std::hash::{Hash, Hasher};
use std::marker::Model;
use std::sync::ArcStr;

/// An atom: a text of at most 255 characters, which contracts see as its UTF-8 bytes.
#[derive(Drop)]
pub struct Atom {
    text: ArcStr,
}

impl Model for Atom {
    ghost use Rattle.std.specs.Prelude.{List, ℕ};
    ghost use Rattle.std.specs.Arc.{arc_str_bytes};
    ghost use Rattle.beam_term.specs.Atom.{IsAtomText};

    ghost Value = { List ℕ };

    ghost view = { λ a. arc_str_bytes a.text };

    ghost invariant = { λ a. IsAtomText (arc_str_bytes a.text) };
}

fn char_count(text: &str) -> usize
    ensures { result ≡ length (chars text.now) }
{
    text.chars().count()
}

impl Atom {
    ghost use Rattle.std.specs.Prelude.{◌≡◌, ◌<◌, ◌↔◌, IfOk, IsErrOf, length};
    ghost use Rattle.std.specs.Str.{chars};
    ghost use Rattle.std.specs.Result.{IsOkUnless};
    ghost use Rattle.beam_term.specs.Atom.{IsAtomText};

    /// The atom of this text. Fails with TooLong where it has more than 255 characters.
    pub fn new(alloc: Global, text: &str) -> Result<Atom, AtomError>
        ensures ok { IfOk result (λ a. a ≡ text.now) }
        ensures too_long { IsErrOf result AtomError.TooLong ↔ (255 < length (chars text.now)) }
    {
        if char_count(text) > 255 {
            return Err(AtomError::TooLong);
        }
        Ok(Atom {
            text: ArcStr::from_str(alloc, text)?,
        })
    }

    /// The atom's text.
    pub fn as_str(&self) -> &str
        ensures value { result.now ≡ self.now }
        ensures lawful { IsAtomText self.now }
    {
        self.text.as_str()
    }

    /// The same atom with one more owner; no text is copied.
    pub fn try_share(&self) -> Result<Atom, TermError>
        ensures ok { IfOk result (λ a. a ≡ self.now) }
        ensures memory { IsOkUnless result TermError.NoMemory }
    {
        Ok(Atom {
            text: self.text.clone()?,
        })
    }
}

impl Clone for Atom {
    ghost use Rattle.std.specs.Prelude.{◌≡◌};

    ghost is_clone = { λ a b. b ≡ a };

    fn clone(&self) -> Result<Atom, AllocError> {
        Ok(Atom {
            text: self.text.clone()?,
        })
    }
}

impl fmt::Debug for Atom {
    fn fmt<W: fmt::Write>(&self, f: &mut fmt::Formatter<W>) -> fmt::Result {
        self.as_str().fmt(f)
    }
}

impl PartialEq for Atom {
    ghost use Rattle.std.specs.Prelude.{nat_eq};
    ghost use Rattle.std.proofs.Common.{rules};
    ghost use Rattle.std.specs.Cmp.Rules.{comparing};
    ghost use Rattle.std.specs.Cmp.Lexicographic.{pointwise};

    ghost eq = { pointwise nat_eq };

    ghost laws = { Prim.search (comparing, rules) };

    fn eq(&self, other: &Atom) -> bool {
        self.as_str() == other.as_str()
    }
}

impl Eq for Atom {
    ghost use Rattle.std.proofs.Common.{rules};
    ghost use Rattle.std.specs.Cmp.Rules.{comparing};

    ghost laws = { Prim.search (comparing, rules) };
}

impl PartialOrd for Atom {
    ghost use Rattle.std.specs.Ordering.{as_partial_cmp, nat_cmp};
    ghost use Rattle.std.specs.Cmp.Lexicographic.{slice_cmp, texts_po};

    ghost partial_cmp = { as_partial_cmp (slice_cmp nat_cmp) };

    ghost laws = { texts_po };

    fn partial_cmp(&self, other: &Atom) -> Option<Ordering> {
        Some(self.cmp(other))
    }
}

impl Ord for Atom {
    ghost use Rattle.std.specs.Prelude.{◌≡◌, refl};
    ghost use Rattle.std.specs.Ordering.{nat_cmp};
    ghost use Rattle.std.specs.Str.{chars};
    ghost use Rattle.std.specs.Cmp.Lexicographic.{slice_cmp, nat_list_cmp_total, texts_ties};

    ghost cmp = { slice_cmp nat_cmp };

    ghost total = { nat_list_cmp_total };

    ghost matches_partial_cmp = { λ x y. refl };

    ghost matches_eq = { texts_ties };

    /// The order of atoms: by code points, and so by the bytes of UTF-8.
    fn cmp(&self, other: &Atom) -> Ordering
        ensures by_bytes { result ≡ slice_cmp nat_cmp self.now other.now }
        ensures by_code_points { result ≡ slice_cmp nat_cmp (chars self.now) (chars other.now) }
    {
        let text = self.as_str();
        let other_text = other.as_str();
        text.cmp(other_text)
    }
}

impl Hash for Atom {
    ghost use Rattle.std.proofs.Common.{rules};
    ghost use Rattle.std.specs.Hash as fed;
    ghost use Rattle.std.specs.Cmp.Rules.{hashing};

    ghost hash_input = { fed.str };

    ghost respects_eq = { Prim.search (hashing, rules) };

    fn hash<H: Hasher>(&self, state: &mut H) {
        self.as_str().hash(state)
    }
}
