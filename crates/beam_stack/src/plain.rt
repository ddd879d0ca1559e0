//! Values that own no memory, which are forgotten and not dropped. Nothing else of a process is forgotten.
ghost use Rattle.std.specs.Prelude.{◌≡◌, true};
ghost use Rattle.beam_stack.specs.Plain.{is_plain};
ghost use Rattle.beam_stack.specs.Words.{needs_no_drop};

use crate::word::Word;
use beam_term::Term;
use std::mem;

/// Forgets a term that owns no memory.
#[inline(always)]
pub fn forget_plain(term: Term)
    requires plain { is_plain term ≡ true }
{
    mem::forget(term);
}

/// Forgets a word that owns no memory.
#[inline(always)]
pub(crate) fn forget_plain_word(word: Word)
    requires plain { needs_no_drop word ≡ true }
{
    mem::forget(word);
}
