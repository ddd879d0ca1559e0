//! Laws of printing, reading and the grammar of terms.

ghost use Rattle.std.specs.Prelude.{◌≡◌, Ok, ℕ, List};
ghost use Rattle.beam_term.specs.TermValue.{TermValue, IsTerm};
ghost use Rattle.beam_model.specs.Text.{HasText, text_of};
ghost use Rattle.beam_model.specs.TextReading.{term_of_text};
ghost use Rattle.beam_model.specs.TextGrammar.{IsTextOf};

/// The text that is printed of a term is one of its texts, and is read as that term, unless a pid
/// or a reference stands in it.
pub fn printed_text_is_read()
    ensures read { (t : TermValue) → IsTerm t → HasText t → term_of_text (text_of t) ≡ Ok t }
    ensures spelled { (t : TermValue) → IsTerm t → HasText t → IsTextOf (text_of t) t }
{}

/// A text spells at most one term.
pub fn text_has_one_value()
    ensures { (text : List ℕ) (t u : TermValue) → IsTerm t → IsTerm u → IsTextOf text t → IsTextOf text u → t ≡ u }
{}
