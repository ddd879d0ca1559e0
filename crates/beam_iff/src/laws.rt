//! Laws of forms. The functions do nothing: their contracts are proved.

ghost use Rattle.std.specs.Prelude.{◌≡◌, ◌↔◌, ◌<◌, ◌^◌, ℕ, List, length, take, Ok, Err};
ghost use Rattle.beam_model.specs.Form.{Form, truncated, form_at, form_end, form_body, form_bytes};
ghost use Rattle.beam_model.specs.ChunkForm.{IsForm};

/// A form is read exactly from the bytes that spell it: name, size, type, and chunks one after the other.
pub fn forms_are_read()
    ensures { (bytes : List ℕ) (form : Form) → IsForm form bytes ↔ (form_at bytes ≡ Ok form) }
{}

/// A file that spells a form and is cut before the form's end is truncated.
pub fn cut_is_truncated()
    ensures { (bytes : List ℕ) (form : Form) (n : ℕ) → form_at bytes ≡ Ok form → n < form_end bytes → form_at (take n bytes) ≡ Err truncated }
{}

/// The bytes that are written for a form are read as that form, where its size fits in four bytes.
pub fn written_is_read()
    ensures { (form : Form) → length (form_body form) < 2 ^ 32 → form_at (form_bytes form) ≡ Ok form }
{}
