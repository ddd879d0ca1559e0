//! Laws of files. The functions do nothing: their contracts are proved.
ghost use Rattle.std.specs.Prelude.{◌≡◌, ◌↔◌, ◌<◌, ℕ, List, take, Ok, Err};
ghost use Rattle.beam_model.specs.Form.{form_end, truncated};
ghost use Rattle.beam_model.specs.Listing.{Listing};
ghost use Rattle.beam_model.specs.File.{form_fault, listing_of_file};
ghost use Rattle.beam_model.specs.CodeForm.{IsCode};
ghost use Rattle.beam_model.specs.FileForm.{IsFile};
ghost use Rattle.beam_disasm.specs.Worked.{tables, code, code_bytes, file_bytes, listing};

/// A listing is read exactly from the bytes of a file that spell it.
pub fn files_are_read()
    ensures { (bytes : List ℕ) (l : Listing) → IsFile bytes l ↔ (listing_of_file bytes ≡ Ok l) }
{}

/// A file spells at most one listing.
pub fn one_listing()
    ensures { (bytes : List ℕ) (l m : Listing) → IsFile bytes l → IsFile bytes m → l ≡ m }
{}

/// Worked bytes: the file of a module `t` with sum/1, of 184 bytes, and the 70 bytes of its code chunk.
pub fn worked_file()
    ensures code { IsCode tables code code_bytes }
    ensures file { IsFile file_bytes listing }
{}

/// A file that spells a listing and is cut before its form's end is truncated.
pub fn cut_is_truncated()
    ensures { (bytes : List ℕ) (l : Listing) (n : ℕ) → listing_of_file bytes ≡ Ok l → n < form_end bytes →
        listing_of_file (take n bytes) ≡ Err (form_fault truncated) }
{}
