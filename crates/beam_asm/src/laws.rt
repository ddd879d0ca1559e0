//! Laws of assembling. The functions do nothing: their contracts are proved.

ghost use Rattle.std.specs.Prelude.{◌≡◌, ℕ, List, Ok};
ghost use Rattle.std.specs.List.{All};
ghost use Rattle.beam_term.specs.TermValue.{IsTerm};
ghost use Rattle.beam_model.specs.Listing.{Listing};
ghost use Rattle.beam_model.specs.Loads.{IsLoadable};
ghost use Rattle.beam_model.specs.File.{listing_of_file};
ghost use Rattle.beam_model.specs.Assembly.{numbering_of, HasFile, without_line_numbers};

/// The file of a listing spells the listing, but each line with the operand 0.
pub fn assembled_is_disassembled()
    ensures { (l : Listing) (bytes : List ℕ) → IsLoadable l → All IsTerm (numbering_of l).literals
        → HasFile l bytes → listing_of_file bytes ≡ Ok (without_line_numbers l) }
{}

/// In a listing that a file spells, each line has the operand 0, so its own file spells the same listing.
pub fn disassembled_is_assembled()
    ensures canonical { (file : List ℕ) (l : Listing) → listing_of_file file ≡ Ok l → without_line_numbers l ≡ l }
    ensures same { (file bytes : List ℕ) (l : Listing) → listing_of_file file ≡ Ok l → IsLoadable l → All IsTerm (numbering_of l).literals
        → HasFile l bytes → listing_of_file bytes ≡ Ok l }
{}
