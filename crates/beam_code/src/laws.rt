//! Laws of the Code chunk. The functions do nothing: their contracts are proved.

ghost use Rattle.std.specs.Prelude.{◌≡◌, ◌↔◌, ℕ, List, Some, Ok, true, false, map};
ghost use Rattle.std.specs.List.{All};
ghost use Rattle.beam_model.specs.CodeChunk.{CodeParts, is_end, code_of};
ghost use Rattle.beam_model.specs.Opcodes.{kinds_of};
ghost use Rattle.beam_model.specs.Loadable.{all_operands, is_within};
ghost use Rattle.beam_model.specs.Assembly.{Numbering, code_bytes, without_line_number};
ghost use Rattle.beam_model.specs.Tables.{Tables};
ghost use Rattle.beam_model.specs.CodeForm.{IsCode};

/// Instructions are read exactly from the code chunk in which they stand one after the other, up to int_code_end.
pub fn code_is_read()
    ensures { (t : Tables) (bytes : List ℕ) (code : CodeParts) → IsCode t code bytes
        ↔ (code_of t.atoms t.imports t.literals bytes ≡ Ok code) }
{}

/// Written instructions are read again: those with operands of their kinds, and none of them int_code_end.
pub fn written_is_read()
    ensures { (n : Numbering) (p : CodeParts) (bytes : List ℕ)
        → All (λ i. (is_end i.opcode ≡ false) × (all_operands is_within (kinds_of i.opcode) i.operands ≡ true)) p.instructions
        → code_bytes n p ≡ Some bytes
        → code_of n.atoms n.imports n.literals bytes ≡ Ok (record p { instructions = map without_line_number p.instructions }) }
{}
