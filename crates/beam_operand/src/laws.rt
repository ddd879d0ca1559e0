//! Laws of the spellings of operands.

ghost use Rattle.std.specs.Prelude.{◌≡◌, ◌≢◌, ◌<◌, ◌≤◌, ◌++◌, ℕ, pos, List, [], ◌∷◌, length, slice_index, Ok, Err};
ghost use Rattle.beam_model.specs.declared.compact.Compact.TheVariants.{Integer, Literal, X};
ghost use Rattle.beam_model.specs.declared.compact.CompactOperand.{CompactOperand};
ghost use Rattle.beam_model.specs.declared.compact.CompactOperand.TheVariants.{List as ListOperand, One};
ghost use Rattle.beam_model.specs.Compact.{OperandFault, truncated, operand_at, HasOperandNumbers, spelling};
ghost use Rattle.beam_model.specs.CompactForm.{IsSpelling};

/// Reading from the left gives exactly the operand at the front by the format's definition: an operand is read, with any bytes after
/// it, if and only if the bytes begin with a spelling of it.
pub fn spelled_is_read()
    ensures read { (text more : List ℕ) (v : CompactOperand) → IsSpelling v text → operand_at (text ++ more) ≡ Ok (v, more) }
    ensures spelled { (bytes rest : List ℕ) (v : CompactOperand) → operand_at bytes ≡ Ok (v, rest)
        → (text : List ℕ) × (bytes ≡ text ++ rest) × IsSpelling v text }
{}

/// Worked bytes: 51, and in eleven bits 09 05, spell the integer 5; 47 30 the literal of index 3; 17 20 03 13 the list of x0 and x1.
pub fn worked_bytes()
    ensures short { IsSpelling (One (Integer (pos 5))) (81 ∷ []) }
    ensures long { IsSpelling (One (Integer (pos 5))) (9 ∷ 5 ∷ []) }
    ensures literal { IsSpelling (One (Literal 3)) (71 ∷ 48 ∷ []) }
    ensures list { IsSpelling (ListOperand (X 0 ∷ X 1 ∷ [])) (23 ∷ 32 ∷ 3 ∷ 19 ∷ []) }
{}

/// No spelling is the beginning of another: bytes begin with one spelling at most.
pub fn one_spelling()
    ensures { (text other more rest : List ℕ) (v w : CompactOperand) → IsSpelling v text → IsSpelling w other
        → text ++ more ≡ other ++ rest → (text ≡ other) × (v ≡ w) }
{}

/// A fault other than Truncated is one of the bytes that were read, so it stays with any bytes after them; and a spelling that is
/// cut anywhere is Truncated.
pub fn faults_from_the_left()
    ensures stays { (bytes more : List ℕ) (e : OperandFault) → e ≢ truncated → operand_at bytes ≡ Err e
        → operand_at (bytes ++ more) ≡ Err e }
    ensures cut { (text more : List ℕ) (v : CompactOperand) → more ≢ [] → IsSpelling v (text ++ more)
        → operand_at text ≡ Err truncated }
{}

/// The bytes that are written for an operand spell it, and are read as it, whatever bytes follow.
pub fn written_is_read()
    ensures spells { (v : CompactOperand) (text : List ℕ) → HasOperandNumbers v → spelling v ≡ Ok text → IsSpelling v text }
    ensures again { (v : CompactOperand) (text more : List ℕ) → HasOperandNumbers v → spelling v ≡ Ok text
        → operand_at (text ++ more) ≡ Ok (v, more) }
{}

/// Each operand that is read can be written, and no spelling is shorter than what is written.
pub fn written_is_shortest()
    ensures { (other : List ℕ) (v : CompactOperand) → ((i : ℕ) → slice_index other i < 256) → IsSpelling v other
        → (text : List ℕ) × (spelling v ≡ Ok text) × (length text ≤ length other) }
{}
