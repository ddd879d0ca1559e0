//! Laws of the functions of a listing. The functions here do nothing: their contracts are proved.

ghost use Rattle.std.specs.Prelude.{◌≡◌, ◌↔◌, ℕ, List, [], ◌∷◌, codes, Some, IsTrue};
ghost use Rattle.beam_model.specs.declared.function.Function.{Function};
ghost use Rattle.beam_model.specs.declared.instruction.Instruction.{Instruction};
ghost use Rattle.beam_model.specs.declared.opcode.Opcode.TheVariants as op;
ghost use Rattle.beam_model.specs.Listing.{Listing};
ghost use Rattle.beam_model.specs.Loadable.{functions_of, are_limits_met};
ghost use Rattle.beam_model.specs.Loads.{IsLoadable};
ghost use Rattle.beam_model.specs.Heads.{label, func_info, AreFunctions, IsWellFormed};

/// The conditions of the check hold exactly of the well-formed listings.
pub fn loadable_is_well_formed()
    ensures { (l : Listing) → IsLoadable l ↔ IsWellFormed l }
{}

/// The functions that are found from instruction to instruction are those that stand in the listing, one after the other; the
/// limits say that each label instruction has a number.
pub fn functions_are_found()
    ensures found { (l : Listing) (functions : List Function) → AreFunctions l.name functions l.instructions → functions_of l ≡ Some functions }
    ensures told { (l : Listing) (functions : List Function) → IsTrue (are_limits_met l) → functions_of l ≡ Some functions
        → AreFunctions l.name functions l.instructions }
{}

/// Instructions are at most one list of functions.
pub fn one_list_of_functions()
    ensures { (name : List ℕ) (fs gs : List Function) (code : List Instruction) → AreFunctions name fs code → AreFunctions name gs code → fs ≡ gs }
{}

/// Worked functions of a module `m`: f/0, which returns, and g/1, whose body has a label and a line.
pub fn worked_functions()
    ensures none { AreFunctions (codes "m") [] [] }
    ensures two { AreFunctions (codes "m")
        (record { name = codes "f"; arity = 0; entry = 2 } ∷ record { name = codes "g"; arity = 1; entry = 4 } ∷ [])
        (label 1 ∷ func_info (codes "m") (codes "f") 0 ∷ label 2 ∷ record { opcode = op.Return; operands = [] }
        ∷ label 3 ∷ record { opcode = op.Line; operands = [] } ∷ func_info (codes "m") (codes "g") 1 ∷ label 4 ∷ label 5
        ∷ record { opcode = op.Line; operands = [] } ∷ record { opcode = op.Return; operands = [] } ∷ []) }
{}
