//! Laws of printing and reading listings. The functions do nothing: their contracts are proved.

ghost use Rattle.std.specs.Prelude.{◌≡◌, ◌↔◌, ℕ, List, ◌∷◌, ◌++◌, length, Some, Ok, IsTrue, codes};
ghost use Rattle.beam_model.specs.Assembly.{without_line_numbers};
ghost use Rattle.beam_model.specs.declared.function.Signature.{Signature as TheSignature};
ghost use Rattle.beam_model.specs.declared.instruction.Operand.{Operand as TheOperand};
ghost use Rattle.beam_model.specs.declared.item.Item.{Item as TheItem};
ghost use Rattle.beam_model.specs.declared.opcode.Kind.{Kind};
ghost use Rattle.beam_model.specs.Forms.{tuple_parts, list_parts, is_closing, stop_in};
ghost use Rattle.beam_model.specs.Listing.{Listing};
ghost use Rattle.beam_model.specs.ListingForms.{attributes_of, exports_of, item_of, labels_of, module_of, operand_of_text};
ghost use Rattle.beam_model.specs.ListingReading.{listing_of_text};
ghost use Rattle.beam_model.specs.ListingText.{listing_text};
ghost use Rattle.beam_model.specs.Loads.{IsLoadable};
ghost use Rattle.beam_listing.specs.BracketForm.{AreBracketed, IsBalanced, IsPlain};
ghost use Rattle.beam_listing.specs.ItemForm.{IsAttributesForm, IsExportsForm, IsItemForm, IsLabelsForm, IsModuleForm};
ghost use Rattle.beam_listing.specs.ListingForm.{IsListingText};
ghost use Rattle.beam_listing.specs.OperandForm.{IsOperand};
ghost use Rattle.beam_listing.specs.Printed.{HasListingText, TermsHaveText};
ghost use Rattle.beam_listing.specs.Typed.{IsListing};
ghost use Rattle.beam_listing.specs.WorkedForm.{moves_ok};

/// A listing is read exactly from the text in which its forms stand.
pub fn texts_are_read()
    ensures { (text : List ℕ) (l : Listing) → IsListingText text l ↔ (listing_of_text text ≡ Ok l) }
{}

/// The elements of a text in brackets are read exactly as they stand there, of `{..}` and of `[..]`.
pub fn elements_are_read()
    ensures tuple { (elements : List (List ℕ)) (text : List ℕ) → AreBracketed 123 125 elements text ↔ (tuple_parts text ≡ Some elements) }
    ensures list { (elements : List (List ℕ)) (text : List ℕ) → AreBracketed 91 93 elements text ↔ (list_parts text ≡ Some elements) }
{}

/// Reading a form gives exactly the value that the form has by what stands in it: the heads, then functions, instructions and remarks,
/// and within them the operands by their kinds.
pub fn forms_mean()
    ensures module_head { (name form : List ℕ) → IsModuleForm name form ↔ (module_of form ≡ Some name) }
    ensures exports_head { (signatures : List TheSignature) (form : List ℕ) → IsExportsForm signatures form ↔ (exports_of form ≡ Some signatures) }
    ensures attributes_head { (about form : List ℕ) → IsAttributesForm about form ↔ (attributes_of form ≡ Some about) }
    ensures labels_head { (n : ℕ) (form : List ℕ) → IsLabelsForm n form ↔ (labels_of form ≡ Some n) }
    ensures item { (x : TheItem) (form : List ℕ) → IsItemForm x form ↔ (item_of form ≡ Some x) }
    ensures operand { (kind : Kind) (o : TheOperand) (text : List ℕ) → IsOperand kind o text ↔ (operand_of_text kind text ≡ Some o) }
{}

/// A text is balanced, with no `mark` outside of its quotes and brackets, exactly where the first mark or closing bracket outside of
/// them is the one right after the text.
pub fn pieces_are_balanced()
    ensures mark { (mark : ℕ) (text rest : List ℕ) → IsPlain mark → IsBalanced mark text ↔ (stop_in mark (text ++ (mark ∷ rest)) ≡ Some (length text)) }
    ensures closing { (mark close : ℕ) (text rest : List ℕ) → IsPlain mark → IsTrue (is_closing close)
        → IsBalanced mark text ↔ (stop_in mark (text ++ (close ∷ rest)) ≡ Some (length text)) }
{}

/// A worked form: `{move,{atom,ok},{x,0}}` is the instruction that moves the atom `ok` to x0.
pub fn worked_form()
    ensures { IsItemForm moves_ok (codes "{move,{atom,ok},{x,0}}") }
{}

/// A text has at most one listing.
pub fn one_listing()
    ensures { (text : List ℕ) (l m : Listing) → IsListingText text l → IsListingText text m → l ≡ m }
{}

/// The printed text of a listing is read as that listing, but with the operand 0 in each line, where its heads and exports are
/// lawful, its operands are of their opcodes' kinds, its natives are erlang's with as many arguments as their opcodes have, none
/// of them is raise/2 (`{bif,raise,F,[S,S],D}` is read as the instruction raise), and no pid and no reference stands in its terms.
/// A listing that can be loaded has all this but the last.
pub fn printed_is_read()
    ensures read { (l : Listing) → IsListing l → HasListingText l → listing_of_text (listing_text l) ≡ Ok (without_line_numbers l) }
    ensures loadable { (l : Listing) → IsListing l → IsLoadable l → TermsHaveText l → listing_of_text (listing_text l) ≡ Ok (without_line_numbers l) }
{}

/// In a listing that a text has, each line has the operand 0, so its printed text is read as the same listing.
pub fn read_is_printed()
    ensures canonical { (text : List ℕ) (l : Listing) → listing_of_text text ≡ Ok l → without_line_numbers l ≡ l }
    ensures same { (text : List ℕ) (l : Listing) → listing_of_text text ≡ Ok l → IsListing l → HasListingText l → listing_of_text (listing_text l) ≡ Ok l }
{}
