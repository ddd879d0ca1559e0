//! Laws of tables. The functions do nothing: their contracts are proved.

ghost use Rattle.std.specs.Prelude.{◌≡◌, ◌↔◌, ℕ, List, Some, Ok};
ghost use Rattle.beam_model.specs.Form.{Form};
ghost use Rattle.beam_model.specs.Tables.{Tables, tables_at};
ghost use Rattle.beam_model.specs.TablesForm.{AreTables};

/// Tables are read exactly from the chunks that spell them, if there is a code chunk too.
pub fn tables_are_read()
    ensures { (form : Form) (t : Tables) (code : List ℕ) → form.code ≡ Some code → AreTables form t ↔ (tables_at form ≡ Ok t) }
{}
