//! Laws of rows over break spots.
ghost use Rattle.std.specs.Prelude.{◌≡◌, ℕ, Bool, []};
ghost use Rattle.beam_machine.specs.Code.{Code};
ghost use Rattle.beam_machine.specs.Process.{Process};
ghost use Rattle.beam_machine.specs.Private.{private_rows, private_to_spot};

/// Without break spots the rows are the private rows, whatever the process may pass.
pub fn rows_without_spots()
    ensures { (passes : Bool) (code : Code) (n : ℕ) (p : Process) → private_to_spot [] passes code n p ≡ private_rows code n p }
{}
