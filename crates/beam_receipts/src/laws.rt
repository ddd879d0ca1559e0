//! Laws of the entries of seats.

ghost use Rattle.std.specs.Prelude.{◌≡◌, ℕ, List, [], ◌++◌, length, count_by, is_some};
ghost use Rattle.beam_machine.specs.Journal.{Entry};
ghost use Rattle.beam_receipts.specs.Receipts.{of_seat, sum_below, AreOfGiven};

/// A seat's entries in a longer journal are those in the shorter one, and then its later ones.
pub fn later_entries_follow()
    ensures { (n : ℕ) (journal more : List Entry) → of_seat n (journal ++ more) ≡ of_seat n journal ++ of_seat n more }
{}

/// A seat that is still to be given has no entries.
pub fn no_entries_yet()
    ensures { (given : ℕ) (journal : List Entry) → AreOfGiven given journal → of_seat given journal ≡ [] }
{}

/// Where each entry of a seat is of one that was given, the counts of the seats' entries add up to the count of all entries of seats.
pub fn counts_add_up()
    ensures { (given : ℕ) (journal : List Entry) → AreOfGiven given journal
        → sum_below (λ n. length (of_seat n journal)) given ≡ count_by (λ e. is_some e.seat) journal }
{}
