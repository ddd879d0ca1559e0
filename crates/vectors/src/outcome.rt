//! The outcome of a row.
ghost use Rattle.std.specs.Prelude.{◌≡◌, ◌↔◌, string_bytes};

/// The outcome of a row: it holds, or another text was found in place of the wanted one.
#[derive(Drop)]
pub enum CheckOutcome {
    Holds,
    Fails { wanted: String, found: String },
}

impl CheckOutcome {
    /// The outcome of a row that wants one text and for which another, or the same, was found.
    pub fn of(wanted: String, found: String) -> CheckOutcome
        ensures { (result ≡ CheckOutcome.Holds) ↔ (string_bytes wanted ≡ string_bytes found) }
    {
        if wanted.as_str() == found.as_str() {
            CheckOutcome::Holds
        } else {
            CheckOutcome::Fails { wanted, found }
        }
    }
}
