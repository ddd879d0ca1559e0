//! A part of a form.

use std::marker::Model;

/// A part of a form, as text.
#[derive(Debug, Drop)]
pub struct FormPart<'a> {
    text: &'a [u8],
}

impl<'a> Model for FormPart<'a> {
    ghost use Rattle.std.specs.Prelude.{ℕ, List};

    ghost Value = { List ℕ };

    ghost view = { λ p. p.text.now };
}

impl<'a> FormPart<'a> {
    ghost use Rattle.std.specs.Prelude.{◌≡◌};

    pub fn new(text: &'a [u8]) -> FormPart<'a>
        ensures { result ≡ text.now }
    {
        FormPart { text }
    }

    pub fn text(&self) -> &'a [u8]
        ensures { result.now ≡ self.now }
    {
        self.text
    }
}
