//! Places of rows.
ghost use Rattle.std.specs.Prelude.{◌≡◌};
ghost use Rattle.beam_model.specs.Place.{is_same_place};

use std::marker::Model;

/// A row of an instance.
#[derive(Clone, Copy, Debug)]
pub struct Place {
    instance: u32,
    at: usize,
}

impl Model for Place {
    ghost use Rattle.beam_model.specs.Place.{Place};

    ghost Value = { Place };

    ghost view = { λ p. record { instance = p.instance; at = p.at } };

    ghost inverse = { λ s. record { instance = s.instance; at = s.at } };
}

impl Place {
    ghost use Rattle.std.specs.Prelude.{◌≡◌};

    /// The row of that name in an instance.
    pub fn new(instance: u32, at: usize) -> Place
        ensures { result ≡ record { instance = instance; at = at } }
    {
        Place { instance, at }
    }

    /// The number of its instance.
    pub fn instance(self) -> u32
        ensures { result ≡ self.instance }
    {
        self.instance
    }

    /// The name of the row in its instance.
    pub fn at(self) -> usize
        ensures { result ≡ self.at }
    {
        self.at
    }
}

/// Whether two places are the same.
pub fn is_same_place(a: Place, b: Place) -> bool
    ensures { result ≡ is_same_place a b }
{
    a.instance == b.instance && a.at == b.at
}
