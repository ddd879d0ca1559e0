//! A slice.

use beam_proc::private::Private;
use std::marker::Model;

/// Rows of a process that were executed apart from the node, at most 4,000.
#[derive(Drop)]
pub struct Slice {
    /// How many rows there are, the process after them, the signals that they sent, and how they end.
    pub rows: Private,
    /// Whether an allocation failure ended them. They then end as if no more than these had been asked for.
    pub is_cut: bool,
}

impl Model for Slice {
    ghost use Rattle.std.specs.Coded.{codes};
    ghost use Rattle.beam_term.specs.Coding.{term_code};
    ghost use Rattle.beam_step.specs.Slices.{Slice as TheSlice};

    ghost Value = { TheSlice };

    ghost coded = { Prim.hlevel (codes, term_code) };

    ghost view = { λ s. record { rows = s.rows; cut = s.is_cut } };
}
