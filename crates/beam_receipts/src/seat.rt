//! The receipt of a seat.
ghost use Rattle.std.specs.Prelude.{◌≡◌};

use crate::brand::NodeBrand;
use crate::rule::Claim;
use atomic_table::Badge;
use std::marker::{Model, PhantomData};

/// A seat's token: its number, and the claim that its entries are exactly the journal's entries of that number, and that each of its
/// commands that were refused could be refused so. Contracts see the number, how many entries of the journal can be in memory, the entries
/// and the refused commands; it stores the number.
pub struct SeatReceipt<B: NodeBrand> {
    pub(crate) pass: Badge<Claim>,
    pub(crate) number: u32,
    pub(crate) brand: PhantomData<B>,
}

impl<B: NodeBrand> Drop for SeatReceipt<B> {
    fn drop(self) {
        let SeatReceipt {
            pass: _pass,
            number: _number,
            brand: _brand,
        } = self;
    }
}

impl<B: NodeBrand> Model for SeatReceipt<B> {
    ghost use Rattle.std.specs.Prelude.{◌≡◌, [], ◌∷◌};
    ghost use Rattle.std.specs.Coded.{codes};
    ghost use Rattle.beam_term.specs.Coding.{term_code};
    ghost use Rattle.beam_receipts.specs.Receipts.{SeatHistory};
    ghost use Rattle.beam_receipts.specs.Refused.{AreFullAt};
    ghost use Rattle.beam_receipts.specs.Rule.{seat_claim, kept_by, refused_by};

    ghost Value = { SeatHistory };

    ghost coded = { Prim.hlevel (codes, term_code) };

    ghost view = { λ s. record { number = s.number; limit = B.limit; kept = kept_by s.pass.views; refused = refused_by s.pass.views } };

    ghost invariant = { λ s. (s.pass.table_id ≡ B.table)
        × (s.pass.views ≡ seat_claim (record { number = s.number; kept = kept_by s.pass.views; refused = refused_by s.pass.views }) ∷ [])
        × AreFullAt B.limit (refused_by s.pass.views) };
}

impl<B: NodeBrand> SeatReceipt<B> {
    /// The seat's number.
    pub fn number(&self) -> u32
        ensures { result ≡ self.now.number }
    {
        self.number
    }
}
