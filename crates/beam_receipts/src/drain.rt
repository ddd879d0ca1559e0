//! The receipt of who drains a journal.
ghost use Rattle.std.specs.Prelude.{◌≡◌, length};

use crate::brand::NodeBrand;
use crate::rule::Claim;
use atomic_table::Badge;
use std::marker::{Model, PhantomData};

/// The token of who drains a journal: the claim that the journal begins with these entries, which have left memory. Contracts see the
/// entries; it stores how many they are.
pub struct DrainReceipt<B: NodeBrand> {
    pub(crate) pass: Badge<Claim>,
    pub(crate) count: u64,
    pub(crate) brand: PhantomData<B>,
}

impl<B: NodeBrand> Drop for DrainReceipt<B> {
    fn drop(self) {
        let DrainReceipt {
            pass: _pass,
            count: _count,
            brand: _brand,
        } = self;
    }
}

impl<B: NodeBrand> Model for DrainReceipt<B> {
    ghost use Rattle.std.specs.Prelude.{◌≡◌, [], ◌∷◌, List, length};
    ghost use Rattle.std.specs.Coded.{codes};
    ghost use Rattle.beam_term.specs.Coding.{term_code};
    ghost use Rattle.beam_machine.specs.Journal.{Entry};
    ghost use Rattle.beam_receipts.specs.Rule.{drain_claim, beginning_by};

    ghost Value = { List Entry };

    ghost coded = { Prim.hlevel (codes, term_code) };

    ghost view = { λ s. beginning_by s.pass.views };

    ghost invariant = { λ s. (s.pass.table_id ≡ B.table) × (s.pass.views ≡ drain_claim (beginning_by s.pass.views) ∷ [])
        × (s.count ≡ length (beginning_by s.pass.views)) };
}

impl<B: NodeBrand> DrainReceipt<B> {
    /// How many entries have left memory, as far as it knows.
    pub fn count(&self) -> u64
        ensures { result ≡ length self.now }
    {
        self.count
    }
}
