//! The receipt of a ticket.
ghost use Rattle.std.specs.Prelude.{◌≡◌, ◌-◌, ◌^◌, min};

use crate::brand::NodeBrand;
use crate::rule::Pass;
use std::marker::{Model, PhantomData};

/// A ticket's token: the claim that the checkout of its number had its origin. Contracts see the number and the origin; it stores the
/// number, which stays at 2^64 - 1 for later checkouts.
#[derive(Drop)]
pub struct TicketReceipt<B: NodeBrand> {
    pub(crate) pass: Pass,
    pub(crate) serial: u64,
    pub(crate) brand: PhantomData<B>,
}

impl<B: NodeBrand> Model for TicketReceipt<B> {
    ghost use Rattle.std.specs.Prelude.{◌≡◌, ◌-◌, ◌^◌, min, []};
    ghost use Rattle.std.specs.Coded.{codes};
    ghost use Rattle.beam_term.specs.Coding.{term_code};
    ghost use Rattle.beam_receipts.specs.Receipts.{Checkout};
    ghost use Rattle.beam_receipts.specs.Rule.{ticket_claim, checkout_of};

    ghost Value = { Checkout };

    ghost coded = { Prim.hlevel (codes, term_code) };

    ghost view = { λ t. checkout_of t.pass.me.0 };

    ghost invariant = { λ t. (t.pass.table_id ≡ B.table) × (t.pass.me ≡ (ticket_claim (checkout_of t.pass.me.0), []))
        × (t.serial ≡ min (checkout_of t.pass.me.0).serial (2 ^ 64 - 1)) };
}

impl<B: NodeBrand> TicketReceipt<B> {
    /// The checkout's number, from 0; from 2^64 - 1 on it stays at that.
    pub fn serial(&self) -> u64
        ensures { result ≡ min self.now.serial (2 ^ 64 - 1) }
    {
        self.serial
    }
}
