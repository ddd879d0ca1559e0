//! The rule of the node's table. The table has one word, which is never changed, and passes, each with a claim about the node.

use crate::brand::{GhostEntry, GhostOrigin, GhostPid, GhostRefusedCommand};
use atomic_table::{Join, Play, Seat, Split, Table, TableRule};
use std::alloc::Global;
use std::marker::{Model, PhantomData};

/// The claim of a pass. No value of it is made.
#[derive(Drop)]
pub struct Claim {}

impl Model for Claim {
    ghost use Rattle.std.specs.Coded.{codes};
    ghost use Rattle.beam_term.specs.Coding.{term_code};
    ghost use Rattle.beam_receipts.specs.Rule.{Claim as TheClaim, no_claim};

    ghost Value = { TheClaim };

    ghost coded = { Prim.hlevel (codes, term_code) };

    ghost view = { λ _. no_claim };
}

pub struct Rule;

impl TableRule<u8, Claim, ()> for Rule {
    ghost use Rattle.beam_receipts.specs.Receipts.{empty_history};
    ghost use Rattle.beam_receipts.specs.Rule.{ClaimsAgree, keeper_claim};

    ghost holds = { λ _ s. ClaimsAgree s.views };

    ghost first = { λ _. keeper_claim empty_history };
}

pub(crate) type Passes = Table<u8, Claim, (), Rule, Global>;

pub(crate) type Pass = Seat<u8, Claim>;

/// The keeper's pass gives a seat.
pub(crate) struct GivesSeat;

impl Split<Claim> for GivesSeat {
    ghost use Rattle.std.specs.Prelude.{option_map};
    ghost use Rattle.beam_receipts.specs.Rule.{new_seat_claim, with_seat};

    ghost left = { λ c. record c { history = option_map with_seat c.history } };

    ghost right = { new_seat_claim };
}

/// The keeper's pass gives a ticket.
pub(crate) struct ChecksOut<O> {
    out: PhantomData<O>,
}

impl<O: GhostOrigin> Split<Claim> for ChecksOut<O> {
    ghost use Rattle.std.specs.Prelude.{option_map};
    ghost use Rattle.beam_receipts.specs.Rule.{new_ticket_claim, with_origin};

    ghost left = { λ c. record c { history = option_map (with_origin O.origin) c.history } };

    ghost right = { new_ticket_claim O.origin };
}

/// The keeper's pass notes that a process was checked in.
pub(crate) struct ChecksIn<P> {
    pid: PhantomData<P>,
}

impl<P: GhostPid> Split<Claim> for ChecksIn<P> {
    ghost use Rattle.std.specs.Prelude.{option_map};
    ghost use Rattle.beam_receipts.specs.Rule.{no_claim, with_checked_in};

    ghost left = { λ c. record c { history = option_map (with_checked_in P.pid) c.history } };

    ghost right = { λ _. no_claim };
}

/// The keeper's pass enters an entry, and gives back the seat's history with it, if it had taken one in.
pub(crate) struct Enters<E> {
    entry: PhantomData<E>,
}

impl<E: GhostEntry> Split<Claim> for Enters<E> {
    ghost use Rattle.beam_receipts.specs.Rule.{alone_with, given_back_with};

    ghost left = { alone_with E.entry };

    ghost right = { given_back_with E.entry };
}

/// The keeper's pass gives back the seat's history that it had taken in, with one more command that was refused.
pub(crate) struct NotesRefused<F> {
    refused: PhantomData<F>,
}

impl<F: GhostRefusedCommand> Split<Claim> for NotesRefused<F> {
    ghost use Rattle.beam_receipts.specs.Rule.{alone, given_back_refused};

    ghost left = { alone };

    ghost right = { given_back_refused F.refused };
}

/// The keeper's pass gives a drain receipt's, which claims no entries.
pub(crate) struct GivesDrainReceipt;

impl Split<Claim> for GivesDrainReceipt {
    ghost use Rattle.beam_receipts.specs.Rule.{alone, new_drain_claim};

    ghost left = { alone };

    ghost right = { new_drain_claim };
}

/// The keeper's pass notes that all entries have left memory, and gives back the drain receipt's, which now claims them all.
pub(crate) struct Drains;

impl Split<Claim> for Drains {
    ghost use Rattle.beam_receipts.specs.Rule.{alone_drained, drained_claim};

    ghost left = { alone_drained };

    ghost right = { drained_claim };
}

/// The keeper's pass takes in another, and gives it back.
pub(crate) struct Shown;

impl Join<Claim> for Shown {
    ghost use Rattle.beam_receipts.specs.Rule.{taken_in, no_claim};

    ghost both = { taken_in };

    ghost spent = { no_claim };
}

impl Split<Claim> for Shown {
    ghost use Rattle.beam_receipts.specs.Rule.{alone, given_back};

    ghost left = { alone };

    ghost right = { given_back };
}

/// The keeper's pass is compared with the claim that it took in.
pub(crate) struct Compared;

impl Play<u8, Claim> for Compared {
    ghost use Rattle.std.specs.Prelude.{◌≡◌};
    ghost use Rattle.beam_receipts.specs.Rule.{Compares};

    ghost then = { λ _ before _ after. (after.0 ≡ before.0) × Compares before.0 };
}
