//! The keeper of a node: what it knows of the journal, the seats and the checkouts.
ghost use Rattle.std.specs.Prelude.{◌≡◌, ◌+◌, ◌-◌, ◌<◌, ◌^◌, List, [], ◌∷◌, ◌++◌, length, min, slice_get, Some, None};
ghost use Rattle.beam_machine.specs.Journal.{Entry};
ghost use Rattle.beam_receipts.specs.Receipts.{empty_history, moved_in, moved_out, of_seat, AreOfGiven};
ghost use Rattle.beam_receipts.specs.Refused.{AreFullAt, WereRefused, IsFullAt, WasRefused};
ghost use Rattle.beam_receipts.specs.Rule.{with_drain};

use crate::brand::{GhostEntry, GhostOrigin, GhostPid, GhostRefusedCommand, NodeBrand};
use crate::drain::DrainReceipt;
use crate::rule::{
    ChecksIn, ChecksOut, Compared, Drains, Enters, GivesDrainReceipt, GivesSeat, NotesRefused,
    Pass, Passes, Shown,
};
use crate::seat::SeatReceipt;
use crate::ticket::TicketReceipt;
use atomic_table::Badge;
use std::alloc::{AllocError, Global};
use std::marker::{Model, PhantomData};
use std::mem;

/// A keeper without a brand yet. Contracts see which table it has.
pub struct UnbrandedKeeper {
    passes: Passes,
    pass: Pass,
}

impl Drop for UnbrandedKeeper {
    fn drop(self) {
        let UnbrandedKeeper {
            passes: _passes,
            pass: _pass,
        } = self;
    }
}

impl Model for UnbrandedKeeper {
    ghost use Rattle.std.specs.Prelude.{◌≡◌, ◌<◌};
    ghost use Rattle.atomic_table.specs.Seated.{TableId, table_id_coded};

    ghost Value = { TableId };

    ghost coded = { table_id_coded };

    ghost use Rattle.beam_receipts.specs.Receipts.{empty_history};
    ghost use Rattle.beam_receipts.specs.Rule.{keeper_claim};

    ghost view = { λ b. b.passes.shared.table_id };

    ghost invariant = { λ b. (b.pass.table_id ≡ b.passes.shared.table_id) × (0 < b.passes.shared.table_id.words)
        × (b.pass.me.0 ≡ keeper_claim empty_history) };
}

impl UnbrandedKeeper {
    /// A new table and its first pass. Where memory is refused there is none.
    pub fn new(alloc: Global) -> Result<UnbrandedKeeper, AllocError> {
        let (passes, pass) = Passes::of_words(alloc, &[0], &())?;
        Ok(UnbrandedKeeper { passes, pass })
    }

    /// The keeper, which knows that nothing was entered, given, checked out or drained.
    pub fn branded<B: NodeBrand>(self) -> Keeper<B>
        requires { self ≡ B.table }
        ensures { result ≡ empty_history }
    {
        let UnbrandedKeeper { passes, pass } = self;
        Keeper {
            passes,
            pass,
            given: 0,
            checkouts: 0,
            brand: PhantomData,
        }
    }
}

/// The value that knows all: the journal's entries, how many seats were given, all checkouts, which processes were checked out and in, and
/// how many entries there were whenever they left memory. All that is for proofs alone; it stores how many seats and checkouts there were.
pub struct Keeper<B: NodeBrand> {
    passes: Passes,
    pass: Pass,
    given: u32,
    // stays at 2^64 - 1
    checkouts: u64,
    brand: PhantomData<B>,
}

impl<B: NodeBrand> Drop for Keeper<B> {
    fn drop(self) {
        let Keeper {
            passes: _passes,
            pass: _pass,
            given: _given,
            checkouts: _checkouts,
            brand: _brand,
        } = self;
    }
}

impl<B: NodeBrand> Model for Keeper<B> {
    ghost use Rattle.std.specs.Prelude.{◌≡◌, ◌-◌, ◌<◌, ◌^◌, min, length};
    ghost use Rattle.std.specs.Coded.{codes};
    ghost use Rattle.beam_term.specs.Coding.{term_code};
    ghost use Rattle.beam_receipts.specs.Receipts.{History};
    ghost use Rattle.beam_receipts.specs.Rule.{keeper_claim, history_of};

    ghost Value = { History };

    ghost coded = { Prim.hlevel (codes, term_code) };

    ghost view = { λ k. history_of k.pass.me.0 };

    ghost invariant = { λ k. (k.passes.shared.table_id ≡ B.table) × (k.pass.table_id ≡ B.table) × (0 < B.table.words)
        × (k.pass.me.0 ≡ keeper_claim (history_of k.pass.me.0)) × (k.given ≡ (history_of k.pass.me.0).given)
        × (k.checkouts ≡ min (length (history_of k.pass.me.0).checkouts) (2 ^ 64 - 1)) };
}

impl<B: NodeBrand> Keeper<B> {
    /// How many seats were given.
    pub fn given(&self) -> u32
        ensures { result ≡ self.now.given }
    {
        self.given
    }

    /// How many checkouts there were; it stays at 2^64 - 1.
    pub fn checkouts(&self) -> u64
        ensures { result ≡ min (length self.now.checkouts) (2 ^ 64 - 1) }
    {
        self.checkouts
    }

    /// Gives a seat's receipt, with the next number. At most 2^32 - 1 are given.
    pub fn seat(&mut self) -> SeatReceipt<B>
        requires few { self.old.given < 2 ^ 32 - 1 }
        ensures seat { result ≡ record { number = self.old.given; limit = B.limit; kept = []; refused = [] } }
        ensures keeper { self.new ≡ record self.old { given = self.old.given + 1 } }
    {
        let passes = &self.passes;
        let pass = passes.shared.split_seat::<GivesSeat>(&mut self.pass);
        let number = self.given;
        self.given += 1;
        SeatReceipt {
            pass: pass.into_badge(),
            number,
            brand: PhantomData,
        }
    }

    /// Enters an entry of a seat.
    pub fn enter_for_seat<E: GhostEntry>(&mut self, seat: &mut SeatReceipt<B>)
        requires own { E.entry.seat ≡ Some seat.old.number }
        ensures keeper { self.new ≡ record self.old { journal = self.old.journal ++ E.entry ∷ [] } }
        ensures seat { seat.new ≡ record seat.old { kept = seat.old.kept ++ E.entry ∷ [] } }
    {
        let passes = &self.passes;
        let pass = mem::replace(&mut seat.pass, Badge::blank());
        passes
            .shared
            .join_seat::<Shown>(&mut self.pass, pass.into_seat());
        let pass = passes.shared.split_seat::<Enters<E>>(&mut self.pass);
        seat.pass = pass.into_badge();
    }

    /// Notes at a seat that its command was refused. Nothing is entered, and the keeper stays as it was.
    pub fn note_refused<F: GhostRefusedCommand>(&mut self, seat: &mut SeatReceipt<B>)
        requires refused { WasRefused self.old.journal self.old.moves self.old.drains seat.old.number F.refused }
        requires full { IsFullAt B.limit (F.refused.entered - F.refused.drained) F.refused.refusal }
        ensures keeper { self.new ≡ self.old }
        ensures seat { seat.new ≡ record seat.old { refused = seat.old.refused ++ F.refused ∷ [] } }
    {
        let passes = &self.passes;
        let pass = mem::replace(&mut seat.pass, Badge::blank());
        passes
            .shared
            .join_seat::<Shown>(&mut self.pass, pass.into_seat());
        let pass = passes.shared.split_seat::<NotesRefused<F>>(&mut self.pass);
        seat.pass = pass.into_badge();
    }

    /// Enters an entry that is of no seat.
    pub fn enter_without_seat<E: GhostEntry>(&mut self)
        requires alone { E.entry.seat ≡ None }
        ensures { self.new ≡ record self.old { journal = self.old.journal ++ E.entry ∷ [] } }
    {
        let passes = &self.passes;
        passes.shared.split_seat::<Enters<E>>(&mut self.pass);
    }

    /// Gives the ticket of a checkout, with the next number.
    pub fn check_out<O: GhostOrigin>(&mut self) -> TicketReceipt<B>
        ensures ticket { result ≡ record { serial = length self.old.checkouts; origin = O.origin } }
        ensures keeper { self.new ≡ record self.old { checkouts = self.old.checkouts ++ O.origin ∷ []; moves = self.old.moves ++ moved_out O.origin.pid ∷ [] } }
    {
        let passes = &self.passes;
        let pass = passes.shared.split_seat::<ChecksOut<O>>(&mut self.pass);
        let serial = self.checkouts;
        self.checkouts = self.checkouts.saturating_add(1);
        TicketReceipt {
            pass,
            serial,
            brand: PhantomData,
        }
    }

    /// Notes that a process was checked in.
    pub fn check_in<P: GhostPid>(&mut self)
        ensures { self.new ≡ record self.old { moves = self.old.moves ++ moved_in P.pid ∷ [] } }
    {
        let passes = &self.passes;
        passes.shared.split_seat::<ChecksIn<P>>(&mut self.pass);
    }

    /// Shows that each entry of a seat is of one that was given. Nothing changes.
    pub fn check_seats(&mut self)
        ensures keeper { self.new ≡ self.old }
        ensures seats { AreOfGiven self.old.given self.old.journal }
    {
        let passes = &self.passes;
        passes.shared.load::<Compared>(&mut self.pass, 0);
    }

    /// Shows that a seat was given, that it has exactly the journal's entries of its number, and that each of its refused commands could be
    /// refused so, `JournalFull` exactly where as many entries were in memory as can be. Nothing changes.
    pub fn check_seat(&mut self, seat: &mut SeatReceipt<B>)
        ensures keeper { self.new ≡ self.old }
        ensures seat { seat.new ≡ seat.old }
        ensures kept { seat.old.kept ≡ of_seat seat.old.number self.old.journal }
        ensures given { seat.old.number < self.old.given }
        ensures refused { WereRefused self.old.journal self.old.moves self.old.drains seat.old.number seat.old.refused }
        ensures full { AreFullAt seat.old.limit seat.old.refused }
        ensures limit { seat.old.limit ≡ B.limit }
    {
        let passes = &self.passes;
        let pass = mem::replace(&mut seat.pass, Badge::blank());
        passes
            .shared
            .join_seat::<Shown>(&mut self.pass, pass.into_seat());
        passes.shared.load::<Compared>(&mut self.pass, 0);
        let pass = passes.shared.split_seat::<Shown>(&mut self.pass);
        seat.pass = pass.into_badge();
    }

    /// Shows that the checkout of a ticket's number had its origin. The ticket is used up, and the keeper stays as it was.
    pub fn redeem(&mut self, ticket: TicketReceipt<B>)
        ensures keeper { self.new ≡ self.old }
        ensures redeem { slice_get self.old.checkouts ticket.serial ≡ Some ticket.origin }
    {
        let passes = &self.passes;
        let TicketReceipt { pass, .. } = ticket;
        passes.shared.join_seat::<Shown>(&mut self.pass, pass);
        passes.shared.load::<Compared>(&mut self.pass, 0);
        passes.shared.split_seat::<Shown>(&mut self.pass);
    }

    /// Gives the receipt of who drains the journal, which claims no entries yet.
    pub fn drain_receipt(&mut self) -> DrainReceipt<B>
        ensures receipt { result ≡ [] }
        ensures keeper { self.new ≡ self.old }
    {
        let passes = &self.passes;
        let pass = passes
            .shared
            .split_seat::<GivesDrainReceipt>(&mut self.pass);
        DrainReceipt {
            pass: pass.into_badge(),
            count: 0,
            brand: PhantomData,
        }
    }

    /// Notes that all entries have left memory, which are `count`. The journal begins with those that the receipt claims; from now on it
    /// claims all that there are.
    pub fn drain(&mut self, receipt: &mut DrainReceipt<B>, count: u64)
        requires count { count ≡ length self.old.journal }
        ensures keeper { self.new ≡ with_drain self.old }
        ensures first { (more : List Entry) × (self.old.journal ≡ receipt.old ++ more) }
        ensures receipt { receipt.new ≡ self.old.journal }
    {
        let passes = &self.passes;
        let pass = mem::replace(&mut receipt.pass, Badge::blank());
        passes
            .shared
            .join_seat::<Shown>(&mut self.pass, pass.into_seat());
        passes.shared.load::<Compared>(&mut self.pass, 0);
        let pass = passes.shared.split_seat::<Drains>(&mut self.pass);
        receipt.pass = pass.into_badge();
        receipt.count = count;
    }
}
