//! Entries of what a node accepted.
ghost use Rattle.std.specs.Prelude.{◌≡◌, ◌≢◌, ◌+◌, ◌<◌, ◌≤◌, [], ◌∷◌, ◌++◌, length, Some, None, Ok, OnOk};
ghost use Rattle.beam_debug.specs.Answers.{reply_of};
ghost use Rattle.beam_journal.specs.Entering.{Accepts, entry_of, in_memory};
ghost use Rattle.beam_machine.specs.DebugRun.{debug_after};
ghost use Rattle.beam_machine.specs.Journal.{replay};

use crate::checked_out::CheckoutEntry;
use beam_debug::outcome::Outcome;
use beam_image::Image;
use beam_journal::error::JournalError;
use beam_journal::node_journal::NodeJournal;
use beam_machine::debug::DebugEvent;
use beam_receipts::brand::{GhostEntry, NodeBrand};
use beam_receipts::keeper::Keeper;
use beam_receipts::seat::SeatReceipt;
use std::alloc::AllocError;

/// Makes room for the entries of all processes that are checked out, and for `more` others. If memory is refused the entries stay as they
/// were, and no room is lost.
pub(crate) fn make_room(
    checked_out: &[CheckoutEntry],
    journal: &mut NodeJournal,
    more: u32,
) -> Result<(), AllocError>
    ensures capacity { OnOk result (length checked_out.now + more ≤ journal.new.capacity) }
    ensures kept { journal.old.capacity ≤ journal.new.capacity }
    ensures entries { journal.new.entries ≡ journal.old.entries }
    ensures drained { journal.new.drained ≡ journal.old.drained }
    ensures limit { journal.new.limit ≡ journal.old.limit }
{
    let count = u32::try_from(checked_out.len()).map_err(|_| AllocError)?;
    let count = count.checked_add(more).ok_or(AllocError)?;
    journal.reserve(count)
}

/// Pushes an event for which there is room.
fn push(journal: &mut NodeJournal, event: DebugEvent<Image>, seat: Option<u32>, reply: &Outcome)
    requires accepted { Accepts (replay journal.old.entries) event (reply_of reply.now) }
    requires capacity { 0 < journal.old.capacity }
    requires few { in_memory journal.old.entries journal.old.drained ≢ journal.old.limit }
    ensures entered { journal.new.entries ≡ journal.old.entries ++ entry_of event seat (reply_of reply.now) ∷ [] }
    ensures leads { replay journal.new.entries ≡ debug_after (replay journal.old.entries) event (Ok (reply_of reply.now)) }
    ensures capacity { journal.old.capacity ≤ journal.new.capacity + 1 }
    ensures drained { journal.new.drained ≡ journal.old.drained }
    ensures limit { journal.new.limit ≡ journal.old.limit }
{
    match journal.push(event, seat, reply) {
        Ok(()) => (),
        // There is room, and the journal isn't full.
        Err(JournalError::NoMemory) => unreachable!(),
        Err(JournalError::JournalFull) => unreachable!(),
    }
}

/// Enters an event that no seat sent, for which there is room.
pub(crate) fn enter_without_seat<B: NodeBrand, E: GhostEntry>(
    journal: &mut NodeJournal,
    keeper: &mut Keeper<B>,
    event: DebugEvent<Image>,
    reply: &Outcome,
)
    requires entry { E.entry ≡ entry_of event None (reply_of reply.now) }
    requires accepted { Accepts (replay journal.old.entries) event (reply_of reply.now) }
    requires capacity { 0 < journal.old.capacity }
    requires few { in_memory journal.old.entries journal.old.drained ≢ journal.old.limit }
    ensures entered { journal.new.entries ≡ journal.old.entries ++ entry_of event None (reply_of reply.now) ∷ [] }
    ensures leads { replay journal.new.entries ≡ debug_after (replay journal.old.entries) event (Ok (reply_of reply.now)) }
    ensures capacity { journal.old.capacity ≤ journal.new.capacity + 1 }
    ensures drained { journal.new.drained ≡ journal.old.drained }
    ensures limit { journal.new.limit ≡ journal.old.limit }
    ensures keeper { keeper.new ≡ record keeper.old { journal = keeper.old.journal ++ entry_of event None (reply_of reply.now) ∷ [] } }
{
    keeper.enter_without_seat::<E>();
    push(journal, event, None, reply);
}

/// Enters an event that a seat sent, for which there is room.
pub(crate) fn enter_for_seat<B: NodeBrand, E: GhostEntry>(
    journal: &mut NodeJournal,
    keeper: &mut Keeper<B>,
    seat: &mut SeatReceipt<B>,
    event: DebugEvent<Image>,
    reply: &Outcome,
)
    requires entry { E.entry ≡ entry_of event (Some seat.old.number) (reply_of reply.now) }
    requires accepted { Accepts (replay journal.old.entries) event (reply_of reply.now) }
    requires capacity { 0 < journal.old.capacity }
    requires few { in_memory journal.old.entries journal.old.drained ≢ journal.old.limit }
    ensures entered { journal.new.entries ≡ journal.old.entries ++ entry_of event (Some seat.old.number) (reply_of reply.now) ∷ [] }
    ensures leads { replay journal.new.entries ≡ debug_after (replay journal.old.entries) event (Ok (reply_of reply.now)) }
    ensures capacity { journal.old.capacity ≤ journal.new.capacity + 1 }
    ensures drained { journal.new.drained ≡ journal.old.drained }
    ensures limit { journal.new.limit ≡ journal.old.limit }
    ensures keeper { keeper.new ≡ record keeper.old { journal = keeper.old.journal ++ entry_of event (Some seat.old.number) (reply_of reply.now) ∷ [] } }
    ensures seat { seat.new ≡ record seat.old { kept = seat.old.kept ++ entry_of event (Some seat.old.number) (reply_of reply.now) ∷ [] } }
{
    let number = seat.number();
    keeper.enter_for_seat::<E>(seat);
    push(journal, event, Some(number), reply);
}
