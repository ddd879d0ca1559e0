//! All recorded events.
ghost use Rattle.std.specs.Prelude.{◌≡◌, ◌+◌, false, true, length, IfErr, IfOk};
ghost use Rattle.beam_recall.specs.Recalling.{AreNumbered, EntersAll, EntersThose, HasSameCheckouts, Stops};

use crate::entering::enter;
use crate::error::RecallError;
use crate::recorded::RecordedEvents;
use beam_receipts::brand::NodeBrand;
use beam_receipts::seat::SeatReceipt;
use beam_shared::node::Node;
use std::alloc::Global;

/// Gives a node the next events of a source, at most `most` of them, in their order: each as a command of the seat of its number, or as an
/// event that no seat sent. Tells whether the source has no more; if it may have more, `most` events were given. The node's journal has just
/// these events more, with these seats. `seats` are all seats of the node, in the order of their numbers, and stay so: where an event is of a
/// seat that wasn't given yet, the node gives its next seats up to that one. It stops at the first event that isn't entered: `Refused` as the
/// node refuses it, `JournalFull` and `Busy` too; `TooManySeats` where its seat is one that no node has; `NoMemory` where memory is refused
/// for it, in the middle of its rows too, of which those that were executed are entered then; and `Unread` where the source fails. Those
/// before it were entered. Who is checked out stays as it was, and no entry leaves memory.
pub fn recall<B: NodeBrand, S: RecordedEvents>(
    alloc: Global,
    node: &mut Node<B>,
    seats: &mut Vec<SeatReceipt<B>>,
    events: &mut S,
    most: u32,
) -> Result<bool, RecallError<S::Fault>>
    requires { AreNumbered node.old.seats seats.old.items }
    ensures those { IfOk result (λ is_over. is_over ≡ false → EntersThose S.next_gives events.old node.old events.new node.new) }
    ensures all { IfOk result (λ is_over. is_over ≡ true → EntersAll S.next_gives events.old node.old events.new node.new) }
    ensures many { IfOk result (λ is_over. is_over ≡ false → length node.new.journal ≡ length node.old.journal + most) }
    ensures numbered { AreNumbered node.new.seats seats.new.items }
    ensures checkouts { HasSameCheckouts node.old node.new }
    ensures err { IfErr result (λ e. Stops S.next_gives events.old node.old e events.new node.new) }
{
    for _ in 0..most {
        let next = match events.next(alloc) {
            Ok(next) => next,
            Err(fault) => return Err(RecallError::Unread(fault)),
        };
        let Some(recorded) = next else {
            return Ok(true);
        };
        if let Err(why) = enter(node, seats, recorded) {
            return Err(why);
        }
    }
    Ok(false)
}
