//! The seats of a node, in the order of their numbers.
ghost use Rattle.std.specs.Prelude.{◌≡◌, ◌<◌, ◌≤◌, length, IfErr, OnOk};
ghost use Rattle.beam_machine.specs.Journal.{SentEvent};
ghost use Rattle.beam_recall.specs.Recalling.{AreNumbered, Hinders};

use crate::error::RecallError;
use beam_receipts::brand::NodeBrand;
use beam_receipts::seat::SeatReceipt;
use beam_shared::node::Node;

/// Takes the node's next seats, until there is that of `number`. `TooManySeats` where no node has it. No seat is lost where memory is refused.
pub(crate) fn add_seats<B: NodeBrand, F>(
    node: &mut Node<B>,
    seats: &mut Vec<SeatReceipt<B>>,
    number: u32,
) -> Result<(), RecallError<F>>
    requires { AreNumbered node.old.seats seats.old.items }
    ensures numbered { AreNumbered node.new.seats seats.new.items }
    ensures there { OnOk result (number < length seats.new.items) }
    ensures node { node.new ≡ record node.old { seats = node.new.seats } }
    ensures err { IfErr result (λ e. (sent : SentEvent) → sent.seat ≡ Some number → Hinders node.new sent e) }
{
    while seats.len() <= number as usize {
        seats.reserve(1)?;
        let Ok(seat) = node.seat() else {
            return Err(RecallError::TooManySeats {
                number: node.entered(),
            });
        };
        seats.push_reserved(seat);
    }
    Ok(())
}
