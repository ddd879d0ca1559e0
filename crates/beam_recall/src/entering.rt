//! One recorded event.
ghost use Rattle.std.specs.Prelude.{◌≡◌, ◌≢◌, ◌+◌, ◌<◌, ◌++◌, ◌∷◌, [], length, IfSome, IfErr, IfOk, OnOk, OnErr};
ghost use Rattle.beam_debug.specs.Answers.{reply_of};
ghost use Rattle.beam_machine.specs.Journal.{SentEvent as Sent};
ghost use Rattle.beam_recall.specs.Recalling.{AreNumbered, Enters, HasSameCheckouts, Hinders, accepted_from};
ghost use Rattle.beam_shared.specs.Refusals.{RefusesCommand};

use crate::cut::{is_cut, rows_asked};
use crate::error::RecallError;
use crate::seating::add_seats;
use beam_debug::outcome::Outcome;
use beam_image::Image;
use beam_machine::debug::DebugEvent;
use beam_machine::event::Refused;
use beam_receipts::brand::NodeBrand;
use beam_receipts::refusal::Refusal;
use beam_receipts::seat::SeatReceipt;
use beam_records::SentEvent;
use beam_shared::node::Node;

/// Gives the node an event: as a command of the seat of that number, which is there, or as one that no seat sent.
fn give<B: NodeBrand>(
    node: &mut Node<B>,
    seats: &mut Vec<SeatReceipt<B>>,
    event: DebugEvent<Image>,
    seat: Option<u32>,
) -> Result<Outcome, Refusal>
    requires numbered { AreNumbered node.old.seats seats.old.items }
    requires there { IfSome seat (λ number. number < length seats.old.items) }
    ensures node { IfOk result (λ reply. node.new ≡ accepted_from node.old event seat (reply_of reply)) }
    ensures numbered { AreNumbered node.old.seats seats.new.items }
    ensures refused { IfErr result (λ refusal. RefusesCommand node.old event refusal) }
    ensures err { OnErr result (node.new ≡ node.old) }
{
    match seat {
        None => node.replay_event(event),
        Some(number) => node.command(&mut seats[number as usize], event),
    }
}

/// Takes seats of the node until there is the one that sent the event.
fn ready_seat<B: NodeBrand, F>(
    node: &mut Node<B>,
    seats: &mut Vec<SeatReceipt<B>>,
    seat: Option<u32>,
) -> Result<(), RecallError<F>>
    requires { AreNumbered node.old.seats seats.old.items }
    ensures numbered { AreNumbered node.new.seats seats.new.items }
    ensures there { OnOk result (IfSome seat (λ number. number < length seats.new.items)) }
    ensures node { node.new ≡ record node.old { seats = node.new.seats } }
    ensures err { IfErr result (λ e. (sent : Sent) → sent.seat ≡ seat → Hinders node.new sent e) }
{
    match seat {
        None => Ok(()),
        Some(number) => add_seats(node, seats, number),
    }
}

/// Why an event that the node refuses isn't entered.
fn refused<B: NodeBrand, F>(node: &Node<B>, refusal: Refusal) -> RecallError<F>
    ensures { (sent : Sent) → RefusesCommand node.now sent.event refusal → Hinders node.now sent result }
{
    if refusal == Refusal::Node(Refused::NoMemory) {
        return RecallError::NoMemory;
    }
    RecallError::Refused {
        number: node.entered(),
        refusal,
    }
}

/// Enters a recorded event after the others. `NoMemory` too where memory is refused in the middle of its rows: those that were executed are
/// entered then. Any other error leaves the journal as it was.
pub(crate) fn enter<B: NodeBrand, F>(
    node: &mut Node<B>,
    seats: &mut Vec<SeatReceipt<B>>,
    recorded: SentEvent,
) -> Result<(), RecallError<F>>
    requires { AreNumbered node.old.seats seats.old.items }
    ensures entered { OnOk result (Enters node.old (recorded ∷ []) node.new) }
    ensures numbered { AreNumbered node.new.seats seats.new.items }
    ensures checkouts { HasSameCheckouts node.old node.new }
    ensures err { IfErr result (λ e. Hinders node.new recorded e) }
    ensures none { IfErr result (λ e. e ≢ RecallError.NoMemory → node.new.journal ≡ node.old.journal) }
{
    let seat = recorded.seat;
    if let Err(why) = ready_seat(node, seats, seat) {
        return Err(why);
    }
    let (event, _seat) = recorded.into_parts();
    let rows = rows_asked(&event);
    let outcome = match give(node, seats, event, seat) {
        Ok(outcome) => outcome,
        Err(refusal) => return Err(refused(node, refusal)),
    };
    if is_cut(rows, &outcome) {
        return Err(RecallError::NoMemory);
    }
    Ok(())
}
