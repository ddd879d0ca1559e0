//! Commands of seats.
ghost use Rattle.std.specs.Prelude.{◌≡◌, ◌≢◌, ◌<◌, ◌-◌, ◌^◌, ◌++◌, ◌∷◌, [], false, length, Some, Ok, IfOk, IfErr, OnErr, OnOk};
ghost use Rattle.beam_laws.specs.Changes.{may_change};
ghost use Rattle.beam_debug.specs.Answers.{reply_of};
ghost use Rattle.beam_debug.specs.Loud.{DebugLoudly};
ghost use Rattle.beam_journal.specs.Entering.{Accepts, entry_of, in_memory};
ghost use Rattle.beam_receipts.specs.Receipts.{of_seat};
ghost use Rattle.beam_receipts.specs.Refused.{IsFullAt, WasRefused};
ghost use Rattle.beam_shared.specs.Commands.{changes_after, context_after, is_of_code};
ghost use Rattle.beam_shared.specs.Node.{accepted};
ghost use Rattle.beam_shared.specs.Refusals.{RefusesCommand, must_wait, refused_now, with_refused};

use crate::checked_out::must_wait;
use crate::code_context::CodeContext;
use crate::entering::{enter_for_seat, make_room};
use crate::node::Node;
use beam_debug::outcome::Outcome;
use beam_image::Image;
use beam_machine::debug::DebugEvent;
use beam_machine::event::{Event, Refused};
use beam_receipts::brand::{GhostRefusedCommand, NodeBrand};
use beam_receipts::keeper::Keeper;
use beam_receipts::refusal::Refusal;
use beam_receipts::seat::SeatReceipt;
use std::marker::Brand;

/// Whether an event of the node is one of code.
fn is_of_code(event: &Event<Image>) -> bool
    ensures { result ≡ is_of_code event.now }
{
    match event {
        Event::Load(_) => true,
        Event::LoadStrict(_) => true,
        Event::AtomicLoad { .. } => true,
        Event::Delete(_) => true,
        Event::SoftPurge(_) => true,
        Event::Purge(_) => true,
        _ => false,
    }
}

/// Whether an event is one of code or of break spots.
fn may_change(event: &DebugEvent<Image>) -> bool
    ensures { result ≡ may_change event.now }
{
    match event {
        DebugEvent::Node(event) => is_of_code(event),
        DebugEvent::SetBreak(_) => true,
        DebugEvent::ClearBreak(_) => true,
        _ => false,
    }
}

/// Counts a change of code or of break spots, and drops the copy of them that was shared.
pub(crate) fn note_change(
    event: &DebugEvent<Image>,
    changes: &mut u64,
    context: &mut Option<CodeContext>,
)
    requires { changes.old < 2 ^ 64 - 1 }
    ensures changes { changes.new ≡ changes_after event.now changes.old }
    ensures context { context.new ≡ context_after event.now context.old }
{
    if may_change(event) {
        *changes += 1;
        *context = None;
    }
}

/// Notes at a seat that its command is refused.
fn note_refused<B: NodeBrand, F: GhostRefusedCommand>(
    keeper: &mut Keeper<B>,
    seat: &mut SeatReceipt<B>,
    event: &DebugEvent<Image>,
    refusal: Refusal,
    drained: u64,
)
    requires command { F.refused ≡ refused_now keeper.old drained seat.old event.now refusal }
    requires refused { WasRefused keeper.old.journal keeper.old.moves keeper.old.drains seat.old.number (refused_now keeper.old drained seat.old event.now refusal) }
    requires full { IsFullAt B.limit (in_memory keeper.old.journal drained) refusal }
    ensures keeper { keeper.new ≡ keeper.old }
    ensures seat { seat.new ≡ record seat.old { refused = seat.old.refused ++ refused_now keeper.old drained seat.old event.now refusal ∷ [] } }
{
    let (_event, _refusal, _drained) = (event, refusal, drained);
    keeper.note_refused::<F>(seat);
}

impl<B: NodeBrand> Node<B> {
    /// Notes at a seat that the node refuses its command. The node stays as it was.
    fn refuse(&mut self, seat: &mut SeatReceipt<B>, event: &DebugEvent<Image>, refusal: Refusal)
        requires { RefusesCommand self.old event.now refusal }
        ensures node { self.new ≡ self.old }
        ensures seat { seat.new ≡ with_refused self.old event.now refusal seat.old }
    {
        self.keeper.check_seat(seat);
        let drained = self.journal.drained();
        note_refused::<B, Brand>(&mut self.keeper, seat, event, refusal, drained);
    }

    /// Gives the node an event, as a seat's command, and enters it with its reply. `JournalFull` where as many
    /// entries are in memory as can be; then `Busy` for an event of a process itself, which are rows, deliveries and timeouts, while the process is checked out; then as the node refuses it. A
    /// refusal changes nothing but what the seat knows: nothing is entered, and the seat notes the event, why it was refused, and how many
    /// entries the journal had. Where memory is refused in the middle of rows, the reply says so, and the rows that were executed are
    /// entered. The seat is the node's, and it kept exactly the journal's entries of its number.
    pub fn command(
        &mut self,
        seat: &mut SeatReceipt<B>,
        event: DebugEvent<Image>,
    ) -> Result<Outcome, Refusal>
        ensures kept { seat.old.kept ≡ of_seat seat.old.number self.old.journal }
        ensures given { seat.old.number < self.old.seats }
        ensures limit { seat.old.limit ≡ self.old.limit }
        ensures reply { IfOk result (λ reply. Accepts self.old.state event (reply_of reply)) }
        ensures node { IfOk result (λ reply. self.new ≡ accepted self.old event seat.old.number (reply_of reply)) }
        ensures seat { IfOk result (λ reply. seat.new ≡ record seat.old { kept = seat.old.kept ++ entry_of event (Some seat.old.number) (reply_of reply) ∷ [] }) }
        ensures loud { IfOk result (λ reply. DebugLoudly self.old.state event (Ok (reply_of reply)) self.new.state) }
        ensures may { OnOk result ((in_memory self.old.journal self.old.drained ≢ self.old.limit) × (must_wait self.old.checked_out event ≡ false)) }
        ensures refused { IfErr result (λ refusal. RefusesCommand self.old event refusal) }
        ensures err { OnErr result (self.new ≡ self.old) }
        ensures noted { IfErr result (λ refusal. seat.new ≡ with_refused self.old event refusal seat.old) }
    {
        self.keeper.check_seat(seat);
        self.debugger.recall_invariant();
        let _entered = self.journal.len();
        if self.journal.is_full() {
            self.refuse(seat, &event, Refusal::JournalFull);
            return Err(Refusal::JournalFull);
        }
        if must_wait(&self.checked_out, &event) {
            self.refuse(seat, &event, Refusal::Busy);
            return Err(Refusal::Busy);
        }
        let Ok(()) = make_room(&self.checked_out, &mut self.journal, 1) else {
            self.refuse(seat, &event, Refusal::Node(Refused::NoMemory));
            return Err(Refusal::Node(Refused::NoMemory));
        };
        let reply = match self.debugger.apply(&event) {
            Ok(reply) => reply,
            Err(refused) => {
                self.refuse(seat, &event, Refusal::Node(refused));
                return Err(Refusal::Node(refused));
            }
        };
        note_change(&event, &mut self.changes, &mut self.context);
        enter_for_seat::<B, Brand>(&mut self.journal, &mut self.keeper, seat, event, &reply);
        Ok(reply)
    }
}
