//! Rows that are executed under the node's lock.
ghost use Rattle.std.specs.Prelude.{◌≡◌, ◌<◌, ◌∷◌, ◌++◌, [], None, Some, IfSome};
ghost use Rattle.beam_debug.specs.Answers.{reply_of};
ghost use Rattle.beam_journal.specs.Entering.{Accepts, entry_of};
ghost use Rattle.beam_shared.specs.FinishedSlice.{waits_next};
ghost use Rattle.beam_shared.specs.Node.{accepted};

use crate::checked_out::must_wait;
use crate::checking_out::live;
use crate::entering::{enter_for_seat, make_room};
use crate::finished_slice::waits_at;
use crate::node::Node;
use beam_debug::outcome::Outcome;
use beam_machine::debug::DebugEvent;
use beam_machine::event::{Event, Reply};
use beam_receipts::brand::NodeBrand;
use beam_receipts::seat::SeatReceipt;
use std::marker::Brand;

impl<B: NodeBrand> Node<B> {
    /// Executes rows of a process, as a seat's command: at most `limit`, until it waits or ends, or its next row may take long. Enters them as
    /// a `Steps` of their count, and gives that and the node's answer. `None`, and nothing changes, where the process can't
    /// have such a turn: it is checked out, doesn't run or is held, its next row may take long, a break spot is set, the journal is full, or
    /// memory is refused. A wait with a timeout begins at the node's clock, and only where `has_moment`, that is, the clock has the present
    /// moment; else its row counts among those that may take long.
    pub fn short_steps(
        &mut self,
        seat: &mut SeatReceipt<B>,
        pid: u32,
        limit: u32,
        has_moment: bool,
    ) -> Option<(u32, Outcome)>
        requires { 0 < limit }
        ensures reply { IfSome result (λ r. Accepts self.old.state (DebugEvent.Node (Event.Steps pid r.0)) (reply_of r.1)) }
        ensures node { IfSome result (λ r. self.new ≡ accepted self.old (DebugEvent.Node (Event.Steps pid r.0)) seat.old.number (reply_of r.1)) }
        ensures seat { IfSome result (λ r. seat.new
            ≡ record seat.old { kept = seat.old.kept ++ entry_of (DebugEvent.Node (Event.Steps pid r.0)) (Some seat.old.number) (reply_of r.1) ∷ [] }) }
        ensures none { result ≡ None → (self.new ≡ self.old) × (seat.new ≡ seat.old) }
    {
        self.keeper.check_seat(seat);
        self.debugger.recall_invariant();
        if self.journal.is_full() {
            return None;
        }
        let asked = DebugEvent::Node(Event::Steps { pid, rows: limit });
        if must_wait(&self.checked_out, &asked) {
            return None;
        }
        let Ok(()) = make_room(&self.checked_out, &mut self.journal, 1) else {
            return None;
        };
        match self.debugger.short_steps(pid, limit, has_moment) {
            Ok(Some((count, then))) => {
                let event = DebugEvent::Node(Event::Steps { pid, rows: count });
                let reply = Outcome::Node(Reply::Ran { count, then });
                enter_for_seat::<B, Brand>(
                    &mut self.journal,
                    &mut self.keeper,
                    seat,
                    event,
                    &reply,
                );
                Some((count, reply))
            }
            Ok(None) => None,
            Err(_) => None,
        }
    }

    /// Whether the next row of a process that hasn't ended waits for a time, so that a turn may need the present moment.
    pub fn waits_next(&self, pid: u32) -> bool
        ensures { result ≡ waits_next self.now.state pid }
    {
        match live(&self.debugger, pid) {
            Some(process) => waits_at(self.debugger.table(), process.goes()),
            None => false,
        }
    }
}
