//! Events that no seat sent, as another node's journal has them.
ghost use Rattle.std.specs.Prelude.{◌≡◌, ◌≢◌, false, IfOk, IfErr, OnErr, OnOk};
ghost use Rattle.beam_debug.specs.Answers.{reply_of};
ghost use Rattle.beam_debug.specs.Loud.{DebugLoudly};
ghost use Rattle.beam_journal.specs.Entering.{Accepts, in_memory};
ghost use Rattle.beam_shared.specs.Node.{accepted_without_seat};
ghost use Rattle.beam_shared.specs.Refusals.{RefusesCommand, must_wait};

use crate::checked_out::must_wait;
use crate::commands::note_change;
use crate::entering::{enter_without_seat, make_room};
use crate::node::Node;
use beam_debug::outcome::Outcome;
use beam_image::Image;
use beam_machine::debug::DebugEvent;
use beam_receipts::brand::NodeBrand;
use beam_receipts::refusal::Refusal;
use std::marker::Brand;

impl<B: NodeBrand> Node<B> {
    /// Gives the node an event that no seat sent, as a journal has it, and enters it with its reply: a delivery, or rows of a process that
    /// had been checked out. `JournalFull` where as many entries are in memory as can be; then `Busy` for an event of a process itself, which are rows, deliveries
    /// and timeouts, while the process is checked out; then as the node refuses it. A refusal changes nothing. Where memory is refused in
    /// the middle of rows, the reply says so, and the rows that were executed are entered.
    pub fn replay_event(&mut self, event: DebugEvent<Image>) -> Result<Outcome, Refusal>
        ensures reply { IfOk result (λ reply. Accepts self.old.state event (reply_of reply)) }
        ensures node { IfOk result (λ reply. self.new ≡ accepted_without_seat self.old event (reply_of reply)) }
        ensures loud { IfOk result (λ reply. DebugLoudly self.old.state event (Ok (reply_of reply)) self.new.state) }
        ensures may { OnOk result ((in_memory self.old.journal self.old.drained ≢ self.old.limit) × (must_wait self.old.checked_out event ≡ false)) }
        ensures refused { IfErr result (λ refusal. RefusesCommand self.old event refusal) }
        ensures err { OnErr result (self.new ≡ self.old) }
    {
        self.debugger.recall_invariant();
        let _entered = self.journal.len();
        if self.journal.is_full() {
            return Err(Refusal::JournalFull);
        }
        if must_wait(&self.checked_out, &event) {
            return Err(Refusal::Busy);
        }
        make_room(&self.checked_out, &mut self.journal, 1)?;
        let reply = match self.debugger.apply(&event) {
            Ok(reply) => reply,
            Err(refused) => return Err(Refusal::Node(refused)),
        };
        note_change(&event, &mut self.changes, &mut self.context);
        enter_without_seat::<B, Brand>(&mut self.journal, &mut self.keeper, event, &reply);
        Ok(reply)
    }
}
