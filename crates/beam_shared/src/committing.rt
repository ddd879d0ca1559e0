//! Committing the rows of processes that were checked out.
ghost use Rattle.std.specs.Prelude.{◌≡◌, ◌≢◌, ◌≤◌, ◌||◌, ◌++◌, ◌∷◌, [], true, false, is_some, map, length, option_map, slice_get, Some, IfOk, IfErr, OnOk, OnErr};
ghost use Rattle.beam_laws.specs.Slice.{rows_of_event};
ghost use Rattle.beam_debug.specs.Answers.{reply_of};
ghost use Rattle.beam_debug.specs.Installing.{AreSlices};
ghost use Rattle.beam_receipts.specs.Receipts.{moved_in};
ghost use Rattle.beam_shared.specs.Committing.{AreBack, Commits, DropsEntry, DropsFor, DropsRows, MayCommit, is_open, checked_in};
ghost use Rattle.beam_shared.specs.FinishedSlice.{context_of};
ghost use Rattle.beam_shared.specs.Node.{serial_of};
ghost use Rattle.beam_shared.specs.Returned.{is_alike, same_places, without_entry};

use crate::checked_out::{CheckoutEntry, entry_of};
use crate::checking_out::live;
use crate::code_context::CodeContext;
use crate::drop_reason::{DropReason, NotCommitted};
use crate::entering::enter_without_seat;
use crate::finished_slice::FinishedSlice;
use crate::node::Node;
use beam_debug::debugger::Debugger;
use beam_debug::outcome::Outcome;
use beam_machine::debug::DebugEvent;
use beam_machine::event::Event;
use beam_model::place::{Place, is_same_place};
use beam_proc::private::{End, Private};
use beam_receipts::brand::{GhostPid, NodeBrand};
use beam_receipts::keeper::Keeper;
use beam_receipts::ticket::TicketReceipt;
use std::marker::Brand;

/// How many rows the event for these rows asks for: one more than these if they end before a row of the node, which is executed at the
/// commit, or before a break spot, at which the node stops then.
fn rows_asked(rows: &Private) -> u32
    requires { rows.now.count ≤ 4000 }
    ensures { result ≡ rows_of_event rows.now }
{
    match rows.end {
        End::AtLimit => rows.count,
        End::AfterRow => rows.count,
        End::BeforeNodeRow => rows.count + 1,
        End::AtSpot => rows.count + 1,
    }
}

/// Whether two lists of break spots are equal.
fn are_same_places(spots: &[Place], others: &[Place]) -> bool
    ensures { result ≡ same_places spots.now others.now }
{
    let mut spots = spots;
    let mut others = others;
    while let Some((spot, more)) = spots.split_first() {
        match others.split_first() {
            Some((other, rest)) if is_same_place(*spot, *other) => {
                spots = more;
                others = rest;
            }
            _ => return false,
        }
    }
    others.is_empty()
}

/// Whether the node's code and break spots are those of a context: by the count of changes, or else by numbers of instances and places.
fn is_context(debugger: &Debugger, is_unchanged: bool, context: &CodeContext) -> bool
    ensures { result ≡ is_unchanged || is_alike debugger.now.state context.now }
{
    is_unchanged
        || (context.code().has_instances_of(debugger.table())
            && are_same_places(context.spots(), debugger.spots()))
}

/// Removes a process from the list of the processes that are checked out.
fn remove_checkout(pid: u32, checked_out: &mut Vec<CheckoutEntry>)
    ensures { checked_out.new.items ≡ without_entry pid checked_out.old.items }
{
    checked_out.retain(move |entry| !(entry.pid == pid));
}

/// Checks a process in: it isn't checked out any more, which the keeper notes.
fn check_in<B: NodeBrand, P: GhostPid>(
    keeper: &mut Keeper<B>,
    pid: u32,
    checked_out: &mut Vec<CheckoutEntry>,
)
    requires { P.pid ≡ pid }
    ensures checked_out { checked_out.new.items ≡ without_entry pid checked_out.old.items }
    ensures keeper { keeper.new ≡ record keeper.old { moves = keeper.old.moves ++ moved_in pid ∷ [] } }
{
    keeper.check_in::<P>();
    remove_checkout(pid, checked_out);
}

impl<B: NodeBrand> Node<B> {
    /// Whether the process is checked out by the checkout of which these rows are.
    fn is_open(&self, finished: &FinishedSlice<B>) -> bool
        ensures { result ≡ is_open self.now finished.now.origin.pid finished.now.serial }
    {
        match entry_of(finished.pid, &self.checked_out) {
            Some(entry) => entry.serial == finished.ticket.serial(),
            None => false,
        }
    }

    /// The number of a ticket's checkout. It shows that the checkout had the ticket's origin, and uses the ticket up.
    fn redeem(&mut self, ticket: TicketReceipt<B>) -> u64
        ensures same { self.new ≡ self.old }
        ensures redeem { slice_get self.old.handed ticket.serial ≡ Some ticket.origin }
        ensures serial { result ≡ ticket.serial }
    {
        let serial = ticket.serial();
        self.keeper.redeem(ticket);
        serial
    }

    /// Whether rows may take effect, or why not. If they may, they are those of a slice that can be committed.
    fn may_commit(
        &self,
        pid: u32,
        serial: u64,
        context: &CodeContext,
        rows: &Private,
    ) -> Result<(), DropReason>
        requires back { AreBack self.now pid serial context.now rows.now }
        ensures may { OnOk result (MayCommit self.now pid serial context.now) }
        ensures slices { OnOk result (rows_of_event rows.now ≢ 0 → AreSlices self.now.state pid rows.now) }
        ensures dropped { IfErr result (λ dropped. DropsRows self.now pid serial context.now rows.now dropped) }
    {
        let Some(entry) = entry_of(pid, &self.checked_out) else {
            return Err(DropReason::Stranger);
        };
        if entry.serial != serial {
            return Err(DropReason::Stranger);
        }
        if live(&self.debugger, pid).is_none() {
            return Err(DropReason::Gone);
        }
        if is_context(&self.debugger, entry.changes == self.changes, context) {
            Ok(())
        } else {
            Err(DropReason::StaleCode)
        }
    }

    /// Checks a process in, as it is in the node.
    fn check_in(&mut self, pid: u32)
        ensures { self.new ≡ checked_in self.old pid }
    {
        check_in::<B, Brand>(&mut self.keeper, pid, &mut self.checked_out);
    }

    /// Lets rows take effect, enters them, and checks the process in. The process is checked in too if the rows are dropped.
    fn enter_rows(&mut self, pid: u32, rows: Private) -> Result<Outcome, DropReason>
        requires checked_out { is_some (serial_of pid self.old.checked_out) ≡ true }
        requires rows { AreSlices self.old.state pid rows }
        requires few { rows.count ≤ 4000 }
        requires some { rows_of_event rows ≢ 0 }
        ensures commits { IfOk result (λ reply. Commits self.old pid rows (Some (reply_of reply)) self.new) }
        ensures dropped { IfErr result (λ dropped. DropsEntry self.old rows dropped) }
        ensures back { OnErr result (self.new ≡ checked_in self.old pid) }
    {
        self.debugger.recall_invariant();
        if self.journal.is_full() {
            check_in::<B, Brand>(&mut self.keeper, pid, &mut self.checked_out);
            return Err(DropReason::JournalFull);
        }
        let asked = rows_asked(&rows);
        let installed = self.debugger.install(pid, rows);
        check_in::<B, Brand>(&mut self.keeper, pid, &mut self.checked_out);
        match installed {
            Ok(reply) => {
                let event = DebugEvent::Node(Event::Steps { pid, rows: asked });
                enter_without_seat::<B, Brand>(&mut self.journal, &mut self.keeper, event, &reply);
                Ok(reply)
            }
            Err(_) => Err(DropReason::NoMemory),
        }
    }

    /// Lets rows take effect, or drops them, and checks the process in.
    fn end_checkout(
        &mut self,
        pid: u32,
        serial: u64,
        context: &CodeContext,
        rows: Private,
    ) -> Result<Option<Outcome>, DropReason>
        requires back { AreBack self.old pid serial context.now rows }
        requires open { is_open self.old pid serial ≡ true }
        ensures may { OnOk result (MayCommit self.old pid serial context.now) }
        ensures commits { IfOk result (λ reply. Commits self.old pid rows (option_map reply_of reply) self.new) }
        ensures dropped { IfErr result (λ dropped. DropsRows self.old pid serial context.now rows dropped) }
        ensures back { OnErr result (self.new ≡ checked_in self.old pid) }
    {
        if let Err(dropped) = self.may_commit(pid, serial, context, &rows) {
            self.check_in(pid);
            return Err(dropped);
        }
        if rows_asked(&rows) == 0 {
            self.check_in(pid);
            return Ok(None);
        }
        match self.enter_rows(pid, rows) {
            Ok(reply) => Ok(Some(reply)),
            Err(dropped) => Err(dropped),
        }
    }

    /// Checks a process in that was checked out. Its rows take effect as one event of the journal, which no seat sent: of as many rows, and
    /// of one more if they ended before a row of the node, which is executed now, or at a break spot, where the process is held. Signals,
    /// names, starts and the clock stay as they became meanwhile. `None` if there were no rows: nothing is entered then.
    ///
    /// Rows are dropped for one of these reasons, in this order: `Stranger` if they are of no open checkout, and then they come back and
    /// nothing changes; `Gone` if the process has ended; `StaleCode` if code or break spots aren't those of the checkout; `JournalFull`
    /// where as many entries are in memory as can be; `NoMemory` if memory is refused, which it isn't to rows that sent nothing, didn't end the process, and didn't
    /// end before a row of the node. The process is then checked in as it is in the node, and nothing else changes.
    ///
    /// No row is run again, and neither code nor process is compared by value: it takes time for what the rows sent and for the row of the
    /// node, for the processes that are checked out, and after a change of code or break spots for the modules and break spots.
    pub fn commit(&mut self, finished: FinishedSlice<B>) -> Result<Option<Outcome>, NotCommitted<B>>
        ensures may { OnOk result (MayCommit self.old finished.origin.pid finished.serial (context_of finished.origin)) }
        ensures commits { IfOk result (λ reply. Commits self.old finished.origin.pid finished.rows (option_map reply_of reply) self.new) }
        ensures dropped { IfErr result (λ e. DropsFor self.old finished e.dropped) }
        ensures in_again { IfErr result (λ e. e.dropped ≢ DropReason.Stranger → self.new ≡ checked_in self.old finished.origin.pid) }
        ensures stranger { IfErr result (λ e. e.dropped ≡ DropReason.Stranger → (self.new ≡ self.old) × (e.back ≡ Some finished)) }
    {
        if !self.is_open(&finished) {
            return Err(NotCommitted {
                dropped: DropReason::Stranger,
                back: Some(finished),
            });
        }
        let FinishedSlice {
            pid,
            context,
            slice,
            ticket,
        } = finished;
        let serial = self.redeem(ticket);
        match self.end_checkout(pid, serial, &context, slice.rows) {
            Ok(reply) => Ok(reply),
            Err(dropped) => Err(NotCommitted {
                dropped,
                back: None,
            }),
        }
    }
}
