//! Checkouts of processes.
ghost use Rattle.std.specs.Prelude.{◌≡◌, ◌≢◌, ◌||◌, ◌++◌, ◌∷◌, [], ◌+◌, ◌≤◌, ◌<◌, true, false, length, map, Some, None, IfOk, IfErr, OnErr, OnOk};
ghost use Rattle.std.specs.Option.{option_copied};
ghost use Rattle.beam_journal.specs.Entering.{in_memory};
ghost use Rattle.beam_machine.specs.declared.event.Refused.TheVariants.{NoMemory};
ghost use Rattle.beam_machine.specs.Journal.{replay};
ghost use Rattle.beam_machine.specs.Process.{is_ended, is_running};
ghost use Rattle.beam_machine.specs.State.{live_process};
ghost use Rattle.beam_rows.specs.Finds.{AlwaysFinds};
ghost use Rattle.beam_receipts.specs.declared.refusal.Refusal.TheVariants.{Node as OfNode};
ghost use Rattle.beam_shared.specs.Node.{all_arrived, process_has_incoming, deliveries, delivered_if, has_any, handed_out, has_incoming, origin};
ghost use Rattle.beam_shared.specs.Refusals.{RefusesCheckout, most_checkouts, refusal_of, why_not};
ghost use Rattle.beam_shared.specs.Invariant.{context_in, origin_by, checked_out_of};
ghost use Rattle.beam_receipts.specs.Receipts.{moved_out};

use crate::checked_out::{CheckoutEntry, entry_of};
use crate::checkout::Checkout;
use crate::code_context::CodeContext;
use crate::entering::{enter_without_seat, make_room};
use crate::node::Node;
use beam_debug::debugger::Debugger;
use beam_journal::node_journal::NodeJournal;
use beam_machine::debug::DebugEvent;
use beam_machine::event::{Event, Refused};
use beam_proc::process::Process;
use beam_receipts::brand::{GhostOrigin, NodeBrand};
use beam_receipts::keeper::Keeper;
use beam_receipts::refusal::Refusal;
use beam_receipts::ticket::TicketReceipt;
use beam_step::work::Work;
use std::alloc::AllocError;
use std::marker::Brand;

/// A copy of a process that hasn't ended, with all signals in transit to it delivered.
fn all_arrived(process: &Process) -> Result<Process, AllocError>
    requires { is_ended process.now.status ≡ false }
    ensures { IfOk result (λ copy. copy ≡ all_arrived process.now (has_any process.now.transit)) }
{
    let mut copy = process.try_copy()?;
    if copy.has_transit() {
        copy.deliver()?;
    }
    Ok(copy)
}

/// The process of that number, if it hasn't ended.
pub(crate) fn live(debugger: &Debugger, pid: u32) -> Option<&Process>
    ensures { option_copied result ≡ live_process debugger.now.state.node.processes pid }
{
    debugger.core().process(pid)?.living()
}

/// Whether a process runs, or has a signal in transit to it.
fn is_runnable(process: &Process) -> bool
    ensures { result ≡ is_running process.now.status || has_any process.now.transit }
{
    process.is_running() || process.has_transit()
}

/// The process of that number, if it can be checked out, or why it can't.
fn process_to_check_out<'a>(
    debugger: &'a Debugger,
    checked_out: &[CheckoutEntry],
    pid: u32,
) -> Result<&'a Process, Refusal>
    ensures ok { IfOk result (λ process. live_process debugger.now.state.node.processes pid ≡ Some process.now) }
    ensures may { OnOk result (refusal_of debugger.now.state (map checked_out_of checked_out.now) pid ≡ None) }
    ensures err { IfErr result (λ refusal. refusal_of debugger.now.state (map checked_out_of checked_out.now) pid ≡ Some refusal) }
{
    let Some(process) = live(debugger, pid) else {
        return Err(Refusal::Node(Refused::NoProcess));
    };
    if entry_of(pid, checked_out).is_some() {
        return Err(Refusal::Busy);
    }
    if debugger.is_held(pid) {
        return Err(Refusal::Node(Refused::Stopped));
    }
    if is_runnable(process) {
        Ok(process)
    } else {
        Err(Refusal::Node(Refused::NotReady))
    }
}

/// Whether a signal is in transit to a process that hasn't ended.
fn has_incoming(debugger: &Debugger, pid: u32) -> bool
    ensures { result ≡ process_has_incoming (live_process debugger.now.state.node.processes pid) }
{
    match live(debugger, pid) {
        Some(process) => process.has_transit(),
        None => false,
    }
}

/// Delivers the signals in transit to a process, if there are any, by an event that no seat sent and for which there is room.
fn deliver<B: NodeBrand>(
    debugger: &mut Debugger,
    journal: &mut NodeJournal,
    keeper: &mut Keeper<B>,
    pid: u32,
    has_incoming: bool,
) -> Result<(), Refusal>
    requires replays { replay journal.old.entries ≡ debugger.old.state }
    requires incoming { process_has_incoming (live_process debugger.old.state.node.processes pid) ≡ has_incoming }
    requires capacity { 0 < journal.old.capacity }
    requires few { has_incoming ≡ true → in_memory journal.old.entries journal.old.drained ≢ journal.old.limit }
    ensures state { OnOk result (debugger.new.state ≡ delivered_if debugger.old.state pid has_incoming) }
    ensures entered { OnOk result (journal.new.entries ≡ journal.old.entries ++ deliveries pid has_incoming) }
    ensures keeper { OnOk result (keeper.new ≡ record keeper.old { journal = keeper.old.journal ++ deliveries pid has_incoming }) }
    ensures replays { replay journal.new.entries ≡ debugger.new.state }
    ensures capacity { journal.old.capacity ≤ journal.new.capacity + 1 }
    ensures drained { journal.new.drained ≡ journal.old.drained }
    ensures limit { journal.new.limit ≡ journal.old.limit }
    ensures held_capacity { debugger.old.capacity ≤ debugger.new.capacity }
    ensures refused { IfErr result (λ refusal. refusal ≡ OfNode NoMemory) }
    ensures err { OnErr result ((debugger.new.state ≡ debugger.old.state) × (journal.new ≡ journal.old) × (keeper.new ≡ keeper.old)) }
{
    if !has_incoming {
        return Ok(());
    }
    let event = DebugEvent::Node(Event::Deliver { pid });
    let reply = debugger.apply(&event)?;
    enter_without_seat::<B, Brand>(journal, keeper, event, &reply);
    Ok(())
}

/// The ticket of a process that is checked out.
fn hand_out<B: NodeBrand, O: GhostOrigin>(
    keeper: &mut Keeper<B>,
    pid: u32,
    work: &Work,
    context: &CodeContext,
) -> TicketReceipt<B>
    requires { O.origin ≡ origin_by pid work.now context.now }
    ensures ticket { result ≡ record { serial = length keeper.old.checkouts; origin = origin_by pid work.now context.now } }
    ensures keeper { keeper.new ≡ record keeper.old { checkouts = keeper.old.checkouts ++ origin_by pid work.now context.now ∷ []; moves = keeper.old.moves ++ moved_out pid ∷ [] } }
{
    keeper.check_out::<O>()
}

impl<B: NodeBrand> Node<B> {
    /// Code and break spots as they are: the shared copy, or a new one after a change.
    fn context(&mut self) -> Result<CodeContext, AllocError>
        ensures same { self.new ≡ self.old }
        ensures context { IfOk result (λ context. context ≡ context_in self.old.state) }
    {
        if let Some(context) = &self.context {
            return context.share();
        }
        let context = CodeContext::new(
            self.alloc,
            self.debugger.core().table(),
            self.debugger.spots(),
        )?;
        self.context = Some(context.share()?);
        Ok(context)
    }

    /// A process as it is to be checked out, with all signals in transit to it delivered, if it can be checked out.
    fn work_of(&self, pid: u32) -> Result<Work, Refusal>
        ensures ok { IfOk result (λ work. origin self.now pid ≡ Some (origin_by pid work (context_in self.now.state))) }
        ensures may { OnOk result (why_not self.now pid ≡ None) }
        ensures few { OnOk result (has_incoming self.now pid ≡ true → in_memory self.now.journal self.now.drained ≢ self.now.limit) }
        ensures fewer { OnOk result (length self.now.handed < most_checkouts) }
        ensures refused { IfErr result (λ refusal. RefusesCheckout self.now pid refusal) }
    {
        let process = process_to_check_out(&self.debugger, &self.checked_out, pid)?;
        if process.has_transit() && self.journal.is_full() {
            return Err(Refusal::JournalFull);
        }
        if self.keeper.checkouts() == u64::MAX {
            return Err(Refusal::Node(Refused::TooMany));
        }
        Ok(Work {
            process: all_arrived(process)?,
            passes: self.debugger.passes(pid),
        })
    }

    /// Each row of a process as it is to be checked out finds what it names, as each row of the node does.
    fn finds(&self, pid: u32, work: &Work, context: &CodeContext)
        requires { origin self.now pid ≡ Some (origin_by pid work.now context.now) }
        ensures { AlwaysFinds context.now.code work.now.process }
    {
        self.debugger.core().recall_invariant();
    }

    /// Checks out a process that may be checked out, as this work, over this context.
    fn hand_out(
        &mut self,
        pid: u32,
        work: Work,
        context: CodeContext,
    ) -> Result<Checkout<B>, Refusal>
        requires origin { origin self.old pid ≡ Some (origin_by pid work context) }
        requires may { why_not self.old pid ≡ None }
        requires few { has_incoming self.old pid ≡ true → in_memory self.old.journal self.old.drained ≢ self.old.limit }
        requires fewer { length self.old.handed < most_checkouts }
        requires context { context ≡ context_in self.old.state }
        requires finds { AlwaysFinds context.code work.process }
        ensures checkout { IfOk result (λ c. c ≡ record { serial = length self.old.handed; origin = origin_by pid work context }) }
        ensures node { OnOk result (self.new ≡ handed_out self.old pid (origin_by pid work context)) }
        ensures refused { IfErr result (λ refusal. refusal ≡ OfNode NoMemory) }
        ensures err { OnErr result (self.new ≡ self.old) }
    {
        self.debugger.recall_invariant();
        let has_incoming = has_incoming(&self.debugger, pid);
        self.checked_out.reserve(1)?;
        self.debugger.reserve(pid)?;
        make_room(&self.checked_out, &mut self.journal, 2)?;
        deliver(
            &mut self.debugger,
            &mut self.journal,
            &mut self.keeper,
            pid,
            has_incoming,
        )?;
        let ticket = hand_out::<B, Brand>(&mut self.keeper, pid, &work, &context);
        self.checked_out.push_reserved(CheckoutEntry {
            pid,
            serial: ticket.serial(),
            changes: self.changes,
        });
        Ok(Checkout {
            pid,
            context,
            work,
            ticket,
        })
    }

    /// Checks a process out, to be run apart from the node, over code and break spots as they are. The signals in transit to it are
    /// delivered first, by an event of no seat. `NoProcess` where it was never started or has ended, then `Busy` where it is checked out,
    /// `Stopped` where it is held, `NotReady` where it waits and no signal is in transit to it. `JournalFull` if signals are to be
    /// delivered and the journal is full. `NoMemory` if memory is refused, also for the entry of its rows. `TooMany` after 2^64 - 1
    /// checkouts. A refusal changes nothing. It takes time and memory for the registers, frames and messages of the process, and after a
    /// change of code or break spots for the modules and break spots.
    pub fn checkout(&mut self, pid: u32) -> Result<Checkout<B>, Refusal>
        ensures origin { IfOk result (λ c. origin self.old pid ≡ Some c.origin) }
        ensures serial { IfOk result (λ c. c.serial ≡ length self.old.handed) }
        ensures node { IfOk result (λ c. self.new ≡ handed_out self.old pid c.origin) }
        ensures may { OnOk result (why_not self.old pid ≡ None) }
        ensures refused { IfErr result (λ refusal. RefusesCheckout self.old pid refusal) }
        ensures err { OnErr result (self.new ≡ self.old) }
    {
        let work = self.work_of(pid)?;
        let context = self.context()?;
        self.finds(pid, &work, &context);
        self.hand_out(pid, work, context)
    }
}
