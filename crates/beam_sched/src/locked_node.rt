//! The data under the lock of a node that threads share.
ghost use Rattle.std.specs.Prelude.{◌≡◌, ◌≢◌, ◌<◌, true, None, length, OnErr, OnOk};
ghost use Rattle.beam_machine.specs.Ready.{ready_after, next_deadline};
ghost use Rattle.beam_sched.specs.QueueStates.{queue_state_of};
ghost use Rattle.beam_sched.specs.declared.queue_states.QueueState.TheVariants.{CheckedOut, Free};

use crate::made_runnable::MadeRunnable;
use crate::queue_states::{QueueState, QueueStates};
use crate::scan::{deadline_of, is_runnable, is_wakeable};
use crate::scan_state::ScanState;
use crate::thread_context::ThreadContext;
use beam_debug::outcome::Outcome;
use beam_queue::QueueBrand;
use beam_receipts::brand::NodeBrand;
use beam_receipts::refusal::Refusal;
use beam_shared::checkout::Checkout;
use beam_shared::drop_reason::DropReason;
use beam_shared::finished_slice::FinishedSlice;
use beam_shared::node::Node;
use std::alloc::Global;

/// A node, the queue states of its processes, and when it is to be scanned.
pub struct LockedNode<B: NodeBrand> {
    pub(crate) node: Node<B>,
    pub(crate) queue_states: QueueStates,
    pub(crate) scan_state: ScanState,
}

impl<B: NodeBrand> Drop for LockedNode<B> {
    fn drop(self) {
        let LockedNode {
            node: _node,
            queue_states: _queue_states,
            scan_state: _scan_state,
        } = self;
    }
}

impl<B: NodeBrand> LockedNode<B> {
    /// A node of which no process is checked out or enqueued. A scan of it is wanted if a process is runnable or has a deadline.
    pub(crate) fn new(alloc: Global, node: Node<B>) -> LockedNode<B>
        ensures runnable { ready_after 0 node.state.node.processes ≢ None → result.scan_state.is_changed ≡ true }
        ensures timed { next_deadline node.state.node.processes ≢ None → result.scan_state.is_changed ≡ true }
    {
        let mut scan_state = ScanState::new();
        scan_state.is_changed = node.ready(0).is_some() || node.next_deadline().is_some();
        LockedNode {
            node,
            queue_states: QueueStates::new(alloc),
            scan_state,
        }
    }

    /// The node.
    pub fn node(&self) -> &Node<B> {
        &self.node
    }

    pub(crate) fn into_node(self) -> Node<B> {
        let LockedNode {
            node,
            queue_states: _queue_states,
            scan_state: _scan_state,
        } = self;
        node
    }

    /// Checks out a process, which is in no queue any longer.
    pub(crate) fn check_out(&mut self, pid: u32) -> Result<Checkout<B>, Refusal>
        ensures checked_out { OnOk result (pid < length self.old.queue_states → queue_state_of self.new.queue_states pid ≡ CheckedOut) }
        ensures free { OnErr result (pid < length self.old.queue_states → queue_state_of self.new.queue_states pid ≡ Free) }
    {
        self.queue_states.put(pid, QueueState::Free);
        let checkout = self.node.checkout(pid)?;
        self.queue_states.put(pid, QueueState::CheckedOut);
        Ok(checkout)
    }
}

impl<B: NodeBrand + QueueBrand> LockedNode<B> {
    /// Enqueues a process if it is runnable. If memory is refused, a scan will find it.
    fn enqueue(&mut self, context: &mut ThreadContext<B>, pid: u32)
        ensures { context.new.seat ≡ context.old.seat }
    {
        if self.queue_states.of(pid) == QueueState::Free
            && is_runnable(&self.node, pid)
            && context.enqueue(&mut self.queue_states, pid).is_err()
        {
            self.scan_state.note_change();
        }
    }

    /// Enqueues a process to which a slice sent that is about to be committed, if the process will be runnable then. If memory is refused,
    /// a scan will find it.
    fn enqueue_receiver(&mut self, context: &mut ThreadContext<B>, pid: u32) {
        if self.queue_states.of(pid) == QueueState::Free
            && is_wakeable(&self.node, pid)
            && context.enqueue(&mut self.queue_states, pid).is_err()
        {
            self.scan_state.note_change();
        }
    }

    /// Enqueues the process that a row started, if one did: its number is above those of all that were ever enqueued.
    fn enqueue_started(&mut self, context: &mut ThreadContext<B>) {
        if let Some(pid) = self.node.ready(self.queue_states.last()) {
            self.enqueue(context, pid);
        }
    }

    /// Whether a process has ended; if so, those that monitor it have a DOWN in transit.
    pub(crate) fn has_ended(&self, pid: u32) -> bool {
        match self.node.debugger().process(pid) {
            Some(process) => process.is_ended(),
            None => false,
        }
    }

    /// Whether a process still runs after a commit without rows: memory was refused for the first row of its slice, or the slice had none.
    fn lacks_memory(&self, pid: u32, done: &Result<Option<Outcome>, DropReason>) -> bool {
        match (done, self.node.debugger().process(pid)) {
            (Ok(None), Some(process)) => process.is_running(),
            _ => false,
        }
    }

    /// Enqueues the process that an accepted event made runnable. If that has ended, or may be any process, a scan is wanted instead.
    pub(crate) fn enqueue_made_runnable(
        &mut self,
        context: &mut ThreadContext<B>,
        made_runnable: MadeRunnable,
        outcome: &Outcome,
    )
        ensures { context.new.seat ≡ context.old.seat }
    {
        match made_runnable.pid(outcome) {
            Some(pid) if self.has_ended(pid) => self.scan_state.note_change(),
            Some(pid) => self.enqueue(context, pid),
            None if made_runnable == MadeRunnable::Nobody => {}
            None => self.scan_state.note_change(),
        }
    }

    /// Commits the rows of a process, and enqueues those that are runnable then: the receivers of its signals, and the process itself. A
    /// row of the node or an end may make others runnable; a scan finds these. `NoMemory` also where the
    /// process runs and has no rows: then nothing was committed.
    pub(crate) fn commit(
        &mut self,
        context: &mut ThreadContext<B>,
        finished: FinishedSlice<B>,
    ) -> Result<Option<Outcome>, DropReason> {
        let pid = finished.pid();
        let is_self_contained = finished.is_self_contained();
        // No other thread can check the receivers out before the rows take effect, since the lock is held.
        for sent in finished.sent() {
            self.enqueue_receiver(context, sent.to);
        }
        let done = self.node.commit(finished).map_err(|not| not.dropped);
        self.queue_states.put(pid, QueueState::Free);
        self.scan_state.note_deadline(deadline_of(&self.node, pid));
        if self.lacks_memory(pid, &done) {
            return Err(DropReason::NoMemory);
        }
        if let Err(DropReason::NoMemory | DropReason::JournalFull) = done {
            return done;
        }
        if !is_self_contained || done.is_err() {
            self.enqueue_started(context);
            self.scan_state.note_change();
        }
        self.enqueue(context, pid);
        done
    }
}
