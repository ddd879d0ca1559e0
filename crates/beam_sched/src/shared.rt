//! A node that threads share, and what they read of it without its lock.
ghost use Rattle.std.specs.Prelude.{◌≡◌, ◌++◌, map, IfErr, IfOk, OnErr};
ghost use Rattle.beam_machine.specs.Journal.{sent_event_of};
ghost use Rattle.beam_debug.specs.Answers.{reply_of};
ghost use Rattle.beam_sched.specs.CommandAnswers.{CommandAnswered, answer_of, with_kept};

use crate::command_tally::{CommandTally, code_change};
use crate::idle_workers::IdleWorkers;
use crate::journal_threshold::JournalThreshold;
use crate::journal_usage::JournalUsage;
use crate::locked_node::LockedNode;
use crate::made_runnable::MadeRunnable;
use crate::node_clock::NodeClock;
use crate::scan::exit_reason;
use crate::scan_hint::ScanHint;
use crate::short_slice_token::ShortSliceToken;
use crate::thread_context::ThreadContext;
use crate::worker_tally::WorkerTallies;
use beam_debug::outcome::Outcome;
use beam_image::Image;
use beam_journal::entry::Entry;
use beam_machine::debug::DebugEvent;
use beam_machine::event::Event;
use beam_queue::QueueBrand;
use beam_receipts::brand::NodeBrand;
use beam_receipts::drain::DrainReceipt;
use beam_receipts::refusal::Refusal;
use beam_shared::node::Node;
use beam_term::Term;
use std::alloc::Global;
use std::sync::{Mutex, Wait};

/// How many rows a turn under the lock has at most in a node that serves.
pub const ROWS_IN_PLACE: u32 = 256;

/// A node under its lock; what threads read without it; and where its workers wait, under a lock of its own. No thread holds both locks.
#[derive(Drop)]
pub struct Shared<B: NodeBrand> {
    pub(crate) node: Mutex<LockedNode<B>>,
    pub(crate) scan_hint: ScanHint,
    pub(crate) idle: IdleWorkers,
    pub(crate) token: ShortSliceToken,
    pub(crate) node_clock: NodeClock,
    pub(crate) usage: JournalUsage,
    /// How many rows a turn under the lock has at most; 0 if there are no such turns.
    pub(crate) rows_in_place: u32,
    pub(crate) tallies: WorkerTallies,
    pub(crate) commands: CommandTally,
}

/// The time to which an event sets the node's clock.
fn time_set(event: &DebugEvent<Image>) -> Option<u64> {
    match event {
        DebugEvent::Node(Event::Clock { now }) => Some(*now),
        _ => None,
    }
}

impl<B: NodeBrand> Shared<B> {
    /// A node of which no process is enqueued yet. It takes no memory. If a process is runnable or has a deadline, as in a node that comes
    /// back from its journal, the first worker scans it. Workers have turns of at most `rows_in_place` rows under the lock; 0 for none.
    pub fn new(alloc: Global, node: Node<B>, rows_in_place: u32) -> Shared<B> {
        let node_clock = NodeClock::new(node.debugger().core().clock());
        let usage = JournalUsage::new();
        usage.note(&node);
        let locked = LockedNode::new(alloc, node);
        let scan_hint = ScanHint::new();
        let _ = scan_hint.publish(&locked.scan_state);
        Shared {
            node: Mutex::new(locked),
            scan_hint,
            idle: IdleWorkers::new(),
            token: ShortSliceToken::new(),
            node_clock,
            usage,
            rows_in_place,
            tallies: WorkerTallies::new(alloc),
            commands: CommandTally::new(),
        }
    }

    /// The node under its lock, to be read. Commands are given by `command`, which wakes workers.
    pub fn node(&self) -> &Mutex<LockedNode<B>> {
        &self.node
    }

    /// The node. Processes that were enqueued and not taken stay in the queues.
    pub fn into_node(self) -> Node<B> {
        let Shared { node, .. } = self;
        node.into_inner().into_node()
    }

    /// What the workers have done. It is read without the node's lock.
    pub fn tallies(&self) -> &WorkerTallies {
        &self.tallies
    }

    /// What commands did, and how often memory was refused. It is read without the node's lock.
    pub fn commands(&self) -> &CommandTally {
        &self.commands
    }

    /// The reason with which a process ended, read under the lock. `None` where it hasn't ended or was never started, and where memory is
    /// refused for the reason.
    pub fn exit_reason<R: Wait>(&self, rt: &R, pid: u32) -> Option<Term> {
        let locked = self.node.lock(rt);
        exit_reason(locked.node(), pid)
    }

    /// The threshold that the journal has reached, if neither it nor a greater one was reported. Only the first call after that gets it. It
    /// takes no lock.
    pub fn crossed(&self) -> Option<JournalThreshold> {
        self.usage.take_reached()
    }

    /// How many entries the journal has, as it was noted last: after each command, refused ones too, each commit and each scan. So to a
    /// thread whose command was answered it counts at least the entries that the journal had then. It takes no lock.
    pub fn entered(&self) -> u64 {
        self.usage.entered()
    }

    /// The journal's entries that are in memory leave it, for a list without entries, whose room is then there for the next ones: they follow
    /// those that the receipt knew, and it knows all of them afterwards. The lock is held for one exchange of two lists. The list comes back
    /// where `Node::drain` gives it back.
    pub fn drain<R: Wait>(
        &self,
        rt: &R,
        receipt: &mut DrainReceipt<B>,
        room: Vec<Entry>,
    ) -> Result<Vec<Entry>, Vec<Entry>>
        ensures all { IfOk result (λ left. map sent_event_of receipt.new ≡ map sent_event_of receipt.old ++ left.items) }
        ensures back { IfErr result (λ back. back ≡ room) }
        ensures err { OnErr result (receipt.new ≡ receipt.old) }
    {
        let mut locked = self.node.lock(rt);
        locked.node.drain(receipt, room)
    }

    /// Closes the queues: workers end once they find no work.
    pub fn close<R: Wait>(&self, rt: &R) {
        self.idle.close(rt);
    }

    /// Stops the workers: they end after the slice that they have, whatever is left to do. The node and its commands stay as they are.
    pub fn stop<R: Wait>(&self, rt: &R) {
        self.idle.stop(rt);
    }
}

impl<B: NodeBrand + QueueBrand> Shared<B> {
    /// Notes a command, under the node's lock: the threshold that the journal has reached and, if the command was accepted, the clock that
    /// it set; and enqueues the process that it made runnable. Tells whether a worker is to be woken: a process may be runnable, or the
    /// journal has reached a threshold.
    fn note_command(
        &self,
        locked: &mut LockedNode<B>,
        context: &mut ThreadContext<B>,
        set: Option<u64>,
        made_runnable: MadeRunnable,
        answer: &Result<Outcome, Refusal>,
    ) -> bool
        ensures { context.new.seat ≡ context.old.seat }
    {
        let has_reached = self.usage.note(&locked.node);
        let Ok(outcome) = answer else {
            return false;
        };
        if let Some(clock) = set {
            self.node_clock.set(clock);
        }
        locked.enqueue_made_runnable(context, made_runnable, outcome);
        if has_reached {
            locked.scan_state.note_change();
        }
        let _ = self.scan_hint.publish(&locked.scan_state);
        has_reached || made_runnable != MadeRunnable::Nobody
    }

    /// Gives the node an event under its lock, as a command of a thread context's seat. The process that it makes runnable is enqueued in
    /// the thread context's run queue, and a worker is woken, unless the event only reads something and the journal reaches no threshold by
    /// it. The answer is that of `Node::command`; a refusal changes nothing but what the seat notes. The lock is held only for the command and for enqueueing.
    /// Moments are advanced to the clock that it sets.
    pub fn command<R: Wait>(
        &self,
        rt: &R,
        context: &mut ThreadContext<B>,
        event: DebugEvent<Image>,
    ) -> Result<Outcome, Refusal>
        ensures kept { IfOk result (λ reply. context.new.seat ≡ with_kept context.old.seat event (reply_of reply)) }
        ensures err { OnErr result (context.new.seat.kept ≡ context.old.seat.kept) }
        ensures command_answered { CommandAnswered context.old.seat event (answer_of result) context.new.seat }
    {
        let set = time_set(&event);
        let made_runnable = MadeRunnable::of(&event);
        let change = code_change(&event);
        let mut guard = self.node.lock(rt);
        let locked = &mut *guard;
        locked.node.recall_invariant();
        let answer = locked.node.command(&mut context.seat, event);
        let must_wake = self.note_command(locked, context, set, made_runnable, &answer);
        drop(guard);
        self.commands.note(change, &answer);
        if must_wake {
            let _ = self.idle.wake(rt);
        }
        answer
    }
}
