//! Short turns of processes, which are had under the node's lock.
ghost use Rattle.std.specs.Prelude.{◌≡◌, IfSome};
ghost use Rattle.beam_sched.specs.QueueStates.{queue_state_of};
ghost use Rattle.beam_sched.specs.declared.queue_states.QueueState.TheVariants.{Queued};

use crate::clock::Clock;
use crate::locked_node::LockedNode;
use crate::node_clock::NodeClock;
use crate::queue_states::QueueState;
use crate::scan::{advance_clock, deadline_of, exit_reason, is_runnable};
use crate::thread_context::ThreadContext;
use beam_debug::outcome::Outcome;
use beam_image::Image;
use beam_machine::debug::DebugEvent;
use beam_machine::event::{Event, Reply, Then};
use beam_queue::QueueBrand;
use beam_receipts::brand::NodeBrand;
use beam_term::Term;

/// How many turns are had in one hold of the lock at most.
const MOST_TURNS: u32 = 64;

/// After how many rows no further turn is begun in one hold of the lock.
const MOST_ROWS: u32 = 4_000;

/// How a turn under the lock ended.
#[derive(Drop)]
enum TurnEnd {
    /// The process waits, or can't run.
    Over,
    /// The process has more to do than a short turn.
    Long,
    /// A signal that arrived ended the process, with this reason, if there was memory for it.
    Killed(Option<Term>),
    /// The process ended, with the node's answer.
    Ended(Outcome),
}

/// What turns under the lock leave to be done without it.
#[derive(Drop)]
pub struct TurnsDone {
    /// The process that has more to do than a short turn, and is in no queue, though it counts as queued.
    pub long: Option<u32>,
    /// The process that a signal ended, with its reason.
    pub killed: Option<(u32, Term)>,
    /// The process that ended, with the node's answer.
    pub ended: Option<(u32, Outcome)>,
    /// The greatest number of a process that had a turn.
    pub greatest: u32,
    /// How many turns were had.
    pub turns: u32,
    /// How many rows these had.
    pub rows: u32,
}

/// The moment at which waits begin in one hold of the lock. It is read and entered where the first wait with a timeout begins.
#[derive(Drop)]
pub(crate) struct TurnMoment<'a, C> {
    clock: &'a C,
    node_clock: &'a NodeClock,
    /// Whether the node's clock has it.
    is_entered: bool,
}

impl<'a, C: Clock> TurnMoment<'a, C> {
    /// It isn't read yet.
    pub(crate) fn new(clock: &'a C, node_clock: &'a NodeClock) -> TurnMoment<'a, C> {
        TurnMoment {
            clock,
            node_clock,
            is_entered: false,
        }
    }

    /// Enters it, if it is later than the node's clock. It isn't entered where the journal is full or memory is refused.
    fn enter<B: NodeBrand + QueueBrand>(
        &mut self,
        locked: &mut LockedNode<B>,
        context: &mut ThreadContext<B>,
    ) {
        let moment = self.node_clock.advance(self.clock.moment());
        let seat = &mut context.seat;
        self.is_entered = advance_clock(&mut locked.node, seat, self.node_clock, moment).is_ok();
    }
}

/// How many rows were executed by an answer, and whether the process waits then, or has ended.
fn rows_of(steps: Option<(u32, Outcome)>) -> (u32, TurnEnd) {
    let Some((count, outcome)) = steps else {
        return (0, TurnEnd::Long);
    };
    match outcome {
        Outcome::Node(
            Reply::Ran {
                then: Then::GoesOn,
                ..
            },
        ) => (count, TurnEnd::Long),
        Outcome::Node(
            Reply::Ran {
                then: Then::Waits,
                ..
            },
        ) => (count, TurnEnd::Over),
        outcome => (count, TurnEnd::Ended(outcome)),
    }
}

impl<B: NodeBrand + QueueBrand> LockedNode<B> {
    /// Whether signals are in transit to a process.
    fn has_transit(&self, pid: u32) -> bool {
        match self.node.debugger().process(pid) {
            Some(process) => process.has_transit(),
            None => false,
        }
    }

    /// Whether a process runs.
    fn is_running(&self, pid: u32) -> bool {
        match self.node.debugger().process(pid) {
            Some(process) => process.is_running(),
            None => false,
        }
    }

    /// Delivers what is in transit to a process. False if that is refused.
    fn deliver(&mut self, context: &mut ThreadContext<B>, pid: u32) -> bool {
        let event: DebugEvent<Image> = DebugEvent::Node(Event::Deliver { pid });
        self.node.command(&mut context.seat, event).is_ok()
    }

    /// Executes rows of a process, at most that many, and one where that is 0. A wait with a timeout begins only where `has_moment`.
    fn steps(
        &mut self,
        context: &mut ThreadContext<B>,
        pid: u32,
        rows: u32,
        has_moment: bool,
    ) -> (u32, TurnEnd) {
        let rows = rows.max(1);
        rows_of(
            self.node
                .short_steps(&mut context.seat, pid, rows, has_moment),
        )
    }

    /// Executes rows of a process, at most that many. The moment is entered where they end before a wait that needs it.
    fn short_rows<C: Clock>(
        &mut self,
        context: &mut ThreadContext<B>,
        moment: &mut TurnMoment<'_, C>,
        pid: u32,
        rows: u32,
    ) -> (u32, TurnEnd) {
        let has_moment = moment.is_entered;
        let (count, end) = self.steps(context, pid, rows, has_moment);
        let is_left = matches!(end, TurnEnd::Long) && count < rows;
        if has_moment || !is_left || !self.node.waits_next(pid) {
            return (count, end);
        }
        moment.enter(self, context);
        let (more, end) = self.steps(context, pid, rows - count, moment.is_entered);
        (count.saturating_add(more), end)
    }

    /// A turn of a process, of at most that many rows. Also tells how many it had.
    fn turn<C: Clock>(
        &mut self,
        context: &mut ThreadContext<B>,
        moment: &mut TurnMoment<'_, C>,
        pid: u32,
        rows: u32,
    ) -> (u32, TurnEnd) {
        if !is_runnable(&self.node, pid) {
            return (0, TurnEnd::Over);
        }
        if self.has_transit(pid) && !self.deliver(context, pid) {
            return (0, TurnEnd::Long);
        }
        if self.has_ended(pid) {
            return (0, TurnEnd::Killed(exit_reason(&self.node, pid)));
        }
        if !self.is_running(pid) {
            return (0, TurnEnd::Over);
        }
        self.short_rows(context, moment, pid, rows)
    }

    /// The next process that is runnable, above a number or, where there is none, the first. `None` where that is checked out.
    fn next_runnable(&self, after: u32) -> Option<u32> {
        let next = match self.node.ready(after) {
            Some(pid) => pid,
            None => self.node.ready(0)?,
        };
        match self.queue_states.of(next) {
            QueueState::CheckedOut => None,
            QueueState::Free | QueueState::Queued => Some(next),
        }
    }

    /// Sets a process apart that has more to do than a short turn. Until it is checked out it counts as queued, so that nobody enqueues it
    /// meanwhile. `None` where it is in a queue or checked out, or has no queue state yet; a scan finds it then.
    fn set_apart(&mut self, pid: u32) -> Option<u32>
        ensures own { IfSome result (λ apart. apart ≡ pid) }
        ensures queued { IfSome result (λ apart. queue_state_of self.new.queue_states pid ≡ Queued) }
    {
        if self.queue_states.of(pid) != QueueState::Free {
            return None;
        }
        self.queue_states.put(pid, QueueState::Queued);
        match self.queue_states.of(pid) {
            QueueState::Queued => Some(pid),
            QueueState::Free | QueueState::CheckedOut => None,
        }
    }

    /// Notes how a turn ended. Tells whether another one may follow.
    fn note_turn(&mut self, pid: u32, end: TurnEnd, done: &mut TurnsDone) -> bool {
        done.greatest = done.greatest.max(pid);
        match end {
            TurnEnd::Over => {
                self.scan_state.note_deadline(deadline_of(&self.node, pid));
                return true;
            }
            TurnEnd::Long => done.long = self.set_apart(pid),
            TurnEnd::Killed(Some(reason)) => done.killed = Some((pid, reason)),
            TurnEnd::Killed(None) => {}
            TurnEnd::Ended(outcome) => done.ended = Some((pid, outcome)),
        }
        false
    }

    /// Has short turns, of at most `rows` rows each: one of a process, which is in no queue any longer, and then some of those that are
    /// runnable. A scan finds who is runnable afterwards.
    pub(crate) fn have_turns<C: Clock>(
        &mut self,
        context: &mut ThreadContext<B>,
        moment: &mut TurnMoment<'_, C>,
        pid: u32,
        rows: u32,
    ) -> TurnsDone {
        let mut done = TurnsDone {
            long: None,
            killed: None,
            ended: None,
            greatest: pid,
            turns: 0,
            rows: 0,
        };
        self.queue_states.put(pid, QueueState::Free);
        let mut next = pid;
        for _ in 0..MOST_TURNS {
            let (count, end) = self.turn(context, moment, next, rows);
            done.turns = done.turns.saturating_add(1);
            done.rows = done.rows.saturating_add(count);
            if !self.note_turn(next, end, &mut done) || done.rows >= MOST_ROWS {
                break;
            }
            match self.next_runnable(next) {
                Some(other) => next = other,
                None => break,
            }
        }
        if self.node.ready(0).is_some() {
            self.scan_state.note_change();
        }
        done
    }
}
