//! Workers.

use crate::clock::Clock;
use crate::gate::Gate;
use crate::long_runners::LongRunners;
use crate::scan;
use crate::scan::{ScanRequest, advance_clock, exit_reason};
use crate::shared::Shared;
use crate::short_slice_token::RecentSlices;
use crate::steal_turns::StealTurns;
use crate::thread_context::ThreadContext;
use crate::turns::{TurnMoment, TurnsDone};
use crate::worker_action::{WorkerAction, idle_action};
use crate::worker_tally::WorkerTally;
use crate::worker_times::WorkerTimes;
use beam_debug::outcome::Outcome;
use beam_machine::event::Refused;
use beam_queue::QueueBrand;
use beam_receipts::brand::NodeBrand;
use beam_receipts::refusal::Refusal;
use beam_shared::checkout::Checkout;
use beam_shared::drop_reason::DropReason;
use beam_shared::finished_slice::FinishedSlice;
use beam_term::Term;
use std::sync::{Arc, MutexGuard, Wait};
use std::time;
use std::time::Duration;

/// How many rows a slice has at most.
const ROWS: u32 = 4_000;

/// A slice of fewer rows is short, unless its rows take long: it takes about as long as the locks of its checkout and commit.
const SHORT_SLICE: u32 = 256;

/// A worker: its node and thread context, its observer and clock, and when it scans, steals and wakes others.
#[derive(Drop)]
struct Worker<'a, B: NodeBrand + QueueBrand, G, C, R> {
    rt: &'a R,
    shared: &'a Shared<B>,
    gate: &'a G,
    clock: &'a C,
    context: ThreadContext<B>,
    /// How many processes it takes before it scans the node again.
    until_scan: usize,
    /// Which of its takes begin with a steal.
    steal_turns: StealTurns,
    /// What slices it had lately, and whether it has the token.
    recent_slices: RecentSlices,
    times: WorkerTimes,
    long_runners: LongRunners,
    /// What it has done, unless memory was refused for that.
    tally: Option<Arc<WorkerTally>>,
}

impl<B: NodeBrand + QueueBrand, G, C, R> Worker<'_, B, G, C, R> {
    fn into_context(self) -> ThreadContext<B> {
        let Worker { context, .. } = self;
        context
    }
}

impl<B: NodeBrand + QueueBrand, G: Gate, C: Clock, R: Wait + time::Clock> Worker<'_, B, G, C, R> {
    /// The moment now.
    fn moment(&self) -> u64 {
        self.shared.node_clock.at(self.clock.moment())
    }

    /// The time of the runtime's clock.
    fn time(&self) -> Duration {
        self.rt.monotonic().unwrap_or(Duration::ZERO)
    }

    /// Notes slices that have run, and their rows.
    fn note_slices(&self, slices: u32, rows: u32) {
        if let Some(tally) = &self.tally {
            tally.note(slices, rows);
        }
    }

    /// Notes that a wait begins.
    fn tell_wait(&self) {
        let now = self.time();
        if let Some(tally) = &self.tally {
            tally.begin_wait(self.rt, now);
        }
    }

    /// Notes that a wait ends.
    fn tell_work(&self) {
        let now = self.time();
        if let Some(tally) = &self.tally {
            tally.end_wait(self.rt, now);
        }
    }

    /// Whether it is time to scan: the processes that were in its queue at the last scan were taken, and either a process may have become
    /// runnable, or the moment has come at which the node is to be scanned.
    fn must_scan(&self) -> bool {
        let scan_hint = &self.shared.scan_hint;
        self.until_scan == 0
            && (scan_hint.is_wanted()
                || scan_hint.next_time().is_some_and(|at| at <= self.moment()))
    }

    /// Steals a process, if this take begins with a steal.
    fn steal_in_turn(&mut self) -> Option<u32> {
        if !self.steal_turns.take() {
            return None;
        }
        let pid = self.context.steal()?;
        self.steal_turns.note_found();
        Some(pid)
    }

    /// Takes a process that was enqueued.
    fn dequeue(&mut self) -> Option<u32> {
        let pid = match self.steal_in_turn() {
            Some(pid) => Some(pid),
            None => self.context.dequeue(),
        };
        self.until_scan = match pid {
            Some(_) => self.until_scan.saturating_sub(1),
            None => 0,
        };
        pid
    }

    /// What it does next.
    fn next_action(&mut self) -> WorkerAction {
        if self.shared.idle.is_stopped() {
            return WorkerAction::End;
        }
        if self.must_scan() {
            return WorkerAction::Scan;
        }
        match self.dequeue() {
            Some(pid) => WorkerAction::Run(pid),
            None => self.rest(),
        }
    }

    /// Its next action after it found nothing in the queues and was counted among the workers that can be woken.
    fn idle_action(&mut self, is_closed: bool) -> WorkerAction {
        let Shared {
            idle,
            scan_hint,
            ..
        } = self.shared;
        match self.context.dequeue() {
            Some(pid) => WorkerAction::Run(pid),
            None => idle_action(
                idle.is_stopped(),
                is_closed,
                scan_hint.is_wanted(),
                scan_hint.retry(),
            ),
        }
    }

    /// After how many milliseconds the node is to be scanned, if there is such a time.
    fn until_next_time(&self) -> Option<u64> {
        let next_time = self.shared.scan_hint.next_time()?;
        Some(next_time.saturating_sub(self.moment()).max(1))
    }

    /// Waits until it is woken or the node is to be scanned, after a nap at first. Its next take begins with a steal: what it was woken for may
    /// be in any queue.
    fn wait(&mut self, guard: MutexGuard<'_, bool>) {
        let next_time = self.until_next_time();
        let limit = self.times.wait_limit(next_time);
        self.tell_wait();
        let was_woken = self.shared.idle.wait(self.rt, guard, limit);
        self.tell_work();
        self.times.note_wait(self.clock.moment(), was_woken);
        self.steal_turns = StealTurns::new();
    }

    /// Waits until it is woken or the node is to be scanned, unless there is work after all. It gives the token back before it tries the
    /// queues for the last time, so that it finds all processes that were enqueued by workers that had found the token taken.
    fn rest(&mut self) -> WorkerAction {
        let Shared { idle, token, .. } = self.shared;
        self.recent_slices.gives_back(token);
        let guard = idle.begin_wait(self.rt);
        let next_action = self.idle_action(*guard);
        match next_action {
            WorkerAction::Rest => self.wait(guard),
            WorkerAction::End => idle.end(guard),
            WorkerAction::Run(_) | WorkerAction::Scan => drop(guard),
        }
        idle.end_wait();
        next_action
    }

    /// Waits as a worker without work does, though processes may be in its queue: the worker that has the token takes those. That worker
    /// gives the token back before it waits; so this one, already counted among those that can be woken, first tries once more to take it.
    fn wait_without_token(&mut self) {
        let Shared { idle, token, .. } = self.shared;
        let guard = idle.begin_wait(self.rt);
        if idle.is_stopped() || self.recent_slices.takes(token) {
            drop(guard);
        } else {
            self.wait(guard);
        }
        idle.end_wait();
    }

    /// Wakes another worker, if one waits and processes are in its own queue behind the one that it is about to run.
    fn wake_for_queued(&mut self) {
        let is_due = self.context.queued() > 0 && self.times.may_wake();
        if is_due && self.shared.idle.wake(self.rt) {
            self.times.note_wake();
        }
    }

    /// Memory was refused to a process: reports that to the gate, and notes that the node is to be scanned again after some time.
    fn retry_later(&self, pid: u32) {
        self.shared.commands.note_memory();
        self.gate.refused(pid);
        let mut locked = self.shared.node.lock(self.rt);
        locked.scan_state.retry_later(self.moment());
        let _ = self.shared.scan_hint.publish(&locked.scan_state);
    }

    /// Checks a process out, and also returns the reason if it was ended by a signal that arrived just then.
    fn check_out(&self, pid: u32) -> Result<(Checkout<B>, Option<Term>), Refusal> {
        let mut locked = self.shared.node.lock(self.rt);
        let checkout = locked.check_out(pid)?;
        let end = exit_reason(&locked.node, pid);
        Ok((checkout, end))
    }

    /// Handles the refusal of a checkout. A full journal stops the workers, and where memory was refused the process is tried again later.
    fn handle_refusal(&self, pid: u32, refusal: Refusal) {
        match refusal {
            Refusal::JournalFull => self.shared.stop(self.rt),
            Refusal::Node(Refused::NoMemory) => self.retry_later(pid),
            _ => {}
        }
    }

    /// Runs a process: in a short turn under the lock, if it may have one, and in a slice if it may not or has more to do.
    fn run(&mut self, pid: u32) {
        self.wake_for_queued();
        let left = if self.may_run_in_place(pid) {
            self.run_in_place(pid)
        } else {
            Some(pid)
        };
        match left {
            Some(pid) => self.run_slice(pid),
            None => self.after_action(true),
        }
    }

    /// Whether a process may have a short turn under the lock: it isn't one that had long slices, and no process is to wait.
    fn may_run_in_place(&self, pid: u32) -> bool {
        self.shared.rows_in_place > 0 && !self.long_runners.has(pid) && !self.gate.must_wait(1)
    }

    /// Has short turns under the lock, of this process and of others that are runnable. Returns the one that is to be run in a slice.
    fn run_in_place(&mut self, pid: u32) -> Option<u32> {
        let shared = self.shared;
        let mut guard = shared.node.lock(self.rt);
        let locked = &mut *guard;
        let mut moment = TurnMoment::new(self.clock, &shared.node_clock);
        let done = locked.have_turns(&mut self.context, &mut moment, pid, shared.rows_in_place);
        shared.usage.note(&locked.node);
        let is_earlier = shared.scan_hint.publish(&locked.scan_state);
        drop(guard);
        if is_earlier {
            let _ = shared.idle.wake(self.rt);
        }
        self.report_turns(done)
    }

    /// Reports to the gate what turns under the lock did. Returns the process that has more to do.
    fn report_turns(&self, done: TurnsDone) -> Option<u32> {
        self.note_slices(done.turns, done.rows);
        self.gate.ran_in_place(done.greatest);
        if let Some((pid, reason)) = &done.killed {
            self.gate.ended(*pid, reason);
        }
        if let Some((pid, outcome)) = &done.ended {
            self.gate.ran(*pid, outcome);
        }
        done.long
    }

    /// Runs a slice of a process: it is checked out and committed under the lock, and run under none.
    fn run_slice(&mut self, pid: u32) {
        match self.check_out(pid) {
            Ok((checkout, end)) => {
                if let Some(reason) = &end {
                    self.gate.ended(pid, reason);
                }
                self.gate.out(pid);
                let limit = if self.gate.must_wait(pid) { 0 } else { ROWS };
                let finished = checkout.run(limit);
                self.gate.back(pid);
                self.commit(finished);
            }
            Err(refusal) => self.handle_refusal(pid, refusal),
        }
    }

    /// Commits the rows of a process, under the lock. If they end before a wait, the wait begins at this moment, unless memory is refused
    /// for the moment's entry; and if it is to end before the time to which a worker may wait, that worker is woken, since this one may run
    /// something else then.
    fn commit_locked(&mut self, finished: FinishedSlice<B>) -> Result<Option<Outcome>, DropReason> {
        let shared = self.shared;
        let mut guard = shared.node.lock(self.rt);
        let locked = &mut *guard;
        if finished.sets_deadline() {
            let moment = shared.node_clock.advance(self.clock.moment());
            let seat = &mut self.context.seat;
            let _ = advance_clock(&mut locked.node, seat, &shared.node_clock, moment);
        }
        let done = locked.commit(&mut self.context, finished);
        shared.usage.note(&locked.node);
        let is_earlier = shared.scan_hint.publish(&locked.scan_state);
        drop(guard);
        if is_earlier {
            let _ = shared.idle.wake(self.rt);
        }
        done
    }

    /// Commits the rows of a process, and reports the node's answer to the gate.
    fn commit(&mut self, finished: FinishedSlice<B>) {
        let pid = finished.pid();
        let count = finished.count();
        let is_few = count < SHORT_SLICE;
        self.note_slices(1, count);
        match self.commit_locked(finished) {
            Ok(None) => {}
            Ok(Some(outcome)) => self.gate.ran(pid, &outcome),
            Err(DropReason::JournalFull) => self.shared.stop(self.rt),
            Err(DropReason::NoMemory) => self.retry_later(pid),
            Err(DropReason::Stranger | DropReason::Gone | DropReason::StaleCode) => {}
        }
        self.long_runners.note(pid, !is_few);
        self.after_action(is_few);
    }

    /// After a slice, or turns under the lock. `is_few` if it had few rows.
    fn after_action(&mut self, is_few: bool) {
        let took_long = self.times.note_end(self.clock.moment());
        if is_few && !took_long {
            self.after_short();
        } else {
            self.after_long();
        }
    }

    /// After a short slice: it spent its time under the lock, where another worker would only be in the way, so none is woken. A worker
    /// that has had only short slices for some time waits, unless it has or gets the token.
    fn after_short(&mut self) {
        if !self.recent_slices.had_short(&self.shared.token) {
            self.report_threshold();
            self.wait_without_token();
        }
    }

    /// After a longer slice: wakes another worker if more is left to do, in its own queue, or in those of workers that wait without the
    /// token.
    fn after_long(&mut self) {
        let had_token = self.recent_slices.had_long(&self.shared.token);
        if had_token || self.has_more() {
            let _ = self.shared.idle.wake(self.rt);
        }
    }

    /// Whether its own queue has more than the process that it takes next.
    fn has_more(&self) -> bool {
        self.context.queued() > 1
    }

    /// Enters the timeouts that are due, and enqueues what is runnable.
    fn scan(&mut self) {
        let shared = self.shared;
        let mut guard = shared.node.lock(self.rt);
        let locked = &mut *guard;
        let moment = shared.node_clock.advance(self.clock.moment());
        let at = ScanRequest {
            after: locked.scan_state.after,
            moment,
            sets_clock: locked.scan_state.is_changed && self.context.queued() == 0,
        };
        locked.scan_state.begin();
        let found = scan::scan(locked, &mut self.context, &shared.node_clock, at);
        locked.scan_state.end(found, moment);
        shared.usage.note(&locked.node);
        let is_earlier = shared.scan_hint.publish(&locked.scan_state);
        drop(guard);
        self.until_scan = self.context.queued();
        let _ = self.times.note_end(self.clock.moment());
        if found.is_full {
            shared.stop(self.rt);
        }
        if is_earlier || self.has_more() && !self.recent_slices.has_token() {
            let _ = shared.idle.wake(self.rt);
        }
    }

    /// Reports the threshold that the journal has reached.
    fn report_threshold(&self) {
        if let Some(threshold) = self.shared.crossed() {
            self.gate.filled(threshold);
        }
    }

    /// Takes its next action. Tells whether more are to come.
    fn act(&mut self) -> bool {
        let next_action = self.next_action();
        match next_action {
            WorkerAction::Run(pid) => self.run(pid),
            WorkerAction::Scan => self.scan(),
            WorkerAction::Rest | WorkerAction::End => {}
        }
        self.report_threshold();
        next_action != WorkerAction::End
    }
}

/// Runs processes that are enqueued, at most 4,000 rows of one at a time: those of its own queue and, where that is empty, those of the
/// others' queues. The others' come first at each second take as long as such takes find something, else at each 16th, and at the first take
/// after a wait: so what commands made runnable, which is in queues without a worker, gets half of the takes. Of workers that have had only
/// short slices for some time one goes on, and takes what is in the others' queues. A worker that waits is woken where a process is behind a
/// slice, at most once in two milliseconds, and where a commit or a scan finds an earlier deadline. It ends once the queues are closed, it finds no work and no scan is
/// to be retried for want of memory, or once workers are stopped; a worker stops them if it finds the journal full. Then it gives its
/// thread context back, by whose seat it entered moments and timeouts. Processes that can't be checked out are passed over, and rows that
/// are dropped too, and processes that the gate lets wait; what is runnable is enqueued again. The gate is called under no lock. The clock
/// gives the time, and moments are advanced where a command moved the node's clock ahead of it; the clock of the runtime tells how long to
/// wait.
pub fn work<B: NodeBrand + QueueBrand, G: Gate, C: Clock, R: Wait + time::Clock>(
    rt: &R,
    shared: &Shared<B>,
    gate: &G,
    clock: &C,
    context: ThreadContext<B>,
) -> ThreadContext<B> {
    let mut worker = Worker {
        rt,
        shared,
        gate,
        clock,
        context,
        until_scan: 0,
        steal_turns: StealTurns::new(),
        recent_slices: RecentSlices::new(),
        times: WorkerTimes::new(),
        long_runners: LongRunners::new(),
        tally: shared.tallies.begin(rt),
    };
    for _ in rt.forever() {
        if !worker.act() {
            break;
        }
    }
    worker.into_context()
}
