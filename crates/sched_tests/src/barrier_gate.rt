//! A gate that holds slices, and counts what workers report to it. A clock can take the count as the time.

use beam_debug::outcome::Outcome;
use beam_machine::event::{Reply, Then};
use beam_sched::clock::Clock;
use beam_sched::gate::Gate;
use beam_sched::journal_threshold::JournalThreshold;
use beam_term::Term;
use node_testing::test_deadline::{TestDeadline, Unfinished};
use std::sync::{Mutex, Wait};
use std::time;

/// How many processes were reported as held, as ended by their rows, and as ended by a signal.
#[derive(Clone, Copy, PartialEq, Eq)]
pub struct Tally {
    pub held: u32,
    pub ended: u32,
    pub signalled: u32,
}

/// What workers have reported of slices, processes and the journal.
#[derive(Clone, Copy)]
pub struct GateReport {
    /// How many slices were checked out.
    pub outs: u32,
    /// Whether slices that were run may be committed.
    pub is_open: bool,
    /// What didn't come in time, if a slice was held for it.
    pub late: Option<Unfinished>,
    pub tally: Tally,
    /// The thresholds that the journal has reached, in percent: the numbers one after another, three digits each.
    pub percents: u64,
}

/// Holds each slice that was run, from slice `first` on, until the gate is opened. It is to be opened once `needed` slices were checked
/// out.
pub struct BarrierGate<'a, R> {
    rt: &'a R,
    pub deadline: TestDeadline,
    first: u32,
    needed: u32,
    report: Mutex<GateReport>,
}

impl<R> Drop for BarrierGate<'_, R> {
    fn drop(self) {
        let BarrierGate {
            rt: _rt,
            deadline: _deadline,
            first: _first,
            needed: _needed,
            report: _report,
        } = self;
    }
}

impl<'a, R: Wait + time::Clock> BarrierGate<'a, R> {
    /// A gate that holds slices from number `first` on, until `needed` were checked out; with 0 and 0 it holds none.
    pub fn new(rt: &'a R, first: u32, needed: u32) -> BarrierGate<'a, R> {
        BarrierGate {
            rt,
            deadline: TestDeadline::new(rt),
            first,
            needed,
            report: Mutex::new(GateReport {
                outs: 0,
                is_open: needed == 0,
                late: None,
                tally: Tally {
                    held: 0,
                    ended: 0,
                    signalled: 0,
                },
                percents: 0,
            }),
        }
    }

    /// What workers have reported.
    pub fn report(&self) -> GateReport {
        *self.report.lock(self.rt)
    }

    /// Lets slices be committed.
    pub fn open(&self) {
        self.report.lock(self.rt).is_open = true;
    }

    /// Waits until `needed` slices were checked out. Returns what didn't come in time, if they weren't.
    pub fn wait_for_all(&self) -> Option<Unfinished> {
        for _ in 0..u32::MAX {
            if self.report().outs >= self.needed {
                return None;
            }
            if !self.deadline.lasts(self.rt) {
                break;
            }
        }
        Some(Unfinished::Late("slices to be checked out, in number", self.needed))
    }

    /// Waits until the gate is opened. Returns what didn't come in time, if it wasn't.
    fn wait_until_open(&self) -> Option<Unfinished> {
        for _ in 0..u32::MAX {
            if self.report().is_open {
                return None;
            }
            if !self.deadline.lasts(self.rt) {
                break;
            }
        }
        Some(Unfinished::Late("the slices from this one on to be let go", self.first))
    }
}

impl<R: Wait + time::Clock> Gate for BarrierGate<'_, R> {
    fn out(&self, _pid: u32) {
        let mut report = self.report.lock(self.rt);
        report.outs = report.outs.saturating_add(1);
    }

    fn must_wait(&self, _pid: u32) -> bool {
        false
    }

    fn back(&self, _pid: u32) {
        if self.report().outs < self.first {
            return;
        }
        if let Some(late) = self.wait_until_open() {
            self.report.lock(self.rt).late = Some(late);
        }
    }

    fn ran(&self, _pid: u32, outcome: &Outcome) {
        let mut report = self.report.lock(self.rt);
        match outcome {
            Outcome::Held { .. } => report.tally.held = report.tally.held.saturating_add(1),
            Outcome::Node(
                Reply::Ran {
                    then: Then::Ended { .. },
                    ..
                },
            ) => report.tally.ended = report.tally.ended.saturating_add(1),
            _ => {}
        }
    }

    fn ran_in_place(&self, _pid: u32) {}

    fn ended(&self, _pid: u32, _reason: &Term) {
        let mut report = self.report.lock(self.rt);
        report.tally.signalled = report.tally.signalled.saturating_add(1);
    }

    fn refused(&self, _pid: u32) {}

    fn filled(&self, threshold: JournalThreshold) {
        let mut report = self.report.lock(self.rt);
        let before = report.percents.saturating_mul(1_000);
        report.percents = before.saturating_add(u64::from(threshold.percent()));
    }
}

/// A clock by which a millisecond passes with each slice that is checked out.
#[derive(Drop)]
pub struct SliceClock<'a, R> {
    gate: &'a BarrierGate<'a, R>,
}

impl<'a, R> SliceClock<'a, R> {
    pub fn new(gate: &'a BarrierGate<'a, R>) -> SliceClock<'a, R> {
        SliceClock { gate }
    }
}

impl<R: Wait + time::Clock> Clock for SliceClock<'_, R> {
    fn moment(&self) -> u64 {
        u64::from(self.gate.report().outs)
    }
}
