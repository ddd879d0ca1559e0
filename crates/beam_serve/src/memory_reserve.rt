//! Memory that is kept for sessions, and for the processes that they start, where the system refuses more.

use beam_debug::outcome::Outcome;
use beam_machine::event::{Refused, Reply};
use beam_receipts::refusal::Refusal;
use log::{Log, warn};
use std::alloc::Global;
use std::sync::atomic::{AtomicBool, AtomicU32, Ordering};
use std::sync::{Mutex, Wait};
use std::time::{Clock, Duration};

/// How many bytes are kept, the most first: the next fewer where memory is refused for more. Each block is above 32 MB. Such a block the C
/// library maps by itself, so that all threads can have the memory of one that is given back; as long as nothing is written there it takes
/// address space alone.
const SIZES: [usize; 8] = [
    64_000_000, 60_000_000, 56_000_000, 52_000_000, 48_000_000, 44_000_000, 40_000_000, 36_000_000,
];

/// For how many seconds the older processes wait once the reserve was given back.
const TURN: u64 = 2;

/// For how many seconds memory is short after it was refused to a process.
const SHORT: u64 = 1;

/// How many seconds pass from one warning to the next, at least.
const BETWEEN_WARNINGS: u64 = 1;

/// What is under the lock of a reserve.
#[derive(Drop)]
struct ReserveState {
    alloc: Global,
    /// The memory that is kept, unless it was given back or refused.
    block: Option<Vec<u8>>,
    /// Until when it is the sessions' turn, if it is.
    turn_ends: Option<Duration>,
    /// When memory was refused to a process last.
    refused_at: Option<Duration>,
    /// How often it was refused since the last warning.
    refusals: u64,
    warned_at: Option<Duration>,
}

/// Whether fewer than `limit` seconds have passed since a time.
fn is_within(limit: u64, since: Option<Duration>, now: Duration) -> bool {
    match since {
        Some(since) => now.saturating_sub(since) < Duration::from_secs(limit),
        None => false,
    }
}

/// A block of memory, as large as can be had.
fn take_block(alloc: Global) -> Option<Vec<u8>> {
    for size in SIZES {
        if let Ok(block) = Vec::with_capacity(alloc, size) {
            return Some(block);
        }
    }
    None
}

impl ReserveState {
    fn is_short(&self, now: Duration) -> bool {
        is_within(SHORT, self.refused_at, now)
    }

    /// Ends the sessions' turn, if its time is over: the memory is taken again.
    fn end_turn(&mut self, now: Duration) {
        if let Some(turn_ends) = self.turn_ends
            && turn_ends <= now
        {
            self.turn_ends = None;
            self.fill();
        }
    }

    /// Takes as much memory as can be had, unless that is there or it is the sessions' turn.
    fn fill(&mut self) {
        let kept = match &self.block {
            Some(block) => block.capacity(),
            None => 0,
        };
        if self.turn_ends.is_none() && kept < SIZES[0] {
            self.block = None;
            self.block = take_block(self.alloc);
        }
    }

    /// Counts a refusal. Tells how many there were since the last warning, if it is time for another one.
    fn count(&mut self, now: Duration) -> Option<u64> {
        self.refusals = self.refusals.saturating_add(1);
        if is_within(BETWEEN_WARNINGS, self.warned_at, now) {
            return None;
        }
        let refusals = self.refusals;
        self.refusals = 0;
        self.warned_at = Some(now);
        Some(refusals)
    }
}

/// Some memory that is taken at the start. While memory is short it is given back when a session begins, when a command was refused for want
/// of it, and when a process lacks it that a session has started. Then it is the sessions' turn for two seconds: the processes that had
/// run before wait, so that those which take all memory don't take this too.
#[derive(Drop)]
pub struct MemoryReserve {
    /// The greatest number of a process that has run, or was to run while it wasn't the sessions' turn.
    newest: AtomicU32,
    /// Processes up to this number wait; 0 for none.
    waiting: AtomicU32,
    /// The process that a session started last while memory was short; 0 for none.
    started: AtomicU32,
    /// Whether memory was short when that was last found out.
    is_short: AtomicBool,
    /// Whether memory was refused to a session, or for a command.
    is_wanted: AtomicBool,
    state: Mutex<ReserveState>,
}

impl MemoryReserve {
    /// A reserve; an empty one where memory is refused for it.
    pub fn new(alloc: Global) -> MemoryReserve {
        MemoryReserve {
            newest: AtomicU32::new(0),
            waiting: AtomicU32::new(0),
            started: AtomicU32::new(0),
            is_short: AtomicBool::new(false),
            is_wanted: AtomicBool::new(false),
            state: Mutex::new(ReserveState {
                alloc,
                block: take_block(alloc),
                turn_ends: None,
                refused_at: None,
                refusals: 0,
                warned_at: None,
            }),
        }
    }

    /// Notes that a process runs, or was to run.
    pub fn note_run(&self, pid: u32) {
        if self.newest.load(Ordering::SeqCst) < pid {
            let _ = self.newest.fetch_max(pid, Ordering::SeqCst);
        }
    }

    /// Notes that memory was refused to a session.
    pub fn note_wanted(&self) {
        self.is_wanted.store(true, Ordering::SeqCst);
    }

    /// Notes the answer to a command: whether memory was refused, and which process was started while memory was short.
    pub fn note_answer(&self, answer: &Result<Outcome, Refusal>) {
        match answer {
            Err(Refusal::Node(Refused::NoMemory)) => self.note_wanted(),
            Ok(Outcome::Node(Reply::Started(pid))) if self.is_short.load(Ordering::SeqCst) => {
                self.started.store(*pid, Ordering::SeqCst);
            }
            _ => {}
        }
    }

    /// Gives the memory back: it is the sessions' turn for two seconds, and processes up to this number wait, or those that wait already.
    fn begin_turn(&self, state: &mut ReserveState, last: u32, now: Duration) {
        self.is_wanted.store(false, Ordering::SeqCst);
        if state.turn_ends.is_none() {
            self.waiting.store(last, Ordering::SeqCst);
        }
        state.block = None;
        state.turn_ends = Some(now.saturating_add(Duration::from_secs(TURN)));
    }

    /// Ends the sessions' turn, if its time is over, and notes whether memory is short.
    fn update(&self, state: &mut ReserveState, now: Duration) {
        state.end_turn(now);
        if state.turn_ends.is_none() {
            self.waiting.store(0, Ordering::SeqCst);
        }
        self.is_short.store(state.is_short(now), Ordering::SeqCst);
    }

    /// Whether a process is to wait, so that it takes nothing of what was given back.
    pub fn must_wait<R: Wait + Clock>(&self, rt: &R, pid: u32) -> bool {
        if self.waiting.load(Ordering::SeqCst) < pid {
            return false;
        }
        let now = rt.monotonic().unwrap_or(Duration::ZERO);
        let mut guard = self.state.lock(rt);
        self.update(&mut *guard, now);
        pid <= self.waiting.load(Ordering::SeqCst)
    }

    /// A session begins: gives the memory back if memory is short, or else takes as much as can be had.
    pub fn begin_session<R: Wait + Clock>(&self, rt: &R) {
        let now = rt.monotonic().unwrap_or(Duration::ZERO);
        let mut guard = self.state.lock(rt);
        let state = &mut *guard;
        self.update(state, now);
        if state.is_short(now) || self.is_wanted.load(Ordering::SeqCst) {
            self.begin_turn(state, self.newest.load(Ordering::SeqCst), now);
        } else {
            state.fill();
        }
    }

    /// Memory was refused to a process. Logs a warning, at most once a second.
    pub fn note_refused<R: Wait + Clock + Log>(&self, rt: &R, pid: u32) {
        let now = rt.monotonic().unwrap_or(Duration::ZERO);
        if let Some(refusals) = self.refuse(rt, pid, now) {
            warn!(rt; "memory: refused to process <0.{pid}.0>, refusals since the last warning: {refusals}");
        }
    }

    /// Notes that memory was refused to a process, and gives the reserve back if a session lacks memory, or has started that process. Tells
    /// how many refusals there were since the last warning, if it is time for another one.
    fn refuse<R: Wait>(&self, rt: &R, pid: u32, now: Duration) -> Option<u64> {
        let mut guard = self.state.lock(rt);
        let state = &mut *guard;
        self.update(state, now);
        if pid <= self.waiting.load(Ordering::SeqCst) {
            return state.count(now);
        }
        state.refused_at = Some(now);
        self.is_short.store(true, Ordering::SeqCst);
        let is_of_session = self.started.load(Ordering::SeqCst) == pid;
        if state.turn_ends.is_none() && !is_of_session {
            self.note_run(pid);
        }
        if self.is_wanted.load(Ordering::SeqCst) {
            self.begin_turn(state, self.newest.load(Ordering::SeqCst), now);
        } else if is_of_session {
            self.started.store(0, Ordering::SeqCst);
            self.begin_turn(state, pid.saturating_sub(1), now);
        }
        state.count(now)
    }
}
