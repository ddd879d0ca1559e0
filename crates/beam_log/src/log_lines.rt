//! The lines of the log on their way to the thread that writes them.

use crate::end_limit::EndLimit;
use crate::recent_lines::{RecentLine, RecentLines};
use crossbeam_queue::ArrayQueue;
use std::alloc::{AllocError, Global};
use std::mem;
use std::sync::atomic::{AtomicBool, AtomicU64, Ordering};
use std::sync::{Condvar, CondvarTimeouts, Mutex, Wait};
use std::time::{Clock, Duration};

/// How many lines can wait to be written.
const ROOM: usize = 1_024;

/// With how many lines that wait no more are lost, once some were.
const ROOM_AGAIN: usize = 512;

/// For how many seconds the writer may write nothing at the end before it is given up.
const PATIENCE: u64 = 2;

/// How many seconds the writer waits at most while ends of processes are counted.
const PERIOD: u64 = 1;

/// A line that waits to be written.
#[derive(Drop)]
pub struct LogLine {
    /// How long after the beginning of 1970 it was logged.
    pub time: Duration,
    /// How many lines were lost before it and after the line that waits before it.
    pub lost_before: u64,
    /// Its text, without the time.
    pub text: String,
}

/// What is to be written next.
pub enum NextLine {
    /// A line that was logged.
    Logged(LogLine),
    /// That this number of lines was lost.
    Lost(u64),
    /// That this number of ends of processes wasn't logged.
    EndsNotLogged(u64),
    /// What the program says at its end, as it is; nothing comes after it.
    Last(Vec<u8>),
}

impl Drop for NextLine {
    fn drop(self) {
        match self {
            NextLine::Logged(_line) => {}
            NextLine::Lost(_) | NextLine::EndsNotLogged(_) => {}
            NextLine::Last(_bytes) => {}
        }
    }
}

impl LogLine {
    /// Its time and its text.
    fn into_text(self) -> (Duration, String) {
        let LogLine { time, text, .. } = self;
        (time, text)
    }
}

impl NextLine {
    /// The time and the text of a line that was logged.
    fn into_text(self) -> Option<(Duration, String)> {
        match self {
            NextLine::Logged(line) => Some(line.into_text()),
            NextLine::Lost(_) | NextLine::EndsNotLogged(_) => None,
            NextLine::Last(_bytes) => None,
        }
    }
}

/// How far the log is.
#[derive(Drop)]
struct LogState {
    /// Whether no more lines come.
    is_closed: bool,
    /// What the program says at its end.
    last: Vec<u8>,
    /// Whether all is written.
    is_written: bool,
}

/// Lines that threads have logged and one thread writes. At most 1,024 wait. Further ones are lost, and counted, until no more than 512
/// wait. No thread that logs waits for the writer.
#[derive(Drop)]
pub struct LogLines {
    alloc: Global,
    lines: ArrayQueue<LogLine>,
    /// How many lines were lost since the last one that waits.
    lost: AtomicU64,
    /// How many lines were lost in all.
    all_lost: AtomicU64,
    /// The last lines that were written.
    recent: Mutex<RecentLines>,
    ends: EndLimit,
    /// How many times the writer has taken what is next.
    taken: AtomicU64,
    /// Whether the writer waits, or is about to.
    is_waiting: AtomicBool,
    /// No thread writes a line while it holds this lock.
    state: Mutex<LogState>,
    /// There are lines, or the state has changed.
    changed: Condvar,
}

impl LogLines {
    /// A log without lines.
    pub fn new(alloc: Global) -> Result<LogLines, AllocError> {
        Ok(LogLines {
            alloc,
            lines: ArrayQueue::new(alloc, ROOM)?,
            lost: AtomicU64::new(0),
            all_lost: AtomicU64::new(0),
            recent: Mutex::new(RecentLines::new(alloc)?),
            ends: EndLimit::new(),
            taken: AtomicU64::new(0),
            is_waiting: AtomicBool::new(false),
            state: Mutex::new(LogState {
                is_closed: false,
                last: Vec::new(alloc),
                is_written: false,
            }),
            changed: Condvar::new(),
        })
    }

    /// The allocator of its lines.
    pub fn alloc(&self) -> Global {
        self.alloc
    }

    /// Counts an end of a process that comes at this time, and tells whether it may be logged: 100 may in a second.
    pub fn admits_end<R: Wait>(&self, rt: &R, now: Duration) -> bool {
        self.ends.admits(rt, now)
    }

    /// Counts lines that are lost, and wakes the writer.
    fn lose<R: Wait>(&self, rt: &R, count: u64) {
        let _ = self.all_lost.fetch_add(1, Ordering::SeqCst);
        let _ = self.lost.fetch_add(count, Ordering::SeqCst);
        self.wake(rt);
    }

    /// Whether further lines are lost, since lines were lost and most of those that waited then still wait.
    fn is_losing<R: Wait>(&self, rt: &R) -> bool {
        self.lost.load(Ordering::SeqCst) > 0 && self.lines.len(rt) > ROOM_AGAIN
    }

    /// Lets a line wait to be written, which was logged that long after the beginning of 1970, and wakes the writer. The line is lost if
    /// there is no room for it, or if there is no text of it for want of memory.
    pub fn push<R: Wait>(&self, rt: &R, time: Duration, text: Result<String, AllocError>) {
        let Ok(text) = text else {
            return self.lose(rt, 1);
        };
        if self.is_losing(rt) {
            return self.lose(rt, 1);
        }
        let line = LogLine {
            time,
            lost_before: self.lost.swap(0, Ordering::SeqCst),
            text,
        };
        match self.lines.push(rt, line) {
            Ok(()) => self.wake(rt),
            Err(line) => self.lose(rt, line.lost_before.saturating_add(1)),
        }
    }

    /// Keeps a line that was written among the last ones.
    pub(crate) fn keep<R: Wait>(&self, rt: &R, written: NextLine) {
        if let Some((time, text)) = written.into_text() {
            self.recent.lock(rt).push(time, text);
        }
    }

    /// Copies of those of the last 500 lines that come behind a number, and how many behind it are no longer there.
    pub fn recent<R: Wait>(
        &self,
        rt: &R,
        alloc: Global,
        number: u64,
    ) -> Result<(Vec<RecentLine>, u64), AllocError> {
        self.recent.lock(rt).after(alloc, number)
    }

    /// How many lines were lost, for want of room or of memory.
    pub fn lost(&self) -> u64 {
        self.all_lost.load(Ordering::SeqCst)
    }

    /// Wakes the writer, if it waits or is about to. It notes that before it looks for lines for the last time, so either it finds the
    /// line or it is woken.
    fn wake<R: Wait>(&self, rt: &R) {
        if self.is_waiting.load(Ordering::SeqCst) {
            let guard = self.state.lock(rt);
            self.changed.notify_all();
            drop(guard);
        }
    }

    /// Waits until there may be something to write.
    fn wait<R: Wait + Clock>(&self, rt: &R) {
        let is_counting = self.ends.is_active(rt);
        let state = self.state.lock(rt);
        self.is_waiting.store(true, Ordering::SeqCst);
        let is_idle = self.lines.is_empty() && self.lost.load(Ordering::SeqCst) == 0;
        if is_idle && !state.is_closed {
            if is_counting {
                let period = Duration::from_secs(PERIOD);
                drop(self.changed.wait_timeout(rt, state, period).0);
            } else {
                drop(self.changed.wait(rt, state));
            }
        }
        self.is_waiting.store(false, Ordering::SeqCst);
    }

    /// What is left once the log is closed and no line waits.
    fn at_end<R: Wait>(&self, rt: &R) -> Option<NextLine> {
        let mut state = self.state.lock(rt);
        if !state.is_closed || !self.lines.is_empty() {
            return None;
        }
        match self.ends.take_all(rt) {
            0 => Some(NextLine::Last(mem::replace(&mut state.last, Vec::new(self.alloc)))),
            count => Some(NextLine::EndsNotLogged(count)),
        }
    }

    /// What is to be written now, if anything is.
    fn at_once<R: Wait + Clock>(&self, rt: &R) -> Option<NextLine> {
        let now = rt.monotonic().unwrap_or(Duration::ZERO);
        let ends = self.ends.take_due(rt, now);
        if ends > 0 {
            return Some(NextLine::EndsNotLogged(ends));
        }
        if let Some(line) = self.lines.pop(rt) {
            return Some(NextLine::Logged(line));
        }
        match self.lost.swap(0, Ordering::SeqCst) {
            0 => self.at_end(rt),
            count => Some(NextLine::Lost(count)),
        }
    }

    /// Waits for what is to be written next. One thread calls it, up to `Last`.
    pub fn next<R: Wait + Clock>(&self, rt: &R) -> NextLine {
        for _ in rt.forever() {
            if let Some(next) = self.at_once(rt) {
                let _ = self.taken.fetch_add(1, Ordering::SeqCst);
                return next;
            }
            self.wait(rt);
        }
        unreachable!()
    }

    /// Notes that all is written, after `Last`.
    pub fn end<R: Wait>(&self, rt: &R) {
        let mut state = self.state.lock(rt);
        state.is_written = true;
        self.changed.notify_all();
    }

    /// Closes the log, with what the program says at its end, and waits until the writer has written the lines that wait and then that. A
    /// writer that writes nothing for 2 seconds is given up. No line may be logged afterwards.
    pub fn close<R: Wait + Clock>(&self, rt: &R, last: Vec<u8>) {
        let patience = Duration::from_secs(PATIENCE);
        let mut state = self.state.lock(rt);
        state.last = last;
        state.is_closed = true;
        self.changed.notify_all();
        for _ in rt.forever() {
            let taken = self.taken.load(Ordering::SeqCst);
            state = self
                .changed
                .wait_timeout_while(rt, state, patience, |state| !state.is_written)
                .0;
            if state.is_written || self.taken.load(Ordering::SeqCst) == taken {
                return;
            }
        }
    }
}
