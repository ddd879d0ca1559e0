//! A node's journal on disk: which entries stand there, and the thread that writes more.

use crate::node_file::NodeFile;
use beam_block_file::Shelf;
use beam_journal_file::WriteFailed;
use beam_receipts::brand::NodeBrand;
use beam_sched::shared::Shared;
use beam_tools::line::SyncMode;
use std::sync::atomic::{AtomicU64, Ordering};
use std::sync::{Condvar, CondvarTimeouts, Mutex, Wait};
use std::time::{Clock, Duration};

/// What a thread waits for.
#[derive(Clone, Copy, Debug, PartialEq, Eq)]
pub(crate) enum Awaited {
    /// The first entries of the journal, this many, are kept as the command line asks for, so that answers may be told.
    Kept(u64),
    /// Of the first entries of the journal, this many, the file lacks no more than it may.
    Near(u64),
}

/// What became of a thread's turn at the file.
#[derive(Clone, Copy, Debug, PartialEq, Eq)]
pub(crate) enum Turn {
    /// The thread needn't wait.
    Kept,
    /// The file has more than before, or another thread has written.
    GoesOn,
    /// The device refuses, and can be tried again. `is_first` where it took what was written before.
    Refused { why: WriteFailed, is_first: bool },
    /// Nothing is written any more.
    Failed,
}

/// How far the file is.
#[derive(Clone, Copy, Debug, PartialEq, Eq)]
pub(crate) struct FileCounts {
    /// How many entries stand in the file.
    pub written: u64,
    /// How many of them are known to be on the device.
    pub synced: u64,
    /// How many bytes the file has.
    pub bytes: u64,
}

/// The file, and how far it is.
struct Progress<B: NodeBrand, S: Shelf + Drop> {
    /// The file, unless a thread writes to it.
    file: Option<NodeFile<B, S>>,
    counts: FileCounts,
    /// Whether the last try to write was refused.
    is_refused: bool,
    /// Whether a thread writes from time to time, and tries again what was refused.
    has_thread: bool,
    /// Why nothing is written any more.
    failure: Option<WriteFailed>,
    /// How many threads give commands, once that is known.
    senders: Option<usize>,
    /// How many threads give no more commands.
    left: usize,
}

impl<B: NodeBrand, S: Shelf + Drop> Drop for Progress<B, S> {
    fn drop(self) {
        let Progress {
            file: _file,
            counts: _counts,
            is_refused: _is_refused,
            has_thread: _has_thread,
            failure: _failure,
            senders: _senders,
            left: _left,
        } = self;
    }
}

impl<B: NodeBrand, S: Shelf + Drop> Progress<B, S> {
    /// Whether no thread gives commands any more.
    fn is_left(&self) -> bool {
        match self.senders {
            Some(senders) => self.left >= senders,
            None => false,
        }
    }
}

/// The file of a node's journal, which threads write in turn: a thread that needs entries to stand there writes all that there are, unless
/// another one is writing. The lock is held only to see how far the file is. Entries that are written leave memory.
pub struct DiskJournal<B: NodeBrand, S: Shelf + Drop> {
    progress: Mutex<Progress<B, S>>,
    /// The file has more than before, or it failed.
    advanced: Condvar,
    /// A thread gives no more commands.
    has_left: Condvar,
    /// How many entries stand in the file, for threads that look without the lock.
    written: AtomicU64,
    sync: SyncMode,
    /// How many entries of the journal the file may lack before those that enter further ones wait.
    most_behind: u64,
}

impl<B: NodeBrand, S: Shelf + Drop> Drop for DiskJournal<B, S> {
    fn drop(self) {
        let DiskJournal {
            progress: _progress,
            advanced: _advanced,
            has_left: _has_left,
            written: _written,
            sync: _sync,
            most_behind: _most_behind,
        } = self;
    }
}

impl<B: NodeBrand, S: Shelf + Drop> DiskJournal<B, S> {
    /// A file, all of which is on the device.
    pub fn new(file: NodeFile<B, S>, sync: SyncMode, most_behind: u64) -> DiskJournal<B, S> {
        let written = file.written();
        let counts = FileCounts {
            written,
            synced: written,
            bytes: file.bytes(),
        };
        DiskJournal {
            progress: Mutex::new(Progress {
                file: Some(file),
                counts,
                is_refused: false,
                has_thread: false,
                failure: None,
                senders: None,
                left: 0,
            }),
            advanced: Condvar::new(),
            has_left: Condvar::new(),
            written: AtomicU64::new(written),
            sync,
            most_behind,
        }
    }

    /// Whether the file lacks no more of that many entries than it may, where this many stand in it.
    fn is_near(&self, written: u64, count: u64) -> bool {
        written.saturating_add(self.most_behind) >= count
    }

    /// Whether a thread needn't wait, where this many entries stand in the file and this many of them are on the device.
    fn has(&self, written: u64, synced: u64, awaited: Awaited) -> bool {
        match awaited {
            Awaited::Near(count) => self.is_near(written, count),
            Awaited::Kept(count) => match self.sync {
                SyncMode::No => self.is_near(written, count),
                SyncMode::Second => written >= count,
                SyncMode::Always => synced >= count,
            },
        }
    }

    /// Whether a thread needn't wait, as far as that is seen without the lock.
    pub(crate) fn has_by_now(&self, awaited: Awaited) -> bool {
        self.has(self.written.load(Ordering::Acquire), 0, awaited)
    }

    /// Whether all written entries are to be on the device before a thread lets the file go.
    fn syncs_always(&self) -> bool {
        matches!(self.sync, SyncMode::Always)
    }

    /// Gives the file back after it was written, and wakes those that wait for it. Where no thread would try again what was refused,
    /// nothing is written any more.
    fn give_back<R: Wait>(
        &self,
        rt: &R,
        file: NodeFile<B, S>,
        outcome: Result<(), WriteFailed>,
    ) -> Turn {
        let mut progress = self.progress.lock(rt);
        progress.counts.written = file.written();
        progress.counts.bytes = file.bytes();
        progress.file = Some(file);
        let is_first = !progress.is_refused;
        progress.is_refused = outcome.is_err();
        let turn = match outcome {
            Ok(()) => {
                if self.syncs_always() {
                    progress.counts.synced = progress.counts.written;
                }
                Turn::GoesOn
            }
            Err(why) if why.is_final() || !progress.has_thread => {
                progress.failure = Some(why);
                Turn::Failed
            }
            Err(why) => Turn::Refused { why, is_first },
        };
        self.advanced.notify_all();
        turn
    }

    /// Writes the entries that the journal has when it is called, with a file that no other thread has. They leave memory; no lock is held
    /// while they are spelled, written and dropped.
    fn write_all<R: Wait>(
        &self,
        rt: &R,
        shared: &Shared<B>,
        file: &mut NodeFile<B, S>,
    ) -> Result<(), WriteFailed> {
        let wanted = shared.entered();
        for _ in rt.forever() {
            if file.written() >= wanted {
                break;
            }
            file.take(rt, shared)?;
            file.fill()?;
            file.write()?;
            self.written.store(file.written(), Ordering::Release);
        }
        if self.syncs_always() {
            file.sync()?;
        }
        Ok(())
    }

    /// Takes a turn at the file, for a thread that waits for this: writes what there is, or waits until another thread has written. A write
    /// that was refused is left to the thread that tries it again.
    pub(crate) fn take_turn<R: Wait>(&self, rt: &R, shared: &Shared<B>, awaited: Awaited) -> Turn {
        let mut progress = self.progress.lock(rt);
        if self.has(progress.counts.written, progress.counts.synced, awaited) {
            return Turn::Kept;
        }
        if progress.failure.is_some() {
            return Turn::Failed;
        }
        let may_write = !progress.is_refused || !progress.has_thread;
        if may_write && let Some(mut file) = progress.file.take() {
            drop(progress);
            let outcome = self.write_all(rt, shared, &mut file);
            return self.give_back(rt, file, outcome);
        }
        self.advanced.wait(rt, progress);
        Turn::GoesOn
    }

    /// Writes what there is, unless another thread is writing.
    pub(crate) fn write_new<R: Wait>(&self, rt: &R, shared: &Shared<B>) -> Turn {
        let mut progress = self.progress.lock(rt);
        if progress.failure.is_some() {
            return Turn::Failed;
        }
        if progress.counts.written >= shared.entered() {
            return Turn::Kept;
        }
        let Some(mut file) = progress.file.take() else {
            return Turn::GoesOn;
        };
        drop(progress);
        let outcome = self.write_all(rt, shared, &mut file);
        self.give_back(rt, file, outcome)
    }

    /// Puts what was written on the device, by another handle of the file, so that threads go on writing. `Failed` where that fails.
    pub(crate) fn sync_written<R: Wait>(&self, rt: &R, handle: &mut S) -> Turn {
        let progress = self.progress.lock(rt);
        let written = progress.counts.written;
        let is_synced = progress.counts.synced >= written;
        drop(progress);
        if is_synced {
            return Turn::Kept;
        }
        let outcome = handle.sync();
        let mut progress = self.progress.lock(rt);
        let turn = match outcome {
            Ok(()) => {
                progress.counts.synced = progress.counts.synced.max(written);
                Turn::GoesOn
            }
            Err(failed) => {
                progress.failure = Some(WriteFailed::Unsynced(failed));
                Turn::Failed
            }
        };
        self.advanced.notify_all();
        turn
    }

    /// Whether the file is put on the device once a second.
    pub(crate) fn syncs_each_second(&self) -> bool {
        matches!(self.sync, SyncMode::Second)
    }

    /// Writes nothing any more, for this reason.
    pub(crate) fn give_up<R: Wait>(&self, rt: &R, why: WriteFailed) {
        let mut progress = self.progress.lock(rt);
        progress.failure = Some(why);
        self.advanced.notify_all();
    }

    /// How far the file is.
    pub(crate) fn counts<R: Wait>(&self, rt: &R) -> FileCounts {
        self.progress.lock(rt).counts
    }

    /// Why nothing is written any more.
    pub fn failure<R: Wait>(&self, rt: &R) -> Option<WriteFailed> {
        self.progress.lock(rt).failure
    }

    /// A thread writes from time to time from now on.
    pub(crate) fn begin_thread<R: Wait>(&self, rt: &R) {
        self.progress.lock(rt).has_thread = true;
    }

    /// No thread writes from time to time any more. What was refused is tried again by those that wait for it, once.
    pub(crate) fn end_thread<R: Wait>(&self, rt: &R) {
        let mut progress = self.progress.lock(rt);
        progress.has_thread = false;
        self.advanced.notify_all();
    }

    /// Notes how many threads give commands, those that have left already among them.
    pub fn expect_senders<R: Wait>(&self, rt: &R, count: usize) {
        self.progress.lock(rt).senders = Some(count);
        self.has_left.notify_all();
    }

    /// A thread gives no more commands.
    pub fn leave<R: Wait>(&self, rt: &R) {
        let mut progress = self.progress.lock(rt);
        progress.left = progress.left.saturating_add(1);
        self.has_left.notify_all();
    }

    /// Waits for some time, or until no thread gives commands any more, and tells whether that is so.
    pub(crate) fn pause<R: Wait + Clock>(&self, rt: &R, most: Duration) -> bool {
        let progress = self.progress.lock(rt);
        if progress.is_left() {
            return true;
        }
        let (progress, _is_over) = self.has_left.wait_timeout(rt, progress, most);
        progress.is_left()
    }

    /// Writes what is left once no thread gives commands any more, and puts all on the device.
    pub fn finish<R: Wait>(&self, rt: &R, shared: &Shared<B>) -> Result<(), WriteFailed> {
        let mut progress = self.progress.lock(rt);
        if let Some(why) = progress.failure {
            return Err(why);
        }
        let Some(mut file) = progress.file.take() else {
            return Ok(());
        };
        drop(progress);
        self.write_all(rt, shared, &mut file)?;
        file.sync()
    }
}
