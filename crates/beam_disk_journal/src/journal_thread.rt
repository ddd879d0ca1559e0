//! The thread that writes entries that nobody waits for, and puts the file on the device.

use crate::disk_journal::{FileCounts, Turn};
use crate::journal_link::{JournalLink, log_refusal};
use beam_block_file::FileShelf;
use beam_journal_file::WriteFailed;
use beam_receipts::brand::NodeBrand;
use beam_sched::schedulers::Helper;
use beam_sched::shared::Shared;
use log::{Log, info};
use std::sync::Wait;
use std::time::{Clock, Duration};

/// How many milliseconds lie between two writes.
const PERIOD: u64 = 10;

/// How many milliseconds lie between two tries after the device refused.
const RETRY_AFTER: u64 = 100;

/// How many seconds lie between two syncs.
const SYNC_PERIOD: u64 = 1;

/// How many seconds lie between two lines of the log about the file.
const REPORT_PERIOD: u64 = 60;

/// The thread of a journal's file. It has a handle of its own of the file.
pub struct JournalThread<'a, B: NodeBrand, R> {
    rt: &'a R,
    shared: &'a Shared<B>,
    link: JournalLink<'a, B>,
    handle: FileShelf,
    /// Whether the last write was refused.
    is_refused: bool,
    /// When the file was put on the device, or the thread began.
    synced_at: Duration,
    /// When the log was told how far the file is, or the thread began.
    reported_at: Duration,
}

impl<'a, B: NodeBrand, R> Drop for JournalThread<'a, B, R> {
    fn drop(self) {
        let JournalThread {
            rt: _rt,
            shared: _shared,
            link: _link,
            handle: _handle,
            is_refused: _is_refused,
            synced_at: _synced_at,
            reported_at: _reported_at,
        } = self;
    }
}

impl<'a, B: NodeBrand, R> JournalThread<'a, B, R> {
    /// The thread of the file of this link, of which it has this handle.
    pub fn new(
        rt: &'a R,
        shared: &'a Shared<B>,
        link: JournalLink<'a, B>,
        handle: FileShelf,
    ) -> JournalThread<'a, B, R> {
        JournalThread {
            rt,
            shared,
            link,
            handle,
            is_refused: false,
            synced_at: Duration::ZERO,
            reported_at: Duration::ZERO,
        }
    }
}

impl<B: NodeBrand, R: Wait + Clock + Log> JournalThread<'_, B, R> {
    /// How long it waits before it writes again.
    fn period(&self) -> Duration {
        if self.is_refused {
            Duration::from_millis(RETRY_AFTER)
        } else {
            Duration::from_millis(PERIOD)
        }
    }

    /// After a write was refused: it is tried again, unless the connections are shut, since then nobody could be answered any more.
    fn refused(&mut self, why: WriteFailed, is_first: bool) -> Turn {
        self.is_refused = true;
        log_refusal(self.rt, why, is_first);
        if self.link.sockets.are_shut() {
            self.link.journal.give_up(self.rt, why);
            return Turn::Failed;
        }
        Turn::GoesOn
    }

    /// Writes the entries that the journal has.
    fn write(&mut self) -> Turn {
        match self.link.journal.write_new(self.rt, self.shared) {
            Turn::Refused { why, is_first } => self.refused(why, is_first),
            Turn::Failed => Turn::Failed,
            turn => {
                if self.is_refused {
                    info!(self.rt; "journal: written again");
                }
                self.is_refused = false;
                turn
            }
        }
    }

    fn now(&self) -> Duration {
        self.rt.monotonic().unwrap_or(Duration::ZERO)
    }

    /// Logs how far the file is, if that is due.
    fn report(&mut self) {
        let now = self.now();
        if now.saturating_sub(self.reported_at) < Duration::from_secs(REPORT_PERIOD) {
            return;
        }
        self.reported_at = now;
        let entered = self.shared.entered();
        let FileCounts {
            written,
            synced,
            bytes,
        } = self.link.journal.counts(self.rt);
        info!(self.rt; "journal: {entered} entries, {written} in the file, {synced} on the device, {bytes} bytes");
    }

    /// Puts the file on the device, if that is asked for and due.
    fn sync(&mut self) -> Turn {
        let now = self.now();
        let since = now.saturating_sub(self.synced_at);
        if !self.link.journal.syncs_each_second() || since < Duration::from_secs(SYNC_PERIOD) {
            return Turn::Kept;
        }
        self.synced_at = now;
        self.link.journal.sync_written(self.rt, &mut self.handle)
    }
}

impl<B: NodeBrand, R: Wait + Clock + Log> Helper for JournalThread<'_, B, R> {
    // It ends once no thread gives commands any more, or the file failed: then connections and workers are stopped.
    fn help(&mut self) {
        let rt = self.rt;
        self.link.journal.begin_thread(rt);
        self.synced_at = self.now();
        self.reported_at = self.synced_at;
        for _ in rt.forever() {
            if self.link.journal.pause(rt, self.period()) {
                self.link.journal.end_thread(rt);
                return;
            }
            if self.write() == Turn::Failed || self.sync() == Turn::Failed {
                self.link.stop(rt, self.shared);
                return;
            }
            self.report();
        }
    }
}
