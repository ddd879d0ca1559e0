//! What threads need to wait for the journal's file: desks, so that answers are told once the file has them, and workers, so that the file
//! keeps up.

use crate::disk_journal::{Awaited, DiskJournal, Turn};
use beam_block_file::FileShelf;
use beam_journal_file::WriteFailed;
use beam_receipts::brand::NodeBrand;
use beam_sched::shared::Shared;
use beam_sockets::OpenSockets;
use log::{Log, warn};
use std::sync::Wait;

/// The file of the node's journal, and the sockets that are cut off where it can't be written.
#[derive_where(Clone, Copy)]
pub struct JournalLink<'a, B: NodeBrand> {
    pub journal: &'a DiskJournal<B, FileShelf>,
    pub sockets: &'a OpenSockets,
}

/// Warns that the device refused, unless it did so before.
pub(crate) fn log_refusal<R: Log>(rt: &R, why: WriteFailed, is_first: bool) {
    if is_first {
        warn!(rt; "journal: {why}");
    }
}

impl<B: NodeBrand> JournalLink<'_, B> {
    /// Waits for this. Where it never comes, since the file can't be written any more, connections and workers are stopped first.
    fn wait_for<R: Wait + Log>(&self, rt: &R, shared: &Shared<B>, awaited: Awaited) {
        if self.journal.has_by_now(awaited) {
            return;
        }
        for _ in rt.forever() {
            match self.journal.take_turn(rt, shared, awaited) {
                Turn::Kept => return,
                Turn::GoesOn => {}
                Turn::Refused { why, is_first } => log_refusal(rt, why, is_first),
                Turn::Failed => {
                    self.stop(rt, shared);
                    return;
                }
            }
        }
    }

    /// Waits until what the node has answered may be told: until the entries that its journal has now stand in the file, or are on the
    /// device, or the file lacks no more of them than it may, as the command line asks for. Where they never will, connections and workers
    /// are stopped first, so that nothing is told.
    pub fn wait_until_kept<R: Wait + Log>(&self, rt: &R, shared: &Shared<B>) {
        self.wait_for(rt, shared, Awaited::Kept(shared.entered()));
    }

    /// Waits until the file lacks no more of the entries that the journal has now than it may. Where it can't be written any more,
    /// connections and workers are stopped.
    pub fn wait_until_near<R: Wait + Log>(&self, rt: &R, shared: &Shared<B>) {
        self.wait_for(rt, shared, Awaited::Near(shared.entered()));
    }

    /// Cuts off the connections, and lets workers end after their slices.
    pub fn stop<R: Wait>(&self, rt: &R, shared: &Shared<B>) {
        self.sockets.cut_off(rt);
        shared.stop(rt);
    }
}
