//! What the node logs of the processes that workers run, and what it does as the journal fills.

use crate::endpoint::Endpoint;
use crate::exit_log::{log_exit, log_rows};
use crate::memory_reserve::MemoryReserve;
use crate::readiness::Readiness;
use beam_debug::outcome::Outcome;
use beam_disk_journal::JournalLink;
use beam_receipts::brand::NodeBrand;
use beam_sched::gate::Gate;
use beam_sched::journal_threshold::JournalThreshold;
use beam_sched::shared::Shared;
use beam_sockets::OpenSockets;
use beam_term::Term;
use log::{Log, warn};
use std::sync::Wait;
use std::time::Clock;

/// Logs at info which processes are held and which end other than normally, warns as the journal in memory fills and where memory is
/// refused to a process, and shuts the sockets once the journal is full, if that is asked for. What was read from them is answered, also
/// the command that filled the journal. Where the node keeps its journal in a file, a worker whose rows took effect waits while the file
/// lacks more than it may, so the journal in memory isn't filled.
#[derive(Drop)]
pub struct ServeGate<'a, B: NodeBrand, R> {
    rt: &'a R,
    shared: &'a Shared<B>,
    sockets: &'a OpenSockets,
    reserve: &'a MemoryReserve,
    readiness: &'a Readiness,
    journal: Option<JournalLink<'a, B>>,
    limit: u32,
    stops_when_full: bool,
}

impl<'a, B: NodeBrand, R> ServeGate<'a, B, R> {
    /// A gate of a node, of whose journal `limit` entries can be in memory, and which may keep it in a file.
    pub fn new(
        rt: &'a R,
        shared: &'a Shared<B>,
        endpoint: Endpoint<'a>,
        journal: Option<JournalLink<'a, B>>,
        limit: u32,
        stops_when_full: bool,
    ) -> ServeGate<'a, B, R> {
        let Endpoint {
            sockets,
            reserve,
            readiness,
            ..
        } = endpoint;
        ServeGate {
            rt,
            shared,
            sockets,
            reserve,
            readiness,
            journal,
            limit,
            stops_when_full,
        }
    }
}

impl<B: NodeBrand, R: Wait + Clock + Log + AllocGlobal> Gate for ServeGate<'_, B, R> {
    fn out(&self, pid: u32) {
        self.reserve.note_run(pid);
    }

    fn must_wait(&self, pid: u32) -> bool {
        self.reserve.must_wait(self.rt, pid)
    }

    fn back(&self, _pid: u32) {}

    fn ran(&self, pid: u32, outcome: &Outcome) {
        log_rows(self.rt, pid, outcome);
        if let Some(journal) = self.journal {
            journal.wait_until_near(self.rt, self.shared);
        }
    }

    fn ran_in_place(&self, pid: u32) {
        self.reserve.note_run(pid);
        if let Some(journal) = self.journal {
            journal.wait_until_near(self.rt, self.shared);
        }
    }

    fn ended(&self, pid: u32, reason: &Term) {
        log_exit(self.rt, pid, reason);
    }

    fn refused(&self, pid: u32) {
        self.reserve.note_refused(self.rt, pid);
    }

    fn filled(&self, threshold: JournalThreshold) {
        if threshold != JournalThreshold::Full {
            warn!(self.rt; "journal: {} percent of {} entries", threshold.percent(), self.limit);
            return;
        }
        warn!(self.rt; "journal: full, {} entries", self.limit);
        self.readiness.note_full();
        if self.stops_when_full {
            self.sockets.shut(self.rt);
        }
    }
}
