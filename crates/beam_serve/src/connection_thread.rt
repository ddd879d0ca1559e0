//! The threads that serve connections.

use crate::acceptor::{Acceptor, Ended};
use crate::incoming_connections::IncomingConnections;
use crate::seat_desk::SeatDesk;
use crate::sessions::serve_sessions;
use beam_queue::QueueBrand;
use beam_receipts::brand::NodeBrand;
use beam_sched::schedulers::{ForegroundTask, Helper, StartedThreads};
use beam_sched::shared::Shared;
use beam_sched::thread_context::ThreadContext;
use log::{Log, warn};
use std::alloc::Global;
use std::sync::Wait;
use std::time::{Clock, Duration};

/// The settings of the threads that serve connections.
#[derive(Clone, Copy)]
pub struct ServeOptions {
    /// For how long a peer may give nothing and take nothing.
    pub idle: Option<Duration>,
    /// How many threads are wanted that serve connections.
    pub clients: usize,
    /// How many workers are wanted beside them.
    pub workers: usize,
    /// How many threads are wanted that answer requests.
    pub http_threads: usize,
}

/// A thread that serves connections, one after another, and answers their commands by the desk of its thread context.
#[derive(Drop)]
pub struct ConnectionThread<'a, B: NodeBrand + QueueBrand, R> {
    rt: &'a R,
    alloc: Global,
    shared: &'a Shared<B>,
    acceptor: &'a Acceptor<'a>,
    /// The number of this thread among those that serve connections, from 0 on.
    number: usize,
    desk: SeatDesk<'a, B, R>,
    options: ServeOptions,
}

impl<'a, B: NodeBrand + QueueBrand, R> ConnectionThread<'a, B, R> {
    /// The thread of this number: it gets connections from an acceptor, and answers commands by a desk of the node.
    pub fn new(
        rt: &'a R,
        alloc: Global,
        shared: &'a Shared<B>,
        acceptor: &'a Acceptor<'a>,
        number: usize,
        desk: SeatDesk<'a, B, R>,
        options: ServeOptions,
    ) -> ConnectionThread<'a, B, R> {
        ConnectionThread {
            rt,
            alloc,
            shared,
            acceptor,
            number,
            desk,
            options,
        }
    }

    /// The thread context of its desk.
    pub fn into_context(self) -> ThreadContext<B> {
        let ConnectionThread { desk, .. } = self;
        desk.into_context()
    }
}

impl<B: NodeBrand + QueueBrand, R: Wait + Clock + Log + AllocGlobal> ConnectionThread<'_, B, R> {
    /// How many threads serve connections, where this number of helpers was started. The first helpers are those that end after them: the
    /// thread of the journal's file, and those that answer requests.
    fn count_threads(&self, helpers: usize) -> usize {
        let journal = usize::from(self.desk.journal().is_some());
        let others = journal.saturating_add(self.options.http_threads);
        let count = helpers.saturating_sub(others).saturating_add(1);
        if let Some(link) = self.desk.journal() {
            link.journal.expect_senders(self.rt, count);
        }
        self.acceptor.expect_threads(count);
        count
    }

    /// Serves connections until no more are accepted. Unless that is because enough were accepted, the workers end after their slices, and
    /// the connections of other threads are shut: what was read from them is answered.
    fn serve(&mut self) {
        let rt = self.rt;
        let mut connections = IncomingConnections::new(
            rt,
            self.alloc,
            self.acceptor,
            self.number,
            self.options.idle,
        );
        serve_sessions(rt, self.alloc, &mut connections, &mut self.desk);
        if let Some(link) = self.desk.journal() {
            link.journal.leave(rt);
        }
        self.acceptor.leave();
        if !matches!(self.acceptor.ended(rt), Some(Ended::Served)) {
            self.shared.stop(rt);
            self.acceptor.endpoint().sockets.shut(rt);
        }
    }
}

impl<B: NodeBrand + QueueBrand, R: Wait + Clock + Log + AllocGlobal> ForegroundTask
    for ConnectionThread<'_, B, R> {
    // Warns if fewer threads run than were wanted; without workers no connection is accepted.
    fn run(&mut self, started: StartedThreads) {
        let rt = self.rt;
        if started.workers == 0 {
            self.acceptor.close(rt, Ended::NoWorker);
            return;
        }
        if started.workers < self.options.workers {
            warn!(rt; "{} of {} schedulers", started.workers, self.options.workers);
        }
        let clients = self.count_threads(started.helpers);
        if clients < self.options.clients {
            warn!(rt; "{} of {} clients", clients, self.options.clients);
        }
        self.serve();
    }
}

impl<B: NodeBrand + QueueBrand, R: Wait + Clock + Log + AllocGlobal> Helper
    for ConnectionThread<'_, B, R> {
    fn help(&mut self) {
        self.serve();
    }
}
