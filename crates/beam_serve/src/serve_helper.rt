//! The threads beside the one that calls `serve`.

use crate::connection_thread::ConnectionThread;
use crate::http_thread::HttpThread;
use beam_disk_journal::JournalThread;
use beam_queue::QueueBrand;
use beam_receipts::brand::NodeBrand;
use beam_sched::schedulers::Helper;
use log::Log;
use std::sync::Wait;
use std::time::Clock;

/// A thread that serves connections, the one that writes the journal's file, or the one that answers requests.
#[derive(Drop)]
pub(crate) enum ServeHelper<'a, B: NodeBrand + QueueBrand, R> {
    Connections(ConnectionThread<'a, B, R>),
    Journal(JournalThread<'a, B, R>),
    Http(HttpThread<'a, B, R>),
}

impl<B: NodeBrand + QueueBrand, R: Wait + Clock + Log + AllocGlobal> Helper
    for ServeHelper<'_, B, R> {
    fn help(&mut self) {
        match self {
            ServeHelper::Connections(thread) => thread.help(),
            ServeHelper::Journal(thread) => thread.help(),
            ServeHelper::Http(thread) => thread.help(),
        }
    }
}
