//! What is told of a node.

use crate::acceptor::Acceptor;
use crate::http_state::{HttpState, time};
use beam_http::Door;
use beam_page::{
    ChangeCount, ChangeCounts, ConnectionCounts, ConnectionFacts, ConnectionList, EntryFacts,
    JournalFacts, LogFacts, LogTail, NodeFacts, SchedulerFacts,
};
use beam_receipts::brand::NodeBrand;
use beam_sched::command_tally::{CodeChange, CommandTally};
use beam_sched::shared::Shared;
use beam_tools::program::Program;
use std::alloc::{AllocError, Global};
use std::sync::Wait;
use std::time::{Clock, Duration};

/// The name of a node.
const NAME: &str = "kanguriwe";

fn milliseconds(time: Duration) -> u64 {
    u64::try_from(time.as_millis()).unwrap_or(u64::MAX)
}

/// The program's version.
fn version() -> &'static str {
    let text = Program::Node.version();
    text.strip_prefix("beamnode ").unwrap_or(text).trim_end()
}

/// The journal, as it stands.
pub fn journal_facts<B: NodeBrand, R: Wait>(
    rt: &R,
    shared: &Shared<B>,
    state: &HttpState<'_>,
) -> JournalFacts {
    let locked = shared.node().lock(rt);
    let node = locked.node();
    let kinds = node.entry_counts();
    JournalFacts {
        entries: node.entered(),
        in_memory: u64::from(node.in_memory()),
        limit: u64::from(node.limit()),
        is_in_file: state.options.is_in_file,
        stops_when_full: state.options.stops_when_full,
        kinds: EntryFacts {
            commands: kinds.commands,
            slices: kinds.slices,
            deliveries: kinds.deliveries,
            moments: kinds.moments,
            timeouts: kinds.timeouts,
        },
    }
}

fn change(commands: &CommandTally, change: CodeChange) -> ChangeCount {
    let count = commands.changes(change);
    ChangeCount {
        ok: count.done,
        refused: count.refused,
    }
}

fn changes(commands: &CommandTally) -> ChangeCounts {
    ChangeCounts {
        load: change(commands, CodeChange::Load),
        purge: change(commands, CodeChange::Purge),
        soft_purge: change(commands, CodeChange::SoftPurge),
        delete: change(commands, CodeChange::Delete),
        atomic: change(commands, CodeChange::Atomic),
    }
}

fn schedulers<B: NodeBrand, R: Wait + Clock>(
    rt: &R,
    alloc: Global,
    shared: &Shared<B>,
) -> Result<Vec<SchedulerFacts>, AllocError> {
    let counts = shared.tallies().counts(rt, alloc)?;
    let mut facts = Vec::with_capacity(alloc, counts.len())?;
    for count in &counts {
        facts.push(SchedulerFacts {
            busy_us: count.busy_us,
            slices: count.slices,
            rows: count.rows,
        })?;
    }
    Ok(facts)
}

fn connection_counts<R: Wait>(
    rt: &R,
    acceptor: &Acceptor<'_>,
    state: &HttpState<'_>,
) -> ConnectionCounts {
    ConnectionCounts {
        places: state.options.places as u64,
        taken: acceptor.endpoint().sockets.served_count(rt) as u64,
        accepted: acceptor.accepted(),
        failed: acceptor.failed(),
    }
}

/// Where a node listens: at the port's address, or else at a socket.
fn address(alloc: Global, acceptor: &Acceptor<'_>) -> Result<String, AllocError> {
    match acceptor.endpoint().address {
        Some(address) => format!(in alloc; "{address}"),
        None => String::from_str(alloc, "socket"),
    }
}

/// Whether who asks through a door may stop the node.
fn can_stop(door: &Door) -> bool {
    match door {
        Door::Socket => true,
        Door::Port(access) => access.has_token(),
    }
}

/// A node, as it stands: the node's lock is held for steps of 256 processes, where these are to be counted anew.
pub fn node_facts<B: NodeBrand, R: Wait + Clock>(
    rt: &R,
    alloc: Global,
    shared: &Shared<B>,
    acceptor: &Acceptor<'_>,
    state: &HttpState<'_>,
    door: &Door,
) -> Result<NodeFacts, AllocError> {
    let (processes, modules) = state.census.counts(rt, alloc, shared)?;
    Ok(NodeFacts {
        name: String::from_str(alloc, NAME)?,
        version: version(),
        address: address(alloc, acceptor)?,
        uptime_ms: milliseconds(time(rt).saturating_sub(state.began)),
        can_stop: can_stop(door),
        processes,
        modules,
        schedulers: schedulers(rt, alloc, shared)?,
        journal: journal_facts(rt, shared, state),
        connections: connection_counts(rt, acceptor, state),
        changes: changes(shared.commands()),
        memory_refusals: shared.commands().memory_refusals(),
        log_lines_lost: state.lines.lost(),
        requests: state.requests.counts(),
        resident_bytes: state.resident.bytes(),
    })
}

/// The connections that are served, as they stand.
pub fn connection_list<R: Wait + Clock>(
    rt: &R,
    alloc: Global,
    acceptor: &Acceptor<'_>,
) -> Result<ConnectionList, AllocError> {
    let now = time(rt);
    let rows = acceptor.endpoint().sockets.connections(rt, alloc)?;
    let mut connections = Vec::with_capacity(alloc, rows.len())?;
    for row in &rows {
        connections.push(ConnectionFacts {
            place: (row.number as u64).saturating_add(1),
            peer: format!(in alloc; "{}", row.peer)?,
            since_ms: milliseconds(now.saturating_sub(row.since)),
        })?;
    }
    Ok(ConnectionList { connections })
}

/// The last lines of the log behind a number.
pub fn log_tail<R: Wait>(
    rt: &R,
    alloc: Global,
    state: &HttpState<'_>,
    after: u64,
) -> Result<LogTail, AllocError> {
    let (recent, lost) = state.lines.recent(rt, alloc, after)?;
    let mut lines = Vec::with_capacity(alloc, recent.len())?;
    for line in recent {
        let number = line.number;
        let time_ms = milliseconds(line.time);
        lines.push(LogFacts {
            number,
            time_ms,
            text: line.into_text(),
        })?;
    }
    Ok(LogTail { lines, lost })
}
