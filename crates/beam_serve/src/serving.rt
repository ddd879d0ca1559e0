//! A node that serves a port or a socket: its scheduler threads, and the connections beside them.
ghost use Rattle.std.specs.Prelude.{◌≡◌, ◌⊎◌, ◌*◌, [], MatchOption, IfErr, IfOk, IfSome, OnOk};
ghost use Rattle.std.specs.Duration.{as_nanos};
ghost use Rattle.beam_journal_file.specs.JournalRead.{HasRead};
ghost use Rattle.beam_serve.specs.Limits.{limit_for};
ghost use Rattle.beam_tools.specs.Job.{IsOfPort};

use crate::acceptor::{Acceptor, Ended};
use crate::closed_node::{ClosedNode, NotEnded};
use crate::connection_thread::{ConnectionThread, ServeOptions};
use crate::endpoint::Endpoint;
use crate::http_listening::http_state;
use crate::http_state::HttpDoor;
use crate::http_thread::HttpThread;
use crate::limits::{limit_of, most_behind_of};
use crate::listening::{Listening, listen, place_count, port_fault, socket_fault};
use crate::loading::load_and_start;
use crate::logging::logged;
use crate::memory_reserve::MemoryReserve;
use crate::readiness::Readiness;
use crate::seat_desk::SeatDesk;
use crate::serve_gate::ServeGate;
use crate::serve_helper::ServeHelper;
use beam_block_file::FileShelf;
use beam_disk_journal::{DiskJournal, JournalLink, JournalThread, NodeFile};
use beam_log::LogLines;
use beam_queue as queue;
use beam_queue::{NotMade, QueueBrand};
use beam_receipts::brand::NodeBrand;
use beam_receipts::keeper::UnbrandedKeeper;
use beam_receipts::seat::SeatReceipt;
use beam_replay::{OpenJournal, ReadProgress, Recovered, open_journal, recover, write_fault};
use beam_sched::clock::SteadyClock;
use beam_sched::schedulers::run_with_helpers;
use beam_sched::shared::{ROWS_IN_PLACE, Shared};
use beam_sched::thread_context::ThreadContext;
use beam_sched::thread_contexts::{NewContexts, SeatsAndQueues, contexts};
use beam_shared::node::Node;
use beam_sockets::{OpenSockets, ServedConnections};
use beam_tools::files::{FileSystem, Files};
use beam_tools::job::JobFault;
use beam_tools::line::Serve;
use beam_tools::os_error::OsError;
use beam_tools::socket_fault::SocketFaultKind;
use log::{Log, debug};
use std::alloc::Global;
use std::fs::File;
use std::marker::Brand;
use std::net::{Net, SocketAddr, TcpListener, TcpStream};
use std::rt;
use std::sync::Wait;
use std::thread::Threads;
use std::time::{Clock, Duration};

/// The thread contexts of a node that serves connections.
#[derive(Drop)]
struct ThreadContexts<B: NodeBrand + QueueBrand> {
    schedulers: Vec<ThreadContext<B>>,
    /// The thread contexts of the threads that serve connections; the calling thread takes one of them.
    clients: Vec<ThreadContext<B>>,
}

/// The thread contexts of a node, and room for their parts beside the seats that none of them has.
fn contexts_of<'l, B: NodeBrand + QueueBrand>(
    alloc: Global,
    node: &mut Node<B>,
    queues: queue::UnbrandedQueues,
    seats: Vec<SeatReceipt<B>>,
    line: &Serve<'l>,
) -> Result<(ThreadContexts<B>, SeatsAndQueues<B>), JobFault<'l>>
    requires { queues ≡ B.deques }
    ensures fault { IfErr result (IsOfPort line.now.port) }
{
    let new = match contexts(alloc, node, queues, usize::from(line.schedulers), seats) {
        Ok(new) => new,
        Err(NotMade::NoMemory) => return Err(JobFault::NoMemory),
        Err(NotMade::TooMany) => return Err(JobFault::Mismatch),
    };
    let NewContexts {
        workers,
        senders,
        seats_left,
    } = new;
    let Ok(parts) = SeatsAndQueues::with_seats(alloc, seats_left, queues_of(line)) else {
        return Err(JobFault::NoMemory);
    };
    let contexts = ThreadContexts {
        schedulers: workers,
        clients: senders,
    };
    Ok((contexts, parts))
}

/// What a node begins with: the seats of its lives before and, if it keeps its journal in a file, the file, and a handle by which it is put
/// on the device.
#[derive(Drop)]
struct Beginning<B: NodeBrand> {
    seats: Vec<SeatReceipt<B>>,
    journal: Option<DiskJournal<B, FileShelf>>,
    handle: Option<FileShelf>,
}

/// Brings a new node back from its journal's file, if it has one. The terminal is shown how far it is.
fn begin<'l, B: NodeBrand, R: Log, T: Eprint + Clock>(
    rt: &R,
    alloc: Global,
    terminal: Option<&T>,
    node: &mut Node<B>,
    opened: Option<OpenJournal>,
    line: &Serve<'l>,
) -> Result<Beginning<B>, JobFault<'l>>
    requires no_seats { node.old.seats ≡ 0 }
    requires no_entries { node.old.journal ≡ [] }
    requires at_first { IfSome opened (λ o. HasRead o.reader []) }
    ensures fault { IfErr result (IsOfPort line.now.port) }
{
    let (Some(opened), Some(name)) = (opened, line.journal) else {
        return Ok(Beginning {
            seats: Vec::new(alloc),
            journal: None,
            handle: None,
        });
    };
    let OpenJournal {
        reader,
        handle,
        size,
    } = opened;
    let progress = ReadProgress::new(terminal, size);
    let Recovered {
        seats,
        writer,
        receipt,
    } = match recover(rt, alloc, node, reader, progress, name) {
        Ok(recovered) => recovered,
        Err(fault) => return Err(fault),
    };
    let file = NodeFile::new(alloc, writer, receipt);
    Ok(Beginning {
        seats,
        journal: Some(DiskJournal::new(file, line.sync, most_behind_of(line))),
        handle: Some(handle),
    })
}

/// Prints on the console where the node listens, and where its page is. False if that can't be written.
fn prints_addresses<C: Print>(console: &C, endpoint: Endpoint<'_>, line: &Serve<'_>) -> bool {
    if let Some(address) = endpoint.address {
        if println!(console; "listening on {address}").is_err() {
            return false;
        }
    }
    if let Some(socket) = line.socket {
        if println!(console; "listening on {}", socket.path).is_err() {
            return false;
        }
    }
    match endpoint.page {
        Some(address) => println!(console; "page at http://{address}/").is_ok(),
        None => true,
    }
}

/// Loads the files and starts the process of the line, unless the node came back with entries, and prints on the console where it listens.
fn start_up<'l, F: Files, B: NodeBrand + QueueBrand, R: Wait + Log + AllocGlobal, C: Print>(
    console: &C,
    alloc: Global,
    files: &mut F,
    desk: &mut SeatDesk<'_, B, R>,
    endpoint: Endpoint<'_>,
    is_new: bool,
    line: &Serve<'l>,
) -> Result<(), JobFault<'l>>
    ensures fault { IfErr result (IsOfPort line.now.port) }
{
    if is_new {
        load_and_start(alloc, files, desk, line)?;
    }
    if let (Some(why), Some(name)) = (desk.journal_failure(), line.journal) {
        return Err(write_fault(name, why));
    }
    if !prints_addresses(console, endpoint, line) {
        return Err(JobFault::Unwritten);
    }
    Ok(())
}

/// The settings that the line asks for.
fn options_of(line: &Serve, http_threads: usize) -> ServeOptions
    ensures idle { MatchOption result.idle (line.now.idle ≡ 0) (λ limit. as_nanos limit ≡ line.now.idle * 1_000_000_000) }
    ensures workers { result.workers ≡ line.now.schedulers }
{
    ServeOptions {
        idle: match line.idle {
            0 => None,
            seconds => Some(Duration::from_secs(u64::from(seconds))),
        },
        clients: place_count(line),
        workers: usize::from(line.schedulers),
        http_threads,
    }
}

/// The outcome of a node that ended for this reason.
fn outcome<'l>(
    line: &Serve<'l>,
    address: Option<SocketAddr>,
    ended: Ended,
) -> Result<(), JobFault<'l>>
    ensures done { OnOk result ((ended ≡ Ended.Served) ⊎ (ended ≡ Ended.Asked)) }
    ensures fault { IfErr result (IsOfPort line.now.port) }
{
    match ended {
        Ended::Served | Ended::Asked => Ok(()),
        Ended::PortFailed(os_error) => Err(port_fault(line, address, os_error)),
        Ended::SocketFailed(os_error) => {
            Err(socket_fault(line, SocketFaultKind::Failed(os_error)))
        }
        Ended::Shut => Err(JobFault::JournalFull),
        Ended::NoWorker => Err(JobFault::NoMemory),
    }
}

/// The threads that serve connections beside the calling one, each with one of these thread contexts, as far as there is memory. Thread
/// contexts that none of them has stay in the list.
fn helpers_of<'a, B: NodeBrand + QueueBrand, R>(
    rt: &'a R,
    alloc: Global,
    shared: &'a Shared<B>,
    acceptor: &'a Acceptor<'a>,
    link: Option<JournalLink<'a, B>>,
    options: ServeOptions,
    contexts: &mut Vec<ThreadContext<B>>,
) -> Vec<ServeHelper<'a, B, R>> {
    let mut helpers: Vec<ServeHelper<'a, B, R>> = Vec::new(alloc);
    for number in 1..options.clients {
        if helpers.reserve(1).is_err() {
            return helpers;
        }
        let Some(context) = contexts.pop() else {
            return helpers;
        };
        let desk = SeatDesk::new(rt, shared, context)
            .with_reserve(acceptor.endpoint().reserve)
            .with_journal(link);
        let helper = ServeHelper::Connections(ConnectionThread::new(
            rt, alloc, shared, acceptor, number, desk, options,
        ));
        let _ = helpers.push(helper);
    }
    helpers
}

/// Adds the threads of a door at which requests are answered, behind the helpers that serve connections, so that they are started before them.
fn with_http_threads<'a, B: NodeBrand + QueueBrand, R: Wait>(
    rt: &'a R,
    alloc: Global,
    shared: &'a Shared<B>,
    door: &'a Option<HttpDoor<'a>>,
    acceptor: &'a Acceptor<'a>,
    helpers: Vec<ServeHelper<'a, B, R>>,
) -> Vec<ServeHelper<'a, B, R>> {
    let mut helpers = helpers;
    let Some(door) = door else {
        return helpers;
    };
    for number in 0..door.places.count(rt) {
        let helper: ServeHelper<'a, B, R> = ServeHelper::Http(HttpThread::new(
            rt, alloc, shared, acceptor, door, number,
        ));
        let _ = helpers.push(helper);
    }
    helpers
}

/// Adds the thread of the journal's file as the last of the helpers, so that it is started first.
fn with_journal_thread<'a, B: NodeBrand + QueueBrand, R>(
    rt: &'a R,
    shared: &'a Shared<B>,
    link: Option<JournalLink<'a, B>>,
    handle: Option<FileShelf>,
    helpers: Vec<ServeHelper<'a, B, R>>,
) -> Vec<ServeHelper<'a, B, R>> {
    let mut helpers = helpers;
    let (Some(link), Some(handle)) = (link, handle) else {
        return helpers;
    };
    let helper: ServeHelper<'a, B, R> = ServeHelper::Journal(JournalThread::new(
        rt, shared, link, handle,
    ));
    let _ = helpers.push(helper);
    helpers
}

/// Takes the thread contexts of helpers apart, for whose parts there is room.
fn put_helpers<B: NodeBrand + QueueBrand, R>(
    helpers: Vec<ServeHelper<'_, B, R>>,
    parts: &mut SeatsAndQueues<B>,
) {
    for helper in helpers {
        match helper {
            ServeHelper::Connections(thread) => parts.put(thread.into_context()),
            ServeHelper::Journal(_thread) => {}
            ServeHelper::Http(_thread) => {}
        }
    }
}

/// Serves the connections while the schedulers run. All thread contexts come back.
fn serve_connections<
    'a,
    B: NodeBrand + QueueBrand + Send + Sync,
    R: Threads + Wait + Clock + Log + AllocGlobal + Sync,
>(
    rt: &'a R,
    alloc: Global,
    shared: &'a Shared<B>,
    acceptor: &'a Acceptor<'a>,
    line: &Serve,
    desk: SeatDesk<'a, B, R>,
    handle: Option<FileShelf>,
    contexts: ThreadContexts<B>,
    parts: &mut SeatsAndQueues<B>,
) {
    let ThreadContexts {
        schedulers,
        mut clients,
    } = contexts;
    let http = acceptor.endpoint().http;
    let options = options_of(line, http.thread_count(rt));
    let clock = SteadyClock::new(rt);
    let link = desk.journal();
    let gate = ServeGate::new(
        rt,
        shared,
        acceptor.endpoint(),
        link,
        limit_of(line),
        line.stop_when_full,
    );
    let mut first = ConnectionThread::new(rt, alloc, shared, acceptor, 0, desk, options);
    let helpers = helpers_of(rt, alloc, shared, acceptor, link, options, &mut clients);
    let helpers = with_http_threads(rt, alloc, shared, &http.port, acceptor, helpers);
    let helpers = with_http_threads(rt, alloc, shared, &http.socket, acceptor, helpers);
    let helpers = with_journal_thread(rt, shared, link, handle, helpers);
    let (schedulers, helpers) = run_with_helpers(
        rt, shared, &gate, &clock, schedulers, helpers, &mut first,
    );
    parts.put_all(schedulers);
    parts.put_all(clients);
    put_helpers(helpers, parts);
    parts.put(first.into_context());
}

/// Why a node doesn't serve any more.
fn ended_of<R: Wait>(rt: &R, acceptor: &Acceptor<'_>) -> Ended {
    match acceptor.ended(rt) {
        // The sockets may have been shut while the last connections were served.
        Some(Ended::Served) | None if acceptor.endpoint().sockets.are_shut() => Ended::Shut,
        Some(ended) => ended,
        None => Ended::Served,
    }
}

/// Serves the connections once the files are loaded and the process is started, which a node that came back has done. All thread contexts
/// come back.
fn run<
    'a,
    'l,
    F: Files,
    B: NodeBrand + QueueBrand + Send + Sync,
    R: Threads + Wait + Clock + Log + AllocGlobal + Sync,
    C: Print,
>(
    rt: &'a R,
    console: &C,
    alloc: Global,
    shared: &'a Shared<B>,
    acceptor: &'a Acceptor<'a>,
    files: &mut F,
    is_new: bool,
    line: &Serve<'l>,
    link: Option<JournalLink<'a, B>>,
    handle: Option<FileShelf>,
    contexts: ThreadContexts<B>,
    parts: &mut SeatsAndQueues<B>,
) -> Result<(), JobFault<'l>>
    ensures fault { IfErr result (IsOfPort line.now.port) }
{
    let mut contexts = contexts;
    let Some(context) = contexts.clients.pop() else {
        return Err(JobFault::Mismatch);
    };
    let endpoint = acceptor.endpoint();
    let mut desk = SeatDesk::new(rt, shared, context)
        .with_reserve(endpoint.reserve)
        .with_journal(link);
    match start_up(console, alloc, files, &mut desk, endpoint, is_new, line) {
        Ok(()) => {
            serve_connections(
                rt, alloc, shared, acceptor, line, desk, handle, contexts, parts,
            );
            outcome(line, endpoint.address, ended_of(rt, acceptor))
        }
        Err(fault) => {
            let ThreadContexts {
                schedulers,
                clients,
            } = contexts;
            parts.put_all(schedulers);
            parts.put_all(clients);
            parts.put(desk.into_context());
            Err(fault)
        }
    }
}

/// The link of desks to a journal's file, if the node has one.
fn link_of<'a, B: NodeBrand>(
    journal: &'a Option<DiskJournal<B, FileShelf>>,
    acceptor: &'a Acceptor<'a>,
) -> Option<JournalLink<'a, B>> {
    match journal {
        Some(journal) => Some(JournalLink {
            journal,
            sockets: acceptor.endpoint().sockets,
        }),
        None => None,
    }
}

/// Writes what is left of the journal to its file, if the node has one, and puts it on the device.
fn finish<'l, B: NodeBrand, R: Wait>(
    rt: &R,
    shared: &Shared<B>,
    journal: &Option<DiskJournal<B, FileShelf>>,
    line: &Serve<'l>,
) -> Result<(), JobFault<'l>>
    ensures fault { IfErr result (IsOfPort line.now.port) }
{
    let (Some(journal), Some(name)) = (journal, line.journal) else {
        return Ok(());
    };
    match journal.finish(rt, shared) {
        Ok(()) => Ok(()),
        Err(why) => Err(write_fault(name, why)),
    }
}

/// The end of a node that served, or else why it isn't closed.
fn closed<'l, B: NodeBrand + QueueBrand, R: Log>(
    rt: &R,
    alloc: Global,
    node: Node<B>,
    parts: SeatsAndQueues<B>,
    line: &Serve<'l>,
) -> Result<ClosedNode<B>, JobFault<'l>>
    ensures fault { IfErr result (IsOfPort line.now.port) }
{
    let (seats, run_queues) = parts.into_parts();
    match ClosedNode::close(alloc, node, seats, run_queues) {
        Ok(closed) => {
            debug!(rt; "{} left in the queues", closed.left());
            Ok(closed)
        }
        Err(NotEnded::NoMemory) => Err(JobFault::NoMemory),
        Err(NotEnded::Mismatch) => Err(JobFault::Mismatch),
        Err(NotEnded::ProcessesOut) => Err(JobFault::ProcessesOut),
    }
}

/// How many queues a node has: one for each scheduler, and one for each thread that serves connections.
fn queues_of(line: &Serve) -> usize {
    usize::from(line.schedulers) + place_count(line)
}

/// Serves the connections to what is listened on with a node, which is new or comes back from its journal's file, and closes the node. `Mismatch`
/// where the thread contexts aren't all of the node's, `ProcessesOut` where a worker didn't commit a process that it had checked out,
/// `NoMemory` where memory is refused for the pids that are left in the queues. The closed node, which is given back if all went well,
/// shows that it was closed.
fn serve_node<
    'l,
    F: Files,
    B: NodeBrand + QueueBrand + Send + Sync,
    R: Threads + Wait + Clock + Log + AllocGlobal + Sync,
    C: Print + Eprint + Clock,
>(
    rt: &R,
    console: &C,
    terminal: Option<&C>,
    alloc: Global,
    unbranded: UnbrandedKeeper,
    queues: queue::UnbrandedQueues,
    endpoint: Endpoint<'_>,
    opened: Option<OpenJournal>,
    files: &mut F,
    line: &Serve<'l>,
) -> Result<ClosedNode<B>, JobFault<'l>>
    requires node { unbranded ≡ B.table }
    requires queues { queues ≡ B.deques }
    requires limit { B.limit ≡ limit_for line.now.journal line.now.journal_limit }
    requires at_first { IfSome opened (λ o. HasRead o.reader []) }
    ensures fault { IfErr result (IsOfPort line.now.port) }
{
    let mut node = Node::<B>::with_limit(alloc, unbranded, limit_of(line));
    let Beginning {
        seats,
        journal,
        handle,
    } = begin(rt, alloc, terminal, &mut node, opened, line)?;
    let (contexts, mut parts) = contexts_of(alloc, &mut node, queues, seats, line)?;
    let is_new = node.entered() == 0;
    let shared = Shared::new(alloc, node, ROWS_IN_PLACE);
    let acceptor = Acceptor::new(endpoint, line.connections);
    let link = link_of(&journal, &acceptor);
    let ended = run(
        rt, console, alloc, &shared, &acceptor, files, is_new, line, link, handle, contexts,
        &mut parts,
    );
    let written = finish(rt, &shared, &journal, line);
    let closed = closed(rt, alloc, shared.into_node(), parts, line);
    match written {
        Ok(()) => match ended {
            Ok(()) => closed,
            Err(fault) => Err(fault),
        },
        Err(fault) => Err(fault),
    }
}

/// Opens the file of the node's journal, if the line names one.
fn opened<'l, R: rt::Files<File = File> + Clock>(
    rt: &R,
    alloc: Global,
    line: &Serve<'l>,
) -> Result<Option<OpenJournal>, JobFault<'l>>
    ensures at_first { IfOk result (λ opened. IfSome opened (λ o. HasRead o.reader [])) }
    ensures fault { IfErr result (IsOfPort line.now.port) }
{
    let Some(name) = line.journal else {
        return Ok(None);
    };
    match open_journal(rt, alloc, name) {
        Ok(opened) => Ok(Some(opened)),
        Err(fault) => Err(fault),
    }
}

/// The sockets by which what is listened on, and the connections that are served, can be shut.
fn open_sockets<'l>(
    alloc: Global,
    listening: &Listening,
    line: &Serve<'l>,
) -> Result<OpenSockets, JobFault<'l>>
    ensures fault { IfErr result (IsOfPort line.now.port) }
{
    let Ok(served) = ServedConnections::none(alloc, place_count(line)) else {
        return Err(JobFault::NoMemory);
    };
    let mut sockets = OpenSockets::new(alloc, served);
    if let Some(served) = &listening.listeners.port {
        if let Err(error) = sockets.add(&served.listener) {
            return Err(port_fault(line, None, OsError::of(&error)));
        }
    }
    if let Some(served) = &listening.listeners.socket {
        if let Err(error) = sockets.add(&served.listener) {
            return Err(socket_fault(line, SocketFaultKind::Failed(OsError::of(&error))));
        }
    }
    Ok(sockets)
}

/// Serves the connections to what is listened on with a node, as `serve` says.
fn serve_at<
    'l,
    R: Net<Listener = TcpListener, Stream = TcpStream>
        + Threads
        + Wait
        + Clock
        + rt::Files<File = File>
        + AllocGlobal
        + Sync,
    C: Print + Eprint + Clock + Sync,
>(
    rt: &R,
    console: &C,
    terminal: Option<&C>,
    lines: &LogLines,
    listening: &Listening,
    opened: Option<OpenJournal>,
    line: &Serve<'l>,
) -> Result<(), JobFault<'l>>
    requires at_first { IfSome opened (λ o. HasRead o.reader []) }
    ensures fault { IfErr result (IsOfPort line.now.port) }
{
    let Ok(unbranded) = UnbrandedKeeper::new(rt.alloc()) else {
        return Err(JobFault::NoMemory);
    };
    let Ok(queues) = queue::UnbrandedQueues::new(rt.alloc(), queues_of(line)) else {
        return Err(JobFault::NoMemory);
    };
    let sockets = open_sockets(rt.alloc(), listening, line)?;
    let reserve = MemoryReserve::new(rt.alloc());
    let readiness = Readiness::new();
    let http = http_state(rt, rt.alloc(), listening, lines, line)?;
    let endpoint = Endpoint {
        listeners: &listening.listeners,
        http: &http,
        sockets: &sockets,
        address: listening.address,
        page: listening.page_address(),
        reserve: &reserve,
        readiness: &readiness,
    };
    let log = logged(rt, console, lines, line.log);
    match serve_node::<FileSystem<'_, R>, Brand, _, _>(
        &log,
        console,
        terminal,
        rt.alloc(),
        unbranded,
        queues,
        endpoint,
        opened,
        &mut FileSystem(rt),
        line,
    ) {
        Ok(_closed) => Ok(()),
        Err(fault) => Err(fault),
    }
}

/// Listens on the port of 127.0.0.1, loads the files and starts the process of the line, prints the address on the console, and serves the
/// connections. A line that names the port of a page has threads that answer requests there, as those of the socket do. What it logs is added to the lines of a log, with the console's time. As many connections are served at once as the line
/// says, each by a thread with a thread context of its own; the next one waits to be accepted. A session that fails is logged as a warning,
/// and the next connection is accepted. Where the listener fails, and with a full journal where the line asks for that, the connections
/// that are served are shut once the commands that were read from them are answered, the workers end after the slice that they have, and
/// the node is closed with all its thread contexts. A thread that can't be made is logged as a warning, and the others serve.
///
/// A line that names a file for the journal has a node that comes back: the file is opened before all else, and locked; its entries are
/// entered before the address is printed, and the files and the process of the line are left out where there were any. An answer is told
/// once the file has what it tells of, on the device or not, as the line says; where it can't be written the connections are cut off first.
/// A terminal, if there is one, is shown how far the file was read where that takes longer than a second.
///
/// - `Journal` where the journal's file isn't opened, read or written;
/// - `File` where a file isn't loaded, `Start` and `LongName` where the process isn't started: no connection is accepted then;
/// - `Net` where listening or accepting fails, `Http` where listening for the page does, and `Token` where its token can't be written;
/// - `JournalFull` where the journal is full and the line asks to end then, or has no room for what the node begins with;
/// - `Unwritten` where the address can't be printed, and `NoMemory`.
pub fn serve<
    'l,
    R: Net<Listener = TcpListener, Stream = TcpStream>
        + Threads
        + Wait
        + Clock
        + rt::Files<File = File>
        + AllocGlobal
        + Sync,
    C: Print + Eprint + Clock + Sync,
>(
    rt: &R,
    console: &C,
    terminal: Option<&C>,
    lines: &LogLines,
    line: &Serve<'l>,
) -> Result<(), JobFault<'l>>
    ensures fault { IfErr result (IsOfPort line.now.port) }
{
    let opened = opened(rt, rt.alloc(), line)?;
    let listening = listen(rt, rt.alloc(), line)?;
    let ended = serve_at(rt, console, terminal, lines, &listening, opened, line);
    listening.remove_files(rt);
    ended
}
