//! Sessions side by side, and sessions after one that failed, over devices in memory that come from one queue of clients.
ghost use Rattle.std.specs.Prelude.{◌≡◌, Some, take, length};
ghost use Rattle.beam_journal.specs.Entering.{most_entries};

use crate::devices::ended;
use crate::talking::replayed;
use beam_journal::journal::{Journal, MOST_ENTRIES};
use beam_queue as queue;
use beam_queue::QueueBrand;
use beam_receipts::brand::NodeBrand;
use beam_receipts::keeper::UnbrandedKeeper;
use beam_remote::memory::Memory;
use beam_remote::{DeviceFailed, Port, ServeError, Served};
use beam_sched::clock::SteadyClock;
use beam_sched::gate::NoGate;
use beam_sched::schedulers::{ForegroundTask, Helper, StartedThreads, run_with_helpers};
use beam_sched::shared::{ROWS_IN_PLACE, Shared};
use beam_sched::thread_context::ThreadContext;
use beam_serve::{Incoming, SeatDesk, serve_sessions};
use log::Log;
use node_testing::frames::{frames, spelled};
use node_testing::stage::{closed, staged};
use node_testing::test_deadline::{TestDeadline, Unfinished};
use std::alloc::Global;
use std::marker::Brand;
use std::process::Abort;
use std::sync::{Mutex, Wait};
use std::test::*;
use std::thread::Threads;
use std::time;

/// A client of a session, with its device.
struct Client {
    name: &'static str,
    device: Memory,
    /// How many sessions have to end before the device is read a second time.
    waits_for: u32,
}

impl Drop for Client {
    fn drop(self) {
        let Client {
            name: _name,
            device: _device,
            waits_for: _waits_for,
        } = self;
    }
}

/// A session that has ended.
struct EndedSession {
    client: Client,
    /// The seat that answered.
    seat: u32,
    end: Result<Served, ServeError>,
    /// Whether the sessions that it waited for didn't end in time.
    is_late: bool,
}

impl Drop for EndedSession {
    fn drop(self) {
        let EndedSession {
            client: _client,
            seat: _seat,
            end: _end,
            is_late: _is_late,
        } = self;
    }
}

/// The clients that wait for a session, the next one last, and the sessions that have ended.
struct ClientQueue {
    deadline: TestDeadline,
    clients: Mutex<Vec<Client>>,
    ended_sessions: Mutex<Vec<EndedSession>>,
}

impl Drop for ClientQueue {
    fn drop(self) {
        let ClientQueue {
            deadline: _deadline,
            clients: _clients,
            ended_sessions: _ended_sessions,
        } = self;
    }
}

impl ClientQueue {
    /// The sessions that have ended, in the order in which they ended.
    fn into_ended_sessions(self) -> Vec<EndedSession> {
        let ClientQueue {
            deadline: _deadline,
            clients: _clients,
            ended_sessions,
        } = self;
        ended_sessions.into_inner()
    }
}

/// A client's device.
#[derive(Drop)]
struct ClientDevice<'a, R> {
    rt: &'a R,
    client_queue: &'a ClientQueue,
    client: Client,
    reads: u32,
    is_late: bool,
}

impl<R: Wait + time::Clock> ClientDevice<'_, R> {
    /// Waits until as many sessions have ended as the client waits for. False if they didn't in time.
    fn wait(&self) -> bool {
        for _ in 0..u32::MAX {
            if self.client_queue.ended_sessions.lock(self.rt).len()
                >= self.client.waits_for as usize
            {
                return true;
            }
            if !self.client_queue.deadline.lasts(self.rt) {
                break;
            }
        }
        false
    }
}

impl<R: Wait + time::Clock> Port for ClientDevice<'_, R> {
    ghost use Rattle.beam_remote.specs.Tape.{moments_of};

    ghost input = { λ v. Some (take v.client.device.at v.client.device.given) };

    ghost output = { λ v. Some v.client.device.taken };

    ghost moments = { λ v. Some (moments_of v.client.device) };

    ghost at_end = { λ v. v.client.device.at ≡ length v.client.device.given };

    ghost failed = { λ v. v.client.device.failures };

    fn read(&mut self, buffer: &mut [u8]) -> Result<usize, DeviceFailed> {
        self.reads = self.reads.saturating_add(1);
        if self.reads == 2 {
            self.is_late = !self.wait();
        }
        self.client.device.read(buffer)
    }

    fn write(&mut self, bytes: &[u8]) -> Result<usize, DeviceFailed> {
        self.client.device.write(bytes)
    }

    fn failures(&self) -> u64 {
        self.client.device.failures()
    }
}

/// Where a session thread gets its clients.
#[derive(Drop)]
struct ClientSource<'a, R> {
    rt: &'a R,
    client_queue: &'a ClientQueue,
    seat: u32,
}

impl<'a, R: Wait + time::Clock> Incoming<ClientDevice<'a, R>> for ClientSource<'a, R> {
    fn next(&mut self) -> Option<ClientDevice<'a, R>> {
        let client = self.client_queue.clients.lock(self.rt).pop()?;
        Some(ClientDevice {
            rt: self.rt,
            client_queue: self.client_queue,
            client,
            reads: 0,
            is_late: false,
        })
    }

    fn ended(&mut self, client_device: ClientDevice<'a, R>, end: Result<Served, ServeError>) {
        let ClientDevice {
            client,
            is_late,
            ..
        } = client_device;
        let ended_session = EndedSession {
            client,
            seat: self.seat,
            end,
            is_late,
        };
        let _ = self
            .client_queue
            .ended_sessions
            .lock(self.rt)
            .push(ended_session);
    }
}

/// Runs sessions with clients, with the desk of one thread context.
struct SessionThread<'a, B: NodeBrand + QueueBrand, R> {
    rt: &'a R,
    alloc: Global,
    client_source: ClientSource<'a, R>,
    desk: SeatDesk<'a, B, R>,
}

impl<B: NodeBrand + QueueBrand, R> Drop for SessionThread<'_, B, R> {
    fn drop(self) {
        let SessionThread {
            rt: _rt,
            alloc: _alloc,
            client_source: _client_source,
            desk: _desk,
        } = self;
    }
}

impl<'a, B: NodeBrand + QueueBrand, R> SessionThread<'a, B, R> {
    fn new(
        rt: &'a R,
        alloc: Global,
        shared: &'a Shared<B>,
        client_queue: &'a ClientQueue,
        context: ThreadContext<B>,
    ) -> SessionThread<'a, B, R> {
        let client_source = ClientSource {
            rt,
            client_queue,
            seat: context.seat.number(),
        };
        SessionThread {
            rt,
            alloc,
            client_source,
            desk: SeatDesk::new(rt, shared, context),
        }
    }

    fn into_context(self) -> ThreadContext<B> {
        let SessionThread {
            rt: _rt,
            alloc: _alloc,
            client_source: _client_source,
            desk,
        } = self;
        desk.into_context()
    }
}

impl<B: NodeBrand + QueueBrand, R: Wait + time::Clock + Log + AllocGlobal> Helper
    for SessionThread<'_, B, R> {
    fn help(&mut self) {
        serve_sessions(self.rt, self.alloc, &mut self.client_source, &mut self.desk);
    }
}

impl<B: NodeBrand + QueueBrand, R: Wait + time::Clock + Log + AllocGlobal> ForegroundTask
    for SessionThread<'_, B, R> {
    fn run(&mut self, _started: StartedThreads) {
        self.help();
    }
}

/// A session thread for each thread context. If one is lost, the node can't be closed.
fn session_threads_at<'a, B: NodeBrand + QueueBrand, R>(
    rt: &'a R,
    alloc: Global,
    shared: &'a Shared<B>,
    client_queue: &'a ClientQueue,
    contexts: Vec<ThreadContext<B>>,
) -> Vec<SessionThread<'a, B, R>> {
    let mut session_threads = Vec::new(alloc);
    for context in contexts {
        let _ = session_threads.push(SessionThread::new(rt, alloc, shared, client_queue, context));
    }
    session_threads
}

/// These thread contexts, and those of the session threads. If one is lost, the node can't be closed.
fn with_session_threads<B: NodeBrand + QueueBrand, R>(
    contexts: Vec<ThreadContext<B>>,
    first: SessionThread<'_, B, R>,
    session_threads: Vec<SessionThread<'_, B, R>>,
) -> Vec<ThreadContext<B>> {
    let mut contexts = contexts;
    let _ = contexts.push(first.into_context());
    for session_thread in session_threads {
        let _ = contexts.push(session_thread.into_context());
    }
    contexts
}

/// Runs the sessions, with one of these thread contexts here and with each of the others on a thread. All thread contexts come back.
fn receive<
    'a,
    B: NodeBrand + QueueBrand + Send + Sync,
    R: Threads + Wait + time::Clock + Log + AllocGlobal + Sync,
>(
    rt: &'a R,
    alloc: Global,
    shared: &'a Shared<B>,
    client_queue: &'a ClientQueue,
    workers: Vec<ThreadContext<B>>,
    context: ThreadContext<B>,
    others: Vec<ThreadContext<B>>,
) -> Vec<ThreadContext<B>> {
    let mut first = SessionThread::new(rt, alloc, shared, client_queue, context);
    let session_threads = session_threads_at(rt, alloc, shared, client_queue, others);
    let clock = SteadyClock::new(rt);
    let (contexts, session_threads) = run_with_helpers(
        rt,
        shared,
        &NoGate,
        &clock,
        workers,
        session_threads,
        &mut first,
    );
    with_session_threads(contexts, first, session_threads)
}

/// The bytes that a session wrote, how it ended, and the replies that the journal has of its seat. It fails if the sessions for which it
/// waited didn't end in time.
fn session_text(
    alloc: Global,
    journal: &Journal,
    ended_session: &EndedSession,
) -> Result<String, Fail> {
    if ended_session.is_late {
        return Err(Unfinished::Late(
            "sessions to end, in number",
            ended_session.client.waits_for,
        ).fail());
    }
    let Some(end) = ended(
        alloc,
        ended_session.client.device.taken(),
        ended_session.end,
    ) else {
        return Err(Fail::new("no memory"));
    };
    let (kept, _) = replayed(alloc, journal, ended_session.seat, 0)?;
    Ok(format!(in alloc; "{}: {end}{kept}\n", ended_session.client.name)?)
}

fn all_session_texts(
    alloc: Global,
    journal: &Journal,
    ended_sessions: &[EndedSession],
) -> Result<String, Fail> {
    let mut text = String::new(alloc);
    for ended_session in ended_sessions {
        text.push_str(&session_text(alloc, journal, ended_session)?)?;
    }
    Ok(text)
}

/// The outcomes of the sessions, in the order in which they end, with a thread for each queue but one. The node is closed with all
/// thread contexts.
fn found<
    B: NodeBrand + QueueBrand + Send + Sync,
    R: Threads + Wait + time::Clock + Log + AllocGlobal + Sync,
>(
    rt: &R,
    alloc: Global,
    unbranded: UnbrandedKeeper,
    queues: queue::UnbrandedQueues,
    clients: Vec<Client>,
) -> Result<String, Fail>
    requires node { unbranded ≡ B.table }
    requires limit { B.limit ≡ most_entries }
    requires queues { queues ≡ B.deques }
{
    let client_queue = ClientQueue {
        deadline: TestDeadline::new(rt),
        clients: Mutex::new(clients),
        ended_sessions: Mutex::new(Vec::new(alloc)),
    };
    let (node, workers, context, others) = staged::<B>(alloc, unbranded, queues, MOST_ENTRIES, 1)?;
    let shared = Shared::new(alloc, node, ROWS_IN_PLACE);
    let contexts = receive(rt, alloc, &shared, &client_queue, workers, context, others);
    let (journal, _) = closed(alloc, shared.into_node(), contexts)?;
    all_session_texts(alloc, &journal, &client_queue.into_ended_sessions())
}

fn found_here<R: Threads + Wait + time::Clock + Log + AllocGlobal + Sync>(
    rt: &R,
    alloc: Global,
    threads: u32,
    clients: Vec<Client>,
) -> Result<String, Fail> {
    let unbranded = UnbrandedKeeper::new(alloc)?;
    let queues = queue::UnbrandedQueues::new(alloc, threads as usize + 1)?;
    found::<Brand, R>(rt, alloc, unbranded, queues, clients)
}

/// A client, in words.
#[derive(Clone, Copy)]
struct ClientRow {
    name: &'static str,
    /// The frames that the device gives, and how many bytes a call.
    frames: &'static str,
    piece: usize,
    /// Whether the device's first write fails.
    is_deaf: bool,
    waits_for: u32,
}

impl ClientRow {
    fn device(self, alloc: Global) -> Result<Memory, Fail> {
        let Some(bytes) = frames(alloc, self.frames) else {
            return Err(Fail::new("no frames"));
        };
        let device = Memory::new(alloc, bytes, self.piece);
        if self.is_deaf {
            Ok(device.failing_write(0))
        } else {
            Ok(device)
        }
    }

    fn client(self, alloc: Global) -> Result<Client, Fail> {
        Ok(Client {
            name: self.name,
            device: self.device(alloc)?,
            waits_for: self.waits_for,
        })
    }
}

/// The wanted outcome of a session, in words: its name, its replies, its end, and the replies that the journal has.
type Wanted = (&'static str, &'static str, &'static str, &'static str);

fn wanted(alloc: Global, sessions: &[Wanted]) -> Result<String, Fail> {
    let mut text = String::new(alloc);
    for (name, replies, end, kept) in sessions {
        let replies = spelled(alloc, replies)?;
        let kept = spelled(alloc, kept)?;
        text.push_str(&format!(in alloc; "{name}: {replies} {end}; {kept}\n")?)?;
    }
    Ok(text)
}

/// The sessions with these clients, the last one first, have the wanted outcomes, with `threads` threads beside one worker.
fn come_to<R: Threads + Wait + time::Clock + Log + Abort + AllocGlobal + Sync>(
    rt: &R,
    threads: u32,
    client_row: &[ClientRow],
    sessions: &[Wanted],
) -> Result<(), Fail> {
    let alloc = rt.alloc();
    let wanted = wanted(alloc, sessions)?;
    let mut clients = Vec::new(alloc);
    for one in client_row {
        clients.push(one.client(alloc)?)?;
    }
    let found = found_here(rt, alloc, threads, clients)?;
    assert_eq!(rt; found.as_str(), wanted.as_str());
    Ok(())
}

/// The first session asks for the versions of module `u`, and then, once the second session has ended, for those of module `t`, which the
/// second one has loaded.
#[test]
fn two_sessions_at_once(rt: HostRuntime) -> Result<(), Fail> {
    let second = ClientRow {
        name: "second",
        frames: "LOAD VERSIONS",
        piece: 4_096,
        is_deaf: false,
        waits_for: 0,
    };
    let first = ClientRow {
        name: "first",
        frames: "000000021175 VERSIONS",
        piece: 6,
        is_deaf: false,
        waits_for: 1,
    };
    let none = "00000009050000000000000000 LOADED";
    let wanted = [
        ("second", "LOADED LOADED", "Served 2 2", "LOADED LOADED"),
        ("first", none, "Served 2 2", none),
    ];
    come_to(&rt, 2, &[second, first], &wanted)
}

/// The first session loads the module, and its reply can't be written.
#[test]
fn a_session_that_dies_is_outlived(rt: HostRuntime) -> Result<(), Fail> {
    let second = ClientRow {
        name: "second",
        frames: "VERSIONS",
        piece: 4_096,
        is_deaf: false,
        waits_for: 0,
    };
    let first = ClientRow {
        name: "first",
        frames: "LOAD",
        piece: 4_096,
        is_deaf: true,
        waits_for: 0,
    };
    let wanted = [
        ("first", "", "WriteFailed 1 0", "LOADED LOADED"),
        ("second", "LOADED", "Served 1 1", "LOADED LOADED"),
    ];
    come_to(&rt, 1, &[second, first], &wanted)
}
