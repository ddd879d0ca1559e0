//! Sessions with a node that threads share, up to its journal.
ghost use Rattle.std.specs.Prelude.{◌≡◌};
ghost use Rattle.beam_journal.specs.Entering.{most_entries};

use crate::sessions::{Session, SessionRow, rows};
use beam_debug::debugger::Debugger;
use beam_desk::reply;
use beam_frame::encode_reply;
use beam_journal::entry::Entry;
use beam_journal::journal::{Journal, MOST_ENTRIES};
use beam_queue as queue;
use beam_queue::QueueBrand;
use beam_receipts::brand::NodeBrand;
use beam_receipts::keeper::UnbrandedKeeper;
use beam_sched::clock::SteadyClock;
use beam_sched::gate::NoGate;
use beam_sched::schedulers::{ForegroundTask, StartedThreads, run_schedulers};
use beam_sched::shared::{ROWS_IN_PLACE, Shared};
use beam_sched::thread_context::ThreadContext;
use beam_serve::SeatDesk;
use beam_shared::node::Node;
use beam_term::Atom;
use hex;
use log::Log;
use node_testing::frames::{frames, spelled};
use node_testing::stage;
use node_testing::stage::staged;
use node_testing::test_deadline::{TestDeadline, Unfinished};
use node_testing::views::text_of;
use std::alloc::Global;
use std::marker::Brand;
use std::sync::Wait;
use std::test::Fail;
use std::thread::Threads;
use std::time;

/// Runs the sessions of a row, one after another. After each it waits until the processes have ended or are held.
#[derive(Drop)]
struct RowSessions<'a, B: NodeBrand + QueueBrand, R> {
    rt: &'a R,
    alloc: Global,
    shared: &'a Shared<B>,
    desk: SeatDesk<'a, B, R>,
    row: SessionRow,
    /// How many workers are wanted.
    workers: usize,
    deadline: TestDeadline,
    told: Option<String>,
    /// Why the sessions weren't all run.
    unfinished: Unfinished,
}

/// Whether the processes 1 to `count`, as far as they were started, have ended or are held.
fn are_at_rest(node: &Debugger, count: u32) -> bool {
    (1..=count).all(|pid| match node.process(pid) {
        Some(process) => process.is_ended() || node.is_held(pid),
        None => true,
    })
}

impl<B: NodeBrand + QueueBrand, R: Wait + time::Clock + Log + AllocGlobal> RowSessions<'_, B, R> {
    /// Waits until the processes have ended or are held. False if they didn't in time.
    fn wait_for_rest(&mut self) -> bool {
        for _ in 0..u32::MAX {
            let locked = self.shared.node().lock(self.rt);
            let is_at_rest = are_at_rest(locked.node().debugger(), self.row.processes);
            drop(locked);
            if is_at_rest {
                return true;
            }
            if !self.deadline.lasts(self.rt) {
                break;
            }
        }
        self.unfinished = Unfinished::Late(
            "processes to end or be held, in number",
            self.row.processes,
        );
        false
    }

    /// The bytes that a session wrote, and how it ended.
    fn have(&mut self, session: &Session) -> Option<String> {
        let input = frames(self.alloc, session.input)?;
        let told = session.device.session(self.alloc, input, &mut self.desk)?;
        self.wait_for_rest().then_some(told)
    }

    /// The bytes that each session wrote, and how it ended.
    fn talk(&mut self) -> Option<String> {
        let mut told = String::new(self.alloc);
        for session in self.row.sessions {
            told.push_str(&self.have(session)?).ok()?;
        }
        Some(told)
    }
}

impl<B: NodeBrand + QueueBrand, R: Wait + time::Clock + Log + AllocGlobal> ForegroundTask
    for RowSessions<'_, B, R> {
    fn run(&mut self, started: StartedThreads) {
        if started.workers == self.workers {
            self.told = self.talk();
        }
        // A failure is reported even if a process never ends.
        if self.told.is_none() {
            self.shared.stop(self.rt);
        }
    }
}

/// All thread contexts, which came back; the text of the sessions, if all were run, and why not otherwise.
fn run<
    'a,
    B: NodeBrand + QueueBrand + Send + Sync,
    R: Threads + Wait + time::Clock + Log + AllocGlobal + Sync,
>(
    rt: &'a R,
    alloc: Global,
    shared: &'a Shared<B>,
    contexts: Vec<ThreadContext<B>>,
    context: ThreadContext<B>,
    row: SessionRow,
) -> (Vec<ThreadContext<B>>, Option<String>, Unfinished) {
    let clock = SteadyClock::new(rt);
    let mut talk = RowSessions {
        rt,
        alloc,
        shared,
        desk: SeatDesk::new(rt, shared, context),
        row,
        workers: contexts.len(),
        deadline: TestDeadline::new(rt),
        told: None,
        unfinished: Unfinished::Undone("a session was not had"),
    };
    let mut contexts = run_schedulers(rt, alloc, shared, &NoGate, &clock, contexts, &mut talk);
    let RowSessions {
        desk,
        told,
        unfinished,
        ..
    } = talk;
    // A thread context that is lost keeps the node from being closed.
    let _ = contexts.push(desk.into_context());
    (contexts, told, unfinished)
}

/// The views of the processes from 1 to `count`, the instances of the module `t`, and the number of break spots.
fn seen_of(alloc: Global, node: &Debugger, count: u32) -> Result<String, Fail> {
    let processes = String::from_utf8(text_of(alloc, node, count)?)?;
    let name = Atom::new(alloc, "t")?;
    let current = node.table().current(&name).unwrap_or(0);
    let old = node.table().old(&name).unwrap_or(0);
    let spots = node.spots().len();
    Ok(format!(in alloc; "{processes}current {current} old {old} spots {spots}\n")?)
}

/// Runs an entry again, and adds its reply to the others, if the entry is of this seat.
fn run_again(
    node: &mut Debugger,
    entry: &Entry,
    seat: u32,
    replies: &mut Vec<u8>,
) -> Result<(), Fail> {
    let outcome = node.apply(entry.event())?;
    if entry.seat() == Some(seat) {
        encode_reply(&reply(outcome), replies)?;
    }
    Ok(())
}

/// The replies of the entries of a seat, in hexadecimal digits, and the state at the end, as text, where the journal is run from the start.
pub fn replayed(
    alloc: Global,
    journal: &Journal,
    seat: u32,
    count: u32,
) -> Result<(String, String), Fail> {
    let mut node = Debugger::new(alloc);
    let mut replies = Vec::new(alloc);
    for entry in journal.entries() {
        run_again(&mut node, entry, seat, &mut replies)?;
    }
    let seen = seen_of(alloc, &node, count)?;
    Ok((hex::encode_upper(alloc, &replies)?, seen))
}

/// Closes the node with all thread contexts, and runs its journal again.
fn closed<B: NodeBrand + QueueBrand>(
    alloc: Global,
    node: Node<B>,
    contexts: Vec<ThreadContext<B>>,
    seat: u32,
    row: SessionRow,
    told: &str,
) -> Result<String, Fail> {
    let seen = seen_of(alloc, node.debugger(), row.processes)?;
    let (journal, _) = stage::closed(alloc, node, contexts)?;
    let (kept, again) = replayed(alloc, &journal, seat, row.processes)?;
    let is_same = again == seen;
    Ok(format!(in alloc; "{told}{kept}; {seen}{is_same}")?)
}

/// The outcome of the sessions of a row, with `workers` workers.
fn found<
    B: NodeBrand + QueueBrand + Send + Sync,
    R: Threads + Wait + time::Clock + Log + AllocGlobal + Sync,
>(
    rt: &R,
    alloc: Global,
    unbranded: UnbrandedKeeper,
    queues: queue::UnbrandedQueues,
    workers: u32,
    row: SessionRow,
) -> Result<String, Fail>
    requires node { unbranded ≡ B.table }
    requires limit { B.limit ≡ most_entries }
    requires queues { queues ≡ B.deques }
{
    let (node, workers, context, _) = staged::<B>(alloc, unbranded, queues, MOST_ENTRIES, workers)?;
    let number = context.seat.number();
    let shared = Shared::new(alloc, node, ROWS_IN_PLACE);
    let (contexts, told, unfinished) = run(rt, alloc, &shared, workers, context, row);
    let node = shared.into_node();
    match told {
        Some(told) => closed(alloc, node, contexts, number, row, &told),
        None => Err(unfinished.fail()),
    }
}

fn found_here<R: Threads + Wait + time::Clock + Log + AllocGlobal + Sync>(
    rt: &R,
    alloc: Global,
    workers: u32,
    row: SessionRow,
) -> Result<String, Fail> {
    let unbranded = UnbrandedKeeper::new(alloc)?;
    let queues = queue::UnbrandedQueues::new(alloc, workers as usize + 1)?;
    found::<Brand, R>(rt, alloc, unbranded, queues, workers, row)
}

/// The outcome that a row wants.
fn wanted(alloc: Global, row: SessionRow) -> Result<String, Fail> {
    let mut text = String::new(alloc);
    for session in row.sessions {
        let replies = spelled(alloc, session.replies)?;
        text.push_str(&format!(in alloc; "{replies} {}; ", session.end)?)?;
    }
    let kept = spelled(alloc, row.kept)?;
    text.push_str(&format!(in alloc; "{kept}; {}true", row.seen)?)?;
    Ok(text)
}

/// The rows whose outcome with `workers` workers isn't the wanted one: their numbers, and the outcome.
pub fn misses<R: Threads + Wait + time::Clock + Log + AllocGlobal + Sync>(
    rt: &R,
    alloc: Global,
    workers: u32,
) -> Result<String, Fail> {
    let mut misses = String::new(alloc);
    for (number, row) in rows().iter().enumerate() {
        let found = found_here(rt, alloc, workers, *row)?;
        if found != wanted(alloc, *row)? {
            misses.push_str(&format!(in alloc; "{number}: {found}\n")?)?;
        }
    }
    Ok(misses)
}
