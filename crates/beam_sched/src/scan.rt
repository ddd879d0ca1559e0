//! Scans of a node for processes that are runnable.
ghost use Rattle.std.specs.Prelude.{◌≡◌, ◌⊎◌, true, None};
ghost use Rattle.beam_machine.specs.Ready.{next_deadline};
ghost use Rattle.beam_machine.specs.State.{process_of};
ghost use Rattle.beam_sched.specs.Deadlines.{deadline_of};

use crate::locked_node::LockedNode;
use crate::node_clock::NodeClock;
use crate::queue_states::QueueStates;
use crate::thread_context::ThreadContext;
use beam_image::Image;
use beam_machine::debug::DebugEvent;
use beam_machine::event::{Event, Refused};
use beam_queue::QueueBrand;
use beam_receipts::brand::NodeBrand;
use beam_receipts::refusal::Refusal;
use beam_receipts::seat::SeatReceipt;
use beam_shared::node::Node;
use beam_term::Term;

/// The most processes that one scan finds, and the most waits that it ends.
const MOST_FOUND: usize = 128;

/// Where a scan of the node begins, and at which moment.
#[derive(Clone, Copy, Debug)]
pub struct ScanRequest {
    /// The number above which the scan begins.
    pub after: u32,
    pub moment: u64,
    /// Whether the moment is entered even if no deadline has come.
    pub sets_clock: bool,
}

/// What a scan of the node found.
#[derive(Clone, Copy, Debug)]
pub struct ScanResult {
    /// The number above which the next scan goes on, or 0 where this one came to the last process.
    pub after: u32,
    /// The least deadline of a waiting process that is left.
    pub due: Option<u64>,
    /// Whether the wait of a process was ended whose number the scan had already passed.
    pub has_skipped: bool,
    /// Whether memory was refused.
    pub lacks_memory: bool,
    /// Whether the journal is full.
    pub is_full: bool,
}

impl ScanResult {
    fn none() -> ScanResult {
        ScanResult {
            after: 0,
            due: None,
            has_skipped: false,
            lacks_memory: false,
            is_full: false,
        }
    }
}

/// Whether a process runs or has a signal in transit to it, and isn't held.
pub fn is_runnable<B: NodeBrand>(node: &Node<B>, pid: u32) -> bool {
    node.ready(pid.saturating_sub(1)) == Some(pid) && !node.debugger().is_held(pid)
}

/// Whether a process hasn't ended and isn't held: it is runnable once something is sent to it.
pub fn is_wakeable<B: NodeBrand>(node: &Node<B>, pid: u32) -> bool {
    match node.debugger().process(pid) {
        Some(process) => !process.is_ended() && !node.debugger().is_held(pid),
        None => false,
    }
}

/// The deadline of a process, if there is one and it waits.
pub fn deadline_of<B: NodeBrand>(node: &Node<B>, pid: u32) -> Option<u64>
    ensures { result ≡ deadline_of (process_of node.now.state.node.processes pid) }
{
    let process = node.debugger().process(pid)?;
    if !process.is_waiting() {
        return None;
    }
    Some(process.deadline()?.at)
}

/// The reason with which a process ended. `None` where it hasn't, and where memory is refused for the reason.
pub fn exit_reason<B: NodeBrand>(node: &Node<B>, pid: u32) -> Option<Term> {
    let (reason, _) = node.debugger().process(pid)?.end()?;
    reason.try_share().ok()
}

/// Gives the node an event of time. Tells whether it was entered. Only a full journal and an allocation failure are errors; any other
/// refusal, as of a timeout that hasn't come, is `false`.
fn apply_timed<B: NodeBrand>(
    node: &mut Node<B>,
    seat: &mut SeatReceipt<B>,
    event: Event<Image>,
) -> Result<bool, Refusal> {
    match node.command(seat, DebugEvent::Node(event)) {
        Ok(_) => Ok(true),
        Err(Refusal::JournalFull) => Err(Refusal::JournalFull),
        Err(Refusal::Node(Refused::NoMemory)) => Err(Refusal::Node(Refused::NoMemory)),
        Err(_) => Ok(false),
    }
}

/// Enters the moment, if it is later than the node's clock.
pub fn advance_clock<B: NodeBrand>(
    node: &mut Node<B>,
    seat: &mut SeatReceipt<B>,
    node_clock: &NodeClock,
    moment: u64,
) -> Result<(), Refusal> {
    if moment <= node_clock.clock() {
        return Ok(());
    }
    if apply_timed(node, seat, Event::Clock { now: moment })? {
        node_clock.set(moment);
    }
    Ok(())
}

/// Whether a deadline has come.
fn is_due<B: NodeBrand>(node: &Node<B>, moment: u64) -> bool {
    match node.next_deadline() {
        Some((due, _)) => due <= moment,
        None => false,
    }
}

/// Ends waits whose deadlines have come, at most `MOST_FOUND`. The scan finds the processes above `after`; where one isn't above it,
/// `found` notes that the scan has skipped it.
fn fire_timeouts<B: NodeBrand>(
    node: &mut Node<B>,
    seat: &mut SeatReceipt<B>,
    after: u32,
    found: &mut ScanResult,
) -> Result<(), Refusal> {
    for _ in 0..MOST_FOUND {
        let Some((_, pid)) = node.next_deadline() else {
            return Ok(());
        };
        if !apply_timed(node, seat, Event::Timeout { pid })? {
            return Ok(());
        }
        found.has_skipped = found.has_skipped || pid <= after;
    }
    Ok(())
}

/// Enters the moment, if it is to be entered or a deadline has come, and ends the waits whose deadlines have come.
fn tick<B: NodeBrand>(
    node: &mut Node<B>,
    seat: &mut SeatReceipt<B>,
    node_clock: &NodeClock,
    scan: ScanRequest,
    found: &mut ScanResult,
) -> Result<(), Refusal> {
    if scan.sets_clock || is_due(node, scan.moment) {
        advance_clock(node, seat, node_clock, scan.moment)?;
    }
    fire_timeouts(node, seat, scan.after, found)
}

/// The least deadline of a waiting process. It is left out if it has come and memory was refused, since the scan is retried then.
fn next_due<B: NodeBrand>(node: &Node<B>, moment: u64, lacks_memory: bool) -> Option<u64>
    ensures { result ≡ None → (next_deadline node.now.state.node.processes ≡ None) ⊎ (lacks_memory ≡ true) }
{
    let (due, _) = node.next_deadline()?;
    if lacks_memory && due <= moment {
        None
    } else {
        Some(due)
    }
}

/// How the search for runnable processes ended.
#[derive(Clone, Copy, Debug)]
struct ScanEnd {
    /// The number above which the next scan goes on, or 0 where this one came to the last process.
    after: u32,
    /// Whether memory was refused to enqueue a process.
    lacks_memory: bool,
}

/// Enqueues the runnable processes above a number, unless they are queued or checked out already.
fn enqueue_runnable<B: NodeBrand + QueueBrand>(
    node: &Node<B>,
    queue_states: &mut QueueStates,
    context: &mut ThreadContext<B>,
    after: u32,
) -> ScanEnd {
    let mut end = ScanEnd {
        after,
        lacks_memory: false,
    };
    for _ in 0..MOST_FOUND {
        let Some(pid) = node.ready(end.after) else {
            return ScanEnd { after: 0, ..end };
        };
        if !node.debugger().is_held(pid) && context.enqueue(queue_states, pid).is_err() {
            end.lacks_memory = true;
        }
        end.after = pid;
    }
    end
}

/// Enters the moment, if it is to be entered or a deadline has come, ends the waits whose deadlines have come, and enqueues the runnable
/// processes above a number. The result has the deadline that is left, unless memory was refused.
pub fn scan<B: NodeBrand + QueueBrand>(
    locked: &mut LockedNode<B>,
    context: &mut ThreadContext<B>,
    node_clock: &NodeClock,
    scan: ScanRequest,
) -> ScanResult
    ensures { result.due ≡ None → (next_deadline locked.new.node.state.node.processes ≡ None) ⊎ (result.lacks_memory ≡ true) }
{
    let mut found = ScanResult::none();
    match tick(
        &mut locked.node,
        &mut context.seat,
        node_clock,
        scan,
        &mut found,
    ) {
        Ok(()) => {}
        Err(Refusal::JournalFull) => found.is_full = true,
        Err(_) => found.lacks_memory = true,
    }
    let end = enqueue_runnable(&locked.node, &mut locked.queue_states, context, scan.after);
    found.after = end.after;
    found.lacks_memory = found.lacks_memory || end.lacks_memory;
    found.due = next_due(&locked.node, scan.moment, found.lacks_memory);
    found
}
