//! A new node with its thread contexts, and its end.
ghost use Rattle.std.specs.Prelude.{◌≡◌, ◌≤◌};
ghost use Rattle.beam_journal.specs.Entering.{most_entries};

use beam_journal::journal::Journal;
use beam_queue as queue;
use beam_queue::{QueueBrand, close};
use beam_receipts::brand::NodeBrand;
use beam_receipts::keeper::UnbrandedKeeper;
use beam_receipts::seat::SeatReceipt;
use beam_sched::thread_context::ThreadContext;
use beam_sched::thread_contexts::{NewContexts, SeatsAndQueues, contexts};
use beam_shared::node::Node;
use std::alloc::Global;
use std::test::Fail;

/// A new node of whose journal `limit` entries can be in memory, the thread contexts of `workers` workers, one of a sender of commands, and the other
/// senders' ones.
pub fn staged<B: NodeBrand + QueueBrand>(
    alloc: Global,
    unbranded: UnbrandedKeeper,
    queues: queue::UnbrandedQueues,
    limit: u32,
    workers: u32,
) -> Result<
    (
        Node<B>,
        Vec<ThreadContext<B>>,
        ThreadContext<B>,
        Vec<ThreadContext<B>>,
    ),
    Fail,
>
    requires node { unbranded ≡ B.table }
    requires queues { queues ≡ B.deques }
    requires limit { limit ≤ most_entries }
    requires brand { B.limit ≡ limit }
{
    let mut node = Node::<B>::with_limit(alloc, unbranded, limit);
    let NewContexts {
        workers,
        senders,
        ..
    } = contexts(alloc, &mut node, queues, workers as usize, Vec::new(alloc))?;
    let mut others = senders;
    match others.pop() {
        Some(context) => Ok((node, workers, context, others)),
        None => Err(Fail::new("no thread context")),
    }
}

/// The seats of thread contexts, and the pids that are left in their queues, which are closed then.
fn parts<B: NodeBrand + QueueBrand>(
    alloc: Global,
    contexts: Vec<ThreadContext<B>>,
) -> Result<(Vec<SeatReceipt<B>>, Vec<u32>), Fail> {
    let mut parts = SeatsAndQueues::with_room(alloc, contexts.len())?;
    parts.put_all(contexts);
    let (seats, run_queues) = parts.into_parts();
    Ok((seats, close(alloc, run_queues)?))
}

/// Closes the queues and the node with all thread contexts. Returns the journal, of which no entry has left memory, and the pids that are
/// left in the queues.
pub fn closed<B: NodeBrand + QueueBrand>(
    alloc: Global,
    node: Node<B>,
    contexts: Vec<ThreadContext<B>>,
) -> Result<(Journal, Vec<u32>), Fail> {
    let (seats, left) = parts(alloc, contexts)?;
    let Ok(journal) = node.close(seats) else {
        return Err(Fail::new("Mismatch"));
    };
    match journal.into_whole() {
        Ok(journal) => Ok((journal, left)),
        Err(_) => Err(Fail::new("entries have left memory")),
    }
}
