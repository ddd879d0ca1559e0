//! A node that was closed, and its run queues with it.
ghost use Rattle.std.specs.Prelude.{◌≡◌, ◌+◌, ℕ, List, length, OnOk};
ghost use Rattle.beam_queue.specs.Counting.{times, total};
ghost use Rattle.beam_queue.specs.RunQueues.{enqueued_by, taken_by};
ghost use Rattle.beam_shared.specs.Seats.{Agree, AreAll, WereAllRefused};

use beam_queue as queue;
use beam_queue::{NotClosed, QueueBrand, RunQueue};
use beam_receipts::brand::NodeBrand;
use beam_receipts::seat::SeatReceipt;
use beam_shared::node::Node;
use std::alloc::Global;
use std::marker::PhantomData;

/// Why a node isn't closed. Node and run queues are gone then.
#[derive(Clone, Copy, Debug, PartialEq, Eq)]
pub(crate) enum NotEnded {
    NoMemory,
    /// The seats or the run queues aren't all of the node's.
    Mismatch,
    /// A worker didn't commit a process that it had checked out.
    ProcessesOut,
}

/// Shows that a node was closed with all its seats, while no process was checked out, and that its run queues were closed. Nothing but
/// `ClosedNode::close` makes one.
#[derive(Drop)]
pub(crate) struct ClosedNode<B: NodeBrand> {
    left: usize,
    brand: PhantomData<B>,
}

impl<B: NodeBrand + QueueBrand> ClosedNode<B> {
    /// Closes a node with its seats, and its run queues. `Mismatch` unless the seats are all of the node's and the run queues have all
    /// stealers of one another, `NoMemory` where memory is refused for the pids that are left in the queues, `ProcessesOut` where a
    /// process is checked out. Of each pid, what was taken from the queues and what is left is what was enqueued.
    pub(crate) fn close(
        alloc: Global,
        node: Node<B>,
        seats: Vec<SeatReceipt<B>>,
        run_queues: Vec<RunQueue<B>>,
    ) -> Result<ClosedNode<B>, NotEnded>
        ensures all { OnOk result (AreAll node seats.items) }
        ensures agree { OnOk result (Agree node.journal seats.items) }
        ensures refused { OnOk result (WereAllRefused node seats.items) }
        ensures none_out { OnOk result (length node.checked_out ≡ 0) }
        ensures balanced { OnOk result ((left : List ℕ) × ((pid : ℕ)
            → total (taken_by pid) run_queues.items + times pid left ≡ total (enqueued_by pid) run_queues.items)) }
    {
        let count = node.checked_out_count();
        let left = match queue::close(alloc, run_queues) {
            Ok(left) => left,
            Err(NotClosed::NoMemory) => return Err(NotEnded::NoMemory),
            Err(NotClosed::Lent) => return Err(NotEnded::Mismatch),
        };
        let Ok(_journal) = node.close(seats) else {
            return Err(NotEnded::Mismatch);
        };
        if count != 0 {
            return Err(NotEnded::ProcessesOut);
        }
        Ok(ClosedNode {
            left: left.len(),
            brand: PhantomData,
        })
    }

    /// How many pids were left in the queues.
    pub(crate) fn left(&self) -> usize {
        self.left
    }
}
