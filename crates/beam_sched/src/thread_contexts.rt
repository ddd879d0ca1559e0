//! The thread contexts of a node.
ghost use Rattle.std.specs.Prelude.{◌≡◌};

use crate::thread_context::ThreadContext;
use beam_queue::{NotMade, QueueBrand, RunQueue, UnbrandedQueues};
use beam_receipts::brand::NodeBrand;
use beam_receipts::seat::SeatReceipt;
use beam_shared::node::Node;
use std::alloc::{AllocError, Global};

/// The thread contexts of a node, and the seats that none of them has.
#[derive(Drop)]
pub struct NewContexts<B: NodeBrand + QueueBrand> {
    /// Those of the workers.
    pub workers: Vec<ThreadContext<B>>,
    /// Those of the senders of commands.
    pub senders: Vec<ThreadContext<B>>,
    /// The seats that are left of those that were handed in.
    pub seats_left: Vec<SeatReceipt<B>>,
}

/// The last of these seats or, where there is none, the node's next one, if it has one.
fn next_seat<B: NodeBrand>(
    node: &mut Node<B>,
    seats: &mut Vec<SeatReceipt<B>>,
) -> Option<SeatReceipt<B>> {
    match seats.pop() {
        Some(seat) => Some(seat),
        None => node.seat().ok(),
    }
}

/// Makes a thread context of a node for each of the queues: one for each of the workers, whose run queues steal from all others, and one
/// for each sender of commands. The thread contexts get the seats that are handed in, in their order, and then new ones of the node.
/// `NoMemory` where memory is refused, `TooMany` where the node has no more seats, or would have more than 999 workers; the queues and the
/// seats are then gone.
pub fn contexts<B: NodeBrand + QueueBrand>(
    alloc: Global,
    node: &mut Node<B>,
    queues: UnbrandedQueues,
    workers: usize,
    seats: Vec<SeatReceipt<B>>,
) -> Result<NewContexts<B>, NotMade>
    requires { queues ≡ B.deques }
{
    let mut working = Vec::new(alloc);
    let mut sending = Vec::new(alloc);
    let mut seats_left = seats;
    seats_left.reverse();
    for run_queue in queues.branded::<B>(alloc, workers)? {
        let Some(seat) = next_seat(node, &mut seats_left) else {
            return Err(NotMade::TooMany);
        };
        let context = ThreadContext::new(seat, run_queue);
        if working.len() < workers {
            working.push(context)?;
        } else {
            sending.push(context)?;
        }
    }
    Ok(NewContexts {
        workers: working,
        senders: sending,
        seats_left,
    })
}

/// The seats and the run queues of thread contexts. The node is closed with the seats, and the queues with the run queues.
pub struct SeatsAndQueues<B: NodeBrand + QueueBrand> {
    seats: Vec<SeatReceipt<B>>,
    run_queues: Vec<RunQueue<B>>,
}

impl<B: NodeBrand + QueueBrand> Drop for SeatsAndQueues<B> {
    fn drop(self) {
        let SeatsAndQueues {
            seats: _seats,
            run_queues: _run_queues,
        } = self;
    }
}

impl<B: NodeBrand + QueueBrand> SeatsAndQueues<B> {
    /// No seats and no run queues, with room for those of `count` thread contexts.
    pub fn with_room(alloc: Global, count: usize) -> Result<SeatsAndQueues<B>, AllocError> {
        SeatsAndQueues::with_seats(alloc, Vec::new(alloc), count)
    }

    /// These seats, which no thread context has, and no run queues, with room for the parts of `count` thread contexts. Where memory is
    /// refused the seats are gone.
    pub fn with_seats(
        alloc: Global,
        seats: Vec<SeatReceipt<B>>,
        count: usize,
    ) -> Result<SeatsAndQueues<B>, AllocError> {
        let mut seats = seats;
        seats.reserve(count)?;
        Ok(SeatsAndQueues {
            seats,
            run_queues: Vec::with_capacity(alloc, count)?,
        })
    }

    /// Takes a thread context apart, for whose parts there is room.
    pub fn put(&mut self, context: ThreadContext<B>) {
        let (seat, run_queue) = context.into_parts();
        let _ = self.seats.push(seat);
        let _ = self.run_queues.push(run_queue);
    }

    /// Takes thread contexts apart, for whose parts there is room.
    pub fn put_all(&mut self, contexts: Vec<ThreadContext<B>>) {
        for context in contexts {
            self.put(context);
        }
    }

    /// The seats, and the run queues.
    pub fn into_parts(self) -> (Vec<SeatReceipt<B>>, Vec<RunQueue<B>>) {
        let SeatsAndQueues { seats, run_queues } = self;
        (seats, run_queues)
    }
}
