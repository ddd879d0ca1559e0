//! Which queues belong together.

use std::marker::Brand;

/// Names the queues of one node, by their numbers. A program passes `Brand`, and the proof of that call picks them.
pub trait QueueBrand {
    ghost use Rattle.std.specs.Prelude.{List};
    ghost use Rattle.beam_queue.specs.Rule.{DequeId};

    ghost deques: { List DequeId };
}

impl QueueBrand for Brand {
    ghost use Rattle.std.specs.Prelude.{[]};

    ghost deques = { [] };
}
