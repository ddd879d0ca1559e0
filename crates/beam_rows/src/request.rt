//! What a row comes to.

use beam_machine::callee::After;
use beam_machine::event::Then;
use beam_model::native::NodeNative;
use beam_model::place::Place;

/// What a row asks of the node. Its process is as before the row.
#[derive(Clone, Copy, Debug)]
pub enum Request {
    /// To send x1 to the process of number `to`. Then x0 is x1, and the next row follows.
    Send {
        to: u32,
        next: Place,
    },
    /// To answer a native of `arity` arguments.
    Ask {
        native: NodeNative,
        arity: u32,
        after: After,
    },
    /// To answer a native of `arity` arguments before a return, once the y registers are dropped, of which there are exactly `dropped`.
    AskDropping {
        dropped: u32,
        native: NodeNative,
        arity: u32,
    },
    /// To wait at row `at` of the next row's instance, with a deadline this many milliseconds from now, after which the next row follows.
    Sleep {
        milliseconds: u32,
        at: usize,
        next: Place,
    },
}

/// What a row comes to.
#[derive(Drop)]
pub enum RowOutcome {
    /// The row is executed, and this is how the process stands. A row that ends the process isn't executed, and this is its end.
    Made(Then),
    /// The row asks something of the node, and nothing has changed.
    Asks(Request),
}
