//! Why a node isn't closed: these seats aren't all of its seats.

use crate::node::Node;
use beam_receipts::brand::NodeBrand;
use beam_receipts::seat::SeatReceipt;

/// The node and the seats, as they were: these aren't all of the node's seats, each once.
pub struct SeatMismatch<B: NodeBrand> {
    pub node: Node<B>,
    pub seats: Vec<SeatReceipt<B>>,
}

impl<B: NodeBrand> Drop for SeatMismatch<B> {
    fn drop(self) {
        let SeatMismatch {
            node: _node,
            seats: _seats,
        } = self;
    }
}
