//! The callees of calls.

use beam_model::native::{Native, NodeNative, ProcessNative};
use beam_model::place::Place;
use beam_term::Atom;

/// The callee of a call, by the module, the name and the arity.
#[derive(Debug, Drop)]
pub enum Callee {
    /// A function of another module than `erlang`, which is looked up in current code at the call.
    Function {
        module: Atom,
        name: Atom,
        arity: u32,
    },
    /// A native that asks nothing of the node.
    Native {
        native: Native,
        arity: u32,
    },
    /// A native that the node answers.
    Node {
        native: NodeNative,
        arity: u32,
    },
    /// A native that changes its process alone.
    OfProcess {
        native: ProcessNative,
        arity: u32,
    },
    /// Any other function of module `erlang`.
    Undefined,
}

/// The action after a native that was called.
#[derive(Clone, Copy, Debug)]
pub enum After {
    /// The row after the call.
    NextRow(Place),
    /// A return.
    Return,
}
