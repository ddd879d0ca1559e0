//! A desk that has a node with its debugger, and a session over a new node.
#![tactic(auto)]

mod desk;
mod replies;
mod session;

pub use desk::NodeDesk;
pub use replies::reply;
pub use session::pipe;
