//! Connections to a port or a socket: the listeners and connections that may be shut from another thread, and streams of frames with a time
//! limit.
#![tactic(auto)]

mod frame_tracker;
mod listener;
mod open_sockets;
mod served_stream;
mod timed_stream;

pub use listener::{Listener, Peer};
pub use open_sockets::{ConnectionRow, OpenSockets, ServedConnections};
pub use served_stream::ServedStream;
pub use timed_stream::TimedStream;
