//! Sessions over two streams: the standard ones, or both ways of a socket.
#![tactic(auto)]

mod begun;
mod piping;
mod stream_session;
mod streams;

pub use piping::pipe;
pub use stream_session::pipe_over;
pub use streams::Streams;
