//! What `beamnode serve` does: sessions over the connections to a port or a socket, with a desk that has a seat of a node that threads share.
#![tactic(auto)]

mod accepting;
mod acceptor;
mod census_cache;
mod closed_node;
mod command_log;
mod connection_thread;
mod endpoint;
mod exit_log;
mod http_listening;
mod http_places;
mod http_state;
mod http_thread;
mod incoming_connections;
mod limits;
mod listening;
mod loading;
mod logging;
mod looking;
mod memory_reserve;
mod node_facts;
mod readiness;
mod request_tally;
mod resident;
mod seat_desk;
mod serve_gate;
mod serve_helper;
mod serving;
mod sessions;
mod socket_file;
mod token_file;

pub use seat_desk::SeatDesk;
pub use serving::serve;
pub use sessions::{Incoming, serve_sessions, session};
pub use socket_file::{SocketFile, listen_at};
