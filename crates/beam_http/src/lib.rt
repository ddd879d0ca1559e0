//! Requests of HTTP/1.1 to a node beside its protocol, and their responses: whether it is there and serves, what it does, and that it stops.
#![tactic(auto)]

mod access;
mod exchange;
mod fields;
mod query;
mod refusal;
mod request;
mod response;
mod text;

pub use access::{Door, PortAccess};
pub use exchange::{read_request, write_response};
pub use query::{ProcessQuery, SortKey, StateFilter};
pub use refusal::RequestRefusal;
pub use request::{Request, request_of};
pub use response::{ContentType, Response, SCRIPT_HASH, StatusCode};
