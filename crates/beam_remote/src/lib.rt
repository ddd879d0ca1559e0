//! Commands that come over a device, and their answers: sessions, and files that are loaded.
#![tactic(auto)]

mod answer;
mod desk;
mod error;
mod load;
pub mod memory;
mod next_command_error;
mod port;
mod reading;
mod session;
mod source;
mod tell;
mod write;

pub use answer::event_of;
pub use desk::Desk;
pub use error::{LoadError, ServeError, Served, SessionFailure};
pub use load::load_path;
pub use port::{DeviceFailed, Port};
pub use session::serve;
pub use source::Source;
