//! Why a socket isn't listened on.
ghost use Rattle.std.specs.Prelude.{◌≡◌};

use crate::os_error::OsError;

/// Why a socket can't be listened on, or why accepting at it fails.
#[derive(Clone, Copy, Debug, PartialEq, Eq)]
pub enum SocketFaultKind {
    /// Another program listens there.
    InUse,
    /// Something else than a socket has the name.
    NoSocket,
    /// Listening or accepting fails: the operating system's error.
    Failed(OsError),
}

impl SocketFaultKind {
    ghost use Rattle.beam_tools.specs.Names.{socket_fault_name};

    /// The refusal's name.
    pub fn name(&self) -> &'static str
        ensures { result.now ≡ socket_fault_name self.now }
    {
        match self {
            SocketFaultKind::InUse => "SocketInUse",
            SocketFaultKind::NoSocket => "NoSocket",
            SocketFaultKind::Failed(_) => "NetFailed",
        }
    }
}

/// A socket that can't be listened on, or accepting at which fails, by its path, and why.
#[derive(Clone, Copy)]
pub struct SocketFault<'a> {
    pub path: &'a str,
    pub why: SocketFaultKind,
}
