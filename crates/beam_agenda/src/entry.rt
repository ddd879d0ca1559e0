//! Entries.

/// Whether something is ready, and when it is due.
#[derive(Clone, Copy, Debug, PartialEq, Eq)]
pub struct AgendaEntry {
    pub ready: bool,
    pub due: Option<u64>,
}
