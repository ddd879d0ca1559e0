//! The file of a node's journal, which is written as the node runs: the entries that leave memory, and the threads that write them or wait.
#![tactic(auto)]

mod disk_journal;
mod journal_link;
mod journal_thread;
mod node_file;

pub use disk_journal::DiskJournal;
pub use journal_link::JournalLink;
pub use journal_thread::JournalThread;
pub use node_file::NodeFile;
