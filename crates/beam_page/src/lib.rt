//! What is told of a node: as JSON, as metrics, and the page that shows it. No node, no thread and no socket is here.
#![tactic(auto)]

mod connection;
mod journal;
mod log;
mod metric;
mod metric_name;
mod metrics;
mod module;
mod node;
mod page;
mod process;
mod process_detail;
mod scheduler_metrics;
mod to_json;

pub use connection::{ConnectionFacts, ConnectionList, connections_json};
pub use journal::{EntryFacts, JournalFacts, journal_json};
pub use log::{LogFacts, LogTail, log_json};
pub use metrics::metrics_text;
pub use module::{InstanceFacts, ModuleFacts, ModuleList, OldInstance, modules_json};
pub use node::{
    ChangeCount, ChangeCounts, ConnectionCounts, ModuleCounts, NodeFacts, ProcessCounts,
    RequestCounts, SchedulerFacts, node_json,
};
pub use page::PAGE;
pub use process::{
    ClippedText, CodeAge, PlaceFacts, ProcessFacts, ProcessList, ProcessState, processes_json,
};
pub use process_detail::{FrameFacts, ProcessDetail, process_json};
