//! What is told of a node.
ghost use Rattle.std.specs.Prelude.{◌≡◌, IfOk, codes};
ghost use Rattle.json.specs.Print.{print};
ghost use Rattle.beam_page.specs.Json.{Appends, member};
ghost use Rattle.beam_page.specs.Nodes.{connection_count_tokens, live_count, memory_member, memory_tokens, module_count_tokens, node_counts, node_head, node_tokens, process_count_tokens, scheduler_tokens};

use crate::journal::JournalFacts;
use crate::to_json::{ToJson, json_of, put_member, put_text};
use json::Writer;
use std::alloc::{AllocError, Global};

/// How many processes a node has and had. How many live is `running` + `waiting` + `held`.
#[derive(Clone, Copy, Debug, PartialEq, Eq)]
pub struct ProcessCounts {
    /// All that began, since the node began.
    pub started: u64,
    /// All that ended, since the node began.
    pub ended: u64,
    pub running: u64,
    pub waiting: u64,
    pub held: u64,
    /// Milliseconds since they were counted.
    pub counted_ms: u64,
}

/// How many instances of modules a node has.
#[derive(Clone, Copy, Debug, PartialEq, Eq)]
pub struct ModuleCounts {
    pub current: u64,
    pub old: u64,
}

/// What a scheduler did, since the node began.
#[derive(Clone, Copy, Debug, PartialEq, Eq)]
pub struct SchedulerFacts {
    /// Microseconds in slices.
    pub busy_us: u64,
    pub slices: u64,
    pub rows: u64,
}

/// The connections of a node.
#[derive(Clone, Copy, Debug, PartialEq, Eq)]
pub struct ConnectionCounts {
    /// How many there may be at a time.
    pub places: u64,
    /// How many there are.
    pub taken: u64,
    /// All that were accepted, since the node began.
    pub accepted: u64,
    /// All that failed, since the node began.
    pub failed: u64,
}

/// How many changes of code of one kind were done and refused, since the node began.
#[derive(Clone, Copy, Debug, PartialEq, Eq)]
pub struct ChangeCount {
    pub ok: u64,
    pub refused: u64,
}

/// The changes of code, by their kinds.
#[derive(Clone, Copy, Debug, PartialEq, Eq)]
pub struct ChangeCounts {
    pub load: ChangeCount,
    pub purge: ChangeCount,
    pub soft_purge: ChangeCount,
    pub delete: ChangeCount,
    pub atomic: ChangeCount,
}

/// The requests for what is told, by the first digit of their answers' status, since the node began.
#[derive(Clone, Copy, Debug, PartialEq, Eq)]
pub struct RequestCounts {
    /// 2xx.
    pub ok: u64,
    /// 4xx.
    pub client_errors: u64,
    /// 5xx.
    pub server_errors: u64,
}

/// What is told of a node.
pub struct NodeFacts {
    pub name: String,
    /// The program's version.
    pub version: &'static str,
    /// Where it listens.
    pub address: String,
    /// Milliseconds since the node began.
    pub uptime_ms: u64,
    /// Whether the asker may stop it.
    pub can_stop: bool,
    pub processes: ProcessCounts,
    pub modules: ModuleCounts,
    /// The schedulers, in their order.
    pub schedulers: Vec<SchedulerFacts>,
    pub journal: JournalFacts,
    pub connections: ConnectionCounts,
    pub changes: ChangeCounts,
    /// How often memory was refused, since the node began.
    pub memory_refusals: u64,
    /// How many lines of the log were lost, since the node began.
    pub log_lines_lost: u64,
    pub requests: RequestCounts,
    /// Bytes of memory that the process has; `None` where that can't be read.
    pub resident_bytes: Option<u64>,
}

impl Drop for NodeFacts {
    fn drop(self) {
        let NodeFacts {
            name: _name,
            version: _version,
            address: _address,
            uptime_ms: _uptime_ms,
            can_stop: _can_stop,
            processes: _processes,
            modules: _modules,
            schedulers: _schedulers,
            journal: _journal,
            connections: _connections,
            changes: _changes,
            memory_refusals: _memory_refusals,
            log_lines_lost: _log_lines_lost,
            requests: _requests,
            resident_bytes: _resident_bytes,
        } = self;
    }
}

impl ProcessCounts {
    /// How many live, or `u64::MAX` where 64 bits don't hold it.
    fn live(&self) -> u64
        ensures { result ≡ live_count self.now }
    {
        self.running
            .saturating_add(self.waiting)
            .saturating_add(self.held)
    }
}

impl ToJson for ProcessCounts {
    ghost tokens = { process_count_tokens };

    #[tactic(auto, unfolding(crate::specs::Nodes::process_count_tokens))]
    fn put(&self, writer: &mut Writer) -> Result<(), AllocError> {
        writer.begin_object()?;
        put_member(writer, "started", &self.started)?;
        put_member(writer, "ended", &self.ended)?;
        put_member(writer, "live", &self.live())?;
        put_member(writer, "running", &self.running)?;
        put_member(writer, "waiting", &self.waiting)?;
        put_member(writer, "held", &self.held)?;
        put_member(writer, "counted_ms", &self.counted_ms)?;
        writer.end_object()
    }
}

impl ToJson for ModuleCounts {
    ghost tokens = { module_count_tokens };

    #[tactic(auto, unfolding(crate::specs::Nodes::module_count_tokens))]
    fn put(&self, writer: &mut Writer) -> Result<(), AllocError> {
        writer.begin_object()?;
        put_member(writer, "current", &self.current)?;
        put_member(writer, "old", &self.old)?;
        writer.end_object()
    }
}

impl ToJson for SchedulerFacts {
    ghost tokens = { scheduler_tokens };

    #[tactic(auto, unfolding(crate::specs::Nodes::scheduler_tokens))]
    fn put(&self, writer: &mut Writer) -> Result<(), AllocError> {
        writer.begin_object()?;
        put_member(writer, "busy_us", &self.busy_us)?;
        put_member(writer, "slices", &self.slices)?;
        put_member(writer, "rows", &self.rows)?;
        writer.end_object()
    }
}

impl ToJson for ConnectionCounts {
    ghost tokens = { connection_count_tokens };

    #[tactic(auto, unfolding(crate::specs::Nodes::connection_count_tokens))]
    fn put(&self, writer: &mut Writer) -> Result<(), AllocError> {
        writer.begin_object()?;
        put_member(writer, "places", &self.places)?;
        put_member(writer, "taken", &self.taken)?;
        put_member(writer, "accepted", &self.accepted)?;
        put_member(writer, "failed", &self.failed)?;
        writer.end_object()
    }
}

impl NodeFacts {
    /// Appends who the node is, without the brackets of an object.
    #[tactic(auto, unfolding(crate::specs::Nodes::node_head))]
    fn put_head(&self, writer: &mut Writer) -> Result<(), AllocError>
        ensures { Appends result writer.old writer.new (node_head self.now) }
    {
        put_member(writer, "name", &self.name)?;
        put_text(writer, "version", self.version)?;
        put_member(writer, "address", &self.address)?;
        put_member(writer, "uptime_ms", &self.uptime_ms)?;
        put_member(writer, "can_stop", &self.can_stop)?;
        Ok(())
    }

    /// Appends how much memory it has, without the brackets of an object.
    #[tactic(auto, unfolding(crate::specs::Nodes::memory_member))]
    fn put_resident(&self, writer: &mut Writer) -> Result<(), AllocError>
        ensures { Appends result writer.old writer.new (memory_member self.now.resident_bytes) }
    {
        put_member(writer, "resident_bytes", &self.resident_bytes)
    }

    /// Appends what is told of memory.
    #[tactic(auto, unfolding(crate::specs::Json::member, crate::specs::Nodes::memory_tokens))]
    fn put_memory(&self, writer: &mut Writer) -> Result<(), AllocError>
        ensures { Appends result writer.old writer.new (member (codes "memory") (memory_tokens self.now.resident_bytes)) }
    {
        writer.key("memory")?;
        writer.begin_object()?;
        self.put_resident(writer)?;
        writer.end_object()
    }

    /// Appends what it has and did, without the brackets of an object.
    #[tactic(auto, unfolding(crate::specs::Nodes::node_counts))]
    fn put_counts(&self, writer: &mut Writer) -> Result<(), AllocError>
        ensures { Appends result writer.old writer.new (node_counts self.now) }
    {
        put_member(writer, "processes", &self.processes)?;
        put_member(writer, "modules", &self.modules)?;
        put_member(writer, "schedulers", &self.schedulers)?;
        put_member(writer, "journal", &self.journal)?;
        put_member(writer, "connections", &self.connections)?;
        self.put_memory(writer)?;
        Ok(())
    }
}

impl ToJson for NodeFacts {
    ghost tokens = { node_tokens };

    #[tactic(auto, unfolding(crate::specs::Nodes::node_tokens))]
    fn put(&self, writer: &mut Writer) -> Result<(), AllocError> {
        writer.begin_object()?;
        self.put_head(writer)?;
        self.put_counts(writer)?;
        writer.end_object()
    }
}

/// The node as JSON. It fails only for memory.
pub fn node_json(alloc: Global, node: &NodeFacts) -> Result<Vec<u8>, AllocError>
    ensures { IfOk result (λ bytes. bytes.items ≡ print (node_tokens node.now)) }
{
    json_of(alloc, node)
}
