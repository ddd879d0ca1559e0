//! The metrics of a node: their names, their kinds, and what they count.
ghost use Rattle.std.specs.Prelude.{◌≡◌};
ghost use Rattle.beam_page.specs.MetricNames.{kind_word, metric_help, metric_kind, metric_name};

/// Whether a number only grows.
#[derive(Clone, Copy)]
pub(crate) enum MetricKind {
    /// It does, while the node lives.
    Counter,
    /// It also falls.
    Gauge,
}

/// A metric.
#[derive(Clone, Copy)]
pub(crate) enum MetricName {
    BuildInfo,
    Uptime,
    Processes,
    ProcessesStarted,
    ProcessesEnded,
    Modules,
    SchedulerBusy,
    SchedulerSlices,
    SchedulerRows,
    JournalEntries,
    JournalInMemory,
    JournalLimit,
    Connections,
    ConnectionPlaces,
    ConnectionsAccepted,
    ConnectionsFailed,
    Changes,
    MemoryRefusals,
    LogLinesLost,
    ResidentMemory,
    PageRequests,
}

impl MetricKind {
    /// Its word.
    pub(crate) fn word(self) -> &'static str
        ensures { result.now ≡ kind_word self }
    {
        match self {
            MetricKind::Counter => "counter",
            MetricKind::Gauge => "gauge",
        }
    }
}

impl MetricName {
    /// The name itself.
    #[tactic(auto, unfolding(crate::specs::MetricNames::metric_name))]
    pub(crate) fn text(self) -> &'static str
        ensures { result.now ≡ metric_name self }
    {
        match self {
            MetricName::BuildInfo => "kanguriwe_build_info",
            MetricName::Uptime => "kanguriwe_uptime_seconds",
            MetricName::Processes => "kanguriwe_processes",
            MetricName::ProcessesStarted => "kanguriwe_processes_started_total",
            MetricName::ProcessesEnded => "kanguriwe_processes_ended_total",
            MetricName::Modules => "kanguriwe_modules",
            MetricName::SchedulerBusy => "kanguriwe_scheduler_busy_seconds_total",
            MetricName::SchedulerSlices => "kanguriwe_scheduler_slices_total",
            MetricName::SchedulerRows => "kanguriwe_scheduler_rows_total",
            MetricName::JournalEntries => "kanguriwe_journal_entries_total",
            MetricName::JournalInMemory => "kanguriwe_journal_in_memory",
            MetricName::JournalLimit => "kanguriwe_journal_limit",
            MetricName::Connections => "kanguriwe_connections",
            MetricName::ConnectionPlaces => "kanguriwe_connection_places",
            MetricName::ConnectionsAccepted => "kanguriwe_connections_accepted_total",
            MetricName::ConnectionsFailed => "kanguriwe_connections_failed_total",
            MetricName::Changes => "kanguriwe_changes_total",
            MetricName::MemoryRefusals => "kanguriwe_memory_refusals_total",
            MetricName::LogLinesLost => "kanguriwe_log_lines_lost_total",
            MetricName::ResidentMemory => "process_resident_memory_bytes",
            MetricName::PageRequests => "kanguriwe_page_requests_total",
        }
    }

    /// What is said of it.
    #[tactic(auto, unfolding(crate::specs::MetricNames::metric_help))]
    pub(crate) fn help(self) -> &'static str
        ensures { result.now ≡ metric_help self }
    {
        match self {
            MetricName::BuildInfo => "The version of the program.",
            MetricName::Uptime => "Seconds since the node began.",
            MetricName::Processes => "Processes that live, by what they do.",
            MetricName::ProcessesStarted => "Processes that began.",
            MetricName::ProcessesEnded => "Processes that ended.",
            MetricName::Modules => "Instances of modules, by their age.",
            MetricName::SchedulerBusy => "Seconds of a scheduler in slices.",
            MetricName::SchedulerSlices => "Slices that a scheduler ran.",
            MetricName::SchedulerRows => "Rows of code that a scheduler ran.",
            MetricName::JournalEntries => "Entries of the journal, by their kind.",
            MetricName::JournalInMemory => "Entries of the journal that are in memory.",
            MetricName::JournalLimit => "How many entries of the journal may be in memory.",
            MetricName::Connections => "Connections that are open.",
            MetricName::ConnectionPlaces => "How many connections there may be at a time.",
            MetricName::ConnectionsAccepted => "Connections that were accepted.",
            MetricName::ConnectionsFailed => "Connections that failed.",
            MetricName::Changes => "Changes of code, by their kind and result.",
            MetricName::MemoryRefusals => "How often memory was refused.",
            MetricName::LogLinesLost => "Lines of the log that were lost.",
            MetricName::ResidentMemory => "Resident memory size in bytes.",
            MetricName::PageRequests => "Requests to the page, by the status of their answers.",
        }
    }

    /// Its kind.
    #[tactic(auto, unfolding(crate::specs::MetricNames::metric_kind))]
    pub(crate) fn kind(self) -> MetricKind
        ensures { result ≡ metric_kind self }
    {
        match self {
            MetricName::BuildInfo
            | MetricName::Uptime
            | MetricName::Processes
            | MetricName::Modules
            | MetricName::JournalInMemory
            | MetricName::JournalLimit
            | MetricName::Connections
            | MetricName::ConnectionPlaces
            | MetricName::ResidentMemory => MetricKind::Gauge,
            MetricName::ProcessesStarted
            | MetricName::ProcessesEnded
            | MetricName::SchedulerBusy
            | MetricName::SchedulerSlices
            | MetricName::SchedulerRows
            | MetricName::JournalEntries
            | MetricName::ConnectionsAccepted
            | MetricName::ConnectionsFailed
            | MetricName::Changes
            | MetricName::MemoryRefusals
            | MetricName::LogLinesLost
            | MetricName::PageRequests => MetricKind::Counter,
        }
    }
}
