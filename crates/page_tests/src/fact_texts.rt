//! What a node answers in two states, as Python's `json.dumps` writes it, and its metrics: `tests/page/rows.py --literal` prints these texts.
//! Functions without contracts give them, so that the proofs of the tests compute nothing of them.

const SMALL_NODE: &str =
    "{\"name\":\"kanguriwe\",\"version\":\"0.1.0\",\"address\":\"127.0.0.1:4000\",\"uptime_ms\":1500,\"can_stop\":true,\"processes\":{\"started\":12,\"ended\":2,\"live\":10,\"running\":1,\"waiting\":8,\"held\":1,\"counted_ms\":40},\"modules\":{\"current\":3,\"old\":1},\"schedulers\":[{\"busy_us\":1234567,\"slices\":89,\"rows\":4500}],\"journal\":{\"entries\":345,\"in_memory\":345,\"limit\":1000,\"in_file\":false,\"stops_when_full\":true,\"kinds\":{\"commands\":10,\"slices\":150,\"deliveries\":120,\"moments\":40,\"timeouts\":25}},\"connections\":{\"places\":4,\"taken\":2,\"accepted\":61,\"failed\":1},\"memory\":{\"resident_bytes\":9000448}}";

const SMALL_JOURNAL: &str =
    "{\"entries\":345,\"in_memory\":345,\"limit\":1000,\"in_file\":false,\"stops_when_full\":true,\"kinds\":{\"commands\":10,\"slices\":150,\"deliveries\":120,\"moments\":40,\"timeouts\":25}}";

const SMALL_PROCESSES: &str =
    "{\"processes\":[{\"pid\":1,\"name\":\"keeper\",\"state\":\"running\",\"mailbox\":3,\"transit\":1,\"stack_words\":12,\"monitors\":2,\"at\":{\"module\":\"shop\",\"function\":\"open\",\"arity\":1,\"label\":3,\"row\":0,\"instance\":7,\"code\":\"current\"},\"reason\":null},{\"pid\":2,\"name\":null,\"state\":\"ended\",\"mailbox\":0,\"transit\":0,\"stack_words\":0,\"monitors\":0,\"at\":null,\"reason\":{\"text\":\"{badarith,[]}\",\"whole\":true}}],\"next\":2,\"matching\":null,\"seen\":3,\"partial\":false}";

const SMALL_PROCESS: &str =
    "{\"pid\":1,\"name\":\"keeper\",\"state\":\"held\",\"mailbox\":3,\"transit\":1,\"stack_words\":12,\"monitors\":2,\"at\":{\"module\":\"shop\",\"function\":\"open\",\"arity\":1,\"label\":3,\"row\":0,\"instance\":7,\"code\":\"current\"},\"reason\":null,\"save\":1,\"deadline_ms\":940,\"next\":\"call_only 2 {f,14}\",\"x\":[{\"text\":\"51\",\"whole\":true},{\"text\":\"{buy,apple,2}\",\"whole\":true}],\"frames\":[{\"back\":null,\"y\":[{\"text\":\"[]\",\"whole\":true},null]}],\"first_messages\":[{\"text\":\"hello\",\"whole\":true}],\"monitored\":[5,9],\"cut\":false}";

const SMALL_MODULES: &str =
    "{\"modules\":[{\"name\":\"shop\",\"current\":{\"instance\":7,\"instructions\":859},\"old\":{\"instance\":5,\"instructions\":662,\"lingering\":3,\"first\":[27,165,345]}},{\"name\":\"ledger\",\"current\":{\"instance\":9,\"instructions\":1053},\"old\":null}],\"next\":2,\"partial\":true}";

const SMALL_CONNECTIONS: &str =
    "{\"connections\":[{\"place\":1,\"peer\":\"127.0.0.1:53211\",\"since_ms\":85000}]}";

const SMALL_LOG: &str =
    "{\"lines\":[{\"number\":1,\"time_ms\":1796111320349,\"text\":\"INFO listening on 127.0.0.1:4000\"}],\"lost\":2}";

const SMALL_METRICS: &str =
    "# HELP kanguriwe_build_info The version of the program.\n# TYPE kanguriwe_build_info gauge\nkanguriwe_build_info{version=\"0.1.0\"} 1\n# HELP kanguriwe_uptime_seconds Seconds since the node began.\n# TYPE kanguriwe_uptime_seconds gauge\nkanguriwe_uptime_seconds 1.500000\n# HELP kanguriwe_processes Processes that live, by what they do.\n# TYPE kanguriwe_processes gauge\nkanguriwe_processes{state=\"running\"} 1\nkanguriwe_processes{state=\"waiting\"} 8\nkanguriwe_processes{state=\"held\"} 1\n# HELP kanguriwe_processes_started_total Processes that began.\n# TYPE kanguriwe_processes_started_total counter\nkanguriwe_processes_started_total 12\n# HELP kanguriwe_processes_ended_total Processes that ended.\n# TYPE kanguriwe_processes_ended_total counter\nkanguriwe_processes_ended_total 2\n# HELP kanguriwe_modules Instances of modules, by their age.\n# TYPE kanguriwe_modules gauge\nkanguriwe_modules{instance=\"current\"} 3\nkanguriwe_modules{instance=\"old\"} 1\n# HELP kanguriwe_scheduler_busy_seconds_total Seconds of a scheduler in slices.\n# TYPE kanguriwe_scheduler_busy_seconds_total counter\nkanguriwe_scheduler_busy_seconds_total{scheduler=\"1\"} 1.234567\n# HELP kanguriwe_scheduler_slices_total Slices that a scheduler ran.\n# TYPE kanguriwe_scheduler_slices_total counter\nkanguriwe_scheduler_slices_total{scheduler=\"1\"} 89\n# HELP kanguriwe_scheduler_rows_total Rows of code that a scheduler ran.\n# TYPE kanguriwe_scheduler_rows_total counter\nkanguriwe_scheduler_rows_total{scheduler=\"1\"} 4500\n# HELP kanguriwe_journal_entries_total Entries of the journal, by their kind.\n# TYPE kanguriwe_journal_entries_total counter\nkanguriwe_journal_entries_total{kind=\"command\"} 10\nkanguriwe_journal_entries_total{kind=\"slice\"} 150\nkanguriwe_journal_entries_total{kind=\"delivery\"} 120\nkanguriwe_journal_entries_total{kind=\"moment\"} 40\nkanguriwe_journal_entries_total{kind=\"timeout\"} 25\n# HELP kanguriwe_journal_in_memory Entries of the journal that are in memory.\n# TYPE kanguriwe_journal_in_memory gauge\nkanguriwe_journal_in_memory 345\n# HELP kanguriwe_journal_limit How many entries of the journal may be in memory.\n# TYPE kanguriwe_journal_limit gauge\nkanguriwe_journal_limit 1000\n# HELP kanguriwe_connections Connections that are open.\n# TYPE kanguriwe_connections gauge\nkanguriwe_connections 2\n# HELP kanguriwe_connection_places How many connections there may be at a time.\n# TYPE kanguriwe_connection_places gauge\nkanguriwe_connection_places 4\n# HELP kanguriwe_connections_accepted_total Connections that were accepted.\n# TYPE kanguriwe_connections_accepted_total counter\nkanguriwe_connections_accepted_total 61\n# HELP kanguriwe_connections_failed_total Connections that failed.\n# TYPE kanguriwe_connections_failed_total counter\nkanguriwe_connections_failed_total 1\n# HELP kanguriwe_changes_total Changes of code, by their kind and result.\n# TYPE kanguriwe_changes_total counter\nkanguriwe_changes_total{change=\"load\",result=\"ok\"} 2\nkanguriwe_changes_total{change=\"load\",result=\"refused\"} 0\nkanguriwe_changes_total{change=\"purge\",result=\"ok\"} 1\nkanguriwe_changes_total{change=\"purge\",result=\"refused\"} 1\nkanguriwe_changes_total{change=\"soft_purge\",result=\"ok\"} 0\nkanguriwe_changes_total{change=\"soft_purge\",result=\"refused\"} 3\nkanguriwe_changes_total{change=\"delete\",result=\"ok\"} 0\nkanguriwe_changes_total{change=\"delete\",result=\"refused\"} 0\nkanguriwe_changes_total{change=\"atomic\",result=\"ok\"} 4\nkanguriwe_changes_total{change=\"atomic\",result=\"refused\"} 5\n# HELP kanguriwe_memory_refusals_total How often memory was refused.\n# TYPE kanguriwe_memory_refusals_total counter\nkanguriwe_memory_refusals_total 0\n# HELP kanguriwe_log_lines_lost_total Lines of the log that were lost.\n# TYPE kanguriwe_log_lines_lost_total counter\nkanguriwe_log_lines_lost_total 7\n# HELP process_resident_memory_bytes Resident memory size in bytes.\n# TYPE process_resident_memory_bytes gauge\nprocess_resident_memory_bytes 9000448\n# HELP kanguriwe_page_requests_total Requests to the page, by the status of their answers.\n# TYPE kanguriwe_page_requests_total counter\nkanguriwe_page_requests_total{status=\"2xx\"} 120\nkanguriwe_page_requests_total{status=\"4xx\"} 3\nkanguriwe_page_requests_total{status=\"5xx\"} 1\n";

const NAMES_PROCESSES: &str =
    "{\"processes\":[{\"pid\":7,\"name\":\"a \\\"quote\\\" \\\\ back\\n\\t\\r\\b\\f\\u0000\\u001f\u{7f} / é ☕ 🐙 'x'\",\"state\":\"waiting\",\"mailbox\":0,\"transit\":0,\"stack_words\":0,\"monitors\":0,\"at\":{\"module\":\"a \\\"quote\\\" \\\\ back\\n\\t\\r\\b\\f\\u0000\\u001f\u{7f} / é ☕ 🐙 'x'\",\"function\":\"ф\",\"arity\":255,\"label\":1,\"row\":2,\"instance\":3,\"code\":\"old\"},\"reason\":null}],\"next\":null,\"matching\":null,\"seen\":0,\"partial\":false}";

const NAMES_PROCESS: &str =
    "{\"pid\":7,\"name\":\"'\",\"state\":\"waiting\",\"mailbox\":0,\"transit\":0,\"stack_words\":0,\"monitors\":0,\"at\":{\"module\":\"<b>\",\"function\":\"a \\\"quote\\\" \\\\ back\\n\\t\\r\\b\\f\\u0000\\u001f\u{7f} / é ☕ 🐙 'x'\",\"arity\":0,\"label\":0,\"row\":0,\"instance\":1,\"code\":\"entry\"},\"reason\":{\"text\":\"a \\\"quote\\\" \\\\ back\\n\\t\\r\\b\\f\\u0000\\u001f\u{7f} / é ☕ 🐙 'x'\",\"whole\":false},\"save\":0,\"deadline_ms\":null,\"next\":\"a \\\"quote\\\" \\\\ back\\n\\t\\r\\b\\f\\u0000\\u001f\u{7f} / é ☕ 🐙 'x'\",\"x\":[{\"text\":\"a \\\"quote\\\" \\\\ back\\n\\t\\r\\b\\f\\u0000\\u001f\u{7f} / é ☕ 🐙 'x'\",\"whole\":false}],\"frames\":[{\"back\":{\"module\":\"a \\\"quote\\\" \\\\ back\\n\\t\\r\\b\\f\\u0000\\u001f\u{7f} / é ☕ 🐙 'x'\",\"function\":\"a \\\"quote\\\" \\\\ back\\n\\t\\r\\b\\f\\u0000\\u001f\u{7f} / é ☕ 🐙 'x'\",\"arity\":0,\"label\":0,\"row\":0,\"instance\":1,\"code\":\"current\"},\"y\":[null,{\"text\":\"é\",\"whole\":true}]}],\"first_messages\":[{\"text\":\"\",\"whole\":true}],\"monitored\":[],\"cut\":true}";

const NAMES_MODULES: &str =
    "{\"modules\":[{\"name\":\"a \\\"quote\\\" \\\\ back\\n\\t\\r\\b\\f\\u0000\\u001f\u{7f} / é ☕ 🐙 'x'\",\"current\":null,\"old\":{\"instance\":1,\"instructions\":2,\"lingering\":0,\"first\":[]}},{\"name\":\"\",\"current\":{\"instance\":1,\"instructions\":0},\"old\":null}],\"next\":null,\"partial\":false}";

const NAMES_CONNECTIONS: &str =
    "{\"connections\":[{\"place\":1,\"peer\":\"a \\\"quote\\\" \\\\ back\\n\\t\\r\\b\\f\\u0000\\u001f\u{7f} / é ☕ 🐙 'x'\",\"since_ms\":1}]}";

const NAMES_LOG: &str =
    "{\"lines\":[{\"number\":9,\"time_ms\":0,\"text\":\"a \\\"quote\\\" \\\\ back\\n\\t\\r\\b\\f\\u0000\\u001f\u{7f} / é ☕ 🐙 'x'\"},{\"number\":10,\"time_ms\":1,\"text\":\"\"}],\"lost\":0}";

/// The texts of a state by the names of the answers; nothing of another name.
pub fn text(state: &str, answer: &str) -> &'static str {
    match (state, answer) {
        ("small", "node") => SMALL_NODE,
        ("small", "journal") => SMALL_JOURNAL,
        ("small", "processes") => SMALL_PROCESSES,
        ("small", "process") => SMALL_PROCESS,
        ("small", "modules") => SMALL_MODULES,
        ("small", "connections") => SMALL_CONNECTIONS,
        ("small", "log") => SMALL_LOG,
        ("small", "metrics") => SMALL_METRICS,
        ("names", "processes") => NAMES_PROCESSES,
        ("names", "process") => NAMES_PROCESS,
        ("names", "modules") => NAMES_MODULES,
        ("names", "connections") => NAMES_CONNECTIONS,
        ("names", "log") => NAMES_LOG,
        _ => "",
    }
}
