//! Facts of two made-up states of a node, as `tests/page/rows.py` has them.

use beam_page::{
    ChangeCount, ChangeCounts, ClippedText, CodeAge, ConnectionCounts, ConnectionFacts,
    ConnectionList, EntryFacts, FrameFacts, InstanceFacts, JournalFacts, LogFacts, LogTail,
    ModuleCounts, ModuleFacts, ModuleList, NodeFacts, OldInstance, PlaceFacts, ProcessCounts,
    ProcessDetail, ProcessFacts, ProcessList, ProcessState, RequestCounts, SchedulerFacts,
};
use beam_term::Atom;
use std::alloc::{AllocError, Global};

/// A name with what has to be escaped.
const ODD: &str = "a \"quote\" \\ back\n\t\r\u{8}\u{c}\u{0}\u{1f}\u{7f} / é ☕ 🐙 'x'";

fn string(alloc: Global, text: &str) -> Result<String, AllocError> {
    String::from_str(alloc, text)
}

fn atom(alloc: Global, text: &str) -> Result<Atom, AllocError> {
    Atom::new(alloc, text).map_err(|_| AllocError)
}

fn clipped(alloc: Global, text: &str, is_whole: bool) -> Result<ClippedText, AllocError> {
    Ok(ClippedText {
        text: string(alloc, text)?,
        is_whole,
    })
}

fn texts(alloc: Global, all: &[&str]) -> Result<Vec<ClippedText>, AllocError> {
    let mut texts = Vec::new(alloc);
    for text in all {
        texts.push(clipped(alloc, text, true)?)?;
    }
    Ok(texts)
}

/// A place with arity 0 and label 0.
fn place(
    alloc: Global,
    module: &str,
    function: &str,
    code: CodeAge,
) -> Result<PlaceFacts, AllocError> {
    Ok(PlaceFacts {
        module: atom(alloc, module)?,
        function: atom(alloc, function)?,
        arity: 0,
        label: 0,
        row: 0,
        instance: 1,
        code,
    })
}

fn shop_place(alloc: Global) -> Result<PlaceFacts, AllocError> {
    Ok(PlaceFacts {
        module: atom(alloc, "shop")?,
        function: atom(alloc, "open")?,
        arity: 1,
        label: 3,
        row: 0,
        instance: 7,
        code: CodeAge::Current,
    })
}

/// A process of which nothing but this is known.
fn process(pid: u32, state: ProcessState) -> ProcessFacts {
    ProcessFacts {
        pid,
        name: None,
        state,
        mailbox: 0,
        transit: 0,
        stack_words: 0,
        monitors: 0,
        at: None,
        reason: None,
    }
}

fn keeper(alloc: Global, state: ProcessState) -> Result<ProcessFacts, AllocError> {
    Ok(ProcessFacts {
        pid: 1,
        name: Some(atom(alloc, "keeper")?),
        state,
        mailbox: 3,
        transit: 1,
        stack_words: 12,
        monitors: 2,
        at: Some(shop_place(alloc)?),
        reason: None,
    })
}

pub fn small_journal() -> JournalFacts {
    JournalFacts {
        entries: 345,
        in_memory: 345,
        limit: 1_000,
        is_in_file: false,
        stops_when_full: true,
        kinds: EntryFacts {
            commands: 10,
            slices: 150,
            deliveries: 120,
            moments: 40,
            timeouts: 25,
        },
    }
}

fn small_changes() -> ChangeCounts {
    ChangeCounts {
        load: ChangeCount { ok: 2, refused: 0 },
        purge: ChangeCount { ok: 1, refused: 1 },
        soft_purge: ChangeCount { ok: 0, refused: 3 },
        delete: ChangeCount { ok: 0, refused: 0 },
        atomic: ChangeCount { ok: 4, refused: 5 },
    }
}

pub fn small_node(alloc: Global) -> Result<NodeFacts, AllocError> {
    Ok(NodeFacts {
        name: string(alloc, "kanguriwe")?,
        version: "0.1.0",
        address: string(alloc, "127.0.0.1:4000")?,
        uptime_ms: 1_500,
        can_stop: true,
        processes: ProcessCounts {
            started: 12,
            ended: 2,
            running: 1,
            waiting: 8,
            held: 1,
            counted_ms: 40,
        },
        modules: ModuleCounts { current: 3, old: 1 },
        schedulers: vec![in alloc;
            SchedulerFacts {
                busy_us: 1_234_567,
                slices: 89,
                rows: 4_500
            },
        ]?,
        journal: small_journal(),
        connections: ConnectionCounts {
            places: 4,
            taken: 2,
            accepted: 61,
            failed: 1,
        },
        changes: small_changes(),
        memory_refusals: 0,
        log_lines_lost: 7,
        requests: RequestCounts {
            ok: 120,
            client_errors: 3,
            server_errors: 1,
        },
        resident_bytes: Some(9_000_448),
    })
}

pub fn small_list(alloc: Global) -> Result<ProcessList, AllocError> {
    let mut ended = process(2, ProcessState::Ended);
    ended.reason = Some(clipped(alloc, "{badarith,[]}", true)?);
    let mut processes = Vec::new(alloc);
    processes.push(keeper(alloc, ProcessState::Running)?)?;
    processes.push(ended)?;
    Ok(ProcessList {
        processes,
        next: Some(2),
        matching: None,
        seen: 3,
        is_partial: false,
    })
}

pub fn small_process(alloc: Global) -> Result<ProcessDetail, AllocError> {
    let mut y = Vec::new(alloc);
    y.push(Some(clipped(alloc, "[]", true)?))?;
    y.push(None)?;
    let mut frames = Vec::new(alloc);
    frames.push(FrameFacts { back: None, y })?;
    Ok(ProcessDetail {
        process: keeper(alloc, ProcessState::Held)?,
        save: 1,
        deadline_ms: Some(940),
        next: Some(string(alloc, "call_only 2 {f,14}")?),
        x: texts(alloc, &["51", "{buy,apple,2}"])?,
        frames,
        first_messages: texts(alloc, &["hello"])?,
        monitored: vec![in alloc; 5, 9]?,
        is_cut: false,
    })
}

pub fn small_modules(alloc: Global) -> Result<ModuleList, AllocError> {
    let mut modules = Vec::new(alloc);
    modules.push(ModuleFacts {
        name: atom(alloc, "shop")?,
        current: Some(InstanceFacts {
            instance: 7,
            instructions: 859,
        }),
        old: Some(OldInstance {
            instance: 5,
            instructions: 662,
            lingering: 3,
            first: vec![in alloc; 27, 165, 345]?,
        }),
    })?;
    modules.push(ModuleFacts {
        name: atom(alloc, "ledger")?,
        current: Some(InstanceFacts {
            instance: 9,
            instructions: 1_053,
        }),
        old: None,
    })?;
    Ok(ModuleList {
        modules,
        next: Some(2),
        is_partial: true,
    })
}

fn connection(alloc: Global, peer: &str, since_ms: u64) -> Result<ConnectionList, AllocError> {
    let mut connections = Vec::new(alloc);
    connections.push(ConnectionFacts {
        place: 1,
        peer: string(alloc, peer)?,
        since_ms,
    })?;
    Ok(ConnectionList { connections })
}

pub fn small_connections(alloc: Global) -> Result<ConnectionList, AllocError> {
    connection(alloc, "127.0.0.1:53211", 85_000)
}

pub fn small_log(alloc: Global) -> Result<LogTail, AllocError> {
    let mut lines = Vec::new(alloc);
    lines.push(LogFacts {
        number: 1,
        time_ms: 1_796_111_320_349,
        text: string(alloc, "INFO listening on 127.0.0.1:4000")?,
    })?;
    Ok(LogTail { lines, lost: 2 })
}

pub fn odd_list(alloc: Global) -> Result<ProcessList, AllocError> {
    let mut odd = process(7, ProcessState::Waiting);
    odd.name = Some(atom(alloc, ODD)?);
    odd.at = Some(PlaceFacts {
        module: atom(alloc, ODD)?,
        function: atom(alloc, "ф")?,
        arity: 255,
        label: 1,
        row: 2,
        instance: 3,
        code: CodeAge::Old,
    });
    let mut processes = Vec::new(alloc);
    processes.push(odd)?;
    Ok(ProcessList {
        processes,
        next: None,
        matching: None,
        seen: 0,
        is_partial: false,
    })
}

pub fn odd_process(alloc: Global) -> Result<ProcessDetail, AllocError> {
    let mut odd = process(7, ProcessState::Waiting);
    odd.name = Some(atom(alloc, "'")?);
    odd.at = Some(place(alloc, "<b>", ODD, CodeAge::Entry)?);
    odd.reason = Some(clipped(alloc, ODD, false)?);
    let mut y = Vec::new(alloc);
    y.push(None)?;
    y.push(Some(clipped(alloc, "é", true)?))?;
    let mut frames = Vec::new(alloc);
    frames.push(FrameFacts {
        back: Some(place(alloc, ODD, ODD, CodeAge::Current)?),
        y,
    })?;
    let mut x = Vec::new(alloc);
    x.push(clipped(alloc, ODD, false)?)?;
    Ok(ProcessDetail {
        process: odd,
        save: 0,
        deadline_ms: None,
        next: Some(string(alloc, ODD)?),
        x,
        frames,
        first_messages: texts(alloc, &[""])?,
        monitored: Vec::new(alloc),
        is_cut: true,
    })
}

pub fn odd_modules(alloc: Global) -> Result<ModuleList, AllocError> {
    let mut modules = Vec::new(alloc);
    modules.push(ModuleFacts {
        name: atom(alloc, ODD)?,
        current: None,
        old: Some(OldInstance {
            instance: 1,
            instructions: 2,
            lingering: 0,
            first: Vec::new(alloc),
        }),
    })?;
    modules.push(ModuleFacts {
        name: atom(alloc, "")?,
        current: Some(InstanceFacts {
            instance: 1,
            instructions: 0,
        }),
        old: None,
    })?;
    Ok(ModuleList {
        modules,
        next: None,
        is_partial: false,
    })
}

pub fn odd_connections(alloc: Global) -> Result<ConnectionList, AllocError> {
    connection(alloc, ODD, 1)
}

pub fn odd_log(alloc: Global) -> Result<LogTail, AllocError> {
    let mut lines = Vec::new(alloc);
    lines.push(LogFacts {
        number: 9,
        time_ms: 0,
        text: string(alloc, ODD)?,
    })?;
    lines.push(LogFacts {
        number: 10,
        time_ms: 1,
        text: string(alloc, "")?,
    })?;
    Ok(LogTail { lines, lost: 0 })
}
