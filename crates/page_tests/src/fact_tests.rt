//! Facts as JSON and as metrics.

use crate::fact_texts::text;
use crate::facts::{
    odd_connections, odd_list, odd_log, odd_modules, odd_process, small_connections, small_journal,
    small_list, small_log, small_modules, small_node, small_process,
};
use beam_page::{
    connections_json, journal_json, log_json, metrics_text, modules_json, node_json, process_json,
    processes_json,
};
use std::alloc::{AllocError, Global};
use std::test::*;

/// The answers of the small state, each by its name.
fn small(alloc: Global) -> Result<Vec<(&'static str, Vec<u8>)>, AllocError> {
    let node = small_node(alloc)?;
    let mut answers = Vec::new(alloc);
    answers.push(("node", node_json(alloc, &node)?))?;
    answers.push(("metrics", metrics_text(alloc, &node)?))?;
    answers.push(("journal", journal_json(alloc, &small_journal())?))?;
    answers.push(("processes", processes_json(alloc, &small_list(alloc)?)?))?;
    answers.push(("process", process_json(alloc, &small_process(alloc)?)?))?;
    answers.push(("modules", modules_json(alloc, &small_modules(alloc)?)?))?;
    answers.push((
        "connections",
        connections_json(alloc, &small_connections(alloc)?)?,
    ))?;
    answers.push(("log", log_json(alloc, &small_log(alloc)?)?))?;
    Ok(answers)
}

/// The answers of the state with odd names, each by its name.
fn names(alloc: Global) -> Result<Vec<(&'static str, Vec<u8>)>, AllocError> {
    let mut answers = Vec::new(alloc);
    answers.push(("processes", processes_json(alloc, &odd_list(alloc)?)?))?;
    answers.push(("process", process_json(alloc, &odd_process(alloc)?)?))?;
    answers.push(("modules", modules_json(alloc, &odd_modules(alloc)?)?))?;
    answers.push((
        "connections",
        connections_json(alloc, &odd_connections(alloc)?)?,
    ))?;
    answers.push(("log", log_json(alloc, &odd_log(alloc)?)?))?;
    Ok(answers)
}

/// The name of the first answer that isn't the one of a state; nothing if there is none.
fn first_other(state: &str, answers: &[(&'static str, Vec<u8>)]) -> &'static str {
    for (name, bytes) in answers {
        if bytes.as_slice() != text(state, name).as_bytes() {
            return name;
        }
    }
    ""
}

#[test]
fn facts_are_told(rt: HostRuntime) -> Result<(), Fail> {
    let small = small(rt.alloc())?;
    let names = names(rt.alloc())?;
    assert_eq!(rt;
        (first_other("small", &small), first_other("names", &names)),
        ("", "")
    );
    assert_eq!(rt; (small.len(), names.len()), (8, 5));
    Ok(())
}
