//! The answers of a node, as stories write them.

use crate::draft::Draft;
use crate::error::{TestRowError, unless_refused};
use crate::term::printed;
use beam_debug::outcome::Outcome;
use beam_machine::event::{Numbers, Refused, Reply, Then};
use beam_term::Term;
use std::alloc::Global;

// Whether a term is a pid of another node than this one, or of the same one at another time.
fn is_foreign(term: &Term) -> bool {
    match term.as_pid() {
        Some(pid) => pid.node.as_str() != "nonode@nohost" || pid.creation != 0,
        None => false,
    }
}

// The text of a term; that of a foreign pid says so.
fn shown(alloc: Global, term: &Term) -> Result<String, TestRowError> {
    match printed(alloc, term) {
        Ok(text) if is_foreign(term) => unless_refused(format!(in alloc; "foreign {text}")),
        printed => printed,
    }
}

fn ended(alloc: Global, count: u32, reason: &Term, value: &Term) -> Result<String, TestRowError> {
    match (shown(alloc, reason), shown(alloc, value)) {
        (Ok(reason), Ok(value)) => {
            unless_refused(format!(in alloc; "{count} ended {reason} {value}"))
        }
        _ => Err(TestRowError::NoMemory),
    }
}

fn ran(alloc: Global, count: u32, then: &Then) -> Result<String, TestRowError> {
    match then {
        Then::GoesOn => unless_refused(format!(in alloc; "{count} goes on")),
        Then::Waits => unless_refused(format!(in alloc; "{count} waits")),
        Then::Ended { reason, value } => ended(alloc, count, reason, value),
    }
}

fn versions(alloc: Global, current: Option<u32>, old: Option<u32>) -> Result<String, TestRowError> {
    let current = current.unwrap_or(0);
    let old = old.unwrap_or(0);
    unless_refused(format!(in alloc; "versions {current} {old}"))
}

fn upgraded(alloc: Global, list: &[Numbers]) -> Result<String, TestRowError> {
    let mut text = Draft::new(alloc);
    text.push_text("upgraded");
    for numbers in list {
        let current = numbers.current.unwrap_or(0);
        let old = numbers.old.unwrap_or(0);
        text.push_made(&unless_refused(format!(in alloc; " {current} {old}")));
    }
    text.text()
}

fn reply(alloc: Global, reply: &Reply) -> Result<String, TestRowError> {
    match reply {
        Reply::Done => unless_refused(String::from_str(alloc, "done")),
        Reply::Changed(changed) => unless_refused(format!(in alloc; "{changed}")),
        Reply::Versions { current, old } => versions(alloc, *current, *old),
        Reply::Upgraded(numbers) => upgraded(alloc, numbers.as_slice()),
        Reply::Started(pid) => unless_refused(format!(in alloc; "pid {pid}")),
        Reply::Ran { count, then } => ran(alloc, *count, then),
    }
}

/// The answer to an event.
pub fn answer(alloc: Global, answer: &Result<Reply, Refused>) -> Result<String, TestRowError> {
    match answer {
        Ok(given) => reply(alloc, given),
        Err(refused) => unless_refused(format!(in alloc; "refused {refused}")),
    }
}

/// The answers to events, each with a newline.
pub fn answers(alloc: Global, given: &[Result<Reply, Refused>]) -> Result<String, TestRowError> {
    let mut texts = Draft::new(alloc);
    for given in given {
        texts.push_made(&answer(alloc, given));
        texts.push(b"\n");
    }
    texts.text()
}

// The answer of a node with a debugger to an event of the node: it holds no process.
fn outcome(alloc: Global, outcome: &Result<Outcome, Refused>) -> Result<String, TestRowError> {
    match outcome {
        Ok(Outcome::Node(given)) => reply(alloc, given),
        Ok(Outcome::Held { .. }) => unless_refused(String::from_str(alloc, "held")),
        Ok(Outcome::Viewed(_)) => unless_refused(String::from_str(alloc, "viewed")),
        Err(refused) => unless_refused(format!(in alloc; "refused {refused}")),
    }
}

/// The answers of a node with a debugger to events of the node, each with a newline.
pub fn outcomes(alloc: Global, given: &[Result<Outcome, Refused>]) -> Result<String, TestRowError> {
    let mut texts = Draft::new(alloc);
    for given in given {
        texts.push_made(&outcome(alloc, given));
        texts.push(b"\n");
    }
    texts.text()
}

/// A process that can go on, or `none`.
pub fn ready(alloc: Global, pid: Option<u32>) -> Result<String, TestRowError> {
    match pid {
        Some(pid) => unless_refused(format!(in alloc; "{pid}")),
        None => unless_refused(String::from_str(alloc, "none")),
    }
}

/// A deadline and its process, or `none`.
pub fn deadline(alloc: Global, next: Option<(u64, u32)>) -> Result<String, TestRowError> {
    match next {
        Some((when, pid)) => unless_refused(format!(in alloc; "{when} {pid}")),
        None => unless_refused(String::from_str(alloc, "none")),
    }
}
