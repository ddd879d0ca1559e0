//! Log records of processes that are held or have ended.

use crate::logging::ENDS;
use beam_debug::outcome::Outcome;
use beam_erltext::print_erl;
use beam_image::Image;
use beam_lengths::text_length;
use beam_machine::event::{Reply, Then};
use beam_receipts::brand::NodeBrand;
use beam_sched::shared::Shared;
use beam_term::{Atom, Term, TermView};
use log::{Level, Log, info, log_enabled};
use std::sync::Wait;

/// The most bytes of a reason in the log. A longer one is left out.
const LONGEST_REASON: usize = 1_000;

fn is_atom(term: &Term, text: &str) -> bool {
    match term.view() {
        TermView::Atom(name) => name.as_str() == text,
        _ => false,
    }
}

/// Logs the reason of an end. Of one that is too long no text is made.
fn log_reason<L: Log + AllocGlobal>(log: &L, pid: u32, reason: &Term) {
    if text_length(reason, LONGEST_REASON).is_none() {
        info!(log; "process <0.{pid}.0>: ended with a reason of more than {LONGEST_REASON} bytes");
        return;
    }
    let mut text = Vec::new(log.alloc());
    if print_erl(reason, &mut text).is_err() {
        return;
    }
    if let Ok(reason) = str::from_utf8(&text) {
        info!(log; "process <0.{pid}.0>: ended with {reason}");
    }
}

/// Logs that a process ended with a reason other than `normal`, unless the log has as many ends of this second as it takes.
pub fn log_exit<L: Log + AllocGlobal>(log: &L, pid: u32, reason: &Term) {
    if !is_atom(reason, "normal") && log_enabled!(log; target: ENDS, Level::Info) {
        log_reason(log, pid, reason);
    }
}

/// Logs that a process is held, or that it ended with a reason other than `normal`.
pub fn log_rows<L: Log + AllocGlobal>(log: &L, pid: u32, outcome: &Outcome) {
    match outcome {
        Outcome::Held { count } => info!(log; "process <0.{pid}.0>: held after {count} rows"),
        Outcome::Node(
            Reply::Ran {
                then: Then::Ended { reason, .. },
                ..
            },
        ) => log_exit(log, pid, reason),
        _ => {}
    }
}

/// Logs that a process has ended with a reason other than `normal`, if it has.
pub fn log_arrival<B: NodeBrand, L: Log + AllocGlobal + Wait>(
    log: &L,
    shared: &Shared<B>,
    pid: u32,
) {
    let end = shared.exit_reason(log, pid);
    if let Some(reason) = &end {
        log_exit(log, pid, reason);
    }
}

/// The processes that linger in a module's old code, in the order of their numbers, as far as there is memory for them.
pub fn lingering<B: NodeBrand, L: Log + AllocGlobal + Wait>(
    log: &L,
    shared: &Shared<B>,
    module: &Atom,
) -> Vec<u32> {
    let mut pids = Vec::new(log.alloc());
    let locked = shared.node().lock(log);
    let node = locked.node();
    let Some(old) = node.debugger().table().old(module) else {
        return pids;
    };
    for pid in 1..u32::MAX {
        let Some(process) = node.debugger().process(pid) else {
            return pids;
        };
        if process.lingers(old) && pids.push(pid).is_err() {
            return pids;
        }
    }
    pids
}

/// The processes that linger in old code of one of these modules, in the order of their numbers, as far as there is memory for them.
pub fn lingering_in_any<B: NodeBrand, L: Log + AllocGlobal + Wait>(
    log: &L,
    shared: &Shared<B>,
    images: &[Image],
) -> Vec<u32> {
    let mut pids = Vec::new(log.alloc());
    let locked = shared.node().lock(log);
    let node = locked.node();
    let Ok(old) = node.debugger().table().old_numbers(log.alloc(), images) else {
        return pids;
    };
    for pid in 1..u32::MAX {
        let Some(process) = node.debugger().process(pid) else {
            return pids;
        };
        if process.lingers_in_any(&old) && pids.push(pid).is_err() {
            return pids;
        }
    }
    pids
}

/// Logs which of these processes have ended with `killed`, as processes do that linger in code that is removed.
pub fn log_killed<B: NodeBrand, L: Log + AllocGlobal + Wait>(
    log: &L,
    shared: &Shared<B>,
    pids: &[u32],
) {
    for pid in pids {
        let end = shared.exit_reason(log, *pid);
        if let Some(reason) = &end
            && is_atom(reason, "killed")
        {
            log_exit(log, *pid, reason);
        }
    }
}
