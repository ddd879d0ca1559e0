//! The deepest terms, on a thread with the stack of a worker.

use beam_erltext::{print_erl, read_erl};
use beam_etf::{read_term, write_term};
use beam_term::MAX_DEPTH;
use std::alloc::{AllocError, Global};
use std::process::Abort;
use std::sync::Wait;
use std::test::*;
use std::thread;
use std::thread::{Builder, Threads};

/// The stack of a worker, in bytes.
const STACK: usize = 512 * 1024;

/// `[]` in `depth` lists.
fn text_of(alloc: Global, depth: u16) -> Result<String, AllocError> {
    let mut text = String::new(alloc);
    for _ in 0..=depth {
        text.push('[')?;
    }
    for _ in 0..=depth {
        text.push(']')?;
    }
    Ok(text)
}

/// Whether a term's text is read and printed unchanged, and its bytes are written and read as an equal term. The terms are dropped here.
fn is_kept(alloc: Global, text: &str) -> bool {
    let Ok(term) = read_erl(alloc, text) else {
        return false;
    };
    let mut printed = Vec::new(alloc);
    let mut bytes = Vec::new(alloc);
    if print_erl(&term, &mut printed).is_err() || write_term(&term, &mut bytes).is_err() {
        return false;
    }
    match read_term(alloc, &bytes) {
        Ok((other, _)) => printed.as_slice() == text.as_bytes() && other == term,
        Err(_) => false,
    }
}

fn is_kept_by_a_thread<R: Threads + Wait>(rt: &R, alloc: Global, text: &str) -> Option<bool> {
    thread::scope(thread::scope_env(), rt, |scope| {
        let worker = Builder::new()
            .stack_size(STACK)
            .spawn_scoped(scope, move || is_kept(alloc, text))
            .ok()?;
        Some(worker.join(rt))
    })
}

fn is_kept_of_depth<R: Threads + Wait + AllocGlobal>(rt: &R, depth: u16) -> Option<bool> {
    let text = text_of(rt.alloc(), depth).ok()?;
    is_kept_by_a_thread(rt, rt.alloc(), &text)
}

#[test]
fn the_deepest_term_fits_the_stack_of_a_worker(rt: HostRuntime) {
    let kept = is_kept_of_depth(&rt, MAX_DEPTH);
    let deeper = is_kept_of_depth(&rt, MAX_DEPTH + 1);
    assert_eq!(rt; (kept, deeper), (Some(true), Some(false)));
}
