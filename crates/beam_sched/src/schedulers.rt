//! Workers on threads.

use crate::clock::Clock;
use crate::gate::Gate;
use crate::pool::Pool;
use crate::shared::Shared;
use crate::thread_context::ThreadContext;
use crate::worker::work;
use beam_queue::QueueBrand;
use beam_receipts::brand::NodeBrand;
use std::alloc::Global;
use std::sync::Wait;
use std::thread::{Builder, Scope, Threads};
use std::{thread, time};

/// How many bytes of stack a thread has: enough for terms of all depths.
const STACK: usize = 512 * 1024;

/// How many threads run: fewer than wanted if some could not be made.
#[derive(Clone, Copy, Debug)]
pub struct StartedThreads {
    /// The threads that run processes.
    pub workers: usize,
    /// The threads that help the task.
    pub helpers: usize,
}

/// What runs beside the workers, on the calling thread.
pub trait ForegroundTask {
    /// Runs beside this many workers and helpers. The workers end after the call returns and the helpers have ended.
    fn run(&mut self, started: StartedThreads);
}

/// What runs beside the task, on a thread of its own.
pub trait Helper {
    /// Helps until there is no more to do.
    fn help(&mut self);
}

/// A helper that does nothing.
#[derive(Clone, Copy, Debug)]
pub struct NoHelper;

impl Helper for NoHelper {
    fn help(&mut self) {}
}

/// Takes a thread context from the pool and works with it. The pool has one for each thread that could be made.
fn run_worker<B: NodeBrand + QueueBrand, G: Gate, C: Clock, R: Wait + time::Clock>(
    rt: &R,
    shared: &Shared<B>,
    gate: &G,
    clock: &C,
    contexts: &Pool<ThreadContext<B>>,
) {
    if let Some(context) = contexts.take(rt) {
        let context = work(rt, shared, gate, clock, context);
        contexts.give(rt, context);
    }
}

/// Takes a helper from the pool and lets it help. The pool has one for each thread that could be made.
fn help<H: Helper + Drop, R: Wait>(rt: &R, helpers: &Pool<H>) {
    if let Some(mut helper) = helpers.take(rt) {
        helper.help();
        helpers.give(rt, helper);
    }
}

/// Starts a worker's thread. Tells whether it could be made.
fn start_worker<
    's,
    E,
    B: NodeBrand + QueueBrand + Send + Sync + 's,
    G: Gate + Sync + 's,
    C: Clock + Sync + 's,
    R: Wait + time::Clock + Sync + 's,
>(
    scope: &Scope<'s, E>,
    rt: &'s R,
    shared: &'s Shared<B>,
    gate: &'s G,
    clock: &'s C,
    contexts: &'s Pool<ThreadContext<B>>,
) -> bool {
    Builder::new()
        .stack_size(STACK)
        .spawn_scoped(scope, move || run_worker(rt, shared, gate, clock, contexts))
        .is_ok()
}

/// Starts a helper's thread. Tells whether it could be made.
fn start_helper<'s, E, H: Helper + Drop + Send + 's, R: Wait + Sync + 's>(
    scope: &Scope<'s, E>,
    rt: &'s R,
    helpers: &'s Pool<H>,
) -> bool {
    Builder::new()
        .stack_size(STACK)
        .spawn_scoped(scope, move || help(rt, helpers))
        .is_ok()
}

/// Starts a thread for each of the thread contexts, and returns how many could be made.
fn start_workers<
    's,
    E,
    B: NodeBrand + QueueBrand + Send + Sync + 's,
    G: Gate + Sync + 's,
    C: Clock + Sync + 's,
    R: Wait + time::Clock + Sync + 's,
>(
    scope: &Scope<'s, E>,
    rt: &'s R,
    shared: &'s Shared<B>,
    gate: &'s G,
    clock: &'s C,
    contexts: &'s Pool<ThreadContext<B>>,
) -> usize {
    let mut started = 0usize;
    for _ in 0..contexts.count() {
        if start_worker(scope, rt, shared, gate, clock, contexts) {
            started = started.saturating_add(1);
        }
    }
    started
}

/// Starts a thread for each of the helpers, and returns how many could be made.
fn start_helpers<'s, E, H: Helper + Drop + Send + 's, R: Wait + Sync + 's>(
    scope: &Scope<'s, E>,
    rt: &'s R,
    helpers: &'s Pool<H>,
) -> usize {
    let mut started = 0usize;
    for _ in 0..helpers.count() {
        if start_helper(scope, rt, helpers) {
            started = started.saturating_add(1);
        }
    }
    started
}

/// Runs the task beside the workers and the helpers, and waits until these have ended. Without workers no helper runs.
fn run_helped<H: Helper + Drop + Send, W: ForegroundTask, R: Threads + Wait + Sync>(
    rt: &R,
    helpers: &Pool<H>,
    workers: usize,
    task: &mut W,
) {
    thread::scope(thread::scope_env(), rt, |scope| {
        let helpers = if workers == 0 {
            0
        } else {
            start_helpers(scope, rt, helpers)
        };
        task.run(StartedThreads { workers, helpers });
    })
}

/// Runs the task and the helpers beside the workers, and waits until all have ended, the workers last.
fn run_in_scope<
    B: NodeBrand + QueueBrand + Send + Sync,
    G: Gate + Sync,
    C: Clock + Sync,
    H: Helper + Drop + Send,
    W: ForegroundTask,
    R: Threads + Wait + time::Clock + Sync,
>(
    rt: &R,
    shared: &Shared<B>,
    gate: &G,
    clock: &C,
    contexts: &Pool<ThreadContext<B>>,
    helpers: &Pool<H>,
    task: &mut W,
) {
    thread::scope(thread::scope_env(), rt, |scope| {
        let workers = start_workers(scope, rt, shared, gate, clock, contexts);
        run_helped(rt, helpers, workers, task);
        shared.close(rt);
    })
}

/// Runs a worker on a thread of its own for each of the thread contexts, and each of the helpers on one, while the task runs on this
/// thread. Where no worker can be made no helper runs. When the task and the helpers have ended the queues are closed; the workers end once
/// they find no work, and all thread contexts and helpers come back. A thread that can't be made is left out, and its thread context or
/// helper comes back too; the task gets the counts of those that run. Processes that no worker took are left in the queues.
pub fn run_with_helpers<
    B: NodeBrand + QueueBrand + Send + Sync,
    G: Gate + Sync,
    C: Clock + Sync,
    H: Helper + Drop + Send,
    W: ForegroundTask,
    R: Threads + Wait + time::Clock + Sync,
>(
    rt: &R,
    shared: &Shared<B>,
    gate: &G,
    clock: &C,
    contexts: Vec<ThreadContext<B>>,
    helpers: Vec<H>,
    task: &mut W,
) -> (Vec<ThreadContext<B>>, Vec<H>) {
    let contexts = Pool::new(contexts);
    let helpers = Pool::new(helpers);
    run_in_scope(rt, shared, gate, clock, &contexts, &helpers, task);
    (contexts.into_left(), helpers.into_left())
}

/// Runs a worker on a thread of its own for each of the thread contexts, while the task runs on this thread, as `run_with_helpers` does
/// without helpers.
pub fn run_schedulers<
    B: NodeBrand + QueueBrand + Send + Sync,
    G: Gate + Sync,
    C: Clock + Sync,
    W: ForegroundTask,
    R: Threads + Wait + time::Clock + Sync,
>(
    rt: &R,
    alloc: Global,
    shared: &Shared<B>,
    gate: &G,
    clock: &C,
    contexts: Vec<ThreadContext<B>>,
    task: &mut W,
) -> Vec<ThreadContext<B>> {
    let helpers = Vec::<NoHelper>::new(alloc);
    let (contexts, _helpers) = run_with_helpers(rt, shared, gate, clock, contexts, helpers, task);
    contexts
}
