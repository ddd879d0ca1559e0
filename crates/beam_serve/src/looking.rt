//! Looks at a node that threads share: in steps, between which other threads have its lock.

use beam_http::ProcessQuery;
use beam_looks::{
    Census, InstanceRow, ModuleRow, ProcessLook, ProcessRow, Selection, TextRoom, counts_after,
    lingering_after, look_at, module_facts, modules_after, process_facts, rows_after,
};
use beam_page::{ModuleCounts, ModuleFacts, ModuleList, ProcessCounts, ProcessFacts, ProcessList};
use beam_receipts::brand::NodeBrand;
use beam_sched::shared::Shared;
use indexmap::IndexSet;
use std::alloc::{AllocError, Global};
use std::sync::Wait;

/// How many processes or modules are looked at in one hold of the lock.
const STEP: u32 = 256;

/// How many processes are asked in one hold of the lock whether they linger, which takes time linear in their frames.
const LINGER_STEP: u32 = 32;

/// How many processes are looked at for one answer at most.
const MOST_SEEN: u64 = 200_000;

/// How many modules one answer tells of at most.
const MOST_MODULES: usize = 100;

/// How many of the processes that linger in a module are named.
const MOST_NAMED: usize = 3;

/// How many bytes the texts of a list have at most.
const TEXT_BYTES: usize = 65_536;

fn counts_step<B: NodeBrand, R: Wait>(rt: &R, shared: &Shared<B>, after: u32) -> Census {
    let locked = shared.node().lock(rt);
    counts_after(locked.node().debugger(), after, STEP)
}

fn rows_step<B: NodeBrand, R: Wait>(
    rt: &R,
    alloc: Global,
    shared: &Shared<B>,
    after: u32,
) -> Result<Vec<ProcessRow>, AllocError> {
    let locked = shared.node().lock(rt);
    rows_after(alloc, locked.node().debugger(), after, STEP)
}

fn modules_step<B: NodeBrand, R: Wait>(
    rt: &R,
    alloc: Global,
    shared: &Shared<B>,
    after: usize,
    most: usize,
) -> Result<Vec<ModuleRow>, AllocError> {
    let locked = shared.node().lock(rt);
    modules_after(alloc, locked.node().debugger().table(), after, most)
}

/// How many processes stand in which way.
fn process_counts<B: NodeBrand, R: Wait>(rt: &R, shared: &Shared<B>) -> ProcessCounts {
    let mut counts = ProcessCounts {
        started: 0,
        ended: 0,
        running: 0,
        waiting: 0,
        held: 0,
        counted_ms: 0,
    };
    for step in 0..u32::MAX / STEP {
        let census = counts_step(rt, shared, step * STEP);
        counts.running = counts.running.saturating_add(u64::from(census.running));
        counts.waiting = counts.waiting.saturating_add(u64::from(census.waiting));
        counts.held = counts.held.saturating_add(u64::from(census.held));
        counts.ended = counts.ended.saturating_add(u64::from(census.ended));
        let unended = counts
            .running
            .saturating_add(counts.waiting)
            .saturating_add(counts.held);
        let seen = unended.saturating_add(counts.ended);
        if seen <= counts.started {
            break;
        }
        counts.started = seen;
    }
    counts
}

/// How many instances are current, and how many old.
fn module_counts<B: NodeBrand, R: Wait>(
    rt: &R,
    alloc: Global,
    shared: &Shared<B>,
) -> Result<ModuleCounts, AllocError> {
    let mut counts = ModuleCounts { current: 0, old: 0 };
    for step in 0..usize::MAX / STEP as usize {
        let rows = modules_step(rt, alloc, shared, step * STEP as usize, STEP as usize)?;
        for row in &rows {
            counts.current = counts
                .current
                .saturating_add(u64::from(row.current.is_some()));
            counts.old = counts.old.saturating_add(u64::from(row.old.is_some()));
        }
        if rows.len() < STEP as usize {
            break;
        }
    }
    Ok(counts)
}

/// How many processes stand in which way, and how many instances are current and old.
pub(crate) fn count_all<B: NodeBrand, R: Wait>(
    rt: &R,
    alloc: Global,
    shared: &Shared<B>,
) -> Result<(ProcessCounts, ModuleCounts), AllocError> {
    Ok((
        process_counts(rt, shared),
        module_counts(rt, alloc, shared)?,
    ))
}

/// The numbers of all old instances.
fn old_numbers<B: NodeBrand, R: Wait>(
    rt: &R,
    alloc: Global,
    shared: &Shared<B>,
) -> Result<IndexSet<u32>, AllocError> {
    let mut numbers = IndexSet::new(alloc);
    for step in 0..usize::MAX / STEP as usize {
        let rows = modules_step(rt, alloc, shared, step * STEP as usize, STEP as usize)?;
        for row in &rows {
            if let Some(old) = row.old {
                numbers.insert(old.number)?;
            }
        }
        if rows.len() < STEP as usize {
            break;
        }
    }
    Ok(numbers)
}

/// Those of some processes above a number, and no more than a step has, that linger in one of these instances.
fn lingering_in_step<B: NodeBrand, R: Wait>(
    rt: &R,
    alloc: Global,
    shared: &Shared<B>,
    numbers: &IndexSet<u32>,
    after: u32,
) -> Result<Vec<u32>, AllocError> {
    let mut pids = Vec::new(alloc);
    for part in 0..STEP / LINGER_STEP {
        let from = after.saturating_add(part * LINGER_STEP);
        let locked = shared.node().lock(rt);
        let debugger = locked.node().debugger();
        let found = lingering_after(alloc, debugger, numbers, from, LINGER_STEP)?;
        drop(locked);
        for pid in &found.pids {
            pids.push(*pid)?;
        }
        if found.visited < LINGER_STEP {
            break;
        }
    }
    Ok(pids)
}

/// Looks at processes for a selection, until it is full, there are no more, or 200,000 were looked at: then the number of the last one.
fn fill<B: NodeBrand, R: Wait>(
    rt: &R,
    alloc: Global,
    shared: &Shared<B>,
    selection: &mut Selection,
) -> Result<Option<u32>, AllocError> {
    let numbers = if selection.wants_old() {
        old_numbers(rt, alloc, shared)?
    } else {
        IndexSet::new(alloc)
    };
    let mut after = selection.first_after();
    for _ in 0..MOST_SEEN / u64::from(STEP) {
        let rows = rows_step(rt, alloc, shared, after)?;
        let count = u32::try_from(rows.len()).unwrap_or(u32::MAX);
        let old = if selection.wants_old() {
            lingering_in_step(rt, alloc, shared, &numbers, after)?
        } else {
            Vec::new(alloc)
        };
        selection.take_all(rows, &old)?;
        after = after.saturating_add(count);
        if count < STEP {
            return Ok(None);
        }
        if selection.is_full() {
            return Ok(Some(after));
        }
    }
    Ok(Some(after))
}

/// What is told of rows.
fn told(alloc: Global, rows: &[ProcessRow]) -> Result<Vec<ProcessFacts>, AllocError> {
    let mut room = TextRoom::new(TEXT_BYTES);
    let mut told = Vec::with_capacity(alloc, rows.len())?;
    for row in rows {
        told.push(process_facts(alloc, row, &mut room)?)?;
    }
    Ok(told)
}

/// The processes that a query asks for. At most 200,000 are looked at.
pub fn process_list<B: NodeBrand, R: Wait>(
    rt: &R,
    alloc: Global,
    shared: &Shared<B>,
    query: ProcessQuery,
) -> Result<ProcessList, AllocError> {
    let mut selection = Selection::new(alloc, query);
    let more_after = fill(rt, alloc, shared, &mut selection)?;
    let (seen, matching) = (selection.seen(), selection.matching());
    let is_partial = more_after.is_some() && !selection.is_full();
    let (rows, next) = selection.into_rows(more_after)?;
    Ok(ProcessList {
        processes: told(alloc, &rows)?,
        next,
        matching,
        seen,
        is_partial,
    })
}

/// A look at one process; none where it was never started.
pub fn process_look<B: NodeBrand, R: Wait>(
    rt: &R,
    alloc: Global,
    shared: &Shared<B>,
    pid: u32,
) -> Result<Option<ProcessLook>, AllocError> {
    let locked = shared.node().lock(rt);
    look_at(alloc, locked.node().debugger(), pid)
}

/// Who lingers in an instance.
#[derive(Drop)]
struct Lingerers {
    count: u64,
    first: Vec<u32>,
    is_whole: bool,
}

/// Who lingers in an instance, among the first 200,000 processes.
fn find_lingerers<B: NodeBrand, R: Wait>(
    rt: &R,
    alloc: Global,
    shared: &Shared<B>,
    instance: InstanceRow,
) -> Result<Lingerers, AllocError> {
    let mut numbers = IndexSet::new(alloc);
    numbers.insert(instance.number)?;
    let mut found = Lingerers {
        count: 0,
        first: Vec::new(alloc),
        is_whole: false,
    };
    for step in 0..(MOST_SEEN / u64::from(STEP)) as u32 {
        let after = step * STEP;
        for pid in &lingering_in_step(rt, alloc, shared, &numbers, after)? {
            found.count = found.count.saturating_add(1);
            if found.first.len() < MOST_NAMED {
                found.first.push(*pid)?;
            }
        }
        if total(counts_step(rt, shared, after)) < STEP {
            found.is_whole = true;
            break;
        }
    }
    Ok(found)
}

/// How many processes were counted.
fn total(census: Census) -> u32 {
    let live = census.running.saturating_add(census.waiting);
    live.saturating_add(census.held)
        .saturating_add(census.ended)
}

/// What is told of a module, and whether all processes were asked whether they linger.
fn told_module<B: NodeBrand, R: Wait>(
    rt: &R,
    alloc: Global,
    shared: &Shared<B>,
    row: &ModuleRow,
) -> Result<(ModuleFacts, bool), AllocError> {
    match row.old {
        Some(old) => {
            let Lingerers {
                count,
                first,
                is_whole,
            } = find_lingerers(rt, alloc, shared, old)?;
            Ok((module_facts(row, count, first)?, is_whole))
        }
        None => Ok((module_facts(row, 0, Vec::new(alloc))?, true)),
    }
}

/// The modules behind the first ones, at most 100, with who lingers in their old instances. It takes time linear in the processes, of which
/// 200,000 are looked at, for each module that has an old instance.
pub fn module_list<B: NodeBrand, R: Wait>(
    rt: &R,
    alloc: Global,
    shared: &Shared<B>,
    after: u32,
) -> Result<ModuleList, AllocError> {
    let rows = modules_step(rt, alloc, shared, after as usize, MOST_MODULES)?;
    let mut modules = Vec::with_capacity(alloc, rows.len())?;
    let mut is_partial = false;
    for row in &rows {
        let (facts, is_whole) = told_module(rt, alloc, shared, row)?;
        is_partial = is_partial || !is_whole;
        modules.push(facts)?;
    }
    let next = if rows.len() == MOST_MODULES {
        Some(u64::from(after).saturating_add(MOST_MODULES as u64))
    } else {
        None
    };
    Ok(ModuleList {
        modules,
        next,
        is_partial,
    })
}
