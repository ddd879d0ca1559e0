//! Processes that start, name, look up, end and catch each other while their code changes.
use crate::scenario::Scenario;
use crate::shared::play_here;
use node_testing::commands::Argument::Integer;
use node_testing::commands::Commands;
use node_testing::listings::{CHILD, PARENT};
use std::alloc::Global;
use std::process::Abort;
use std::sync::Wait;
use std::test::*;
use std::thread::Threads;
use std::time::Clock;

/// How many processes start others, and how many each of them starts.
const PARENTS: u32 = 20;

const CHILDREN: u32 = 10;

/// A change of the children's module: soft purge, load, purge, deletion and load, in turn.
fn change_children(commands: Commands, parent: u32) -> Commands {
    match parent % 5 {
        0 => commands.soft_purge("b"),
        2 => commands.purge("b"),
        3 => commands.delete("b"),
        _ => commands.load(CHILD),
    }
}

/// A change of the parents' module: one load, and otherwise soft purges, so that no parent is killed.
fn change_parents(commands: Commands, parent: u32) -> Commands {
    match parent {
        10 => commands.load(PARENT),
        _ => commands.soft_purge("a"),
    }
}

/// Parents start, and after each start the code of both modules changes.
pub fn crowd(alloc: Global) -> Scenario {
    let mut then = Commands::new(alloc);
    for parent in 0..PARENTS {
        then = then.spawn("a", "main", &[Integer(CHILDREN)]);
        then = change_parents(change_children(then, parent), parent);
    }
    let first = Commands::new(alloc).load(PARENT).load(CHILD);
    Scenario::with_barrier(first, (0, 0), then, PARENTS * (1 + CHILDREN))
}

/// Plays a crowd with `workers` workers. Its code changes as often as it should, and the journal leads to the state of the processes at the
/// end.
fn crowded<R: Threads + Wait + Clock + Sync + Abort + AllocGlobal>(
    rt: &R,
    workers: u32,
) -> Result<(), Fail> {
    let played = play_here(rt, workers, crowd(rt.alloc()))?;
    assert_eq!(rt; (played.counts.changes, played.replays), (42, true));
    Ok(())
}

#[test]
fn a_crowd_with_one_worker(rt: HostRuntime) -> Result<(), Fail> {
    crowded(&rt, 1)
}

#[test]
fn a_crowd_with_four_workers(rt: HostRuntime) -> Result<(), Fail> {
    crowded(&rt, 4)
}

#[test]
fn a_crowd_with_sixty_four_workers(rt: HostRuntime) -> Result<(), Fail> {
    crowded(&rt, 64)
}
