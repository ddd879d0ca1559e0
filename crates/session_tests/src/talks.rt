//! Sessions with a node that workers share: the replies, and the entries that the seat keeps.

use crate::talking::misses;
use log::Log;
use std::process::Abort;
use std::sync::Wait;
use std::test::*;
use std::thread::Threads;
use std::time::Clock;

/// Each row of sessions has the outcome that it wants.
fn come_to<R: Threads + Wait + Clock + Log + Abort + AllocGlobal + Sync>(
    rt: &R,
    workers: u32,
) -> Result<(), Fail> {
    let misses = misses(rt, rt.alloc(), workers)?;
    assert_eq!(rt; misses.as_str(), "");
    Ok(())
}

#[test]
fn sessions_with_one_worker(rt: HostRuntime) -> Result<(), Fail> {
    come_to(&rt, 1)
}

#[test]
fn sessions_with_two_workers(rt: HostRuntime) -> Result<(), Fail> {
    come_to(&rt, 2)
}

#[test]
fn sessions_with_four_workers(rt: HostRuntime) -> Result<(), Fail> {
    come_to(&rt, 4)
}
