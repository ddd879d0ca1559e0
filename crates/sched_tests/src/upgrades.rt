//! Processes whose modules are upgraded together while they run.
use crate::scenario::Scenario;
use crate::shared::play_seen;
use beam_machine::event::UpgradeMode;
use node_testing::commands::Argument::Integer;
use node_testing::commands::Commands;
use node_testing::listings::{SEEKER, version};
use std::alloc::Global;
use std::test::*;

/// How many processes ask for versions.
const SEEKERS: u32 = 6;

/// How often each of them asks once both modules are new.
const LOOKS: u32 = 2_000;

/// Processes that ask two modules for their versions again and again, and an upgrade of both modules.
fn upgrade(alloc: Global) -> Result<Scenario, Fail> {
    let one = version(alloc, "u", 1)?;
    let other = version(alloc, "v", 1)?;
    let news = [version(alloc, "u", 2)?, version(alloc, "v", 2)?];
    let first = Commands::new(alloc).load(&one).load(&other).load(SEEKER);
    let first = first.spawn_many(SEEKERS, "p", "seek", &[Integer(LOOKS)]);
    let then = Commands::new(alloc).atomic_load(UpgradeMode::Strict, &news);
    Ok(Scenario::with_barrier(first, (0, 0), then, SEEKERS))
}

/// Each process ends with the greatest version that it met, or with `mixed` if it met a lesser one after that. All end with 2.
#[test]
fn processes_meet_no_old_module_beside_a_new_one(rt: HostRuntime) -> Result<(), Fail> {
    let seen =
        "pid 1 ended 2\npid 2 ended 2\npid 3 ended 2\npid 4 ended 2\npid 5 ended 2\npid 6 ended 2\n";
    let (played, is_seen) = play_seen(&rt, 4, upgrade(rt.alloc())?, seen)?;
    assert!(rt; is_seen && played.replays);
    Ok(())
}
