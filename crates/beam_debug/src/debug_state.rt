//! The debugger's state, beside its node.
ghost use Rattle.std.specs.Prelude.{◌≡◌, ◌<◌, ◌≤◌, filter, OnOk, OnErr, vec_capacity};
ghost use Rattle.std.specs.Option.{option_copied};
ghost use Rattle.beam_machine.specs.Change.{is_live};
ghost use Rattle.beam_machine.specs.State.{live_process};
ghost use Rattle.beam_machine.specs.Debug.{is_live_process, passes_on, pruned};
ghost use Rattle.beam_debug.specs.Debugger.{capacity_of};
ghost use Rattle.beam_debug.specs.DebuggedNode.{debugged};

use crate::numbers::take_out;
use beam_core::node::Core;
use beam_model::place::Place;
use beam_proc::process::Process;
use std::alloc::AllocError;

/// Break spots, and the processes that are held or may pass a break spot.
pub(crate) struct DebugState {
    pub spots: Vec<Place>,
    /// Its capacity is enough for all processes that have begun.
    pub held: Vec<u32>,
    pub passing: Vec<u32>,
}

impl Drop for DebugState {
    fn drop(self) {
        let DebugState {
            spots: _spots,
            held: _held,
            passing: _passing,
        } = self;
    }
}

/// The process of that number, if it hasn't ended.
pub(crate) fn live(core: &Core, pid: u32) -> Option<&Process>
    ensures { option_copied result ≡ live_process core.now.processes pid }
{
    core.process(pid)?.living()
}

/// Whether there is a process of that number that hasn't ended.
fn is_live_process(core: &Core, pid: u32) -> bool
    ensures { result ≡ is_live_process core.now pid }
{
    live(core, pid).is_some()
}

/// Takes out the places whose instances are gone.
fn settle_spots(core: &Core, spots: &mut Vec<Place>)
    ensures { spots.new.items ≡ filter (λ spot. is_live core.now.code spot.instance) spots.old.items }
{
    let table = core.table();
    spots.retain(move |spot| table.is_live(spot.instance()));
}

/// Takes out the processes that have ended.
fn settle_pids(core: &Core, pids: &mut Vec<u32>)
    ensures items { pids.new.items ≡ filter (is_live_process core.now) pids.old.items }
    ensures capacity { vec_capacity pids.new ≡ vec_capacity pids.old }
{
    pids.retain(move |pid| is_live_process(core, *pid));
}

/// Takes out the places and processes that are gone.
pub(crate) fn settle(core: &Core, debug: &mut DebugState)
    ensures debug { debugged core.now debug.new ≡ pruned (debugged core.now debug.old) }
    ensures capacity { capacity_of debug.new ≡ capacity_of debug.old }
{
    settle_spots(core, &mut debug.spots);
    settle_pids(core, &mut debug.held);
    settle_pids(core, &mut debug.passing);
}

/// Reserves capacity to hold the process of that number, and those below it. Where memory is refused nothing changes.
pub(crate) fn make_room(pid: u32, held: &mut Vec<u32>) -> Result<(), AllocError>
    ensures items { held.new.items ≡ held.old.items }
    ensures capacity { OnOk result (pid < vec_capacity held.new) }
    ensures kept { vec_capacity held.old ≤ vec_capacity held.new }
    ensures needed { OnErr result (vec_capacity held.old ≤ pid) }
    ensures err { OnErr result (vec_capacity held.new ≡ vec_capacity held.old) }
{
    let number = pid as usize;
    if held.capacity() <= number {
        held.reserve(number + 1)?;
    }
    Ok(())
}

/// Takes away a process's leave to pass a break spot, if it has executed a row.
pub(crate) fn pass_on(count: u32, pid: u32, passing: &mut Vec<u32>)
    ensures { passing.new.items ≡ passes_on count pid passing.old.items }
{
    if count > 0 {
        take_out(pid, passing);
    }
}
