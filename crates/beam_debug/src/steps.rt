//! Rows of a process of a node with a debugger.
ghost use Rattle.std.specs.Prelude.{◌≡◌, ◌<◌, ◌≤◌, false, Some, OnOk, OnErr, vec_capacity};
ghost use Rattle.beam_machine.specs.Debug.{is_among, held_at};
ghost use Rattle.beam_machine.specs.DebugRun.{DebugAnswers, DebugLacksMemory};
ghost use Rattle.beam_machine.specs.Quiet.{IsLoud};
ghost use Rattle.beam_machine.specs.State.{process_of};
ghost use Rattle.beam_debug.specs.Answers.{answer_of, reply_of};
ghost use Rattle.beam_debug.specs.Debugger.{capacity_of};
ghost use Rattle.beam_debug.specs.Halt.{then_at, RowIs};
ghost use Rattle.beam_debug.specs.Loud.{DebugLoudly};
ghost use Rattle.beam_debug.specs.DebuggedNode.{debugged};
ghost use Rattle.beam_debug.specs.Capacity.{HasCapacity, CapacityFor};

use crate::debug_state::{DebugState, live, make_room, pass_on, settle};
use crate::numbers::{is_among, put};
use crate::outcome::Outcome;
use beam_core::node::Core;
use beam_machine::debug::DebugEvent;
use beam_machine::event::{Event, Refused, Reply, Then};
use std::alloc::AllocError;

/// Reserves capacity to hold a process of which `rows` rows are to be executed. Where memory is refused nothing changes.
pub(crate) fn make_room_for(pid: u32, rows: u32, held: &mut Vec<u32>) -> Result<(), AllocError>
    ensures items { held.new.items ≡ held.old.items }
    ensures capacity { OnOk result (0 < rows → pid < vec_capacity held.new) }
    ensures kept { vec_capacity held.old ≤ vec_capacity held.new }
    ensures needed { OnErr result ((0 < rows) × (vec_capacity held.old ≤ pid)) }
    ensures err { OnErr result (vec_capacity held.new ≡ vec_capacity held.old) }
{
    if rows == 0 {
        return Ok(());
    }
    make_room(pid, held)
}

/// Executes rows of a process that runs, at most `rows`. If the next one is that of a break spot, the process is held.
fn run_to_spot(
    core: &mut Core,
    debug: &mut DebugState,
    pid: u32,
    rows: u32,
) -> Result<Outcome, Refused>
    requires runs { then_at core.old pid ≡ Some Then.GoesOn }
    requires free { is_among pid debug.old.held.items ≡ false }
    requires capacity { HasCapacity (debugged core.old debug.old) (capacity_of debug.old) }
    ensures next { DebugAnswers (debugged core.old debug.old) (DebugEvent.Node (Event.Steps pid rows)) (answer_of result) (debugged core.new debug.new) }
    ensures memory { DebugLacksMemory (debugged core.old debug.old) (DebugEvent.Node (Event.Steps pid rows)) (answer_of result) }
    ensures loud { DebugLoudly (debugged core.old debug.old) (DebugEvent.Node (Event.Steps pid rows)) (answer_of result) (debugged core.new debug.new) }
    ensures capacity { capacity_of debug.old ≤ capacity_of debug.new }
    ensures begun { OnOk result (CapacityFor (capacity_of debug.new) (DebugEvent.Node (Event.Steps pid rows))) }
{
    make_room_for(pid, rows, &mut debug.held)?;
    let passes = is_among(pid, &debug.passing);
    let (count, then) = core.rows_before_spots(pid, rows, &debug.spots, passes)?;
    pass_on(count, pid, &mut debug.passing);
    match then {
        Some(then) => {
            settle(core, debug);
            Ok(Outcome::Node(Reply::Ran { count, then }))
        }
        None => {
            put(pid, &mut debug.held);
            settle(core, debug);
            Ok(Outcome::Held { count })
        }
    }
}

/// Executes rows of a process, at most `rows`.
pub(crate) fn steps(
    core: &mut Core,
    debug: &mut DebugState,
    pid: u32,
    rows: u32,
) -> Result<Outcome, Refused>
    requires capacity { HasCapacity (debugged core.old debug.old) (capacity_of debug.old) }
    ensures next { DebugAnswers (debugged core.old debug.old) (DebugEvent.Node (Event.Steps pid rows)) (answer_of result) (debugged core.new debug.new) }
    ensures memory { DebugLacksMemory (debugged core.old debug.old) (DebugEvent.Node (Event.Steps pid rows)) (answer_of result) }
    ensures loud { DebugLoudly (debugged core.old debug.old) (DebugEvent.Node (Event.Steps pid rows)) (answer_of result) (debugged core.new debug.new) }
    ensures capacity { capacity_of debug.old ≤ capacity_of debug.new }
    ensures begun { OnOk result (CapacityFor (capacity_of debug.new) (DebugEvent.Node (Event.Steps pid rows))) }
{
    let Some(process) = live(core, pid) else {
        return Err(Refused::NoProcess);
    };
    if is_among(pid, &debug.held) {
        return Err(Refused::Stopped);
    }
    if process.is_waiting() {
        return Err(Refused::NotReady);
    }
    run_to_spot(core, debug, pid, rows)
}

/// Executes one row of a process that runs, and answers how the process then stands.
fn one_row(core: &mut Core, pid: u32) -> Result<Then, Refused>
    requires { then_at core.old pid ≡ Some Then.GoesOn }
    ensures row { RowIs core.old pid result core.new }
    ensures loud { OnErr result (IsLoud core.old.code (process_of core.old.processes pid)) }
{
    let (_count, then) = core.rows_before_spots(pid, 1, &[], true)?;
    match then {
        Some(then) => Ok(then),
        // There are no break spots.
        None => unreachable!(),
    }
}

/// The answer after rows of a process that is held: it stays held, unless it has ended.
fn held_at(count: u32, then: Then) -> Outcome
    ensures { reply_of result ≡ held_at count then }
{
    match then {
        Then::Ended { reason, value } => Outcome::Node(Reply::Ran {
            count,
            then: Then::Ended { reason, value },
        }),
        Then::GoesOn => Outcome::Held { count },
        Then::Waits => Outcome::Held { count },
    }
}

/// Executes one row of a process that is held.
pub(crate) fn step_one(
    core: &mut Core,
    debug: &mut DebugState,
    pid: u32,
) -> Result<Outcome, Refused>
    ensures next { DebugAnswers (debugged core.old debug.old) (DebugEvent.StepOne pid) (answer_of result) (debugged core.new debug.new) }
    ensures memory { DebugLacksMemory (debugged core.old debug.old) (DebugEvent.StepOne pid) (answer_of result) }
    ensures loud { DebugLoudly (debugged core.old debug.old) (DebugEvent.StepOne pid) (answer_of result) (debugged core.new debug.new) }
    ensures capacity { capacity_of debug.old ≤ capacity_of debug.new }
{
    let Some(process) = live(core, pid) else {
        return Err(Refused::NoProcess);
    };
    if process.is_waiting() {
        return Err(Refused::NotReady);
    }
    if !is_among(pid, &debug.held) {
        return Err(Refused::NotReady);
    }
    let then = one_row(core, pid)?;
    pass_on(1, pid, &mut debug.passing);
    settle(core, debug);
    Ok(held_at(1, then))
}
