//! Rows of a process in a turn that is to be short, where no break spots are set.
ghost use Rattle.std.specs.Prelude.{◌≡◌, ◌<◌, ◌≤◌, false, [], Some, IfOk, OnSome};
ghost use Rattle.beam_machine.specs.Debug.{is_among};
ghost use Rattle.beam_debug.specs.Debugger.{capacity_of};
ghost use Rattle.beam_debug.specs.Halt.{then_at};
ghost use Rattle.beam_debug.specs.DebuggedNode.{debugged};
ghost use Rattle.beam_debug.specs.Short.{ShortAnswers, ShortHalts};

use crate::debug_state::{DebugState, live, pass_on, settle};
use crate::numbers::is_among;
use crate::steps::make_room_for;
use beam_core::node::Core;
use beam_machine::event::{Refused, Then};
use beam_model::place::Place;

/// Executes rows of a process that runs, at most `limit`, and none that may take long. None of the break spots is the next row, since there
/// are none.
fn rows_before_spots(
    core: &mut Core,
    spots: &[Place],
    passes: bool,
    pid: u32,
    limit: u32,
    has_moment: bool,
) -> Result<Option<(u32, Then)>, Refused>
    requires runs { then_at core.old pid ≡ Some Then.GoesOn }
    requires none { spots.now ≡ [] }
    ensures { ShortHalts spots.now passes pid core.old result core.new }
{
    let (_spots, _passes) = (spots, passes);
    core.short_rows(pid, limit, has_moment)
}

/// Executes rows of a process that runs, at most `limit`, and none that may take long.
fn run_short(
    core: &mut Core,
    debug: &mut DebugState,
    pid: u32,
    limit: u32,
    has_moment: bool,
) -> Result<Option<(u32, Then)>, Refused>
    requires runs { then_at core.old pid ≡ Some Then.GoesOn }
    requires free { is_among pid debug.old.held.items ≡ false }
    requires none { debug.old.spots.items ≡ [] }
    requires some { 0 < limit }
    ensures next { ShortAnswers (debugged core.old debug.old) pid result (debugged core.new debug.new) }
    ensures capacity { capacity_of debug.old ≤ capacity_of debug.new }
    ensures begun { IfOk result (λ done. OnSome done (pid < capacity_of debug.new)) }
{
    make_room_for(pid, limit, &mut debug.held)?;
    let passes = is_among(pid, &debug.passing);
    match rows_before_spots(core, &debug.spots, passes, pid, limit, has_moment)? {
        None => Ok(None),
        Some((count, then)) => {
            pass_on(count, pid, &mut debug.passing);
            settle(core, debug);
            Ok(Some((count, then)))
        }
    }
}

/// Executes rows of a process, as `Debugger::short_steps` says.
pub(crate) fn short_steps(
    core: &mut Core,
    debug: &mut DebugState,
    pid: u32,
    limit: u32,
    has_moment: bool,
) -> Result<Option<(u32, Then)>, Refused>
    requires { 0 < limit }
    ensures next { ShortAnswers (debugged core.old debug.old) pid result (debugged core.new debug.new) }
    ensures capacity { capacity_of debug.old ≤ capacity_of debug.new }
    ensures begun { IfOk result (λ done. OnSome done (pid < capacity_of debug.new)) }
{
    if !debug.spots.is_empty() || is_among(pid, &debug.held) {
        return Ok(None);
    }
    match live(core, pid) {
        Some(process) if !process.is_waiting() => run_short(core, debug, pid, limit, has_moment),
        _ => Ok(None),
    }
}
