//! Commands of the debugger that run nothing.
ghost use Rattle.std.specs.Prelude.{◌≡◌, ◌≤◌};
ghost use Rattle.beam_debug.specs.Answers.{change_answer, release_answer};
ghost use Rattle.beam_debug.specs.Debugger.{capacity_of};
ghost use Rattle.beam_machine.specs.DebugRun.{DebugAnswers, DebugLacksMemory};
ghost use Rattle.beam_debug.specs.DebuggedNode.{debugged};

use crate::debug_state::{DebugState, live, settle};
use crate::spot::place_named;
use crate::{numbers, places};
use beam_core::node::Core;
use beam_machine::debug::{DebugEvent, Spot};
use beam_machine::event::Refused;
use beam_rows::spots::is_spot;

/// Sets a break spot: processes stop before that row from now on. It takes memory only where none was set there. Tells whether it is new.
pub(crate) fn set_break(core: &Core, debug: &mut DebugState, spot: &Spot) -> Result<bool, Refused>
    ensures next { DebugAnswers (debugged core.now debug.old) (DebugEvent.SetBreak spot.now) (change_answer result) (debugged core.now debug.new) }
    ensures memory { DebugLacksMemory (debugged core.now debug.old) (DebugEvent.SetBreak spot.now) (change_answer result) }
    ensures capacity { capacity_of debug.new ≡ capacity_of debug.old }
{
    let Some(place) = place_named(core.table(), spot) else {
        return Err(Refused::BadSpot);
    };
    let is_new = !is_spot(place, &debug.spots);
    places::put(place, &mut debug.spots)?;
    settle(core, debug);
    Ok(is_new)
}

/// Clears a break spot: processes stop before that row no longer. Tells whether one was set.
pub(crate) fn clear_break(core: &Core, debug: &mut DebugState, spot: &Spot) -> Result<bool, Refused>
    ensures next { DebugAnswers (debugged core.now debug.old) (DebugEvent.ClearBreak spot.now) (change_answer result) (debugged core.now debug.new) }
    ensures memory { DebugLacksMemory (debugged core.now debug.old) (DebugEvent.ClearBreak spot.now) (change_answer result) }
    ensures capacity { capacity_of debug.new ≡ capacity_of debug.old }
{
    let Some(place) = place_named(core.table(), spot) else {
        return Err(Refused::BadSpot);
    };
    let was_set = is_spot(place, &debug.spots);
    places::take_out(place, &mut debug.spots);
    settle(core, debug);
    Ok(was_set)
}

/// Resumes a held process, which may pass a break spot then. It takes memory only where the process may not pass one yet.
pub(crate) fn resume(core: &Core, debug: &mut DebugState, pid: u32) -> Result<(), Refused>
    ensures next { DebugAnswers (debugged core.now debug.old) (DebugEvent.Resume pid) (release_answer result) (debugged core.now debug.new) }
    ensures memory { DebugLacksMemory (debugged core.now debug.old) (DebugEvent.Resume pid) (release_answer result) }
    ensures capacity { capacity_of debug.new ≡ capacity_of debug.old }
{
    if live(core, pid).is_none() {
        return Err(Refused::NoProcess);
    }
    if !numbers::is_among(pid, &debug.held) {
        return Err(Refused::NotReady);
    }
    numbers::try_put(pid, &mut debug.passing)?;
    numbers::take_out(pid, &mut debug.held);
    settle(core, debug);
    Ok(())
}
