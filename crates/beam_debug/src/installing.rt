//! Rows of a process that were executed apart from the node take effect in a node with a debugger.
ghost use Rattle.std.specs.Prelude.{◌≡◌, ◌+◌, ◌<◌, ◌≤◌, ◌^◌, Ok, IfOk, IfErr, OnOk, OnErr};
ghost use Rattle.beam_machine.specs.Debug.{debug_next};
ghost use Rattle.beam_laws.specs.Slice.{rows_of_event};
ghost use Rattle.beam_core.specs.Installing.{node_rows};
ghost use Rattle.beam_debug.specs.Answers.{reply_of};
ghost use Rattle.beam_debug.specs.Debugger.{capacity_of};
ghost use Rattle.beam_debug.specs.Installing.{AreSlices, IsQuietSlice};
ghost use Rattle.beam_debug.specs.DebuggedNode.{debugged};
ghost use Rattle.beam_debug.specs.Capacity.{HasCapacity};

use crate::debug_state::{DebugState, make_room, pass_on, settle};
use crate::numbers::put;
use crate::outcome::Outcome;
use beam_core::node::Core;
use beam_machine::debug::DebugEvent;
use beam_machine::event::{Event, Refused, Reply};
use beam_proc::private::{End, Private};

/// How many rows are executed in all, with the row of the node before which they end.
fn rows_done(rows: &Private) -> u32
    requires { rows.now.count + 1 < 2 ^ 32 }
    ensures { result ≡ rows.now.count + node_rows rows.now.end }
{
    match rows.end {
        End::AtLimit => rows.count,
        End::AfterRow => rows.count,
        End::BeforeNodeRow => rows.count + 1,
        End::AtSpot => rows.count,
    }
}

/// Rows of a process that were executed apart from the node take effect. Where memory is refused nothing changes.
pub(crate) fn install(
    core: &mut Core,
    debug: &mut DebugState,
    pid: u32,
    rows: Private,
) -> Result<Outcome, Refused>
    requires rows { AreSlices (debugged core.old debug.old) pid rows }
    requires few { rows.count + 1 < 2 ^ 32 }
    requires capacity { HasCapacity (debugged core.old debug.old) (capacity_of debug.old) }
    ensures next { IfOk result (λ outcome. debug_next (debugged core.old debug.old) (DebugEvent.Node (Event.Steps pid (rows_of_event rows)))
        ≡ record { answer = Ok (reply_of outcome); state = debugged core.new debug.new }) }
    ensures err { OnErr result (debugged core.new debug.new ≡ debugged core.old debug.old) }
    ensures refused { IfErr result (λ refused. refused ≡ Refused.NoMemory) }
    ensures quiet { IsQuietSlice pid rows (capacity_of debug.old) → OnErr result ⊥ }
    ensures capacity { capacity_of debug.old ≤ capacity_of debug.new }
    ensures begun { OnOk result (pid < capacity_of debug.new) }
{
    let end = rows.end;
    let count = rows_done(&rows);
    make_room(pid, &mut debug.held)?;
    let then = core.install(pid, rows)?;
    pass_on(count, pid, &mut debug.passing);
    if let End::AtSpot = end {
        put(pid, &mut debug.held);
        settle(core, debug);
        return Ok(Outcome::Held { count });
    }
    settle(core, debug);
    Ok(Outcome::Node(Reply::Ran { count, then }))
}
