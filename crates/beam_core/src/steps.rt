//! Rows of a process, one after another.
ghost use Rattle.std.specs.Prelude.{◌≡◌, ◌<◌, Some, OnErr};
ghost use Rattle.beam_machine.specs.Run.{Answers};
ghost use Rattle.beam_machine.specs.Quiet.{StopsLoudly, LacksMemory};
ghost use Rattle.beam_shape_laws.specs.Shaped.{IsFramedNode};
ghost use Rattle.beam_state.specs.Parts.{node, then_at};
ghost use Rattle.beam_core.specs.Halt.{HaltsAt, HaltsLoudly};

use crate::row::{RowsDone, some_rows};
use beam_codesrv::CodeTable;
use beam_machine::event::{Event, Refused, Reply, Then};
use beam_model::place::Place;
use beam_state::state::State;

/// Executes rows of a process that runs: at most `limit`, until it waits or ends, its next row is that of a break spot, which it may pass
/// as its first if `passes`, or memory is refused after a first row. Where memory is refused for the first row, nothing changes. It isn't
/// refused for a quiet row.
pub(crate) fn run_rows(
    code: &CodeTable,
    state: &mut State,
    spots: &[Place],
    passes: bool,
    pid: u32,
    limit: u32,
) -> Result<(u32, Option<Then>), Refused>
    requires runs { then_at state.old.processes pid ≡ Some Then.GoesOn }
    requires framed { IsFramedNode (node code.now state.old) }
    ensures halts { HaltsAt spots.now passes pid limit (node code.now state.old) result (node code.now state.new) }
    ensures loud { HaltsLoudly pid limit (node code.now state.old) result (node code.now state.new) }
    ensures memory { OnErr result (0 < limit) }
{
    let mut count = 0;
    let mut passing = passes;
    while count < limit {
        let done = some_rows(code, state, spots, passing, pid, limit - count);
        let RowsDone { count: more, then } = done;
        count += more;
        passing = false;
        match then {
            Ok(Some(Then::GoesOn)) => {}
            Ok(Some(Then::Waits)) => return Ok((count, Some(Then::Waits))),
            Ok(Some(Then::Ended { reason, value })) => {
                return Ok((count, Some(Then::Ended { reason, value })));
            }
            Ok(None) => return Ok((count, None)),
            Err(refused) if count == 0 => return Err(Refused::from(refused)),
            Err(_) => return Ok((count, Some(Then::GoesOn))),
        }
    }
    Ok((limit, Some(Then::GoesOn)))
}

/// Executes rows of a process: at most `rows`, until it waits or ends, or memory is refused.
pub(crate) fn steps(
    code: &CodeTable,
    state: &mut State,
    pid: u32,
    rows: u32,
) -> Result<Reply, Refused>
    requires { IsFramedNode (node code.now state.old) }
    ensures next { Answers (node code.now state.old) (Event.Steps pid rows) result (node code.now state.new) }
    ensures memory { LacksMemory (node code.now state.old) (Event.Steps pid rows) result (node code.now state.new) }
    ensures loud { StopsLoudly (node code.now state.old) (Event.Steps pid rows) result (node code.now state.new) }
{
    let Some(process) = state.live(pid) else {
        return Err(Refused::NoProcess);
    };
    if process.is_waiting() {
        return Err(Refused::NotReady);
    }
    let (count, then) = run_rows(code, state, &[], false, pid, rows)?;
    match then {
        Some(then) => Ok(Reply::Ran { count, then }),
        // There are no break spots.
        None => unreachable!(),
    }
}
