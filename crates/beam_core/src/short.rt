//! Rows of a process in a turn that is to be short.
ghost use Rattle.std.specs.Prelude.{◌≡◌, ◌≤◌, false, [], Some};
ghost use Rattle.beam_rows.specs.Finds.{AlwaysFinds};
ghost use Rattle.beam_rows.specs.Private.{LeadsTo};
ghost use Rattle.beam_rows.specs.Short.{asked_for};
ghost use Rattle.beam_rows.specs.Spots.{ClearRows, Halts};
ghost use Rattle.beam_shape_laws.specs.Shaped.{IsFramedNode};
ghost use Rattle.beam_state.specs.Parts.{node, then_at};
ghost use Rattle.beam_core.specs.Halt.{ShortHaltsAt};
ghost use Rattle.beam_core.specs.Rows.{PrivateRows, SomeRowsAre};

use crate::row::respond;
use beam_codesrv::CodeTable;
use beam_machine::event::{Refused, Then};
use beam_machine::process::Status;
use beam_proc::process::Process;
use beam_rows::run::{Ran, StopReason};
use beam_rows::short;
use beam_state::state::State;
use std::alloc::AllocError;

/// Executes private rows of a process that runs, and stops before one that may take long.
fn private(code: &CodeTable, state: &mut State, pid: u32, limit: u32, has_moment: bool) -> Ran
    requires runs { then_at state.old.processes pid ≡ Some Then.GoesOn }
    requires framed { IsFramedNode (node code.now state.old) }
    ensures most { result.count ≤ limit }
    ensures rows { PrivateRows code.now [] false pid (asked_for limit result.count result.stop) state.old result.count result.stop state.new }
{
    state.change(
        pid,
        |process: &mut Process| -> Ran
            requires runs { process.old.status ≡ Status.Running }
            requires finds { AlwaysFinds code.now process.old }
            ensures most { result.count ≤ limit }
            ensures rows { LeadsTo code.entry.now result.count process.old process.new }
            ensures clear { ClearRows code.entry.now [] false result.count process.old }
            ensures stop { Halts code.entry.now [] false (asked_for limit result.count result.stop) result.count result.stop process.new }
        { short::short_rows(code, process, limit, has_moment) },
    )
}

/// How many rows were executed, and how the process stands; or that memory was refused for the next row.
#[derive(Drop)]
struct ShortRowsDone {
    count: u32,
    then: Result<Then, AllocError>,
}

fn did(count: u32, then: Result<Then, AllocError>) -> ShortRowsDone
    ensures { result ≡ record { count = count; then = then } }
{
    ShortRowsDone { count, then }
}

/// Executes rows of a process that runs: those that concern it alone, and then the one that ends it or asks something of the node. It stops
/// before a row that may take long.
fn some_rows(
    code: &CodeTable,
    state: &mut State,
    pid: u32,
    limit: u32,
    has_moment: bool,
) -> ShortRowsDone
    requires runs { then_at state.old.processes pid ≡ Some Then.GoesOn }
    requires framed { IsFramedNode (node code.now state.old) }
    ensures { SomeRowsAre code.now pid limit state.old result.count result.then state.new }
{
    let Ran { count, stop } = private(code, state, pid, limit, has_moment);
    match stop {
        StopReason::AtLimit => did(count, Ok(Then::GoesOn)),
        StopReason::Waits => did(count, Ok(Then::Waits)),
        StopReason::Ends { reason, value } => match state.end(pid, reason, value) {
            Ok(then) => did(count + 1, Ok(then)),
            Err(refused) => did(count, Err(refused)),
        },
        // There are no break spots.
        StopReason::AtSpot => unreachable!(),
        StopReason::Refused => did(count, Err(AllocError)),
        StopReason::Asks(request) => match respond(state, pid, request) {
            Ok(then) => did(count + 1, Ok(then)),
            Err(refused) => did(count, Err(refused)),
        },
    }
}

/// Executes rows of a process that runs: at most `limit`, until it waits or ends, its next row may take long, or memory is refused after a
/// first row. Answers how many, and how the process stands; `None` where its first row may take long. Then, and where memory is refused for
/// the first row, nothing changes. A wait with a timeout begins only where `has_moment`.
pub(crate) fn short_rows(
    code: &CodeTable,
    state: &mut State,
    pid: u32,
    limit: u32,
    has_moment: bool,
) -> Result<Option<(u32, Then)>, Refused>
    requires runs { then_at state.old.processes pid ≡ Some Then.GoesOn }
    requires framed { IsFramedNode (node code.now state.old) }
    ensures { ShortHaltsAt pid (node code.now state.old) result (node code.now state.new) }
{
    let mut count = 0;
    while count < limit {
        let done = some_rows(code, state, pid, limit - count, has_moment);
        let ShortRowsDone { count: more, then } = done;
        count += more;
        match then {
            Ok(Then::GoesOn) if more > 0 => {}
            Ok(Then::GoesOn) if count == 0 => return Ok(None),
            Ok(then) => return Ok(Some((count, then))),
            Err(refused) if count == 0 => return Err(Refused::from(refused)),
            Err(_) => return Ok(Some((count, Then::GoesOn))),
        }
    }
    Ok(Some((count, Then::GoesOn)))
}
