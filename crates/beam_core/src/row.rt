//! Rows of a process.
ghost use Rattle.std.specs.Prelude.{◌≡◌, ◌<◌, Some};
ghost use Rattle.beam_rows.specs.Asked.{asked};
ghost use Rattle.beam_rows.specs.Finds.{AlwaysFinds};
ghost use Rattle.beam_rows.specs.Private.{LeadsTo};
ghost use Rattle.beam_rows.specs.Spots.{ClearRows, Halts};
ghost use Rattle.beam_state.specs.Asking.{Responds};
ghost use Rattle.beam_shape_laws.specs.Shaped.{IsFramedNode};
ghost use Rattle.beam_state.specs.Parts.{node, then_at};
ghost use Rattle.beam_core.specs.Rows.{CanAsk, PrivateRows, RowsAre};

use beam_codesrv::CodeTable;
use beam_machine::event::Then;
use beam_machine::process::Status;
use beam_model::place::Place;
use beam_proc::process::Process;
use beam_rows::request::Request;
use beam_rows::run::{Ran, StopReason, rows_before_spots};
use beam_state::state::State;
use std::alloc::AllocError;

/// Responds to what a row asks of the node. Where memory is refused nothing changes.
pub(crate) fn respond(state: &mut State, pid: u32, request: Request) -> Result<Then, AllocError>
    requires runs { then_at state.old.processes pid ≡ Some Then.GoesOn }
    requires can { CanAsk pid request state.old.processes }
    ensures { Responds state.old pid (λ p. asked p request) result state.new }
{
    match request {
        Request::Sleep {
            milliseconds,
            at,
            next,
        } => state.sleep(pid, milliseconds, at, next),
        Request::Send { to, next } => state.send_on(pid, to, next),
        Request::Ask {
            native,
            arity,
            after,
        } => state.ask(pid, native, arity, after),
        Request::AskDropping {
            dropped,
            native,
            arity,
        } => state.ask_dropping(pid, dropped, native, arity),
    }
}

/// Executes private rows of a process that runs.
fn private(
    code: &CodeTable,
    state: &mut State,
    spots: &[Place],
    passes: bool,
    pid: u32,
    limit: u32,
) -> Ran
    requires runs { then_at state.old.processes pid ≡ Some Then.GoesOn }
    requires framed { IsFramedNode (node code.now state.old) }
    ensures { PrivateRows code.now spots.now passes pid limit state.old result.count result.stop state.new }
{
    state.change(
        pid,
        |process: &mut Process| -> Ran
            requires runs { process.old.status ≡ Status.Running }
            requires finds { AlwaysFinds code.now process.old }
            ensures rows { LeadsTo code.entry.now result.count process.old process.new }
            ensures clear { ClearRows code.entry.now spots.entry.now passes result.count process.old }
            ensures stop { Halts code.entry.now spots.entry.now passes limit result.count result.stop process.new }
        { rows_before_spots(code, spots, passes, process, limit) },
    )
}

/// How many rows were executed, and how the process stands, `None` where it stops before the row of a break spot; or that memory was
/// refused for the next row.
#[derive(Drop)]
pub(crate) struct RowsDone {
    pub count: u32,
    pub then: Result<Option<Then>, AllocError>,
}

fn did(count: u32, then: Result<Option<Then>, AllocError>) -> RowsDone
    ensures { result ≡ record { count = count; then = then } }
{
    RowsDone { count, then }
}

/// Executes rows of a process that runs: those that concern it alone, and then the one that ends it or asks something of the node. Where
/// memory is refused for a row, it isn't a quiet one, and nothing of it is executed.
pub(crate) fn some_rows(
    code: &CodeTable,
    state: &mut State,
    spots: &[Place],
    passes: bool,
    pid: u32,
    limit: u32,
) -> RowsDone
    requires runs { then_at state.old.processes pid ≡ Some Then.GoesOn }
    requires framed { IsFramedNode (node code.now state.old) }
    requires some { 0 < limit }
    ensures { RowsAre code.now spots.now passes pid limit state.old result.count result.then state.new }
{
    let Ran { count, stop } = private(code, state, spots, passes, pid, limit);
    match stop {
        StopReason::AtLimit => did(count, Ok(Some(Then::GoesOn))),
        StopReason::Waits => did(count, Ok(Some(Then::Waits))),
        StopReason::Ends { reason, value } => match state.end(pid, reason, value) {
            Ok(then) => did(count + 1, Ok(Some(then))),
            Err(refused) => did(count, Err(refused)),
        },
        StopReason::AtSpot => did(count, Ok(None)),
        StopReason::Refused => did(count, Err(AllocError)),
        StopReason::Asks(request) => match respond(state, pid, request) {
            Ok(then) => did(count + 1, Ok(Some(then))),
            Err(refused) => did(count, Err(refused)),
        },
    }
}
