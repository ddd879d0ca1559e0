//! Rows of a slice.
ghost use Rattle.std.specs.Prelude.{◌≡◌, ◌==◌, ◌++◌, if◌then◌else◌, [], ◌∷◌, Some, OnOk, OnErr};
ghost use Rattle.beam_machine.specs.declared.process.Signal.TheVariants.{Message};
ghost use Rattle.beam_machine.specs.Process.{put_x, read_x};
ghost use Rattle.beam_machine.specs.Row.{goes_on};
ghost use Rattle.beam_rows.specs.Finds.{AlwaysFinds};
ghost use Rattle.beam_step.specs.Slices.{DoesRows, Responds};

use crate::cause::Cause;
use beam_codesrv::CodeTable;
use beam_machine::process::{Signal, Status};
use beam_model::place::Place;
use beam_proc::private::Sent;
use beam_proc::process::Process;
use beam_rows::request::Request;
use beam_rows::run::{Ran, StopReason, rows_before_spots};
use beam_term::Term;
use std::alloc::AllocError;

/// What was executed of the next row.
#[derive(Clone, Copy, Debug, PartialEq, Eq)]
pub enum Did {
    ARow,
    /// The row asks something of the node.
    Nothing,
}

/// How many rows were executed, and why they end, if no more may follow.
#[derive(Clone, Copy, Debug)]
pub struct RowBatch {
    pub count: u32,
    pub end: Option<Cause>,
}

fn ended(count: u32, end: Cause) -> RowBatch
    ensures { result ≡ record { count = count; end = Some end } }
{
    RowBatch {
        count,
        end: Some(end),
    }
}

/// The rows' end after a row after which the process doesn't run: at the limit, or after that row.
fn after_row(count: u32, limit: u32) -> RowBatch
    ensures { result ≡ record { count = count; end = Some (if count == limit then Cause.AtLimit else Cause.AfterRow) } }
{
    if count == limit {
        ended(count, Cause::AtLimit)
    } else {
        ended(count, Cause::AfterRow)
    }
}

/// A process sends x1 and goes on with it in x0. Where memory is refused nothing changes.
fn send(process: &mut Process, sent: &mut Vec<Sent>, to: u32, next: Place) -> Result<(), AllocError>
    requires { process.old.status ≡ Status.Running }
    ensures process { OnOk result (process.new ≡ goes_on (put_x process.old 0 (read_x process.old.x 1)) next) }
    ensures sent { OnOk result (sent.new.items ≡ sent.old.items ++ record { to = to; signal = Message (read_x process.old.x 1) } ∷ []) }
    ensures err { OnErr result ((process.new ≡ process.old) × (sent.new.items ≡ sent.old.items)) }
{
    sent.reserve(1)?;
    let nil = Term::nil();
    let message = process.read_x(&nil, 1).clone()?;
    let value = message.clone()?;
    let _stepped = process.step_with(next, value)?;
    sent.push_reserved(Sent {
        to,
        signal: Signal::Message(message),
    });
    Ok(())
}

/// Executes a request that is a message to be sent, without the node. Any other is left to the node, and nothing changes.
fn respond(process: &mut Process, sent: &mut Vec<Sent>, request: Request) -> Result<Did, AllocError>
    requires { process.old.status ≡ Status.Running }
    ensures { Responds process.old sent.old.items request result process.new sent.new.items }
{
    match request {
        Request::Send { to, next } => {
            send(process, sent, to, next)?;
            Ok(Did::ARow)
        }
        _ => Ok(Did::Nothing),
    }
}

/// Executes private rows of a process that runs, up to a break spot's, at most `limit`, and then the row after them if it ends the process
/// or sends a message.
pub fn some_rows(
    code: &CodeTable,
    spots: &[Place],
    passes: bool,
    process: &mut Process,
    sent: &mut Vec<Sent>,
    limit: u32,
) -> RowBatch
    requires runs { process.old.status ≡ Status.Running }
    requires finds { AlwaysFinds code.now process.old }
    ensures { DoesRows spots.now passes code.now limit process.old sent.old.items result.count result.end process.new sent.new.items }
{
    let Ran { count, stop } = rows_before_spots(code, spots, passes, process, limit);
    match stop {
        StopReason::AtLimit => ended(count, Cause::AtLimit),
        StopReason::Waits => after_row(count, limit),
        StopReason::Ends { reason, value } => {
            process.end(reason, value);
            after_row(count + 1, limit)
        }
        StopReason::AtSpot => ended(count, Cause::AtSpot),
        StopReason::Refused => ended(count, Cause::WantOfMemory),
        StopReason::Asks(request) => match respond(process, sent, request) {
            Ok(Did::ARow) => RowBatch {
                count: count + 1,
                end: None,
            },
            Ok(Did::Nothing) => ended(count, Cause::BeforeNodeRow),
            Err(_) => ended(count, Cause::WantOfMemory),
        },
    }
}
