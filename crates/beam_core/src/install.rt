//! Rows of a process that were executed apart from the node take effect in it.
ghost use Rattle.std.specs.Prelude.{◌≡◌, false, [], ◌++◌, Some, MatchOption, IfOk, IfErr, OnOk, OnErr};
ghost use Rattle.beam_machine.specs.Next.{steps};
ghost use Rattle.beam_machine.specs.Process.{is_ended, then_of};
ghost use Rattle.beam_laws.specs.Private.{posted_all};
ghost use Rattle.beam_shape_laws.specs.Shaped.{IsFramedNode};
ghost use Rattle.beam_state.specs.Parts.{node, then_at, with_processes};
ghost use Rattle.beam_core.specs.Installing.{AreRowsOf, Installed, AreQuiet, is_end, notices_at};

use crate::steps::run_rows;
use beam_codesrv::CodeTable;
use beam_machine::event::{Refused, Then};
use beam_machine::process::Status;
use beam_proc::private::{End, Private, Sent};
use beam_proc::process::Process;
use beam_state::state::State;
use std::alloc::AllocError;

/// How a process stands. It takes memory only if the process has ended.
fn standing(process: &Process) -> Result<Then, AllocError>
    ensures then { IfOk result (λ then. then ≡ then_of process.now.status) }
    ensures quiet { is_ended process.now.status ≡ false → OnErr result ⊥ }
{
    match process.status() {
        Status::Running => Ok(Then::GoesOn),
        Status::Waiting => Ok(Then::Waits),
        Status::Ended { reason, value } => Ok(Then::Ended {
            reason: reason.clone()?,
            value: value.clone()?,
        }),
    }
}

/// The DOWNs that all others are sent if the process has ended; `None` if it hasn't.
fn notices(state: &State, pid: u32, then: &Then) -> Result<Option<Vec<Sent>>, AllocError>
    ensures ok { IfOk result (λ sent. MatchOption sent (notices_at pid then.now state.now.processes ≡ [])
        (λ sent. sent.items ≡ notices_at pid then.now state.now.processes)) }
    ensures quiet { is_end then.now ≡ false → OnErr result ⊥ }
{
    match then {
        Then::Ended { reason, value: _ } => Ok(Some(state.notices(pid, reason)?)),
        Then::GoesOn | Then::Waits => Ok(None),
    }
}

/// Posts the signals that rows of a process sent, and then, if the process has ended, the DOWNs of its end. Where memory is refused nothing
/// changes.
fn tell(state: &mut State, pid: u32, sent: &[Sent], then: &Then) -> Result<(), AllocError>
    ensures ok { OnOk result (state.new ≡ with_processes state.old
        (posted_all state.old.processes (sent.now ++ notices_at pid then.now state.old.processes))) }
    ensures err { OnErr result (state.new ≡ state.old) }
    ensures quiet { sent.now ≡ [] → is_end then.now ≡ false → OnErr result ⊥ }
{
    let notices = notices(state, pid, then)?;
    state.post_all(sent)?;
    let Some(notices) = notices else {
        return Ok(());
    };
    match state.post_all(&notices) {
        Ok(()) => Ok(()),
        Err(refused) => {
            state.take_all_back(sent);
            Err(refused)
        }
    }
}

/// Executes one row of a process that runs, and answers how the process then stands.
fn one_row(code: &CodeTable, state: &mut State, pid: u32) -> Result<Then, Refused>
    requires runs { then_at state.old.processes pid ≡ Some Then.GoesOn }
    requires framed { IsFramedNode (node code.now state.old) }
    ensures ok { IfOk result (λ then. (steps (node code.now state.old) pid 1 ≡ record { count = 1; state = node code.now state.new })
        × (then_at state.new.processes pid ≡ Some then)) }
    ensures err { OnErr result (state.new ≡ state.old) }
    ensures refused { IfErr result (λ refused. refused ≡ Refused.NoMemory) }
{
    let (_, then) = run_rows(code, state, &[], false, pid, 1)?;
    match then {
        Some(then) => Ok(then),
        // There are no break spots.
        None => unreachable!(),
    }
}

/// Rows of a process that were executed apart from the node take effect, and the row of the node before which they end is executed. Where
/// memory is refused nothing changes.
pub(crate) fn install(
    code: &CodeTable,
    state: &mut State,
    pid: u32,
    rows: Private,
) -> Result<Then, Refused>
    requires rows { AreRowsOf (node code.now state.old) pid rows }
    requires framed { IsFramedNode (node code.now state.old) }
    ensures ok { IfOk result (λ then. Installed (node code.now state.old) pid rows then (node code.now state.new)) }
    ensures err { OnErr result (state.new ≡ state.old) }
    ensures refused { IfErr result (λ refused. refused ≡ Refused.NoMemory) }
    ensures quiet { AreQuiet rows → OnErr result ⊥ }
{
    let Private {
        count: _,
        process,
        sent,
        end,
    } = rows;
    state.recall_invariant();
    let then = standing(&process)?;
    tell(state, pid, &sent, &then)?;
    let was = state.advance(pid, process);
    let End::BeforeNodeRow = end else {
        return Ok(then);
    };
    match one_row(code, state, pid) {
        Ok(then) => Ok(then),
        Err(refused) => {
            let _made = state.replace(pid, was);
            state.take_all_back(&sent);
            Err(refused)
        }
    }
}
