//! Rows of a process that is checked out, which are to be committed.
ghost use Rattle.std.specs.Prelude.{◌≡◌, ◌↔◌, IsTrue};
ghost use Rattle.beam_core.specs.Installing.{AreQuiet};
ghost use Rattle.beam_shared.specs.FinishedSlice.{IsSelfContained, is_timed, sets_deadline, waits_at};

use crate::code_context::CodeContext;
use beam_codesrv::CodeTable;
use beam_machine::action::{Action, Messaging};
use beam_machine::process::Goes;
use beam_proc::private::{End, Sent};
use beam_receipts::brand::NodeBrand;
use beam_receipts::ticket::TicketReceipt;
use beam_step::slice::Slice;
use std::marker::Model;

/// A process that was checked out and has run. If it is dropped the process stays checked out.
#[derive(Drop)]
pub struct FinishedSlice<B: NodeBrand> {
    pub(crate) pid: u32,
    pub(crate) context: CodeContext,
    pub(crate) slice: Slice,
    pub(crate) ticket: TicketReceipt<B>,
}

impl<B: NodeBrand> Model for FinishedSlice<B> {
    ghost use Rattle.std.specs.Prelude.{◌≡◌};
    ghost use Rattle.std.specs.Coded.{codes};
    ghost use Rattle.beam_term.specs.Coding.{term_code};
    ghost use Rattle.beam_shared.specs.FinishedSlice.{FinishedSlice as TheFinished, context_of, finished_slice, IsFinishedSlice};

    ghost Value = { TheFinished };

    ghost coded = { Prim.hlevel (codes, term_code) };

    ghost view = { λ f. finished_slice f.ticket f.slice };

    ghost invariant = { λ f. (f.ticket.origin.pid ≡ f.pid) × (f.context ≡ context_of f.ticket.origin) × IsFinishedSlice (finished_slice f.ticket f.slice) };
}

/// Whether an action waits for a time.
fn is_timed(action: &Action<'_>) -> bool
    ensures { result ≡ is_timed action.now }
{
    matches!(action, Action::Messaging(Messaging::WaitTimeout { .. }))
}

/// Whether the next row, at the place where the process goes on, waits for a time.
pub(crate) fn waits_at(code: &CodeTable, goes: &Goes) -> bool
    ensures { result ≡ waits_at code.now goes.now }
{
    let Goes::At(place) = goes else {
        return false;
    };
    match code.step_of(*place) {
        Some(step) => is_timed(&step.action),
        None => false,
    }
}

impl<B: NodeBrand> FinishedSlice<B> {
    /// The number of the process.
    pub fn pid(&self) -> u32
        ensures { result ≡ self.now.origin.pid }
    {
        self.pid
    }

    /// How many rows were executed: 0 to 4,000.
    pub fn count(&self) -> u32
        ensures { result ≡ self.now.rows.count }
    {
        self.slice.rows.count
    }

    /// Whether the rows end before a row that waits for a time and sets a deadline. The node executes that row at the commit, by its clock.
    /// (A row of a process that has its deadline already isn't the node's.)
    pub fn sets_deadline(&self) -> bool
        ensures { result ≡ sets_deadline self.now }
    {
        let rows = &self.slice.rows;
        match rows.end {
            End::BeforeNodeRow => waits_at(self.context.code(), rows.process.goes()),
            End::AtLimit | End::AfterRow | End::AtSpot => false,
        }
    }

    /// The signals that its rows sent, in their order, each with its receiver.
    pub fn sent(&self) -> &[Sent]
        ensures { result.now ≡ self.now.rows.sent }
    {
        &self.slice.rows.sent
    }

    /// Whether its rows concern only the process and those to whom it sent: the process hasn't ended, and no row of the node follows them.
    pub fn is_self_contained(&self) -> bool
        ensures { IsTrue result ↔ IsSelfContained self.now.rows }
    {
        let rows = &self.slice.rows;
        match rows.end {
            End::BeforeNodeRow => false,
            End::AtLimit | End::AfterRow | End::AtSpot => !rows.process.is_ended(),
        }
    }

    /// Whether its rows concern the process alone: nothing was sent, the process hasn't ended, and no row of the node follows them. Their
    /// commit takes no memory, and changes no other process.
    pub fn is_quiet(&self) -> bool
        ensures { IsTrue result ↔ AreQuiet self.now.rows }
    {
        self.is_self_contained() && self.slice.rows.sent.is_empty()
    }
}
