//! A process that is checked out.
ghost use Rattle.std.specs.Prelude.{◌≡◌};
ghost use Rattle.beam_shared.specs.FinishedSlice.{ComesFrom};

use crate::code_context::CodeContext;
use crate::finished_slice::FinishedSlice;
use beam_receipts::brand::NodeBrand;
use beam_receipts::ticket::TicketReceipt;
use beam_step::run_private;
use beam_step::work::Work;
use std::marker::Model;

/// A process that is checked out, to be run apart from the node, with its ticket, and code and break spots as they are. Each of its rows
/// finds what it names, as each row of the node does. If it is dropped the process stays checked out.
pub struct Checkout<B: NodeBrand> {
    pub(crate) pid: u32,
    pub(crate) context: CodeContext,
    pub(crate) work: Work,
    pub(crate) ticket: TicketReceipt<B>,
}

impl<B: NodeBrand> Drop for Checkout<B> {
    fn drop(self) {
        let Checkout {
            pid: _pid,
            context: _context,
            work: _work,
            ticket: _ticket,
        } = self;
    }
}

impl<B: NodeBrand> Model for Checkout<B> {
    ghost use Rattle.std.specs.Prelude.{◌≡◌};
    ghost use Rattle.std.specs.Coded.{codes};
    ghost use Rattle.beam_term.specs.Coding.{term_code};
    ghost use Rattle.beam_receipts.specs.Receipts.{Checkout as TheCheckout};
    ghost use Rattle.beam_rows.specs.Finds.{AlwaysFinds};
    ghost use Rattle.beam_shared.specs.FinishedSlice.{context_of};

    ghost Value = { TheCheckout };

    ghost coded = { Prim.hlevel (codes, term_code) };

    ghost view = { λ c. c.ticket };

    ghost invariant = { λ c. (c.ticket.origin.pid ≡ c.pid) × (c.context ≡ context_of c.ticket.origin)
        × (c.work ≡ record { process = c.ticket.origin.process; passes = c.ticket.origin.passes })
        × AlwaysFinds c.ticket.origin.code c.ticket.origin.process };
}

impl<B: NodeBrand> Checkout<B> {
    /// The number of the process.
    pub fn pid(&self) -> u32
        ensures { result ≡ self.now.origin.pid }
    {
        self.pid
    }

    /// Runs the process, apart from the node and under no lock: at most `limit` rows that concern it alone, and at most 4,000. They end
    /// before a row that asks something of the node, before the row of a break spot, after a row by which it waits or ends, or for want of
    /// memory, which never ends them before a quiet row.
    pub fn run(self, limit: u32) -> FinishedSlice<B>
        ensures serial { result.serial ≡ self.serial }
        ensures origin { result.origin ≡ self.origin }
        ensures rows { ComesFrom limit result }
    {
        let Checkout {
            pid,
            context,
            work,
            ticket,
        } = self;
        let slice = run_private(context.code(), context.spots(), work, limit);
        FinishedSlice {
            pid,
            context,
            slice,
            ticket,
        }
    }
}
