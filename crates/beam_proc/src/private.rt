//! Rows of a process that concern it alone, done apart from the node: their results.
ghost use Rattle.std.specs.Prelude.{◌≡◌, IfOk};

use crate::copying::copy_signal;
use crate::process::Process;
use beam_machine::process::Signal;
use std::alloc::AllocError;
use std::marker::Model;

/// A signal, and the number of the process to which it goes.
#[derive(Debug, Drop)]
pub struct Sent {
    pub to: u32,
    pub signal: Signal,
}

impl Model for Sent {
    ghost use Rattle.std.specs.Coded.{codes};
    ghost use Rattle.beam_term.specs.Coding.{term_code};
    ghost use Rattle.beam_machine.specs.Private.{Sent as TheSent};

    ghost Value = { TheSent };

    ghost coded = { Prim.hlevel (codes, term_code) };

    ghost view = { λ s. record { to = s.to; signal = s.signal } };
}

impl Sent {
    /// An equal signal, whose terms are shared. Where memory is refused there is none.
    pub fn copy_signal(&self) -> Result<Signal, AllocError>
        ensures { IfOk result (λ signal. signal ≡ self.now.signal) }
    {
        copy_signal(&self.signal)
    }
}

/// Why the rows end.
#[derive(Clone, Copy, Debug, PartialEq, Eq)]
pub enum End {
    /// As many rows as asked are done, however the process stands.
    AtLimit,
    /// The process waits, or has ended.
    AfterRow,
    /// The next row asks something of the node.
    BeforeNodeRow,
    /// The next row is that of a break spot, before which the process stops.
    AtSpot,
}

/// How many rows were done, the process after them, the signals that they sent, in their order, and why they end.
#[derive(Drop)]
pub struct Private {
    pub count: u32,
    pub process: Process,
    pub sent: Vec<Sent>,
    pub end: End,
}

impl Model for Private {
    ghost use Rattle.std.specs.Coded.{codes};
    ghost use Rattle.beam_term.specs.Coding.{term_code};
    ghost use Rattle.beam_machine.specs.Private.{Private as ThePrivate};
    ghost use Rattle.beam_proc.specs.Ending.{end_of};

    ghost Value = { ThePrivate };

    ghost coded = { Prim.hlevel (codes, term_code) };

    ghost view = { λ p. record { count = p.count; process = p.process; sent = p.sent.items; end = end_of p.end } };
}
