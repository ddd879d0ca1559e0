//! A session over a new node.
ghost use Rattle.std.specs.Prelude.{◌≡◌, ℕ, List, IfErr, IfOk, OnOk};
ghost use Rattle.beam_remote.specs.Found.{failures_after};
ghost use Rattle.beam_remote.specs.DeviceHistory.{EachRead, appended};
ghost use Rattle.beam_desk.specs.Sessions.{IsCut, IsPiped, IsPrompt};

use crate::desk::NodeDesk;
use beam_remote::{Port, ServeError, Served, SessionFailure, serve};
use std::alloc::Global;

/// A session over a node that begins empty, from bytes to bytes. It writes the replies of the node with its debugger to the commands that
/// it reads; a file of a load stands for the listing that it spells. Each reply is written before the session reads on. Faults are those of
/// `beam_remote::serve`.
pub fn pipe<P: Port>(alloc: Global, port: &mut P) -> Result<Served, ServeError>
    ensures served { IfOk result (λ served. (read written : List ℕ) × (P.input port.new ≡ appended (P.input port.old) read)
        × (P.output port.new ≡ appended (P.output port.old) written) × IsPiped read written served) }
    ensures end { OnOk result (P.at_end port.new) }
    ensures quiet { OnOk result (P.failed port.new ≡ P.failed port.old) }
    ensures stopped { IfErr result (λ e. (read written : List ℕ) × (P.input port.new ≡ appended (P.input port.old) read)
        × (P.output port.new ≡ appended (P.output port.old) written) × IsCut read written e) }
    ensures cut { IfErr result (λ e. e.why ≡ SessionFailure.CutFrame → P.at_end port.new) }
    ensures failures { IfErr result (λ e. P.failed port.new ≡ failures_after e.why (P.failed port.old)) }
    ensures prompt { EachRead (IsPrompt (P.input port.old) (P.output port.old)) (P.moments port.old) (P.moments port.new) }
{
    let mut desk = NodeDesk::new(alloc);
    serve(alloc, port, &mut desk)
}
