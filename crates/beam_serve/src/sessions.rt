//! Sessions over the desk of a seat, one after another.
ghost use Rattle.std.specs.Prelude.{◌≡◌, ℕ, List, IfErr, IfOk, OnOk};
ghost use Rattle.beam_remote.specs.Found.{failures_after};
ghost use Rattle.beam_remote.specs.Serving.{AllAnswered, IsServed, IsStopped};
ghost use Rattle.beam_remote.specs.DeviceHistory.{EachRead, appended};
ghost use Rattle.beam_serve.specs.Answers.{SeatAnswers};
ghost use Rattle.beam_serve.specs.SessionReplies.{IsPartlyWrittenAndKept, IsWrittenAndKept};

use crate::seat_desk::SeatDesk;
use beam_queue::QueueBrand;
use beam_receipts::brand::NodeBrand;
use beam_remote::{Port, ServeError, Served, SessionFailure, serve};
use log::Log;
use std::alloc::Global;
use std::sync::Wait;

/// A session over the desk of a seat, as `beam_remote::serve` runs it. The replies that are written to accepted commands are exactly those
/// that the seat keeps of them, and the refusals that are written are those that the seat notes, each once and in their order; all other
/// replies are to loads whose files can't be loaded. Closing the node ties what its seats keep and note to one journal.
pub fn session<P: Port, B: NodeBrand + QueueBrand, R: Wait + Log + AllocGlobal>(
    alloc: Global,
    port: &mut P,
    desk: &mut SeatDesk<'_, B, R>,
) -> Result<Served, ServeError>
    ensures served { IfOk result (λ served. (read written : List ℕ) × (P.input port.new ≡ appended (P.input port.old) read)
        × (P.output port.new ≡ appended (P.output port.old) written) × IsServed SeatAnswers desk.old read written served desk.new
        × IsWrittenAndKept desk.old written desk.new) }
    ensures end { OnOk result (P.at_end port.new) }
    ensures quiet { OnOk result (P.failed port.new ≡ P.failed port.old) }
    ensures stopped { IfErr result (λ e. (read written : List ℕ) × (P.input port.new ≡ appended (P.input port.old) read)
        × (P.output port.new ≡ appended (P.output port.old) written) × IsStopped SeatAnswers desk.old read written e desk.new
        × IsPartlyWrittenAndKept desk.old written desk.new) }
    ensures cut { IfErr result (λ e. e.why ≡ SessionFailure.CutFrame → P.at_end port.new) }
    ensures failures { IfErr result (λ e. P.failed port.new ≡ failures_after e.why (P.failed port.old)) }
    ensures prompt { EachRead (AllAnswered SeatAnswers desk.old (P.input port.old) (P.output port.old)) (P.moments port.old) (P.moments port.new) }
{
    serve(alloc, port, desk)
}

/// Where the devices of sessions come from.
pub trait Incoming<P: Port> {
    /// Waits for the device of the next session. `None` where no more come.
    fn next(&mut self) -> Option<P>;

    /// Takes the device back after its session, which has ended with this.
    fn ended(&mut self, port: P, end: Result<Served, ServeError>);
}

/// Runs a session over each device that `incoming` gives, one after another, until no more come. After a session that fails its commands
/// stand, and the next session goes on with the desk as it was left.
pub fn serve_sessions<
    P: Port + Drop,
    D: Incoming<P>,
    B: NodeBrand + QueueBrand,
    R: Wait + Log + AllocGlobal,
>(rt: &R, alloc: Global, incoming: &mut D, desk: &mut SeatDesk<'_, B, R>) {
    for _ in rt.forever() {
        let Some(mut port) = incoming.next() else {
            return;
        };
        let end = session(alloc, &mut port, desk);
        incoming.ended(port, end);
    }
}
