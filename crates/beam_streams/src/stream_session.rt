//! A session over two streams.
ghost use Rattle.std.specs.Prelude.{◌≡◌, [], Some, true, IfErr, IfOk, OnOk};
ghost use Rattle.beam_remote.specs.DeviceHistory.{EachRead};
ghost use Rattle.beam_remote.specs.Found.{failures_after};
ghost use Rattle.beam_desk.specs.Sessions.{IsCut, IsPiped, IsPrompt};

use crate::begun::{Beginning, Begun};
use crate::streams::Streams;
use beam_desk::pipe as session;
use beam_remote::{ServeError, Served, SessionFailure};
use std::alloc::Global;
use std::io::{Read, Write};
use std::marker::{Brand, PhantomData};

/// As `pipe_over`, with a name for what the streams had and held at first.
fn pipe_from<I: Read + Drop, O: Write + Drop, B: Beginning>(
    alloc: Global,
    input: I,
    output: O,
) -> (Streams<I, O>, Result<Served, ServeError>)
    requires { (I.remaining input ≡ B.remaining) × (O.contents output ≡ B.contents) }
    ensures first { (result.0.first_remaining ≡ B.remaining) × (result.0.first_contents ≡ B.contents) }
    ensures served { IfOk result.1 (λ served. IsPiped result.0.read result.0.written served) }
    ensures end { OnOk result.1 (result.0.ended ≡ true) }
    ensures quiet { OnOk result.1 (result.0.failures ≡ 0) }
    ensures stopped { IfErr result.1 (λ e. IsCut result.0.read result.0.written e) }
    ensures cut { IfErr result.1 (λ e. e.why ≡ SessionFailure.CutFrame → result.0.ended ≡ true) }
    ensures failures { IfErr result.1 (λ e. result.0.failures ≡ failures_after e.why 0) }
    ensures prompt { EachRead (IsPrompt (Some []) (Some [])) (Some []) (Some result.0.moments) }
{
    let mut port = Begun::<I, O, B> {
        streams: Streams::new(input, output),
        beginning: PhantomData,
    };
    let end = session(alloc, &mut port);
    (port.streams, end)
}

/// A session over an input, an output and a node that begins empty, from bytes to bytes, as `beam_desk::pipe` is. The device comes back,
/// whose contracts say what was read and written.
pub fn pipe_over<I: Read + Drop, O: Write + Drop>(
    alloc: Global,
    input: I,
    output: O,
) -> (Streams<I, O>, Result<Served, ServeError>)
    ensures first { (result.0.first_remaining ≡ I.remaining input) × (result.0.first_contents ≡ O.contents output) }
    ensures served { IfOk result.1 (λ served. IsPiped result.0.read result.0.written served) }
    ensures end { OnOk result.1 (result.0.ended ≡ true) }
    ensures quiet { OnOk result.1 (result.0.failures ≡ 0) }
    ensures stopped { IfErr result.1 (λ e. IsCut result.0.read result.0.written e) }
    ensures cut { IfErr result.1 (λ e. e.why ≡ SessionFailure.CutFrame → result.0.ended ≡ true) }
    ensures failures { IfErr result.1 (λ e. result.0.failures ≡ failures_after e.why 0) }
    ensures prompt { EachRead (IsPrompt (Some []) (Some [])) (Some []) (Some result.0.moments) }
{
    pipe_from::<I, O, Brand>(alloc, input, output)
}
