//! A device of two streams: one that is read, one that is written.
ghost use Rattle.std.specs.Prelude.{◌≡◌, ◌<◌, ◌≤◌, [], Some, OnErr, IfOk, MatchResult, take, length, true, false};
ghost use Rattle.std.specs.Io.{ReadsAtMost, WritesAtMost};
ghost use Rattle.std.specs.Io.KnownBytes.{Appends, Consumes};
ghost use Rattle.beam_streams.specs.StreamsHistory.{IsWholeAtEnd, with_failure, with_read, with_written};

use beam_remote::{DeviceFailed, Port};
use beam_tools::os_error::OsError;
use beam_transcript::Transcript;
use std::io;
use std::io::{Error, ErrorKind, Read, Write};
use std::marker::Model;
use std::snapshot::Snapshot;

/// Two streams: the standard ones, or both ways of a socket.
#[derive(Drop)]
pub struct Streams<I: Read + Drop, O: Write + Drop> {
    input: I,
    output: O,
    // the streams as they were when nothing was read or written yet
    first_input: Snapshot<I>,
    first_output: Snapshot<O>,
    transcript: Transcript,
    ended: bool,
    failures: u64,
    // the operating system's error of the call that failed last
    os_error: Option<OsError>,
}

impl<I: Read + Drop, O: Write + Drop> Model for Streams<I, O> {
    ghost use Rattle.std.specs.Prelude.{map};
    ghost use Rattle.std.specs.Io.KnownBytes.{Appends, Consumes};
    ghost use Rattle.beam_streams.specs.StreamsHistory.{IsWholeAtEnd, StreamsHistory, moment};

    ghost Value = { StreamsHistory };

    ghost view = { λ s. record {
      first_remaining = I.remaining s.first_input.value;
      first_contents = O.contents s.first_output.value;
      read = s.transcript.read;
      written = s.transcript.written;
      moments = map moment s.transcript.moments;
      ended = s.ended;
      failures = s.failures;
    } };

    ghost invariant = { λ s. Consumes (I.remaining s.first_input.value) (I.remaining s.input) s.transcript.read
        × Appends (O.contents s.first_output.value) (O.contents s.output) s.transcript.written
        × IsWholeAtEnd s.ended (I.remaining s.first_input.value) s.transcript.read };
}

impl<I: Read + Drop, O: Write + Drop> Streams<I, O> {
    /// A device that reads the first and writes the second.
    pub fn new(input: I, output: O) -> Streams<I, O>
        ensures read { result.read ≡ [] }
        ensures written { result.written ≡ [] }
        ensures moments { result.moments ≡ [] }
        ensures ended { result.ended ≡ false }
        ensures quiet { result.failures ≡ 0 }
        ensures first { (result.first_remaining ≡ I.remaining input) × (result.first_contents ≡ O.contents output) }
    {
        let first_input = Snapshot::of(&input);
        let first_output = Snapshot::of(&output);
        Streams {
            input,
            output,
            first_input,
            first_output,
            transcript: Transcript::new(),
            ended: false,
            failures: 0,
            os_error: None,
        }
    }

    /// The streams. What the input had at first is what was read and what it still has; what the output holds is what it held at first and
    /// what was written; where they tell.
    pub fn into_streams(self) -> (I, O)
        ensures read { Consumes self.first_remaining (I.remaining result.0) self.read }
        ensures written { Appends self.first_contents (O.contents result.1) self.written }
        ensures ended { IsWholeAtEnd self.ended self.first_remaining self.read }
    {
        let Streams { input, output, .. } = self;
        (input, output)
    }

    /// The operating system's error of the call that failed last.
    pub fn os_error(&self) -> Option<OsError> {
        self.os_error
    }

    fn fail(&mut self, error: &Error) -> DeviceFailed
        ensures { self.new ≡ with_failure self.old }
    {
        self.failures = self.failures.saturating_add(1);
        self.os_error = Some(OsError::of(error));
        DeviceFailed
    }

    // One call of the input.
    fn read_once(&mut self, buffer: &mut [u8]) -> io::Result<usize>
        ensures bound { ReadsAtMost result buffer.new }
        ensures end { IfOk result (λ n. n ≡ 0 → 0 < length buffer.new → self.new.ended ≡ true) }
        ensures read { IfOk result (λ n. self.new ≡ with_read self.old (take n buffer.new) self.new.ended) }
        ensures err { OnErr result (self.new ≡ self.old) }
    {
        let count = self.input.read(buffer)?;
        self.transcript = self.transcript.after_read(&buffer[..count]);
        if !buffer.is_empty() {
            self.ended = count == 0;
        }
        Ok(count)
    }

    // One call of the output.
    fn write_once(&mut self, bytes: &[u8]) -> io::Result<usize>
        ensures bound { WritesAtMost result bytes.now }
        ensures written { IfOk result (λ n. self.new ≡ with_written self.old (take n bytes.now)) }
        ensures err { OnErr result (self.new ≡ self.old) }
    {
        let count = self.output.write(bytes)?;
        self.transcript = self.transcript.after_write(&bytes[..count]);
        Ok(count)
    }
}

impl<I: Read + Drop, O: Write + Drop> Port for Streams<I, O> {
    ghost input = { λ s. Some s.read };

    ghost output = { λ s. Some s.written };

    ghost moments = { λ s. Some s.moments };

    ghost at_end = { λ s. s.ended ≡ true };

    ghost failed = { λ s. s.failures };

    // A signal that interrupts a call is no failure: it is called again.
    fn read(&mut self, buffer: &mut [u8]) -> Result<usize, DeviceFailed>
        ensures count { IfOk result (λ n. n ≤ length buffer.old) }
        ensures end { IfOk result (λ n. n ≡ 0 → 0 < length buffer.old → self.new.ended ≡ true) }
        ensures history { MatchResult result (λ n. self.new ≡ with_read self.old (take n buffer.new) self.new.ended) (λ _. self.new ≡ with_failure self.old) }
    {
        for _ in 0..u64::MAX {
            match self.read_once(buffer) {
                Ok(count) => return Ok(count),
                Err(error) if error.kind() == ErrorKind::Interrupted => {}
                Err(error) => return Err(self.fail(&error)),
            }
        }
        Err(self.fail(&Error::from(ErrorKind::Interrupted)))
    }

    fn write(&mut self, bytes: &[u8]) -> Result<usize, DeviceFailed>
        ensures count { IfOk result (λ n. (n ≤ length bytes.now) × (0 < length bytes.now → 0 < n)) }
        ensures history { MatchResult result (λ n. self.new ≡ with_written self.old (take n bytes.now)) (λ _. self.new ≡ with_failure self.old) }
    {
        if bytes.is_empty() {
            return Ok(0);
        }
        for _ in 0..u64::MAX {
            match self.write_once(bytes) {
                Ok(0) => return Err(self.fail(&Error::from(ErrorKind::WriteZero))),
                Ok(count) => return Ok(count),
                Err(error) if error.kind() == ErrorKind::Interrupted => {}
                Err(error) => return Err(self.fail(&error)),
            }
        }
        Err(self.fail(&Error::from(ErrorKind::Interrupted)))
    }

    fn failures(&self) -> u64 {
        self.failures
    }
}
