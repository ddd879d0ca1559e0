//! What is told of the log.
ghost use Rattle.std.specs.Prelude.{◌≡◌, IfOk};
ghost use Rattle.json.specs.Print.{print};
ghost use Rattle.beam_page.specs.Logs.{line_tokens, log_tail_tokens};

use crate::to_json::{ToJson, json_of, put_member};
use json::Writer;
use std::alloc::{AllocError, Global};

/// A line of the log.
#[derive(Drop)]
pub struct LogFacts {
    /// Lines are counted from 1.
    pub number: u64,
    /// Milliseconds since 1970 began.
    pub time_ms: u64,
    /// Its text, whose first word is its level.
    pub text: String,
}

/// The last lines of the log.
pub struct LogTail {
    pub lines: Vec<LogFacts>,
    /// How many lines behind the one that was asked for are no longer there.
    pub lost: u64,
}

impl Drop for LogTail {
    fn drop(self) {
        let LogTail {
            lines: _lines,
            lost: _lost,
        } = self;
    }
}

impl ToJson for LogFacts {
    ghost tokens = { line_tokens };

    #[tactic(auto, unfolding(crate::specs::Logs::line_tokens))]
    fn put(&self, writer: &mut Writer) -> Result<(), AllocError> {
        writer.begin_object()?;
        put_member(writer, "number", &self.number)?;
        put_member(writer, "time_ms", &self.time_ms)?;
        put_member(writer, "text", &self.text)?;
        writer.end_object()
    }
}

impl ToJson for LogTail {
    ghost tokens = { log_tail_tokens };

    #[tactic(auto, unfolding(crate::specs::Logs::log_tail_tokens))]
    fn put(&self, writer: &mut Writer) -> Result<(), AllocError> {
        writer.begin_object()?;
        put_member(writer, "lines", &self.lines)?;
        put_member(writer, "lost", &self.lost)?;
        writer.end_object()
    }
}

/// The lines as JSON: `{"lines":[{"number":N,"time_ms":N,"text":T}],"lost":N}`. It fails only for memory.
pub fn log_json(alloc: Global, tail: &LogTail) -> Result<Vec<u8>, AllocError>
    ensures { IfOk result (λ bytes. bytes.items ≡ print (log_tail_tokens tail.now)) }
{
    json_of(alloc, tail)
}
