//! What is told of one process.
ghost use Rattle.std.specs.Prelude.{◌≡◌, IfOk};
ghost use Rattle.json.specs.Print.{print};
ghost use Rattle.beam_page.specs.Json.{Appends};
ghost use Rattle.beam_page.specs.ProcessDetails.{detail_members, frame_tokens, process_detail_tokens};

use crate::process::{ClippedText, PlaceFacts, ProcessFacts};
use crate::to_json::{ToJson, json_of, put_member};
use json::Writer;
use std::alloc::{AllocError, Global};

/// A frame of a process's stack.
#[derive(Drop)]
pub struct FrameFacts {
    /// Where it returns to; `None` of the first frame.
    pub back: Option<PlaceFacts>,
    /// Its y registers; `None` stands for a catch tag.
    pub y: Vec<Option<ClippedText>>,
}

/// What is told of one process.
pub struct ProcessDetail {
    pub process: ProcessFacts,
    /// Messages of its mailbox that its `receive` has looked at.
    pub save: u64,
    /// Milliseconds that it still waits at most; `None` where it waits without an end, or doesn't wait.
    pub deadline_ms: Option<u64>,
    /// The text of the row that it runs next.
    pub next: Option<String>,
    /// Its x registers.
    pub x: Vec<ClippedText>,
    /// Its first frames.
    pub frames: Vec<FrameFacts>,
    /// The first messages of its mailbox.
    pub first_messages: Vec<ClippedText>,
    /// The numbers of the first processes that it monitors.
    pub monitored: Vec<u64>,
    /// Whether there is more than is told: frames, registers, messages or monitored processes.
    pub is_cut: bool,
}

impl Drop for ProcessDetail {
    fn drop(self) {
        let ProcessDetail {
            process: _process,
            save: _save,
            deadline_ms: _deadline_ms,
            next: _next,
            x: _x,
            frames: _frames,
            first_messages: _first_messages,
            monitored: _monitored,
            is_cut: _is_cut,
        } = self;
    }
}

impl ToJson for FrameFacts {
    ghost tokens = { frame_tokens };

    #[tactic(auto, unfolding(crate::specs::ProcessDetails::frame_tokens))]
    fn put(&self, writer: &mut Writer) -> Result<(), AllocError> {
        writer.begin_object()?;
        put_member(writer, "back", &self.back)?;
        put_member(writer, "y", &self.y)?;
        writer.end_object()
    }
}

impl ProcessDetail {
    /// Appends what only one process tells, without the brackets of an object.
    #[tactic(auto, unfolding(crate::specs::ProcessDetails::detail_members))]
    fn put_members(&self, writer: &mut Writer) -> Result<(), AllocError>
        ensures { Appends result writer.old writer.new (detail_members self.now) }
    {
        put_member(writer, "save", &self.save)?;
        put_member(writer, "deadline_ms", &self.deadline_ms)?;
        put_member(writer, "next", &self.next)?;
        put_member(writer, "x", &self.x)?;
        put_member(writer, "frames", &self.frames)?;
        put_member(writer, "first_messages", &self.first_messages)?;
        put_member(writer, "monitored", &self.monitored)?;
        put_member(writer, "cut", &self.is_cut)?;
        Ok(())
    }
}

impl ToJson for ProcessDetail {
    ghost tokens = { process_detail_tokens };

    #[tactic(auto, unfolding(crate::specs::ProcessDetails::process_detail_tokens))]
    fn put(&self, writer: &mut Writer) -> Result<(), AllocError> {
        writer.begin_object()?;
        self.process.put_members(writer)?;
        self.put_members(writer)?;
        writer.end_object()
    }
}

/// One process as JSON: the members of a process, then `"save"`, `"deadline_ms"`, `"next"`, `"x"`, `"frames"`, `"first_messages"`, `"monitored"` and
/// `"cut"`. It fails only for memory.
pub fn process_json(alloc: Global, detail: &ProcessDetail) -> Result<Vec<u8>, AllocError>
    ensures { IfOk result (λ bytes. bytes.items ≡ print (process_detail_tokens detail.now)) }
{
    json_of(alloc, detail)
}
