//! What is told of processes.

ghost use Rattle.std.specs.Prelude.{◌≡◌, IfOk};
ghost use Rattle.json.specs.Print.{print};
ghost use Rattle.beam_page.specs.Json.{Appends};
ghost use Rattle.beam_page.specs.Processes.{age_word, clipped_tokens, place_tokens, process_list_tokens, process_members, process_tokens, state_word};

use crate::to_json::{ToJson, json_of, put_member, put_text};
use beam_term::Atom;
use json::Writer;
use std::alloc::{AllocError, Global};

/// How the code at a place stands to the module's code now.
#[derive(Clone, Copy, Debug, PartialEq, Eq)]
pub enum CodeAge {
    /// The process never ran: the place is its entry.
    Entry,
    /// The module's current instance.
    Current,
    /// The module's old instance.
    Old,
    /// An instance that the node no longer has.
    Gone,
}

/// A place in code.
#[derive(Drop)]
pub struct PlaceFacts {
    pub module: Atom,
    pub function: Atom,
    pub arity: u32,
    /// The label of the row, or 0 for an entry.
    pub label: u32,
    /// Rows behind the label.
    pub row: u64,
    /// The number of the module's instance.
    pub instance: u32,
    pub code: CodeAge,
}

/// A text that may have been cut.
#[derive(Drop)]
pub struct ClippedText {
    pub text: String,
    /// Whether nothing was cut off.
    pub is_whole: bool,
}

/// What a process does.
#[derive(Clone, Copy, Debug, PartialEq, Eq)]
pub enum ProcessState {
    /// It can go on.
    Running,
    /// It waits for a message or for a moment.
    Waiting,
    /// It was stopped and isn't resumed yet.
    Held,
    /// It is no more.
    Ended,
}

/// What is told of a process.
pub struct ProcessFacts {
    pub pid: u32,
    /// The name under which it is registered.
    pub name: Option<Atom>,
    pub state: ProcessState,
    /// Messages in its mailbox.
    pub mailbox: u64,
    /// Messages on their way to it.
    pub transit: u64,
    /// Words of its stack.
    pub stack_words: u64,
    /// How many processes it monitors.
    pub monitors: u64,
    /// Where it goes on; `None` of one that ended.
    pub at: Option<PlaceFacts>,
    /// Why it ended; `None` of one that lives.
    pub reason: Option<ClippedText>,
}

impl Drop for ProcessFacts {
    fn drop(self) {
        let ProcessFacts {
            pid: _pid,
            name: _name,
            state: _state,
            mailbox: _mailbox,
            transit: _transit,
            stack_words: _stack_words,
            monitors: _monitors,
            at: _at,
            reason: _reason,
        } = self;
    }
}

/// A part of a node's processes, in the order that was asked for.
pub struct ProcessList {
    pub processes: Vec<ProcessFacts>,
    /// What the next part is asked behind; `None` where this part is the last.
    pub next: Option<u64>,
    /// How many there are, where that was counted.
    pub matching: Option<u64>,
    /// How many were looked at.
    pub seen: u64,
    /// Whether there are more than were looked at.
    pub is_partial: bool,
}

impl Drop for ProcessList {
    fn drop(self) {
        let ProcessList {
            processes: _processes,
            next: _next,
            matching: _matching,
            seen: _seen,
            is_partial: _is_partial,
        } = self;
    }
}

impl CodeAge {
    /// Its word.
    fn word(self) -> &'static str
        ensures { result.now ≡ age_word self }
    {
        match self {
            CodeAge::Entry => "entry",
            CodeAge::Current => "current",
            CodeAge::Old => "old",
            CodeAge::Gone => "gone",
        }
    }
}

impl ProcessState {
    /// Its word.
    fn word(self) -> &'static str
        ensures { result.now ≡ state_word self }
    {
        match self {
            ProcessState::Running => "running",
            ProcessState::Waiting => "waiting",
            ProcessState::Held => "held",
            ProcessState::Ended => "ended",
        }
    }
}

impl ToJson for PlaceFacts {
    ghost tokens = { place_tokens };

    #[tactic(auto, unfolding(crate::specs::Processes::place_tokens))]
    fn put(&self, writer: &mut Writer) -> Result<(), AllocError> {
        writer.begin_object()?;
        put_member(writer, "module", &self.module)?;
        put_member(writer, "function", &self.function)?;
        put_member(writer, "arity", &self.arity)?;
        put_member(writer, "label", &self.label)?;
        put_member(writer, "row", &self.row)?;
        put_member(writer, "instance", &self.instance)?;
        put_text(writer, "code", self.code.word())?;
        writer.end_object()
    }
}

impl ToJson for ClippedText {
    ghost tokens = { clipped_tokens };

    #[tactic(auto, unfolding(crate::specs::Processes::clipped_tokens))]
    fn put(&self, writer: &mut Writer) -> Result<(), AllocError> {
        writer.begin_object()?;
        put_member(writer, "text", &self.text)?;
        put_member(writer, "whole", &self.is_whole)?;
        writer.end_object()
    }
}

impl ProcessFacts {
    /// Appends its members, without the brackets of an object.
    #[tactic(auto, unfolding(crate::specs::Processes::process_members))]
    pub(crate) fn put_members(&self, writer: &mut Writer) -> Result<(), AllocError>
        ensures { Appends result writer.old writer.new (process_members self.now) }
    {
        put_member(writer, "pid", &self.pid)?;
        put_member(writer, "name", &self.name)?;
        put_text(writer, "state", self.state.word())?;
        put_member(writer, "mailbox", &self.mailbox)?;
        put_member(writer, "transit", &self.transit)?;
        put_member(writer, "stack_words", &self.stack_words)?;
        put_member(writer, "monitors", &self.monitors)?;
        put_member(writer, "at", &self.at)?;
        put_member(writer, "reason", &self.reason)?;
        Ok(())
    }
}

impl ToJson for ProcessFacts {
    ghost tokens = { process_tokens };

    #[tactic(auto, unfolding(crate::specs::Processes::process_tokens))]
    fn put(&self, writer: &mut Writer) -> Result<(), AllocError> {
        writer.begin_object()?;
        self.put_members(writer)?;
        writer.end_object()
    }
}

impl ToJson for ProcessList {
    ghost tokens = { process_list_tokens };

    #[tactic(auto, unfolding(crate::specs::Processes::process_list_tokens))]
    fn put(&self, writer: &mut Writer) -> Result<(), AllocError> {
        writer.begin_object()?;
        put_member(writer, "processes", &self.processes)?;
        put_member(writer, "next", &self.next)?;
        put_member(writer, "matching", &self.matching)?;
        put_member(writer, "seen", &self.seen)?;
        put_member(writer, "partial", &self.is_partial)?;
        writer.end_object()
    }
}

/// The list as JSON: `{"processes":[..],"next":N|null,"matching":N|null,"seen":N,"partial":B}`. It fails only for memory.
pub fn processes_json(alloc: Global, list: &ProcessList) -> Result<Vec<u8>, AllocError>
    ensures { IfOk result (λ bytes. bytes.items ≡ print (process_list_tokens list.now)) }
{
    json_of(alloc, list)
}
