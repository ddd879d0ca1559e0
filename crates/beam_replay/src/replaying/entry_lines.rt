//! Entries of a journal as lines that a person reads.

use beam_erltext::{print_atom, print_erl};
use beam_image::Image;
use beam_journal::entry::Entry;
use beam_lengths::text_length;
use beam_machine::debug::{DebugEvent, Spot, Version};
use beam_machine::event::{Event, UpgradeMode};
use beam_term::{Atom, Term};
use std::alloc::{AllocError, Global};

/// The most bytes of a term's text in a line. A longer one is left out.
const LONGEST_TERM: usize = 1_000;

/// Lines of entries, as text. Where memory is refused for a line, a part of it may have been appended.
#[derive(Drop)]
pub(crate) struct EntryLines {
    text: String,
    /// The text of the term or name that is appended.
    part: Vec<u8>,
}

impl EntryLines {
    /// No lines.
    pub(crate) fn new(alloc: Global) -> EntryLines {
        EntryLines {
            text: String::new(alloc),
            part: Vec::new(alloc),
        }
    }

    /// The lines.
    pub(crate) fn as_bytes(&self) -> &[u8] {
        self.text.as_bytes()
    }

    /// Forgets the lines.
    pub(crate) fn clear(&mut self) {
        self.text.clear();
    }

    /// Appends the line of the entry of this number: the number, the seat that sent the event, if one did, the event's kind, and what the
    /// event names. Of a term whose text has more than 1,000 bytes no text is made.
    pub(crate) fn push(&mut self, number: u64, entry: &Entry) -> Result<(), AllocError> {
        match entry.seat() {
            Some(seat) => write!(self.text, "{number} seat {seat}")?,
            None => write!(self.text, "{number}")?,
        }
        self.push_event(entry.event())?;
        self.text.push('\n')
    }

    fn push_event(&mut self, event: &DebugEvent<Image>) -> Result<(), AllocError> {
        match event {
            DebugEvent::Node(event) => self.push_node_event(event),
            DebugEvent::SetBreak(spot) => self.push_spot("SetBreak", spot),
            DebugEvent::ClearBreak(spot) => self.push_spot("ClearBreak", spot),
            DebugEvent::Resume { pid } => self.push_process("Resume", *pid),
            DebugEvent::StepOne { pid } => self.push_process("StepOne", *pid),
            DebugEvent::Inspect { pid } => self.push_process("Inspect", *pid),
        }
    }

    fn push_node_event(&mut self, event: &Event<Image>) -> Result<(), AllocError> {
        match event {
            Event::Load(image) => self.push_module("Load", image.module()),
            Event::LoadStrict(image) => self.push_module("LoadStrict", image.module()),
            Event::AtomicLoad { mode, images } => self.push_upgrade(*mode, images.as_slice()),
            Event::Delete(module) => self.push_module("Delete", module),
            Event::SoftPurge(module) => self.push_module("SoftPurge", module),
            Event::Purge(module) => self.push_module("Purge", module),
            Event::Versions(module) => self.push_module("Versions", module),
            Event::Spawn {
                module,
                function,
                arguments,
            } => self.push_spawn(module, function, arguments.as_slice()),
            Event::Send { to, message } => {
                self.text.push_str(" Send")?;
                self.push_term(to)?;
                self.push_term(message)
            }
            Event::Steps { pid, rows } => write!(self.text, " Steps <0.{pid}.0> {rows}"),
            Event::Deliver { pid } => self.push_process("Deliver", *pid),
            Event::Clock { now } => write!(self.text, " Clock {now}"),
            Event::Timeout { pid } => self.push_process("Timeout", *pid),
        }
    }

    /// Appends an event that names a process.
    fn push_process(&mut self, kind: &str, pid: u32) -> Result<(), AllocError> {
        write!(self.text, " {kind} <0.{pid}.0>")
    }

    /// Appends an event that names a module.
    fn push_module(&mut self, kind: &str, module: &Atom) -> Result<(), AllocError> {
        write!(self.text, " {kind} ")?;
        self.push_name(module)
    }

    /// Appends an event that names a break spot.
    fn push_spot(&mut self, kind: &str, spot: &Spot) -> Result<(), AllocError> {
        let version = match spot.version {
            Version::Current => "current",
            Version::Old => "old",
        };
        write!(self.text, " {kind} {version}:")?;
        self.push_name(&spot.module)?;
        write!(self.text, ":{}:{}", spot.label, spot.rows)
    }

    /// Appends an upgrade: how it treats old code, and its modules.
    fn push_upgrade(&mut self, mode: UpgradeMode, images: &[Image]) -> Result<(), AllocError> {
        let mode = match mode {
            UpgradeMode::Strict => "strict",
            UpgradeMode::Soft => "soft",
            UpgradeMode::Hard => "hard",
        };
        write!(self.text, " AtomicLoad {mode}")?;
        for image in images {
            self.text.push(' ')?;
            self.push_name(image.module())?;
        }
        Ok(())
    }

    /// Appends the start of a process: its function, and the arguments.
    fn push_spawn(
        &mut self,
        module: &Atom,
        function: &Atom,
        arguments: &[Term],
    ) -> Result<(), AllocError> {
        self.text.push_str(" Spawn ")?;
        self.push_name(module)?;
        self.text.push(':')?;
        self.push_name(function)?;
        for argument in arguments {
            self.push_term(argument)?;
        }
        Ok(())
    }

    /// Appends a name, as Erlang writes it.
    fn push_name(&mut self, name: &Atom) -> Result<(), AllocError> {
        self.part.clear();
        match print_atom(name.as_str(), &mut self.part) {
            Ok(()) => self.push_part(),
            Err(_) => Err(AllocError),
        }
    }

    /// Appends a blank and a term, as Erlang writes it, or that its text has more than 1,000 bytes.
    fn push_term(&mut self, term: &Term) -> Result<(), AllocError> {
        if text_length(term, LONGEST_TERM).is_none() {
            return write!(self.text, " (more than {LONGEST_TERM} bytes)");
        }
        self.text.push(' ')?;
        self.part.clear();
        match print_erl(term, &mut self.part) {
            Ok(()) => self.push_part(),
            Err(_) => Err(AllocError),
        }
    }

    /// Appends the text that was made last, which is UTF-8, as all Erlang text is.
    fn push_part(&mut self) -> Result<(), AllocError> {
        match str::from_utf8(&self.part) {
            Ok(text) => self.text.push_str(text),
            Err(_) => Ok(()),
        }
    }
}
