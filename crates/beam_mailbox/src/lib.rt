//! A process's mailbox: messages in the order of their delivery, with a save pointer.
//!
//! The messages stand in chunks of 256 that copies share, and fewer than 256 after them in a queue of the mailbox's own (more where
//! memory was refused for a chunk). So a copy takes for n messages at most 256 shares of a message and n / 256 + 1 shares of a chunk,
//! each with a byte for each of the chunk's messages that is left. Each other call takes constant time, amortized over the calls,
//! however many messages there are.
#![tactic(auto)]

ghost use Rattle.std.specs.Prelude.{◌≡◌, [], OnOk, OnErr, IfOk, length, is_some};
ghost use Rattle.std.specs.Option.{option_copied};
ghost use Rattle.beam_model.specs.Mailbox.{empty_mailbox, with_message, message_at, with_next, with_removed, with_reset, with_flushed};
ghost use Rattle.beam_machine.specs.Row.{is_of_reference};
ghost use Rattle.beam_mailbox.specs.Messages.{messages_of, with_messages};

mod chunk;
mod deliveries;
mod flushing;
mod places;

use crate::chunk::{CHUNK, Chunk};
use crate::deliveries::append_all;
use crate::flushing::take_first;
use crate::places::{following, last_at, moved, take_out};
use beam_machine::process::Signal;
use beam_term::Term;
use std::alloc::{AllocError, Global};
use std::collections::VecDeque;
use std::marker::Model;

/// A mailbox.
#[derive(Debug)]
pub struct Mailbox {
    /// None of them is empty.
    chunks: VecDeque<Chunk>,
    /// The messages after those of the chunks.
    last: VecDeque<Term>,
    /// How many messages there are.
    count: usize,
    position: usize,
    /// The chunk at the save pointer; past the chunks the pointer is among the last messages.
    chunk: usize,
    /// How many messages stand before the save pointer there.
    place: usize,
}

impl Drop for Mailbox {
    fn drop(self) {
        let Mailbox {
            chunks: _chunks,
            last: _last,
            count: _count,
            position: _position,
            chunk: _chunk,
            place: _place,
        } = self;
    }
}

impl Model for Mailbox {
    ghost use Rattle.std.specs.Prelude.{◌≡◌, ◌≤◌, ◌++◌, length};
    ghost use Rattle.std.specs.Coded.{codes};
    ghost use Rattle.beam_term.specs.Coding.{term_code};
    ghost use Rattle.beam_model.specs.Mailbox.{Mailbox};
    ghost use Rattle.beam_mailbox.specs.Chunks.{joined, AreFilled, IsAt};

    ghost Value = { Mailbox };

    ghost coded = { Prim.hlevel (codes, term_code) };

    ghost view = { λ m. record { messages = joined m.chunks.items ++ m.last.items; position = m.position } };

    ghost invariant = { λ m. (m.count ≡ length (joined m.chunks.items ++ m.last.items))
        × AreFilled m.chunks.items
        × IsAt m.chunks.items m.last.items m.chunk m.place m.position
        × (m.position ≤ m.count) };
}

impl Mailbox {
    /// A mailbox without messages. It takes no memory.
    pub fn new(alloc: Global) -> Mailbox
        ensures { result ≡ empty_mailbox }
    {
        Mailbox {
            chunks: VecDeque::new(alloc),
            last: VecDeque::new(alloc),
            count: 0,
            position: 0,
            chunk: 0,
            place: 0,
        }
    }

    /// Makes a chunk of the first of the last messages, if there are enough of them. Where memory is refused nothing changes.
    fn seal(&mut self) -> Result<(), AllocError>
        ensures { self.new ≡ self.old }
    {
        if self.last.len() < CHUNK {
            return Ok(());
        }
        self.chunks.reserve(1)?;
        let alloc = *self.last.allocator();
        let chunk = Chunk::take_first(alloc, &mut self.last)?;
        let (at, place) = moved(self.chunks.len(), self.chunk, self.place);
        self.chunks.push_back_reserved(chunk);
        self.chunk = at;
        self.place = place;
        Ok(())
    }

    /// Makes chunks of the last messages, as far as memory is given.
    fn seal_all(&mut self)
        ensures { self.new ≡ self.old }
    {
        for _ in 0..self.last.len() / CHUNK {
            if self.seal().is_err() {
                return;
            }
        }
    }

    /// Puts a message after the others. Where memory is refused nothing changes.
    pub fn deliver(&mut self, message: Term) -> Result<(), AllocError>
        ensures ok { OnOk result (self.new ≡ with_message self.old message) }
        ensures err { OnErr result (self.new ≡ self.old) }
    {
        let Some(count) = self.count.checked_add(1) else {
            return Err(AllocError);
        };
        self.last.push_back(message)?;
        self.count = count;
        let _ = self.seal();
        Ok(())
    }

    /// Puts the messages of signals after the others, and takes the signals out. Where memory is refused nothing changes.
    pub fn deliver_all(&mut self, signals: &mut Vec<Signal>) -> Result<(), AllocError>
        ensures ok { OnOk result (self.new ≡ with_messages self.old (messages_of signals.old.items)) }
        ensures taken { OnOk result (signals.new.items ≡ []) }
        ensures err { OnErr result ((self.new ≡ self.old) × (signals.new.items ≡ signals.old.items)) }
    {
        let Some(_most) = self.count.checked_add(signals.len()) else {
            return Err(AllocError);
        };
        let before = self.last.len();
        append_all(&mut self.last, signals)?;
        self.count += self.last.len() - before;
        self.seal_all();
        Ok(())
    }

    /// The message at the save pointer.
    pub fn peek(&self) -> Option<&Term>
        ensures { option_copied result ≡ message_at self.now }
    {
        match self.chunks.get(self.chunk) {
            Some(chunk) => chunk.get(self.place),
            None => last_at(&self.last, self.place),
        }
    }

    /// Puts the save pointer after its message. Where there is no message at it nothing changes.
    pub fn next(&mut self)
        ensures { self.new ≡ with_next self.old }
    {
        if self.position == self.count {
            return;
        }
        let (chunk, place) = following(&self.chunks, self.chunk, self.place);
        self.position += 1;
        self.chunk = chunk;
        self.place = place;
    }

    /// Takes the message at the save pointer out, puts the pointer at the start, and answers true. Without a message there it answers
    /// false, and nothing changes.
    pub fn remove(&mut self) -> bool
        ensures found { result ≡ is_some (message_at self.old) }
        ensures rest { self.new ≡ with_removed self.old }
    {
        if self.position == self.count {
            return false;
        }
        take_out(&mut self.chunks, &mut self.last, self.chunk, self.place);
        self.count -= 1;
        self.position = 0;
        self.chunk = 0;
        self.place = 0;
        true
    }

    /// Puts the save pointer at the start.
    pub fn reset(&mut self)
        ensures { self.new ≡ with_reset self.old }
    {
        self.position = 0;
        self.chunk = 0;
        self.place = 0;
    }

    /// Takes out the first message of a reference, a tuple of five of which it is the second element, if there is one, and puts the
    /// save pointer at the start.
    pub fn flush(&mut self, reference: &Term)
        ensures { self.new ≡ with_flushed (is_of_reference reference.now) self.old }
    {
        take_first(self, reference);
        self.reset();
    }

    /// How many messages there are.
    pub fn len(&self) -> usize
        ensures { result ≡ length self.now.messages }
    {
        self.count
    }

    /// How many messages stand before the save pointer.
    pub fn position(&self) -> usize
        ensures { result ≡ self.now.position }
    {
        self.position
    }

    /// An equal mailbox, which shares the messages.
    pub fn try_copy(&self) -> Result<Mailbox, AllocError>
        ensures { IfOk result (λ copy. copy ≡ self.now) }
    {
        Ok(Mailbox {
            chunks: self.chunks.clone()?,
            last: self.last.clone()?,
            count: self.count,
            position: self.position,
            chunk: self.chunk,
            place: self.place,
        })
    }
}
