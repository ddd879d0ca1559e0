//! The desk of a seat.
ghost use Rattle.std.specs.Prelude.{◌≡◌};
ghost use Rattle.beam_sched.specs.CommandAnswers.{answer_of};
ghost use Rattle.beam_serve.specs.Answers.{response_by, response_to};

use crate::command_log::CommandLog;
use crate::memory_reserve::MemoryReserve;
use beam_debug::outcome::Outcome;
use beam_desk::reply;
use beam_disk_journal::JournalLink;
use beam_image::Image;
use beam_journal_file::WriteFailed;
use beam_machine::command::Response;
use beam_machine::debug::DebugEvent;
use beam_queue::QueueBrand;
use beam_receipts::brand::NodeBrand;
use beam_receipts::refusal::Refusal;
use beam_remote::Desk;
use beam_sched::shared::Shared;
use beam_sched::thread_context::ThreadContext;
use log::Log;
use std::marker::Model;
use std::sync::Wait;

/// A desk with a thread context of a node that threads share, and with a reference to the node. Each event is a command of the thread
/// context's seat; the lock is held only for that command. Where the node keeps its journal in a file, an answer is given once the file has
/// it. Contracts see the seat.
pub struct SeatDesk<'a, B: NodeBrand + QueueBrand, R> {
    rt: &'a R,
    shared: &'a Shared<B>,
    context: ThreadContext<B>,
    reserve: Option<&'a MemoryReserve>,
    journal: Option<JournalLink<'a, B>>,
}

impl<'a, B: NodeBrand + QueueBrand, R> Drop for SeatDesk<'a, B, R> {
    fn drop(self) {
        let SeatDesk {
            rt: _rt,
            shared: _shared,
            context: _context,
            reserve: _reserve,
            journal: _journal,
        } = self;
    }
}

impl<'a, B: NodeBrand + QueueBrand, R> Model for SeatDesk<'a, B, R> {
    ghost use Rattle.std.specs.Coded.{codes};
    ghost use Rattle.beam_term.specs.Coding.{term_code};
    ghost use Rattle.beam_receipts.specs.Receipts.{SeatHistory};

    ghost Value = { SeatHistory };

    ghost coded = { Prim.hlevel (codes, term_code) };

    ghost view = { λ d. d.context.seat };
}

impl<'a, B: NodeBrand + QueueBrand, R> SeatDesk<'a, B, R> {
    /// The desk of a thread context of that node.
    pub fn new(rt: &'a R, shared: &'a Shared<B>, context: ThreadContext<B>) -> SeatDesk<'a, B, R>
        ensures { result ≡ context.seat }
    {
        SeatDesk {
            rt,
            shared,
            context,
            reserve: None,
            journal: None,
        }
    }

    /// The desk, which notes the answers to commands at a reserve of memory.
    pub(crate) fn with_reserve(self, reserve: &'a MemoryReserve) -> SeatDesk<'a, B, R>
        ensures { result ≡ self.entry }
    {
        let SeatDesk {
            rt,
            shared,
            context,
            reserve: _reserve,
            journal,
        } = self;
        SeatDesk {
            rt,
            shared,
            context,
            reserve: Some(reserve),
            journal,
        }
    }

    /// The desk, which keeps its answers back until the journal's file has them, where the node has such a file.
    pub(crate) fn with_journal(self, journal: Option<JournalLink<'a, B>>) -> SeatDesk<'a, B, R>
        ensures { result ≡ self.entry }
    {
        let SeatDesk {
            rt,
            shared,
            context,
            reserve,
            journal: _journal,
        } = self;
        SeatDesk {
            rt,
            shared,
            context,
            reserve,
            journal,
        }
    }

    /// The journal's file, where the node has one.
    pub(crate) fn journal(&self) -> Option<JournalLink<'a, B>> {
        self.journal
    }

    /// The thread context, whose seat knows the commands that were accepted of it, with their replies.
    pub fn into_context(self) -> ThreadContext<B>
        ensures { result.seat ≡ self.entry }
    {
        let SeatDesk {
            rt: _rt,
            shared: _shared,
            context,
            reserve: _reserve,
            journal: _journal,
        } = self;
        context
    }
}

impl<B: NodeBrand + QueueBrand, R: Wait> SeatDesk<'_, B, R> {
    /// Why the journal's file isn't written any more, where the node has one and that is so.
    pub(crate) fn journal_failure(&self) -> Option<WriteFailed> {
        match self.journal {
            Some(link) => link.journal.failure(self.rt),
            None => None,
        }
    }
}

/// The response to a refused command.
fn refused(refusal: Refusal) -> Response
    ensures { result ≡ response_to refusal }
{
    match refusal {
        Refusal::Node(refused) => Response::Refused(refused),
        Refusal::Busy => Response::Busy,
        Refusal::JournalFull => Response::JournalFull,
    }
}

/// Notes the answer to a command at the reserve, if there is one.
fn note_answer(reserve: Option<&MemoryReserve>, answer: &Result<Outcome, Refusal>) {
    if let Some(reserve) = reserve {
        reserve.note_answer(answer);
    }
}

/// The response to a command, by the node's answer.
fn response_by(answer: Result<Outcome, Refusal>) -> Response
    ensures { result ≡ response_by (answer_of answer) }
{
    match answer {
        Ok(outcome) => reply(outcome),
        Err(refusal) => refused(refusal),
    }
}

impl<B: NodeBrand + QueueBrand, R: Wait + Log + AllocGlobal> Desk for SeatDesk<'_, B, R> {
    ghost use Rattle.beam_serve.specs.Answers.{SeatAnswers};

    ghost answers = { SeatAnswers };

    fn command(&mut self, event: DebugEvent<Image>) -> Response {
        let command_log = CommandLog::of(self.rt, self.shared, &event);
        let answer = self.shared.command(self.rt, &mut self.context, event);
        note_answer(self.reserve, &answer);
        command_log.write(self.rt, self.shared, &answer);
        if let Some(journal) = self.journal {
            journal.wait_until_kept(self.rt, self.shared);
        }
        response_by(answer)
    }
}
