//! A process and its parts.
ghost use Rattle.std.specs.Prelude.{◌≡◌, ◌≤◌, ◌==◌, not, length, is_some, IfOk};
ghost use Rattle.std.specs.Option.{option_copied};
ghost use Rattle.beam_model.specs.Mailbox.{message_at};
ghost use Rattle.beam_machine.specs.Process.{is_running, is_waiting, is_ended, then_of, started, words_of, ended, own_pid};
ghost use Rattle.beam_stack.specs.Frames.{newest_back};

use crate::known::Known;
use beam_machine::event::Then;
use beam_machine::process::{Deadline, Goes, Signal, Status};
use beam_mailbox::Mailbox;
use beam_model::exception::Exception;
use beam_model::place::Place;
use beam_stack::frames::Frames;
use beam_stack::walk::Walk;
use beam_term::{Atom, Term};
use beam_watches::monitors::Monitors;
use std::alloc::{AllocError, Global};
use std::marker::Model;

/// A process, as far as it has come.
pub struct Process {
    pub(crate) alloc: Global,
    pub(crate) pid: u32,
    pub(crate) name: Option<Atom>,
    /// The registers as far as they were written.
    pub(crate) x: Vec<Term>,
    pub(crate) frames: Frames,
    pub(crate) goes: Goes,
    pub(crate) mailbox: Mailbox,
    pub(crate) transit: Vec<Signal>,
    pub(crate) deadline: Option<Deadline>,
    pub(crate) pending: Option<Exception>,
    pub(crate) status: Status,
    pub(crate) monitors: Monitors,
    /// The reason of its end when it is killed, so that this takes no memory.
    pub(crate) killed: Term,
    pub(crate) known: Known,
}

impl Drop for Process {
    fn drop(self) {
        let Process {
            alloc: _alloc,
            pid: _pid,
            name: _name,
            x: _x,
            frames: _frames,
            goes: _goes,
            mailbox: _mailbox,
            transit: _transit,
            deadline: _deadline,
            pending: _pending,
            status: _status,
            monitors: _monitors,
            killed: _killed,
            known: _known,
        } = self;
    }
}

impl Model for Process {
    ghost use Rattle.std.specs.Prelude.{◌≡◌, false};
    ghost use Rattle.std.specs.Coded.{codes};
    ghost use Rattle.beam_term.specs.Coding.{term_code};
    ghost use Rattle.beam_machine.specs.Process.{Process as TheProcess, is_ended};
    ghost use Rattle.beam_machine.specs.Process as TheReason;

    ghost Value = { TheProcess };

    ghost coded = { Prim.hlevel (codes, term_code) };

    ghost view = { λ p. record {
      pid = p.pid;
      name = p.name;
      x = p.x.items;
      frames = p.frames;
      goes = p.goes;
      mailbox = p.mailbox;
      transit = p.transit.items;
      deadline = p.deadline;
      pending = p.pending;
      status = p.status;
      monitors = p.monitors;
    } };

    ghost invariant = { λ p. is_ended p.status ≡ false → p.killed ≡ TheReason.killed };
}

impl Process {
    /// A process that will enter a function of as many arguments. Where memory is refused there is none.
    pub fn start(
        alloc: Global,
        known: Known,
        pid: u32,
        module: Atom,
        function: Atom,
        arguments: Vec<Term>,
    ) -> Result<Process, AllocError>
        requires { length arguments.items ≤ 255 }
        ensures { IfOk result (λ p. p ≡ started pid «module» function arguments.items) }
    {
        let killed = known.killed()?;
        let frames = Frames::first(alloc)?;
        let arity = arguments.len() as u32;
        Ok(Process {
            alloc,
            pid,
            name: None,
            x: arguments,
            frames,
            goes: Goes::Enter {
                module,
                function,
                arity,
            },
            mailbox: Mailbox::new(alloc),
            transit: Vec::new(alloc),
            deadline: None,
            pending: None,
            status: Status::Running,
            monitors: Monitors::new(alloc),
            killed,
            known,
        })
    }

    /// Its number.
    pub fn pid(&self) -> u32
        ensures { result ≡ self.now.pid }
    {
        self.pid
    }

    /// The atoms that each process needs.
    pub fn known(&self) -> &Known {
        &self.known
    }

    /// Its pid as a term. The pid alone takes memory.
    pub fn own_pid(&self) -> Result<Term, AllocError>
        ensures { IfOk result (λ pid. pid ≡ own_pid self.now.pid) }
    {
        self.known.pid(self.alloc, self.pid)
    }

    /// The name under which it is registered.
    pub fn name(&self) -> Option<&Atom>
        ensures { option_copied result ≡ self.now.name }
    {
        self.name.as_ref()
    }

    /// Its x registers as far as they were written, x0 first.
    pub fn x(&self) -> &[Term]
        ensures { result.now ≡ self.now.x }
    {
        &self.x
    }

    /// Its frames one after another, the newest first.
    pub fn walk(&self) -> Walk<'_>
        ensures { result ≡ self.now.frames }
    {
        self.frames.walk()
    }

    /// How many words its frames count: one for each frame, and one for each y register. At most 65,536.
    pub fn stack_words(&self) -> usize
        ensures value { result ≡ words_of self.now.frames }
        ensures most { result ≤ 65536 }
    {
        self.frames.words()
    }

    /// Where its newest frame returns. `None` where there is no frame, or it returns nowhere.
    pub fn newest_back(&self) -> Option<Place>
        ensures { result ≡ newest_back self.now.frames }
    {
        self.frames.newest_back()
    }

    /// Where it goes on.
    pub fn goes(&self) -> &Goes
        ensures { result.now ≡ self.now.goes }
    {
        &self.goes
    }

    /// Its status.
    pub fn status(&self) -> &Status
        ensures { result.now ≡ self.now.status }
    {
        &self.status
    }

    /// Whether it runs.
    pub fn is_running(&self) -> bool
        ensures { result ≡ is_running self.now.status }
    {
        matches!(&self.status, Status::Running)
    }

    /// Whether it waits for a message.
    pub fn is_waiting(&self) -> bool
        ensures { result ≡ is_waiting self.now.status }
    {
        matches!(&self.status, Status::Waiting)
    }

    /// Whether it has ended.
    pub fn is_ended(&self) -> bool
        ensures { result ≡ is_ended self.now.status }
    {
        matches!(&self.status, Status::Ended { .. })
    }

    /// When it goes on without a message.
    pub fn deadline(&self) -> Option<Deadline>
        ensures { result ≡ self.now.deadline }
    {
        self.deadline
    }

    /// How many messages its mailbox has.
    pub fn message_count(&self) -> usize
        ensures { result ≡ length self.now.mailbox.messages }
    {
        self.mailbox.len()
    }

    /// How many messages stand before the save pointer.
    pub fn save_position(&self) -> usize
        ensures { result ≡ self.now.mailbox.position }
    {
        self.mailbox.position()
    }

    /// How many signals are in transit to it.
    pub fn transit_count(&self) -> usize
        ensures { result ≡ length self.now.transit }
    {
        self.transit.len()
    }

    /// The message at the save pointer.
    pub fn message_at(&self) -> Option<&Term>
        ensures { option_copied result ≡ message_at self.now.mailbox }
    {
        self.mailbox.peek()
    }

    /// Whether a signal is in transit to it.
    pub fn has_transit(&self) -> bool
        ensures { result ≡ not (length self.now.transit == 0) }
    {
        !self.transit.is_empty()
    }

    /// Its status, for a reply. The terms of an end are copied.
    pub fn then(&self) -> Result<Then, AllocError>
        ensures { IfOk result (λ then. then ≡ then_of self.now.status) }
    {
        match &self.status {
            Status::Running => Ok(Then::GoesOn),
            Status::Waiting => Ok(Then::Waits),
            Status::Ended { reason, value } => Ok(Then::Ended {
                reason: reason.clone()?,
                value: value.clone()?,
            }),
        }
    }

    /// Ends: drops all but the pid, the reason and the value, with the memory that it held.
    pub fn end(&mut self, reason: Term, value: Term)
        ensures { self.new ≡ ended self.old reason value }
    {
        self.name = None;
        self.x = Vec::new(self.alloc);
        self.frames = Frames::none(self.alloc);
        self.goes = Goes::Nowhere;
        self.mailbox = Mailbox::new(self.alloc);
        self.monitors = Monitors::new(self.alloc);
        self.transit = Vec::new(self.alloc);
        self.deadline = None;
        self.pending = None;
        self.status = Status::Ended { reason, value };
        self.killed = Term::nil();
    }
}
