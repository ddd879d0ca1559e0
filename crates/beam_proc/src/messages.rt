//! Receiving and waiting.
ghost use Rattle.std.specs.Prelude.{◌≡◌, ◌&&◌, not, true, false, Some, None, is_some, OnErr};
ghost use Rattle.beam_model.specs.Mailbox.{message_at, with_next, with_removed, with_reset};
ghost use Rattle.beam_machine.specs.Process.{then_of};
ghost use Rattle.beam_machine.specs.Row.{waits, waits_for, finds_message, waits_for_message, stands_at};
ghost use Rattle.beam_machine.specs.Row as Row;
ghost use Rattle.beam_machine.specs.Next.{deadline_at};
ghost use Rattle.beam_proc.specs.Does.{Does, DoesOrAsks, IsLoud};

use crate::process::Process;
use beam_machine::event::Then;
use beam_machine::process::{Deadline, Goes, Status};
use beam_model::place::{Place, is_same_place};
use std::alloc::AllocError;

impl Process {
    /// Whether it stands at the row of a place.
    fn stands_at(&self, place: Place) -> bool
        ensures { result ≡ stands_at self.now.goes place }
    {
        match &self.goes {
            Goes::At(here) => is_same_place(*here, place),
            _ => false,
        }
    }

    /// Whether the row of a place, to which a wait leads, finds a message at the save pointer: a wait that leads to its own row finds none.
    fn finds_message(&self, place: Place) -> bool
        ensures { result ≡ finds_message self.now place }
    {
        self.mailbox.peek().is_some() && !self.stands_at(place)
    }

    /// Waits at the row of a place, unless that finds a message.
    fn settle_at(&mut self, place: Place) -> Then
        requires { self.old.status ≡ Status.Running }
        ensures process { self.new ≡ waits_for_message self.old place }
        ensures then { result ≡ then_of self.new.status }
    {
        let finds_message = self.finds_message(place);
        self.goes = Goes::At(place);
        if finds_message {
            self.status = Status::Running;
            Then::GoesOn
        } else {
            self.status = Status::Waiting;
            Then::Waits
        }
    }

    /// Puts the save pointer after its message. False where there is none; then nothing changes.
    pub fn pass_message(&mut self) -> bool
        ensures found { result ≡ is_some (message_at self.old.mailbox) }
        ensures done { result ≡ true → self.new ≡ record self.old { mailbox = with_next self.old.mailbox } }
        ensures left { result ≡ false → self.new ≡ self.old }
    {
        let found = self.mailbox.peek().is_some();
        if found {
            self.mailbox.next();
        }
        found
    }

    /// Takes the message at the save pointer out, and the deadline away. False where there is none; then nothing changes.
    pub fn take_message(&mut self) -> bool
        ensures found { result ≡ is_some (message_at self.old.mailbox) }
        ensures done { result ≡ true → self.new ≡ record self.old { mailbox = with_removed self.old.mailbox; deadline = None } }
        ensures left { result ≡ false → self.new ≡ self.old }
    {
        let found = self.mailbox.peek().is_some();
        if found {
            self.mailbox.remove();
            self.deadline = None;
        }
        found
    }

    /// Waits at a label's row of an instance, unless that finds a message.
    pub fn wait(&mut self, instance: u32, target: Option<usize>) -> Result<Then, AllocError>
        requires { self.old.status ≡ Status.Running }
        ensures does { Does self.old (waits self.old instance target) result self.new }
        ensures loud { OnErr result (IsLoud (λ p. waits p instance target) self.old) }
    {
        match target {
            Some(at) => {
                self.deadline = None;
                Ok(self.settle_at(Place::new(instance, at)))
            }
            None => self.illegal(),
        }
    }

    /// Waits for `milliseconds`. Where the row needs the clock it answers None, and nothing changes: then `sleep` does the row.
    pub fn wait_for(
        &mut self,
        next: Place,
        target: Option<usize>,
        milliseconds: u32,
    ) -> Result<Option<Then>, AllocError>
        requires { self.old.status ≡ Status.Running }
        ensures { DoesOrAsks self.old (waits_for self.old next target (Some (Row.milliseconds milliseconds))) result self.new }
    {
        let Some(at) = target else {
            return Ok(Some(self.illegal()?));
        };
        let place = Place::new(next.instance(), at);
        if milliseconds == 0 && !self.finds_message(place) {
            return Ok(Some(self.go_on(next)));
        }
        match self.deadline {
            Some(deadline) => {
                self.deadline = Some(Deadline {
                    at: deadline.at,
                    after: next,
                });
                Ok(Some(self.settle_at(place)))
            }
            None => Ok(None),
        }
    }

    /// Waits at a row, or runs there if it finds a message, with a deadline `milliseconds` after the clock's time, at which it goes on at
    /// `next`.
    pub fn sleep(&mut self, next: Place, at: usize, milliseconds: u32, clock: u64) -> Then
        requires { self.old.status ≡ Status.Running }
        ensures process { self.new ≡ record (waits_for_message self.old (record { instance = next.instance; at = at }))
            { deadline = Some (deadline_at clock milliseconds next) } }
        ensures then { result ≡ then_of self.new.status }
    {
        let at_clock = clock.saturating_add(u64::from(milliseconds));
        self.deadline = Some(Deadline {
            at: at_clock,
            after: next,
        });
        self.settle_at(Place::new(next.instance(), at))
    }

    /// Puts the save pointer at the start, and takes the deadline away, without memory.
    pub fn start_receive(&mut self)
        ensures { self.new ≡ record self.old { mailbox = with_reset self.old.mailbox; deadline = None } }
    {
        self.mailbox.reset();
        self.deadline = None;
    }
}
