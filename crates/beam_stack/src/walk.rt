//! The frames of a process one after another, as views read them.
ghost use Rattle.std.specs.Prelude.{◌≡◌, ◌≤◌, ◌==◌, [], length, IfOk};
ghost use Rattle.beam_machine.specs.View.{slots_of};
ghost use Rattle.beam_stack.specs.Frames.{newest_y, newest_back, older_than};
ghost use Rattle.beam_stack.specs.Words.{IsStack, frames_of};

use crate::word::{Word, below_at, copy_slots, head_at};
use beam_machine::process::Slots;
use beam_model::place::Place;
use std::alloc::{AllocError, Global};
use std::marker::Model;

/// A walk over frames, the newest first; contracts see the frames that weren't passed yet.
#[derive(Drop)]
pub struct Walk<'a> {
    words: &'a [Word],
    newest: usize,
}

impl<'a> Model for Walk<'a> {
    ghost use Rattle.std.specs.Prelude.{◌≤◌, List, length};
    ghost use Rattle.std.specs.Coded.{codes};
    ghost use Rattle.beam_term.specs.Coding.{term_code};
    ghost use Rattle.beam_machine.specs.declared.process.Frame.{Frame};
    ghost use Rattle.beam_stack.specs.Words.{frames_of, IsStack};

    ghost Value = { List Frame };

    ghost coded = { Prim.hlevel (codes, term_code) };

    ghost view = { λ w. frames_of w.words.now };

    ghost invariant = { λ w. IsStack w.words.now w.newest × (length w.words.now ≤ 65536) };
}

impl<'a> Walk<'a> {
    /// The frames that these words stand for.
    pub(crate) fn new(words: &'a [Word], newest: usize) -> Walk<'a>
        requires stack { IsStack words.now newest }
        requires most { length words.now ≤ 65536 }
        ensures { result ≡ frames_of words.now }
    {
        Walk { words, newest }
    }

    /// Whether all were passed.
    pub fn is_done(&self) -> bool
        ensures { result ≡ (length self.now == 0) }
    {
        self.words.is_empty()
    }

    /// Where the newest of them returns. `None` where all were passed, or it returns nowhere.
    pub fn back(&self) -> Option<Place>
        ensures { result ≡ newest_back self.now }
    {
        match head_at(self.words, self.newest) {
            Some(head) => head.back,
            None => None,
        }
    }

    /// The y registers of the newest of them, y0 first, in new slots that share their terms; none where it has none.
    pub fn y(&self, alloc: Global) -> Result<Slots, AllocError>
        ensures { IfOk result (λ slots. slots ≡ slots_of (newest_y self.now)) }
    {
        if self.newest < self.words.len() {
            copy_slots(alloc, &self.words[self.newest + 1..])
        } else {
            Ok(Slots {
                items: Vec::new(alloc),
            })
        }
    }

    /// Passes the newest of them.
    pub fn pass(&mut self)
        ensures { self.new ≡ older_than self.old }
    {
        let below = below_at(self.words, self.newest);
        self.words = &self.words[..self.newest];
        self.newest = self.newest.saturating_sub(1 + below as usize);
    }
}
