//! The frames of a process, and how many words they count.
ghost use Rattle.std.specs.Prelude.{◌≡◌, ◌≤◌, ◌<◌, ◌+◌, ◌==◌, if◌then◌else◌, true, drop, [], ◌∷◌, length, option_map, option_and_then, is_some, nat_lt, replicate, IfOk, IfSome, IfNone, OnOk, OnErr, Some, None};
ghost use Rattle.std.specs.List.{list_any};
ghost use Rattle.std.specs.Option.{option_copied};
ghost use Rattle.beam_term.specs.TermValue.{nil_term};
ghost use Rattle.beam_machine.specs.declared.process.Slot.TheVariants as slot;
ghost use Rattle.beam_machine.specs.Change.{is_frame_in};
ghost use Rattle.beam_machine.specs.Process.{words_of, read_slots, with_y};
ghost use Rattle.beam_machine.specs.Row.{tag_of};
ghost use Rattle.beam_stack.specs.Frames.{newest_y, slot_at, is_tag, y_count, is_bare, drops, with_slot, older_than, back_of, newest_back, head_of, first_tag, from_tag};
ghost use Rattle.beam_stack.specs.Words.{slot_in};

use crate::walk::Walk;
use crate::word::{
    Head, Word, are_in, are_in_any, below_at, copy_words, drop_last, drop_words, head_at,
    mark_last, push_nils, push_word, tag_in, truncate_words, write_slot,
};
use beam_machine::process::{Slot, Tag};
use beam_model::place::Place;
use beam_term::Term;
use indexmap::IndexSet;
use std::alloc::{AllocError, Global};
use std::marker::Model;

/// The frames of a process.
pub struct Frames {
    /// The newest frame stands at the end.
    words: Vec<Word>,
    /// Where the head of the newest frame stands.
    newest: usize,
}

impl Drop for Frames {
    fn drop(self) {
        let Frames {
            words,
            newest: _newest,
        } = self;
        drop_words(words);
    }
}

impl Model for Frames {
    ghost use Rattle.std.specs.Prelude.{◌≤◌, List, length};
    ghost use Rattle.std.specs.Coded.{codes};
    ghost use Rattle.beam_term.specs.Coding.{term_code};
    ghost use Rattle.beam_machine.specs.declared.process.Frame.{Frame};
    ghost use Rattle.beam_stack.specs.Words.{frames_of, IsStack};

    ghost Value = { List Frame };

    ghost coded = { Prim.hlevel (codes, term_code) };

    ghost view = { λ f. frames_of f.words.items };

    ghost invariant = { λ f. IsStack f.words.items f.newest × (length f.words.items ≤ 65536) };
}

/// Where the frame of this head returns, if it has no y registers.
fn back_in(head: Head) -> Option<Option<Place>>
    ensures { result ≡ (if head.has_y then None else Some head.back) }
{
    if head.has_y { None } else { Some(head.back) }
}

impl Frames {
    /// The first frame of a process, which returns nowhere.
    pub fn first(alloc: Global) -> Result<Frames, AllocError>
        ensures { IfOk result (λ f. f ≡ record { back = None; y = None } ∷ []) }
    {
        let words = vec![in alloc; Word::first()]?;
        Ok(Frames { words, newest: 0 })
    }

    /// No frames. It takes no memory.
    pub fn none(alloc: Global) -> Frames
        ensures { result ≡ [] }
    {
        Frames {
            words: Vec::new(alloc),
            newest: 0,
        }
    }

    /// How many words they count.
    pub fn words(&self) -> usize
        ensures value { result ≡ words_of self.now }
        ensures most { result ≤ 65536 }
    {
        self.words.len()
    }

    /// How many y registers the newest frame has.
    pub fn y_count(&self) -> usize
        ensures { result ≡ y_count self.now }
    {
        self.words.len().saturating_sub(self.newest + 1)
    }

    /// The head of the newest frame, if there is a frame.
    fn head(&self) -> Option<Head>
        ensures { result ≡ head_of self.now }
    {
        head_at(&self.words, self.newest)
    }

    /// Whether the newest frame has y registers, be they none.
    fn has_y(&self) -> bool
        ensures { result ≡ is_some (newest_y self.now) }
    {
        match self.head() {
            Some(head) => head.has_y,
            None => false,
        }
    }

    /// Whether there is a newest frame, and it has no y registers.
    pub fn is_bare(&self) -> bool
        ensures { result ≡ is_bare self.now }
    {
        match self.head() {
            Some(head) => !head.has_y,
            None => false,
        }
    }

    /// Whether the newest frame has exactly that many y registers.
    #[tactic(auto, using(crate::proofs::Readings::drops_is))]
    pub fn can_drop(&self, count: u32) -> bool
        ensures { result ≡ drops count (newest_y self.now) }
    {
        self.y_count() == count as usize && (count > 0 || self.has_y())
    }

    /// The return place of the newest frame, where it has no y registers.
    pub fn back(&self) -> Option<Option<Place>>
        ensures { result ≡ back_of self.now }
    {
        match self.head() {
            Some(head) => back_in(head),
            None => None,
        }
    }

    /// Where the newest frame returns. `None` where there is no frame, or it returns nowhere.
    pub fn newest_back(&self) -> Option<Place>
        ensures { result ≡ newest_back self.now }
    {
        match self.head() {
            Some(head) => head.back,
            None => None,
        }
    }

    /// Whether the newest frame has a y register.
    #[inline(always)]
    pub fn has(&self, register: u32) -> bool
        ensures { result ≡ nat_lt register (y_count self.now) }
    {
        self.newest + 1 + (register as usize) < self.words.len()
    }

    /// The word of a y register of the newest frame.
    fn register(&self, register: u32) -> Option<&Word>
        ensures { option_and_then slot_in (option_copied result) ≡ slot_at (newest_y self.now) register }
    {
        if self.has(register) {
            Some(&self.words[self.words.len() - 1 - register as usize])
        } else {
            None
        }
    }

    /// The value of a y register of the newest frame. `None` where there is no such register, or it holds a tag.
    pub fn value(&self, register: u32) -> Option<&Term>
        ensures { option_copied result ≡ read_slots (newest_y self.now) register }
    {
        match self.register(register) {
            Some(word) => word.as_value(),
            None => None,
        }
    }

    /// The value of a y register of the newest frame, which has it, and no tag in it.
    #[inline(always)]
    pub fn value_there(&self, register: u32) -> &Term
        requires { is_some (read_slots (newest_y self.now) register) ≡ true }
        ensures { read_slots (newest_y self.now) register ≡ Some result.now }
    {
        let at = self.words.len() - 1 - register as usize;
        self.words[at].value_there()
    }

    /// Whether a y register of the newest frame holds a catch tag.
    pub fn has_tag(&self, register: u32) -> bool
        ensures { result ≡ is_tag (slot_at (newest_y self.now) register) }
    {
        match self.register(register) {
            Some(word) => word.as_tag().is_some(),
            None => false,
        }
    }

    /// Puts a frame without y registers on top. Where memory is refused nothing changes.
    #[inline(always)]
    pub fn push(&mut self, back: Place) -> Result<(), AllocError>
        requires room { words_of self.old < 65536 }
        ensures ok { OnOk result (self.new ≡ record { back = Some back; y = None } ∷ self.old) }
        ensures err { OnErr result (self.new ≡ self.old) }
    {
        let newest = self.words.len();
        let below = self.y_count() as u32;
        push_word(&mut self.words, Word::head(back, below))?;
        self.newest = newest;
        Ok(())
    }

    /// Drops the newest frame, without memory.
    pub fn pop(&mut self)
        ensures { self.new ≡ older_than self.old }
    {
        let below = below_at(&self.words, self.newest);
        truncate_words(&mut self.words, self.newest);
        self.newest = self.newest.saturating_sub(1 + below as usize);
    }

    /// Drops the newest frame, which has no y registers, without memory.
    #[inline(always)]
    fn pop_bare(&mut self)
        requires { is_bare self.old ≡ true }
        ensures { self.new ≡ older_than self.old }
    {
        let below = below_at(&self.words, self.newest);
        drop_last(&mut self.words);
        self.newest = self.newest.saturating_sub(1 + below as usize);
    }

    /// Drops the newest frame, which has no y registers, if it returns to a row of that instance, and answers the row. Else it answers
    /// None, and nothing changes. It takes no memory.
    #[inline(always)]
    pub fn pop_to(&mut self, instance: u32) -> Option<usize>
        requires { is_bare self.old ≡ true }
        ensures back { IfSome result (λ at. newest_back self.old ≡ Some (record { instance = instance; at = at })) }
        ensures some { IfSome result (λ _. self.new ≡ older_than self.old) }
        ensures none { IfNone result (self.new ≡ self.old) }
    {
        match self.newest_back() {
            Some(place) if place.instance() == instance => {
                self.pop_bare();
                Some(place.at())
            }
            _ => None,
        }
    }

    /// Gives the newest frame, which has no y registers, `count` of them, which read `[]`. Where memory is refused nothing changes.
    #[inline(always)]
    pub fn allocate(&mut self, count: u32) -> Result<(), AllocError>
        requires bare { is_bare self.old ≡ true }
        requires room { words_of self.old + count ≤ 65536 }
        ensures ok { OnOk result (self.new ≡ with_y self.old (Some (replicate count (slot.Value nil_term)))) }
        ensures err { OnErr result (self.new ≡ self.old) }
    {
        self.words.reserve(count as usize)?;
        mark_last(&mut self.words, true);
        push_nils(&mut self.words, count);
        Ok(())
    }

    /// Drops the y registers of the newest frame, without memory.
    pub fn drop_y(&mut self)
        ensures { self.new ≡ with_y self.old None }
    {
        truncate_words(&mut self.words, self.newest + 1);
        if !self.words.is_empty() {
            mark_last(&mut self.words, false);
        }
    }

    /// Drops the first y registers of the newest frame, without memory.
    pub fn trim(&mut self, dropped: u32)
        requires { dropped ≤ y_count self.old }
        ensures { self.new ≡ with_y self.old (option_map (drop dropped) (newest_y self.old)) }
    {
        let remaining = self.words.len() - dropped as usize;
        truncate_words(&mut self.words, remaining);
    }

    /// Puts a slot into a y register of the newest frame, where it has one.
    #[inline(always)]
    pub fn put_slot(&mut self, register: u32, slot: Slot)
        requires { register < y_count self.old }
        ensures { self.new ≡ with_slot self.old register slot }
    {
        let at = self.words.len() - 1 - register as usize;
        write_slot(&mut self.words, at, slot);
    }

    /// The first catch tag of the newest frame.
    fn newest_tag(&self) -> Option<Tag>
        ensures { result ≡ tag_of (newest_y self.now) }
    {
        if self.newest < self.words.len() {
            tag_in(&self.words[self.newest + 1..])
        } else {
            None
        }
    }

    /// Whether there is no frame.
    pub fn is_empty(&self) -> bool
        ensures { result ≡ (length self.now == 0) }
    {
        self.words.is_empty()
    }

    /// The first catch tag, newest frame first. The frames above the tag's frame are dropped, and all of them where there is no tag.
    #[tactic(auto, using(crate::proofs::Tags::tag_found, crate::proofs::Tags::found_from, crate::proofs::Tags::tag_further, crate::proofs::Tags::from_further, crate::proofs::Tags::fewer, crate::proofs::Tags::none_left))]
    pub fn catch_tag(&mut self) -> Option<Tag>
        ensures tag { result ≡ first_tag self.old }
        ensures frames { self.new ≡ from_tag self.old }
    {
        while !self.is_empty() {
            if let Some(tag) = self.newest_tag() {
                return Some(tag);
            }
            self.pop();
        }
        None
    }

    /// The first catch tag, newest frame first.
    pub fn first_tag(&self) -> Option<Tag>
        ensures { result ≡ first_tag self.now }
    {
        tag_in(&self.words)
    }

    /// The first catch tag of the frames below the newest.
    pub fn older_tag(&self) -> Option<Tag>
        ensures { result ≡ first_tag (older_than self.now) }
    {
        tag_in(&self.words[..self.newest])
    }

    /// Whether a frame returns or catches in that instance. It takes no memory.
    pub fn are_in(&self, number: u32) -> bool
        ensures { result ≡ list_any (is_frame_in number) self.now }
    {
        are_in(&self.words, number)
    }

    /// Whether a frame returns or catches in one of those instances: one look-up for each word, for any number of instances. It takes no
    /// memory.
    pub fn are_in_any(&self, numbers: &IndexSet<u32>) -> bool
        ensures { result ≡ list_any (λ n. list_any (is_frame_in n) self.now) numbers.now.keys }
    {
        are_in_any(&self.words, numbers)
    }

    /// The frames one after another, the newest first.
    pub fn walk(&self) -> Walk<'_>
        ensures { result ≡ self.now }
    {
        Walk::new(&self.words, self.newest)
    }

    /// Equal frames, with room for a few more, in one block. Where memory is refused there are none.
    pub fn try_copy(&self, alloc: Global) -> Result<Frames, AllocError>
        ensures { IfOk result (λ copy. copy ≡ self.now) }
    {
        Ok(Frames {
            words: copy_words(alloc, &self.words)?,
            newest: self.newest,
        })
    }
}
