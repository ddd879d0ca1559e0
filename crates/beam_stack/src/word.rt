//! The words of a stack.
ghost use Rattle.std.specs.Prelude.{◌≡◌, ◌≤◌, ◌<◌, ◌+◌, ◌-◌, ◌++◌, List, [], ◌∷◌, false, true, is_some, length, replicate, slice_get, slice_set, take, vec_len, vec_capacity, Some, None, IfOk, IfSome, OnOk, OnErr};
ghost use Rattle.std.specs.List.{list_any};
ghost use Rattle.std.specs.Option.{option_copied};
ghost use Rattle.beam_term.specs.TermValue.{nil_term};
ghost use Rattle.beam_machine.specs.Process.{value_in};
ghost use Rattle.beam_machine.specs.Row.{tag_in};
ghost use Rattle.beam_stack.specs.Word as word;
ghost use Rattle.beam_stack.specs.Word.{Word as TheWord};
ghost use Rattle.beam_stack.specs.Words.{word_of, marked, needs_no_drop, is_word_in, slots_with, below_in, head_in, slot_in, tag_of_word};

use crate::plain::{forget_plain, forget_plain_word};
use beam_machine::process::{Slot, Slots, Tag};
use beam_model::place::Place;
use beam_term::{Term, TermView};
use indexmap::IndexSet;
use std::alloc::{AllocError, Global};
use std::marker::Model;
use std::mem;

/// The content of a word, packed: places are spelled out in it, so that it has 24 bytes.
#[derive(Drop)]
enum PackedWord {
    First {
        has_y: bool,
    },
    Head {
        has_y: bool,
        instance: u32,
        at: usize,
        below: u32,
    },
    Value(Term),
    Tag {
        label: u32,
        instance: u32,
        at: usize,
    },
}

/// A word of a stack: a frame begins, or a y register of the frame, of which the last is y0.
pub struct Word {
    inside: PackedWord,
}

impl Drop for Word {
    fn drop(self) {
        let Word { inside: _inside } = self;
    }
}

impl Model for Word {
    ghost use Rattle.std.specs.Coded.{codes};
    ghost use Rattle.beam_term.specs.Coding.{term_code};
    ghost use Rattle.beam_stack.specs.Word.{Word as TheWord, word_in};

    ghost Value = { TheWord };

    ghost coded = { Prim.hlevel (codes, term_code) };

    ghost view = { λ w. word_in w.inside };
}

/// The fields of a head.
#[derive(Clone, Copy)]
pub struct Head {
    /// Where the frame returns.
    pub back: Option<Place>,
    /// Whether it has y registers, be they none.
    pub has_y: bool,
    /// How many the frame below has.
    pub below: u32,
}

impl Word {
    /// The head of the first frame, which returns nowhere and has no y registers.
    pub(crate) fn first() -> Word
        ensures { result ≡ word.Head None false 0 }
    {
        let inside = PackedWord::First { has_y: false };
        Word { inside }
    }

    /// The head of a frame without y registers, which returns to a place.
    pub(crate) fn head(back: Place, below: u32) -> Word
        ensures { result ≡ word.Head (Some back) false below }
    {
        let inside = PackedWord::Head {
            instance: back.instance(),
            at: back.at(),
            below,
            has_y: false,
        };
        Word { inside }
    }

    /// The word of a y register.
    pub(crate) fn of(slot: Slot) -> Word
        ensures { result ≡ word_of slot }
    {
        let inside = match slot {
            Slot::Value(value) => PackedWord::Value(value),
            Slot::Tag(Tag { label, place }) => PackedWord::Tag {
                label,
                instance: place.instance(),
                at: place.at(),
            },
        };
        Word { inside }
    }

    /// Sets the flag whether its frame has y registers, if it is a head. Any other word stays as it is.
    fn mark(&mut self, flag: bool)
        ensures { self.new ≡ marked flag self.old }
    {
        match &mut self.inside {
            PackedWord::First { has_y } => *has_y = flag,
            PackedWord::Head { has_y, .. } => *has_y = flag,
            _ => (),
        }
    }

    /// Becomes the word of a value. Most have nothing to be freed.
    #[inline(always)]
    fn write(&mut self, value: Term)
        ensures { self.new ≡ word.Value value }
    {
        match &mut self.inside {
            PackedWord::Value(held) => let_go_of(mem::replace(held, value)),
            inside => *inside = PackedWord::Value(value),
        }
    }

    /// Its fields, if it is a head.
    fn as_head(&self) -> Option<Head>
        ensures { result ≡ head_in (Some self.now) }
    {
        match &self.inside {
            PackedWord::First { has_y } => Some(Head {
                back: None,
                has_y: *has_y,
                below: 0,
            }),
            PackedWord::Head {
                instance,
                at,
                below,
                has_y,
            } => Some(Head {
                back: Some(Place::new(*instance, *at)),
                has_y: *has_y,
                below: *below,
            }),
            _ => None,
        }
    }

    /// The value of the y register that it is, unless that holds a tag.
    pub(crate) fn as_value(&self) -> Option<&Term>
        ensures { option_copied result ≡ value_in (slot_in self.now) }
    {
        match &self.inside {
            PackedWord::Value(value) => Some(value),
            _ => None,
        }
    }

    /// The value of the y register that it is, which holds no tag.
    #[inline(always)]
    pub(crate) fn value_there(&self) -> &Term
        requires { is_some (value_in (slot_in self.now)) ≡ true }
        ensures { value_in (slot_in self.now) ≡ Some result.now }
    {
        match &self.inside {
            PackedWord::Value(value) => value,
            _ => unreachable!(),
        }
    }

    /// The catch tag of the y register that it is, if that holds one.
    pub(crate) fn as_tag(&self) -> Option<Tag>
        ensures { result ≡ tag_of_word self.now }
    {
        match &self.inside {
            PackedWord::Tag {
                label,
                instance,
                at,
            } => Some(Tag {
                label: *label,
                place: Place::new(*instance, *at),
            }),
            _ => None,
        }
    }

    /// Whether it returns or catches in that instance.
    fn is_in(&self, number: u32) -> bool
        ensures { result ≡ is_word_in number self.now }
    {
        match &self.inside {
            PackedWord::First { .. } => false,
            PackedWord::Head { instance, .. } => *instance == number,
            PackedWord::Value(_) => false,
            PackedWord::Tag { instance, .. } => *instance == number,
        }
    }

    /// Whether it returns or catches in one of those instances.
    fn is_in_any(&self, numbers: &IndexSet<u32>) -> bool
        ensures { result ≡ list_any (λ n. is_word_in n self.now) numbers.now.keys }
    {
        match &self.inside {
            PackedWord::First { .. } => false,
            PackedWord::Head { instance, .. } => numbers.contains(instance),
            PackedWord::Value(_) => false,
            PackedWord::Tag { instance, .. } => numbers.contains(instance),
        }
    }

    /// An equal word, if it has no reference count: a head, a tag, an integer or `[]`.
    #[inline(always)]
    fn plain(&self) -> Option<Word>
        ensures { IfSome result (λ copy. copy ≡ self.now) }
    {
        let inside = match &self.inside {
            PackedWord::First { has_y } => PackedWord::First { has_y: *has_y },
            PackedWord::Head {
                has_y,
                instance,
                at,
                below,
            } => PackedWord::Head {
                has_y: *has_y,
                instance: *instance,
                at: *at,
                below: *below,
            },
            PackedWord::Value(value) => match value.view() {
                TermView::Integer(n) => PackedWord::Value(Term::integer(n)),
                TermView::Nil => PackedWord::Value(Term::nil()),
                _ => return None,
            },
            PackedWord::Tag {
                label,
                instance,
                at,
            } => PackedWord::Tag {
                label: *label,
                instance: *instance,
                at: *at,
            },
        };
        Some(Word { inside })
    }

    /// Whether it has nothing to be freed: it is no value, or an integer or `[]`.
    #[inline(always)]
    fn needs_no_drop(&self) -> bool
        ensures { result ≡ needs_no_drop self.now }
    {
        match &self.inside {
            PackedWord::Value(value) => matches!(
                value.view(),
                TermView::Integer(_) | TermView::Nil
            ),
            _ => true,
        }
    }

    /// An equal word, whose term is shared.
    #[inline(never)]
    fn try_copy(&self) -> Result<Word, AllocError>
        ensures { IfOk result (λ copy. copy ≡ self.now) }
    {
        let inside = match &self.inside {
            PackedWord::First { has_y } => PackedWord::First { has_y: *has_y },
            PackedWord::Head {
                instance,
                at,
                below,
                has_y,
            } => PackedWord::Head {
                instance: *instance,
                at: *at,
                below: *below,
                has_y: *has_y,
            },
            PackedWord::Value(value) => PackedWord::Value(value.clone()?),
            PackedWord::Tag {
                label,
                instance,
                at,
            } => PackedWord::Tag {
                label: *label,
                instance: *instance,
                at: *at,
            },
        };
        Ok(Word { inside })
    }

    /// The y register that it is, in a new slot, if it is one.
    fn copy_slot(&self) -> Result<Option<Slot>, AllocError>
        ensures { IfOk result (λ slot. slot ≡ slot_in self.now) }
    {
        match &self.inside {
            PackedWord::Value(value) => Ok(Some(Slot::Value(value.clone()?))),
            PackedWord::Tag {
                label,
                instance,
                at,
            } => Ok(Some(Slot::Tag(Tag {
                label: *label,
                place: Place::new(*instance, *at),
            }))),
            _ => Ok(None),
        }
    }
}

/// The fields of the head at a place, if a head stands there.
pub(crate) fn head_at(words: &[Word], at: usize) -> Option<Head>
    ensures { result ≡ head_in (slice_get words.now at) }
{
    match words.get(at) {
        Some(word) => word.as_head(),
        None => None,
    }
}

/// How many y registers the frame below has, by the head at a place.
pub(crate) fn below_at(words: &[Word], at: usize) -> u32
    ensures { result ≡ below_in (slice_get words.now at) }
{
    match head_at(words, at) {
        Some(head) => head.below,
        None => 0,
    }
}

/// Sets the flag of the last word whether its frame has y registers, if it is a head.
pub(crate) fn mark_last(words: &mut Vec<Word>, flag: bool)
    requires { 0 < vec_len words.old }
    ensures room { (vec_len words.new ≡ vec_len words.old) × (vec_capacity words.new ≡ vec_capacity words.old) }
    ensures last { (front : List TheWord) (head : TheWord) → words.old.items ≡ front ++ head ∷ [] → words.new.items ≡ front ++ marked flag head ∷ [] }
{
    let last = words.len() - 1;
    words[last].mark(flag);
}

/// Adds `count` y registers, which read `[]` and for which there is room.
#[tactic(auto, using(crate::proofs::Lists::one_more_of))]
pub(crate) fn push_nils(words: &mut Vec<Word>, count: u32)
    requires { vec_len words.old + count ≤ vec_capacity words.old }
    ensures { words.new.items ≡ words.old.items ++ replicate count (word.Value nil_term) }
{
    for _done in 0..count {
        words.push_reserved(Word::of(Slot::Value(Term::nil())));
    }
}

/// The first catch tag of y registers, of which the last is y0.
#[tactic(auto, using(crate::proofs::Lists::held_last))]
pub(crate) fn tag_in(words: &[Word]) -> Option<Tag>
    ensures { result ≡ tag_in (slots_with [] words.now) }
{
    let mut rest = words;
    while let Some((word, more)) = rest.split_last() {
        if let Some(tag) = word.as_tag() {
            return Some(tag);
        }
        rest = more;
    }
    None
}

/// Whether one of these words returns or catches in that instance.
pub(crate) fn are_in(words: &[Word], number: u32) -> bool
    ensures { result ≡ list_any (is_word_in number) words.now }
{
    words.iter().any(|word| word.is_in(number))
}

/// Whether one of these words returns or catches in one of those instances.
pub(crate) fn are_in_any(words: &[Word], numbers: &IndexSet<u32>) -> bool
    ensures { result ≡ list_any (λ w. list_any (λ n. is_word_in n w) numbers.now.keys) words.now }
{
    words.iter().any(|word| word.is_in_any(numbers))
}

/// How many words more a copy has room for at most, so that its first calls don't move it.
const ROOM: usize = 64;

/// Equal words, with room for as many more, at most 64: a process that waits keeps what a copy of its words takes.
pub(crate) fn copy_words(alloc: Global, words: &[Word]) -> Result<Vec<Word>, AllocError>
    requires { length words.now ≤ 65536 }
    ensures { IfOk result (λ copies. copies.items ≡ words.now) }
{
    let mut copies = Vec::with_capacity(alloc, words.len() + words.len().min(ROOM))?;
    for word in words {
        match word.plain() {
            Some(copy) => copies.push_reserved(copy),
            None => copies.push_reserved(word.try_copy()?),
        }
    }
    Ok(copies)
}

/// The y registers that words are, in new slots: the last word is y0.
#[tactic(auto, using(crate::proofs::Lists::held_last))]
pub(crate) fn copy_slots(alloc: Global, words: &[Word]) -> Result<Slots, AllocError>
    ensures { IfOk result (λ slots. slots ≡ slots_with [] words.now) }
{
    let mut slots = Vec::with_capacity(alloc, words.len())?;
    let mut rest = words;
    while let Some((word, more)) = rest.split_last() {
        if let Some(slot) = word.copy_slot()? {
            slots.push(slot)?;
        }
        rest = more;
    }
    Ok(Slots { items: slots })
}

/// Drops a term. Most have nothing to be freed.
#[inline(always)]
fn let_go_of(term: Term) {
    let needs_no_drop = matches!(term.view(), TermView::Integer(_) | TermView::Nil);
    if needs_no_drop {
        forget_plain(term);
    } else {
        drop(term);
    }
}

/// Drops a word. Most have nothing to be freed.
#[inline(always)]
fn let_go(word: Word) {
    if word.needs_no_drop() {
        forget_plain_word(word);
    } else {
        drop(word);
    }
}

/// Drops the words after the first `count`, the last one first.
#[inline(always)]
pub(crate) fn truncate_words(words: &mut Vec<Word>, count: usize)
    ensures { words.new.items ≡ take count words.old.items }
{
    while words.len() > count {
        let_go(words.take_last());
    }
}

/// Drops the last word, which is a head: it has nothing to be freed.
#[inline(always)]
pub(crate) fn drop_last(words: &mut Vec<Word>)
    requires some { 0 < vec_len words.old }
    requires plain { (front : List TheWord) (last : TheWord) → words.old.items ≡ front ++ last ∷ [] → needs_no_drop last ≡ true }
    ensures { words.new.items ≡ take (length words.old.items - 1) words.old.items }
{
    forget_plain_word(words.take_last());
}

/// Adds a word. Where memory is refused nothing changes.
#[inline(always)]
pub(crate) fn push_word(words: &mut Vec<Word>, word: Word) -> Result<(), AllocError>
    ensures ok { OnOk result (words.new.items ≡ words.old.items ++ word ∷ []) }
    ensures err { OnErr result (words.new.items ≡ words.old.items) }
{
    if words.len() >= words.capacity() {
        words.reserve(1)?;
    }
    words.push_reserved(word);
    Ok(())
}

/// Puts a slot in the place of a word.
#[inline(always)]
pub(crate) fn write_slot(words: &mut Vec<Word>, at: usize, slot: Slot)
    requires { at < vec_len words.old }
    ensures { words.new.items ≡ slice_set words.old.items at (word_of slot) }
{
    match slot {
        Slot::Value(value) => words[at].write(value),
        Slot::Tag(_) => let_go(mem::replace(&mut words[at], Word::of(slot))),
    }
}

/// Drops words, the last one first.
pub(crate) fn drop_words(words: Vec<Word>) {
    let mut words = words;
    truncate_words(&mut words, 0);
}
