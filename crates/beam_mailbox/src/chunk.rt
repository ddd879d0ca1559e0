//! Messages that copies of a mailbox share.
ghost use Rattle.std.specs.Prelude.{◌≡◌, ◌<◌, ◌≤◌, ◌++◌, length, remove, slice_get, IfOk, OnErr};
ghost use Rattle.std.specs.List.{range_with_len};
ghost use Rattle.std.specs.Option.{option_copied};
ghost use Rattle.std.specs.Vec.{vec_len, vec_capacity};
ghost use Rattle.std.specs.VecDeque.{deque_len};

use beam_term::Term;
use std::alloc::{AllocError, Global};
use std::collections::VecDeque;
use std::marker::Model;
use std::sync::Arc;

/// How many messages a chunk is made of: as many as a byte can name.
pub const CHUNK: usize = 256;

/// The remaining ones of 256 messages. Copies share the messages, and each has its own indices of the remaining ones: so a message is
/// taken out without memory. The messages are freed once no copy has one of the chunk left.
#[derive(Debug, Drop)]
pub struct Chunk {
    messages: Arc<Vec<Term>>,
    left: Vec<u8>,
}

impl Model for Chunk {
    ghost use Rattle.std.specs.Prelude.{◌≡◌, List};
    ghost use Rattle.std.specs.Arc.{arc_value};
    ghost use Rattle.std.specs.Vec.{vec_len};
    ghost use Rattle.std.specs.Coded.{coded_list};
    ghost use Rattle.beam_term.specs.Coding.{term_code};
    ghost use Rattle.beam_term.specs.TermValue.{TermValue};
    ghost use Rattle.beam_mailbox.specs.Chunks.{chosen};

    ghost Value = { List TermValue };

    ghost coded = { coded_list term_code };

    ghost view = { λ c. chosen (arc_value c.messages).items c.left.items };

    ghost invariant = { λ c. vec_len (arc_value c.messages) ≡ 256 };
}

/// The indices of all the messages of a chunk.
#[tactic(auto, using(crate::proofs::Chosen::range_more))]
fn all_indices(alloc: Global) -> Result<Vec<u8>, AllocError>
    ensures { IfOk result (λ left. left.items ≡ range_with_len 0 256) }
{
    let mut left = Vec::with_capacity(alloc, CHUNK)?;
    for index in 0..CHUNK {
        left.push(index as u8)?;
    }
    Ok(left)
}

/// Moves the first messages of a queue into a vector that has room for them.
fn move_first(queue: &mut VecDeque<Term>, messages: &mut Vec<Term>)
    requires enough { 256 ≤ deque_len queue.old }
    requires none { vec_len messages.old ≡ 0 }
    requires room { 256 ≤ vec_capacity messages.old }
    ensures all { messages.new.items ++ queue.new.items ≡ queue.old.items }
    ensures count { vec_len messages.new ≡ 256 }
{
    while messages.len() < CHUNK {
        if let Some(message) = queue.pop_front() {
            messages.push_reserved(message);
        }
    }
}

impl Chunk {
    /// A chunk of the first messages of a queue, which are taken out of it. Where memory is refused nothing changes.
    pub fn take_first(alloc: Global, queue: &mut VecDeque<Term>) -> Result<Chunk, AllocError>
        requires { 256 ≤ deque_len queue.old }
        ensures all { IfOk result (λ chunk. chunk ++ queue.new.items ≡ queue.old.items) }
        ensures count { IfOk result (λ chunk. length chunk ≡ 256) }
        ensures err { OnErr result (queue.new ≡ queue.old) }
    {
        let left = all_indices(alloc)?;
        let mut messages = Arc::new(alloc, Vec::with_capacity(alloc, CHUNK)?)?;
        let Some(own) = Arc::get_mut(&mut messages) else {
            return Err(AllocError);
        };
        move_first(queue, own);
        Ok(Chunk { messages, left })
    }

    /// How many messages are left.
    pub fn len(&self) -> usize
        ensures { result ≡ length self.now }
    {
        self.left.len()
    }

    /// A message, by its place among those that are left.
    pub fn get(&self, place: usize) -> Option<&Term>
        ensures { option_copied result ≡ slice_get self.now place }
    {
        let index = self.left.get(place)?;
        self.messages.get(usize::from(*index))
    }

    /// Takes a message out.
    pub fn remove(&mut self, place: usize)
        requires { place < length self.old }
        ensures { self.new ≡ remove self.old place }
    {
        self.left.remove(place);
    }
}

impl Clone for Chunk {
    ghost use Rattle.std.specs.Prelude.{◌≡◌};

    ghost is_clone = { λ chunk copy. copy ≡ chunk };

    fn clone(&self) -> Result<Chunk, AllocError> {
        Ok(Chunk {
            messages: self.messages.clone()?,
            left: Vec::from_slice(*self.left.allocator(), &self.left)?,
        })
    }
}
