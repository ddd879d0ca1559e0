//! Places of messages: in a chunk, or past the chunks among the last messages.
ghost use Rattle.std.specs.Prelude.{◌≡◌, ◌≢◌, ◌<◌, ◌≤◌, ◌+◌, ◌-◌, ◌⊎◌, ◌++◌, [], length, remove, slice_get, slice_index_or, slice_set, take};
ghost use Rattle.std.specs.Option.{option_copied};
ghost use Rattle.beam_mailbox.specs.Chunks.{joined, piece, AreFilled};

use crate::chunk::{CHUNK, Chunk};
use beam_term::Term;
use std::collections::VecDeque;

/// The message at a place.
pub fn last_at(last: &VecDeque<Term>, place: usize) -> Option<&Term>
    ensures { option_copied result ≡ slice_get last.now.items place }
{
    last.get(place)
}

/// Takes a message out of a chunk, and with its last one the chunk.
pub fn remove_from(chunks: &mut VecDeque<Chunk>, chunk: usize, place: usize)
    requires chunk { chunk < length chunks.old.items }
    requires place { place < length (slice_index_or chunks.old.items chunk []) }
    requires filled { AreFilled chunks.old.items }
    ensures messages { joined chunks.new.items ≡ joined (slice_set chunks.old.items chunk (remove (slice_index_or chunks.old.items chunk []) place)) }
    ensures filled { AreFilled chunks.new.items }
{
    if chunks[chunk].len() == 1 {
        chunks.remove(chunk);
    } else {
        chunks[chunk].remove(place);
    }
}

/// Takes out the message at a place of a chunk, or, past the chunks, of the last messages.
pub fn take_out(chunks: &mut VecDeque<Chunk>, last: &mut VecDeque<Term>, chunk: usize, place: usize)
    requires chunk { chunk ≤ length chunks.old.items }
    requires place { place < length (piece chunks.old.items last.old.items chunk) }
    requires filled { AreFilled chunks.old.items }
    ensures messages { joined chunks.new.items ++ last.new.items
        ≡ remove (joined chunks.old.items ++ last.old.items) (length (joined (take chunk chunks.old.items)) + place) }
    ensures filled { AreFilled chunks.new.items }
{
    if chunk < chunks.len() {
        remove_from(chunks, chunk, place);
    } else {
        last.remove(place);
    }
}

/// Where the save pointer is after its message.
pub fn following(chunks: &VecDeque<Chunk>, chunk: usize, place: usize) -> (usize, usize)
    requires { place < usize.MAX }
    ensures over { chunk < length chunks.now.items → place + 1 ≡ length (slice_index_or chunks.now.items chunk []) → (result.0 ≡ chunk + 1) × (result.1 ≡ 0) }
    ensures inside { (length chunks.now.items ≤ chunk) ⊎ (place + 1 ≢ length (slice_index_or chunks.now.items chunk []))
        → (result.0 ≡ chunk) × (result.1 ≡ place + 1) }
{
    if chunk < chunks.len() && place + 1 == chunks[chunk].len() {
        (chunk + 1, 0)
    } else {
        (chunk, place + 1)
    }
}

/// Where the save pointer is after a chunk was added to `chunks` chunks.
pub fn moved(chunks: usize, chunk: usize, place: usize) -> (usize, usize)
    requires { chunks < usize.MAX }
    ensures into { chunk ≡ chunks → 256 ≤ place → (result.0 ≡ chunk + 1) × (result.1 ≡ place - 256) }
    ensures stays { (chunk ≢ chunks) ⊎ (place < 256) → (result.0 ≡ chunk) × (result.1 ≡ place) }
{
    if chunk == chunks && place >= CHUNK {
        (chunk + 1, place - CHUNK)
    } else {
        (chunk, place)
    }
}
