//! Texts of terms that are cut, so that an answer is short however large its terms are.
ghost use Rattle.std.specs.Prelude.{◌≡◌, false, true, IfOk};
ghost use Rattle.std.specs.String.{string_bytes};
ghost use Rattle.beam_model.specs.Text.{text_of};

use beam_erltext::{TextError, print_atom, print_erl};
use beam_lengths::text_length;
use beam_page::ClippedText;
use beam_term::Term;
use std::alloc::{AllocError, Global};

/// How many bytes a text has at most.
const MOST_BYTES: usize = 1_000;

/// How many bytes of text an answer may still get.
#[derive(Clone, Copy)]
pub struct TextRoom {
    left: usize,
}

impl TextRoom {
    /// Room for that many bytes.
    pub fn new(bytes: usize) -> TextRoom {
        TextRoom { left: bytes }
    }

    /// How many bytes the next text may have.
    fn most(&self) -> usize {
        self.left.min(MOST_BYTES)
    }

    /// A text of these bytes, which takes their room.
    fn take(&mut self, alloc: Global, bytes: &[u8]) -> Result<ClippedText, AllocError>
        ensures { IfOk result (λ text. text.is_whole ≡ false) }
    {
        self.left = self.left.saturating_sub(bytes.len());
        Ok(ClippedText {
            text: String::from_str(alloc, front(bytes))?,
            is_whole: false,
        })
    }
}

/// The characters that are whole at the front of bytes.
fn front(bytes: &[u8]) -> &str {
    match str::from_utf8(bytes) {
        Ok(text) => text,
        Err(error) => match bytes.get(..error.valid_up_to()) {
            Some(valid) => str::from_utf8(valid).unwrap_or(""),
            None => "",
        },
    }
}

fn print(term: &Term, out: &mut Vec<u8>) -> Result<(), AllocError> {
    match print_erl(term, out) {
        Ok(()) => Ok(()),
        Err(_) => Err(AllocError),
    }
}

/// How many bytes are left of `most`.
fn left(most: usize, text: &[u8]) -> usize {
    most.saturating_sub(text.len())
}

/// Appends the front of a term without parts, as far as there is room.
fn put_leaf(term: &Term, most: usize, text: &mut Vec<u8>) -> Result<(), AllocError> {
    let Some(name) = term.as_atom() else {
        return Ok(());
    };
    let mut whole = Vec::new(*text.allocator());
    if print_atom(name.as_str(), &mut whole).is_err() {
        return Err(AllocError);
    }
    let count = left(most, text).min(whole.len());
    text.extend_from_slice(&whole[..count])
}

/// Appends the front of a list, as many of its elements as have room. Returns the first part that has none.
fn put_list<'a>(
    list: &'a Term,
    most: usize,
    text: &mut Vec<u8>,
) -> Result<Option<&'a Term>, AllocError> {
    let mut rest = list;
    let mut mark = b'[';
    // Each turn appends a byte or more.
    for _ in 0..most {
        if left(most, text) == 0 {
            return Ok(None);
        }
        let Some((head, tail)) = rest.as_pair() else {
            text.push(b'|')?;
            return Ok(Some(rest));
        };
        text.push(mark)?;
        if text_length(head, left(most, text)).is_none() {
            return Ok(Some(head));
        }
        print(head, text)?;
        mark = b',';
        rest = tail;
    }
    Ok(None)
}

/// Appends the front of a tuple, as many of its elements as have room. Returns the first one that has none.
fn put_tuple<'a>(
    items: &'a [Term],
    most: usize,
    text: &mut Vec<u8>,
) -> Result<Option<&'a Term>, AllocError> {
    let mut mark = b'{';
    for item in items {
        if left(most, text) == 0 {
            return Ok(None);
        }
        text.push(mark)?;
        if text_length(item, left(most, text)).is_none() {
            return Ok(Some(item));
        }
        print(item, text)?;
        mark = b',';
    }
    Ok(None)
}

/// Appends the front of the text of a term, which has more bytes than there is room for. Returns the part in which the text goes on.
fn put_front<'a>(
    term: &'a Term,
    most: usize,
    text: &mut Vec<u8>,
) -> Result<Option<&'a Term>, AllocError> {
    if term.as_pair().is_some() {
        return put_list(term, most, text);
    }
    match term.as_tuple() {
        Some(items) => put_tuple(items, most, text),
        None => {
            put_leaf(term, most, text)?;
            Ok(None)
        }
    }
}

/// The front of the text of a term that has more bytes than there is room for: up to the last element that has room, or to the last whole
/// character of an atom.
fn cut(alloc: Global, term: &Term, room: &mut TextRoom) -> Result<ClippedText, AllocError>
    ensures { IfOk result (λ text. text.is_whole ≡ false) }
{
    let most = room.most();
    let mut text = Vec::new(alloc);
    let mut part = term;
    // Each turn but the last appends a byte or more.
    for _ in 0..most {
        match put_front(part, most, &mut text)? {
            Some(next) => part = next,
            None => break,
        }
    }
    room.take(alloc, &text)
}

/// The text of a term, as `print_erl` writes it: whole where it has at most 1,000 bytes and the answer has room for them, else its front, up
/// to the last element that has room. It takes the room of the text, and O(n^2) steps where the text has n bytes, however large the term is.
pub fn clipped(alloc: Global, term: &Term, room: &mut TextRoom) -> Result<ClippedText, AllocError>
    ensures whole { IfOk result (λ text. text.is_whole ≡ true → string_bytes text.text ≡ text_of term.now) }
{
    if text_length(term, room.most()).is_none() {
        return cut(alloc, term, room);
    }
    let mut bytes = Vec::new(alloc);
    match print_erl(term, &mut bytes) {
        Ok(()) => {}
        Err(TextError::NoMemory) => return Err(AllocError),
        Err(_) => return room.take(alloc, &bytes),
    }
    room.left = room.left.saturating_sub(bytes.len());
    match String::from_utf8(bytes) {
        Ok(text) => Ok(ClippedText {
            text,
            is_whole: true,
        }),
        Err(_) => room.take(alloc, &[]),
    }
}
