//! Texts whose terms aren't written out yet.
ghost use Rattle.std.specs.Prelude.{◌≡◌, ◌++◌, [], OnOk};

use beam_term::Term;
use std::alloc::{AllocError, Global};
use std::marker::Model;
use std::mem;

/// Bytes, and the text of a term after them.
pub struct TextPart {
    /// The bytes before the term's text.
    pub before: Vec<u8>,
    /// The term, which is shared.
    pub term: Term,
}

impl Drop for TextPart {
    fn drop(self) {
        let TextPart {
            before: _before,
            term: _term,
        } = self;
    }
}

/// A text whose terms are shared and not written out: it takes memory for its other bytes alone, however long its terms' texts are.
/// Contracts see the text.
pub struct TextParts {
    parts: Vec<TextPart>,
    last: Vec<u8>,
}

impl Drop for TextParts {
    fn drop(self) {
        let TextParts {
            parts: _parts,
            last: _last,
        } = self;
    }
}

impl Model for TextParts {
    ghost use Rattle.std.specs.Prelude.{List, ℕ, ◌++◌};
    ghost use Rattle.beam_machine.specs.TextParts.{parts_text};

    ghost Value = { List ℕ };

    ghost view = { λ t. parts_text t.parts.items ++ t.last.items };
}

impl TextParts {
    ghost use Rattle.beam_model.specs.Text.{text_of};
    ghost use Rattle.beam_machine.specs.TextParts.{parts_text};

    /// The empty text. It takes no memory.
    pub fn new(alloc: Global) -> TextParts
        ensures { result ≡ [] }
    {
        TextParts {
            parts: Vec::new(alloc),
            last: Vec::new(alloc),
        }
    }

    /// What allocates the parts.
    pub fn allocator(&self) -> Global {
        *self.parts.allocator()
    }

    /// Appends bytes. Where memory is refused nothing is appended.
    pub fn push_bytes(&mut self, bytes: &[u8]) -> Result<(), AllocError>
        ensures { OnOk result (self.new ≡ self.old ++ bytes.now) }
    {
        self.last.extend_from_slice(bytes)
    }

    /// Appends the text of a term, which is shared.
    pub fn push_term(&mut self, term: &Term) -> Result<(), AllocError>
        ensures { OnOk result (self.new ≡ self.old ++ text_of term.now) }
    {
        let term = term.clone()?;
        let alloc = *self.parts.allocator();
        let before = mem::replace(&mut self.last, Vec::new(alloc));
        self.parts.push(TextPart { before, term })?;
        Ok(())
    }

    /// The terms of the text in their order, each with the bytes between it and the term before, and the bytes after the last term.
    pub fn as_parts(&self) -> (&[TextPart], &[u8])
        ensures { self.now ≡ parts_text result.0.now ++ result.1.now }
    {
        (&self.parts, &self.last)
    }
}
