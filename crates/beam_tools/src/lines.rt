//! Messages that are made in memory.

use itoa::Buffer;
use std::alloc::{AllocError, Global};

/// A text that grows. If memory is refused for a part of it, the error comes once, at the end.
pub struct Lines {
    text: Vec<u8>,
    is_refused: bool,
}

impl Drop for Lines {
    fn drop(self) {
        let Lines {
            text: _text,
            is_refused: _is_refused,
        } = self;
    }
}

impl Lines {
    /// An empty text.
    pub fn new(alloc: Global) -> Lines {
        Lines {
            text: Vec::new(alloc),
            is_refused: false,
        }
    }

    /// Adds a text.
    pub fn push(&mut self, text: &[u8]) {
        if self.text.extend_from_slice(text).is_err() {
            self.refuse();
        }
    }

    /// Adds a number.
    pub fn push_number(&mut self, number: usize) {
        let mut digits = Buffer::new();
        self.push(digits.format(number).as_bytes());
    }

    /// Notes that memory was refused for a part.
    pub fn refuse(&mut self) {
        self.is_refused = true;
    }

    /// Whether the text is empty.
    pub fn is_empty(&self) -> bool {
        self.text.is_empty()
    }

    /// The whole text. `Err` if memory was refused for a part of it.
    pub fn into_text(self) -> Result<Vec<u8>, AllocError> {
        let Lines { text, is_refused } = self;
        if is_refused {
            return Err(AllocError);
        }
        Ok(text)
    }
}
