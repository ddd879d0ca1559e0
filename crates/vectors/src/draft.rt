//! Texts and bytes that are put together.

use crate::error::TestRowError;
use std::alloc::Global;

/// Bytes that are put together piece by piece. A failure is kept, and answered at the end.
#[derive(Drop)]
pub struct Draft {
    bytes: Vec<u8>,
    fault: Option<TestRowError>,
}

impl Draft {
    /// No bytes.
    pub fn new(alloc: Global) -> Draft {
        Draft {
            bytes: Vec::new(alloc),
            fault: None,
        }
    }

    /// Notes a failure: no bytes are given at the end.
    pub fn fail(&mut self, why: TestRowError) {
        self.fault = Some(why);
    }

    /// Appends bytes.
    pub fn push(&mut self, bytes: &[u8]) {
        if self.bytes.extend_from_slice(bytes).is_err() {
            self.fail(TestRowError::NoMemory);
        }
    }

    /// Appends a text.
    pub fn push_text(&mut self, text: &str) {
        self.push(text.as_bytes());
    }

    /// Appends a character.
    pub fn push_character(&mut self, character: char) {
        let mut buffer = [0; 4];
        self.push_text(character.encode_utf8(&mut buffer));
    }

    /// Appends a text that was made, if it was.
    pub fn push_made(&mut self, made: &Result<String, TestRowError>) {
        match made {
            Ok(text) => self.push_text(text),
            Err(why) => self.fail(*why),
        }
    }

    /// Whether it has no bytes.
    pub fn is_empty(&self) -> bool {
        self.bytes.is_empty()
    }

    /// The bytes so far.
    pub fn as_slice(&self) -> &[u8] {
        &self.bytes
    }

    /// The bytes, or the first failure.
    pub fn bytes(self) -> Result<Vec<u8>, TestRowError> {
        match self.fault {
            None => Ok(self.bytes),
            Some(why) => Err(why),
        }
    }

    /// The text of the bytes, or the first failure.
    pub fn text(self) -> Result<String, TestRowError> {
        match self.bytes() {
            Ok(bytes) => text_of(bytes),
            Err(why) => Err(why),
        }
    }
}

/// The text that bytes are.
pub fn text_of(bytes: Vec<u8>) -> Result<String, TestRowError> {
    match String::from_utf8(bytes) {
        Ok(text) => Ok(text),
        Err(_) => Err(TestRowError::No("text")),
    }
}
