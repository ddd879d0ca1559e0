//! The notation of columns: names of texts, repeated texts, and pictures of control characters.

use crate::draft::Draft;
use crate::error::TestRowError;
use std::alloc::Global;
use std::fmt;

/// A text that rows name.
pub struct Definition<'a> {
    pub name: &'a str,
    pub text: String,
}

impl Drop for Definition<'_> {
    fn drop(self) {
        let Definition {
            name: _name,
            text: _text,
        } = self;
    }
}

fn defined<'a>(definitions: &'a [Definition<'_>], name: &str) -> Option<&'a str> {
    for definition in definitions {
        if definition.name == name {
            return Some(definition.text.as_str());
        }
    }
    None
}

// Appends the text for what follows a `«`: a name, `»`, and a text.
fn push_named(draft: &mut Draft, definitions: &[Definition<'_>], piece: &str) {
    let (name, behind) = piece.split_once('»').unwrap_or((piece, ""));
    match defined(definitions, name) {
        Some(text) => draft.push_text(text),
        None => draft.fail(TestRowError::Marks),
    }
    draft.push_text(behind);
}

/// The text in which `«NAME»` stands for the text of that name.
pub fn expand(
    alloc: Global,
    definitions: &[Definition<'_>],
    text: &str,
) -> Result<String, TestRowError> {
    let mut draft = Draft::new(alloc);
    let mut pieces = text.split('«');
    draft.push_text(pieces.next().unwrap_or(""));
    for piece in pieces {
        push_named(&mut draft, definitions, piece);
    }
    draft.text()
}

// The control character of a picture, and each other character itself.
fn control_of(shown: char) -> char {
    match shown {
        '\u{2400}'..='\u{241F}' => char::from_u32(shown as u32 - 0x2400).unwrap_or(shown),
        _ => shown,
    }
}

// Appends the text, with each picture of a control character as that character.
fn push_shown(draft: &mut Draft, text: &str) {
    for shown in text.chars() {
        draft.push_character(control_of(shown));
    }
}

// Appends a text as often as its count says: `COUNT×TEXT`.
fn push_times(draft: &mut Draft, repeated: &str) {
    let (count, text) = repeated.split_once('×').unwrap_or(("", ""));
    match count.parse::<u32>() {
        Ok(count) => push_repeated(draft, count, text),
        Err(_) => draft.fail(TestRowError::Marks),
    }
}

fn push_repeated(draft: &mut Draft, count: u32, text: &str) {
    for _ in 0..count {
        push_shown(draft, text);
    }
}

/// The text in which `⟨COUNT×TEXT⟩` stands for COUNT times TEXT, and each of the pictures U+2400 to U+241F for its control character.
pub fn unfold(alloc: Global, text: &str) -> Result<String, TestRowError> {
    let mut draft = Draft::new(alloc);
    let mut pieces = text.split('⟨');
    push_shown(&mut draft, pieces.next().unwrap_or(""));
    for piece in pieces {
        let (repeated, behind) = piece.split_once('⟩').unwrap_or(("", piece));
        push_times(&mut draft, repeated);
        push_shown(&mut draft, behind);
    }
    draft.text()
}

// The picture of a control character, and each other character itself.
fn picture_of(character: char) -> char {
    match character {
        '\0'..='\u{1F}' => char::from_u32(character as u32 + 0x2400).unwrap_or(character),
        _ => character,
    }
}

/// A text on one line: each control character as its picture.
#[derive(Clone, Copy)]
pub struct OneLine<'a>(pub &'a str);

impl fmt::Display for OneLine<'_> {
    fn fmt<W: fmt::Write>(&self, f: &mut fmt::Formatter<W>) -> fmt::Result {
        for character in self.0.chars() {
            f.write_char(picture_of(character))?;
        }
        Ok(())
    }
}
