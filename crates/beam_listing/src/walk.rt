//! The forms of a text, one after another, also the forms after one that is refused.

use crate::forms::{stop, uncommented};
use crate::heads::{attributes, exports, item, labels, module};
use crate::miss::Miss;
use crate::partial_terms::is_partial_term;
use beam_erltext::token::skip_blanks;
use beam_model::item::Item;
use std::alloc::{AllocError, Global};

/// The kind of a form.
#[derive(Clone, Copy, Debug, PartialEq, Eq)]
pub enum FormKind {
    /// A head, a function or a remark.
    Other,
    /// An instruction of a function.
    Instruction,
    /// The text isn't terms with a full stop.
    Syntax,
    /// A form that isn't one of a listing, or stands out of its place.
    Unknown,
}

/// A form, and the line, from 1, at which it begins.
#[derive(Clone, Copy, Debug, PartialEq, Eq)]
pub struct FormAt {
    pub line: usize,
    pub kind: FormKind,
}

// The state of a walk: the rest of the text, its line, and which forms were passed.
#[derive(Drop)]
struct FormWalk<'a> {
    rest: &'a [u8],
    line: usize,
    heads: u8,
    in_function: bool,
}

// The text after the next full stop that ends a line.
fn after_full_stop(text: &[u8]) -> &[u8] {
    for at in 1..text.len() {
        if text[at - 1] == b'.' && text[at] == b'\n' {
            return &text[at..];
        }
    }
    &[]
}

fn newlines(text: &[u8]) -> usize {
    let mut count: usize = 0;
    for byte in text {
        if *byte == b'\n' {
            count = count.saturating_add(1);
        }
    }
    count
}

// The kind of a form that isn't the expected one.
fn fault_kind(alloc: Global, form: &[u8], miss: Miss) -> Result<FormKind, AllocError> {
    if matches!(miss, Miss::NoMemory) {
        return Err(AllocError);
    }
    match is_partial_term(alloc, 4, form) {
        Ok(true) => Ok(FormKind::Unknown),
        Ok(false) => Ok(FormKind::Syntax),
        Err(_) => Err(AllocError),
    }
}

fn head(alloc: Global, heads: u8, form: &[u8]) -> Result<(), Miss> {
    match heads {
        0 => {
            module(alloc, form)?;
        }
        1 => {
            exports(alloc, form)?;
        }
        2 => {
            attributes(alloc, form)?;
        }
        _ => {
            labels(alloc, form)?;
        }
    }
    Ok(())
}

impl<'a> FormWalk<'a> {
    // Passes the text before the rest.
    fn pass(&mut self, rest: &'a [u8]) {
        let size = self.rest.len().saturating_sub(rest.len());
        let (front, _) = self.rest.split_at(size);
        self.line = self.line.saturating_add(newlines(front));
        self.rest = rest;
    }

    fn kind(&mut self, alloc: Global, form: &[u8]) -> Result<FormKind, AllocError> {
        if self.heads < 4 {
            let read = head(alloc, self.heads, form);
            self.heads = self.heads.saturating_add(1);
            return match read {
                Ok(()) => Ok(FormKind::Other),
                Err(miss) => fault_kind(alloc, form, miss),
            };
        }
        match item(alloc, form) {
            Ok(Item::Function(_)) => {
                self.in_function = true;
                Ok(FormKind::Other)
            }
            Ok(Item::Instruction(_)) if self.in_function => Ok(FormKind::Instruction),
            Ok(Item::Instruction(_)) => Ok(FormKind::Unknown),
            Ok(Item::Remark) => Ok(FormKind::Other),
            Err(miss) => fault_kind(alloc, form, miss),
        }
    }

    // The kind of the form at the front of a text, and the text after it.
    fn next(&mut self, alloc: Global, text: &'a [u8]) -> Result<(FormKind, &'a [u8]), AllocError> {
        match stop(alloc, b'.', text) {
            Ok(size) => {
                let (form, after) = text.split_at(size);
                match after {
                    [b'.', rest @ ..] => Ok((self.kind(alloc, form)?, rest)),
                    _ => Ok((FormKind::Syntax, after_full_stop(text))),
                }
            }
            Err(Miss::Unknown) => Ok((FormKind::Syntax, after_full_stop(text))),
            Err(Miss::NoMemory) => Err(AllocError),
        }
    }

    // Passes the next form, and answers it with its line.
    fn step(&mut self, alloc: Global) -> Result<FormAt, AllocError> {
        let line = self.line;
        let (kind, rest) = self.next(alloc, self.rest)?;
        self.pass(skip_blanks(rest));
        Ok(FormAt { line, kind })
    }
}

/// The forms of a text in their order, each with its line. After a form without a full stop the search goes on after the next full stop
/// that ends a line. Where heads are missing at the text's end, an unknown form stands there.
pub fn forms_of(alloc: Global, text: &str) -> Result<Vec<FormAt>, AllocError> {
    let shown = uncommented(alloc, text.as_bytes())?;
    let mut walk = FormWalk {
        rest: &shown,
        line: 1,
        heads: 0,
        in_function: false,
    };
    walk.pass(skip_blanks(&shown));
    let mut forms = Vec::new(alloc);
    for _ in 0..shown.len() {
        if walk.rest.is_empty() {
            break;
        }
        forms.push(walk.step(alloc)?)?;
    }
    if walk.heads < 4 {
        forms.push(FormAt {
            line: walk.line,
            kind: FormKind::Unknown,
        })?;
    }
    Ok(forms)
}
