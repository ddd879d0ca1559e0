//! Reserved words that stand in the place of atoms.

use beam_erltext::is_bare_atom;

fn is_name_byte(byte: u8) -> bool {
    byte.is_ascii_alphanumeric() || byte == b'_' || byte == b'@'
}

// How many bytes the name has that stands at the front of a text.
fn name_size(text: &[u8]) -> usize {
    for at in 0..text.len() {
        if !is_name_byte(text[at]) {
            return at;
        }
    }
    text.len()
}

// How many bytes stand up to a newline.
fn comment_size(text: &[u8]) -> usize {
    for at in 0..text.len() {
        if text[at] == b'\n' {
            return at;
        }
    }
    text.len()
}

// How many bytes the quoted text has, with both quotes, whose first quote is the first byte.
fn quoted_size(quote: u8, text: &[u8]) -> usize {
    let mut is_passed = true;
    for at in 0..text.len() {
        if is_passed {
            is_passed = false;
        } else if text[at] == b'\\' {
            is_passed = true;
        } else if text[at] == quote {
            return at.saturating_add(1);
        }
    }
    text.len()
}

// How many bytes the token has that begins with this byte, the first of a text.
fn token_size(first: u8, text: &[u8]) -> usize {
    match first {
        b'\'' | b'"' => quoted_size(first, text),
        b'%' => comment_size(text),
        _ => name_size(text).max(1),
    }
}

// Whether a token is a reserved word other than `fun`, which begins a fun.
fn is_reserved(token: &[u8]) -> bool {
    match token {
        [first, ..] => first.is_ascii_lowercase()
            && token != b"fun".as_slice()
            && !is_bare_atom(token),
        [] => false,
    }
}

// Whether a token is the full stop of a form; `after` is the text after it.
fn is_full_stop(token: &[u8], after: &[u8]) -> bool {
    match after {
        [first, ..] => matches!(token, [b'.']) && (first.is_ascii_whitespace() || *first == b'%'),
        [] => true,
    }
}

/// The first reserved word of the form at the front of a text that stands without quotes, if there is one.
pub fn reserved_word(text: &[u8]) -> Option<&[u8]> {
    let mut rest = text;
    for _ in 0..text.len() {
        let Some(first) = rest.first() else {
            return None;
        };
        let size = token_size(*first, rest).min(rest.len());
        let (token, after) = rest.split_at(size);
        if is_reserved(token) {
            return Some(token);
        }
        if is_full_stop(token, after) {
            return None;
        }
        rest = after;
    }
    None
}
