//! Lengths that are counted before a text or bytes are made.

use beam_erltext::read_erl;
use beam_lengths::{external_length, text_length};
use beam_term::{Term, tuple};
use std::alloc::Global;
use std::test::Fail;

/// A text as it is printed, and how many bytes its term has in the External Term Format, with the version byte.
struct LengthRow {
    text: &'static str,
    external: usize,
}

const ROWS: [LengthRow; 15] = [
    LengthRow {
        text: "[]",
        external: 2,
    },
    LengthRow {
        text: "255",
        external: 3,
    },
    LengthRow {
        text: "-1",
        external: 6,
    },
    LengthRow {
        text: "2147483648",
        external: 8,
    },
    LengthRow {
        text: "-288230376151711744",
        external: 12,
    },
    LengthRow {
        text: "ok",
        external: 5,
    },
    LengthRow {
        text: "'a b\\'c'",
        external: 8,
    },
    LengthRow {
        text: "'\\x{1}'",
        external: 4,
    },
    LengthRow {
        text: "'if'",
        external: 5,
    },
    LengthRow {
        text: "{}",
        external: 3,
    },
    LengthRow {
        text: "{a,{b}}",
        external: 11,
    },
    LengthRow {
        text: "[97,98]",
        external: 6,
    },
    LengthRow {
        text: "[97|98]",
        external: 10,
    },
    LengthRow {
        text: "[a,[256]]",
        external: 21,
    },
    LengthRow {
        text: "[[],{},c]",
        external: 13,
    },
];

/// What is told of a length with this limit.
fn told(length: usize, most: usize) -> Option<usize> {
    if most < length { None } else { Some(length) }
}

/// Whether the length of a term's text is told for each limit from it on, and none for those below.
fn is_text_counted(term: &Term, length: usize) -> bool {
    for most in 0..length.saturating_add(3) {
        if text_length(term, most) != told(length, most) {
            return false;
        }
    }
    true
}

/// Whether the length of its external bytes is told so.
fn is_external_counted(term: &Term, length: usize) -> bool {
    for most in 0..length.saturating_add(3) {
        if external_length(term, most) != told(length, most) {
            return false;
        }
    }
    true
}

fn is_counted(alloc: Global, row: &LengthRow) -> Result<bool, Fail> {
    let term = read_erl(alloc, row.text)?;
    Ok(is_text_counted(&term, row.text.len()) && is_external_counted(&term, row.external))
}

#[test]
fn lengths_are_counted(rt: HostRuntime) -> Result<(), Fail> {
    for row in ROWS.iter() {
        assert!(rt; is_counted(rt.alloc(), row)?, "{}", row.text);
    }
    Ok(())
}

/// `[]`, and as often as told a tuple that has the term before it twice. Its text has 5 * 2^times - 3 bytes, and its external bytes are
/// 3 * 2^times - 1.
fn doubled(alloc: Global, times: usize) -> Result<Term, Fail> {
    let mut term = Term::nil();
    for _ in 0..times {
        let mut items = Vec::new(alloc);
        items.push(term.clone()?)?;
        items.push(term)?;
        term = tuple(alloc, items)?;
    }
    Ok(term)
}

/// What doubles has lengths far above the memory of its parts, which are counted up to a limit alone.
#[test]
fn shared_parts_are_counted_each_time(rt: HostRuntime) -> Result<(), Fail> {
    for (times, text, external) in [
        (0, Some(2), Some(2)),
        (1, Some(7), Some(5)),
        (10, Some(5_117), Some(3_071)),
        (20, None, Some(3_145_727)),
        (22, None, None),
        (4_000, None, None),
    ] {
        let term = doubled(rt.alloc(), times)?;
        let lengths = (
            text_length(&term, 5_000_000),
            external_length(&term, 5_000_000),
        );
        assert_eq!(rt; lengths, (text, external));
    }
    Ok(())
}
