//! Texts in parts: how long they are, and written out.
ghost use Rattle.std.specs.Prelude.{◌≡◌, ◌<◌, ◌≤◌, ◌++◌, length, IfSome, IfNone, OnOk};
ghost use Rattle.beam_machine.specs.TextParts.{part_text};

use crate::text::text_length;
use beam_erltext::print_erl;
use beam_machine::text_parts::{TextPart, TextParts};
use std::alloc::AllocError;

/// How many bytes the text of a part has; `None` where it has more than `most`.
fn part_length(part: &TextPart, most: usize) -> Option<usize>
    ensures within { IfSome result (λ n. (n ≡ length (part_text part.now)) × (n ≤ most)) }
    ensures above { IfNone result (most < length (part_text part.now)) }
{
    let left = most.checked_sub(part.before.len())?;
    let length = text_length(&part.term, left)?;
    Some(part.before.len() + length)
}

/// How many bytes a text has; `None` where it has more than `most`. It takes no memory, and ends after at most as many steps as the text has
/// parts and `most` + 1.
pub fn parts_length(text: &TextParts, most: usize) -> Option<usize>
    ensures within { IfSome result (λ n. (n ≡ length text.now) × (n ≤ most)) }
    ensures above { IfNone result (most < length text.now) }
{
    let (parts, last) = text.as_parts();
    let mut left = most;
    for part in parts {
        left -= part_length(part, left)?;
    }
    left = left.checked_sub(last.len())?;
    Some(most - left)
}

/// Appends a part: its bytes, and the text of its term.
fn write_part(part: &TextPart, out: &mut Vec<u8>) -> Result<(), AllocError>
    ensures { OnOk result (out.new.items ≡ out.old.items ++ part_text part.now) }
{
    out.extend_from_slice(&part.before)?;
    match print_erl(&part.term, out) {
        Ok(()) => Ok(()),
        Err(_) => Err(AllocError),
    }
}

/// Appends a text, with its terms written out. Where memory is refused, a part of it may have been appended.
pub fn write_parts(text: &TextParts, out: &mut Vec<u8>) -> Result<(), AllocError>
    ensures { OnOk result (out.new.items ≡ out.old.items ++ text.now) }
{
    let (parts, last) = text.as_parts();
    for part in parts {
        write_part(part, out)?;
    }
    out.extend_from_slice(last)
}
