//! A range of entries, as `beamnode replay --print` names it.
ghost use Rattle.std.specs.Prelude.{◌≡◌, option_map};
ghost use Rattle.beam_tools.specs.Options.{around_dots, has_number, lower_end, number_of, range_of, split_at_dot, two_texts, upper_end};

/// The entries whose number is at least the first and less than the second of two numbers. The first is at most the second, if there is one.
#[derive(Clone, Copy)]
pub struct EntryRange {
    /// The number of the first entry.
    pub from: u32,
    /// The number of the entry before which the range ends, unless it has no end.
    pub to: Option<u32>,
}

impl EntryRange {
    /// Whether the entry of this number is in the range.
    pub fn has(&self, number: u64) -> bool
        ensures { result ≡ has_number self.now number }
    {
        if number < u64::from(self.from) {
            return false;
        }
        match self.to {
            Some(to) => number < u64::from(to),
            None => true,
        }
    }
}

// What stands before and after the first full stop, if there is one.
fn split_at_dot(text: &str) -> Option<(&str, &str)>
    ensures { option_map two_texts result ≡ split_at_dot text.now }
{
    text.split_once('.')
}

// What stands before and after two full stops, where the first full stop is followed by another one.
fn around_dots(text: &str) -> Option<(&str, &str)>
    ensures { option_map two_texts result ≡ around_dots text.now }
{
    let (before, rest) = split_at_dot(text)?;
    let (between, after) = split_at_dot(rest)?;
    if between.is_empty() {
        Some((before, after))
    } else {
        None
    }
}

// A number of 32 bits.
fn number_in(text: &str) -> Option<u32>
    ensures { result ≡ number_of text.now }
{
    match text.parse::<u32>() {
        Ok(number) => Some(number),
        Err(_) => None,
    }
}

// The number at which a range begins: 0 where it is left out.
fn lower_end(text: &str) -> Option<u32>
    ensures { result ≡ lower_end text.now }
{
    if text.is_empty() {
        Some(0)
    } else {
        number_in(text)
    }
}

// The number before which a range ends; none where it is left out.
fn upper_end(text: &str) -> Option<Option<u32>>
    ensures { result ≡ upper_end text.now }
{
    if text.is_empty() {
        return Some(None);
    }
    match number_in(text) {
        Some(to) => Some(Some(to)),
        None => None,
    }
}

/// The range that a text spells: `FROM..TO`, where FROM is at most TO. Either number may be left out: then the range begins at 0, or has no
/// end. `None` for every other text, and where a number is above 4,294,967,295.
pub fn range_of(text: &str) -> Option<EntryRange>
    ensures { result ≡ range_of text.now }
{
    let (first, last) = around_dots(text)?;
    let from = lower_end(first)?;
    let to = upper_end(last)?;
    match to {
        Some(to) if to < from => None,
        _ => Some(EntryRange { from, to }),
    }
}
