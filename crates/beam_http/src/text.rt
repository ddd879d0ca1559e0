//! Parts of texts.
ghost use Rattle.std.specs.Prelude.{◌≡◌, ◌≢◌, ℕ, ◌↔◌, List, ◌++◌, IfSome, IsTrue, MatchOption};
ghost use Rattle.beam_http.specs.Targets.{path_of};
ghost use Rattle.std.specs.Str.Parse.{IsNumeral, digits_value};

/// What comes behind a text's beginning, if it begins so.
pub(crate) fn behind<'a>(beginning: &[u8], text: &'a [u8]) -> Option<&'a [u8]>
    ensures { MatchOption result ((rest : List ℕ) → text.now ≢ beginning.now ++ rest) (λ rest. text.now ≡ beginning.now ++ rest.now) }
{
    text.strip_prefix(beginning)
}

/// Whether two texts are the same. All bytes are compared, so that the time tells nothing of where they differ.
pub(crate) fn is_same(one: &[u8], other: &[u8]) -> bool
    ensures { IsTrue result ↔ (one.now ≡ other.now) }
{
    if one.len() != other.len() {
        return false;
    }
    let mut is_same = true;
    for i in 0..one.len() {
        is_same &= one[i] == other[i];
    }
    is_same
}

/// The number that decimal digits write, and nothing but digits. `None` from 2^64 on.
pub(crate) fn number_in(digits: &[u8]) -> Option<u64>
    ensures { IfSome result (λ number. IsNumeral 10 digits.now × (digits_value 10 digits.now ≡ number)) }
{
    match digits {
        [b'0'..=b'9', ..] => std::str::from_utf8(digits).ok()?.parse::<u64>().ok(),
        _ => None,
    }
}

/// What stands before the first `?`, and what behind it.
pub(crate) fn parted(target: &[u8]) -> (&[u8], &[u8])
    ensures { result.0.now ≡ path_of target.now }
{
    match target.iter().position(|byte| *byte == b'?') {
        Some(place) => (&target[..place], &target[place + 1..]),
        None => (target, &[]),
    }
}
