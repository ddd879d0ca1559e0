//! Where a byte of a text stands.

/// What a byte of a text stands in.
#[derive(Clone, Copy, Debug, PartialEq, Eq)]
pub enum LexState {
    Nothing,
    /// Between quotes: the quote that closes them.
    Quotes(u8),
    /// Between quotes, after a backslash.
    Escape(u8),
    Comment,
}
