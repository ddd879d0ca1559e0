//! The kinds of rows.

use std::fmt;

/// The kind of a row.
#[derive(Clone, Copy, PartialEq, Eq)]
pub enum RowKind {
    /// Bytes of an external term, which is written with the same bytes again.
    Term,
    /// Bytes of an external term that has a shorter spelling.
    LongTerm,
    /// A call of a native.
    Native,
    /// The Erlang text of a term.
    Text,
    /// A listing, by its text or its file, with its file or its text.
    Listing,
    /// Whether a file can be loaded.
    File,
    /// Events of the node and its answers.
    Story,
    /// A run of a program.
    Run,
    /// Commands over a device, and the replies to them.
    Session,
    /// Commands over devices that are cut or fail at each place.
    Sweep,
    /// A file that is read from a device and loaded.
    LoadPath,
}

/// The kinds, in the order of the report.
pub const KINDS: [RowKind; 11] = [
    RowKind::Term,
    RowKind::LongTerm,
    RowKind::Native,
    RowKind::Text,
    RowKind::Listing,
    RowKind::File,
    RowKind::Story,
    RowKind::Run,
    RowKind::Session,
    RowKind::Sweep,
    RowKind::LoadPath,
];

impl RowKind {
    /// The word that a row of this kind begins with.
    pub fn name(self) -> &'static str {
        match self {
            RowKind::Term => "term",
            RowKind::LongTerm => "long_term",
            RowKind::Native => "native",
            RowKind::Text => "text",
            RowKind::Listing => "listing",
            RowKind::File => "file",
            RowKind::Story => "story",
            RowKind::Run => "run",
            RowKind::Session => "session",
            RowKind::Sweep => "sweep",
            RowKind::LoadPath => "load_path",
        }
    }

    /// The kind of rows that begin with this word.
    pub fn named(word: &str) -> Option<RowKind> {
        for kind in KINDS {
            if kind.name() == word {
                return Some(kind);
            }
        }
        None
    }
}

impl fmt::Display for RowKind {
    fn fmt<W: fmt::Write>(&self, f: &mut fmt::Formatter<W>) -> fmt::Result {
        f.write_str(self.name())
    }
}
