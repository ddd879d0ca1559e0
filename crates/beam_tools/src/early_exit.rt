//! Why a command line gives nothing to do.

/// What is wrong with a command line.
pub enum Wrong<'a> {
    /// The command doesn't take the words, for this reason.
    Words(Vec<u8>),
    /// A word is no UTF-8.
    NoText,
    /// No subcommand is named.
    NoCommand,
    /// No file is named.
    NoFile,
    /// Two files have this one name.
    Same(&'a str),
    /// The name of a module that has more than 255 characters.
    LongModule(&'a str),
    /// The name of a function that has more than 255 characters.
    LongFunction(&'a str),
    /// Text that writes no list of at most 255 terms.
    NoList(&'a str),
    /// Text that names no level of a log.
    NoLevel(&'a str),
    /// Text that isn't a module's and a function's name with a colon between.
    NoStart(&'a str),
    /// Text that names no time at which a journal's file is put on the device.
    NoSync(&'a str),
    /// A node that ends when its journal is full is to keep the journal in a file.
    StopsWithJournal,
    /// Text that isn't the mode of a socket's file: one to four octal digits, up to 777.
    NoMode(&'a str),
    /// The path of a socket that has more than 102 bytes.
    LongSocket(&'a str),
    /// Neither a port nor a socket is named.
    NoAddress,
    /// A file of a token is named, and no port of a page.
    TokenAlone,
    /// Text that isn't two numbers with two full stops between, of which the first is at most the second.
    NoRange(&'a str),
    /// A replay that answers commands is to print entries or a process.
    PipesAndPrints,
}

impl Drop for Wrong<'_> {
    fn drop(self) {
        match self {
            Wrong::Words(_words) => {}
            Wrong::NoText
            | Wrong::NoCommand
            | Wrong::NoFile
            | Wrong::Same(_)
            | Wrong::LongModule(_)
            | Wrong::LongFunction(_)
            | Wrong::NoList(_)
            | Wrong::NoLevel(_)
            | Wrong::NoStart(_)
            | Wrong::NoSync(_)
            | Wrong::StopsWithJournal
            | Wrong::NoMode(_)
            | Wrong::LongSocket(_)
            | Wrong::NoAddress
            | Wrong::TokenAlone
            | Wrong::NoRange(_)
            | Wrong::PipesAndPrints => {}
        }
    }
}

/// Why a command line gives nothing to do.
#[derive(Drop)]
pub enum EarlyExit<'a> {
    /// The words ask for the help.
    Help,
    /// The words ask for the version.
    Version,
    /// The command line is wrong.
    Wrong(Wrong<'a>),
    /// Memory was refused.
    NoMemory,
}
