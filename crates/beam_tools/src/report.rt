//! Messages about faults.
ghost use Rattle.std.specs.Prelude.{◌≡◌};
ghost use Rattle.std.specs.Io.KnownBytes.{append_known};
ghost use Rattle.clap.specs.Walk.{texts};
ghost use Rattle.beam_tools.specs.Fault.{after_word, before_word, has_word, is_verbose, message_of, status_of, word_of};
ghost use Rattle.beam_tools.specs.Report.{IsReported};

use crate::early_exit::Wrong;
use crate::errors::{Errors, tell_three, tell_two};
use crate::fault::{FileFault, RunFault};
use crate::place::tell_place;
use crate::program::Program;

impl Wrong<'_> {
    // The text before the wrong word.
    fn before_word(&self) -> &'static str
        ensures { result.now ≡ before_word self.now }
    {
        match self {
            Wrong::Words(_) => "",
            Wrong::NoText => "a word is no UTF-8",
            Wrong::NoCommand => "no command",
            Wrong::NoFile => "no file",
            Wrong::Same(_) => "IN and OUT are both ",
            Wrong::LongModule(_) => "--module ",
            Wrong::LongFunction(_) => "--function ",
            Wrong::NoList(_) => "--args ",
            Wrong::NoLevel(_) => "--log ",
            Wrong::NoStart(_) => "--start ",
            Wrong::NoSync(_) => "--sync ",
            Wrong::StopsWithJournal => "--stop-when-full and --journal exclude each other",
            Wrong::NoMode(_) => "--socket-mode ",
            Wrong::LongSocket(_) => "--socket ",
            Wrong::NoAddress => "neither --port nor --socket",
            Wrong::TokenAlone => "--http-token needs --http",
            Wrong::NoRange(_) => "--print ",
            Wrong::PipesAndPrints => "--pipe excludes --print and --inspect",
        }
    }

    /// The wrong word, or the command's message about it.
    pub fn word(&self) -> &[u8]
        ensures { result.now ≡ word_of self.now }
    {
        match self {
            Wrong::Words(text) => text,
            Wrong::NoText
            | Wrong::NoCommand
            | Wrong::NoFile
            | Wrong::StopsWithJournal
            | Wrong::NoAddress
            | Wrong::TokenAlone
            | Wrong::PipesAndPrints => &[],
            Wrong::Same(word)
            | Wrong::LongModule(word)
            | Wrong::LongFunction(word)
            | Wrong::NoList(word)
            | Wrong::NoLevel(word)
            | Wrong::NoStart(word)
            | Wrong::NoSync(word)
            | Wrong::NoMode(word)
            | Wrong::LongSocket(word)
            | Wrong::NoRange(word) => word.as_bytes(),
        }
    }

    // The text after the wrong word.
    fn after_word(&self) -> &'static str
        ensures { result.now ≡ after_word self.now }
    {
        match self {
            Wrong::LongModule(_) | Wrong::LongFunction(_) => " has more than 255 characters",
            Wrong::NoList(_) => " is no list of at most 255 terms",
            Wrong::NoLevel(_) => " is none of error, warn and info",
            Wrong::NoStart(_) => " is no M:F",
            Wrong::NoSync(_) => " is none of always, second and no",
            Wrong::NoMode(_) => " is no mode of one to four octal digits up to 777",
            Wrong::LongSocket(_) => " has more than 102 bytes",
            Wrong::NoRange(_) => " is no FROM..TO",
            _ => "",
        }
    }
}

/// Writes that a run of the program fails at a file, and why.
pub fn tell_file<E: Errors>(program: Program, file: &FileFault<'_>, errors: &mut E)
    ensures { E.told errors.new ≡ append_known (E.told errors.old) (message_of program (RunFault.File file.now)) }
{
    tell_three(
        program.name().as_bytes(),
        b": ",
        file.name.as_bytes(),
        errors,
    );
    tell_three(b": ", file.why.name().as_bytes(), b"\n", errors);
}

fn tell_wrong<E: Errors>(program: Program, wrong: &Wrong<'_>, errors: &mut E)
    ensures { E.told errors.new ≡ append_known (E.told errors.old) (message_of program (RunFault.Wrong wrong.now)) }
{
    tell_three(
        program.name().as_bytes(),
        b": ",
        wrong.before_word().as_bytes(),
        errors,
    );
    tell_three(wrong.word(), wrong.after_word().as_bytes(), b"\n", errors);
    errors.tell(program.usage().as_bytes());
}

fn tell_unwritten<E: Errors>(program: Program, errors: &mut E)
    ensures { E.told errors.new ≡ append_known (E.told errors.old) (message_of program RunFault.Unwritten) }
{
    tell_two(
        program.name().as_bytes(),
        b": output: WriteFailed\n",
        errors,
    );
}

fn tell_no_memory<E: Errors>(program: Program, errors: &mut E)
    ensures { E.told errors.new ≡ append_known (E.told errors.old) (message_of program RunFault.NoMemory) }
{
    tell_two(program.name().as_bytes(), b": NoMemory\n", errors);
}

fn tell_message<E: Errors>(program: Program, fault: &RunFault<'_>, errors: &mut E)
    ensures { E.told errors.new ≡ append_known (E.told errors.old) (message_of program fault.now) }
{
    match fault {
        RunFault::Wrong(wrong) => tell_wrong(program, wrong, errors),
        RunFault::File(file) => tell_file(program, file, errors),
        RunFault::NoMemory => tell_no_memory(program, errors),
        RunFault::Unwritten => tell_unwritten(program, errors),
        RunFault::Exit(exit) => tell_three(b"exit: ", &exit.reason, b"\n", errors),
        RunFault::Stuck => errors.tell(b"no process can run\n"),
        RunFault::Spent => errors.tell(b"budget spent\n"),
    }
}

/// Whether a word is among the words.
pub fn has_word(words: &[&str], word: &str) -> bool
    ensures { result ≡ has_word word.now (texts words.now) }
{
    words.contains(&word)
}

/// Whether the words ask for the place of a fault.
pub fn is_verbose(words: &[&str]) -> bool
    ensures { result ≡ is_verbose (texts words.now) }
{
    has_word(words, "-v") || has_word(words, "--verbose")
}

/// Reports a fault of a run of the program with these words, and answers the status: writes its message, and with `-v` or `--verbose` among
/// the words also its place, where that is known. `text` is that of the listing which was read, if one was. Takes no memory.
pub fn report<E: Errors>(
    program: Program,
    words: &[&str],
    fault: &RunFault<'_>,
    text: &[u8],
    errors: &mut E,
) -> u8
    ensures status { result ≡ status_of fault.now }
    ensures told { IsReported program (texts words.now) text.now fault.now (E.told errors.old) (E.told errors.new) }
{
    tell_message(program, fault, errors);
    if is_verbose(words) {
        tell_place(fault, text, errors);
    }
    fault.status()
}
