//! Command lines, read by a command.
ghost use Rattle.std.specs.Prelude.{◌≡◌, IfErr, IfOk, [], option_map, true};
ghost use Rattle.clap.specs.Words.{HasMatchesOf, fault_of, first_of, found_of, is_simple_and_free, kind_of, rows_of};
ghost use Rattle.clap.specs.Walk.{texts};
ghost use Rattle.beam_tools.specs.Lines.{StopSays, StopsBy};
ghost use Rattle.beam_tools.specs.Rules.{app_by};

use crate::early_exit::{EarlyExit, Wrong};
use crate::lines::Lines;
use crate::table::{CommandTable, command};
use clap::ArgMatches;
use clap::error::ErrorKind;
use std::alloc::{AllocError, Global};

/// The matches of the words by the command of a table. The first word is the program's name.
///
/// `Help` and `Version` where the words ask for them, `Wrong` where the command doesn't take them, and
/// `NoMemory` where memory was refused.
pub fn parse<'a>(
    alloc: Global,
    table: &CommandTable,
    words: &'a [&'a str],
) -> Result<ArgMatches<'a>, EarlyExit<'a>>
    ensures matches { IfOk result (HasMatchesOf (app_by table.now) (texts words.entry.now)) }
    ensures taken { is_simple_and_free (app_by table.now) ≡ true
        → IfOk result (λ _. fault_of (app_by table.now) (texts words.entry.now) ≡ []) }
    ensures stop { is_simple_and_free (app_by table.now) ≡ true
        → IfErr result (StopSays (app_by table.now) (texts words.entry.now)) }
{
    let Ok(command) = command(alloc, table) else {
        return Err(EarlyExit::NoMemory);
    };
    match command.try_get_matches_from(words) {
        Ok(matches) => Ok(matches),
        Err(error) => Err(stop(alloc, &error)),
    }
}

// Why the command line gives nothing to do, by the command's error.
fn stop<'a>(alloc: Global, error: &clap::Error) -> EarlyExit<'a>
    ensures { StopsBy (kind_of error.now) result }
{
    match error.kind() {
        ErrorKind::DisplayHelp => EarlyExit::Help,
        ErrorKind::DisplayVersion => EarlyExit::Version,
        ErrorKind::OutOfMemory => EarlyExit::NoMemory,
        _ => match reason(alloc, error) {
            Ok(reason) => EarlyExit::Wrong(Wrong::Words(reason)),
            Err(_) => EarlyExit::NoMemory,
        },
    }
}

// The first paragraph of a text, as one line.
fn paragraph(alloc: Global, text: &str) -> Lines {
    let mut paragraph = Lines::new(alloc);
    for line in text.lines() {
        if line.is_empty() {
            return paragraph;
        }
        if !paragraph.is_empty() {
            paragraph.push(b" ");
        }
        paragraph.push(line.trim().as_bytes());
    }
    paragraph
}

// The reason that an error gives.
fn reason(alloc: Global, error: &clap::Error) -> Result<Vec<u8>, AllocError> {
    let text = format!(in alloc; "{error}")?;
    paragraph(alloc, text.strip_prefix("error: ").unwrap_or(&text)).into_text()
}

/// The first value of an argument.
pub fn text_of<'a>(matches: &ArgMatches<'a>, id: &str) -> Option<&'a str>
    ensures { option_map (λ s. s.now) result ≡ first_of id.now (rows_of (found_of matches.now)) }
{
    matches.get_str(id)
}
