//! The command line of `beamnode replay`.
ghost use Rattle.std.specs.Prelude.{◌≡◌, IfErr, IfOk, Some};
ghost use Rattle.clap.specs.Words.{found_of, rows_of};
ghost use Rattle.beam_tools.specs.Lines.{ReplayStops};
ghost use Rattle.beam_tools.specs.Options.{as_line, goal_in, inspect_in, is_pipe_set, print_in, replay_in};

use crate::command::text_of;
use crate::early_exit::{EarlyExit, Wrong};
use crate::entry_range::{EntryRange, range_of};
use crate::line::{Options, Replay, ReplayGoal};
use crate::table::{ArgumentForm, ArgumentRow, FLAG, OPTION, POSITIONAL, VERBOSE};
use crate::values::number_of;
use clap::ArgMatches;

/// The arguments of `replay`.
pub const REPLAY: [ArgumentRow; 6] = [
    VERBOSE,
    ArgumentRow {
        id: "upto",
        form: ArgumentForm::Number(0, 4_294_967_295),
        value_names: &["N"],
        defaults: &["4294967295"],
        ..OPTION
    },
    ArgumentRow {
        id: "print",
        value_names: &["FROM..TO"],
        ..OPTION
    },
    ArgumentRow {
        id: "inspect",
        form: ArgumentForm::Number(1, 4_294_967_295),
        value_names: &["PID"],
        ..OPTION
    },
    ArgumentRow { id: "pipe", ..FLAG },
    ArgumentRow {
        id: "file",
        value_names: &["FILE"],
        ..POSITIONAL
    },
];

fn is_pipe_set(matches: &ArgMatches<'_>) -> bool
    ensures { result ≡ is_pipe_set (rows_of (found_of matches.now)) }
{
    match text_of(matches, "pipe") {
        Some(text) => text == "true",
        None => false,
    }
}

// The entries that are to be printed, if any.
fn print_in<'a>(matches: &ArgMatches<'a>) -> Result<Option<EntryRange>, EarlyExit<'a>>
    ensures print { IfOk result (λ range. print_in (rows_of (found_of matches.now)) ≡ Some range) }
    ensures stop { IfErr result (ReplayStops (rows_of (found_of matches.now))) }
{
    let Some(text) = text_of(matches, "print") else {
        return Ok(None);
    };
    match range_of(text) {
        Some(range) => Ok(Some(range)),
        None => Err(EarlyExit::Wrong(Wrong::NoRange(text))),
    }
}

// The process that is to be printed, if any.
fn inspect_in(matches: &ArgMatches<'_>) -> Option<u32>
    ensures { result ≡ inspect_in (rows_of (found_of matches.now)) }
{
    number_of(matches, "inspect")
}

// What is done with the entries. A replay that answers commands prints neither entries nor a process.
fn goal_in<'a>(matches: &ArgMatches<'a>) -> Result<ReplayGoal, EarlyExit<'a>>
    ensures goal { IfOk result (λ goal. goal_in (rows_of (found_of matches.now)) ≡ Some goal) }
    ensures stop { IfErr result (ReplayStops (rows_of (found_of matches.now))) }
{
    let print = print_in(matches)?;
    let inspect = inspect_in(matches);
    if !is_pipe_set(matches) {
        return Ok(ReplayGoal::Report { print, inspect });
    }
    match (print, inspect) {
        (None, None) => Ok(ReplayGoal::Pipe),
        _ => Err(EarlyExit::Wrong(Wrong::PipesAndPrints)),
    }
}

/// The replay in the matches of `replay`.
///
/// `Wrong` where the text of the entries to print is no range, and where a replay that answers commands is to print entries or a process;
/// and where the matches have no file or no number of an entry, which they have where the command takes the words.
pub fn replay_in<'a>(matches: &ArgMatches<'a>) -> Result<Options<'a>, EarlyExit<'a>>
    ensures told { IfOk result (λ o. replay_in (rows_of (found_of matches.now)) ≡ Some (as_line o)) }
    ensures stop { IfErr result (ReplayStops (rows_of (found_of matches.now))) }
{
    let (Some(file), Some(upto)) = (text_of(matches, "file"), number_of(matches, "upto")) else {
        return Err(EarlyExit::Wrong(Wrong::NoCommand));
    };
    let goal = goal_in(matches)?;
    Ok(Options::Replay(Replay { file, upto, goal }))
}
