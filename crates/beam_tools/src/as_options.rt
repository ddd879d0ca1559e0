//! The command line of `beamas`.
ghost use Rattle.std.specs.Prelude.{◌≡◌, ◌≢◌, IfErr, IfOk, Some, [], codes};
ghost use Rattle.clap.specs.Words.{fault_of, first_of, found_of, rows_of};
ghost use Rattle.clap.specs.Walk.{texts};
ghost use Rattle.beam_tools.specs.Lines.{NamesStop, StopSays};
ghost use Rattle.beam_tools.specs.Assembler.{as_app, input_of, output_of};

use crate::command::{parse, text_of};
use crate::early_exit::{EarlyExit, Wrong};
use crate::table::{ArgumentRow, CommandTable, FLAG, POSITIONAL, VERBOSE};
use clap::ArgMatches;
use std::alloc::Global;

const TABLE: CommandTable = CommandTable {
    name: "beamas",
    arguments: &[
        VERBOSE,
        ArgumentRow { id: "all", ..FLAG },
        ArgumentRow {
            id: "in",
            value_names: &["IN.S"],
            ..POSITIONAL
        },
        ArgumentRow {
            id: "out",
            value_names: &["OUT.beam"],
            ..POSITIONAL
        },
    ],
    subcommands: &[],
};

// The two file names in the matches.
fn names_in<'a>(matches: &ArgMatches<'a>) -> Result<(&'a str, &'a str), EarlyExit<'a>>
    ensures input { IfOk result (λ names. first_of (codes "in") (rows_of (found_of matches.now)) ≡ Some names.0.now) }
    ensures output { IfOk result (λ names. first_of (codes "out") (rows_of (found_of matches.now)) ≡ Some names.1.now) }
    ensures differ { IfOk result (λ names. names.0.now ≢ names.1.now) }
    ensures stop { IfErr result (NamesStop (rows_of (found_of matches.now))) }
{
    match (text_of(matches, "in"), text_of(matches, "out")) {
        (Some(input), Some(output)) if input == output => Err(EarlyExit::Wrong(Wrong::Same(input))),
        (Some(input), Some(output)) => Ok((input, output)),
        _ => Err(EarlyExit::Wrong(Wrong::NoFile)),
    }
}

/// The names of the two files that the words ask for: the text, and the file to write. The first word is the program's name.
///
/// `Wrong` where the command doesn't take the words, or where both files have one name; `Help` and `Version`
/// where the words ask for them, and `NoMemory`.
pub fn names<'a>(alloc: Global, words: &'a [&'a str]) -> Result<(&'a str, &'a str), EarlyExit<'a>>
    ensures taken { IfOk result (λ _. fault_of as_app (texts words.entry.now) ≡ []) }
    ensures input { IfOk result (λ names. input_of (texts words.entry.now) ≡ Some names.0.now) }
    ensures output { IfOk result (λ names. output_of (texts words.entry.now) ≡ Some names.1.now) }
    ensures differ { IfOk result (λ names. names.0.now ≢ names.1.now) }
    ensures stop { IfErr result (StopSays as_app (texts words.entry.now)) }
{
    match parse(alloc, &TABLE, words) {
        Ok(matches) => names_in(&matches),
        Err(stop) => Err(stop),
    }
}
