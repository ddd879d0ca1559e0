//! The command line of `beamdis`.
ghost use Rattle.std.specs.Prelude.{◌≡◌, IfErr, IfOk, Some, []};
ghost use Rattle.clap.specs.Words.{fault_of};
ghost use Rattle.clap.specs.Walk.{texts};
ghost use Rattle.beam_tools.specs.Lines.{StopSays};
ghost use Rattle.beam_tools.specs.Dis.{dis_app, input_of};

use crate::command::{parse, text_of};
use crate::early_exit::{EarlyExit, Wrong};
use crate::table::{ArgumentRow, CommandTable, POSITIONAL, VERBOSE};
use std::alloc::Global;

const TABLE: CommandTable = CommandTable {
    name: "beamdis",
    arguments: &[
        VERBOSE,
        ArgumentRow {
            id: "in",
            value_names: &["IN.beam"],
            ..POSITIONAL
        },
    ],
    subcommands: &[],
};

/// The name of the file that the words ask for. The first word is the program's name.
///
/// `Wrong` where the command doesn't take the words, `Help` and `Version` where they ask for them, and `NoMemory`.
pub fn input<'a>(alloc: Global, words: &'a [&'a str]) -> Result<&'a str, EarlyExit<'a>>
    ensures taken { IfOk result (λ _. fault_of dis_app (texts words.entry.now) ≡ []) }
    ensures told { IfOk result (λ name. input_of (texts words.entry.now) ≡ Some name.now) }
    ensures stop { IfErr result (StopSays dis_app (texts words.entry.now)) }
{
    match parse(alloc, &TABLE, words) {
        Ok(matches) => match text_of(&matches, "in") {
            Some(name) => Ok(name),
            None => Err(EarlyExit::Wrong(Wrong::NoFile)),
        },
        Err(stop) => Err(stop),
    }
}
