//! The command line of `beamnode`, read by one command with a level of subcommands.
ghost use Rattle.std.specs.Prelude.{◌≡◌, IfErr, IfOk, Some, [], option_and_then};
ghost use Rattle.clap.specs.Words.{fault_of, found_of, rows_of, subcommand_rows_of};
ghost use Rattle.clap.specs.Walk.{texts};
ghost use Rattle.beam_tools.specs.Lines.{IsNoLine, OptionsStop, StopSays};
ghost use Rattle.beam_tools.specs.Options.{as_line, call_in, line_in, line_of, node_app};

use crate::command::{parse, text_of};
use crate::early_exit::{EarlyExit, Wrong};
use crate::line::{Call, Options};
use crate::replay_options::{REPLAY, replay_in};
use crate::serve_options::{SERVE, serve_in};
use crate::table::{
    ArgumentForm, ArgumentRow, CommandTable, OPTION, POSITIONAL, SubcommandRow, VERBOSE,
};
use crate::values::{number_of, texts_of};
use clap::{ArgAction, ArgMatches};
use std::alloc::Global;

const CALL: [ArgumentRow; 6] = [
    VERBOSE,
    ArgumentRow {
        id: "module",
        value_names: &["M"],
        required: true,
        ..OPTION
    },
    ArgumentRow {
        id: "function",
        value_names: &["F"],
        required: true,
        ..OPTION
    },
    ArgumentRow {
        id: "args",
        value_names: &["LIST"],
        defaults: &["[]"],
        ..OPTION
    },
    ArgumentRow {
        id: "steps",
        form: ArgumentForm::Number(0, 4_294_967_295),
        value_names: &["N"],
        defaults: &["1000000"],
        ..OPTION
    },
    ArgumentRow {
        id: "file",
        value_names: &["FILE"],
        action: ArgAction::Append,
        ..POSITIONAL
    },
];

const TABLE: CommandTable = CommandTable {
    name: "beamnode",
    arguments: &[VERBOSE],
    subcommands: &[
        SubcommandRow {
            name: "call",
            arguments: &CALL,
        },
        SubcommandRow {
            name: "pipe",
            arguments: &[VERBOSE],
        },
        SubcommandRow {
            name: "serve",
            arguments: &SERVE,
        },
        SubcommandRow {
            name: "replay",
            arguments: &REPLAY,
        },
    ],
};

/// What the words ask for. The first of them is the program's name.
///
/// `Wrong` where the command doesn't take the words: an unknown or a repeated name, a missing one, a number of steps that doesn't fit 32
/// bits, no file for `call` or `replay`, neither a port nor a socket for `serve`, an impossible value for `serve` or `replay`; or where
/// they name no subcommand. `Help` and `Version` where they ask for them, and `NoMemory`.
pub fn options<'a>(alloc: Global, words: &'a [&'a str]) -> Result<Options<'a>, EarlyExit<'a>>
    ensures told { IfOk result (λ o. line_of (texts words.entry.now) ≡ Some (as_line o)) }
    ensures taken { IfOk result (λ _. fault_of node_app (texts words.entry.now) ≡ []) }
    ensures stop { IfErr result (StopSays node_app (texts words.entry.now)) }
{
    match parse(alloc, &TABLE, words) {
        Ok(matches) => options_in(alloc, &matches),
        Err(stop) => Err(stop),
    }
}

// What the matches ask for.
fn options_in<'a>(alloc: Global, matches: &ArgMatches<'a>) -> Result<Options<'a>, EarlyExit<'a>>
    ensures told { IfOk result (λ o. option_and_then line_in (subcommand_rows_of matches.now) ≡ Some (as_line o)) }
    ensures stop { IfErr result (OptionsStop (subcommand_rows_of matches.now)) }
{
    match matches.subcommand() {
        Some(("call", inner)) => call_in(alloc, inner),
        Some(("pipe", _)) => Ok(Options::Pipe),
        Some(("serve", inner)) => serve_in(alloc, inner),
        Some(("replay", inner)) => replay_in(inner),
        _ => Err(EarlyExit::Wrong(Wrong::NoCommand)),
    }
}

// The call in the matches of `call`.
fn call_in<'a>(alloc: Global, matches: &ArgMatches<'a>) -> Result<Options<'a>, EarlyExit<'a>>
    ensures told { IfOk result (λ o. call_in (rows_of (found_of matches.now)) ≡ Some (as_line o)) }
    ensures stop { IfErr result (IsNoLine (call_in (rows_of (found_of matches.now)))) }
{
    let (Some(module), Some(function)) = (text_of(matches, "module"), text_of(matches, "function"))
    else {
        return Err(EarlyExit::Wrong(Wrong::NoCommand));
    };
    let (Some(arguments), Some(steps)) = (text_of(matches, "args"), number_of(matches, "steps"))
    else {
        return Err(EarlyExit::Wrong(Wrong::NoCommand));
    };
    let Some(names) = texts_of(matches, "file") else {
        return Err(EarlyExit::Wrong(Wrong::NoCommand));
    };
    match Vec::from_slice(alloc, names) {
        Ok(files) => Ok(Options::Call(Call {
            module,
            function,
            arguments,
            steps,
            files,
        })),
        Err(_) => Err(EarlyExit::NoMemory),
    }
}
