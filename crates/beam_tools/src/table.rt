//! The arguments of a command, as rows of a table.
ghost use Rattle.std.specs.Prelude.{◌≡◌, IfOk, false};
ghost use Rattle.clap.specs.Words.{app_of, rule_of, with_subcommand};
ghost use Rattle.clap.specs.declared.builder.command.Command.TheViews.{out-Command as fields_of};
ghost use Rattle.beam_tools.specs.Rules.{app_by, placed_rule, rule_by, subcommand_app, top_app, with_rows};

use crate::program::version;
use clap::builder::ValueParser;
use clap::{Arg, ArgAction, Command};
use std::alloc::{AllocError, Global};

/// How an argument is written.
#[derive(Clone, Copy)]
pub enum ArgumentForm {
    /// By its place alone.
    Positional,
    /// `--ID`
    Long,
    /// `--ID`, or a hyphen and this letter.
    Short(char),
    /// `--ID`, with values that are numbers from the first to the second.
    Number(i64, i64),
}

/// An argument of a command.
#[derive(Clone, Copy)]
pub struct ArgumentRow {
    /// The name by which its values are found.
    pub id: &'static str,
    pub form: ArgumentForm,
    /// What messages call its value.
    pub value_names: &'static [&'static str],
    pub action: ArgAction,
    /// Its values where it is left out.
    pub defaults: &'static [&'static str],
    pub required: bool,
}

/// A flag, without its name.
pub const FLAG: ArgumentRow = ArgumentRow {
    id: "",
    form: ArgumentForm::Long,
    value_names: &[],
    action: ArgAction::SetTrue,
    defaults: &[],
    required: false,
};

/// An option of one value, without its name.
pub const OPTION: ArgumentRow = ArgumentRow {
    action: ArgAction::Set,
    ..FLAG
};

/// A positional that has to be there, without its name.
pub const POSITIONAL: ArgumentRow = ArgumentRow {
    form: ArgumentForm::Positional,
    required: true,
    ..OPTION
};

/// The flag `-v`, `--verbose`.
pub const VERBOSE: ArgumentRow = ArgumentRow {
    id: "verbose",
    form: ArgumentForm::Short('v'),
    ..FLAG
};

/// A subcommand of a program.
#[derive(Clone, Copy)]
pub struct SubcommandRow {
    pub name: &'static str,
    pub arguments: &'static [ArgumentRow],
}

/// The command of a program.
#[derive(Clone, Copy)]
pub struct CommandTable {
    pub name: &'static str,
    pub arguments: &'static [ArgumentRow],
    pub subcommands: &'static [SubcommandRow],
}

// The argument of a row, as a positional.
fn placed_argument<'a>(alloc: Global, row: &ArgumentRow) -> Arg<'a>
    ensures rule { rule_of result ≡ placed_rule row.now }
    ensures local { result.global ≡ false }
{
    Arg::new(alloc, row.id)
        .action(row.action)
        .value_names(row.value_names)
        .default_values(row.defaults)
        .required(row.required)
}

// The argument of a row.
fn argument<'a>(alloc: Global, row: &ArgumentRow) -> Arg<'a>
    ensures rule { rule_of result ≡ rule_by row.now }
    ensures local { result.global ≡ false }
{
    let argument = placed_argument(alloc, row);
    match row.form {
        ArgumentForm::Positional => argument,
        ArgumentForm::Long => argument.long(row.id),
        ArgumentForm::Short(letter) => argument.long(row.id).short(letter),
        ArgumentForm::Number(least, most) => argument
            .long(row.id)
            .value_parser(ValueParser::Signed(least, most)),
    }
}

// The command with the arguments of these rows added.
fn with_rows<'a>(
    alloc: Global,
    command: Command<'a>,
    rows: &[ArgumentRow],
) -> Result<Command<'a>, AllocError>
    ensures app { IfOk result (λ c. app_of c ≡ with_rows (app_of command.entry) rows.now) }
    ensures local { (fields_of command.entry).has_globals ≡ false → IfOk result (λ c. (fields_of c).has_globals ≡ false) }
{
    let mut command = command;
    for row in rows {
        command = command.arg(argument(alloc, row))?;
    }
    Ok(command)
}

// The command of a subcommand.
fn subcommand<'a>(alloc: Global, row: &SubcommandRow) -> Result<Command<'a>, AllocError>
    ensures app { IfOk result (λ c. app_of c ≡ subcommand_app row.now) }
    ensures local { IfOk result (λ c. (fields_of c).has_globals ≡ false) }
{
    with_rows(alloc, Command::new(alloc, row.name), row.arguments)
}

// The command of a program, without its subcommands.
fn top_command<'a>(alloc: Global, table: &CommandTable) -> Result<Command<'a>, AllocError>
    ensures { IfOk result (λ c. app_of c ≡ top_app table.now) }
{
    let command = Command::new(alloc, table.name).version(version!(;));
    with_rows(alloc, command, table.arguments)
}

// The command with the subcommand of this row added.
fn with_subcommand<'a>(
    alloc: Global,
    command: Command<'a>,
    row: &SubcommandRow,
) -> Result<Command<'a>, AllocError>
    ensures { IfOk result (λ c. app_of c ≡ with_subcommand (app_of command.entry) (subcommand_app row.now).top) }
{
    match subcommand(alloc, row) {
        Ok(subcommand) => command.subcommand(subcommand),
        Err(error) => Err(error),
    }
}

/// The command of a program.
pub fn command<'a>(alloc: Global, table: &CommandTable) -> Result<Command<'a>, AllocError>
    ensures { IfOk result (λ c. app_of c ≡ app_by table.now) }
{
    let mut command = top_command(alloc, table)?;
    for row in table.subcommands {
        command = with_subcommand(alloc, command, row)?;
    }
    Ok(command)
}
