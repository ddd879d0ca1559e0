//! What a run prints on its output.
ghost use Rattle.std.specs.Prelude.{◌≡◌, ◌⊎◌, IfErr, List, OnErr, OnOk, ℕ};
ghost use Rattle.std.specs.Io.KnownBytes.{Appends, Keeps};
ghost use Rattle.clap.specs.Words.{App, Text};
ghost use Rattle.beam_print.specs.Begun.{IsBegun};
ghost use Rattle.beam_tools.specs.Lines.{IsAnswer, IsAnswered, LineFault, StopSays};
ghost use Rattle.beam_tools.specs.Output.{Leaves};

use crate::early_exit::EarlyExit;
use crate::fault::RunFault;
use crate::program::Program;
use beam_print::write::write_text;
use std::io::Write;

/// Flushes the output. `Unwritten` where that fails.
pub fn flush<'a, O: Write>(output: &mut O) -> Result<(), RunFault<'a>>
    ensures kept { Keeps (O.contents output.old) (O.contents output.new) }
    ensures fault { IfErr result (λ f. f ≡ RunFault.Unwritten) }
{
    match output.flush() {
        Ok(()) => Ok(()),
        Err(_) => Err(RunFault::Unwritten),
    }
}

/// Prints a text. `Unwritten` where it can't be written whole: then a beginning of it was written.
pub fn print<'a, O: Write>(text: &[u8], output: &mut O) -> Result<(), RunFault<'a>>
    ensures printed { OnOk result (Appends (O.contents output.old) (O.contents output.new) text.now) }
    ensures begun { OnErr result (IsBegun (O.contents output.old) (O.contents output.new) text.now) }
    ensures fault { IfErr result (λ f. f ≡ RunFault.Unwritten) }
{
    let Ok(()) = write_text(text, output) else {
        return Err(RunFault::Unwritten);
    };
    flush(output)
}

/// Prints the help or the version, if the words of a command line ask for it. Otherwise answers the fault of the command line.
pub fn answer<'a, O: Write>(
    program: Program,
    stop: EarlyExit<'a>,
    output: &mut O,
) -> Result<(), RunFault<'a>>
    ensures shown { (app : App) (words : List Text) → StopSays app words stop.entry
        → OnOk result (IsAnswered program app words (O.contents output.old) (O.contents output.new)) }
    ensures fault { (app : App) (words : List Text) → StopSays app words stop.entry → IfErr result (LineFault app words) }
    ensures left { (app : App) (words : List Text) → StopSays app words stop.entry
        → IfErr result (λ f. Leaves O.contents (IsAnswer program app words) f output.old output.new) }
    ensures untouched { IfErr result (λ f. (f ≡ RunFault.Unwritten) ⊎ (output.new ≡ output.old)) }
{
    match stop {
        EarlyExit::Help => print(program.help().as_bytes(), output),
        EarlyExit::Version => print(program.version().as_bytes(), output),
        EarlyExit::Wrong(wrong) => Err(RunFault::Wrong(wrong)),
        EarlyExit::NoMemory => Err(RunFault::NoMemory),
    }
}
