//! The program `beamnode`, over files and two writers. Jobs that need streams, sockets or a journal's file are left to the caller.
ghost use Rattle.std.specs.Prelude.{◌≡◌, ◌≢◌, ◌<◌, ◌↔◌, ◌⊎◌, [], Err, IfErr, IfOk, IsTrue, OnOk, Ok, Some};
ghost use Rattle.beam_term.specs.TermValue.{TermValue};
ghost use Rattle.std.specs.Io.KnownBytes.{Appends};
ghost use Rattle.std.specs.Result.{IsOkUnless};
ghost use Rattle.beam_machine.specs.Process.{normal};
ghost use Rattle.beam_model.specs.Text.{text_of};
ghost use Rattle.clap.specs.Walk.{texts};
ghost use Rattle.clap.specs.Words.{fault_of};
ghost use Rattle.beam_tools.specs.Call.{ComesTo, HasExit, IsSpent, IsStuck};
ghost use Rattle.beam_tools.specs.Fault.{status_of};
ghost use Rattle.beam_tools.specs.Node.{FaultSays, IsDone, IsValueLine, OutcomeSays, Prints, RunSays, TellsNoEnd, value_line};
ghost use Rattle.beam_tools.specs.Output.{Leaves};
ghost use Rattle.beam_tools.specs.Report.{IsReported};
ghost use Rattle.beam_tools.specs.Job.{IfDone, IfLeft, IsService};
ghost use Rattle.beam_tools.specs.Options.{call_line, line_of, node_app};
ghost use Rattle.beam_tools.specs.declared.fault.RunFault.{RunFault as TheFault};
ghost use Rattle.beam_tools.specs.declared.program.Program.TheVariants.{Node};
ghost use Rattle.beam_tools.specs.declared.rounds.CallOutcome.TheVariants.{Ended};

use crate::call::call;
use crate::end_place::end_place;
use crate::errors::Errors;
use crate::fault::{Exit, RunFault};
use crate::files::Files;
use crate::job::Job;
use crate::line::{Call, Options};
use crate::options::options;
use crate::output::{answer, print};
use crate::program::Program;
use crate::report::{is_verbose, report};
use crate::rounds::CallOutcome;
use beam_erltext::print_erl;
use beam_term::{Term, TermView};
use std::alloc::Global;
use std::io::Write;

fn is_normal(reason: &Term) -> bool
    ensures { IsTrue result ↔ (reason.now ≡ normal) }
{
    match reason.view() {
        TermView::Atom(name) => name.as_str() == "normal",
        _ => false,
    }
}

// A term as Erlang text.
fn printed<'a>(alloc: Global, term: &Term) -> Result<Vec<u8>, RunFault<'a>>
    ensures text { IfOk result (λ text. text.items ≡ text_of term.now) }
    ensures memory { IsOkUnless result RunFault.NoMemory }
{
    let mut text = Vec::new(alloc);
    match print_erl(term, &mut text) {
        Ok(()) => Ok(text),
        Err(_) => Err(RunFault::NoMemory),
    }
}

fn is_exit(outcome: &CallOutcome) -> bool {
    match outcome {
        CallOutcome::Ended { reason, .. } => !is_normal(reason),
        _ => false,
    }
}

// Lines about where process 1 stood before its last row, if they are wanted.
fn place_of<F: Files>(
    alloc: Global,
    line: &Call<'_>,
    wanted: bool,
    rows: u32,
    files: &mut F,
) -> Vec<u8> {
    if wanted {
        end_place(alloc, line, rows, files)
    } else {
        Vec::new(alloc)
    }
}

// The value of a process that ended with the reason `normal`. `place` is for one that ended with another reason: where it stood.
fn value_of<'a>(alloc: Global, outcome: CallOutcome, place: Vec<u8>) -> Result<Term, RunFault<'a>>
    ensures value { IfOk result (λ v. outcome ≡ Ended normal v) }
    ensures fault { IfErr result (OutcomeSays outcome) }
{
    match outcome {
        CallOutcome::Ended { reason, value } => {
            if is_normal(&reason) {
                Ok(value)
            } else {
                let reason = printed(alloc, &reason)?;
                Err(RunFault::Exit(Exit { reason, place }))
            }
        }
        CallOutcome::Stuck => Err(RunFault::Stuck),
        CallOutcome::Spent => Err(RunFault::Spent),
    }
}

// The value of the process that the call starts.
fn run<'a, F: Files>(
    alloc: Global,
    line: &Call<'a>,
    verbose: bool,
    files: &mut F,
) -> Result<Term, RunFault<'a>>
    ensures value { IfOk result (λ v. ComesTo (F.contents files.old) (call_line line.now) (Ended normal v)) }
    ensures fault { IfErr result (RunSays (F.contents files.old) (call_line line.now)) }
    ensures unprinted { IfErr result (λ f. f ≢ RunFault.Unwritten) }
    ensures wrong { IfErr result (λ f. status_of f ≡ 2 → files.new ≡ files.old) }
{
    match call(alloc, line, files) {
        Ok((outcome, rows)) => {
            let place = place_of(alloc, line, verbose && is_exit(&outcome), rows, files);
            value_of(alloc, outcome, place)
        }
        Err(fault) => Err(fault),
    }
}

fn print_value<'a, O: Write>(
    alloc: Global,
    value: &Term,
    output: &mut O,
) -> Result<(), RunFault<'a>>
    ensures printed { OnOk result (Appends (O.contents output.old) (O.contents output.new) (value_line value.now)) }
    ensures fault { IfErr result TellsNoEnd }
    ensures left { IfErr result (λ f. Leaves O.contents (λ text. text ≡ value_line value.now) f output.old output.new) }
{
    let mut line = printed(alloc, value)?;
    if line.push(b'\n').is_err() {
        return Err(RunFault::NoMemory);
    }
    print(&line, output)
}

// Prints the value of the process that the call starts.
fn print_call<'a, F: Files, O: Write>(
    alloc: Global,
    line: &Call<'a>,
    verbose: bool,
    files: &mut F,
    output: &mut O,
) -> Result<(), RunFault<'a>>
    ensures value { OnOk result ((v : TermValue) × ComesTo (F.contents files.old) (call_line line.now) (Ended normal v)
        × Appends (O.contents output.old) (O.contents output.new) (value_line v)) }
    ensures left { IfErr result (λ f. Leaves O.contents (IsValueLine (F.contents files.old) (call_line line.now)) f output.old output.new) }
    ensures fault { IfErr result (RunSays (F.contents files.old) (call_line line.now)) }
    ensures wrong { IfErr result (λ f. status_of f ≡ 2 → files.new ≡ files.old) }
{
    match run(alloc, line, verbose, files) {
        Ok(value) => print_value(alloc, &value, output),
        Err(fault) => Err(fault),
    }
}

// Where all that was asked for is printed, nothing is left to be done.
fn done<'a>(printed: Result<(), RunFault<'a>>) -> Result<Job<'a>, RunFault<'a>>
    ensures done { OnOk printed.entry (result ≡ Ok (Job.Done 0)) }
    ensures fault { IfErr printed.entry (λ f. result ≡ Err f) }
{
    match printed {
        Ok(()) => Ok(Job::Done(0)),
        Err(fault) => Err(fault),
    }
}

// Does what the words ask for, or leaves it to the caller.
fn give<'a, F: Files, O: Write>(
    alloc: Global,
    words: &'a [&'a str],
    files: &mut F,
    output: &mut O,
) -> Result<Job<'a>, RunFault<'a>>
    ensures done { IfOk result (λ job. IfDone job (λ status. (status ≡ 0)
        × IsDone (F.contents files.old) (texts words.entry.now) (O.contents output.old) (O.contents output.new))) }
    ensures asked { IfOk result (λ job. IfLeft job (λ line. line_of (texts words.entry.now) ≡ Some line)) }
    ensures taken { IfOk result (λ job. IfLeft job (λ _. fault_of node_app (texts words.entry.now) ≡ [])) }
    ensures kept { IfOk result (λ job. IfLeft job (λ _. (files.new ≡ files.old) × (output.new ≡ output.old))) }
    ensures unread { IsService (line_of (texts words.entry.now)) → files.new ≡ files.old }
    ensures left { IfErr result (λ f. Leaves O.contents (Prints (F.contents files.old) (texts words.entry.now)) f output.old output.new) }
    ensures fault { IfErr result (FaultSays (F.contents files.old) (texts words.entry.now)) }
    ensures wrong { IfErr result (λ f. status_of f ≡ 2 → files.new ≡ files.old) }
{
    match options(alloc, words) {
        Ok(Options::Call(call)) => done(print_call(alloc, &call, is_verbose(words), files, output)),
        Ok(Options::Pipe) => Ok(Job::Pipe),
        Ok(Options::Serve(line)) => Ok(Job::Serve(line)),
        Ok(Options::Replay(line)) => Ok(Job::Replay(line)),
        Err(stop) => done(answer(Program::Node, stop, output)),
    }
}

/// Runs the program by its words, of which the first is its name. It answers what is left to be done: of `call`, of a wrong line and of one
/// that asks for the help or the version, nothing but the program's status; of `pipe`, `serve` and `replay` all, as the words ask for it.
/// For these three no file is touched, and nothing is written. (`job_status` reports how a job ended that was left.)
///
/// - 0: process 1 ended with the reason `normal`; its value was printed, with a newline. Or the help or the version
///   was, where the words ask for it.
/// - 1: a file isn't loaded: `beamnode: FILE: NAME`, with the refusal's name; the output isn't written to its end:
///   `beamnode: output: WriteFailed`, and a beginning of the text was written; `beamnode: NoMemory` where memory was refused
///   elsewhere.
/// - 2: a wrong command line: `beamnode: WHAT`, and the usage. No file was read.
/// - 3: process 1 ended with another reason: `exit: REASON`.
/// - 4: it hasn't ended, and no process can go on or has a deadline: `no process can run`.
/// - 5: the budget of rows was spent before: `budget spent`.
///
/// After a fault `-v` or `--verbose` among the words adds lines that tell where it lies, where that is known.
pub fn node_run<'a, F: Files, O: Write, E: Errors>(
    alloc: Global,
    words: &'a [&'a str],
    files: &mut F,
    output: &mut O,
    errors: &mut E,
) -> Job<'a>
    ensures asked { IfLeft result (λ line. line_of (texts words.entry.now) ≡ Some line) }
    ensures taken { IfLeft result (λ _. fault_of node_app (texts words.entry.now) ≡ []) }
    ensures kept { IfLeft result (λ _. (files.new ≡ files.old) × (output.new ≡ output.old)) }
    ensures silent { IfLeft result (λ _. E.told errors.new ≡ E.told errors.old) }
    ensures done { IfDone result (λ status. status ≡ 0 →
        IsDone (F.contents files.old) (texts words.entry.now) (O.contents output.old) (O.contents output.new)) }
    ensures quiet { IfDone result (λ status. status ≡ 0 → E.told errors.new ≡ E.told errors.old) }
    ensures fault { IfDone result (λ status. status ≢ 0 →
        (f : TheFault) × (status ≡ status_of f) × FaultSays (F.contents files.old) (texts words.entry.now) f
        × IsReported Node (texts words.entry.now) [] f (E.told errors.old) (E.told errors.new)
        × Leaves O.contents (Prints (F.contents files.old) (texts words.entry.now)) f output.old output.new) }
    ensures unread { IsService (line_of (texts words.entry.now)) → files.new ≡ files.old }
    ensures exit { IfDone result (λ status. status ≡ 3 →
        (reason : TermValue) × HasExit (F.contents files.old) (texts words.entry.now) reason) }
    ensures stuck { IfDone result (λ status. status ≡ 4 → IsStuck (F.contents files.old) (texts words.entry.now)) }
    ensures spent { IfDone result (λ status. status ≡ 5 → IsSpent (F.contents files.old) (texts words.entry.now)) }
    ensures wrong { IfDone result (λ status. status ≡ 2 → files.new ≡ files.old) }
    ensures untouched { IfDone result (λ status. 1 < status → output.new ≡ output.old) }
    ensures known { IfDone result (λ status.
        (status ≡ 0) ⊎ ((status ≡ 1) ⊎ ((status ≡ 2) ⊎ ((status ≡ 3) ⊎ ((status ≡ 4) ⊎ (status ≡ 5)))))) }
{
    match give(alloc, words, files, output) {
        Ok(job) => job,
        Err(fault) => Job::Done(report(Program::Node, words, &fault, &[], errors)),
    }
}
