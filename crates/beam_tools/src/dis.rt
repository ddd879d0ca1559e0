//! The program `beamdis`, over files and two writers: the listing that a file spells, printed.
ghost use Rattle.std.specs.Prelude.{◌≡◌, ◌≢◌, ◌<◌, ◌⊎◌, [], IfErr, IfOk, OnErr, OnOk, List, ℕ};
ghost use Rattle.std.specs.Io.KnownBytes.{Appends};
ghost use Rattle.clap.specs.Walk.{texts};
ghost use Rattle.beam_print.specs.Begun.{IsBegun};
ghost use Rattle.beam_model.specs.ListingText.{listing_text};
ghost use Rattle.beam_tools.specs.Call.{IsFileOf};
ghost use Rattle.beam_tools.specs.Dis.{FaultSays, FileSays, IsDone, IsNotListed, IsListingTextOf, Leaves, Prints, StopsPrinting};
ghost use Rattle.beam_tools.specs.Fault.{status_of};
ghost use Rattle.beam_tools.specs.Report.{IsReported};
ghost use Rattle.beam_tools.specs.declared.fault.RunFault.{RunFault as TheFault};
ghost use Rattle.beam_tools.specs.declared.program.Program.TheVariants.{Disassembler};

use crate::dis_options::input;
use crate::errors::Errors;
use crate::fault::{FileFault, FileFaultKind, RunFault};
use crate::files::Files;
use crate::output::{answer, flush};
use crate::program::Program;
use crate::report::report;
use beam_disasm::disassemble;
use beam_model::listing::Listing;
use beam_print::PrintError;
use beam_print::write::write_listing;
use std::alloc::Global;
use std::io::Write;

// The listing that the file of that name spells.
fn listing_of<F: Files>(alloc: Global, files: &mut F, name: &str) -> Result<Listing, FileFaultKind>
    ensures listing { IfOk result (λ l. IsFileOf (F.contents files.old) name.now l) }
    ensures refused { IfErr result (IsNotListed (F.contents files.old) name.now) }
    ensures unprinted { IfErr result (λ why. why ≢ FileFaultKind.NoMemory) }
    ensures unwritten { F.written files.new ≡ F.written files.old }
{
    let bytes = files.read(alloc, name).map_err(FileFaultKind::Unread)?;
    match disassemble(alloc, &bytes) {
        Ok(listing) => Ok(listing),
        Err(error) => Err(FileFaultKind::BadFile(error)),
    }
}

// Writes the text of the listing of the file of that name, piece by piece.
fn print_listing<'a, O: Write>(
    alloc: Global,
    name: &'a str,
    listing: &Listing,
    output: &mut O,
) -> Result<(), RunFault<'a>>
    ensures printed { OnOk result (Appends (O.contents output.old) (O.contents output.new) (listing_text listing.now)) }
    ensures begun { OnErr result (IsBegun (O.contents output.old) (O.contents output.new) (listing_text listing.now)) }
    ensures fault { IfErr result (StopsPrinting name.entry.now) }
{
    match write_listing(alloc, listing, output) {
        Ok(()) => flush(output),
        Err(PrintError::Unwritten) => Err(RunFault::Unwritten),
        Err(PrintError::NoMemory) => Err(RunFault::File(FileFault {
            name,
            why: FileFaultKind::NoMemory,
        })),
    }
}

// Prints the listing of the file of that name.
fn print_file<'a, F: Files, O: Write>(
    alloc: Global,
    name: &'a str,
    files: &mut F,
    output: &mut O,
) -> Result<(), RunFault<'a>>
    ensures printed { OnOk result ((text : List ℕ) × IsListingTextOf (F.contents files.old) name.entry.now text
        × Appends (O.contents output.old) (O.contents output.new) text) }
    ensures fault { IfErr result (FileSays (F.contents files.old) name.entry.now) }
    ensures left { IfErr result (λ f. Leaves O.contents (IsListingTextOf (F.contents files.old) name.entry.now) f output.old output.new) }
    ensures unwritten { F.written files.new ≡ F.written files.old }
{
    match listing_of(alloc, files, name) {
        Ok(listing) => print_listing(alloc, name, &listing, output),
        Err(why) => Err(RunFault::File(FileFault { name, why })),
    }
}

// Does what the words ask for.
fn give<'a, F: Files, O: Write>(
    alloc: Global,
    words: &'a [&'a str],
    files: &mut F,
    output: &mut O,
) -> Result<(), RunFault<'a>>
    ensures done { OnOk result (IsDone (F.contents files.old) (texts words.entry.now) (O.contents output.old) (O.contents output.new)) }
    ensures fault { IfErr result (FaultSays (F.contents files.old) (texts words.entry.now)) }
    ensures left { IfErr result (λ f. Leaves O.contents (Prints (F.contents files.old) (texts words.entry.now)) f output.old output.new) }
    ensures wrong { IfErr result (λ f. status_of f ≡ 2 → files.new ≡ files.old) }
    ensures unwritten { F.written files.new ≡ F.written files.old }
{
    match input(alloc, words) {
        Ok(name) => print_file(alloc, name, files, output),
        Err(stop) => answer(Program::Disassembler, stop, output),
    }
}

/// Runs the program by its words, of which the first is its name, and answers its status.
///
/// - 0: the text of the listing that the file IN spells was printed, or the help or the version where the words
///   ask for it. Whether the listing can be loaded isn't checked.
/// - 1: the file isn't listed: `beamdis: FILE: NAME`, with the refusal's name, and nothing was written; or the output isn't
///   written to its end: `beamdis: output: WriteFailed`, or `beamdis: FILE: NoMemory` where memory was refused for the
///   listing's text, and a beginning of the text was written; `beamdis: NoMemory` where memory was refused before.
/// - 2: a wrong command line: `beamdis: WHAT`, and the usage. No file was read, and nothing written.
///
/// The text is written as it is made: beside the file and its listing a run takes memory for a block of 64 KiB, and for the
/// text of one argument of a list or of one instruction.
///
/// After a fault `-v` or `--verbose` among the words adds a line that tells where it lies, where that is known.
pub fn dis_run<'a, F: Files, O: Write, E: Errors>(
    alloc: Global,
    words: &'a [&'a str],
    files: &mut F,
    output: &mut O,
    errors: &mut E,
) -> u8
    ensures done { result ≡ 0 → IsDone (F.contents files.old) (texts words.entry.now) (O.contents output.old) (O.contents output.new) }
    ensures quiet { result ≡ 0 → E.told errors.new ≡ E.told errors.old }
    ensures fault { result ≢ 0 → (f : TheFault) × (result ≡ status_of f) × FaultSays (F.contents files.old) (texts words.entry.now) f
        × IsReported Disassembler (texts words.entry.now) [] f (E.told errors.old) (E.told errors.new)
        × Leaves O.contents (Prints (F.contents files.old) (texts words.entry.now)) f output.old output.new }
    ensures wrong { result ≡ 2 → files.new ≡ files.old }
    ensures untouched { 1 < result → output.new ≡ output.old }
    ensures unwritten { F.written files.new ≡ F.written files.old }
    ensures known { (result ≡ 0) ⊎ ((result ≡ 1) ⊎ (result ≡ 2)) }
{
    match give(alloc, words, files, output) {
        Ok(()) => 0,
        Err(fault) => report(Program::Disassembler, words, &fault, &[], errors),
    }
}
