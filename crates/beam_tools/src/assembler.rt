//! The program `beamas`, over files and two writers: it writes the file of the listing in a text.
ghost use Rattle.std.specs.Prelude.{◌≡◌, ◌≢◌, ◌<◌, ◌⊎◌, IfErr, IfOk, List, OnErr, OnOk, Ok, ℕ};
ghost use Rattle.clap.specs.Walk.{texts};
ghost use Rattle.beam_model.specs.ListingReading.{listing_of_text};
ghost use Rattle.beam_tools.specs.Assembler.{FaultSays, HasFileOf, IsAssembled, IsDone, IsNoListing, IsNotAssembled};
ghost use Rattle.beam_tools.specs.Assembler.{IsReportedBeside, IsWrittenAs, NameSays, as_app};
ghost use Rattle.beam_tools.specs.Fault.{status_of};
ghost use Rattle.beam_tools.specs.Lines.{IsAnswer};
ghost use Rattle.beam_tools.specs.Output.{Leaves};
ghost use Rattle.beam_tools.specs.declared.fault.RunFault.{RunFault as TheFault};
ghost use Rattle.beam_tools.specs.declared.program.Program.TheVariants.{Assembler};

use crate::as_options::names;
use crate::errors::Errors;
use crate::fault::{FileFault, FileFaultKind, RunFault};
use crate::files::{Files, WriteError};
use crate::listing_report::report_beside;
use crate::output::answer;
use crate::program::Program;
use beam_asm::assemble;
use beam_listing::{ListingError, read_listing};
use beam_model::listing::Listing;
use std::alloc::Global;
use std::io::Write;

// The listing in a text.
fn listing_of(alloc: Global, text: &[u8]) -> Result<Listing, FileFaultKind>
    ensures listing { IfOk result (λ l. listing_of_text text.now ≡ Ok l) }
    ensures refused { IfErr result (IsNoListing text.now) }
{
    let Ok(text) = str::from_utf8(text) else {
        return Err(FileFaultKind::NoText);
    };
    match read_listing(alloc, text) {
        Ok(listing) => Ok(listing),
        Err(ListingError::Syntax(line)) => Err(FileFaultKind::Syntax(line)),
        Err(ListingError::UnknownForm(line)) => Err(FileFaultKind::UnknownForm(line)),
        Err(ListingError::NoMemory) => Err(FileFaultKind::NoMemory),
    }
}

// The file of the listing in a text.
fn file_of(alloc: Global, text: &[u8]) -> Result<Vec<u8>, FileFaultKind>
    ensures file { IfOk result (λ bytes. HasFileOf text.now bytes.items) }
    ensures refused { IfErr result (IsNoListing text.now) }
{
    let listing = listing_of(alloc, text)?;
    match assemble(alloc, &listing) {
        Ok(bytes) => Ok(bytes),
        Err(error) => Err(FileFaultKind::Unassembled(error)),
    }
}

// The file of the listing in the text of the file of that name. The caller keeps the text that was read.
fn assembled<F: Files>(
    alloc: Global,
    files: &mut F,
    name: &str,
    text: &mut Vec<u8>,
) -> Result<Vec<u8>, FileFaultKind>
    ensures is { IfOk result (λ bytes. IsAssembled (F.contents files.old) name.now bytes.items) }
    ensures refused { IfErr result (IsNotAssembled (F.contents files.old) name.now text.new.items) }
    ensures unwritten { F.written files.new ≡ F.written files.old }
{
    match files.read(alloc, name) {
        Ok(bytes) => {
            *text = bytes;
            file_of(alloc, text)
        }
        Err(error) => Err(FileFaultKind::Unread(error)),
    }
}

// Assembles the text of the first file, and writes the result under the second name.
fn assemble_file<'a, F: Files>(
    alloc: Global,
    names: (&'a str, &'a str),
    files: &mut F,
    text: &mut Vec<u8>,
) -> Result<(), RunFault<'a>>
    ensures written { OnOk result (IsWrittenAs (F.contents files.old) names.entry.0.now names.entry.1.now (F.written files.old) (F.written files.new)) }
    ensures fault { IfErr result (NameSays (F.contents files.old) names.entry.0.now names.entry.1.now text.new.items) }
    ensures unwritten { OnErr result (F.written files.new ≡ F.written files.old) }
{
    let (input, output) = names;
    let bytes = match assembled(alloc, files, input, text) {
        Ok(bytes) => bytes,
        Err(why) => return Err(RunFault::File(FileFault { name: input, why })),
    };
    match files.write(alloc, output, &bytes) {
        Ok(()) => Ok(()),
        Err(WriteError::WriteFailed(os_error)) => Err(RunFault::File(FileFault {
            name: output,
            why: FileFaultKind::Unwritten(os_error),
        })),
    }
}

// Does what the words ask for.
fn give<'a, F: Files, O: Write>(
    alloc: Global,
    words: &'a [&'a str],
    files: &mut F,
    output: &mut O,
    text: &mut Vec<u8>,
) -> Result<(), RunFault<'a>>
    ensures done { OnOk result (IsDone (F.contents files.old) (texts words.entry.now) (F.written files.old) (F.written files.new)
        (O.contents output.old) (O.contents output.new)) }
    ensures fault { IfErr result (FaultSays (F.contents files.old) (texts words.entry.now) text.new.items) }
    ensures left { IfErr result (λ f. Leaves O.contents (IsAnswer Assembler as_app (texts words.entry.now)) f output.old output.new) }
    ensures unwritten { OnErr result (F.written files.new ≡ F.written files.old) }
    ensures wrong { IfErr result (λ f. status_of f ≡ 2 → files.new ≡ files.old) }
{
    match names(alloc, words) {
        Ok(names) => assemble_file(alloc, names, files, text),
        Err(stop) => answer(Program::Assembler, stop, output),
    }
}

/// Runs the program by its words, of which the first is its name, and answers its status.
///
/// - 0: the file of the listing whose text IN is was written as OUT, or the help or the version was printed where the words
///   ask for it.
/// - 1: no file was written whole, for `beamas: IN: NAME`, with the refusal's name, where the text isn't read, is no listing or
///   can't be assembled (a text that is no UTF-8 is `Syntax`), or `beamas: NoMemory`; or OUT couldn't be written:
///   `beamas: OUT: WriteFailed`; or the output couldn't, and holds a beginning of the help or the version.
/// - 2: a wrong command line, or one with the same word for IN and OUT: `beamas: WHAT`, and the usage. No file was read.
///
/// After a fault `-v` or `--verbose` among the words adds lines that tell where it lies, where that is known, and `--all` one for each form,
/// or each part of the listing, that is refused.
pub fn as_run<'a, F: Files, O: Write, E: Errors>(
    alloc: Global,
    words: &'a [&'a str],
    files: &mut F,
    output: &mut O,
    errors: &mut E,
) -> u8
    ensures done { result ≡ 0 → IsDone (F.contents files.old) (texts words.entry.now) (F.written files.old) (F.written files.new)
        (O.contents output.old) (O.contents output.new) }
    ensures quiet { result ≡ 0 → E.told errors.new ≡ E.told errors.old }
    ensures unwritten { result ≢ 0 → F.written files.new ≡ F.written files.old }
    ensures fault { result ≢ 0 → (f : TheFault) × (text : List ℕ) × (result ≡ status_of f)
        × FaultSays (F.contents files.old) (texts words.entry.now) text f
        × IsReportedBeside (texts words.entry.now) text f (E.told errors.old) (E.told errors.new)
        × Leaves O.contents (IsAnswer Assembler as_app (texts words.entry.now)) f output.old output.new }
    ensures wrong { result ≡ 2 → files.new ≡ files.old }
    ensures untouched { 1 < result → output.new ≡ output.old }
    ensures known { (result ≡ 0) ⊎ ((result ≡ 1) ⊎ (result ≡ 2)) }
{
    let mut text = Vec::new(alloc);
    match give(alloc, words, files, output, &mut text) {
        Ok(()) => 0,
        Err(fault) => report_beside(alloc, words, &fault, &text, errors),
    }
}
