//! Lines about the forms and instructions of a listing that can't be assembled.
ghost use Rattle.std.specs.Prelude.{◌≡◌, List, ℕ, [], false};
ghost use Rattle.std.specs.Io.KnownBytes.{append_known};
ghost use Rattle.clap.specs.Walk.{texts};
ghost use Rattle.beam_tools.specs.Assembler.{IsReportedBeside, asks_more};
ghost use Rattle.beam_tools.specs.Fault.{status_of};

use crate::errors::Errors;
use crate::fault::{FileFaultKind, RunFault};
use crate::lines::Lines;
use crate::mismatch_text::push_mismatch;
use crate::part_faults::{ListingPart, PartFault, part_faults};
use crate::place::{after_mark, line_in};
use crate::program::Program;
use crate::report::{has_word, is_verbose, report};
use crate::reserved_word::reserved_word;
use beam_asm::AsmError;
use beam_disasm::FileError;
use beam_listing::{FormAt, FormKind, forms_of, read_listing};
use beam_shapes::mismatch::Mismatch;
use std::alloc::{AllocError, Global};

/// The most forms and instructions in one message.
const MOST_LINES: usize = 100;

// Texts that occur in forms which use a feature outside of the profile, each with that feature.
const FEATURES: [(&str, &str); 22] = [
    (
        "{set_tuple_element",
        "record updates of several fields (compile with erlc +r24)",
    ),
    ("#{", "maps"),
    ("_map", "maps"),
    ("<<", "binaries"),
    ("{bs_", "binaries"),
    ("is_binary", "binaries"),
    ("is_bitstr", "binaries"),
    ("make_fun", "funs"),
    ("{literal,fun ", "funs"),
    ("call_fun", "funs"),
    ("is_function", "funs"),
    ("{floats,0}", "funs"),
    ("{funs,0}", "floats"),
    ("{fmove", "floats"),
    ("{fconv", "floats"),
    ("{fadd", "floats"),
    ("{fsub", "floats"),
    ("{fmul", "floats"),
    ("{fdiv", "floats"),
    ("{fnegate", "floats"),
    ("{float,", "floats"),
    ("is_float", "floats"),
];

// The feature outside of the profile that a line uses, if one is known.
fn feature_of(line: &str) -> Option<&'static str> {
    for (mark, feature) in &FEATURES {
        if line.contains(*mark) {
            return Some(feature);
        }
    }
    None
}

// A part of a text that is refused: the line at which it begins, the refusal's name, and, of a frame that doesn't fit, the mismatch.
#[derive(Clone, Copy)]
struct RefusedLine {
    line: usize,
    name: &'static str,
    mismatch: Option<Mismatch>,
}

// A form that is refused.
fn refused_form(line: usize, name: &'static str) -> RefusedLine {
    RefusedLine {
        line,
        name,
        mismatch: None,
    }
}

// The refusal of a form, if the form is refused.
fn form_refusal(form: &FormAt) -> Option<RefusedLine> {
    match form.kind {
        FormKind::Syntax => Some(refused_form(form.line, "Syntax")),
        FormKind::Unknown => Some(refused_form(form.line, "UnknownForm")),
        FormKind::Other | FormKind::Instruction => None,
    }
}

// The forms that are refused.
fn refused_forms(alloc: Global, forms: &[FormAt]) -> Result<Vec<RefusedLine>, AllocError> {
    let mut refused = Vec::new(alloc);
    for form in forms {
        if let Some(refusal) = form_refusal(form) {
            refused.push(refusal)?;
        }
    }
    Ok(refused)
}

// The lines of the instructions, in their order.
fn instruction_lines(alloc: Global, forms: &[FormAt]) -> Result<Vec<usize>, AllocError> {
    let mut lines = Vec::new(alloc);
    for form in forms {
        if matches!(form.kind, FormKind::Instruction) {
            lines.push(form.line)?;
        }
    }
    Ok(lines)
}

// The parts of a listing that the check refuses; none where the text is no listing.
fn parts_of(alloc: Global, text: &str) -> Result<Vec<PartFault>, AllocError> {
    match read_listing(alloc, text) {
        Ok(listing) => part_faults(alloc, &listing),
        Err(_) => Ok(Vec::new(alloc)),
    }
}

// The refusal of a part, placed by the forms and by the lines of the instructions.
fn part_refusal(part_fault: &PartFault, forms: &[FormAt], lines: &[usize]) -> Option<RefusedLine> {
    let line = match part_fault.part {
        ListingPart::Exports => forms.get(1)?.line,
        ListingPart::Instruction(index) => *lines.get(index)?,
    };
    let name = FileError::Check(part_fault.error).name();
    let mismatch = part_fault.mismatch;
    Some(RefusedLine {
        line,
        name,
        mismatch,
    })
}

// The parts that the check refuses.
fn refused_parts(
    alloc: Global,
    text: &str,
    forms: &[FormAt],
) -> Result<Vec<RefusedLine>, AllocError> {
    let lines = instruction_lines(alloc, forms)?;
    let mut refused = Vec::new(alloc);
    for part in &parts_of(alloc, text)? {
        if let Some(refusal) = part_refusal(part, forms, &lines) {
            refused.push(refusal)?;
        }
    }
    Ok(refused)
}

// All that is refused: the forms, or, if none is, the parts that the check refuses.
fn all_refused(alloc: Global, text: &str) -> Result<Vec<RefusedLine>, AllocError> {
    let forms = forms_of(alloc, text)?;
    let refused = refused_forms(alloc, &forms)?;
    if refused.is_empty() {
        return refused_parts(alloc, text, &forms);
    }
    Ok(refused)
}

// `  line 7: {jump,{f,9}}.`
fn push_line(line: usize, text: &str, lines: &mut Lines) {
    lines.push(b"  line ");
    lines.push_number(line);
    lines.push(b": ");
    lines.push(line_in(line, text.as_bytes()));
    lines.push(b"\n");
}

// Adds the line of a refused part, and its mismatch.
fn push_refused(refused: RefusedLine, text: &str, lines: &mut Lines) {
    push_line(refused.line, text, lines);
    if let Some(mismatch) = refused.mismatch {
        push_mismatch(mismatch, lines);
    }
}

fn push_feature(line: usize, text: &str, lines: &mut Lines) {
    if let Ok(line) = str::from_utf8(line_in(line, text.as_bytes()))
        && let Some(feature) = feature_of(line)
    {
        lines.push(b"  feature: ");
        lines.push(feature.as_bytes());
        lines.push(b"\n");
    }
}

// The text from the line of that number on.
fn text_from(number: usize, text: &[u8]) -> &[u8] {
    let mut rest = text;
    for _ in 1..number {
        rest = after_mark(b'\n', rest);
    }
    rest
}

// Adds the first reserved word of the form at this line that stands where an atom has to be quoted.
fn push_reserved(line: usize, text: &str, lines: &mut Lines) {
    if let Some(word) = reserved_word(text_from(line, text.as_bytes())) {
        lines.push(b"  atom: ");
        lines.push(word);
        lines.push(b" (a reserved word, so it has to be quoted: '");
        lines.push(word);
        lines.push(b"')\n");
    }
}

// Adds what is known of why the form at this line isn't read.
fn push_form(line: usize, text: &str, lines: &mut Lines) {
    push_feature(line, text, lines);
    push_reserved(line, text, lines);
}

// Adds the line of the first part that is refused by this name.
fn push_first(name: &str, refused: &[RefusedLine], text: &str, lines: &mut Lines) {
    for refused in refused {
        if refused.name == name {
            return push_refused(*refused, text, lines);
        }
    }
}

// Adds each refusal, its name before its line.
fn push_each(refused: &[RefusedLine], text: &str, lines: &mut Lines) {
    for refused in &refused[..refused.len().min(MOST_LINES)] {
        lines.push(b"  ");
        lines.push(refused.name.as_bytes());
        push_refused(*refused, text, lines);
    }
    if refused.len() > MOST_LINES {
        lines.push(b"  and more\n");
    }
}

// Adds what `-v` reports beside the place: the feature that a form uses and its unquoted reserved word, or the line of the first part that
// the check refuses by that name.
fn push_cause(alloc: Global, why: FileFaultKind, text: &str, lines: &mut Lines) {
    match why {
        FileFaultKind::Syntax(line) | FileFaultKind::UnknownForm(line) => push_form(
            line, text, lines,
        ),
        FileFaultKind::Unassembled(AsmError::Check(_)) => match all_refused(alloc, text) {
            Ok(refused) => push_first(why.name(), &refused, text, lines),
            Err(_) => lines.refuse(),
        },
        _ => {}
    }
}

// Adds what `--all` reports.
fn push_all(alloc: Global, text: &str, lines: &mut Lines) {
    match all_refused(alloc, text) {
        Ok(refused) => push_each(&refused, text, lines),
        Err(_) => lines.refuse(),
    }
}

// Adds what the words ask for beside the message of a fault of a listing.
fn push_more(alloc: Global, words: &[&str], why: FileFaultKind, text: &str, lines: &mut Lines) {
    if is_verbose(words) {
        push_cause(alloc, why, text, lines);
    }
    if has_word(words, "--all") {
        push_all(alloc, text, lines);
    }
}

// Lines about a fault, as the words ask for them. Empty if the fault isn't of a listing, or memory is refused.
fn lines_of(alloc: Global, words: &[&str], fault: &RunFault<'_>, text: &[u8]) -> Vec<u8> {
    let mut lines = Lines::new(alloc);
    if let (RunFault::File(file), Ok(text)) = (fault, str::from_utf8(text)) {
        push_more(alloc, words, file.why, text, &mut lines);
    }
    lines.into_text().unwrap_or(Vec::new(alloc))
}

fn asks_more(words: &[&str]) -> bool
    ensures { result ≡ asks_more (texts words.now) }
{
    has_word(words, "--all") || is_verbose(words)
}

// Lines about a fault, if the words ask for them; otherwise empty.
fn more(alloc: Global, words: &[&str], fault: &RunFault<'_>, text: &[u8]) -> Vec<u8>
    ensures { asks_more (texts words.now) ≡ false → result.items ≡ [] }
{
    if asks_more(words) {
        return lines_of(alloc, words, fault, text);
    }
    Vec::new(alloc)
}

// Writes more about a fault than its message and place, if the words ask for it: with `-v` the feature outside of the profile that a form
// uses and its unquoted reserved word, or the line of the first instruction that the check refuses by that name; with `--all` each form
// that is refused, or, if none is, each part that the check refuses, at most 100 of them. Where an instruction lacks something of its
// frame, both write the frame that it wants and the one there. `text` is that of the listing.
fn tell_more<E: Errors>(
    alloc: Global,
    words: &[&str],
    fault: &RunFault<'_>,
    text: &[u8],
    errors: &mut E,
)
    ensures { (told : List ℕ) × (E.told errors.new ≡ append_known (E.told errors.old) told) × (asks_more (texts words.now) ≡ false → told ≡ []) }
{
    let lines = more(alloc, words, fault, text);
    errors.tell(&lines);
}

/// Reports a fault of a run of `beamas` with these words, as `report` and then `tell_more` do, and answers the status.
pub fn report_beside<E: Errors>(
    alloc: Global,
    words: &[&str],
    fault: &RunFault<'_>,
    text: &[u8],
    errors: &mut E,
) -> u8
    ensures status { result ≡ status_of fault.now }
    ensures told { IsReportedBeside (texts words.now) text.now fault.now (E.told errors.old) (E.told errors.new) }
{
    let status = report(Program::Assembler, words, fault, text, errors);
    tell_more(alloc, words, fault, text, errors);
    status
}
