//! Where faults lie.
ghost use Rattle.std.specs.Prelude.{◌≡◌, ◌++◌};
ghost use Rattle.std.specs.Fmt.{decimal};
ghost use Rattle.std.specs.Io.KnownBytes.{append_known};
ghost use Rattle.beam_tools.specs.Place.{after_mark, bad_line, byte_text, culprit, file_place, journal_place, line_in, opcode_line};
ghost use Rattle.beam_tools.specs.Place.{operand_line, place_text, os_error_line, socket_place, text_line, up_to, word_line};

use crate::early_exit::Wrong;
use crate::errors::{Errors, tell_three, tell_two};
use crate::fault::{FileFaultKind, RunFault};
use crate::files::ReadError;
use crate::journal_fault::JournalFaultKind;
use crate::os_error::OsError;
use crate::socket_fault::SocketFaultKind;
use beam_code::CodeError;
use beam_disasm::FileError;
use itoa::Buffer;

/// The bytes after the first mark: none, where there is no mark.
pub fn after_mark(mark: u8, text: &[u8]) -> &[u8]
    ensures { result.now ≡ after_mark mark text.now }
{
    let mut rest = text;
    while let Some((first, others)) = rest.split_first() {
        if *first == mark {
            return others;
        }
        rest = others;
    }
    rest
}

// The bytes before the first mark: all, where there is none.
fn up_to(mark: u8, text: &[u8]) -> &[u8]
    ensures { result.now ≡ up_to mark text.now }
{
    let mut end = 0;
    while end < text.len() {
        if text[end] == mark {
            return &text[..end];
        }
        end += 1;
    }
    text
}

/// The line of that number. Lines count from 1.
pub fn line_in(number: usize, text: &[u8]) -> &[u8]
    ensures { result.now ≡ line_in number text.now }
{
    let mut rest = text;
    for _ in 1..number {
        rest = after_mark(b'\n', rest);
    }
    up_to(b'\n', rest)
}

// The wrong word of a command line: in the command's message, the first one in quotes.
fn culprit<'a>(wrong: &'a Wrong<'_>) -> &'a [u8]
    ensures { result.now ≡ culprit wrong.now }
{
    match wrong {
        Wrong::Words(_) => up_to(b'\'', after_mark(b'\'', wrong.word())),
        _ => wrong.word(),
    }
}

fn tell_word<E: Errors>(word: &[u8], errors: &mut E)
    ensures { E.told errors.new ≡ append_known (E.told errors.old) (word_line word.now) }
{
    if word.is_empty() {
        return;
    }
    tell_three(b"  word: ", word, b"\n", errors);
}

fn tell_line<E: Errors>(number: usize, text: &[u8], errors: &mut E)
    ensures { E.told errors.new ≡ append_known (E.told errors.old) (text_line number text.now) }
{
    let mut digits = Buffer::new();
    let number_text = digits.format(number).as_bytes();
    tell_three(b"  line ", number_text, b": ", errors);
    tell_two(line_in(number, text), b"\n", errors);
}

// Writes a byte's position in the code chunk, without a newline.
fn tell_byte<E: Errors>(at: usize, errors: &mut E)
    ensures { E.told errors.new ≡ append_known (E.told errors.old) (byte_text at) }
{
    let mut digits = Buffer::new();
    let place = digits.format(at).as_bytes();
    tell_three(b"  byte ", place, b" of the code chunk", errors);
}

fn tell_opcode<E: Errors>(opcode: u8, at: usize, errors: &mut E)
    ensures { E.told errors.new ≡ append_known (E.told errors.old) (opcode_line opcode at) }
{
    tell_byte(at, errors);
    let mut digits = Buffer::new();
    let number = digits.format(opcode).as_bytes();
    tell_three(b": opcode ", number, b"\n", errors);
}

fn tell_operand<E: Errors>(at: usize, errors: &mut E)
    ensures { E.told errors.new ≡ append_known (E.told errors.old) (operand_line at) }
{
    tell_byte(at, errors);
    errors.tell(b"\n");
}

/// Writes the operating system's error, as a line.
pub fn tell_os_error<E: Errors>(os_error: OsError, errors: &mut E)
    ensures { E.told errors.new ≡ append_known (E.told errors.old) (os_error_line os_error) }
{
    errors.tell(b"  system: ");
    errors.tell(os_error.kind_text().as_bytes());
    if os_error.code == 0 {
        errors.tell(b"\n");
        return;
    }
    let mut digits = Buffer::new();
    let code = digits.format(os_error.code).as_bytes();
    tell_three(b", error ", code, b"\n", errors);
}

/// Writes where the fault of a file with this text lies, as a line.
pub fn tell_file_place<E: Errors>(why: FileFaultKind, text: &[u8], errors: &mut E)
    ensures { E.told errors.new ≡ append_known (E.told errors.old) (file_place text.now why) }
{
    match why {
        FileFaultKind::Unread(ReadError::ReadFailed(os_error))
        | FileFaultKind::Unwritten(os_error) => tell_os_error(os_error, errors),
        FileFaultKind::Syntax(number) | FileFaultKind::UnknownForm(number) => tell_line(
            number, text, errors,
        ),
        FileFaultKind::BadFile(FileError::Code(CodeError::UnsupportedOpcode(opcode, at))) => {
            tell_opcode(opcode, at, errors);
        }
        FileFaultKind::BadFile(FileError::Code(CodeError::BadOperand(at))) => tell_operand(
            at, errors,
        ),
        _ => {}
    }
}

// Writes a text, and a number after it.
fn tell_number<E: Errors>(before: &[u8], number: u64, errors: &mut E)
    ensures { E.told errors.new ≡ append_known (E.told errors.old) (before.now ++ decimal number) }
{
    let mut digits = Buffer::new();
    let number_text = digits.format(number).as_bytes();
    tell_two(before, number_text, errors);
}

fn tell_bad<E: Errors>(at: u64, entry: u64, errors: &mut E)
    ensures { E.told errors.new ≡ append_known (E.told errors.old) (bad_line at entry) }
{
    tell_number(b"  byte ", at, errors);
    tell_number(b", entry ", entry, errors);
    errors.tell(b"\n");
}

/// Writes more about the fault of a journal's file, as a line: the operating system's error, or the byte at which the bad block begins,
/// and the number of the bad entry. Writes nothing where there is no more.
pub fn tell_journal_place<E: Errors>(why: JournalFaultKind, errors: &mut E)
    ensures { E.told errors.new ≡ append_known (E.told errors.old) (journal_place why) }
{
    match why {
        JournalFaultKind::Unread(os_error)
        | JournalFaultKind::Unwritten(os_error)
        | JournalFaultKind::Unsynced(os_error) => tell_os_error(os_error, errors),
        JournalFaultKind::Bad { at, entry } => tell_bad(at, entry, errors),
        _ => {}
    }
}

/// Writes more about the fault of a socket, as a line: the operating system's error. Writes nothing where there is none.
pub fn tell_socket_place<E: Errors>(why: SocketFaultKind, errors: &mut E)
    ensures { E.told errors.new ≡ append_known (E.told errors.old) (socket_place why) }
{
    if let SocketFaultKind::Failed(os_error) = why {
        tell_os_error(os_error, errors);
    }
}

/// Writes where a fault lies, as a line: of a wrong command line the word, of the text of a listing the line, of a file's instructions the
/// byte in the code chunk, of a device that failed the operating system's error, and of an exit the row that ended process 1. Writes
/// nothing where that isn't known.
pub fn tell_place<E: Errors>(fault: &RunFault<'_>, text: &[u8], errors: &mut E)
    ensures { E.told errors.new ≡ append_known (E.told errors.old) (place_text text.now fault.now) }
{
    match fault {
        RunFault::Wrong(wrong) => tell_word(culprit(wrong), errors),
        RunFault::File(file) => tell_file_place(file.why, text, errors),
        RunFault::Exit(exit) => errors.tell(&exit.place),
        _ => {}
    }
}
