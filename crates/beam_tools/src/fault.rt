//! Why a run of a program fails, and its status.
ghost use Rattle.std.specs.Prelude.{◌≡◌};
ghost use Rattle.beam_tools.specs.Fault.{status_of};
ghost use Rattle.beam_tools.specs.Names.{assembly_name, refusal_name};
ghost use Rattle.beam_tools.specs.declared.fault.RunFault.TheVariants.{File, NoMemory};

use crate::early_exit::Wrong;
use crate::files::ReadError;
use crate::os_error::OsError;
use beam_asm::AsmError;
use beam_disasm::FileError;
use beam_machine::event::Refused;

/// Why a file isn't read, written, loaded, listed or assembled.
#[derive(Clone, Copy)]
pub enum FileFaultKind {
    /// The file can't be read.
    Unread(ReadError),
    /// The file can't be written: the operating system's error.
    Unwritten(OsError),
    /// The file is no module's file.
    BadFile(FileError),
    /// The node refuses to load it.
    Refused(Refused),
    /// The file is no UTF-8.
    NoText,
    /// The text on this line is no Erlang terms with full stops.
    Syntax(usize),
    /// The form on this line is none of a listing.
    UnknownForm(usize),
    /// The listing has no file.
    Unassembled(AsmError),
    /// Memory was refused.
    NoMemory,
}

impl FileFaultKind {
    ghost use Rattle.beam_tools.specs.Names.{why_name};

    /// The refusal's name.
    pub fn name(&self) -> &'static str
        ensures { result.now ≡ why_name self.now }
    {
        match self {
            FileFaultKind::Unread(error) => error.name(),
            FileFaultKind::Unwritten(_) => "WriteFailed",
            FileFaultKind::BadFile(error) => error.name(),
            FileFaultKind::Refused(refused) => refusal_name(*refused),
            FileFaultKind::NoText | FileFaultKind::Syntax(_) => "Syntax",
            FileFaultKind::UnknownForm(_) => "UnknownForm",
            FileFaultKind::Unassembled(error) => assembly_name(*error),
            FileFaultKind::NoMemory => "NoMemory",
        }
    }
}

/// The name of a refusal of the node.
pub fn refusal_name(refused: Refused) -> &'static str
    ensures { result.now ≡ refusal_name refused }
{
    match refused {
        Refused::NoMemory => "NoMemory",
        Refused::NoProcess => "NoProcess",
        Refused::BackwardClock => "BackwardClock",
        Refused::NotReady => "NotReady",
        Refused::Sticky => "Sticky",
        Refused::NotPurged => "NotPurged",
        Refused::Duplicated => "Duplicated",
        Refused::TooMany => "TooMany",
        Refused::Stopped => "Stopped",
        Refused::BadSpot => "BadSpot",
    }
}

// Refusals of the check have the same names for a listing as for a file.
fn assembly_name(error: AsmError) -> &'static str
    ensures { result.now ≡ assembly_name error }
{
    match error {
        AsmError::Check(error) => FileError::Check(error).name(),
        AsmError::TooManyAtoms => "TooManyAtoms",
        AsmError::AtomTooLong => "AtomTooLong",
    }
}

/// A file that a run fails at, by its name, and why.
#[derive(Clone, Copy)]
pub struct FileFault<'a> {
    pub name: &'a str,
    pub why: FileFaultKind,
}

/// How process 1 ended.
pub struct Exit {
    /// The reason's text.
    pub reason: Vec<u8>,
    /// Lines about where process 1 stood, if they were asked for.
    pub place: Vec<u8>,
}

impl Drop for Exit {
    fn drop(self) {
        let Exit {
            reason: _reason,
            place: _place,
        } = self;
    }
}

/// Why a run fails.
pub enum RunFault<'a> {
    /// The command line is wrong.
    Wrong(Wrong<'a>),
    /// The run fails at a file.
    File(FileFault<'a>),
    /// Memory was refused.
    NoMemory,
    /// The output can't be written.
    Unwritten,
    /// Process 1 ended with another reason than `normal`.
    Exit(Exit),
    /// Process 1 hasn't ended, and no process can run.
    Stuck,
    /// The budget of rows was spent before process 1 ended.
    Spent,
}

impl Drop for RunFault<'_> {
    fn drop(self) {
        match self {
            RunFault::Wrong(_wrong) => {}
            RunFault::Exit(_exit) => {}
            RunFault::File(_)
            | RunFault::NoMemory
            | RunFault::Unwritten
            | RunFault::Stuck
            | RunFault::Spent => {}
        }
    }
}

impl RunFault<'_> {
    /// The status of the program.
    pub fn status(&self) -> u8
        ensures { result ≡ status_of self.now }
    {
        match self {
            RunFault::File(_) | RunFault::NoMemory | RunFault::Unwritten => 1,
            RunFault::Wrong(_) => 2,
            RunFault::Exit(_) => 3,
            RunFault::Stuck => 4,
            RunFault::Spent => 5,
        }
    }
}

impl<'a> From<FileFault<'a>> for RunFault<'a> {
    ghost from_gives = { λ given f. f ≡ File given };

    fn from(fault: FileFault<'a>) -> RunFault<'a> {
        RunFault::File(fault)
    }
}

impl<'a> From<Refused> for RunFault<'a> {
    ghost from_gives = { λ _ f. f ≡ NoMemory };

    // The rounds are refused for want of memory alone.
    fn from(_refused: Refused) -> RunFault<'a> {
        RunFault::NoMemory
    }
}
