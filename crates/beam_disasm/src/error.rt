//! Why a file can't be loaded.
ghost use Rattle.std.specs.Prelude.{◌≡◌};
ghost use Rattle.beam_disasm.specs.Refusals as refusals;
ghost use Rattle.beam_disasm.specs.declared.error.FileError.TheVariants.{Form, Tables, Code, Check};

use beam_check::error::CheckError;
use beam_code::CodeError;
use beam_iff::IffError;
use beam_tables::TablesError;
use thiserror::Error;

/// Why a file can't be loaded: a fault that one of four layers found in it, or that memory was refused there.
#[derive(Clone, Copy, Debug, PartialEq, Eq, Error)]
pub enum FileError {
    /// The form of the file and its chunks.
    #[error(transparent)]
    Form(IffError),
    /// The tables that chunks spell.
    #[error(transparent)]
    Tables(TablesError),
    /// The instructions of the code chunk.
    #[error(transparent)]
    Code(CodeError),
    /// The check of the listing that the file spells.
    #[error(transparent)]
    Check(CheckError),
}

impl FileError {
    ghost use Rattle.beam_disasm.specs.Refusals.{layer_of, number_of, name_of, is_memory};

    /// The layer: 1 the form, 2 the tables, 3 the instructions, 4 the check.
    pub fn layer(&self) -> u8
        ensures { result ≡ layer_of self.now }
    {
        match self {
            FileError::Form(_) => 1,
            FileError::Tables(_) => 2,
            FileError::Code(_) => 3,
            FileError::Check(_) => 4,
        }
    }

    /// The number of the error in its layer, from 1.
    pub fn number(&self) -> u8
        ensures { result ≡ number_of self.now }
    {
        match self {
            FileError::Form(error) => error.number(),
            FileError::Tables(error) => error.number(),
            FileError::Code(error) => error.number(),
            FileError::Check(error) => error.number(),
        }
    }

    /// The name of the error: that of its variant in its layer.
    pub fn name(&self) -> &'static str
        ensures { result.now ≡ name_of self.now }
    {
        match self {
            FileError::Form(error) => form_name(*error),
            FileError::Tables(error) => table_name(*error),
            FileError::Code(error) => code_name(*error),
            FileError::Check(error) => check_name(*error),
        }
    }

    /// Whether memory was refused, in any layer. The error then says nothing of the file.
    pub fn is_memory(&self) -> bool
        ensures { result ≡ is_memory self.now }
    {
        matches!(
            self,
            FileError::Form(IffError::NoMemory)
                | FileError::Tables(TablesError::NoMemory)
                | FileError::Code(CodeError::NoMemory)
                | FileError::Check(CheckError::NoMemory)
        )
    }
}

fn form_name(error: IffError) -> &'static str
    ensures { result.now ≡ refusals.form_name error }
{
    match error {
        IffError::NotForm => "NotForm",
        IffError::Truncated => "Truncated",
        IffError::CompressedFile => "CompressedFile",
        IffError::DuplicateChunk => "DuplicateChunk",
        IffError::NoMemory => "NoMemory",
    }
}

fn table_name(error: TablesError) -> &'static str
    ensures { result.now ≡ refusals.table_name error }
{
    match error {
        TablesError::MissingChunk => "MissingChunk",
        TablesError::BadTable => "BadTable",
        TablesError::CompressedLiterals => "CompressedLiterals",
        TablesError::BadLiteral => "BadLiteral",
        TablesError::NoMemory => "NoMemory",
    }
}

fn code_name(error: CodeError) -> &'static str
    ensures { result.now ≡ refusals.code_name error }
{
    match error {
        CodeError::UnsupportedOpcode(_, _) => "UnsupportedOpcode",
        CodeError::BadOperand(_) => "BadOperand",
        CodeError::Truncated => "Truncated",
        CodeError::NoMemory => "NoMemory",
    }
}

fn check_name(error: CheckError) -> &'static str
    ensures { result.now ≡ refusals.check_name error }
{
    match error {
        CheckError::BadLabel => "BadLabel",
        CheckError::BadHead => "BadHead",
        CheckError::BadExport => "BadExport",
        CheckError::UnknownBif => "UnknownBif",
        CheckError::LimitExceeded => "LimitExceeded",
        CheckError::FrameMismatch => "FrameMismatch",
        CheckError::NoMemory => "NoMemory",
    }
}

impl From<IffError> for FileError {
    ghost from_gives = { λ given made. made ≡ Form given };

    fn from(error: IffError) -> FileError {
        FileError::Form(error)
    }
}

impl From<TablesError> for FileError {
    ghost from_gives = { λ given made. made ≡ Tables given };

    fn from(error: TablesError) -> FileError {
        FileError::Tables(error)
    }
}

impl From<CodeError> for FileError {
    ghost from_gives = { λ given made. made ≡ Code given };

    fn from(error: CodeError) -> FileError {
        FileError::Code(error)
    }
}

impl From<CheckError> for FileError {
    ghost from_gives = { λ given made. made ≡ Check given };

    fn from(error: CheckError) -> FileError {
        FileError::Check(error)
    }
}
