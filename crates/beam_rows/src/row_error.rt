//! Why a row isn't executed, and how a row ends.
ghost use Rattle.std.specs.Prelude.{◌≡◌, ◌≢◌, Err};
ghost use Rattle.beam_rows.specs.RowErrors.{Finishes};

use crate::request::RowOutcome;
use beam_machine::process::Status;
use beam_model::exception::Fault;
use beam_model::place::Place;
use beam_proc::process::Process;
use std::alloc::AllocError;

/// Why a row isn't executed. Nothing has changed.
#[derive(Clone, Copy)]
pub(crate) enum RowError {
    /// It raises this fault.
    Raises(Fault),
    /// Memory was refused.
    NoMemory,
    /// It reads an x register that was never written, which rows over records leave to others.
    Unwritten,
}

impl From<AllocError> for RowError {
    ghost use Rattle.std.specs.Prelude.{◌≡◌};
    ghost use Rattle.beam_rows.specs.declared.row_error.RowError.TheVariants.{NoMemory};

    ghost from_gives = { λ _ e. e ≡ NoMemory };

    fn from(_refused: AllocError) -> RowError {
        RowError::NoMemory
    }
}

/// A row of a wrong shape.
#[inline(always)]
pub(crate) fn illegal() -> RowError
    ensures { result ≡ RowError.Raises Fault.IllegalOperand }
{
    RowError::Raises(Fault::IllegalOperand)
}

/// Ends a row: the process goes on at this row, or raises this fault. `Err` where memory was refused.
pub(crate) fn finish(
    process: &mut Process,
    instance: u32,
    row: Result<usize, RowError>,
) -> Result<RowOutcome, AllocError>
    requires runs { process.old.status ≡ Status.Running }
    requires told { row ≢ Err RowError.Unwritten }
    ensures { Finishes instance row process.old result process.new }
{
    match row {
        Ok(at) => Ok(RowOutcome::Made(process.go_on(Place::new(instance, at)))),
        Err(RowError::Raises(fault)) => Ok(RowOutcome::Made(process.fault(fault)?)),
        Err(RowError::NoMemory) => Err(AllocError),
        Err(RowError::Unwritten) => unreachable!(),
    }
}
