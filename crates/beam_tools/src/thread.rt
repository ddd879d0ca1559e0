//! The thread on which a program does its work.
ghost use Rattle.std.specs.Prelude.{◌≡◌, ◌⊎◌, [], ℕ, ⊤};
ghost use Rattle.beam_tools.specs.Report.{IsReported};
ghost use Rattle.beam_tools.specs.declared.fault.RunFault.TheVariants.{NoMemory};

use crate::errors::Errors;
use crate::fault::RunFault;
use crate::program::Program;
use crate::report::report;
use std::thread::{Builder, Promise, Threads};

/// How many bytes of stack the work has: six times what it takes with terms of the greatest depth. That is enough for them also in a
/// program that isn't proved, which tests each index as it runs.
const STACK: usize = 2 * 1024 * 1024;

/// The promise that every status keeps.
#[derive(Clone, Copy)]
pub struct AnyStatus;

impl Promise<u8> for AnyStatus {
    ghost kept_by = { λ _ _. ⊤ };
}

/// Does the work of a program on a thread of its own, and answers its status. The thread's stack of 2 MiB is taken before the work begins,
/// while that of the main thread grows as it runs, and the operating system ends the process where it refuses that. Where no such thread
/// can be made nothing of the work is done: `PROGRAM: NoMemory` is written, and the status is 1.
pub fn on_thread<
    R: Threads,
    P: Promise<u8> + Drop,
    F: FnOnce() -> u8 + Send + Drop + 'static,
    E: Errors,
>(rt: &R, program: Program, promise: P, work: F, errors: &mut E) -> u8
    requires runs { F.pre work }
    requires keeps { (status : ℕ) → F.post work status → P.kept_by promise status }
    ensures { (P.kept_by promise result × (errors.new ≡ errors.old))
        ⊎ ((result ≡ 1) × IsReported program [] [] NoMemory (E.told errors.old) (E.told errors.new)) }
{
    let thread = Builder::new()
        .stack_size(STACK)
        .spawn_with(rt, promise, work);
    match thread {
        Ok(thread) => thread.join(rt),
        Err(_) => report(program, &[], &RunFault::NoMemory, &[], errors),
    }
}
