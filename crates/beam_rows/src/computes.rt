//! Natives of instructions.
ghost use Rattle.std.specs.Prelude.{◌≡◌};
ghost use Rattle.std.specs.List.{AllByRecursion};
ghost use Rattle.beam_machine.specs.Row.{computes};
ghost use Rattle.beam_proc.specs.Does.{Does};
ghost use Rattle.beam_shape_laws.specs.Finds.{HasValue, compute_reads};

use crate::natives::native_result;
use crate::operand::source_there;
use beam_bif::call::{call0, call1, call2};
use beam_machine::action::{Compute, OnFault, Register, Source};
use beam_machine::event::Then;
use beam_machine::process::Status;
use beam_model::native::{Binary, Nullary, Unary};
use beam_model::place::Place;
use beam_proc::process::Process;
use beam_term::Term;
use std::alloc::AllocError;

fn compute0(
    process: &mut Process,
    next: Place,
    native: Nullary,
    dest: Register,
    fail: OnFault,
) -> Result<Then, AllocError>
    requires { process.old.status ≡ Status.Running }
    ensures { Does process.old (computes (Compute.Of0 native dest) fail next process.old) result process.new }
{
    let alloc = process.alloc();
    match native {
        Nullary::OwnPid => {
            let own = process.own_pid()?;
            process.store(next, dest, own)
        }
        Nullary::Node => {
            let computed = native_result(call0(alloc, native, &Term::nil()))?;
            process.store_computed(next, dest, fail, computed)
        }
    }
}

fn compute1(
    process: &mut Process,
    next: Place,
    native: Unary,
    source: &Source<'_>,
    dest: Register,
    fail: OnFault,
) -> Result<Then, AllocError>
    requires runs { process.old.status ≡ Status.Running }
    requires value { HasValue process.old source.now }
    ensures { Does process.old (computes (Compute.Of1 native source.now dest) fail next process.old) result process.new }
{
    let nil = Term::nil();
    let argument = source_there(process, &nil, source);
    let computed = native_result(call1(process.alloc(), native, argument))?;
    process.store_computed(next, dest, fail, computed)
}

fn compute2(
    process: &mut Process,
    next: Place,
    native: Binary,
    left: &Source<'_>,
    right: &Source<'_>,
    dest: Register,
    fail: OnFault,
) -> Result<Then, AllocError>
    requires runs { process.old.status ≡ Status.Running }
    requires left { HasValue process.old left.now }
    requires right { HasValue process.old right.now }
    ensures { Does process.old (computes (Compute.Of2 native left.now right.now dest) fail next process.old) result process.new }
{
    let nil = Term::nil();
    let left = source_there(process, &nil, left);
    let right = source_there(process, &nil, right);
    let computed = native_result(call2(process.alloc(), native, left, right))?;
    process.store_computed(next, dest, fail, computed)
}

/// Executes the row of a native.
pub(crate) fn computes(
    process: &mut Process,
    next: Place,
    compute: &Compute<'_>,
    fail: OnFault,
) -> Result<Then, AllocError>
    requires runs { process.old.status ≡ Status.Running }
    requires values { AllByRecursion (HasValue process.old) (compute_reads compute.now) }
    ensures { Does process.old (computes compute.now fail next process.old) result process.new }
{
    match compute {
        Compute::Of0 { native, dest } => compute0(process, next, *native, *dest, fail),
        Compute::Of1 {
            native,
            source,
            dest,
        } => compute1(process, next, *native, source, *dest, fail),
        Compute::Of2 {
            native,
            left,
            right,
            dest,
        } => compute2(process, next, *native, left, right, *dest, fail),
    }
}
