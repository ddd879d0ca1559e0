//! A process that is to be run apart from the node.
ghost use Rattle.std.specs.Prelude.{◌≡◌, IfOk};

use beam_proc::process::Process;
use std::alloc::AllocError;
use std::marker::Model;

/// A process that is to be run, and whether its first row may be that of a break spot.
#[derive(Drop)]
pub struct Work {
    pub process: Process,
    pub passes: bool,
}

impl Model for Work {
    ghost use Rattle.std.specs.Coded.{codes};
    ghost use Rattle.beam_term.specs.Coding.{term_code};
    ghost use Rattle.beam_step.specs.Slices.{Work as TheWork};

    ghost Value = { TheWork };

    ghost coded = { Prim.hlevel (codes, term_code) };

    ghost view = { λ w. record { process = w.process; passes = w.passes } };
}

impl Work {
    /// A copy of a process, with the signals in transit to it. Its first row may be that of a break spot if `passes`. Where memory is
    /// refused there is none. The cost is that of its registers, frames and mailbox, whose terms are shared.
    pub fn new(process: &Process, passes: bool) -> Result<Work, AllocError>
        ensures { IfOk result (λ work. work ≡ record { process = process.now; passes = passes }) }
    {
        Ok(Work {
            process: process.try_copy()?,
            passes,
        })
    }
}
