//! Deferred ends.
ghost use Rattle.std.specs.Prelude.{Ok};
ghost use Rattle.beam_machine.specs.Process.{Process as TheProcess};
ghost use Rattle.beam_proc.specs.Does.{Does, DoesAtOnce};

use crate::process::Process;
use beam_machine::event::Then;
use std::alloc::AllocError;

impl Process {
    /// Ends the process if `then`, the answer of a row, is an end, and answers `then` again. Where memory is refused it hasn't ended.
    pub fn end_as_said(&mut self, then: Then) -> Result<Then, AllocError>
        ensures { (old wanted : TheProcess) → Does old wanted (Ok then) self.old → DoesAtOnce old wanted result self.new }
    {
        match then {
            Then::GoesOn => Ok(Then::GoesOn),
            Then::Waits => Ok(Then::Waits),
            Then::Ended { reason, value } => {
                let said = Then::Ended {
                    reason: reason.clone()?,
                    value: value.clone()?,
                };
                self.end(reason, value);
                Ok(said)
            }
        }
    }
}
