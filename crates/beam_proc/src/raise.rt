//! Raising exceptions.
ghost use Rattle.std.specs.Prelude.{◌≡◌, Ok};
ghost use Rattle.beam_model.specs.declared.exception.Fault.TheVariants.{IllegalOperand};
ghost use Rattle.beam_machine.specs.Row.{raises, faults, illegal};
ghost use Rattle.beam_proc.specs.Does.{Does};

use crate::process::Process;
use crate::raised::Raised;
use beam_machine::event::Then;
use beam_machine::process::{Goes, Status};
use beam_model::exception::{Exception, Fault};
use std::alloc::AllocError;

impl Process {
    /// Raises an exception, without memory: it goes to the first catch tag. Without one it answers its end, and nothing changes.
    #[tactic(auto, using(crate::proofs::Tags::unwound_is))]
    pub fn unwind(&mut self, raised: Raised) -> Then
        requires { self.old.status ≡ Status.Running }
        ensures { Does self.old (raises self.old raised) (Ok result) self.new }
    {
        match self.frames.first_tag() {
            Some(tag) => {
                let _caught = self.frames.catch_tag();
                let Raised {
                    exception,
                    reason: _reason,
                } = raised;
                self.goes = Goes::At(tag.place);
                self.pending = Some(exception);
                Then::GoesOn
            }
            None => raised.into_end(),
        }
    }

    /// Raises an exception.
    pub fn raise(&mut self, exception: Exception) -> Result<Then, AllocError>
        requires { self.old.status ≡ Status.Running }
        ensures { Does self.old (raises self.old exception) result self.new }
    {
        let raised = Raised::new(self.alloc, exception)?;
        Ok(self.unwind(raised))
    }

    /// Raises a fault.
    pub fn fault(&mut self, fault: Fault) -> Result<Then, AllocError>
        requires { self.old.status ≡ Status.Running }
        ensures { Does self.old (faults self.old fault) result self.new }
    {
        self.raise(Exception::Fault(fault))
    }

    /// Raises the fault of a wrong shape.
    pub fn illegal(&mut self) -> Result<Then, AllocError>
        requires { self.old.status ≡ Status.Running }
        ensures { Does self.old (illegal self.old) result self.new }
    {
        self.fault(Fault::IllegalOperand)
    }
}
