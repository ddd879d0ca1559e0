//! Reading registers.
ghost use Rattle.std.specs.Prelude.{◌≡◌, ◌++◌, drop, map, true, is_some, Some, IfOk};
ghost use Rattle.std.specs.List.{AllByRecursion};
ghost use Rattle.std.specs.Option.{option_copied};
ghost use Rattle.beam_term.specs.TermValue.{nil_term};
ghost use Rattle.beam_machine.specs.Process.{read, read_x, read_y, read_all};
ghost use Rattle.beam_machine.specs.Row.{arguments_of};

use crate::process::Process;
use beam_machine::action::Source;
use beam_term::Term;
use std::alloc::AllocError;

impl Process {
    /// The value of an x register; `nil`, which is `[]`, if it was never written.
    pub fn read_x<'a>(&'a self, nil: &'a Term, register: u32) -> &'a Term
        requires { nil.now ≡ nil_term }
        ensures { result.now ≡ read_x self.now.x register }
    {
        self.x.get(register as usize).unwrap_or(nil)
    }

    /// The value of register y. `None` where there is no such register, or it holds a tag.
    #[tactic(auto, using(crate::proofs::Puts::read_y_is))]
    fn read_y(&self, register: u32) -> Option<&Term>
        ensures { option_copied result ≡ read_y self.now.frames register }
    {
        self.frames.value(register)
    }

    /// The value of a source; `nil`, which is `[]`, for an x register that was never written. `None` where the source has no value.
    pub fn read<'a>(&'a self, nil: &'a Term, source: &'a Source<'_>) -> Option<&'a Term>
        requires { nil.now ≡ nil_term }
        ensures { option_copied result ≡ read self.now source.now }
    {
        match source {
            Source::Constant(constant) => Some(constant.term()),
            Source::X(register) => Some(self.read_x(nil, *register)),
            Source::Y(register) => self.read_y(*register),
        }
    }

    /// The value of a source, which has one, in a new term.
    fn copy_there(&self, source: &Source<'_>) -> Result<Term, AllocError>
        requires { is_some (read self.now source.now) ≡ true }
        ensures { IfOk result (λ t. read self.now source.now ≡ Some t) }
    {
        match source {
            Source::Constant(constant) => constant.term().clone(),
            Source::X(register) => self.read_x(&Term::nil(), *register).clone(),
            Source::Y(register) => self.y_there(*register).clone(),
        }
    }

    /// The values of sources, each of which has one, in new terms.
    #[tactic(auto, using(crate::proofs::Puts::in_front_more, crate::proofs::Puts::none_in_front))]
    pub fn read_all(&self, sources: &[Source<'_>]) -> Result<Vec<Term>, AllocError>
        requires { AllByRecursion (λ s. is_some (read self.now s) ≡ true) sources.now }
        ensures { IfOk result (λ ts. read_all self.now sources.now ≡ Some ts.items) }
    {
        let mut values = Vec::with_capacity(self.alloc, sources.len())?;
        for source in sources {
            values.push(self.copy_there(source)?)?;
        }
        Ok(values)
    }

    /// The arguments of a call of `count` arguments, in new terms.
    #[tactic(auto, using(crate::proofs::Puts::arguments_more))]
    pub fn arguments(&self, count: u32) -> Result<Vec<Term>, AllocError>
        ensures { IfOk result (λ ts. ts.items ≡ arguments_of self.now count) }
    {
        let nil = Term::nil();
        let mut values = Vec::new(self.alloc);
        for register in 0..count {
            values.push(self.read_x(&nil, register).clone()?)?;
        }
        Ok(values)
    }
}
