//! Parts of a process for the rows of other crates, beside its values.
ghost use Rattle.std.specs.Prelude.{◌≡◌, ◌+◌};
ghost use Rattle.beam_term.specs.TermValue.{nil_term};
ghost use Rattle.beam_machine.specs.Process.{read_x};

use crate::process::Process;
use beam_term::Term;
use std::alloc::Global;

impl Process {
    /// The allocator of its terms.
    pub fn alloc(&self) -> Global {
        self.alloc
    }

    /// The value of the register after `register`; `nil`, which is `[]`, if it was never written.
    pub fn read_x_behind<'a>(&'a self, nil: &'a Term, register: u32) -> &'a Term
        requires { nil.now ≡ nil_term }
        ensures { result.now ≡ read_x self.now.x (register + 1) }
    {
        self.x.get(register as usize + 1).unwrap_or(nil)
    }
}
