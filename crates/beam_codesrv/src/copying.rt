//! Copies of the code.
ghost use Rattle.std.specs.Prelude.{◌≡◌, IfOk};

use crate::code_table::CodeTable;
use std::alloc::AllocError;

impl CodeTable {
    /// An equal table, or want of memory. Images are shared, so that its time and its memory grow with the number of modules and not
    /// with their code.
    pub fn try_copy(&self) -> Result<CodeTable, AllocError>
        ensures { IfOk result (λ copy. copy ≡ self.now) }
    {
        Ok(CodeTable {
            modules: self.modules.clone()?,
            homes: self.homes.clone()?,
        })
    }
}
