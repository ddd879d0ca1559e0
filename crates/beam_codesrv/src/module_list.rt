//! The modules one after another.
ghost use Rattle.std.specs.Prelude.{◌≡◌, ◌<◌, ◌↔◌, IfSome, IsSome, length, slice_get};
ghost use Rattle.beam_codesrv.specs.Homes.{number_of};

use crate::code_table::CodeTable;
use beam_term::Atom;

impl CodeTable {
    /// How many modules it has.
    #[tactic(auto, using(crate::proofs::Homes::as_many))]
    pub fn module_count(&self) -> usize
        ensures { result ≡ length self.now }
    {
        self.modules.len()
    }

    /// The module at an index, in the order in which the modules were loaded first: its name, and the numbers of its current and its old
    /// instance. `None` from the count on.
    #[tactic(auto, using(crate::proofs::Homes::at_index, crate::proofs::Homes::as_many))]
    pub fn module_at(&self, index: usize) -> Option<(&Atom, Option<u32>, Option<u32>)>
        ensures found { IsSome result ↔ (index < length self.now) }
        ensures module { IfSome result (λ m. IfSome (slice_get self.now index) (λ v. (m.0.now ≡ v.name) × (m.1 ≡ number_of v.current) × (m.2 ≡ number_of v.old))) }
    {
        let (name, versions) = self.modules.get_index(index)?;
        Some((name, versions.current_number(), versions.old_number()))
    }
}
