//! Whether two tables have the same instances.
ghost use Rattle.std.specs.Prelude.{◌≡◌};
ghost use Rattle.beam_codesrv.specs.Homes.{code_of, versions_in};
ghost use Rattle.beam_codesrv.specs.Numbers.{same_versions, same_numbers};

use crate::code_table::CodeTable;
use crate::versions::Versions;
use beam_term::Atom;
use indexmap::map::Slice;

/// Whether two modules have one name, and instances of the same numbers.
fn is_same(name: &Atom, versions: &Versions, other_name: &Atom, other: &Versions) -> bool
    ensures { result ≡ same_versions (versions_in (name.now, versions.now)) (versions_in (other_name.now, other.now)) }
{
    name == other_name
        && versions.current_number() == other.current_number()
        && versions.old_number() == other.old_number()
}

/// Whether two runs of modules are the same, each with instances of the same numbers.
fn are_same(modules: Slice<'_, Atom, Versions>, others: Slice<'_, Atom, Versions>) -> bool
    ensures { result ≡ same_numbers (code_of modules.entry) (code_of others.entry) }
{
    let mut modules = modules;
    let mut others = others;
    while let Some(((name, versions), more)) = modules.split_first() {
        match others.split_first() {
            Some(((other_name, other), rest)) if is_same(name, versions, other_name, other) => {
                modules = more;
                others = rest;
            }
            _ => return false,
        }
    }
    others.is_empty()
}

impl CodeTable {
    /// Whether another table has the same modules in the same order, each with a current and an old instance of the same numbers, or
    /// with none. Only names and numbers are compared: the time grows with the number of modules and not with their code.
    pub fn has_instances_of(&self, other: &CodeTable) -> bool
        ensures { result ≡ same_numbers self.now other.now }
    {
        are_same(self.modules.as_slice(), other.modules.as_slice())
    }
}
