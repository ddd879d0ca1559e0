//! What can't be written.

use beam_listing::ListingError;
use beam_model::compact::{Compact, CompactList, CompactOperand};
use beam_model::function::Import;
use beam_operand::{OperandError, write_operand};
use beam_tables::{TablesError, write_tables};
use beam_term::{Atom, AtomError};
use indexmap::IndexSet;
use std::alloc::Global;
use std::test::Fail;

#[test]
fn operands(rt: HostRuntime) -> Result<(), Fail> {
    let members = [Compact::X(0), Compact::Atom(0)].to_vec(rt.alloc())?;
    let mut out = Vec::new(rt.alloc());
    let written = write_operand(&CompactOperand::List(CompactList::new(members)), &mut out);
    assert_eq!(rt; written, Err(OperandError::UnsupportedOperand));
    assert_eq!(rt; out.len(), 0);
    let written = write_operand(&CompactOperand::One(Compact::Integer(1 << 59)), &mut out);
    assert_eq!(rt; written, Err(OperandError::IntegerTooLarge));
    Ok(())
}

/// An import of `*`/2 of the module `t`.
fn import(alloc: Global) -> Result<Import, AtomError> {
    let module = Atom::new(alloc, "t")?;
    let function = Atom::new(alloc, "*")?;
    Ok(Import {
        module,
        function,
        arity: 2,
    })
}

/// The fault of tables that have an atom and the import. The one function that owns a set.
fn fault_beside(alloc: Global, atom: Atom, import: Import) -> Option<TablesError> {
    let mut atoms = IndexSet::new(alloc);
    match atoms.insert(atom) {
        Ok(_) => write_tables(alloc, &atoms, &[import], &[], &[]).err(),
        Err(_) => None,
    }
}

/// An import whose function is none of the atoms.
#[test]
fn imports(rt: HostRuntime) -> Result<(), Fail> {
    let import = import(rt.alloc())?;
    let atom = Atom::new(rt.alloc(), "t")?;
    let fault = fault_beside(rt.alloc(), atom, import);
    assert_eq!(rt; fault, Some(TablesError::BadTable));
    Ok(())
}

#[test]
fn listings_without_memory_have_a_number(rt: HostRuntime) {
    assert_eq!(rt; ListingError::NoMemory.number(), 3);
}
