//! The atoms that each process needs.
ghost use Rattle.std.specs.Prelude.{◌≡◌, codes, IfOk};
ghost use Rattle.beam_model.specs.Native.{truth};
ghost use Rattle.beam_machine.specs.Process.{normal, killed, own_pid, own_reference};

use crate::terms::atom;
use beam_term::{Atom, Pid, Reference, Term};
use std::alloc::{AllocError, Global};
use std::marker::Model;
use std::sync::Arc;

/// The atoms that each process needs: the reasons normal and killed, the truth values, and the node's name. They are made once for all
/// processes.
pub struct Known {
    atoms: Arc<Atoms>,
}

impl Drop for Known {
    fn drop(self) {
        let Known { atoms: _atoms } = self;
    }
}

#[derive(Drop)]
struct Atoms {
    normal: Term,
    killed: Term,
    is_so: Term,
    is_not_so: Term,
    node: Atom,
}

impl Model for Known {
    ghost use Rattle.std.specs.Prelude.{⊤};
    ghost use Rattle.beam_proc.specs.Known.{AreKnown};

    ghost Value = { ⊤ };

    ghost view = { λ k. tt };

    ghost invariant = { λ k. AreKnown k.atoms.value };
}

fn node_name(alloc: Global) -> Result<Atom, AllocError>
    ensures { IfOk result (λ name. name ≡ codes "nonode@nohost") }
{
    match Atom::new(alloc, "nonode@nohost") {
        Ok(name) => Ok(name),
        Err(_) => Err(AllocError),
    }
}

impl Known {
    /// The atoms, in new memory.
    pub fn new(alloc: Global) -> Result<Known, AllocError> {
        let atoms = Atoms {
            normal: atom(alloc, "normal")?,
            killed: atom(alloc, "killed")?,
            is_so: atom(alloc, "true")?,
            is_not_so: atom(alloc, "false")?,
            node: node_name(alloc)?,
        };
        Ok(Known {
            atoms: Arc::new(alloc, atoms)?,
        })
    }

    /// These atoms with one more owner.
    pub fn try_share(&self) -> Result<Known, AllocError> {
        Ok(Known {
            atoms: self.atoms.clone()?,
        })
    }

    /// The reason `normal`, of a process that returns from its first function.
    pub fn normal(&self) -> Result<Term, AllocError>
        ensures { IfOk result (λ reason. reason ≡ normal) }
    {
        self.atoms.normal.clone()
    }

    /// The reason of a process that is killed.
    pub fn killed(&self) -> Result<Term, AllocError>
        ensures { IfOk result (λ reason. reason ≡ killed) }
    {
        self.atoms.killed.clone()
    }

    /// A truth value as its atom.
    pub fn truth(&self, value: bool) -> Result<Term, AllocError>
        ensures { IfOk result (λ term. term ≡ truth value) }
    {
        if value {
            self.atoms.is_so.clone()
        } else {
            self.atoms.is_not_so.clone()
        }
    }

    /// The pid of the process of this node that has a number. The pid alone takes memory.
    pub fn pid(&self, alloc: Global, number: u32) -> Result<Term, AllocError>
        ensures { IfOk result (λ pid. pid ≡ own_pid number) }
    {
        let pid = Pid {
            node: self.atoms.node.clone()?,
            id: number,
            serial: 0,
            creation: 0,
        };
        match Term::pid(alloc, pid) {
            Ok(term) => Ok(term),
            Err(_) => Err(AllocError),
        }
    }

    /// The reference of this node that has a number.
    pub fn reference(&self, alloc: Global, number: u32) -> Result<Term, AllocError>
        ensures { IfOk result (λ reference. reference ≡ own_reference number) }
    {
        let words = vec![in alloc; number, 0, 0]?;
        match Reference::new(self.atoms.node.clone()?, 0, words) {
            Some(reference) => match Term::reference(alloc, reference) {
                Ok(term) => Ok(term),
                Err(_) => Err(AllocError),
            },
            None => unreachable!(),
        }
    }
}
