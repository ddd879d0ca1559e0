//! A part of the monitors of a process.
ghost use Rattle.std.specs.Prelude.{◌≡◌, ◌==◌, ◌<◌, ◌∷◌, ◌++◌, [], IfOk, OnOk, OnErr, option_map, length};
ghost use Rattle.std.specs.Option.{option_copied};
ghost use Rattle.beam_machine.specs.Process.{monitor_of, without_monitor};
ghost use Rattle.beam_watches.specs.MonitorEntries.{monitors_in, AreBelow, AreApart, AreRising};

use crate::shared_monitors::{FlaggedEntries, SharedMonitors, gather};
use beam_term::Term;
use std::alloc::{AllocError, Global};
use std::marker::Model;

/// Some of the monitors of a process, by rising references. Copies share the pids. Where there are none they take no memory.
#[derive(Debug)]
pub(crate) struct Segment {
    shared: Option<SharedMonitors>,
}

impl Drop for Segment {
    fn drop(self) {
        let Segment { shared: _shared } = self;
    }
}

impl Model for Segment {
    ghost use Rattle.std.specs.Prelude.{◌<◌, List, [], IfSome, length, unwrap_or};
    ghost use Rattle.std.specs.Coded.{codes};
    ghost use Rattle.beam_term.specs.Coding.{term_code};
    ghost use Rattle.beam_machine.specs.declared.process.Monitor.{Monitor};

    ghost Value = { List Monitor };

    ghost coded = { Prim.hlevel (codes, term_code) };

    ghost view = { λ p. unwrap_or p.shared [] };

    ghost invariant = { λ p. IfSome p.shared (λ kept. 0 < length kept) };
}

impl Segment {
    /// No monitors.
    pub(crate) fn none() -> Segment
        ensures { result ≡ [] }
    {
        Segment { shared: None }
    }

    /// Whether there are none.
    pub(crate) fn is_none(&self) -> bool
        ensures { result ≡ (length self.now == 0) }
    {
        self.shared.is_none()
    }

    /// How many are kept.
    pub(crate) fn count(&self) -> usize
        ensures { result ≡ length self.now }
    {
        match &self.shared {
            Some(shared) => shared.count(),
            None => 0,
        }
    }

    /// How many entries it holds, kept or not.
    pub(crate) fn len(&self) -> usize
        ensures { 0 < result → 0 < length self.now }
    {
        match &self.shared {
            Some(shared) => shared.len(),
            None => 0,
        }
    }

    /// The pid that is monitored under a reference.
    pub(crate) fn get(&self, reference: u32) -> Option<&Term>
        ensures { option_copied result ≡ option_map (λ m. m.pid) (monitor_of reference self.now) }
    {
        match &self.shared {
            Some(shared) => shared.get(reference),
            None => None,
        }
    }

    /// The numbers of the references, each with its pid, in their order.
    pub(crate) fn entries(&self) -> FlaggedEntries<'_>
        ensures all { monitors_in result ≡ self.now }
        ensures rising { AreRising result }
    {
        match &self.shared {
            Some(shared) => shared.entries(),
            None => FlaggedEntries::none(),
        }
    }

    /// Takes the monitor of a reference away, if there is one. It takes no memory; with the last monitor all memory is given back.
    pub(crate) fn remove(&mut self, reference: u32)
        ensures { self.new ≡ without_monitor reference self.old }
    {
        let was_last = match &mut self.shared {
            Some(shared) => {
                shared.remove(reference);
                shared.is_empty()
            }
            None => false,
        };
        if was_last {
            self.shared = None;
        }
    }

    /// Adds a monitor of a greater reference. Where memory is refused nothing changes.
    pub(crate) fn push(
        &mut self,
        alloc: Global,
        reference: u32,
        pid: Term,
    ) -> Result<(), AllocError>
        requires { AreBelow reference self.old }
        ensures ok { OnOk result (self.new ≡ self.old ++ record { reference = reference; pid = pid } ∷ []) }
        ensures err { OnErr result (self.new ≡ self.old) }
    {
        match &mut self.shared {
            Some(shared) => shared.push(reference, pid),
            None => {
                self.shared = Some(SharedMonitors::one(alloc, reference, pid)?);
                Ok(())
            }
        }
    }

    /// These, and after them others of greater references, which aren't none, in one part that shares nothing but the pids.
    pub(crate) fn joined(&self, alloc: Global, others: &Segment) -> Result<Segment, AllocError>
        requires apart { AreApart self.now others.now }
        requires some { 0 < length others.now }
        ensures { IfOk result (λ part. part ≡ self.now ++ others.now) }
    {
        let count = self.count().saturating_add(others.count());
        let mut all = Vec::with_capacity(alloc, count)?;
        gather(self.entries(), &mut all)?;
        gather(others.entries(), &mut all)?;
        Ok(Segment {
            shared: Some(SharedMonitors::whole(alloc, all)?),
        })
    }

    /// Equal monitors, which share the pids.
    pub(crate) fn try_copy(&self) -> Result<Segment, AllocError>
        ensures { IfOk result (λ copy. copy ≡ self.now) }
    {
        let shared = match &self.shared {
            Some(shared) => Some(shared.try_copy()?),
            None => None,
        };
        Ok(Segment { shared })
    }
}
