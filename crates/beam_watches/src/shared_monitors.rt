//! Monitors that copies share, each copy with its own flags of those that it keeps.
ghost use Rattle.std.specs.Prelude.{◌≡◌, ◌==◌, ◌/◌, ◌∷◌, ◌++◌, [], IsTrue, IfOk, IfErr, OnOk, OnErr, nat_lt, option_map, length};
ghost use Rattle.std.specs.Option.{option_copied};
ghost use Rattle.std.specs.Iterator.{at_most};
ghost use Rattle.std.specs.Map.Iter.{TakesFirst, deref_pair};
ghost use Rattle.beam_term.specs.TermValue.{TermValue};
ghost use Rattle.beam_machine.specs.Process.{monitor_of, without_monitor};
ghost use Rattle.beam_watches.specs.MonitorEntries.{monitors_in, AreBelow, AreRising, IsPlaceOf, IsAbsent};

use beam_term::Term;
use std::alloc::{AllocError, Global};
use std::marker::Model;
use std::sync::Arc;

/// How many more entries there is room for at the least, after the kept ones are gathered.
const SPARE: usize = 4;

/// An iterator over the kept monitors: the numbers of the references, each with its pid, in their order.
#[derive(Drop)]
pub(crate) struct FlaggedEntries<'a> {
    all: &'a [(u32, Term)],
    flags: &'a [bool],
}

impl<'a> Model for FlaggedEntries<'a> {
    ghost use Rattle.std.specs.Prelude.{ℕ, List};
    ghost use Rattle.std.specs.Coded.{codes};
    ghost use Rattle.beam_term.specs.Coding.{term_code};
    ghost use Rattle.beam_term.specs.TermValue.{TermValue};
    ghost use Rattle.beam_watches.specs.MonitorEntries.{flagged};

    ghost Value = { List (ℕ × TermValue) };

    ghost coded = { Prim.hlevel (codes, term_code) };

    ghost view = { λ e. flagged e.all.now e.flags.now };
}

impl<'a> FlaggedEntries<'a> {
    /// No monitors.
    pub(crate) fn none() -> FlaggedEntries<'a>
        ensures { result ≡ [] }
    {
        FlaggedEntries {
            all: &[],
            flags: &[],
        }
    }
}

impl<'a> Iterator for FlaggedEntries<'a> {
    type Item = (&'a u32, &'a Term);

    ghost next_gives = { TakesFirst deref_pair };

    ghost remaining = { λ s. at_most (length s) };

    fn next(&mut self) -> Option<(&'a u32, &'a Term)> {
        while let Some((flag, flags)) = self.flags.split_first() {
            let Some((entry, all)) = self.all.split_first() else {
                return None;
            };
            self.flags = flags;
            self.all = all;
            if *flag {
                return Some((&entry.0, &entry.1));
            }
        }
        None
    }
}

/// The pids of monitors, by the rising numbers of their references. Copies share them, and each copy has its own flags of those that
/// it keeps: so a monitor is taken away without memory.
#[derive(Debug)]
pub(crate) struct SharedMonitors {
    all: Arc<Vec<(u32, Term)>>,
    flags: Vec<bool>,
    count: usize,
}

impl Drop for SharedMonitors {
    fn drop(self) {
        let SharedMonitors {
            all: _all,
            flags: _flags,
            count: _count,
        } = self;
    }
}

impl Model for SharedMonitors {
    ghost use Rattle.std.specs.Prelude.{List};
    ghost use Rattle.std.specs.Arc.{arc_value};
    ghost use Rattle.std.specs.Coded.{codes};
    ghost use Rattle.beam_term.specs.Coding.{term_code};
    ghost use Rattle.beam_machine.specs.declared.process.Monitor.{Monitor};
    ghost use Rattle.beam_watches.specs.MonitorEntries.{monitors_in, flagged, AreFlagged};

    ghost Value = { List Monitor };

    ghost coded = { Prim.hlevel (codes, term_code) };

    ghost view = { λ k. monitors_in (flagged (arc_value k.all).items k.flags.items) };

    ghost invariant = { λ k. AreFlagged (arc_value k.all).items k.flags.items k.count };
}

/// Where the entry of a reference stands.
fn place_of(all: &[(u32, Term)], reference: u32) -> Result<usize, usize>
    requires { AreRising all.now }
    ensures found { IfOk result (IsPlaceOf all.now reference) }
    ensures absent { IfErr result (λ _. IsAbsent all.now reference) }
{
    all.binary_search_by_key(&reference, |entry| entry.0)
}

/// Whether a reference can follow all of these.
fn can_follow(all: &[(u32, Term)], reference: u32) -> bool
    ensures { IsTrue result → AreRising all.now → (pid : TermValue) → AreRising (all.now ++ (reference, pid) ∷ []) }
{
    match all.last() {
        Some(last) => last.0 < reference,
        None => true,
    }
}

/// Adds a copy of each entry to a list. The copies share the pids. Where memory is refused some copies may have been added.
pub(crate) fn gather(
    entries: FlaggedEntries<'_>,
    all: &mut Vec<(u32, Term)>,
) -> Result<(), AllocError>
    ensures { OnOk result (all.new.items ≡ all.old.items ++ entries.entry) }
{
    for (reference, pid) in entries {
        all.push((*reference, pid.clone()?))?;
    }
    Ok(())
}

/// Whether less than half of the entries are kept.
fn is_sparse(kept: usize, entries: usize) -> bool
    ensures { result ≡ nat_lt kept (entries / 2) }
{
    kept < entries / 2
}

impl SharedMonitors {
    /// The monitors of a list, all of them kept.
    pub(crate) fn whole(alloc: Global, all: Vec<(u32, Term)>) -> Result<SharedMonitors, AllocError>
        requires { AreRising all.items }
        ensures { IfOk result (λ shared. shared ≡ monitors_in all.items) }
    {
        let count = all.len();
        let flags = Vec::from_elem(alloc, true, count)?;
        let all = Arc::new(alloc, all)?;
        Ok(SharedMonitors { all, flags, count })
    }

    /// A single monitor.
    pub(crate) fn one(
        alloc: Global,
        reference: u32,
        pid: Term,
    ) -> Result<SharedMonitors, AllocError>
        ensures { IfOk result (λ shared. shared ≡ record { reference = reference; pid = pid } ∷ []) }
    {
        let mut all = Vec::with_capacity(alloc, SPARE)?;
        all.push((reference, pid))?;
        SharedMonitors::whole(alloc, all)
    }

    /// Whether no monitor is kept.
    #[tactic(auto, using(crate::proofs::Flags::counted_monitors))]
    pub(crate) fn is_empty(&self) -> bool
        ensures { result ≡ (length self.now == 0) }
    {
        self.count == 0
    }

    /// How many are kept.
    #[tactic(auto, using(crate::proofs::Flags::counted_monitors))]
    pub(crate) fn count(&self) -> usize
        ensures { result ≡ length self.now }
    {
        self.count
    }

    /// How many entries there are, kept or not.
    pub(crate) fn len(&self) -> usize {
        self.flags.len()
    }

    /// The pid that is monitored under a reference.
    pub(crate) fn get(&self, reference: u32) -> Option<&Term>
        ensures { option_copied result ≡ option_map (λ m. m.pid) (monitor_of reference self.now) }
    {
        let Ok(place) = place_of(&self.all, reference) else {
            return None;
        };
        if self.flags[place] {
            Some(&self.all[place].1)
        } else {
            None
        }
    }

    /// Takes the monitor of a reference away, if there is one.
    pub(crate) fn remove(&mut self, reference: u32)
        ensures { self.new ≡ without_monitor reference self.old }
    {
        let Ok(place) = place_of(&self.all, reference) else {
            return;
        };
        if self.flags[place] {
            self.flags[place] = false;
            self.count -= 1;
        }
    }

    /// The numbers of the references, each with its pid, in their order.
    pub(crate) fn entries(&self) -> FlaggedEntries<'_>
        ensures all { monitors_in result ≡ self.now }
        ensures rising { AreRising result }
    {
        FlaggedEntries {
            all: &self.all,
            flags: &self.flags,
        }
    }

    /// A list of the kept monitors alone, with room for `room` more.
    fn gathered(&self, spare: usize) -> Result<Vec<(u32, Term)>, AllocError>
        ensures all { IfOk result (λ all. monitors_in all.items ≡ self.now) }
        ensures rising { IfOk result (λ all. AreRising all.items) }
    {
        let mut all = Vec::with_capacity(
            *self.flags.allocator(),
            self.count.saturating_add(spare),
        )?;
        gather(self.entries(), &mut all)?;
        Ok(all)
    }

    /// Adds a monitor of a greater reference, if no copy shares the entries, at least half of them are kept, and there is room. Else the
    /// pid is given back, and nothing changes.
    fn push_in_place(&mut self, reference: u32, pid: Term) -> Result<(), Term>
        ensures ok { OnOk result (self.new ≡ self.old ++ record { reference = reference; pid = pid } ∷ []) }
        ensures err { OnErr result (self.new ≡ self.old) }
        ensures back { IfErr result (λ back. back ≡ pid) }
    {
        if is_sparse(self.count, self.flags.len()) || self.flags.reserve(1).is_err() {
            return Err(pid);
        }
        let Some(all) = Arc::get_mut(&mut self.all) else {
            return Err(pid);
        };
        if all.len() >= all.capacity() || !can_follow(all, reference) {
            return Err(pid);
        }
        all.push_reserved((reference, pid));
        self.flags.push_reserved(true);
        self.count += 1;
        Ok(())
    }

    /// Adds a monitor of a greater reference. Where memory is refused nothing changes.
    pub(crate) fn push(&mut self, reference: u32, pid: Term) -> Result<(), AllocError>
        requires { AreBelow reference self.old }
        ensures ok { OnOk result (self.new ≡ self.old ++ record { reference = reference; pid = pid } ∷ []) }
        ensures err { OnErr result (self.new ≡ self.old) }
    {
        let Err(pid) = self.push_in_place(reference, pid) else {
            return Ok(());
        };
        let mut all = self.gathered(self.count.saturating_add(SPARE))?;
        all.push((reference, pid))?;
        *self = SharedMonitors::whole(*self.flags.allocator(), all)?;
        Ok(())
    }

    /// Equal monitors, which share the pids. Where less than half are kept, the kept ones are gathered anew, so that the others are freed.
    pub(crate) fn try_copy(&self) -> Result<SharedMonitors, AllocError>
        ensures { IfOk result (λ copy. copy ≡ self.now) }
    {
        let alloc = *self.flags.allocator();
        if is_sparse(self.count, self.flags.len()) {
            return SharedMonitors::whole(alloc, self.gathered(SPARE)?);
        }
        let flags = Vec::from_slice(alloc, &self.flags)?;
        Ok(SharedMonitors {
            all: self.all.clone()?,
            flags,
            count: self.count,
        })
    }
}
