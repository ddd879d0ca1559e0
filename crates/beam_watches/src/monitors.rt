//! The monitors of a process.
ghost use Rattle.std.specs.Prelude.{◌≡◌, ◌==◌, [], ◌∷◌, ◌++◌, OnOk, OnErr, IfOk, option_map, length, ◌-◌, ◌^◌, min};
ghost use Rattle.std.specs.List.{list_any};
ghost use Rattle.std.specs.Option.{option_copied};
ghost use Rattle.std.specs.Iterator.{at_most};
ghost use Rattle.std.specs.Map.Iter.{TakesFirst, deref_pair};
ghost use Rattle.beam_machine.specs.Process.{monitor_of, without_monitor};
ghost use Rattle.beam_machine.specs.Row.{own_number};
ghost use Rattle.beam_machine.specs.State.{monitors_process};
ghost use Rattle.beam_model.specs.Listing.{is_this_number};
ghost use Rattle.beam_watches.specs.MonitorEntries.{monitors_in, AreBelow};

use crate::segment::Segment;
use crate::shared_monitors::FlaggedEntries;
use beam_term::{Term, TermView};
use std::alloc::{AllocError, Global};
use std::marker::Model;

/// How many entries of the newest stand apart from the older ones, at the most.
const NEWEST: usize = 256;

/// The monitors of a process: pids by the numbers of their references. Contracts see the list. A monitor is found, and taken away, in
/// O(log n). Copies share the pids, and where a monitor is added beside a copy, only the newest are gathered anew.
#[derive(Debug)]
pub struct Monitors {
    alloc: Global,
    older: Segment,
    newest: Segment,
}

impl Drop for Monitors {
    fn drop(self) {
        let Monitors {
            alloc: _alloc,
            older: _older,
            newest: _newest,
        } = self;
    }
}

impl Model for Monitors {
    ghost use Rattle.std.specs.Prelude.{List, ◌++◌};
    ghost use Rattle.std.specs.Coded.{codes};
    ghost use Rattle.beam_term.specs.Coding.{term_code};
    ghost use Rattle.beam_machine.specs.declared.process.Monitor.{Monitor};
    ghost use Rattle.beam_watches.specs.MonitorEntries.{AreApart};

    ghost Value = { List Monitor };

    ghost coded = { Prim.hlevel (codes, term_code) };

    ghost view = { λ m. m.older ++ m.newest };

    ghost invariant = { λ m. AreApart m.older m.newest };
}

/// An iterator over monitors: the numbers of their references, each with its pid, in their order.
#[derive(Drop)]
pub struct Iter<'a> {
    older: FlaggedEntries<'a>,
    newest: FlaggedEntries<'a>,
}

impl<'a> Model for Iter<'a> {
    ghost use Rattle.std.specs.Prelude.{ℕ, List, ◌++◌};
    ghost use Rattle.std.specs.Coded.{codes};
    ghost use Rattle.beam_term.specs.Coding.{term_code};
    ghost use Rattle.beam_term.specs.TermValue.{TermValue};

    ghost Value = { List (ℕ × TermValue) };

    ghost coded = { Prim.hlevel (codes, term_code) };

    ghost view = { λ i. i.older ++ i.newest };
}

impl<'a> Iterator for Iter<'a> {
    type Item = (&'a u32, &'a Term);

    ghost next_gives = { TakesFirst deref_pair };

    ghost remaining = { λ s. at_most (length s) };

    fn next(&mut self) -> Option<(&'a u32, &'a Term)> {
        match self.older.next() {
            Some(entry) => Some(entry),
            None => self.newest.next(),
        }
    }
}

/// The number of the process of this node that a pid names.
pub fn own_number(pid: &Term) -> Option<u32>
    ensures { result ≡ own_number pid.now }
{
    match pid.view() {
        TermView::Pid(pid) => {
            if pid.node.as_str() == "nonode@nohost" && pid.serial == 0 && pid.creation == 0 {
                Some(pid.id)
            } else {
                None
            }
        }
        _ => None,
    }
}

/// Whether a pid names the process of this node of a number.
pub fn is_pid_of(number: u32, pid: &Term) -> bool
    ensures { result ≡ is_this_number number (own_number pid.now) }
{
    match own_number(pid) {
        Some(own) => own == number,
        None => false,
    }
}

impl Monitors {
    /// No monitors. It takes no memory.
    pub fn new(alloc: Global) -> Monitors
        ensures { result ≡ [] }
    {
        Monitors {
            alloc,
            older: Segment::none(),
            newest: Segment::none(),
        }
    }

    /// Whether there are none.
    pub fn is_empty(&self) -> bool
        ensures { result ≡ (length self.now == 0) }
    {
        self.older.is_none() && self.newest.is_none()
    }

    /// How many there are; 2^64 - 1 if there are more.
    pub fn len(&self) -> usize
        ensures { result ≡ min (length self.now) (2 ^ 64 - 1) }
    {
        self.older.count().saturating_add(self.newest.count())
    }

    /// The pid that is monitored under a reference.
    pub fn get(&self, reference: u32) -> Option<&Term>
        ensures { option_copied result ≡ option_map (λ m. m.pid) (monitor_of reference self.now) }
    {
        match self.older.get(reference) {
            Some(pid) => Some(pid),
            None => self.newest.get(reference),
        }
    }

    /// Takes the monitor of a reference away, if there is one. It takes no memory.
    pub fn remove(&mut self, reference: u32)
        ensures { self.new ≡ without_monitor reference self.old }
    {
        self.older.remove(reference);
        self.newest.remove(reference);
    }

    /// Adds a monitor of a greater reference. Where memory is refused nothing changes.
    pub fn push(&mut self, reference: u32, pid: Term) -> Result<(), AllocError>
        requires { AreBelow reference self.old }
        ensures ok { OnOk result (self.new ≡ self.old ++ record { reference = reference; pid = pid } ∷ []) }
        ensures err { OnErr result (self.new ≡ self.old) }
    {
        self.settle()?;
        self.newest.push(self.alloc, reference, pid)?;
        Ok(())
    }

    /// Moves the newest monitors to the older ones where they are many. Where memory is refused nothing changes.
    fn settle(&mut self) -> Result<(), AllocError>
        ensures { self.new ≡ self.old }
    {
        if self.newest.len() < NEWEST {
            return Ok(());
        }
        self.older = self.older.joined(self.alloc, &self.newest)?;
        self.newest = Segment::none();
        Ok(())
    }

    /// The numbers of the references, each with its pid, in their order.
    pub fn iter(&self) -> Iter<'_>
        ensures { monitors_in result ≡ self.now }
    {
        Iter {
            older: self.older.entries(),
            newest: self.newest.entries(),
        }
    }

    /// Whether the process of a number is monitored. It takes no memory.
    pub fn monitors_process(&self, number: u32) -> bool
        ensures { result ≡ list_any (monitors_process number) self.now }
    {
        for (_reference, pid) in self.iter() {
            if is_pid_of(number, pid) {
                return true;
            }
        }
        false
    }

    /// Equal monitors, which share the pids.
    pub fn try_copy(&self) -> Result<Monitors, AllocError>
        ensures { IfOk result (λ copy. copy ≡ self.now) }
    {
        Ok(Monitors {
            alloc: self.alloc,
            older: self.older.try_copy()?,
            newest: self.newest.try_copy()?,
        })
    }
}
