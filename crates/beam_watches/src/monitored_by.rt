//! The index of monitors by the monitored process.
ghost use Rattle.std.specs.Prelude.{◌≡◌, ◌==◌, ◌++◌, ◌∷◌, [], ℕ, not, length, slice_get, option_map, IsTrue, OnOk, OnErr, IfOk, if◌then◌else◌};
ghost use Rattle.beam_watches.specs.Origins.{origins_of};

use indexmap::IndexMap;
use std::alloc::{AllocError, Global};
use std::marker::Model;

/// A monitor as seen from the monitored process: the number of the monitoring process, and the number of the reference.
#[derive(Clone, Copy, Debug, PartialEq, Eq)]
pub struct MonitorOrigin {
    pub receiver: u32,
    pub reference: u32,
}

/// The origins of the monitors on one pid.
#[derive(Debug, Drop)]
pub(crate) struct OriginList {
    items: Vec<MonitorOrigin>,
}

impl Model for OriginList {
    ghost use Rattle.std.specs.Prelude.{List};
    ghost use Rattle.beam_watches.specs.declared.monitored_by.MonitorOrigin.{MonitorOrigin as TheOrigin};

    ghost Value = { List TheOrigin };

    ghost view = { λ l. l.items.items };
}

/// For each monitored pid the origins of the monitors on it, in the order in which they were added. Some of these monitors may have been
/// taken away since.
#[derive(Debug)]
pub struct MonitoredBy {
    alloc: Global,
    lists: IndexMap<u32, OriginList>,
}

impl Drop for MonitoredBy {
    fn drop(self) {
        let MonitoredBy {
            alloc: _alloc,
            lists: _lists,
        } = self;
    }
}

impl Model for MonitoredBy {
    ghost use Rattle.std.specs.Prelude.{ℕ, List};
    ghost use Rattle.beam_watches.specs.declared.monitored_by.MonitorOrigin.{MonitorOrigin as TheOrigin};

    ghost Value = { List (ℕ × List TheOrigin) };

    ghost view = { λ w. w.lists.entries };
}

/// Adds an origin for a pid that has some, and answers true; false for a pid that has none, and then nothing changes.
fn push_in(
    lists: &mut IndexMap<u32, OriginList>,
    pid: u32,
    origin: MonitorOrigin,
) -> Result<bool, AllocError>
    ensures added { IfOk result (λ found. IsTrue found → (n : ℕ) → origins_of lists.new.entries n
        ≡ (if n == pid then origins_of lists.old.entries n ++ origin ∷ [] else origins_of lists.old.entries n)) }
    ensures none { IfOk result (λ found. IsTrue (not found) → origins_of lists.old.entries pid ≡ []) }
    ensures kept { IfOk result (λ found. IsTrue (not found) → (n : ℕ) → origins_of lists.new.entries n ≡ origins_of lists.old.entries n) }
    ensures err { OnErr result ((n : ℕ) → origins_of lists.new.entries n ≡ origins_of lists.old.entries n) }
{
    let Some(list) = lists.get_mut(&pid) else {
        return Ok(false);
    };
    list.items.push(origin)?;
    Ok(true)
}

impl MonitoredBy {
    /// An index without origins.
    pub fn new(alloc: Global) -> MonitoredBy
        ensures { (n : ℕ) → origins_of result n ≡ [] }
    {
        MonitoredBy {
            alloc,
            lists: IndexMap::new(alloc),
        }
    }

    /// The origins of the monitors on a pid.
    pub fn of(&self, pid: u32) -> &[MonitorOrigin]
        ensures { result.now ≡ origins_of self.now pid }
    {
        match self.lists.get(&pid) {
            Some(list) => &list.items,
            None => &[],
        }
    }

    /// Adds an origin for a pid, after the others. Where memory is refused nothing changes.
    pub fn push(&mut self, pid: u32, origin: MonitorOrigin) -> Result<(), AllocError>
        ensures ok { OnOk result ((n : ℕ) → origins_of self.new n ≡ (if n == pid then origins_of self.old n ++ origin ∷ [] else origins_of self.old n)) }
        ensures err { OnErr result ((n : ℕ) → origins_of self.new n ≡ origins_of self.old n) }
    {
        if push_in(&mut self.lists, pid, origin)? {
            return Ok(());
        }
        let mut items = Vec::with_capacity(self.alloc, 1)?;
        items.push(origin)?;
        self.lists.insert(pid, OriginList { items })?;
        Ok(())
    }

    /// How many pids have origins in the index.
    pub fn len(&self) -> usize
        ensures { result ≡ length self.now }
    {
        self.lists.len()
    }

    /// The pid at a place of the index, with its origins.
    pub fn at(&self, place: usize) -> Option<(u32, &[MonitorOrigin])>
        ensures { option_map (λ p. (p.0, p.1.now)) result ≡ slice_get self.now place }
    {
        match self.lists.get_index(place) {
            Some((pid, list)) => Some((*pid, &list.items)),
            None => None,
        }
    }

    /// Drops the origins of a pid.
    pub fn forget(&mut self, pid: u32)
        ensures { (n : ℕ) → origins_of self.new n ≡ (if n == pid then [] else origins_of self.old n) }
    {
        self.lists.swap_remove(&pid);
    }
}
