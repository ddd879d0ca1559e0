//! An index of monitors, by the monitored processes.
ghost use Rattle.std.specs.Prelude.{◌≡◌, ◌++◌, ◌∷◌, [], ℕ, true, false, filter, if◌then◌else◌, Some, OnOk, OnErr};
ghost use Rattle.std.specs.List.Sorted.{IsStrictlySortedBy};
ghost use Rattle.std.specs.Ordering.{nat_cmp};
ghost use Rattle.beam_machine.specs.Row.{own_number};
ghost use Rattle.beam_state.specs.MonitorKeys.{monitor_key, monitored_in, receiver_in, reference_in, has_key, is_key_of};
ghost use Rattle.beam_state.specs.MonitorKeys.{IsKeyed, AreKeyed, is_live_key, is_told, down_of};

use crate::names::live;
use beam_machine::process::Signal;
use beam_proc::entry::ProcessEntry;
use beam_proc::private::Sent;
use beam_term::Term;
use beam_watches::monitors::{Monitors, is_pid_of, own_number};
use std::alloc::{AllocError, Global};
use std::collections::BTreeSet;
use std::collections::btree_set::Range;
use std::marker::Model;

/// The keys of monitors, in their order. Some may be of monitors that are no more.
pub(crate) struct MonitorIndex {
    keys: BTreeSet<u128>,
    // the number of keys above which they are swept next
    limit: usize,
}

impl Drop for MonitorIndex {
    fn drop(self) {
        let MonitorIndex {
            keys: _keys,
            limit: _limit,
        } = self;
    }
}

impl Model for MonitorIndex {
    ghost use Rattle.std.specs.Prelude.{ℕ, List};

    ghost Value = { List ℕ };

    ghost view = { λ w. w.keys.keys };
}

/// The key of a monitor.
fn monitor_key(monitored: u32, receiver: u32, reference: u32) -> u128
    ensures { result ≡ monitor_key monitored receiver reference }
{
    let pair = u128::from(monitored) * 4_294_967_296 + u128::from(receiver);
    pair * 4_294_967_296 + u128::from(reference)
}

/// The number of the monitored process.
fn monitored_in(key: u128) -> u32
    ensures { result ≡ monitored_in key }
{
    (key / 4_294_967_296 / 4_294_967_296 % 4_294_967_296) as u32
}

/// The number of the process that monitors it.
fn receiver_in(key: u128) -> u32
    ensures { result ≡ receiver_in key }
{
    (key / 4_294_967_296 % 4_294_967_296) as u32
}

/// The number of the reference.
fn reference_in(key: u128) -> u32
    ensures { result ≡ reference_in key }
{
    (key % 4_294_967_296) as u32
}

/// Whether the process of a key lives, and monitors the process of number `monitored` under the key's reference.
fn is_live_key(processes: &[ProcessEntry], monitored: u32, key: u128) -> bool
    ensures { result ≡ is_live_key processes.now monitored key }
{
    let Some(process) = live(processes, receiver_in(key)) else {
        return false;
    };
    match process.monitors().get(reference_in(key)) {
        Some(pid) => is_pid_of(monitored, pid),
        None => false,
    }
}

/// Whether the process of a key is sent a DOWN where the process of number `pid` ends: it isn't that process, and the key is live.
pub(crate) fn is_told(processes: &[ProcessEntry], pid: u32, key: u128) -> bool
    ensures { result ≡ is_told processes.now pid key }
{
    receiver_in(key) != pid && is_live_key(processes, pid, key)
}

/// Adds the DOWN that the process of a key is sent where the monitored process ends for that reason, if the key is live.
pub(crate) fn add_down(
    processes: &[ProcessEntry],
    key: u128,
    pid: u32,
    reason: &Term,
    sent: &mut Vec<Sent>,
) -> Result<(), AllocError>
    ensures ok { OnOk result (sent.new.items ≡ sent.old.items ++ (if is_told processes.now pid key then down_of reason.now key ∷ [] else [])) }
    ensures quiet { is_told processes.now pid key ≡ false → OnErr result ⊥ }
{
    if !is_told(processes, pid, key) {
        return Ok(());
    }
    let to = receiver_in(key);
    let signal = Signal::Down {
        reference: reference_in(key),
        reason: reason.clone()?,
    };
    sent.push(Sent { to, signal })?;
    Ok(())
}

/// Adds the monitors of a process. Tells whether all are in the index then, given whether all were before.
pub(crate) fn add_all(
    complete: bool,
    index: &mut MonitorIndex,
    receiver: u32,
    monitors: &Monitors,
) -> bool
    ensures keyed { result ≡ true → (complete ≡ true) × AreKeyed index.new receiver monitors.now }
    ensures kept { (key : ℕ) → has_key index.old key ≡ true → has_key index.new key ≡ true }
{
    match index.add_monitors(receiver, monitors) {
        Ok(()) => complete,
        Err(_) => false,
    }
}

impl MonitorIndex {
    /// An index without keys.
    pub(crate) fn new(alloc: Global) -> MonitorIndex
        ensures { result ≡ [] }
    {
        MonitorIndex {
            keys: BTreeSet::new(alloc),
            limit: 1000,
        }
    }

    /// How many keys there are.
    pub(crate) fn len(&self) -> usize
        ensures { IsStrictlySortedBy nat_cmp self.now }
    {
        self.keys.len()
    }

    /// The keys of a monitored process, in their order.
    pub(crate) fn of(&self, monitored: u32) -> Range<'_, u128>
        ensures { result ≡ filter (is_key_of monitored) self.now }
    {
        let first = monitor_key(monitored, 0, 0);
        self.keys.range(first..first + 18_446_744_073_709_551_616)
    }

    /// Adds the key of a monitor.
    fn push(&mut self, monitored: u32, receiver: u32, reference: u32) -> Result<(), AllocError>
        ensures ok { OnOk result (has_key self.new (monitor_key monitored receiver reference) ≡ true) }
        ensures kept { (key : ℕ) → has_key self.old key ≡ true → has_key self.new key ≡ true }
    {
        self.keys
            .insert(monitor_key(monitored, receiver, reference))?;
        Ok(())
    }

    /// Adds a monitor of a process, if it is of a process of this node.
    pub(crate) fn add_monitor(
        &mut self,
        receiver: u32,
        reference: u32,
        pid: &Term,
    ) -> Result<(), AllocError>
        ensures ok { OnOk result ((n : ℕ) → own_number pid.now ≡ Some n → IsKeyed self.new n receiver reference) }
        ensures kept { (key : ℕ) → has_key self.old key ≡ true → has_key self.new key ≡ true }
    {
        match own_number(pid) {
            Some(monitored) => self.push(monitored, receiver, reference),
            None => Ok(()),
        }
    }

    /// Adds the monitors of a process.
    fn add_monitors(&mut self, receiver: u32, monitors: &Monitors) -> Result<(), AllocError>
        ensures ok { OnOk result (AreKeyed self.new receiver monitors.now) }
        ensures kept { (key : ℕ) → has_key self.old key ≡ true → has_key self.new key ≡ true }
    {
        for (reference, pid) in monitors.iter() {
            self.add_monitor(receiver, *reference, pid)?;
        }
        Ok(())
    }

    /// Takes out the keys that are no longer live, if there are over a thousand more than twice as many as after the last sweep. It takes
    /// no memory.
    pub(crate) fn sweep(&mut self, processes: &[ProcessEntry])
        ensures { (key : ℕ) → is_live_key processes.now (monitored_in key) key ≡ true → has_key self.old key ≡ true → has_key self.new key ≡ true }
    {
        if self.keys.len() <= self.limit {
            return;
        }
        self.keys
            .retain(|key| is_live_key(processes, monitored_in(*key), *key));
        self.limit = self.keys.len().saturating_mul(2).saturating_add(1000);
    }
}
