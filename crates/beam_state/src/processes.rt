//! The processes by number, with what finds those that can go on, the deadline that comes first and the process of a name in O(log n).
ghost use Rattle.std.specs.Prelude.{◌≡◌, ◌+◌, ◌<◌, [], ◌∷◌, ◌++◌, false, true, length, slice_get, slice_set, Some, None, is_ok, OnOk, OnErr, IfSome};
ghost use Rattle.std.specs.Fn.{FnOnceTakesAtMut, FnOnceReturnsAtMut};
ghost use Rattle.std.specs.Option.{ForSome};
ghost use Rattle.indexmap.specs.IndexMap.{get};
ghost use Rattle.beam_machine.specs.Process.{Process as TheProcess, is_ended};
ghost use Rattle.beam_machine.specs.Ready.{is_ready, ready_after, next_deadline};
ghost use Rattle.beam_machine.specs.State.{registered};
ghost use Rattle.beam_model.specs.SameText.{same_text};
ghost use Rattle.beam_laws.specs.Private.{with_name_and_transit};
ghost use Rattle.beam_state.specs.Returns.{with_monitor};
ghost use Rattle.beam_state.specs.Indexed.{due_time, entry_of, if_named, KeepsName, GoesOnFrom};
ghost use Rattle.beam_state.specs.Posting.{AreLawful};
ghost use Rattle.beam_state.specs.MonitorKeys.{TellAll};
ghost use Rattle.beam_watches.specs.MonitorEntries.{AreBelow};

use crate::monitor_index::{MonitorIndex, add_all};
use crate::names::has_name;
use beam_agenda::agenda::Agenda;
use beam_agenda::entry::AgendaEntry;
use beam_machine::process::Signal;
use beam_proc::entry::ProcessEntry;
use beam_proc::known::Known;
use beam_proc::process::Process;
use beam_term::{Atom, Term};
use indexmap::IndexMap;
use std::alloc::{AllocError, Global};
use std::marker::Model;

/// The processes of a node. Contracts see their list. A change of one of them takes no memory for the indexes.
pub(crate) struct Processes {
    // process n is the n-th
    items: Vec<ProcessEntry>,
    // by name, the index of the process that was given it last. The process may have lost it since: an entry is never taken out
    names: IndexMap<Atom, usize>,
    // the entry of each process
    agenda: Agenda,
    // the index of monitors
    monitor_index: MonitorIndex,
    // whether that index has the monitors of all processes
    complete: bool,
    // made with the first process
    known: Option<Known>,
}

impl Drop for Processes {
    fn drop(self) {
        let Processes {
            items: _items,
            names: _names,
            agenda: _agenda,
            monitor_index: _monitor_index,
            complete: _complete,
            known: _known,
        } = self;
    }
}

impl Model for Processes {
    ghost use Rattle.std.specs.Prelude.{List};
    ghost use Rattle.std.specs.Coded.{codes};
    ghost use Rattle.indexmap.specs.IndexMap.{get};
    ghost use Rattle.beam_term.specs.Coding.{term_code};
    ghost use Rattle.beam_machine.specs.Process.{Process as TheProcess};
    ghost use Rattle.beam_model.specs.SameText.{same_text};
    ghost use Rattle.beam_state.specs.Indexed.{IsIndexed};
    ghost use Rattle.beam_state.specs.MonitorKeys.{AreMonitorsKeyedIf};

    ghost Value = { List TheProcess };

    ghost coded = { Prim.hlevel (codes, term_code) };

    ghost view = { λ s. s.items.items };

    ghost invariant = { λ s. IsIndexed (get same_text s.names) s.agenda s.items.items × AreMonitorsKeyedIf s.complete s.monitor_index s.items.items };
}

/// Whether a process hasn't ended, and runs or has a signal in transit to it.
#[tactic(auto, using(crate::proofs::Transit::is_nothing_if))]
fn is_ready(process: &ProcessEntry) -> bool
    ensures { result ≡ is_ready process.now }
{
    !process.is_ended() && (process.is_running() || process.has_transit())
}

/// The deadline of a process that waits.
fn due_time(process: &ProcessEntry) -> Option<u64>
    ensures { result ≡ due_time process.now.status process.now.deadline }
{
    match process.deadline() {
        Some(deadline) if process.is_waiting() => Some(deadline.at),
        _ => None,
    }
}

/// The agenda's entry of a process.
fn entry_of(process: &ProcessEntry) -> AgendaEntry
    ensures { result ≡ entry_of process.now }
{
    AgendaEntry {
        ready: is_ready(process),
        due: due_time(process),
    }
}

/// The index that a name was given last.
fn index_of(names: &IndexMap<Atom, usize>, name: &Atom) -> Option<usize>
    ensures { result ≡ get same_text names.now name.now }
{
    match names.get(name) {
        Some(index) => Some(*index),
        None => None,
    }
}

/// The number of the process at an index, if it has the name.
fn if_named(items: &[ProcessEntry], index: usize, name: &Atom) -> Option<u32>
    ensures { result ≡ if_named name.now (slice_get items.now index) }
{
    let process = items.get(index)?;
    if has_name(name, process.name()) {
        Some(process.pid())
    } else {
        None
    }
}

/// Adds a monitor of a pid to a process, under a reference greater than its others, if the index has the monitor; where no process of that
/// pid lives, the DOWN is in transit. Where memory is refused nothing changes.
fn monitor(
    process: &mut Process,
    added: Result<(), AllocError>,
    reference: u32,
    pid: Term,
    down: Option<Signal>,
) -> Result<(), AllocError>
    requires { AreBelow reference process.old.monitors }
    ensures ok { OnOk result (process.new ≡ with_monitor process.old reference pid down) }
    ensures err { OnErr result (process.new ≡ process.old) }
    ensures added { is_ok result ≡ true → is_ok added ≡ true }
{
    added?;
    let Some(down) = down else {
        return process.monitor(reference, pid);
    };
    process.post(down)?;
    if let Err(refused) = process.monitor(reference, pid) {
        process.take_back();
        return Err(refused);
    }
    Ok(())
}

impl Processes {
    /// A table without processes.
    #[tactic(auto, using(crate::proofs::Indexing::no_indexes, crate::proofs::MonitorKeys::none_monitored_if))]
    pub(crate) fn new(alloc: Global) -> Processes
        ensures { result ≡ [] }
    {
        Processes {
            items: Vec::new(alloc),
            names: IndexMap::new(alloc),
            agenda: Agenda::new(alloc),
            monitor_index: MonitorIndex::new(alloc),
            complete: true,
            known: None,
        }
    }

    /// The processes, process n at index n - 1.
    pub(crate) fn as_slice(&self) -> &[ProcessEntry]
        ensures { result.now ≡ self.now }
    {
        &self.items
    }

    /// The number of the process that is registered under a name.
    pub(crate) fn registered(&self, name: &Atom) -> Option<u32>
        ensures { result ≡ registered self.now name.now }
    {
        let index = index_of(&self.names, name)?;
        if_named(&self.items, index, name)
    }

    /// The number of the first process after a given number that can go on.
    pub(crate) fn ready_after(&self, number: u32) -> Option<u32>
        ensures { result ≡ ready_after number self.now }
    {
        let index = self.agenda.first_ready(number as usize)?;
        Some(self.items[index].pid())
    }

    /// The least deadline of a waiting process, and the least number of a process that has it.
    pub(crate) fn next_deadline(&self) -> Option<(u64, u32)>
        ensures { result ≡ next_deadline self.now }
    {
        let (at, index) = self.agenda.least_due()?;
        Some((at, self.items[index].pid()))
    }

    /// The atoms that each process needs.
    pub(crate) fn known(&mut self, alloc: Global) -> Result<Known, AllocError>
        ensures { self.new ≡ self.old }
    {
        if let Some(known) = &self.known {
            return known.try_share();
        }
        let known = Known::new(alloc)?;
        let shared = known.try_share()?;
        self.known = Some(known);
        Ok(shared)
    }

    /// Adds a process that has no name and monitors nothing. Where memory is refused nothing changes.
    pub(crate) fn push(&mut self, alloc: Global, process: Process) -> Result<(), AllocError>
        requires nameless { process.name ≡ None }
        requires alone { process.monitors ≡ [] }
        ensures ok { OnOk result (self.new ≡ self.old ++ process ∷ []) }
        ensures err { OnErr result (self.new ≡ self.old) }
    {
        self.items.reserve(1)?;
        let entry = ProcessEntry::new(alloc, process)?;
        self.agenda.push(entry_of(&entry))?;
        self.items.push_reserved(entry);
        Ok(())
    }

    /// Gives a process a name that no other has. Where memory is refused nothing changes.
    pub(crate) fn register(&mut self, index: usize, name: Atom) -> Result<(), AllocError>
        requires free { registered self.old name ≡ None }
        requires within { index < length self.old }
        requires lives { IfSome (slice_get self.old index) (λ p. is_ended p.status ≡ false) }
        ensures ok { OnOk result (IfSome (slice_get self.old index) (λ p. self.new ≡ slice_set self.old index (record p { name = Some name }))) }
        ensures err { OnErr result (self.new ≡ self.old) }
    {
        let key = name.clone()?;
        self.names.insert(key, index)?;
        let process = &mut self.items[index];
        process.change(|process| process.set_name(Some(name)));
        self.agenda.set(index, entry_of(process));
        Ok(())
    }

    /// Makes a change of a process that hasn't ended, and puts its entry into the agenda, in O(log n) and without memory. The change leaves
    /// the process its name, or none, and adds no monitor.
    pub(crate) fn change<T, F: FnOnce(&mut Process) -> T>(&mut self, index: usize, change: F) -> T
        requires within { index < length self.old }
        requires lives { IfSome (slice_get self.old index) (λ p. is_ended p.status ≡ false) }
        requires callable { ForSome (slice_get self.old index) (FnOnceTakesAtMut F.FnOnce change) }
        requires keeps { (p q : TheProcess) (r : T) → slice_get self.old index ≡ Some p → FnOnceReturnsAtMut F.FnOnce change p r q → GoesOnFrom p q }
        ensures { IfSome (slice_get self.old index) (λ p.
            (q : TheProcess) × FnOnceReturnsAtMut F.FnOnce change p result q × (self.new ≡ slice_set self.old index q)
            × (q ≡ p → self.new ≡ self.old)) }
    {
        let process = &mut self.items[index];
        let result = process.change(change);
        self.agenda.set(index, entry_of(process));
        result
    }

    /// Adds a monitor of a pid to a process that hasn't ended, under a reference greater than its others; where no process of that pid
    /// lives, the DOWN is in transit. Where memory is refused nothing changes.
    pub(crate) fn monitor(
        &mut self,
        index: usize,
        receiver: u32,
        reference: u32,
        pid: Term,
        down: Option<Signal>,
    ) -> Result<(), AllocError>
        requires located { receiver ≡ index + 1 }
        requires within { index < length self.old }
        requires lives { IfSome (slice_get self.old index) (λ p. is_ended p.status ≡ false) }
        requires below { IfSome (slice_get self.old index) (λ p. AreBelow reference p.monitors) }
        ensures { IfSome (slice_get self.old index) (λ p.
            (q : TheProcess) × (OnOk result (q ≡ with_monitor p reference pid down) × OnErr result (q ≡ p)) × (self.new ≡ slice_set self.old index q)) }
    {
        let added = self.monitor_index.add_monitor(receiver, reference, &pid);
        let process = &mut self.items[index];
        let result = process.change(|process| monitor(process, added, reference, pid, down));
        self.agenda.set(index, entry_of(process));
        result
    }

    /// Puts a process in the place of one that hasn't ended. It gets the other's name and the signals in transit to it, unless it has ended
    /// itself. Gives back the other, without name and signals.
    pub(crate) fn replace(&mut self, index: usize, pid: u32, process: Process) -> Process
        requires located { pid ≡ index + 1 }
        requires within { index < length self.old }
        requires lives { IfSome (slice_get self.old index) (λ p. is_ended p.status ≡ false) }
        requires keeps { IfSome (slice_get self.old index) (λ p. KeepsName p (with_name_and_transit p.name p.transit process)) }
        ensures { IfSome (slice_get self.old index) (λ p.
            (self.new ≡ slice_set self.old index (with_name_and_transit p.name p.transit process)) × (result ≡ record p { name = None; transit = [] })) }
    {
        self.complete = add_all(
            self.complete,
            &mut self.monitor_index,
            pid,
            process.monitors(),
        );
        let place = &mut self.items[index];
        let was = place.change(|place| place.replace(process));
        self.agenda.set(index, entry_of(place));
        was
    }

    /// The index of monitors, if it has those of all processes.
    pub(crate) fn complete_index(&self) -> Option<&MonitorIndex>
        ensures { IfSome result (λ index. TellAll index.now self.now) }
    {
        let _ordered = self.monitor_index.len();
        if self.complete {
            Some(&self.monitor_index)
        } else {
            None
        }
    }

    /// Drops the index's entries for monitors that are no more, if they may be many. It takes no memory.
    pub(crate) fn sweep(&mut self, references: u32)
        requires { AreLawful references self.old }
        ensures { self.new ≡ self.old }
    {
        let _references = references;
        self.monitor_index.sweep(&self.items);
    }
}
