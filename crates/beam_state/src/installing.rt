//! Rows that were executed apart from the node take effect in it.
ghost use Rattle.std.specs.Prelude.{◌≡◌, ◌+◌, ◌<◌, [], length, true, false, is_some, slice_get, Some, None, IfSome, OnOk, OnErr};
ghost use Rattle.beam_machine.specs.Process.{Process as TheProcess, is_ended};
ghost use Rattle.beam_machine.specs.State.{process_of, live_process, with_process};
ghost use Rattle.beam_laws.specs.Monitors.{ArePart, Rise};
ghost use Rattle.beam_laws.specs.Private.{with_name_and_transit, posted_all};
ghost use Rattle.beam_state.specs.Parts.{with_processes};
ghost use Rattle.beam_state.specs.Posting.{CanReplace, all_taken};

use crate::names::live_index;
use crate::posting;
use crate::state::State;
use beam_proc::entry::ProcessEntry;
use beam_proc::private::Sent;
use beam_proc::process::Process;
use std::alloc::AllocError;

/// The index of a process that hasn't ended.
fn living(processes: &[ProcessEntry], pid: u32) -> usize
    requires { is_some (live_process processes.now pid) ≡ true }
    ensures { (pid ≡ result + 1) × (result < length processes.now) × IfSome (slice_get processes.now result) (λ p. is_ended p.status ≡ false) }
{
    match live_index(processes, pid) {
        Some(index) => index,
        None => unreachable!(),
    }
}

impl State {
    /// Posts signals one after another. Where memory is refused nothing changes. It isn't refused if there are none.
    pub fn post_all(&mut self, sent: &[Sent]) -> Result<(), AllocError>
        ensures ok { OnOk result (self.new ≡ with_processes self.old (posted_all self.old.processes sent.now)) }
        ensures err { OnErr result (self.new ≡ self.old) }
        ensures quiet { sent.now ≡ [] → OnErr result ⊥ }
    {
        posting::post_all(&mut self.processes, sent)
    }

    /// For each of these signals, from the last to the first, takes back the last signal to its receiver. It takes no memory.
    pub fn take_all_back(&mut self, sent: &[Sent])
        ensures { self.new ≡ with_processes self.old (all_taken self.old.processes sent.now) }
    {
        posting::take_all_back(&mut self.processes, sent)
    }

    /// Puts a process in the place of one that hasn't ended, without memory. It gets the other's name and the signals in transit to it,
    /// unless it has ended itself; no DOWN is sent of an end. Gives back the other, without name and signals.
    pub fn replace(&mut self, pid: u32, process: Process) -> Process
        requires can { CanReplace self.old.processes pid process }
        requires rise { Rise 0 self.old.references process.monitors }
        ensures { (q : TheProcess) → process_of self.old.processes pid ≡ Some q
            → (self.new ≡ with_processes self.old (with_process self.old.processes pid (with_name_and_transit q.name q.transit process)))
            × (result ≡ record q { name = None; transit = [] }) }
    {
        let index = living(self.processes.as_slice(), pid);
        self.processes.replace(index, pid, process)
    }

    /// Puts a process in the place of one that hasn't ended, as `replace` does, where it has no monitors but the other's. Gives back the
    /// other.
    pub fn advance(&mut self, pid: u32, process: Process) -> Process
        requires can { CanReplace self.old.processes pid process }
        requires part { (q : TheProcess) → live_process self.old.processes pid ≡ Some q → ArePart q.monitors process.monitors }
        ensures { (q : TheProcess) → process_of self.old.processes pid ≡ Some q
            → (self.new ≡ with_processes self.old (with_process self.old.processes pid (with_name_and_transit q.name q.transit process)))
            × (result ≡ record q { name = None; transit = [] }) }
    {
        let index = living(self.processes.as_slice(), pid);
        self.processes.change(index, |place| place.replace(process))
    }
}
