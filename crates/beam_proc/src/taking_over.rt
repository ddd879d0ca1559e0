//! The parts of a process that others change: its name, and the signals in transit to it.
ghost use Rattle.std.specs.Prelude.{◌≡◌, [], None, if◌then◌else◌};
ghost use Rattle.beam_machine.specs.Process.{is_ended};

use crate::process::Process;
use std::mem;

impl Process {
    /// Takes over the name of another process and the signals in transit to it, unless this process has ended. The other then has neither.
    pub fn take_over(&mut self, other: &mut Process)
        ensures given { self.new ≡ (if is_ended self.old.status then self.old else record self.old { name = other.old.name; transit = other.old.transit }) }
        ensures left { other.new ≡ record other.old { name = None; transit = [] } }
    {
        let name = other.name.take();
        let transit = mem::replace(&mut other.transit, Vec::new(other.alloc));
        if !self.is_ended() {
            self.name = name;
            self.transit = transit;
        }
    }

    /// Puts another process in its place, which gets its name and its signals in transit, unless the other has ended. Answers the one that
    /// was there, which then has neither.
    pub fn replace(&mut self, process: Process) -> Process
        ensures new { self.new ≡ (if is_ended process.status then process else record process { name = self.old.name; transit = self.old.transit }) }
        ensures was { result ≡ record self.old { name = None; transit = [] } }
    {
        let mut process = process;
        process.take_over(self);
        mem::replace(self, process)
    }
}
