//! The monitors of a process: adding and taking away, and the DOWNs of an end.
ghost use Rattle.std.specs.Prelude.{◌≡◌, ◌++◌, ◌∷◌, [], false, OnOk, OnErr, IfOk};
ghost use Rattle.std.specs.List.{list_any};
ghost use Rattle.beam_term.specs.TermValue.{reference_term};
ghost use Rattle.beam_machine.specs.declared.process.Signal.TheVariants.{Down};
ghost use Rattle.beam_machine.specs.Row.{demonitored, flushed_if};
ghost use Rattle.beam_machine.specs.State.{monitors_process};
ghost use Rattle.beam_watches.specs.MonitorEntries.{AreBelow};
ghost use Rattle.beam_proc.specs.References.{number_of_words, reference_number};
ghost use Rattle.beam_proc.specs.Downs.{downs_to};

use crate::private::Sent;
use crate::process::Process;
use beam_machine::process::Signal;
use beam_term::{Reference, Term, TermView};
use beam_watches::monitors::{Monitors, is_pid_of};
use std::alloc::AllocError;

/// The number that the words of a reference spell.
fn number_of_words(words: &[u32]) -> Option<u32>
    ensures { result ≡ number_of_words words.now }
{
    let (number, rest) = words.split_first()?;
    let (second, rest) = rest.split_first()?;
    let (third, rest) = rest.split_first()?;
    if rest.split_first().is_some() {
        return None;
    }
    if *second == 0 && *third == 0 {
        Some(*number)
    } else {
        None
    }
}

/// The number of a reference of this node.
fn own_number(reference: &Reference) -> Option<u32>
    ensures { result ≡ reference_number (reference_term reference.now.node reference.now.creation reference.now.words) }
{
    if reference.node().as_str() == "nonode@nohost" && reference.creation() == 0 {
        number_of_words(reference.words())
    } else {
        None
    }
}

/// The number of the reference of this node that a term is.
fn reference_number(term: &Term) -> Option<u32>
    ensures { result ≡ reference_number term.now }
{
    match term.view() {
        TermView::Reference(reference) => own_number(reference),
        _ => None,
    }
}

/// A DOWN to a process.
fn down(to: u32, reference: u32, reason: &Term) -> Result<Sent, AllocError>
    ensures { IfOk result (λ sent. sent ≡ record { to = to; signal = Down reference reason.now }) }
{
    Ok(Sent {
        to,
        signal: Signal::Down {
            reference,
            reason: reason.clone()?,
        },
    })
}

impl Process {
    /// Takes the monitor of a reference away; with `flush`, also the first message of the reference, and puts the save pointer at the
    /// start. It takes no memory.
    #[tactic(auto, using(crate::proofs::References::demonitored_is))]
    pub fn demonitor(&mut self, reference: &Term, flush: bool)
        ensures { self.new ≡ flushed_if flush (demonitored self.old reference.now) reference.now }
    {
        if let Some(number) = reference_number(reference) {
            self.monitors.remove(number);
        }
        if flush {
            self.mailbox.flush(reference);
        }
    }

    /// Its monitors.
    pub fn monitors(&self) -> &Monitors
        ensures { result.now ≡ self.now.monitors }
    {
        &self.monitors
    }

    /// Whether it monitors the process of a number. It takes no memory.
    pub fn monitors_process(&self, number: u32) -> bool
        ensures { result ≡ list_any (monitors_process number) self.now.monitors }
    {
        self.monitors.monitors_process(number)
    }

    /// Adds a DOWN for each of its monitors of the process of a number, which ends, in the order of the references. Memory is refused only
    /// where it has such a monitor.
    pub fn downs(&self, number: u32, reason: &Term, sent: &mut Vec<Sent>) -> Result<(), AllocError>
        ensures ok { OnOk result (sent.new.items ≡ sent.old.items ++ downs_to number reason.now self.now) }
        ensures quiet { list_any (monitors_process number) self.now.monitors ≡ false → OnErr result ⊥ }
    {
        for (reference, pid) in self.monitors.iter() {
            if is_pid_of(number, pid) {
                sent.push(down(self.pid, *reference, reason)?)?;
            }
        }
        Ok(())
    }

    /// Adds a monitor of a pid, under a greater reference than the others. Where memory is refused nothing changes.
    pub fn monitor(&mut self, reference: u32, pid: Term) -> Result<(), AllocError>
        requires { AreBelow reference self.old.monitors }
        ensures ok { OnOk result (self.new ≡ record self.old { monitors = self.old.monitors ++ record { reference = reference; pid = pid } ∷ [] }) }
        ensures err { OnErr result (self.new ≡ self.old) }
    {
        self.monitors.push(reference, pid)
    }
}
