//! Messages and DOWNs that arrive.
ghost use Rattle.std.specs.Prelude.{◌≡◌, ◌<◌, ◌≤◌, false, [], ◌++◌, fold, None, option_map, if◌then◌else◌, OnOk, OnErr, IfOk, MatchOption};
ghost use Rattle.std.specs.Option.{option_copied};
ghost use Rattle.std.specs.List.{list_any};
ghost use Rattle.beam_term.specs.TermValue.{depth_of};
ghost use Rattle.beam_model.specs.Exception.{around};
ghost use Rattle.beam_machine.specs.declared.process.Status.{Status};
ghost use Rattle.beam_machine.specs.declared.process.Status.TheVariants.{Running};
ghost use Rattle.beam_machine.specs.Process.{is_ended, monitor_of, without_monitor};
ghost use Rattle.beam_machine.specs.Next.{down_term};
ghost use Rattle.beam_mailbox.specs.Messages.{messages_of};
ghost use Rattle.beam_proc.specs.Deliveries.{is_down, message_by, left_by, added, arriving, but_of, woken, received_all};

use crate::known::Known;
use crate::process::Process;
use crate::raised::too_deep;
use crate::terms::atom;
use beam_machine::process::{Signal, Status};
use beam_term::{Term, TermError, tuple};
use beam_watches::monitors::Monitors;
use indexmap::IndexSet;
use std::alloc::{AllocError, Global};

/// Whether there is a message among signals.
fn has_message(signals: &[Signal]) -> bool
    ensures { (status : Status) → woken (messages_of signals.now) status ≡ (if result then Running else status) }
{
    let mut rest = signals;
    while let Some((signal, more)) = rest.split_first() {
        if let Signal::Message(_) = signal {
            return true;
        }
        rest = more;
    }
    false
}

/// Whether there is a DOWN among signals.
fn has_down(signals: &[Signal]) -> bool
    ensures { result ≡ list_any is_down signals.now }
{
    signals
        .iter()
        .any(|signal| matches!(signal, Signal::Down { .. }))
}

/// The message of a DOWN, if it isn't too deep.
fn down_of(
    alloc: Global,
    known: &Known,
    reference: u32,
    pid: &Term,
    reason: Term,
) -> Result<Option<Term>, AllocError>
    ensures { IfOk result (λ made. MatchOption made (4096 < depth_of (down_term (record { reference = reference; pid = pid.now }) reason))
        (λ t. (t ≡ down_term (record { reference = reference; pid = pid.now }) reason) × (depth_of t ≤ 4096))) }
{
    let tag = atom(alloc, "DOWN")?;
    let made = known.reference(alloc, reference)?;
    let kind = atom(alloc, "process")?;
    match tuple(
        alloc,
        vec![in alloc; tag, made, kind, pid.clone()?, reason]?,
    ) {
        Ok(term) => {
            let _shallow = term.depth();
            Ok(Some(term))
        }
        Err(TermError::TooDeep) => Ok(None),
        Err(TermError::NoMemory) => Err(AllocError),
    }
}

/// The message of a DOWN. (None could be made only for a pid that is too deep, which no pid is.)
fn down_message(
    alloc: Global,
    known: &Known,
    reference: u32,
    pid: &Term,
    reason: &Term,
) -> Result<Term, AllocError>
    ensures { IfOk result (λ t. t ≡ around (down_term (record { reference = reference; pid = pid.now })) reason.now) }
{
    if let Some(whole) = down_of(alloc, known, reference, pid, reason.clone()?)? {
        return Ok(whole);
    }
    match down_of(alloc, known, reference, pid, too_deep(alloc)?)? {
        Some(whole) => Ok(whole),
        None => Err(AllocError),
    }
}

/// The pid that is monitored under a reference, which is added to the seen ones; None if the reference was seen before.
fn pid_once<'a>(
    monitors: &'a Monitors,
    seen: &mut IndexSet<u32>,
    reference: u32,
) -> Result<Option<&'a Term>, AllocError>
    ensures pid { IfOk result (λ pid. option_copied pid ≡ option_map (λ m. m.pid) (monitor_of reference (but_of seen.old.keys monitors.now))) }
    ensures seen { OnOk result (but_of seen.new.keys monitors.now ≡ without_monitor reference (but_of seen.old.keys monitors.now)) }
{
    if seen.insert(reference)? {
        Ok(monitors.get(reference))
    } else {
        Ok(None)
    }
}

/// The message that a signal brings, if it brings one. The reference of a DOWN is added to the seen ones.
fn message_by(
    alloc: Global,
    known: &Known,
    monitors: &Monitors,
    seen: &mut IndexSet<u32>,
    signal: &Signal,
) -> Result<Option<Term>, AllocError>
    ensures message { IfOk result (λ message. message ≡ message_by (but_of seen.old.keys monitors.now) signal.now) }
    ensures seen { OnOk result (but_of seen.new.keys monitors.now ≡ left_by (but_of seen.old.keys monitors.now) signal.now) }
{
    match signal {
        Signal::Message(message) => Ok(Some(message.clone()?)),
        Signal::Exit { .. } => Ok(None),
        Signal::Down { reference, reason } => match pid_once(monitors, seen, *reference)? {
            Some(pid) => Ok(Some(down_message(alloc, known, *reference, pid, reason)?)),
            None => Ok(None),
        },
    }
}

/// Appends a message to others, if there is one.
#[tactic(auto, using(crate::proofs::Arriving::pushed, crate::proofs::Deliveries::append_none))]
fn push(messages: &mut Vec<Signal>, message: Option<Term>) -> Result<(), AllocError>
    ensures { OnOk result (messages_of messages.new.items ≡ messages_of messages.old.items ++ added message []) }
{
    if let Some(message) = message {
        messages.push(Signal::Message(message))?;
    }
    Ok(())
}

/// The messages that signals bring. A DOWN brings one if its monitor is still there; a second DOWN of that monitor brings none.
#[tactic(auto, using(crate::proofs::Arriving::but_none, crate::proofs::Arriving::carried, crate::proofs::Deliveries::append_none))]
fn arriving(
    alloc: Global,
    known: &Known,
    monitors: &Monitors,
    signals: &[Signal],
) -> Result<Vec<Signal>, AllocError>
    ensures { IfOk result (λ messages. messages_of messages.items ≡ arriving monitors.now signals.now) }
{
    let mut seen = IndexSet::new(alloc);
    let mut messages = Vec::with_capacity(alloc, signals.len())?;
    let mut rest = signals;
    while let Some((signal, more)) = rest.split_first() {
        let message = message_by(alloc, known, monitors, &mut seen, signal)?;
        push(&mut messages, message)?;
        rest = more;
    }
    Ok(messages)
}

/// Takes away the monitors whose DOWN has arrived.
fn forget(monitors: &mut Monitors, signals: &[Signal])
    ensures { monitors.new ≡ fold left_by monitors.old signals.now }
{
    let mut rest = signals;
    while let Some((signal, more)) = rest.split_first() {
        if let Signal::Down { reference, .. } = signal {
            monitors.remove(*reference);
        }
        rest = more;
    }
}

impl Process {
    /// Takes in the signals in transit, some of them DOWNs, none of which ends the process. Where memory is refused nothing changes.
    fn take_downs(&mut self) -> Result<(), AllocError>
        requires { is_ended self.old.status ≡ false }
        ensures ok { OnOk result (self.new ≡ received_all (record self.old { transit = [] }) None self.old.transit) }
        ensures err { OnErr result (self.new ≡ self.old) }
    {
        let mut messages = arriving(self.alloc, &self.known, &self.monitors, &self.transit)?;
        let wakes = has_message(&messages);
        self.mailbox.deliver_all(&mut messages)?;
        forget(&mut self.monitors, &self.transit);
        self.transit.clear();
        if wakes {
            self.status = Status::Running;
        }
        Ok(())
    }

    /// Takes in the signals in transit, none of which ends the process. Where memory is refused nothing changes.
    #[tactic(auto, using(crate::proofs::Deliveries::without_downs, crate::proofs::Deliveries::monitors_stay))]
    pub(crate) fn take_in(&mut self) -> Result<(), AllocError>
        requires { is_ended self.old.status ≡ false }
        ensures ok { OnOk result (self.new ≡ received_all (record self.old { transit = [] }) None self.old.transit) }
        ensures err { OnErr result (self.new ≡ self.old) }
    {
        if has_down(&self.transit) {
            return self.take_downs();
        }
        let wakes = has_message(&self.transit);
        self.mailbox.deliver_all(&mut self.transit)?;
        if wakes {
            self.status = Status::Running;
        }
        Ok(())
    }
}
