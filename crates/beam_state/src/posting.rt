//! Signals to processes.
ghost use Rattle.std.specs.Prelude.{◌≡◌, [], OnOk, OnErr};
ghost use Rattle.beam_machine.specs.State.{posted};
ghost use Rattle.beam_laws.specs.Private.{posted_all};
ghost use Rattle.beam_state.specs.Returns.{posted_if};
ghost use Rattle.beam_state.specs.Posting.{taken, all_taken};

use crate::names::live_index;
use crate::processes::Processes;
use beam_machine::process::Signal;
use beam_proc::private::Sent;
use std::alloc::AllocError;

/// Puts a signal in transit to a process. One to a process that has ended, or was never started, is dropped. Where memory is refused
/// nothing changes.
pub(crate) fn post(processes: &mut Processes, pid: u32, signal: Signal) -> Result<(), AllocError>
    ensures ok { OnOk result (processes.new ≡ posted processes.old pid signal) }
    ensures err { OnErr result (processes.new ≡ processes.old) }
{
    match live_index(processes.as_slice(), pid) {
        Some(index) => processes.change(index, |process| process.post(signal)),
        None => Ok(()),
    }
}

/// Posts a signal, if there is one. Where memory is refused nothing changes.
pub(crate) fn post_if(processes: &mut Processes, sent: Option<Sent>) -> Result<(), AllocError>
    ensures ok { OnOk result (processes.new ≡ posted_if processes.old sent) }
    ensures err { OnErr result (processes.new ≡ processes.old) }
{
    match sent {
        Some(Sent { to, signal }) => post(processes, to, signal),
        None => Ok(()),
    }
}

/// Posts a copy of a signal.
fn post_copy(processes: &mut Processes, sent: &Sent) -> Result<(), AllocError>
    ensures ok { OnOk result (processes.new ≡ posted processes.old sent.now.to sent.now.signal) }
    ensures err { OnErr result (processes.new ≡ processes.old) }
{
    let signal = sent.copy_signal()?;
    post(processes, sent.to, signal)
}

/// Takes back the last signal in transit to a process, unless the process has ended.
fn take_back(processes: &mut Processes, pid: u32)
    ensures { processes.new ≡ taken processes.old pid }
{
    if let Some(index) = live_index(processes.as_slice(), pid) {
        processes.change(index, |process| process.take_back());
    }
}

/// For each of these signals, from the last to the first, takes back the last signal to its receiver.
pub(crate) fn take_all_back(processes: &mut Processes, sent: &[Sent])
    ensures { processes.new ≡ all_taken processes.old sent.now }
{
    let mut left = sent.len();
    while left > 0 {
        left -= 1;
        let one = &sent[left];
        take_back(processes, one.to);
    }
}

/// Posts copies of signals one after another. Where memory is refused nothing changes.
pub(crate) fn post_all(processes: &mut Processes, sent: &[Sent]) -> Result<(), AllocError>
    ensures ok { OnOk result (processes.new ≡ posted_all processes.old sent.now) }
    ensures err { OnErr result (processes.new ≡ processes.old) }
    ensures quiet { sent.now ≡ [] → OnErr result ⊥ }
{
    for index in 0..sent.len() {
        let one = &sent[index];
        if let Err(refused) = post_copy(processes, one) {
            take_all_back(processes, &sent[..index]);
            return Err(refused);
        }
    }
    Ok(())
}
