//! Copies of a process, whose terms are shared.
ghost use Rattle.std.specs.Prelude.{◌≡◌, IfOk};

use crate::process::Process;
use beam_machine::process::{Goes, Signal, Status};
use beam_model::exception::Exception;
use beam_term::{Atom, Term};
use std::alloc::{AllocError, Global};

fn copy_name(name: &Option<Atom>) -> Result<Option<Atom>, AllocError>
    ensures { IfOk result (λ copy. copy ≡ name.now) }
{
    match name {
        Some(name) => Ok(Some(name.clone()?)),
        None => Ok(None),
    }
}

fn copy_goes(goes: &Goes) -> Result<Goes, AllocError>
    ensures { IfOk result (λ copy. copy ≡ goes.now) }
{
    match goes {
        Goes::At(place) => Ok(Goes::At(*place)),
        Goes::Enter {
            module,
            function,
            arity,
        } => Ok(Goes::Enter {
            module: module.clone()?,
            function: function.clone()?,
            arity: *arity,
        }),
        Goes::Nowhere => Ok(Goes::Nowhere),
    }
}

fn copy_status(status: &Status) -> Result<Status, AllocError>
    ensures { IfOk result (λ copy. copy ≡ status.now) }
{
    match status {
        Status::Running => Ok(Status::Running),
        Status::Waiting => Ok(Status::Waiting),
        Status::Ended { reason, value } => Ok(Status::Ended {
            reason: reason.clone()?,
            value: value.clone()?,
        }),
    }
}

fn copy_pending(pending: &Option<Exception>) -> Result<Option<Exception>, AllocError>
    ensures { IfOk result (λ copy. copy ≡ pending.now) }
{
    match pending {
        None => Ok(None),
        Some(Exception::Fault(fault)) => Ok(Some(Exception::Fault(*fault))),
        Some(Exception::Raised(class, value)) => {
            Ok(Some(Exception::Raised(*class, value.clone()?)))
        }
    }
}

pub(crate) fn copy_signal(signal: &Signal) -> Result<Signal, AllocError>
    ensures { IfOk result (λ copy. copy ≡ signal.now) }
{
    match signal {
        Signal::Message(message) => Ok(Signal::Message(message.clone()?)),
        Signal::Exit { sender, reason } => Ok(Signal::Exit {
            sender: *sender,
            reason: reason.clone()?,
        }),
        Signal::Down { reference, reason } => Ok(Signal::Down {
            reference: *reference,
            reason: reason.clone()?,
        }),
    }
}

fn copy_signals(alloc: Global, signals: &[Signal]) -> Result<Vec<Signal>, AllocError>
    ensures { IfOk result (λ copies. copies.items ≡ signals.now) }
{
    let mut copies = Vec::with_capacity(alloc, signals.len())?;
    for signal in signals {
        copies.push(copy_signal(signal)?)?;
    }
    Ok(copies)
}

impl Process {
    /// An equal process, whose terms are shared. Where memory is refused there is none. Takes time and memory linear in its registers,
    /// frames, messages and signals in transit.
    pub fn try_copy(&self) -> Result<Process, AllocError>
        ensures { IfOk result (λ copy. copy ≡ self.now) }
    {
        let alloc = self.alloc;
        Ok(Process {
            alloc,
            pid: self.pid,
            name: copy_name(&self.name)?,
            x: self.x.to_vec(alloc)?,
            frames: self.frames.try_copy(alloc)?,
            goes: copy_goes(&self.goes)?,
            mailbox: self.mailbox.try_copy()?,
            transit: copy_signals(alloc, &self.transit)?,
            deadline: self.deadline,
            pending: copy_pending(&self.pending)?,
            status: copy_status(&self.status)?,
            monitors: self.monitors.try_copy()?,
            killed: self.killed.clone()?,
            known: self.known.try_share()?,
        })
    }
}
