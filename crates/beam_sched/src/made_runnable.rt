//! Which processes an accepted event makes runnable.
ghost use Rattle.std.specs.Prelude.{◌≡◌};
ghost use Rattle.beam_sched.specs.MadeRunnable.{made_runnable_by, receiver_of};

use beam_debug::outcome::Outcome;
use beam_image::Image;
use beam_machine::debug::DebugEvent;
use beam_machine::event::{Event, Reply};
use beam_term::Term;

/// Which processes may be runnable after an event that weren't before.
#[derive(Clone, Copy, Debug, PartialEq, Eq)]
pub enum MadeRunnable {
    /// Only this process, and if it has ended, those that monitor it.
    One(u32),
    /// Only the process that the event starts.
    Started,
    /// Any process.
    Any,
    /// None: the event only reads something.
    Nobody,
}

/// The receiver of a message, which may be any process if it is sent to a name.
#[tactic(auto, using(crate::proofs::MadeRunnable::by_name))]
fn receiver(to: &Term) -> MadeRunnable
    ensures { result ≡ receiver_of to.now }
{
    match to.as_pid() {
        Some(pid) => MadeRunnable::One(pid.id),
        None => MadeRunnable::Any,
    }
}

impl MadeRunnable {
    /// Which processes an event may make runnable.
    pub fn of(event: &DebugEvent<Image>) -> MadeRunnable
        ensures { result ≡ made_runnable_by event.now }
    {
        match event {
            DebugEvent::Node(Event::Spawn { .. }) => MadeRunnable::Started,
            DebugEvent::Node(Event::Send { to, .. }) => receiver(to),
            DebugEvent::Node(Event::Deliver { pid } | Event::Timeout { pid })
            | DebugEvent::Resume { pid } => MadeRunnable::One(*pid),
            DebugEvent::Node(Event::Versions(_)) | DebugEvent::Inspect { .. } =>
                MadeRunnable::Nobody,
            DebugEvent::Node(
                Event::Load(_)
                | Event::LoadStrict(_)
                | Event::AtomicLoad { .. }
                | Event::Delete(_)
                | Event::SoftPurge(_)
                | Event::Purge(_)
                | Event::Steps { .. }
                | Event::Clock { .. },
            )
            | DebugEvent::SetBreak(_)
            | DebugEvent::ClearBreak(_)
            | DebugEvent::StepOne { .. } => MadeRunnable::Any,
        }
    }

    /// The process that may be runnable, by the node's answer to the event. `None` where it may be any, or where there is none.
    pub fn pid(self, outcome: &Outcome) -> Option<u32> {
        match (self, outcome) {
            (MadeRunnable::One(pid), _) => Some(pid),
            (MadeRunnable::Started, Outcome::Node(Reply::Started(pid))) => Some(*pid),
            _ => None,
        }
    }
}
