//! Queue states of processes: which are queued, and which are checked out.
ghost use Rattle.std.specs.Prelude.{◌≡◌, ◌<◌, ◌-◌, ◌^◌, ℕ, ◌==◌, [], length, if◌then◌else◌, OnOk};
ghost use Rattle.beam_sched.specs.QueueStates.{queue_state_of};
ghost use Rattle.beam_sched.specs.declared.queue_states.QueueState.TheVariants.{Free};

use std::alloc::{AllocError, Global};
use std::marker::Model;

/// Whether a process is in a queue or checked out.
#[derive(Clone, Copy, Debug, PartialEq, Eq)]
pub enum QueueState {
    /// Neither in a queue nor checked out.
    Free,
    /// In the queue of some run queue.
    Queued,
    /// Checked out by a worker.
    CheckedOut,
}

/// The queue states of processes, by their numbers. Those that have none are free.
#[derive(Drop)]
pub struct QueueStates {
    states: Vec<QueueState>,
}

impl Model for QueueStates {
    ghost use Rattle.std.specs.Prelude.{List};
    ghost use Rattle.beam_sched.specs.declared.queue_states.QueueState.{QueueState};

    ghost Value = { List QueueState };

    ghost view = { λ m. m.states.items };
}

impl QueueStates {
    /// All are free. It takes no memory.
    pub fn new(alloc: Global) -> QueueStates
        ensures { result ≡ [] }
    {
        QueueStates {
            states: Vec::new(alloc),
        }
    }

    /// The queue state of a process.
    pub fn of(&self, pid: u32) -> QueueState
        ensures { result ≡ queue_state_of self.now pid }
    {
        match self.states.get(pid as usize) {
            Some(state) => *state,
            None => QueueState::Free,
        }
    }

    /// The greatest process number for whose queue state there is room: above it all are free. 0 where there is none.
    pub fn last(&self) -> u32
        ensures { (pid : ℕ) → result < pid → pid < 2 ^ 32 → queue_state_of self.now pid ≡ Free }
    {
        u32::try_from(self.states.len().saturating_sub(1)).unwrap_or(u32::MAX)
    }

    /// Makes room for the queue state of a process.
    #[tactic(auto, using(crate::proofs::QueueStates::more_free))]
    pub fn reserve(&mut self, pid: u32) -> Result<(), AllocError>
        ensures same { (other : ℕ) → queue_state_of self.new other ≡ queue_state_of self.old other }
        ensures room { OnOk result (pid < length self.new) }
    {
        while self.states.len() <= pid as usize {
            self.states.push(QueueState::Free)?;
        }
        Ok(())
    }

    /// Sets the queue state of a process for which there is room.
    pub fn put(&mut self, pid: u32, state: QueueState)
        ensures len { length self.new ≡ length self.old }
        ensures state { pid < length self.old
            → (other : ℕ) → queue_state_of self.new other ≡ (if other == pid then state else queue_state_of self.old other) }
    {
        if let Some(place) = self.states.get_mut(pid as usize) {
            *place = state;
        }
    }
}
