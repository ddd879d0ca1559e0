//! The actions of workers.
ghost use Rattle.std.specs.Prelude.{◌≡◌};
ghost use Rattle.beam_sched.specs.WorkerActions.{idle_action};

/// What a worker does next.
#[derive(Clone, Copy, Debug, PartialEq, Eq)]
pub enum WorkerAction {
    /// It runs a process.
    Run(u32),
    /// It scans the node for processes that are runnable.
    Scan,
    /// It has waited, or is to wait.
    Rest,
    /// It ends.
    End,
}

/// The next action of a worker that finds nothing in the queues. A worker that is stopped ends, whatever work is left; otherwise it goes on
/// while a scan is wanted or is to be retried for want of memory.
pub fn idle_action(
    is_stopped: bool,
    is_closed: bool,
    is_wanted: bool,
    retry: Option<u64>,
) -> WorkerAction
    ensures { result ≡ idle_action is_stopped is_closed is_wanted retry }
{
    if is_stopped {
        WorkerAction::End
    } else if is_wanted {
        WorkerAction::Scan
    } else if is_closed && retry.is_none() {
        WorkerAction::End
    } else {
        WorkerAction::Rest
    }
}
