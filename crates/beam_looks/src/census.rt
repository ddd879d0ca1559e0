//! How many processes stand in which way.
ghost use Rattle.std.specs.Prelude.{◌≡◌, ◌+◌, ◌<◌, ◌-◌, ◌^◌};
ghost use Rattle.beam_looks.specs.Counts.{any_state, counts_of, no_processes, one_more, total};
ghost use Rattle.beam_looks.specs.Rows.{processes_after, state_of};

use crate::process_rows::live_state;
use beam_debug::debugger::Debugger;
use beam_page::ProcessState;
use beam_proc::entry::ProcessEntry;

/// How many processes stand in which way.
#[derive(Clone, Copy, Debug)]
pub struct Census {
    pub running: u32,
    pub waiting: u32,
    pub held: u32,
    pub ended: u32,
}

impl Census {
    /// There are none.
    pub fn none() -> Census
        ensures { result ≡ no_processes }
    {
        Census {
            running: 0,
            waiting: 0,
            held: 0,
            ended: 0,
        }
    }

    /// There is one more that stands in this way.
    fn with(self, state: ProcessState) -> Census
        requires { total self < 2 ^ 32 - 1 }
        ensures { result ≡ one_more self state }
    {
        let mut counts = self;
        match state {
            ProcessState::Running => counts.running += 1,
            ProcessState::Waiting => counts.waiting += 1,
            ProcessState::Held => counts.held += 1,
            ProcessState::Ended => counts.ended += 1,
        }
        counts
    }
}

/// How a process stands, also one that has ended.
fn any_state(debugger: &Debugger, process: &ProcessEntry) -> ProcessState
    ensures { result ≡ any_state debugger.now.state process.now }
{
    if process.is_ended() {
        return ProcessState::Ended;
    }
    match process.living() {
        Some(process) => live_state(debugger, process),
        None => unreachable!(),
    }
}

/// How many of the first `most` processes above a number stand in which way; of fewer where there are no more. None are counted where
/// `after + most` is 2^32 or more. It takes no memory, time linear in `most`, and O(h) for each where h processes are held.
#[tactic(auto, using(crate::proofs::Counts::next_counted, crate::proofs::Counts::none_counted, crate::proofs::Counts::none_left, crate::proofs::Counts::one_is))]
pub fn counts_after(debugger: &Debugger, after: u32, most: u32) -> Census
    ensures { after + most < 2 ^ 32 → result ≡ counts_of debugger.now.state (processes_after debugger.now.state after most) }
{
    let mut counts = Census::none();
    let Some(end) = after.checked_add(most) else {
        return counts;
    };
    let mut pid = after;
    while pid < end {
        match debugger.process(pid + 1) {
            Some(process) => counts = counts.with(any_state(debugger, process)),
            None => return counts,
        }
        pid += 1;
    }
    counts
}
