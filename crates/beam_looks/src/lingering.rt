//! Processes that linger in some instances.
ghost use Rattle.std.specs.Prelude.{◌≡◌, ◌+◌, ◌<◌, ◌^◌, length, IfOk};
ghost use Rattle.beam_looks.specs.Lingering.{lingering};
ghost use Rattle.beam_looks.specs.Rows.{processes_after};

use beam_debug::debugger::Debugger;
use indexmap::IndexSet;
use std::alloc::{AllocError, Global};

/// The processes that linger in some instances, among those that were visited.
#[derive(Drop)]
pub struct Lingering {
    /// Their numbers, rising.
    pub pids: Vec<u32>,
    /// How many processes were visited.
    pub visited: u32,
}

/// Those of the first `most` processes above a number that linger in one of these instances: they go on, return or catch there. Fewer are
/// visited where there are no more, and none where `after + most` is 2^32 or more. It takes time linear in the frames of those that are
/// visited, each of which has at most 65,536 words of them.
#[tactic(auto, using(crate::proofs::Away::next_lingers, crate::proofs::Away::next_is_away, crate::proofs::Away::next_visited, crate::proofs::Away::no_more, crate::proofs::Away::none_visited, crate::proofs::Away::none_left))]
pub fn lingering_after(
    alloc: Global,
    debugger: &Debugger,
    numbers: &IndexSet<u32>,
    after: u32,
    most: u32,
) -> Result<Lingering, AllocError>
    ensures pids { after + most < 2 ^ 32 → IfOk result (λ found. found.pids.items ≡ lingering numbers.now.keys (processes_after debugger.now.state after most)) }
    ensures visited { after + most < 2 ^ 32 → IfOk result (λ found. found.visited ≡ length (processes_after debugger.now.state after most)) }
{
    let mut pids = Vec::new(alloc);
    let Some(end) = after.checked_add(most) else {
        return Ok(Lingering { pids, visited: 0 });
    };
    let mut pid = after;
    while pid < end {
        match debugger.process(pid + 1) {
            Some(process) if process.lingers_in_any(numbers) => pids.push(process.pid())?,
            Some(_) => {}
            None => {
                return Ok(Lingering {
                    pids,
                    visited: pid - after,
                });
            }
        }
        pid += 1;
    }
    Ok(Lingering {
        pids,
        visited: most,
    })
}
