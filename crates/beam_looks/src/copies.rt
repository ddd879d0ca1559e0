//! A copy of a process.
ghost use Rattle.std.specs.Prelude.{◌≡◌, IfOk};
ghost use Rattle.beam_machine.specs.State.{live_process};

use beam_debug::debugger::Debugger;
use beam_proc::process::Process;
use std::alloc::AllocError;

/// A copy of a process that hasn't ended, which shares its terms; `None` where there is none of that number. It takes time linear in the
/// process's frames, its signals in transit and its monitors, and for n messages that of n / 256.
pub fn process_copy(debugger: &Debugger, pid: u32) -> Result<Option<Process>, AllocError>
    ensures { IfOk result (λ copy. copy ≡ live_process debugger.now.state.node.processes pid) }
{
    let Some(entry) = debugger.process(pid) else {
        return Ok(None);
    };
    match entry.living() {
        Some(process) => Ok(Some(process.try_copy()?)),
        None => Ok(None),
    }
}
