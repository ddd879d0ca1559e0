//! A journal's entries, run again.
ghost use Rattle.std.specs.Prelude.{◌≡◌, true, false, map, Ok, OnOk, OnErr, IfOk, IfErr};
ghost use Rattle.beam_machine.specs.Debug.{debug_next, undisturbed};
ghost use Rattle.beam_machine.specs.DebugRun.{is_quiet_debug_event};
ghost use Rattle.beam_machine.specs.Journal.{IsLawful, replay};
ghost use Rattle.beam_machine.specs.State.{empty};
ghost use Rattle.beam_journal.specs.Entering.{entries_of, Accepted, takes_memory};

use crate::cut::is_cut;
use crate::entry::Entry;
use beam_debug::debugger::Debugger;
use beam_machine::event::Refused;
use std::alloc::Global;

/// One entry again, in the state in which it was accepted. If memory is refused, in the middle of it too, `NoMemory`.
fn again(node: &mut Debugger, entry: &Entry) -> Result<(), Refused>
    requires { Accepted node.old.state entry.now.event }
    ensures done { OnOk result (node.new.state ≡ (debug_next node.old.state entry.now.event).state) }
    ensures refused { IfErr result (λ refused. refused ≡ Refused.NoMemory) }
    ensures memory { OnErr result (is_quiet_debug_event node.old.state entry.now.event ≡ false) }
{
    let reply = node.apply(entry.event())?;
    if is_cut(entry.event(), &reply) {
        return Err(Refused::NoMemory);
    }
    Ok(())
}

/// The entries one after another, from the empty node on.
pub(crate) fn replayed(alloc: Global, entries: &[Entry]) -> Result<Debugger, Refused>
    requires { IsLawful (entries_of entries.now) }
    ensures state { IfOk result (λ node. node.state ≡ replay (entries_of entries.now)) }
    ensures refused { IfErr result (λ refused. refused ≡ Refused.NoMemory) }
    ensures memory { OnErr result (takes_memory (undisturbed empty) (map (λ s. s.event) entries.now) ≡ true) }
{
    let mut node = Debugger::new(alloc);
    for entry in entries {
        again(&mut node, entry)?;
    }
    Ok(node)
}
