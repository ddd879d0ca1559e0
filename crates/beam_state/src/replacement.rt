//! Changes of code, with the processes that linger in it. A refusal changes nothing.
ghost use Rattle.std.specs.Prelude.{◌≡◌, ◌+◌, ◌-◌, ◌^◌, ◌↔◌, ℕ, true, false, None, is_some, is_ok, OnOk, OnErr, IfOk, IsErrOf};
ghost use Rattle.beam_machine.specs.Change.{old_of, loaded, lingers_in_old, killing};
ghost use Rattle.beam_model.specs.NativeNames.{is_erlang};
ghost use Rattle.beam_machine.specs.declared.event.Event.TheVariants as event;
ghost use Rattle.beam_machine.specs.declared.event.Reply.TheVariants.{Changed};
ghost use Rattle.beam_machine.specs.Code.{listing_of};
ghost use Rattle.beam_machine.specs.Next.{replied, next_load, next_load_strict, next_purge, next_soft_purge};
ghost use Rattle.beam_machine.specs.Quiet.{ends_monitored};
ghost use Rattle.beam_machine.specs.Run.{Answers};
ghost use Rattle.beam_codesrv.specs.Replacement.{said};
ghost use Rattle.beam_state.specs.Parts.{node, parts};
ghost use Rattle.beam_state.specs.Posting.{AreLawful};

use crate::lingering::{OldInstances, end_all, one_lingers, tell, tell_and_end};
use crate::posting::take_all_back;
use crate::processes::Processes;
use beam_bif::built_in::is_erlang;
use beam_codesrv::{CodeError, CodeTable};
use beam_image::Image;
use beam_machine::event::Reply;
use beam_term::Atom;
use std::alloc::{AllocError, Global};

/// Puts in an instance as `CodeTable::put` does, and ends the processes that linger in the old one that goes. The processes that monitor
/// them are sent DOWNs.
fn put_and_end(
    alloc: Global,
    code: &mut CodeTable,
    processes: &mut Processes,
    references: u32,
    number: u32,
    image: &Image,
) -> Result<(), AllocError>
    requires fresh { listing_of code.old number ≡ None }
    requires lawful { AreLawful references processes.old }
    ensures code { OnOk result (code.new ≡ loaded code.old number image.now) }
    ensures processes { OnOk result (processes.new ≡ killing (lingers_in_old code.old image.now.name) processes.old) }
    ensures err { OnErr result ((code.new ≡ code.old) × (processes.new ≡ processes.old)) }
{
    let old = OldInstances::One(code.old(image.module()));
    let Some(told) = tell(alloc, old, processes, references)? else {
        return code.put(number, image);
    };
    if let Err(refused) = code.put(number, image) {
        take_all_back(processes, &told);
        return Err(refused);
    }
    end_all(old, processes);
    Ok(())
}

/// Loads an image's module under the next number: its old code goes, the processes that linger in that code end, those that monitor
/// them hear of it, and its current code becomes old. The memory is taken before the first change.
pub(crate) fn load(
    alloc: Global,
    code: &mut CodeTable,
    processes: &mut Processes,
    references: u32,
    instances: &mut u32,
    image: &Image,
) -> Result<Reply, CodeError>
    requires free { listing_of code.old (instances.old + 1) ≡ None }
    requires lawful { AreLawful references processes.old }
    ensures next { (clock count : ℕ) → Answers (node code.old (parts processes.old clock instances.old count)) (event.Load image.now)
        (said result) (node code.new (parts processes.new clock instances.new count)) }
    ensures sticky { IsErrOf result CodeError.Sticky ↔ (is_erlang image.now.name ≡ true) }
    ensures many { IsErrOf result CodeError.TooMany ↔ ((is_erlang image.now.name ≡ false) × (instances.old ≡ 2 ^ 32 - 1)) }
    ensures memory { (clock count : ℕ) → IsErrOf result CodeError.NoMemory
        → is_ok (next_load (node code.old (parts processes.old clock instances.old count)) image.now).answer ≡ true }
    ensures err { OnErr result ((code.new ≡ code.old) × (processes.new ≡ processes.old) × (instances.new ≡ instances.old)) }
{
    let name = image.module();
    if is_erlang(name) {
        return Err(CodeError::Sticky);
    }
    if *instances == u32::MAX {
        return Err(CodeError::TooMany);
    }
    put_and_end(alloc, code, processes, references, *instances + 1, image)?;
    *instances += 1;
    Ok(code.versions(name))
}

/// Loads an image's module under the next number, where the module has no old code; its current code becomes old. `NotPurged` where it
/// has old code; so no process ends.
pub(crate) fn load_strict(
    code: &mut CodeTable,
    processes: &mut Processes,
    instances: &mut u32,
    image: &Image,
) -> Result<Reply, CodeError>
    requires free { listing_of code.old (instances.old + 1) ≡ None }
    ensures next { (clock count : ℕ) → Answers (node code.old (parts processes.old clock instances.old count)) (event.LoadStrict image.now)
        (said result) (node code.new (parts processes.new clock instances.new count)) }
    ensures sticky { IsErrOf result CodeError.Sticky ↔ (is_erlang image.now.name ≡ true) }
    ensures unpurged { IsErrOf result CodeError.NotPurged
        ↔ ((is_erlang image.now.name ≡ false) × (is_some (old_of code.old image.now.name) ≡ true)) }
    ensures many { IsErrOf result CodeError.TooMany
        ↔ ((is_erlang image.now.name ≡ false) × (is_some (old_of code.old image.now.name) ≡ false) × (instances.old ≡ 2 ^ 32 - 1)) }
    ensures memory { (clock count : ℕ) → IsErrOf result CodeError.NoMemory
        → is_ok (next_load_strict (node code.old (parts processes.old clock instances.old count)) image.now).answer ≡ true }
    ensures processes { processes.new ≡ processes.old }
    ensures err { OnErr result ((code.new ≡ code.old) × (instances.new ≡ instances.old)) }
{
    let name = image.module();
    if is_erlang(name) {
        return Err(CodeError::Sticky);
    }
    if code.old(name).is_some() {
        return Err(CodeError::NotPurged);
    }
    if *instances == u32::MAX {
        return Err(CodeError::TooMany);
    }
    code.put(*instances + 1, image)?;
    *instances += 1;
    Ok(code.versions(name))
}

/// Removes a module's old code where no process lingers in it, and tells whether none does. It takes no memory.
pub(crate) fn soft_purge(code: &mut CodeTable, processes: &Processes, name: &Atom) -> bool
    ensures { (clock n count : ℕ) → next_soft_purge (node code.old (parts processes.now clock n count)) name.now
        ≡ replied (node code.new (parts processes.now clock n count)) (Changed result) }
{
    if one_lingers(OldInstances::One(code.old(name)), processes.as_slice()) {
        return false;
    }
    code.drop_old(name);
    true
}

/// Ends the processes that linger in a module's old code, removes that code, and tells whether one was ended. Those that monitor them
/// hear of it. Memory is refused only where one that lingers is monitored, and then nothing changes.
pub(crate) fn purge(
    alloc: Global,
    code: &mut CodeTable,
    processes: &mut Processes,
    references: u32,
    name: &Atom,
) -> Result<bool, AllocError>
    requires { AreLawful references processes.old }
    ensures next { (clock n count : ℕ) → IfOk result (λ ended. next_purge (node code.old (parts processes.old clock n count)) name.now
        ≡ replied (node code.new (parts processes.new clock n count)) (Changed ended)) }
    ensures memory { (clock n count : ℕ) → OnErr result (ends_monitored (node code.old (parts processes.old clock n count)) name.now ≡ true) }
    ensures err { OnErr result ((code.new ≡ code.old) × (processes.new ≡ processes.old)) }
{
    let old = OldInstances::One(code.old(name));
    let ended = tell_and_end(alloc, old, processes, references)?;
    code.drop_old(name);
    Ok(ended)
}
