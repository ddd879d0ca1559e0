//! Upgrade lists: modules that are loaded together, or none of them.
ghost use Rattle.std.specs.Prelude.{◌≡◌, ℕ, List, false, OnOk, OnErr};
ghost use Rattle.std.specs.List.{list_any};
ghost use Rattle.beam_model.specs.Listing.{Listing};
ghost use Rattle.beam_machine.specs.declared.event.Event.TheVariants as event;
ghost use Rattle.beam_machine.specs.Code.{Code};
ghost use Rattle.beam_machine.specs.Next.{stands_in_way, end_olds};
ghost use Rattle.beam_machine.specs.Run.{Answers};
ghost use Rattle.beam_laws.specs.Numbers.{Ordered};
ghost use Rattle.beam_codesrv.specs.Replacement.{said};
ghost use Rattle.beam_codesrv.specs.Several.{AreOld};
ghost use Rattle.beam_state.specs.Parts.{node, parts};
ghost use Rattle.beam_state.specs.Posting.{AreLawful};

use crate::lingering::{OldInstances, one_lingers, tell_and_end};
use crate::processes::Processes;
use beam_codesrv::upgrading::{any_is_erlang, are_apart, count_after};
use beam_codesrv::{CodeError, CodeTable};
use beam_image::Image;
use beam_machine::event::{NumberList, Reply, UpgradeMode};
use beam_proc::entry::ProcessEntry;
use indexmap::IndexSet;
use std::alloc::{AllocError, Global};

/// Whether one of the old instances of modules stands in the way of their upgrade. The processes are walked over once at most.
fn any_stands_in_way(mode: UpgradeMode, old: &IndexSet<u32>, processes: &[ProcessEntry]) -> bool
    ensures { (code : Code) (ls : List Listing) (clock instances count : ℕ) → AreOld code ls old.now.keys
        → result ≡ list_any (λ l. stands_in_way mode (node code (parts processes.now clock instances count)) l.name) ls }
{
    match mode {
        UpgradeMode::Strict => !old.is_empty(),
        UpgradeMode::Soft => one_lingers(OldInstances::Several(old), processes),
        UpgradeMode::Hard => false,
    }
}

/// Ends the processes that linger in the modules' old instances in mode `Hard`; those that monitor them hear of it. The other modes end
/// none. Where memory is refused nothing changes.
fn make_way(
    alloc: Global,
    mode: UpgradeMode,
    old: &IndexSet<u32>,
    processes: &mut Processes,
    references: u32,
) -> Result<(), AllocError>
    requires { AreLawful references processes.old }
    ensures ok { (code : Code) (ls : List Listing) (clock instances count : ℕ) → AreOld code ls old.now.keys
        → list_any (λ l. stands_in_way mode (node code (parts processes.old clock instances count)) l.name) ls ≡ false
        → OnOk result (processes.new ≡ (end_olds (node code (parts processes.old clock instances count)) ls).processes) }
    ensures err { OnErr result (processes.new ≡ processes.old) }
{
    match mode {
        UpgradeMode::Strict => Ok(()),
        UpgradeMode::Soft => Ok(()),
        UpgradeMode::Hard => {
            tell_and_end(alloc, OldInstances::Several(old), processes, references)?;
            Ok(())
        }
    }
}

/// Loads images' modules together under the next numbers, in their order: their old code goes, the processes that linger in it end,
/// those that monitor them hear of it, and their current code becomes old. `Sticky` where `erlang` is among them, `Duplicated` where a
/// module is there twice, `NotPurged` where old code stands in the way of that mode, `TooMany` beyond 2^32 - 1 instances: the first of
/// these. `NoMemory` may stand in place of a refusal too, since the tests take memory. A refusal changes nothing.
pub(crate) fn atomic_load(
    alloc: Global,
    code: &mut CodeTable,
    processes: &mut Processes,
    references: u32,
    instances: &mut u32,
    mode: UpgradeMode,
    images: &[Image],
) -> Result<Reply, CodeError>
    requires ordered { Ordered code.old instances.old }
    requires lawful { AreLawful references processes.old }
    ensures next { (clock count : ℕ) → Answers (node code.old (parts processes.old clock instances.old count)) (event.AtomicLoad mode images.now)
        (said result) (node code.new (parts processes.new clock instances.new count)) }
    ensures err { OnErr result ((code.new ≡ code.old) × (processes.new ≡ processes.old) × (instances.new ≡ instances.old)) }
{
    if any_is_erlang(images) {
        return Err(CodeError::Sticky);
    }
    if !are_apart(alloc, images)? {
        return Err(CodeError::Duplicated);
    }
    let old = code.old_numbers(alloc, images)?;
    if any_stands_in_way(mode, &old, processes.as_slice()) {
        return Err(CodeError::NotPurged);
    }
    let Some(count) = count_after(*instances, images) else {
        return Err(CodeError::TooMany);
    };
    let (table, numbers) = code.upgraded(alloc, *instances, images)?;
    make_way(alloc, mode, &old, processes, references)?;
    *code = table;
    *instances = count;
    Ok(Reply::Upgraded(NumberList::new(numbers)))
}
