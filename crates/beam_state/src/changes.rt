//! Changes of code, which may end processes.
ghost use Rattle.std.specs.Prelude.{◌≡◌, ℕ, true, is_ok, IsErrOf};
ghost use Rattle.beam_machine.specs.Next.{next};
ghost use Rattle.beam_machine.specs.Run.{Answers};
ghost use Rattle.beam_machine.specs.Quiet.{LacksMemory, ends_monitored};
ghost use Rattle.beam_laws.specs.Numbers.{Ordered};
ghost use Rattle.beam_state.specs.Parts.{node, parts};
ghost use Rattle.beam_state.specs.Posting.{AreLawful};

use crate::processes::Processes;
use crate::state::State;
use crate::{replacement, upgrading};
use beam_codesrv::CodeTable;
use beam_image::Image;
use beam_machine::event::{Event, Refused, Reply, UpgradeMode};
use beam_term::Atom;
use std::alloc::Global;

#[tactic(auto, using(beam_laws::proofs::Numbering::next_is_free))]
fn load(
    alloc: Global,
    code: &mut CodeTable,
    processes: &mut Processes,
    references: u32,
    instances: &mut u32,
    image: &Image,
) -> Result<Reply, Refused>
    requires ordered { Ordered code.old instances.old }
    requires lawful { AreLawful references processes.old }
    ensures next { (clock count : ℕ) → Answers (node code.old (parts processes.old clock instances.old count)) (Event.Load image.now)
        result (node code.new (parts processes.new clock instances.new count)) }
    ensures memory { (clock count : ℕ) → IsErrOf result Refused.NoMemory
        → is_ok (next (node code.old (parts processes.old clock instances.old count)) (Event.Load image.now)).answer ≡ true }
{
    let loaded = replacement::load(alloc, code, processes, references, instances, image);
    Ok(loaded?)
}

#[tactic(auto, using(beam_laws::proofs::Numbering::next_is_free))]
fn load_strict(
    code: &mut CodeTable,
    processes: &mut Processes,
    instances: &mut u32,
    image: &Image,
) -> Result<Reply, Refused>
    requires { Ordered code.old instances.old }
    ensures next { (clock count : ℕ) → Answers (node code.old (parts processes.old clock instances.old count)) (Event.LoadStrict image.now)
        result (node code.new (parts processes.new clock instances.new count)) }
    ensures memory { (clock count : ℕ) → IsErrOf result Refused.NoMemory
        → is_ok (next (node code.old (parts processes.old clock instances.old count)) (Event.LoadStrict image.now)).answer ≡ true }
{
    Ok(replacement::load_strict(code, processes, instances, image)?)
}

fn atomic_load(
    alloc: Global,
    code: &mut CodeTable,
    processes: &mut Processes,
    references: u32,
    instances: &mut u32,
    mode: UpgradeMode,
    images: &[Image],
) -> Result<Reply, Refused>
    requires ordered { Ordered code.old instances.old }
    requires lawful { AreLawful references processes.old }
    ensures { (clock count : ℕ) → Answers (node code.old (parts processes.old clock instances.old count)) (Event.AtomicLoad mode images.now)
        result (node code.new (parts processes.new clock instances.new count)) }
{
    let loaded = upgrading::atomic_load(
        alloc, code, processes, references, instances, mode, images,
    );
    Ok(loaded?)
}

fn soft_purge(code: &mut CodeTable, processes: &Processes, name: &Atom) -> Result<Reply, Refused>
    ensures next { (clock n count : ℕ) → Answers (node code.old (parts processes.now clock n count)) (Event.SoftPurge name.now)
        result (node code.new (parts processes.now clock n count)) }
    ensures memory { IsErrOf result Refused.NoMemory → ⊥ }
{
    Ok(Reply::Changed(replacement::soft_purge(code, processes, name)))
}

fn purge(
    alloc: Global,
    code: &mut CodeTable,
    processes: &mut Processes,
    references: u32,
    name: &Atom,
) -> Result<Reply, Refused>
    requires { AreLawful references processes.old }
    ensures next { (clock n count : ℕ) → Answers (node code.old (parts processes.old clock n count)) (Event.Purge name.now)
        result (node code.new (parts processes.new clock n count)) }
    ensures memory { (clock n count : ℕ) → IsErrOf result Refused.NoMemory
        → ends_monitored (node code.old (parts processes.old clock n count)) name.now ≡ true }
{
    let ended = replacement::purge(alloc, code, processes, references, name)?;
    Ok(Reply::Changed(ended))
}

impl State {
    /// A module is loaded under the next number: its old code goes, the processes that linger in it end, those that monitor them hear of
    /// it, and its current code becomes old. `Sticky` for the module `erlang`, `TooMany` where 2^32 - 1 instances were loaded.
    pub fn load(&mut self, code: &mut CodeTable, image: &Image) -> Result<Reply, Refused>
        requires { Ordered code.old self.old.instances }
        ensures next { Answers (node code.old self.old) (Event.Load image.now) result (node code.new self.new) }
        ensures memory { LacksMemory (node code.old self.old) (Event.Load image.now) result (node code.new self.new) }
    {
        load(
            self.alloc,
            code,
            &mut self.processes,
            self.references,
            &mut self.instances,
            image,
        )
    }

    /// A module is loaded under the next number, and its current code becomes old. `Sticky` and `TooMany` as of `load`; `NotPurged` where
    /// it has old code, so that no process ends.
    pub fn load_strict(&mut self, code: &mut CodeTable, image: &Image) -> Result<Reply, Refused>
        requires { Ordered code.old self.old.instances }
        ensures next { Answers (node code.old self.old) (Event.LoadStrict image.now) result (node code.new self.new) }
        ensures memory { LacksMemory (node code.old self.old) (Event.LoadStrict image.now) result (node code.new self.new) }
    {
        load_strict(code, &mut self.processes, &mut self.instances, image)
    }

    /// Modules are loaded together under the next numbers, in their order. `Sticky` where `erlang` is among them, `Duplicated` where one is
    /// there twice, `NotPurged` where old code of one stands in the way of that mode, `TooMany` beyond 2^32 - 1 instances: the first of
    /// these. `NoMemory` may stand in place of a refusal, since the tests take memory. A refusal changes nothing.
    pub fn atomic_load(
        &mut self,
        code: &mut CodeTable,
        mode: UpgradeMode,
        images: &[Image],
    ) -> Result<Reply, Refused>
        requires { Ordered code.old self.old.instances }
        ensures next { Answers (node code.old self.old) (Event.AtomicLoad mode images.now) result (node code.new self.new) }
        ensures memory { LacksMemory (node code.old self.old) (Event.AtomicLoad mode images.now) result (node code.new self.new) }
    {
        atomic_load(
            self.alloc,
            code,
            &mut self.processes,
            self.references,
            &mut self.instances,
            mode,
            images,
        )
    }

    /// A module's old code is removed, unless a process lingers in it: then nothing changes.
    pub fn soft_purge(&self, code: &mut CodeTable, name: &Atom) -> Result<Reply, Refused>
        ensures next { Answers (node code.old self.now) (Event.SoftPurge name.now) result (node code.new self.now) }
        ensures memory { LacksMemory (node code.old self.now) (Event.SoftPurge name.now) result (node code.new self.now) }
    {
        soft_purge(code, &self.processes, name)
    }

    /// A module's old code is removed, and the processes that linger in it end; those that monitor them hear of it. It is refused for
    /// memory only where one of them is monitored, and then nothing changes.
    pub fn purge(&mut self, code: &mut CodeTable, name: &Atom) -> Result<Reply, Refused>
        ensures next { Answers (node code.old self.old) (Event.Purge name.now) result (node code.new self.new) }
        ensures memory { LacksMemory (node code.old self.old) (Event.Purge name.now) result (node code.new self.new) }
    {
        purge(self.alloc, code, &mut self.processes, self.references, name)
    }
}
