//! Upgrade lists: modules that are loaded together, or none of them.
ghost use Rattle.std.specs.Prelude.{◌≡◌, ◌<◌, ◌≤◌, ◌+◌, ◌^◌, ◌++◌, ◌∷◌, ◌||◌, ℕ, Bool, [], not, if◌then◌else◌, length, map, IfOk, OnOk, MatchOption};
ghost use Rattle.std.specs.List.{list_any};
ghost use Rattle.beam_model.specs.NativeNames.{is_erlang};
ghost use Rattle.beam_model.specs.SameText.{same_text};
ghost use Rattle.beam_machine.specs.Next.{are_apart, numbers_of};
ghost use Rattle.beam_laws.specs.Numbers.{Ordered};
ghost use Rattle.beam_laws.specs.Upgrades.{loaded_each};
ghost use Rattle.beam_codesrv.specs.Several.{passes, AreOld};

use crate::code_table::CodeTable;
use beam_bif::built_in::is_erlang;
use beam_image::Image;
use beam_machine::event::Numbers;
use beam_term::Atom;
use indexmap::IndexSet;
use std::alloc::{AllocError, Global};

/// Whether `erlang` is among the modules.
pub fn any_is_erlang(images: &[Image]) -> bool
    ensures { result ≡ list_any (λ l. is_erlang l.name) images.now }
{
    images.iter().any(|image| is_erlang(image.module()))
}

/// Adds a name at the end of those before it, and says whether it is new.
fn add(seen: &mut IndexSet<Atom>, name: Atom) -> Result<bool, AllocError>
    ensures new { IfOk result (λ is_new. is_new ≡ not (list_any (same_text name) seen.old.keys)) }
    ensures keys { IfOk result (λ is_new. seen.new.keys ≡ (if is_new then seen.old.keys ++ name ∷ [] else seen.old.keys)) }
{
    Ok(seen.insert(name)?)
}

/// Whether no module is there twice. `Err` for want of memory alone.
#[tactic(auto, using(crate::proofs::Apart::after_none))]
pub fn are_apart(alloc: Global, images: &[Image]) -> Result<bool, AllocError>
    ensures { IfOk result (λ apart. apart ≡ are_apart images.now) }
{
    let mut seen = IndexSet::<Atom>::new(alloc);
    let mut rest = images;
    while let Some((image, others)) = rest.split_first() {
        if !add(&mut seen, image.module().clone()?)? {
            return Ok(false);
        }
        rest = others;
    }
    Ok(true)
}

/// Adds a number, if there is one, to a set that may have it.
fn add_number(numbers: &mut IndexSet<u32>, number: Option<u32>) -> Result<(), AllocError>
    ensures { OnOk result ((test : ℕ → Bool) → list_any test numbers.new.keys ≡ (list_any test numbers.old.keys || passes test number)) }
{
    match number {
        Some(number) => {
            numbers.insert(number)?;
            Ok(())
        }
        None => Ok(()),
    }
}

impl CodeTable {
    /// The numbers of the old instances of these modules, found by a look-up each. `Err` for want of memory alone.
    pub fn old_numbers(&self, alloc: Global, images: &[Image]) -> Result<IndexSet<u32>, AllocError>
        ensures { IfOk result (λ numbers. AreOld self.now images.now numbers.keys) }
    {
        let mut numbers = IndexSet::new(alloc);
        let mut rest = images;
        while let Some((image, others)) = rest.split_first() {
            add_number(&mut numbers, self.old(image.module()))?;
            rest = others;
        }
        Ok(numbers)
    }

    /// Puts in images one after another, under the numbers after the count. After an `Err` some of them are there.
    fn put_each(&mut self, count: u32, images: &[Image]) -> Result<(), AllocError>
        requires ordered { Ordered self.old count }
        requires room { count + length images.now < 2 ^ 32 }
        ensures { OnOk result (self.new ≡ loaded_each self.old count images.now) }
    {
        let mut count = count;
        let mut rest = images;
        while let Some((image, others)) = rest.split_first() {
            count += 1;
            self.put(count, image)?;
            rest = others;
        }
        Ok(())
    }

    /// The numbers of the instances of these modules.
    fn numbers_of(&self, alloc: Global, images: &[Image]) -> Result<Vec<Numbers>, AllocError>
        ensures { IfOk result (λ numbers. numbers.items ≡ map (numbers_of self.now) images.now) }
    {
        let mut numbers = Vec::with_capacity(alloc, images.len())?;
        for image in images {
            let name = image.module();
            numbers.push(Numbers {
                current: self.current(name),
                old: self.old(name),
            })?;
        }
        Ok(numbers)
    }

    /// The table with these images under the numbers after the count, in their order, and the numbers of their instances. The given
    /// table stays as it is. `Err` for want of memory alone.
    pub fn upgraded(
        &self,
        alloc: Global,
        count: u32,
        images: &[Image],
    ) -> Result<(CodeTable, Vec<Numbers>), AllocError>
        requires ordered { Ordered self.now count }
        requires room { count + length images.now < 2 ^ 32 }
        ensures table { IfOk result (λ r. r.0 ≡ loaded_each self.now count images.now) }
        ensures numbers { IfOk result (λ r. r.1.items ≡ map (numbers_of (loaded_each self.now count images.now)) images.now) }
    {
        let mut table = self.try_copy()?;
        table.put_each(count, images)?;
        let numbers = table.numbers_of(alloc, images)?;
        Ok((table, numbers))
    }
}

/// The count of instances with these images, if it is below 2^32.
pub fn count_after(count: u32, images: &[Image]) -> Option<u32>
    ensures { MatchOption result (2 ^ 32 ≤ count + length images.now) (λ sum. sum ≡ count + length images.now) }
{
    count.checked_add(u32::try_from(images.len()).ok()?)
}
