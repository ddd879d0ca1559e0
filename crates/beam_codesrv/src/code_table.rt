//! The code: the modules by name, and the instances by number.
ghost use Rattle.std.specs.Prelude.{◌≡◌, ◌≤◌, ℕ, List, [], Some, None, OnOk, OnErr, nat_eq};
ghost use Rattle.std.specs.Map.{lookup};
ghost use Rattle.std.specs.Option.{option_copied};
ghost use Rattle.indexmap.specs.IndexMap.{get, insert_entry, IsUnique};
ghost use Rattle.beam_model.specs.SameText.{same_text};
ghost use Rattle.beam_machine.specs.Change.{current_of, old_of, loaded, deleted, purged, is_live};
ghost use Rattle.beam_machine.specs.Code.{versions_of, listing_of, step_of, entry_of};
ghost use Rattle.beam_machine.specs.Next.{replied, versions_reply, next_delete};
ghost use Rattle.beam_machine.specs.Process.{Process as TheProcess};
ghost use Rattle.beam_machine.specs.declared.event.Reply.TheVariants.{Changed};
ghost use Rattle.beam_laws.specs.Numbers.{how_many};
ghost use Rattle.beam_codesrv.specs.Homes.{with_change, is_bare, tidied, dropped_of, with_home, without};
ghost use Rattle.beam_codesrv.specs.Replacement.{node};

use crate::versions::{Instance, Versions};
use beam_image::Image;
use beam_machine::action::Step;
use beam_machine::event::Reply;
use beam_model::place::Place;
use beam_term::Atom;
use indexmap::IndexMap;
use std::alloc::{AllocError, Global};
use std::marker::Model;

/// The modules of a node, each with its current and its old instance. A module without an instance isn't there. Contracts see the
/// code. An instance is found at once by its number, and a module by its name.
pub struct CodeTable {
    pub(crate) modules: IndexMap<Atom, Versions>,
    // the image of each instance
    pub(crate) homes: IndexMap<u32, Image>,
}

impl Drop for CodeTable {
    fn drop(self) {
        let CodeTable {
            modules: _modules,
            homes: _homes,
        } = self;
    }
}

impl Model for CodeTable {
    ghost use Rattle.std.specs.Prelude.{nat_eq};
    ghost use Rattle.std.specs.Coded.{codes};
    ghost use Rattle.indexmap.specs.IndexMap.{get};
    ghost use Rattle.beam_term.specs.Coding.{term_code};
    ghost use Rattle.beam_machine.specs.Code.{Code};
    ghost use Rattle.beam_codesrv.specs.Homes.{code_of, IsIndexOf};

    ghost Value = { Code };

    ghost coded = { Prim.hlevel (codes, term_code) };

    ghost view = { λ t. code_of t.modules.entries };

    ghost invariant = { λ t. IsIndexOf (get nat_eq t.homes) (code_of t.modules.entries) };
}

/// Takes out the home of an instance that goes.
fn forget(homes: &mut IndexMap<u32, Image>, dropped: Option<u32>)
    ensures { (n : ℕ) → get nat_eq homes.new n ≡ without dropped (get nat_eq homes.old) n }
{
    if let Some(number) = dropped {
        homes.swap_remove(&number);
    }
}

/// Whether a module is there without an instance.
fn is_bare(modules: &IndexMap<Atom, Versions>, name: &Atom) -> bool
    ensures { result ≡ is_bare (lookup (same_text name.now) modules.now.entries) }
{
    match modules.get(name) {
        Some(versions) => versions.is_empty(),
        None => false,
    }
}

/// Takes out a module that has no instance.
fn tidy(modules: &mut IndexMap<Atom, Versions>, name: &Atom)
    ensures { modules.new.entries ≡ tidied name.now modules.old.entries }
{
    if is_bare(modules, name) {
        modules.shift_remove(name);
    }
}

/// Makes an instance the current one of a module that is there.
fn load_in(modules: &mut IndexMap<Atom, Versions>, name: &Atom, instance: Instance) -> Option<u32>
    ensures entries { modules.new.entries ≡ with_change (λ v. (Some instance, v.0)) name.now modules.old.entries }
    ensures dropped { result ≡ dropped_of name.now modules.old.entries }
{
    modules.get_mut(name)?.load(instance)
}

fn delete_in(modules: &mut IndexMap<Atom, Versions>, name: &Atom) -> Option<u32>
    ensures entries { modules.new.entries ≡ with_change (λ v. (None, v.0)) name.now modules.old.entries }
    ensures dropped { result ≡ dropped_of name.now modules.old.entries }
    ensures unique { IsUnique same_text modules.old }
{
    modules.get_mut(name)?.delete()
}

fn purge_in(modules: &mut IndexMap<Atom, Versions>, name: &Atom) -> Option<u32>
    ensures entries { modules.new.entries ≡ with_change (λ v. (v.0, None)) name.now modules.old.entries }
    ensures dropped { result ≡ dropped_of name.now modules.old.entries }
    ensures unique { IsUnique same_text modules.old }
{
    modules.get_mut(name)?.purge()
}

/// Loads an instance of a module that is there. It takes the memory first.
fn load_again(
    modules: &mut IndexMap<Atom, Versions>,
    homes: &mut IndexMap<u32, Image>,
    name: &Atom,
    home: Image,
    instance: Instance,
) -> Result<(), AllocError>
    ensures modules { OnOk result (modules.new.entries ≡ with_change (λ v. (Some instance, v.0)) name.now modules.old.entries) }
    ensures homes { OnOk result ((n : ℕ) → get nat_eq homes.new n
        ≡ without (dropped_of name.now modules.old.entries) (with_home instance.number home (get nat_eq homes.old)) n) }
    ensures err { OnErr result ((modules.new.entries ≡ modules.old.entries) × (homes.new.entries ≡ homes.old.entries)) }
{
    homes.reserve(1)?;
    let number = instance.number;
    let dropped = load_in(modules, name, instance);
    homes.insert(number, home)?;
    forget(homes, dropped);
    Ok(())
}

/// Loads the first instance of a module. It takes the memory first.
fn load_first(
    modules: &mut IndexMap<Atom, Versions>,
    homes: &mut IndexMap<u32, Image>,
    name: Atom,
    home: Image,
    instance: Instance,
) -> Result<(), AllocError>
    ensures modules { OnOk result (modules.new.entries ≡ insert_entry same_text modules.old.entries name (Some instance, None)) }
    ensures homes { OnOk result ((n : ℕ) → get nat_eq homes.new n ≡ with_home instance.number home (get nat_eq homes.old) n) }
    ensures err { OnErr result ((modules.new.entries ≡ modules.old.entries) × (homes.new.entries ≡ homes.old.entries)) }
{
    homes.reserve(1)?;
    let number = instance.number;
    modules.insert(name, Versions::first(instance))?;
    homes.insert(number, home)?;
    Ok(())
}

impl CodeTable {
    /// A code table without modules.
    pub fn new(alloc: Global) -> CodeTable
        ensures { result ≡ [] }
    {
        CodeTable {
            modules: IndexMap::new(alloc),
            homes: IndexMap::new(alloc),
        }
    }

    /// Whether the instance of that number is current or old. At most one instance has that number.
    pub fn is_live(&self, number: u32) -> bool
        ensures live { result ≡ is_live self.now number }
        ensures once { how_many number self.now ≤ 1 }
    {
        self.homes.contains_key(&number)
    }

    /// The image of the instance of that number, current or old.
    pub fn image_of(&self, number: u32) -> Option<&Image>
        ensures { option_copied result ≡ listing_of self.now number }
    {
        self.homes.get(&number)
    }

    /// The row at a place. The time doesn't grow with the number of modules.
    #[tactic(auto, unfolding(beam_machine::specs::Code::step_of))]
    pub fn step_of(&self, place: Place) -> Option<Step<'_>>
        ensures { result ≡ step_of self.now place }
    {
        self.image_of(place.instance())?.step(place.at())
    }

    /// The current instance of a module.
    fn current_instance(&self, name: &Atom) -> Option<&Instance>
        ensures { option_copied result ≡ (versions_of self.now name.now).current }
    {
        self.modules.get(name)?.current()
    }

    /// The entry of an exported function of a module's current instance.
    #[tactic(auto, unfolding(beam_machine::specs::Code::entry_of))]
    pub fn entry_of(&self, name: &Atom, function: &Atom, arity: u32) -> Option<Place>
        ensures { result ≡ entry_of self.now name.now function.now arity }
    {
        let instance = self.current_instance(name)?;
        instance.image.entry(function, arity, instance.number)
    }

    /// The number of a module's current instance.
    pub fn current(&self, name: &Atom) -> Option<u32>
        ensures { result ≡ current_of self.now name.now }
    {
        self.modules.get(name)?.current_number()
    }

    /// The number of a module's old instance.
    pub fn old(&self, name: &Atom) -> Option<u32>
        ensures { result ≡ old_of self.now name.now }
    {
        self.modules.get(name)?.old_number()
    }

    /// The reply with the numbers of a module's instances.
    pub fn versions(&self, name: &Atom) -> Reply
        ensures { result ≡ versions_reply self.now name.now }
    {
        Reply::Versions {
            current: self.current(name),
            old: self.old(name),
        }
    }

    /// Puts in an instance under a number that no instance has: it becomes its module's current one, the current one becomes old,
    /// and the old one goes. A module that is new comes last. An `Err` changes nothing.
    pub fn put(&mut self, number: u32, image: &Image) -> Result<(), AllocError>
        requires fresh { listing_of self.old number ≡ None }
        ensures ok { OnOk result (self.new ≡ loaded self.old number image.now) }
        ensures err { OnErr result (self.new ≡ self.old) }
    {
        let instance = Instance {
            number,
            image: image.try_share()?,
        };
        let home = image.try_share()?;
        let name = image.module().clone()?;
        if self.modules.contains_key(&name) {
            load_again(&mut self.modules, &mut self.homes, &name, home, instance)?;
        } else {
            load_first(&mut self.modules, &mut self.homes, name, home, instance)?;
        }
        Ok(())
    }

    /// Makes the current instance of a module old. Its old instance goes.
    pub fn retire(&mut self, name: &Atom)
        ensures { self.new ≡ deleted self.old name.now }
    {
        let dropped = delete_in(&mut self.modules, name);
        tidy(&mut self.modules, name);
        forget(&mut self.homes, dropped);
    }

    /// Makes a module's current code old, where it has current code and no old code, and tells whether it has. It takes no memory.
    pub fn delete(&mut self, name: &Atom) -> bool
        ensures { (ps : List TheProcess) (clock n references : ℕ) → next_delete (node self.old ps clock n references) name.now
            ≡ replied (node self.new ps clock n references) (Changed result) }
    {
        let changes = self.current(name).is_some() && self.old(name).is_none();
        if changes {
            self.retire(name);
        }
        changes
    }

    /// Removes the old instance of a module.
    pub fn drop_old(&mut self, name: &Atom)
        ensures { self.new ≡ purged self.old name.now }
    {
        let dropped = purge_in(&mut self.modules, name);
        tidy(&mut self.modules, name);
        forget(&mut self.homes, dropped);
    }
}
