//! Files, loaded one after another.
ghost use Rattle.std.specs.Prelude.{◌≡◌, ℕ, IfErr, IfOk, List, Ok};
ghost use Rattle.clap.specs.Walk.{texts};
ghost use Rattle.beam_machine.specs.declared.event.Event.TheVariants.{Load};
ghost use Rattle.beam_machine.specs.declared.event.Reply.{Reply as TheReply};
ghost use Rattle.beam_model.specs.Heads.{IsWellFormed};
ghost use Rattle.beam_model.specs.Listing.{Listing};
ghost use Rattle.beam_machine.specs.Next.{next};
ghost use Rattle.beam_machine.specs.State.{State};
ghost use Rattle.beam_tools.specs.Call.{AreFilesOf, IsFileOf, Loads};
ghost use Rattle.beam_tools.specs.Unloaded.{IsFirstUnloaded, IsNotLoaded, IsRefusal};

use crate::fault::{FileFault, FileFaultKind};
use crate::files::Files;
use beam_core::node::Core;
use beam_image::Image;
use beam_machine::event::{Event, Refused};
use std::alloc::Global;

/// Loads a prepared image.
fn load_image(core: &mut Core, image: Image) -> Result<(), Refused>
    ensures loaded { IfOk result (λ _. (reply : TheReply) × (next core.old (Load image) ≡ record { answer = Ok reply; state = core.new })) }
    ensures refused { IfErr result (IsRefusal core.old image) }
{
    let event = Event::Load(image);
    match core.apply(&event) {
        Ok(_) => Ok(()),
        Err(refused) => Err(refused),
    }
}

/// The image of the file of that name.
///
/// `Unread` where the file can't be read, and `BadFile` where it is no module's file. The node may still refuse to load the image.
pub fn image_of<F: Files>(alloc: Global, files: &mut F, name: &str) -> Result<Image, FileFaultKind>
    ensures listing { IfOk result (λ l. IsFileOf (F.contents files.old) name.now l) }
    ensures well_formed { IfOk result (λ l. IsWellFormed l) }
    ensures refused { IfErr result (λ why. (s : State) → IsNotLoaded (F.contents files.old) name.now s why) }
    ensures keeps { (n : List ℕ) → F.contents files.new n ≡ F.contents files.old n }
{
    let bytes = files.read(alloc, name).map_err(FileFaultKind::Unread)?;
    match Image::prepare(alloc, &bytes) {
        Ok(image) => Ok(image),
        Err(error) => Err(FileFaultKind::BadFile(error)),
    }
}

fn load_file<F: Files>(
    alloc: Global,
    core: &mut Core,
    files: &mut F,
    name: &str,
) -> Result<(), FileFaultKind>
    ensures loaded { IfOk result (λ _. (l : Listing) × IsFileOf (F.contents files.old) name.now l × IsWellFormed l
        × ((reply : TheReply) × (next core.old (Load l) ≡ record { answer = Ok reply; state = core.new }))) }
    ensures refused { IfErr result (IsNotLoaded (F.contents files.old) name.now core.old) }
    ensures keeps { (n : List ℕ) → F.contents files.new n ≡ F.contents files.old n }
{
    let image = match image_of(alloc, files, name) {
        Ok(image) => image,
        Err(why) => return Err(why),
    };
    match load_image(core, image) {
        Ok(()) => Ok(()),
        Err(refused) => Err(FileFaultKind::Refused(refused)),
    }
}

/// Loads the files in order, up to the first that isn't loaded.
pub fn load_files<'a, F: Files>(
    alloc: Global,
    core: &mut Core,
    files: &mut F,
    names: &[&'a str],
) -> Result<(), FileFault<'a>>
    ensures loaded { IfOk result (λ _. (ls : List Listing) × Loads core.old ls core.new
        × AreFilesOf (F.contents files.old) (texts names.now) ls) }
    ensures first { IfErr result (λ u. IsFirstUnloaded (F.contents files.old) (texts names.now) core.old u.name.now u.why) }
{
    for name in names {
        if let Err(why) = load_file(alloc, core, files, name) {
            return Err(FileFault { name, why });
        }
    }
    Ok(())
}
