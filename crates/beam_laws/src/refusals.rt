//! Laws of refusals.

ghost use Rattle.std.specs.Prelude.{◌≡◌, ℕ, List, false, Ok, Err};
ghost use Rattle.beam_machine.specs.declared.event.Event.{Event};
ghost use Rattle.beam_machine.specs.declared.event.Event.TheVariants as event;
ghost use Rattle.beam_machine.specs.declared.event.Reply.TheVariants.{Changed};
ghost use Rattle.beam_machine.specs.declared.event.Refused.{Refused};
ghost use Rattle.beam_model.specs.Listing.{Listing};
ghost use Rattle.beam_machine.specs.State.{State};
ghost use Rattle.beam_machine.specs.Next.{next};

/// An event that is refused changes nothing.
pub fn refusal_changes_nothing()
    ensures { (s : State) (e : Event Listing) (r : Refused) → (next s e).answer ≡ Err r → (next s e).state ≡ s }
{}

/// A soft purge that answers false changes nothing.
pub fn soft_purge_in_use_changes_nothing()
    ensures { (s : State) (name : List ℕ) → (next s (event.SoftPurge name)).answer ≡ Ok (Changed false) → (next s (event.SoftPurge name)).state ≡ s }
{}
