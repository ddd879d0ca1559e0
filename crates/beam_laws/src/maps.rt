//! Laws of the code as a map.

ghost use Rattle.std.specs.Prelude.{◌≡◌, ℕ, false, List, [], ◌∷◌, None, Ok};
ghost use Rattle.beam_machine.specs.declared.event.Event.{Event};
ghost use Rattle.beam_machine.specs.declared.event.Event.TheVariants as event;
ghost use Rattle.beam_machine.specs.declared.event.Reply.{Reply};
ghost use Rattle.beam_model.specs.Listing.{Listing};
ghost use Rattle.beam_model.specs.SameText.{same_text};
ghost use Rattle.beam_machine.specs.Code.{versions_of};
ghost use Rattle.beam_machine.specs.Change.{current_of, old_of};
ghost use Rattle.beam_machine.specs.State.{State, empty};
ghost use Rattle.beam_machine.specs.Next.{next};
ghost use Rattle.beam_machine.specs.Run.{run};
ghost use Rattle.beam_laws.specs.Maps.{IsMap};

/// The code is a map: after every list of events from the empty node each module is there once, and has a current or an old
/// instance.
pub fn code_is_a_map()
    ensures reached { (events : List (Event Listing)) → IsMap (run empty events).state.code }
    ensures kept { (s : State) (event : Event Listing) → IsMap s.code → IsMap (next s event).state.code }
{}

/// A module without code that is loaded, deleted and purged leaves no trace: the code is again that of before.
pub fn module_leaves_no_trace()
    ensures { (s : State) (l : Listing) (r : Reply) → IsMap s.code → current_of s.code l.name ≡ None → old_of s.code l.name ≡ None
        → (next s (event.Load l)).answer ≡ Ok r
        → (run s (event.Load l ∷ event.Delete l.name ∷ event.Purge l.name ∷ [])).state.code ≡ s.code }
{}

/// A load that isn't refused makes the module's current code old, and leaves the other modules as they were.
pub fn load_makes_current_code_old()
    ensures old { (s : State) (l : Listing) (r : Reply) → (next s (event.Load l)).answer ≡ Ok r → old_of (next s (event.Load l)).state.code l.name
        ≡ current_of s.code l.name }
    ensures others { (s : State) (l : Listing) (r : Reply) (other : List ℕ) → (next s (event.Load l)).answer ≡ Ok r → same_text l.name other ≡ false
        → versions_of (next s (event.Load l)).state.code other ≡ versions_of s.code other }
{}
