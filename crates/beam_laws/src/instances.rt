//! Laws of the numbers of instances.

ghost use Rattle.std.specs.Prelude.{◌≡◌, ◌≤◌, ◌+◌, ℕ, List, true, false, Some, Ok};
ghost use Rattle.beam_machine.specs.declared.event.Event.{Event};
ghost use Rattle.beam_machine.specs.declared.event.Event.TheVariants as event;
ghost use Rattle.beam_machine.specs.declared.event.Reply.{Reply};
ghost use Rattle.beam_model.specs.Listing.{Listing};
ghost use Rattle.beam_machine.specs.Change.{current_of, is_live};
ghost use Rattle.beam_machine.specs.State.{State, empty};
ghost use Rattle.beam_machine.specs.Next.{next};
ghost use Rattle.beam_machine.specs.Run.{run};
ghost use Rattle.beam_laws.specs.Numbers.{how_many};

/// Of the instances that a node has, current or old, no two bear one number, and none bears a number above the count of those that
/// were ever loaded.
pub fn numbers_are_given_once()
    ensures once { (events : List (Event Listing)) (n : ℕ) → how_many n (run empty events).state.code ≤ 1 }
    ensures given { (events : List (Event Listing)) (n : ℕ) → is_live (run empty events).state.code n ≡ true → n ≤ (run empty events).state.instances }
{}

/// The count of instances never falls, and a number that was given and is gone never comes back.
pub fn numbers_never_return()
    ensures count { (s : State) (events : List (Event Listing)) → s.instances ≤ (run s events).state.instances }
    ensures gone { (s : State) (events : List (Event Listing)) (n : ℕ) → n ≤ s.instances → is_live s.code n ≡ false
        → is_live (run s events).state.code n ≡ false }
{}

/// A load that isn't refused makes an instance of the next number the current one of its module.
pub fn load_takes_the_next_number()
    ensures load { (s : State) (l : Listing) (r : Reply) → (next s (event.Load l)).answer ≡ Ok r
        → (current_of (next s (event.Load l)).state.code l.name ≡ Some (s.instances + 1)) × ((next s (event.Load l)).state.instances ≡ s.instances + 1) }
    ensures strict { (s : State) (l : Listing) (r : Reply) → (next s (event.LoadStrict l)).answer ≡ Ok r
        → (current_of (next s (event.LoadStrict l)).state.code l.name ≡ Some (s.instances + 1)) × ((next s (event.LoadStrict l)).state.instances
        ≡ s.instances + 1) }
{}
