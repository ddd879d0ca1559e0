//! A law of time.

ghost use Rattle.std.specs.Prelude.{◌≤◌, List};
ghost use Rattle.beam_machine.specs.declared.event.Event.{Event};
ghost use Rattle.beam_model.specs.Listing.{Listing};
ghost use Rattle.beam_machine.specs.State.{State};
ghost use Rattle.beam_machine.specs.Run.{run};

/// The clock never goes back, whatever happens.
pub fn clock_never_falls()
    ensures { (s : State) (events : List (Event Listing)) → s.clock ≤ (run s events).state.clock }
{}
