//! No place names an instance that is gone.

ghost use Rattle.std.specs.Prelude.{List};
ghost use Rattle.beam_machine.specs.declared.event.Event.{Event};
ghost use Rattle.beam_model.specs.Listing.{Listing};
ghost use Rattle.beam_machine.specs.Change.{AreHome};
ghost use Rattle.beam_machine.specs.State.{State, empty};
ghost use Rattle.beam_machine.specs.Next.{Next, next};
ghost use Rattle.beam_machine.specs.Run.{Run, run};

/// Each event keeps the place, the place after a timeout, each frame and each catch tag of each
/// process that hasn't ended in an instance that is current or old.
pub fn kept()
    ensures { (s : State) (event : Event Listing) → AreHome s.code s.processes → AreHome (next s event).state.code (next s event).state.processes }
{}

/// The places of each process lie in such instances after every list of events from the empty node.
pub fn reached()
    ensures { (events : List (Event Listing)) → AreHome (run empty events).state.code (run empty events).state.processes }
{}
