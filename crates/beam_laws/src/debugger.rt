//! Laws of the debugger: it changes nothing of the node but how many rows are done.

ghost use Rattle.std.specs.Prelude.{◌≡◌, List};
ghost use Rattle.beam_machine.specs.declared.debug.DebugEvent.{DebugEvent};
ghost use Rattle.beam_machine.specs.declared.debug.DebugEvent.TheVariants.{Node};
ghost use Rattle.beam_machine.specs.declared.event.Event.{Event};
ghost use Rattle.beam_model.specs.Listing.{Listing};
ghost use Rattle.beam_machine.specs.Debug.{Debugged, undisturbed, debug_next, debug_run, erase, of_node};
ghost use Rattle.beam_machine.specs.Next.{next};
ghost use Rattle.beam_machine.specs.Run.{run};
ghost use Rattle.beam_machine.specs.State.{State};
ghost use Rattle.beam_laws.specs.Debugger.{AreSpotsLive, AreHeldLive};

/// A list of events with the debugger's among them leads to the same state of the node as the list without them, in which each run of
/// rows is as long as it was.
pub fn debugger_changes_nothing_else()
    ensures { (d : Debugged) (events : List (DebugEvent Listing)) → (run d.node (erase d events)).state ≡ (debug_run d events).state.node }
{}

/// Where there is no break spot and no process is held, an event of the node is what it is without the debugger.
pub fn undisturbed_events_are_the_nodes()
    ensures { (s : State) (e : Event Listing) → debug_next (undisturbed s) (Node e) ≡ of_node (undisturbed s) (next s e) }
{}

/// From a node without break spots on, each break spot lies in an instance that is current or old, and each process that is held
/// hasn't ended.
pub fn spots_and_held_are_live()
    ensures spots { (s : State) (events : List (DebugEvent Listing)) → AreSpotsLive (debug_run (undisturbed s) events).state }
    ensures held { (s : State) (events : List (DebugEvent Listing)) → AreHeldLive (debug_run (undisturbed s) events).state }
{}
