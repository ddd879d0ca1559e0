//! Laws of monitors.

ghost use Rattle.std.specs.Prelude.{◌≡◌, ◌≤◌, false, List};
ghost use Rattle.beam_machine.specs.declared.event.Event.{Event};
ghost use Rattle.beam_machine.specs.declared.process.Signal.{Signal};
ghost use Rattle.beam_model.specs.Listing.{Listing};
ghost use Rattle.beam_machine.specs.Code.{Code};
ghost use Rattle.beam_machine.specs.Next.{delivered, next};
ghost use Rattle.beam_machine.specs.Process.{Process, is_ended};
ghost use Rattle.beam_machine.specs.Row.{outcome};
ghost use Rattle.beam_machine.specs.Run.{run};
ghost use Rattle.beam_machine.specs.State.{State, empty};
ghost use Rattle.beam_laws.specs.Monitors.{ArePart, MonitorsNoMore, AreRising};

/// A row of a process, and what arrives at it, take monitors away at most: only the node, where a row asks it, adds one.
pub fn monitors_come_by_the_node_alone()
    ensures row { (code : Code) (p : Process) → is_ended p.status ≡ false → MonitorsNoMore p.monitors (outcome code p) }
    ensures arrival { (p : Process) (signals : List Signal) → ArePart p.monitors (delivered p signals).monitors }
{}

/// The monitors of each process stand in the order of their references, each once, and are of references that the node has made; it
/// never has fewer of those.
pub fn references_rise()
    ensures kept { (s : State) (e : Event Listing) → AreRising s.references s.processes → AreRising (next s e).state.references (next s e).state.processes }
    ensures reached { (events : List (Event Listing)) → AreRising (run empty events).state.references (run empty events).state.processes }
    ensures count { (s : State) (events : List (Event Listing)) → s.references ≤ (run s events).state.references }
{}
