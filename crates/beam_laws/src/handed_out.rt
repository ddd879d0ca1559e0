//! Laws of a process that is out: checked out, to be run apart from the node.

ghost use Rattle.std.specs.Prelude.{◌≡◌, false, List, Some};
ghost use Rattle.std.specs.List.{AllByRecursion};
ghost use Rattle.beam_machine.specs.declared.debug.DebugEvent.{DebugEvent};
ghost use Rattle.beam_machine.specs.State.{process_of};
ghost use Rattle.beam_machine.specs.Debug.{Debugged, DebugAnswer, is_among, debug_next, debug_run};
ghost use Rattle.beam_machine.specs.DebugRun.{DebugAnswers};
ghost use Rattle.beam_model.specs.Listing.{Listing};
ghost use Rattle.beam_laws.specs.Origin.{Origin};
ghost use Rattle.beam_laws.specs.Out.{IsOut, is_busy};

/// A process is out from its checkout on, and stays out until one of its own events comes: `Steps`, `Deliver`, `Timeout` or `StepOne`.
/// Rows of others, and events of the node and of the debugger, may give it another name or take its name, send signals to it or end it;
/// they leave the rest of it, and whether it is held and may pass a break spot. That holds too where memory is refused for an event.
pub fn others_leave_it_out()
    ensures start { (d : Debugged) (o : Origin) → process_of d.node.processes o.pid ≡ Some o.process → is_among o.pid d.held ≡ false
        → is_among o.pid d.passing ≡ o.passes → IsOut d o }
    ensures event { (d : Debugged) (o : Origin) (e : DebugEvent Listing) → IsOut d o → is_busy o.pid e ≡ false → IsOut (debug_next d e).state o }
    ensures events { (d : Debugged) (o : Origin) (events : List (DebugEvent Listing)) → IsOut d o
        → AllByRecursion (λ e. is_busy o.pid e ≡ false) events → IsOut (debug_run d events).state o }
    ensures answered { (d new : Debugged) (o : Origin) (e : DebugEvent Listing) (a : DebugAnswer) → DebugAnswers d e a new → IsOut d o
        → is_busy o.pid e ≡ false → IsOut new o }
{}
