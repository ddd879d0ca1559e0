//! The frames of each process have the shapes of an assignment, each by the listing of its own instance.

ghost use Rattle.std.specs.Prelude.{List};
ghost use Rattle.beam_machine.specs.declared.debug.DebugEvent.{DebugEvent};
ghost use Rattle.beam_machine.specs.declared.event.Event.{Event};
ghost use Rattle.beam_machine.specs.Debug.{Debugged, DebugAnswer, DebugNext, debug_next};
ghost use Rattle.beam_machine.specs.DebugRun.{DebugAnswers};
ghost use Rattle.beam_machine.specs.Next.{Answer, Next, next};
ghost use Rattle.beam_machine.specs.Run.{Run, run, Answers};
ghost use Rattle.beam_machine.specs.State.{State, empty};
ghost use Rattle.beam_model.specs.Listing.{Listing};
ghost use Rattle.beam_shape_laws.specs.Shaped.{IsFramedNode, LoadsFramed, LoadFramed, DebugLoadsFramed};

/// The y registers of a process's newest frame have the shape of its place, and the y registers of each older frame the shape of the
/// place to which the frame above it returns, in that place's own instance, current or old. Each catch tag leads to its label's row
/// there; the first tag of a frame that waits for a return leads to a place that the frame's y registers fit. Each event keeps this,
/// where the listings that it loads keep the rules and are framed, with and without the debugger, and where memory is refused. So this
/// holds after every list of such events from the empty node.
pub fn frames_stay_framed()
    ensures event { (s : State) (e : Event Listing) → LoadsFramed e → IsFramedNode s → IsFramedNode (next s e).state }
    ensures events { (events : List (Event Listing)) → LoadFramed events → IsFramedNode (run empty events).state }
    ensures answered { (s t : State) (e : Event Listing) (a : Answer) → Answers s e a t → LoadsFramed e → IsFramedNode s → IsFramedNode t }
    ensures debugger { (d : Debugged) (e : DebugEvent Listing) → DebugLoadsFramed e → IsFramedNode d.node → IsFramedNode (debug_next d e).state.node }
    ensures debugger_answered { (d new : Debugged) (e : DebugEvent Listing) (a : DebugAnswer) → DebugAnswers d e a new → DebugLoadsFramed e
        → IsFramedNode d.node → IsFramedNode new.node }
{}
