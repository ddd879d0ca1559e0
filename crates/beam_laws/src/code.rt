//! Laws of the code of a checkout: while other code is loaded and removed, its instances keep their numbers.

ghost use Rattle.std.specs.Prelude.{◌≡◌, true, List};
ghost use Rattle.beam_machine.specs.declared.debug.DebugEvent.{DebugEvent};
ghost use Rattle.beam_machine.specs.Code.{Code};
ghost use Rattle.beam_machine.specs.Debug.{Debugged, DebugAnswer, debug_next, debug_run};
ghost use Rattle.beam_machine.specs.DebugRun.{DebugAnswers};
ghost use Rattle.beam_machine.specs.State.{State};
ghost use Rattle.beam_laws.specs.Numbers.{Ordered};
ghost use Rattle.beam_model.specs.Listing.{Listing};
ghost use Rattle.beam_laws.specs.EarlierCode.{IsEarlierCode, same_numbers};

/// A node's code is kin to the code that it has after any events: the number of an instance never becomes that of another. So where
/// the modules are the same, in one order, and their instances have the same numbers, the code is the same.
pub fn code_stays_kin()
    ensures start { (s : State) → Ordered s.code s.instances → IsEarlierCode s.code s }
    ensures event { (code : Code) (d : Debugged) (e : DebugEvent Listing) → IsEarlierCode code d.node → IsEarlierCode code (debug_next d e).state.node }
    ensures events { (code : Code) (d : Debugged) (events : List (DebugEvent Listing)) → IsEarlierCode code d.node → IsEarlierCode code (debug_run d events).state.node }
    ensures answered { (code : Code) (d new : Debugged) (e : DebugEvent Listing) (a : DebugAnswer) → DebugAnswers d e a new
        → IsEarlierCode code d.node → IsEarlierCode code new.node }
    ensures same { (code : Code) (s : State) → IsEarlierCode code s → same_numbers code s.code ≡ true → code ≡ s.code }
    ensures itself { (code : Code) → same_numbers code code ≡ true }
{}
