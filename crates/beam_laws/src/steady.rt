//! A law of events that change neither code nor break spots.

ghost use Rattle.std.specs.Prelude.{◌≡◌, false};
ghost use Rattle.beam_machine.specs.declared.debug.DebugEvent.{DebugEvent};
ghost use Rattle.beam_model.specs.Listing.{Listing};
ghost use Rattle.beam_machine.specs.Debug.{Debugged, debug_next};
ghost use Rattle.beam_laws.specs.Debugger.{AreSpotsLive};
ghost use Rattle.beam_laws.specs.Changes.{may_change};

/// Only a load, a deletion, a purge, and setting and clearing of break spots change the code or the break spots.
pub fn others_change_no_code()
    ensures code { (d : Debugged) (e : DebugEvent Listing) → may_change e ≡ false → (debug_next d e).state.node.code ≡ d.node.code }
    ensures spots { (d : Debugged) (e : DebugEvent Listing) → AreSpotsLive d → may_change e ≡ false → (debug_next d e).state.spots ≡ d.spots }
{}
