//! The premises of the laws are met: two states, computed from the definitions.
#![tactic(auto, unfolding(beam_machine::specs::Code::step_of, beam_machine::specs::Code::entry_of, beam_machine::specs::Callee::callee_named, beam_model::specs::NativeNames::built_in_of))]

ghost use Rattle.std.specs.Prelude.{◌≡◌, [], ◌∷◌, ◌++◌, Some, Ok, option_map, codes};
ghost use Rattle.beam_machine.specs.declared.action.Action.TheVariants.{Control};
ghost use Rattle.beam_machine.specs.declared.action.Control.TheVariants.{CallExternalOnly};
ghost use Rattle.beam_machine.specs.declared.callee.Callee.TheVariants.{Function};
ghost use Rattle.beam_machine.specs.declared.event.Event.TheVariants.{Steps};
ghost use Rattle.beam_machine.specs.declared.event.Reply.TheVariants.{Ran};
ghost use Rattle.beam_machine.specs.declared.event.Then.TheVariants.{GoesOn};
ghost use Rattle.beam_machine.specs.declared.process.Signal.TheVariants.{Down};
ghost use Rattle.beam_machine.specs.Next.{next};
ghost use Rattle.beam_machine.specs.Process.{Process, own_pid};
ghost use Rattle.beam_machine.specs.State.{live_process, process_of};
ghost use Rattle.beam_model.specs.Place.{Place};
ghost use Rattle.beam_laws.specs.Story.{Happens, after, place_after};
ghost use Rattle.beam_laws.specs.Terms.{atom};
ghost use Rattle.beam_next_laws.specs.Heard.{EndsBetween};
ghost use Rattle.beam_next_laws.specs.Places.{StandsAt, IsCurrentEntry};
ghost use Rattle.beam_next_laws.specs.Worked.{watched, in_old_code};

/// Process 2 ends, with reason boom, and process 1, which has one monitor of it, is sent one DOWN.
pub fn a_watched_process_ends()
    ensures story { Happens watched }
    ensures ends { EndsBetween 2 (atom "boom") (after watched) (next (after watched) (Steps 2 100)).state }
    ensures monitors { option_map (λ q. q.monitors) (live_process (after watched).processes 1) ≡ Some (record { reference = 1; pid = own_pid 2 } ∷ []) }
    ensures before { option_map (λ q. q.transit) (live_process (after watched).processes 1) ≡ Some [] }
    ensures came { option_map (λ r. r.transit) (live_process (next (after watched) (Steps 2 100)).state.processes 1) ≡ Some (Down 1 (atom "boom") ∷ []) }
{}

/// A process in instance 1 of a module, which is old, calls a function by the module's name, and is in instance 2.
pub fn an_old_caller_enters_current_code()
    ensures story { Happens in_old_code }
    ensures stands { (p : Process) × (row : Place) × (process_of (after in_old_code).processes 1 ≡ Some p)
        × StandsAt (after in_old_code).code p (Control (CallExternalOnly (Function (codes "h") (codes "v") 0))) row × (row.instance ≡ 1) }
    ensures entry { (entry : Place) × IsCurrentEntry (after in_old_code).code (codes "h") (codes "v") 0 entry × (entry.instance ≡ 2) }
    ensures enters { place_after (in_old_code ++ (Steps 1 1, Ok (Ran 1 GoesOn)) ∷ []) 1 ≡ Some 2 }
{}
