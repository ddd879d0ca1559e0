//! Stories of the debugger.

ghost use Rattle.std.specs.Prelude.{◌≡◌, [], ◌∷◌, ◌++◌, true, false, Some, None, Ok, Err, codes};
ghost use Rattle.beam_machine.specs.declared.debug.DebugEvent.TheVariants.{Node as NodeEvent, SetBreak, ClearBreak, Resume, StepOne};
ghost use Rattle.beam_machine.specs.declared.debug.DebugReply.TheVariants.{Node, Held};
ghost use Rattle.beam_machine.specs.declared.debug.Version.TheVariants.{Current, Old};
ghost use Rattle.beam_machine.specs.declared.event.Event.TheVariants.{Load, Purge, Spawn, Steps};
ghost use Rattle.beam_machine.specs.declared.event.Reply.TheVariants.{Done, Changed, Versions, Started, Ran};
ghost use Rattle.beam_machine.specs.declared.event.Then.TheVariants.{GoesOn, Ended};
ghost use Rattle.beam_machine.specs.declared.event.Refused.TheVariants.{Stopped, BadSpot, NotReady, NoProcess};
ghost use Rattle.beam_machine.specs.Process.{normal};
ghost use Rattle.beam_laws.specs.Listings.{g, r};
ghost use Rattle.beam_laws.specs.Debugging.{Happens, before_sum, seen_after, spot, sum_seen};
ghost use Rattle.beam_laws.specs.Terms.{integer};

/// A process stops before the row of a break spot, runs rows one by one while it is held, and goes on when it is let go.
pub fn a_process_stops_at_a_break_spot()
    ensures { Happens (before_sum ++
        (SetBreak (spot Current "t" 5 1), Ok (Node (Changed true)))
        ∷ (SetBreak (spot Current "t" 5 1), Ok (Node (Changed false)))
        ∷ (SetBreak (spot Current "t" 7 0), Err BadSpot)
        ∷ (SetBreak (spot Old "t" 5 1), Err BadSpot)
        ∷ (Resume 1, Err NotReady)
        ∷ (NodeEvent (Steps 1 100), Ok (Held 5))
        ∷ (NodeEvent (Steps 1 100), Err Stopped)
        ∷ (StepOne 1, Ok (Held 1))
        ∷ (Resume 1, Ok (Node Done))
        ∷ (NodeEvent (Steps 1 100), Ok (Held 3))
        ∷ (ClearBreak (spot Current "t" 5 1), Ok (Node (Changed true)))
        ∷ (ClearBreak (spot Current "t" 5 1), Ok (Node (Changed false)))
        ∷ (Resume 1, Ok (Node Done))
        ∷ (NodeEvent (Steps 1 100), Ok (Node (Ran 13 (Ended normal (integer 10)))))
        ∷ []) }
{}

/// A break spot stays with its instance when that becomes old, and goes with it. A purge ends a held process that lingers there.
pub fn a_break_spot_stays_with_its_instance()
    ensures { Happens (
        (NodeEvent (Load (g 1)), Ok (Node (Versions (Some 1) None)))
        ∷ (NodeEvent (Spawn (codes "g") (codes "a") []), Ok (Node (Started 1)))
        ∷ (SetBreak (spot Current "g" 2 2), Ok (Node (Changed true)))
        ∷ (NodeEvent (Steps 1 2), Ok (Node (Ran 2 GoesOn)))
        ∷ (NodeEvent (Load (g 2)), Ok (Node (Versions (Some 2) (Some 1))))
        ∷ (NodeEvent (Steps 1 100), Ok (Held 3))
        ∷ (SetBreak (spot Old "g" 2 2), Ok (Node (Changed false)))
        ∷ (SetBreak (spot Current "g" 2 2), Ok (Node (Changed true)))
        ∷ (SetBreak (spot Current "g" 2 99), Err BadSpot)
        ∷ (NodeEvent (Purge (codes "g")), Ok (Node (Changed true)))
        ∷ (ClearBreak (spot Old "g" 2 2), Err BadSpot)
        ∷ (ClearBreak (spot Current "g" 2 2), Ok (Node (Changed true)))
        ∷ (Resume 1, Err NoProcess)
        ∷ (StepOne 1, Err NoProcess)
        ∷ []) }
{}

/// A held process that waits stays held; it neither steps nor runs until it is let go and goes on.
pub fn a_held_process_may_wait()
    ensures { Happens (
        (NodeEvent (Load r), Ok (Node (Versions (Some 1) None)))
        ∷ (NodeEvent (Spawn (codes "r") (codes "get") []), Ok (Node (Started 1)))
        ∷ (SetBreak (spot Current "r" 5 0), Ok (Node (Changed true)))
        ∷ (StepOne 1, Err NotReady)
        ∷ (NodeEvent (Steps 1 100), Ok (Held 3))
        ∷ (StepOne 1, Ok (Held 1))
        ∷ (StepOne 1, Err NotReady)
        ∷ (NodeEvent (Steps 1 100), Err Stopped)
        ∷ (Resume 1, Ok (Node Done))
        ∷ (Resume 1, Err NotReady)
        ∷ (NodeEvent (Steps 1 100), Err NotReady)
        ∷ []) }
{}

/// The view of a process that runs, and of the same process when it is held.
pub fn a_process_is_seen()
    ensures running { seen_after (before_sum ++ (NodeEvent (Steps 1 5), Ok (Node (Ran 5 GoesOn))) ∷ []) 1 ≡ Some (sum_seen "running") }
    ensures held { seen_after (before_sum ++
        (SetBreak (spot Current "t" 5 1), Ok (Node (Changed true)))
        ∷ (NodeEvent (Steps 1 100), Ok (Held 5))
        ∷ []) 1 ≡ Some (sum_seen "held") }
{}
