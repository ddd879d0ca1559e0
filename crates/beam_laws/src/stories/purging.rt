//! Stories of purges.

ghost use Rattle.std.specs.Prelude.{◌≡◌, [], ◌∷◌, ◌++◌, true, false, Some, None, Ok, Err, codes};
ghost use Rattle.beam_machine.specs.declared.event.Event.TheVariants.{Load, LoadStrict, SoftPurge, Purge, Spawn, Steps};
ghost use Rattle.beam_machine.specs.declared.event.Reply.TheVariants.{Changed, Versions, Started, Ran};
ghost use Rattle.beam_machine.specs.declared.event.Then.TheVariants.{GoesOn, Ended as EndedThen};
ghost use Rattle.beam_machine.specs.declared.event.Refused.TheVariants.{NoProcess, NotPurged};
ghost use Rattle.beam_machine.specs.declared.process.Status.TheVariants.{Ended};
ghost use Rattle.beam_machine.specs.Process.{normal, killed};
ghost use Rattle.beam_term.specs.TermValue.{nil_term};
ghost use Rattle.beam_laws.specs.Listings.{g};
ghost use Rattle.beam_laws.specs.Beginnings.{within_the_call, with_a_tag, with_a_deadline};
ghost use Rattle.beam_laws.specs.Story.{Happens, after, status_after, place_after, frames_after};
ghost use Rattle.beam_laws.specs.Terms.{integer};

/// A purge ends a process that has only a frame in old code. Then there is no old code, and a second purge ends none.
pub fn a_purge_ends_what_lingers_by_a_frame()
    ensures place { place_after within_the_call 1 ≡ Some 2 }
    ensures frames { frames_after within_the_call 1 ≡ Some (1 ∷ []) }
    ensures answers { Happens (within_the_call ++ (
        (Purge (codes "g"), Ok (Changed true))
        ∷ (Purge (codes "g"), Ok (Changed false))
        ∷ (Steps 1 1, Err NoProcess)
        ∷ [])) }
    ensures ends { status_after (within_the_call ++ (Purge (codes "g"), Ok (Changed true)) ∷ []) 1 ≡ Some (Ended killed nil_term) }
{}

/// A soft purge answers false while a process lingers, and true after it has returned.
pub fn a_soft_purge_removes_what_none_lingers_in()
    ensures { Happens (within_the_call ++ (
        (SoftPurge (codes "g"), Ok (Changed false))
        ∷ (Steps 1 4, Ok (Ran 4 (EndedThen normal (integer 2))))
        ∷ (SoftPurge (codes "g"), Ok (Changed true))
        ∷ [])) }
{}

/// A soft purge that answers false changes nothing.
pub fn a_soft_purge_of_code_in_use_changes_nothing()
    ensures answers { Happens (within_the_call ++ (SoftPurge (codes "g"), Ok (Changed false)) ∷ []) }
    ensures state { after (within_the_call ++ (SoftPurge (codes "g"), Ok (Changed false)) ∷ []) ≡ after within_the_call }
{}

/// A strict load is refused while there is old code; a load purges it, which ends the process.
pub fn a_load_purges_old_code_and_a_strict_load_is_refused()
    ensures answers { Happens (within_the_call ++ (
        (LoadStrict (g 3), Err NotPurged)
        ∷ (Load (g 3), Ok (Versions (Some 3) (Some 2)))
        ∷ [])) }
    ensures ends { status_after (within_the_call ++ (Load (g 3), Ok (Versions (Some 3) (Some 2))) ∷ []) 1 ≡ Some (Ended killed nil_term) }
{}

/// A process lingers by a catch tag alone, until the tag is gone.
pub fn a_process_lingers_by_a_catch_tag()
    ensures place { place_after with_a_tag 1 ≡ Some 2 }
    ensures frames { frames_after with_a_tag 1 ≡ Some [] }
    ensures answers { Happens (with_a_tag ++ (
        (SoftPurge (codes "l"), Ok (Changed false))
        ∷ (Steps 1 1, Ok (Ran 1 GoesOn))
        ∷ (SoftPurge (codes "l"), Ok (Changed true))
        ∷ (Steps 1 100, Ok (Ran 3 (EndedThen normal (integer 2))))
        ∷ [])) }
    ensures ends { status_after (with_a_tag ++ (Purge (codes "l"), Ok (Changed true)) ∷ []) 1 ≡ Some (Ended killed nil_term) }
{}

/// A process lingers by its place after a timeout alone, until the deadline is gone.
pub fn a_process_lingers_by_its_place_after_a_timeout()
    ensures place { place_after with_a_deadline 1 ≡ Some 2 }
    ensures frames { frames_after with_a_deadline 1 ≡ Some [] }
    ensures answers { Happens (with_a_deadline ++ (
        (SoftPurge (codes "d"), Ok (Changed false))
        ∷ (Steps 1 1, Ok (Ran 1 GoesOn))
        ∷ (SoftPurge (codes "d"), Ok (Changed true))
        ∷ (Steps 1 100, Ok (Ran 2 (EndedThen normal (integer 2))))
        ∷ [])) }
    ensures ends { status_after (with_a_deadline ++ (Purge (codes "d"), Ok (Changed true)) ∷ []) 1 ≡ Some (Ended killed nil_term) }
{}

/// A process that was started and has not yet entered its function lingers nowhere: its entry is looked up when it is done.
pub fn a_pending_entry_lingers_nowhere()
    ensures { Happens (
        (Load (g 1), Ok (Versions (Some 1) None))
        ∷ (Spawn (codes "g") (codes "b") [], Ok (Started 1))
        ∷ (Load (g 2), Ok (Versions (Some 2) (Some 1)))
        ∷ (Purge (codes "g"), Ok (Changed false))
        ∷ (Steps 1 100, Ok (Ran 3 (EndedThen normal (integer 2))))
        ∷ []) }
{}
