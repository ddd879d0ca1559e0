//! Stories of code that is replaced.

ghost use Rattle.std.specs.Prelude.{◌≡◌, [], ◌∷◌, ◌++◌, true, false, Some, None, Ok, Err, codes};
ghost use Rattle.beam_machine.specs.declared.event.Event.TheVariants.{Load, LoadStrict, Delete, Purge, Versions as Ask, Spawn, Steps};
ghost use Rattle.beam_machine.specs.declared.event.Reply.TheVariants.{Changed, Versions, Started, Ran};
ghost use Rattle.beam_machine.specs.declared.event.Then.TheVariants.{GoesOn, Ended};
ghost use Rattle.beam_machine.specs.declared.event.Refused.TheVariants.{Sticky, NotPurged};
ghost use Rattle.beam_machine.specs.Process.{normal};
ghost use Rattle.beam_term.specs.TermValue.{nil_term};
ghost use Rattle.beam_laws.specs.Listings.{h};
ghost use Rattle.beam_laws.specs.Beginnings.{before_the_call};
ghost use Rattle.beam_laws.specs.Story.{Happens, place_after};
ghost use Rattle.beam_laws.specs.Terms.{atom, integer, tuple};

/// A process stays in the instance where its place lies when a new one is loaded, and its next external call enters current code.
pub fn a_process_enters_current_code_by_an_external_call()
    ensures place { place_after (
        (Load (h 1), Ok (Versions (Some 1) None))
        ∷ (Spawn (codes "h") (codes "n") (integer 2 ∷ []), Ok (Started 1))
        ∷ (Steps 1 3, Ok (Ran 3 GoesOn))
        ∷ (Load (h 2), Ok (Versions (Some 2) (Some 1)))
        ∷ (Steps 1 3, Ok (Ran 3 GoesOn))
        ∷ []) 1 ≡ Some 1 }
    ensures value { Happens (
        (Load (h 1), Ok (Versions (Some 1) None))
        ∷ (Spawn (codes "h") (codes "n") (integer 2 ∷ []), Ok (Started 1))
        ∷ (Steps 1 3, Ok (Ran 3 GoesOn))
        ∷ (Load (h 2), Ok (Versions (Some 2) (Some 1)))
        ∷ (Steps 1 3, Ok (Ran 3 GoesOn))
        ∷ (Steps 1 100, Ok (Ran 5 (Ended normal (integer 2))))
        ∷ []) }
{}

/// Instances are numbered over the node's life. A load makes current code old and purges old code; a strict load is refused where there
/// is old code, and a delete where there is old code or no current code.
pub fn instances_are_numbered_over_the_life_of_the_node()
    ensures { Happens (
        (Load (h 1), Ok (Versions (Some 1) None))
        ∷ (Load (h 1), Ok (Versions (Some 2) (Some 1)))
        ∷ (LoadStrict (h 1), Err NotPurged)
        ∷ (Load (h 1), Ok (Versions (Some 3) (Some 2)))
        ∷ (Delete (codes "h"), Ok (Changed false))
        ∷ (Purge (codes "h"), Ok (Changed false))
        ∷ (Delete (codes "h"), Ok (Changed true))
        ∷ (Ask (codes "h"), Ok (Versions None (Some 3)))
        ∷ (LoadStrict (h 1), Err NotPurged)
        ∷ (Load (h 1), Ok (Versions (Some 4) None))
        ∷ []) }
{}

/// No module named `erlang` is loaded.
pub fn no_module_named_erlang_is_loaded()
    ensures { Happens (
        (Load (record (h 1) { name = codes "erlang" }), Err Sticky)
        ∷ (LoadStrict (record (h 1) { name = codes "erlang" }), Err Sticky)
        ∷ (Ask (codes "erlang"), Ok (Versions None None))
        ∷ []) }
{}

/// After a delete an external call into the module raises undef; a second delete changes nothing.
pub fn a_call_into_deleted_code_raises_undef()
    ensures { Happens (before_the_call ++ (
        (Delete (codes "g"), Ok (Changed true))
        ∷ (Delete (codes "g"), Ok (Changed false))
        ∷ (Steps 1 100, Ok (Ran 1 (Ended (tuple (atom "undef" ∷ nil_term ∷ [])) nil_term)))
        ∷ [])) }
{}
