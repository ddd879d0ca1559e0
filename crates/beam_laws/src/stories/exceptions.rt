//! Stories of exceptions.

ghost use Rattle.std.specs.Prelude.{◌≡◌, replicate, [], ◌∷◌, Some, None, Ok, codes};
ghost use Rattle.beam_machine.specs.declared.event.Event.TheVariants.{Load, Spawn, Steps};
ghost use Rattle.beam_machine.specs.declared.event.Reply.TheVariants.{Versions, Started, Ran};
ghost use Rattle.beam_machine.specs.declared.event.Then.TheVariants.{Ended};
ghost use Rattle.beam_machine.specs.Process.{normal};
ghost use Rattle.beam_term.specs.TermValue.{nil_term, list_of};
ghost use Rattle.beam_laws.specs.Listings.{e, o};
ghost use Rattle.beam_laws.specs.Story.{Happens};
ghost use Rattle.beam_laws.specs.Terms.{atom, tuple};

/// An error that is caught is the value `{'EXIT',{b,[]}}`.
pub fn a_caught_error_is_an_exit_with_its_reason()
    ensures { Happens (
        (Load e, Ok (Versions (Some 1) None))
        ∷ (Spawn (codes "e") (codes "c") [], Ok (Started 1))
        ∷ (Steps 1 100, Ok (Ran 8 (Ended normal (tuple (atom "EXIT" ∷ tuple (atom "b" ∷ nil_term ∷ []) ∷ [])))))
        ∷ []) }
{}

/// An exit that is handled and raised again ends the process with its reason.
pub fn an_exit_raised_again_ends_with_its_reason()
    ensures { Happens (
        (Load e, Ok (Versions (Some 1) None))
        ∷ (Spawn (codes "e") (codes "t") [], Ok (Started 1))
        ∷ (Steps 1 100, Ok (Ran 7 (Ended (atom "c") nil_term)))
        ∷ []) }
{}

/// An uncaught exception ends the process: a throw with `{{nocatch,a},[]}`, an error with `{b,[]}`, an exit with its reason.
pub fn what_nothing_catches_ends_the_process()
    ensures thrown { Happens (
        (Spawn (codes "erlang") (codes "throw") (atom "a" ∷ []), Ok (Started 1))
        ∷ (Steps 1 100, Ok (Ran 1 (Ended (tuple (tuple (atom "nocatch" ∷ atom "a" ∷ []) ∷ nil_term ∷ [])) nil_term)))
        ∷ []) }
    ensures error { Happens (
        (Spawn (codes "erlang") (codes "error") (atom "b" ∷ []), Ok (Started 1))
        ∷ (Steps 1 100, Ok (Ran 1 (Ended (tuple (atom "b" ∷ nil_term ∷ [])) nil_term)))
        ∷ []) }
    ensures exit { Happens (
        (Spawn (codes "erlang") (codes "exit") (atom "c" ∷ []), Ok (Started 1))
        ∷ (Steps 1 100, Ok (Ran 1 (Ended (atom "c") nil_term)))
        ∷ []) }
{}

/// A function that isn't there ends the process with `{undef,[]}`.
pub fn an_undefined_function_raises_undef()
    ensures { Happens (
        (Spawn (codes "e") (codes "c") [], Ok (Started 1))
        ∷ (Steps 1 100, Ok (Ran 1 (Ended (tuple (atom "undef" ∷ nil_term ∷ [])) nil_term)))
        ∷ []) }
{}

/// Where the term of a caught exception would be too deep, the atom `system_limit` stands for the value.
pub fn system_limit_stands_for_a_value_that_lies_too_deep()
    ensures { Happens (
        (Load o, Ok (Versions (Some 1) None))
        ∷ (Spawn (codes "o") (codes "exit") (list_of (replicate 4096 (atom "a")) ∷ []), Ok (Started 1))
        ∷ (Steps 1 100, Ok (Ran 7 (Ended normal (tuple (atom "EXIT" ∷ atom "system_limit" ∷ [])))))
        ∷ []) }
{}
