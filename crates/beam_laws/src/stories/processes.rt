//! Stories of names, messages and signals between processes.

ghost use Rattle.std.specs.Prelude.{◌≡◌, [], ◌∷◌, ◌++◌, Some, None, Ok, Err, codes};
ghost use Rattle.beam_machine.specs.declared.event.Event.TheVariants.{Load, Spawn, Send, Steps, Deliver};
ghost use Rattle.beam_machine.specs.declared.event.Reply.TheVariants.{Done, Versions, Started, Ran};
ghost use Rattle.beam_machine.specs.declared.event.Then.TheVariants.{GoesOn, Ended as EndedThen};
ghost use Rattle.beam_machine.specs.declared.event.Refused.TheVariants.{NoProcess, NotReady};
ghost use Rattle.beam_machine.specs.declared.process.Status.TheVariants.{Ended};
ghost use Rattle.beam_machine.specs.Process.{normal, killed, own_pid};
ghost use Rattle.beam_term.specs.TermValue.{nil_term, list_of};
ghost use Rattle.beam_laws.specs.Beginnings.{one_that_receives};
ghost use Rattle.beam_laws.specs.Story.{Happens, status_after};
ghost use Rattle.beam_laws.specs.Terms.{atom};

/// A message to a name reaches the process that is registered under it, until that process ends.
pub fn a_name_ends_with_its_process()
    ensures { Happens (one_that_receives ++ (
        (Spawn (codes "erlang") (codes "register") (atom "server" ∷ own_pid 1 ∷ []), Ok (Started 2))
        ∷ (Steps 2 1, Ok (Ran 1 (EndedThen normal (atom "true"))))
        ∷ (Send (atom "server") (atom "hello"), Ok Done)
        ∷ (Deliver 1, Ok Done)
        ∷ (Steps 1 100, Ok (Ran 4 (EndedThen normal (atom "hello"))))
        ∷ (Send (atom "server") (atom "hello"), Err NoProcess)
        ∷ [])) }
{}

/// An exit signal `normal` is ignored, and `kill` ends with `killed`; the signals then in transit are dropped.
pub fn an_exit_signal_ends_a_process()
    ensures answers { Happens (one_that_receives ++ (
        (Spawn (codes "erlang") (codes "exit") (own_pid 1 ∷ atom "normal" ∷ []), Ok (Started 2))
        ∷ (Steps 2 1, Ok (Ran 1 (EndedThen normal (atom "true"))))
        ∷ (Deliver 1, Ok Done)
        ∷ (Steps 1 1, Ok (Ran 1 GoesOn))
        ∷ (Spawn (codes "erlang") (codes "exit") (own_pid 1 ∷ atom "kill" ∷ []), Ok (Started 3))
        ∷ (Steps 3 1, Ok (Ran 1 (EndedThen normal (atom "true"))))
        ∷ (Send (own_pid 1) (atom "hello"), Ok Done)
        ∷ (Deliver 1, Ok Done)
        ∷ (Deliver 1, Err NoProcess)
        ∷ [])) }
    ensures ends { status_after (one_that_receives ++ (
        (Spawn (codes "erlang") (codes "exit") (own_pid 1 ∷ atom "kill" ∷ []), Ok (Started 2))
        ∷ (Steps 2 1, Ok (Ran 1 (EndedThen normal (atom "true"))))
        ∷ (Deliver 1, Ok Done)
        ∷ [])) 1 ≡ Some (Ended killed nil_term) }
{}

/// A process starts another, which sends a message to a third.
pub fn a_process_is_started_by_another_and_told()
    ensures { Happens (one_that_receives ++ (
        (Spawn (codes "erlang") (codes "spawn") (atom "erlang" ∷ atom "send" ∷ list_of (own_pid 1 ∷ atom "hello" ∷ []) ∷ []), Ok (Started 2))
        ∷ (Steps 2 1, Ok (Ran 1 (EndedThen normal (own_pid 3))))
        ∷ (Deliver 1, Err NotReady)
        ∷ (Steps 3 1, Ok (Ran 1 (EndedThen normal (atom "hello"))))
        ∷ (Deliver 1, Ok Done)
        ∷ (Steps 1 100, Ok (Ran 4 (EndedThen normal (atom "hello"))))
        ∷ [])) }
{}
