//! Stories of messages and of time.

ghost use Rattle.std.specs.Prelude.{◌≡◌, ◌^◌, ◌-◌, [], ◌∷◌, ◌++◌, Some, None, Ok, Err, codes};
ghost use Rattle.beam_machine.specs.declared.event.Event.TheVariants.{Load, Spawn, Send, Steps, Deliver, Clock, Timeout};
ghost use Rattle.beam_machine.specs.declared.event.Reply.TheVariants.{Done, Versions, Started, Ran};
ghost use Rattle.beam_machine.specs.declared.event.Then.TheVariants.{Waits, Ended};
ghost use Rattle.beam_machine.specs.declared.event.Refused.TheVariants.{BackwardClock, NotReady};
ghost use Rattle.beam_machine.specs.Process.{normal, own_pid};
ghost use Rattle.beam_term.specs.TermValue.{nil_term};
ghost use Rattle.beam_laws.specs.Listings.{p, w};
ghost use Rattle.beam_laws.specs.Beginnings.{three_messages};
ghost use Rattle.beam_laws.specs.Story.{Happens};
ghost use Rattle.beam_laws.specs.Terms.{atom, integer, tuple};
ghost use Rattle.beam_laws.specs.Written.{integer as given, atom as given_atom};

/// A receive takes the first message that fits, and the next one the first of those that it passed over.
pub fn a_receive_takes_the_first_message_that_fits()
    ensures { Happens (three_messages ++ (
        (Deliver 1, Ok Done)
        ∷ (Steps 1 100, Ok (Ran 18 (Ended normal (tuple (atom "c" ∷ atom "a" ∷ [])))))
        ∷ [])) }
{}

/// A message in transit isn't in the mailbox yet: the process waits.
pub fn a_receive_waits_until_messages_are_delivered()
    ensures { Happens (three_messages ++ (
        (Steps 1 100, Ok (Ran 4 Waits))
        ∷ (Steps 1 1, Err NotReady)
        ∷ [])) }
{}

/// A process that waits 100 milliseconds goes on when they are over, and no sooner. The clock doesn't go back.
pub fn a_wait_is_over_when_its_time_has_come()
    ensures { Happens (
        (Load (w (given 100)), Ok (Versions (Some 1) None))
        ∷ (Spawn (codes "w") (codes "f") [], Ok (Started 1))
        ∷ (Steps 1 100, Ok (Ran 3 Waits))
        ∷ (Clock 99, Ok Done)
        ∷ (Timeout 1, Err NotReady)
        ∷ (Clock 100, Ok Done)
        ∷ (Timeout 1, Ok Done)
        ∷ (Clock 99, Err BackwardClock)
        ∷ (Steps 1 100, Ok (Ran 3 (Ended normal (atom "late"))))
        ∷ []) }
{}

/// A wait of 0 milliseconds is over at once, one of infinity never; a wait above 4,294,967,295, or of a term that isn't a time, raises
/// timeout_value.
pub fn a_wait_is_of_a_lawful_time()
    ensures zero { Happens (
        (Load (w (given 0)), Ok (Versions (Some 1) None))
        ∷ (Spawn (codes "w") (codes "f") [], Ok (Started 1))
        ∷ (Steps 1 100, Ok (Ran 6 (Ended normal (atom "late"))))
        ∷ []) }
    ensures infinity { Happens (
        (Load (w (given_atom "infinity")), Ok (Versions (Some 1) None))
        ∷ (Spawn (codes "w") (codes "f") [], Ok (Started 1))
        ∷ (Steps 1 100, Ok (Ran 3 Waits))
        ∷ (Clock (2 ^ 64 - 1), Ok Done)
        ∷ (Timeout 1, Err NotReady)
        ∷ []) }
    ensures longest { Happens (
        (Load (w (given 4294967295)), Ok (Versions (Some 1) None))
        ∷ (Spawn (codes "w") (codes "f") [], Ok (Started 1))
        ∷ (Steps 1 100, Ok (Ran 3 Waits))
        ∷ (Clock 4294967294, Ok Done)
        ∷ (Timeout 1, Err NotReady)
        ∷ (Clock 4294967295, Ok Done)
        ∷ (Timeout 1, Ok Done)
        ∷ []) }
    ensures longer { Happens (
        (Load (w (given 4294967296)), Ok (Versions (Some 1) None))
        ∷ (Spawn (codes "w") (codes "f") [], Ok (Started 1))
        ∷ (Steps 1 100, Ok (Ran 3 (Ended (tuple (atom "timeout_value" ∷ nil_term ∷ [])) nil_term)))
        ∷ []) }
    ensures no_time { Happens (
        (Load (w (given_atom "soon")), Ok (Versions (Some 1) None))
        ∷ (Spawn (codes "w") (codes "f") [], Ok (Started 1))
        ∷ (Steps 1 100, Ok (Ran 3 (Ended (tuple (atom "timeout_value" ∷ nil_term ∷ [])) nil_term)))
        ∷ []) }
{}

/// A message that a receive passes over doesn't put off its end.
pub fn a_message_that_is_passed_over_leaves_the_deadline()
    ensures { Happens (
        (Load p, Ok (Versions (Some 1) None))
        ∷ (Spawn (codes "p") (codes "f") [], Ok (Started 1))
        ∷ (Steps 1 100, Ok (Ran 3 Waits))
        ∷ (Clock 50, Ok Done)
        ∷ (Send (own_pid 1) (atom "a"), Ok Done)
        ∷ (Deliver 1, Ok Done)
        ∷ (Steps 1 100, Ok (Ran 5 Waits))
        ∷ (Clock 99, Ok Done)
        ∷ (Timeout 1, Err NotReady)
        ∷ (Clock 100, Ok Done)
        ∷ (Timeout 1, Ok Done)
        ∷ (Steps 1 100, Ok (Ran 3 (Ended normal (atom "late"))))
        ∷ []) }
{}
