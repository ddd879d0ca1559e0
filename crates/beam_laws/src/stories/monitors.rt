//! Stories of monitors.

ghost use Rattle.std.specs.Prelude.{◌≡◌, [], ◌∷◌, ◌++◌, true, Some, None, Ok, Err, codes};
ghost use Rattle.beam_machine.specs.declared.event.Event.TheVariants.{Load, Purge, Spawn, Send, Steps, Deliver};
ghost use Rattle.beam_machine.specs.declared.event.Reply.TheVariants.{Changed, Done, Versions, Started, Ran};
ghost use Rattle.beam_machine.specs.declared.event.Then.TheVariants.{GoesOn, Waits, Ended as EndedThen};
ghost use Rattle.beam_machine.specs.declared.event.Refused.TheVariants.{NotReady};
ghost use Rattle.beam_machine.specs.declared.process.Signal.TheVariants.{Message, Down};
ghost use Rattle.beam_machine.specs.Process.{normal, killed, own_pid, own_reference};
ghost use Rattle.beam_term.specs.TermValue.{nil_term, list_of, pid_term};
ghost use Rattle.beam_laws.specs.Listings.{g, k, m};
ghost use Rattle.beam_laws.specs.Story.{Happens, transit_after};
ghost use Rattle.beam_laws.specs.Terms.{atom, tuple};

/// A process starts another, monitors it, and gets the DOWN of its end.
pub fn a_watcher_is_told_of_an_end()
    ensures { Happens (
        (Load m, Ok (Versions (Some 1) None))
        ∷ (Spawn (codes "m") (codes "w") [], Ok (Started 1))
        ∷ (Steps 1 100, Ok (Ran 10 Waits))
        ∷ (Steps 2 100, Ok (Ran 3 (EndedThen (atom "boom") nil_term)))
        ∷ (Deliver 1, Ok Done)
        ∷ (Steps 1 100, Ok (Ran 3 (EndedThen normal (tuple (atom "DOWN" ∷ own_reference 1 ∷ atom "process" ∷ own_pid 2 ∷ atom "boom" ∷ [])))))
        ∷ []) }
{}

/// References are numbered over the node's life, also those of processes that end in the same row; wrong arguments make none.
pub fn references_are_numbered()
    ensures { Happens (
        (Spawn (codes "erlang") (codes "make_ref") [], Ok (Started 1))
        ∷ (Steps 1 1, Ok (Ran 1 (EndedThen normal (own_reference 1))))
        ∷ (Spawn (codes "erlang") (codes "monitor") (atom "port" ∷ own_pid 1 ∷ []), Ok (Started 2))
        ∷ (Steps 2 1, Ok (Ran 1 (EndedThen (tuple (atom "badarg" ∷ nil_term ∷ [])) nil_term)))
        ∷ (Spawn (codes "erlang") (codes "monitor") (atom "process" ∷ atom "name" ∷ []), Ok (Started 3))
        ∷ (Steps 3 1, Ok (Ran 1 (EndedThen (tuple (atom "badarg" ∷ nil_term ∷ [])) nil_term)))
        ∷ (Spawn (codes "erlang") (codes "monitor") (atom "process" ∷ own_pid 1 ∷ []), Ok (Started 4))
        ∷ (Steps 4 1, Ok (Ran 1 (EndedThen normal (own_reference 2))))
        ∷ []) }
{}

/// Where no process of that pid lives, the DOWN is sent at once: for a process that never started, and for one of another node.
pub fn nobody_is_told_of_at_once()
    ensures answers { Happens (
        (Load k, Ok (Versions (Some 1) None))
        ∷ (Spawn (codes "k") (codes "all") (list_of (own_pid 9 ∷ []) ∷ []), Ok (Started 1))
        ∷ (Steps 1 100, Ok (Ran 12 Waits))
        ∷ (Deliver 1, Ok Done)
        ∷ (Steps 1 100, Ok (Ran 4 (EndedThen normal (tuple (atom "DOWN" ∷ own_reference 1 ∷ atom "process" ∷ own_pid 9 ∷ atom "noproc" ∷ [])))))
        ∷ []) }
    ensures elsewhere { transit_after (
        (Load k, Ok (Versions (Some 1) None))
        ∷ (Spawn (codes "k") (codes "all") (list_of (pid_term (codes "other@host") 1 0 0 ∷ []) ∷ []), Ok (Started 1))
        ∷ (Steps 1 100, Ok (Ran 12 Waits))
        ∷ []) 1 ≡ Some (Down 1 (atom "noproc") ∷ []) }
{}

/// A DOWN whose monitor was taken away brings no message, also where the DOWN was already in transit.
pub fn a_monitor_that_was_taken_back_tells_nothing()
    ensures { Happens (
        (Load k, Ok (Versions (Some 1) None))
        ∷ (Spawn (codes "k") (codes "off") (own_pid 9 ∷ []), Ok (Started 1))
        ∷ (Steps 1 100, Ok (Ran 7 Waits))
        ∷ (Deliver 1, Ok Done)
        ∷ (Steps 1 100, Err NotReady)
        ∷ (Send (own_pid 1) (atom "hello"), Ok Done)
        ∷ (Deliver 1, Ok Done)
        ∷ (Steps 1 100, Ok (Ran 3 (EndedThen normal (atom "hello"))))
        ∷ []) }
{}

/// With flush the message of the DOWN is taken out too.
pub fn flush_takes_the_message_too()
    ensures { Happens (
        (Load k, Ok (Versions (Some 1) None))
        ∷ (Spawn (codes "k") (codes "flush") (own_pid 9 ∷ []), Ok (Started 1))
        ∷ (Steps 1 100, Ok (Ran 8 Waits))
        ∷ (Deliver 1, Ok Done)
        ∷ (Steps 1 100, Ok (Ran 7 Waits))
        ∷ (Send (own_pid 1) (atom "hello"), Ok Done)
        ∷ (Deliver 1, Ok Done)
        ∷ (Steps 1 100, Ok (Ran 4 (EndedThen normal (atom "hello"))))
        ∷ []) }
{}

/// A term that isn't a reference, and options other than `[]` and `[flush]`, are badarg; a reference without a monitor is accepted.
pub fn demonitor_wants_a_reference()
    ensures { Happens (
        (Spawn (codes "erlang") (codes "demonitor") (atom "name" ∷ []), Ok (Started 1))
        ∷ (Steps 1 1, Ok (Ran 1 (EndedThen (tuple (atom "badarg" ∷ nil_term ∷ [])) nil_term)))
        ∷ (Spawn (codes "erlang") (codes "demonitor") (own_reference 5 ∷ list_of (atom "info" ∷ []) ∷ []), Ok (Started 2))
        ∷ (Steps 2 1, Ok (Ran 1 (EndedThen (tuple (atom "badarg" ∷ nil_term ∷ [])) nil_term)))
        ∷ (Spawn (codes "erlang") (codes "demonitor") (own_reference 5 ∷ list_of (atom "flush" ∷ atom "flush" ∷ []) ∷ []), Ok (Started 3))
        ∷ (Steps 3 1, Ok (Ran 1 (EndedThen (tuple (atom "badarg" ∷ nil_term ∷ [])) nil_term)))
        ∷ (Spawn (codes "erlang") (codes "demonitor") (own_reference 5 ∷ list_of (atom "flush" ∷ []) ∷ []), Ok (Started 4))
        ∷ (Steps 4 1, Ok (Ran 1 (EndedThen normal (atom "true"))))
        ∷ (Spawn (codes "erlang") (codes "demonitor") (own_reference 5 ∷ []), Ok (Started 5))
        ∷ (Steps 5 1, Ok (Ran 1 (EndedThen normal (atom "true"))))
        ∷ []) }
{}

/// The signals that a process sends in its last row come before the DOWN of its end.
pub fn a_last_signal_comes_before_the_end()
    ensures { transit_after (
        (Spawn (codes "erlang") (codes "send") (own_pid 2 ∷ atom "hello" ∷ []), Ok (Started 1))
        ∷ (Load k, Ok (Versions (Some 1) None))
        ∷ (Spawn (codes "k") (codes "all") (list_of (own_pid 1 ∷ []) ∷ []), Ok (Started 2))
        ∷ (Steps 2 100, Ok (Ran 12 Waits))
        ∷ (Steps 1 1, Ok (Ran 1 (EndedThen normal (atom "hello"))))
        ∷ []) 2 ≡ Some (Message (atom "hello") ∷ Down 1 normal ∷ []) }
{}

/// A purge ends its processes in the order of their pids, for any order in which they are monitored; the DOWNs of two monitors of one
/// process come in the order of their references.
pub fn a_purge_tells_by_pid()
    ensures { transit_after (
        (Load (g 1), Ok (Versions (Some 1) None))
        ∷ (Spawn (codes "g") (codes "a") [], Ok (Started 1))
        ∷ (Spawn (codes "g") (codes "a") [], Ok (Started 2))
        ∷ (Spawn (codes "g") (codes "a") [], Ok (Started 3))
        ∷ (Steps 1 2, Ok (Ran 2 GoesOn))
        ∷ (Steps 2 2, Ok (Ran 2 GoesOn))
        ∷ (Steps 3 2, Ok (Ran 2 GoesOn))
        ∷ (Load k, Ok (Versions (Some 2) None))
        ∷ (Spawn (codes "k") (codes "all") (list_of (own_pid 3 ∷ own_pid 1 ∷ own_pid 2 ∷ own_pid 1 ∷ []) ∷ []), Ok (Started 4))
        ∷ (Steps 4 100, Ok (Ran 30 Waits))
        ∷ (Load (g 2), Ok (Versions (Some 3) (Some 1)))
        ∷ (Purge (codes "g"), Ok (Changed true))
        ∷ []) 4 ≡ Some (Down 2 killed ∷ Down 4 killed ∷ Down 3 killed ∷ Down 1 killed ∷ []) }
{}
