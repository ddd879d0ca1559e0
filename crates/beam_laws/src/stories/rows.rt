//! Stories of rows and of integers.

ghost use Rattle.std.specs.Prelude.{◌≡◌, ◌^◌, ◌-◌, pos, neg_ℤ, replicate, [], ◌∷◌, Some, None, Ok, codes};
ghost use Rattle.beam_machine.specs.declared.event.Event.TheVariants.{Load, Spawn, Steps};
ghost use Rattle.beam_machine.specs.declared.event.Reply.TheVariants.{Versions, Started, Ran};
ghost use Rattle.beam_machine.specs.declared.event.Then.TheVariants.{GoesOn, Ended};
ghost use Rattle.beam_machine.specs.Process.{normal};
ghost use Rattle.beam_term.specs.TermValue.{nil_term, int_term, list_of};
ghost use Rattle.beam_laws.specs.Listings.{o, t};
ghost use Rattle.beam_laws.specs.Story.{Happens};
ghost use Rattle.beam_laws.specs.Terms.{atom, integer, tuple};

/// The sum of the numbers down from 4 is 10, after 22 rows, however they are cut.
pub fn the_sum_down_from_4_is_10_after_22_rows()
    ensures { Happens (
        (Load t, Ok (Versions (Some 1) None))
        ∷ (Spawn (codes "t") (codes "sum") (integer 4 ∷ []), Ok (Started 1))
        ∷ (Steps 1 21, Ok (Ran 21 GoesOn))
        ∷ (Steps 1 1, Ok (Ran 1 (Ended normal (integer 10))))
        ∷ []) }
{}

/// Integers are those from -2^59 to 2^59 - 1.
pub fn integers_end_at_2_to_the_59()
    ensures sum { Happens (
        (Spawn (codes "erlang") (codes "+") (integer (2 ^ 59 - 1) ∷ integer 1 ∷ []), Ok (Started 1))
        ∷ (Steps 1 1, Ok (Ran 1 (Ended (tuple (atom "system_limit" ∷ nil_term ∷ [])) nil_term)))
        ∷ []) }
    ensures quotient { Happens (
        (Spawn (codes "erlang") (codes "div") (int_term (neg_ℤ (pos (2 ^ 59))) ∷ int_term (neg_ℤ (pos 1)) ∷ []), Ok (Started 1))
        ∷ (Steps 1 1, Ok (Ran 1 (Ended (tuple (atom "system_limit" ∷ nil_term ∷ [])) nil_term)))
        ∷ []) }
{}

/// A division by 0 raises badarith, and the remainder has the sign of the dividend.
pub fn a_division_truncates()
    ensures by_0 { Happens (
        (Spawn (codes "erlang") (codes "div") (integer 7 ∷ integer 0 ∷ []), Ok (Started 1))
        ∷ (Steps 1 1, Ok (Ran 1 (Ended (tuple (atom "badarith" ∷ nil_term ∷ [])) nil_term)))
        ∷ []) }
    ensures remainder { Happens (
        (Spawn (codes "erlang") (codes "rem") (int_term (neg_ℤ (pos 7)) ∷ integer 2 ∷ []), Ok (Started 1))
        ∷ (Steps 1 1, Ok (Ran 1 (Ended normal (int_term (neg_ℤ (pos 1))))))
        ∷ []) }
{}

/// A list has at most 4,096 elements: one more is a system limit.
pub fn a_list_ends_at_4096_elements()
    ensures longest { Happens (
        (Load o, Ok (Versions (Some 1) None))
        ∷ (Spawn (codes "o") (codes "put") (list_of (replicate 4095 (atom "a")) ∷ []), Ok (Started 1))
        ∷ (Steps 1 100, Ok (Ran 3 (Ended normal (list_of (replicate 4096 (atom "a"))))))
        ∷ []) }
    ensures longer { Happens (
        (Load o, Ok (Versions (Some 1) None))
        ∷ (Spawn (codes "o") (codes "put") (list_of (replicate 4096 (atom "a")) ∷ []), Ok (Started 1))
        ∷ (Steps 1 100, Ok (Ran 2 (Ended (tuple (atom "system_limit" ∷ nil_term ∷ [])) nil_term)))
        ∷ []) }
{}
