//! The rule of a queue: the pids that were put are those that were taken and those that are left.
ghost use Rattle.std.specs.Prelude.{◌≡◌, ◌+◌, ◌-◌, ℕ, [], ◌++◌};
ghost use Rattle.beam_queue.specs.Counting.{total};
ghost use Rattle.beam_queue.specs.Rule.{contribution};

use crate::contribution::Contribution;
use crossbeam_deque::protocol::{Join, Outcome, Protocol, Split};

/// The pids that were put are those that were taken and those that are left.
pub struct BalanceProtocol;

impl Protocol<u32, Contribution> for BalanceProtocol {
    ghost use Rattle.std.specs.Prelude.{[]};
    ghost use Rattle.beam_queue.specs.Rule.{contribution, Balanced};

    ghost holds = { Balanced };

    ghost first = { contribution 1024 [] [] };

    ghost guest = { contribution 0 [] [] };
}

/// One part is cut off for a stealer, and later joined to the rest again.
pub struct StealerPart;

impl Split<Contribution> for StealerPart {
    ghost left = { λ v. contribution (v.parts - 1) v.put v.taken };

    ghost right = { λ v. contribution 1 [] [] };
}

impl Join<Contribution> for StealerPart {
    ghost both = { λ v w. contribution (v.parts + w.parts) (v.put ++ w.put) (v.taken ++ w.taken) };

    ghost spent = { contribution 0 [] [] };
}

/// A holder puts.
pub struct Puts;

impl Outcome<u32, Contribution> for Puts {
    ghost then = { λ v xs w. w ≡ contribution v.parts (v.put ++ xs) v.taken };
}

/// A holder takes.
pub struct Takes;

impl Outcome<u32, Contribution> for Takes {
    ghost then = { λ v xs w. w ≡ contribution v.parts v.put (v.taken ++ xs) };
}

/// The holder with every part takes: if the queue is empty, all pids that were put were taken.
pub struct Drains;

impl Outcome<u32, Contribution> for Drains {
    ghost then = { λ v xs w. w ≡ contribution v.parts v.put (v.taken ++ xs) };

    ghost empty = { λ v. (h : ℕ → ℕ) → total h v.put ≡ total h v.taken };
}
