//! The kit's deque under the rule.
ghost use Rattle.std.specs.Prelude.{◌≡◌, ◌+◌, ◌-◌, ◌<◌, ℕ, [], ◌∷◌, ◌++◌, IfOk, IfErr, MatchOption};
ghost use Rattle.crossbeam_deque.specs.Handles.{view, IsPassOf, worker_deque, stealer_deque, worker_view, worker_flavor};
ghost use Rattle.crossbeam_deque.specs.Steals.{MatchSteal};
ghost use Rattle.beam_queue.specs.Counting.{times};
ghost use Rattle.beam_queue.specs.Rule.{contribution, IsFresh, IsSame};

use crate::contribution::Contribution;
use crate::rule::{BalanceProtocol, Drains, Puts, StealerPart, Takes};
use crossbeam_deque::{Pass, Steal, Stealer, Worker};
use std::alloc::{AllocError, Global};

pub type Deque = Worker<u32, Global, Contribution, BalanceProtocol>;

pub type DequeStealer = Stealer<u32, Global, Contribution, BalanceProtocol>;

pub type DequePass = Pass<u32, Contribution>;

/// An empty deque with 256 slots.
#[tactic(auto, using(crate::proofs::Moves::begins))]
pub fn empty_deque(alloc: Global) -> Result<Deque, AllocError>
    ensures { IfOk result (λ d. IsFresh d) }
{
    Deque::fifo_as(alloc, 256)
}

/// Puts a pid at the back. It comes back where the deque can't grow.
pub fn put(deque: &mut Deque, pid: u32) -> Result<(), u32>
    requires { 0 < (worker_view deque.old).parts }
    ensures same { IsSame deque.old deque.new }
    ensures put { IfOk result (λ _. worker_view deque.new
        ≡ contribution (worker_view deque.old).parts ((worker_view deque.old).put ++ pid ∷ []) (worker_view deque.old).taken) }
    ensures refused { IfErr result (λ x. (x ≡ pid) × (worker_view deque.new ≡ worker_view deque.old)) }
{
    deque.push_as::<Puts>(pid)
}

/// Takes the pid at the front, by the owner.
pub fn take(deque: &mut Deque) -> Option<u32>
    requires { (0 < (worker_view deque.old).parts) × (worker_flavor deque.old ≡ 0) }
    ensures same { IsSame deque.old deque.new }
    ensures taken { MatchOption result (worker_view deque.new ≡ worker_view deque.old) (λ x. worker_view deque.new
        ≡ contribution (worker_view deque.old).parts (worker_view deque.old).put ((worker_view deque.old).taken ++ x ∷ [])) }
{
    deque.pop_as::<Takes>()
}

/// Takes the pid at the front, by a stealer.
pub fn steal(deque_stealer: &DequeStealer, pass: &mut DequePass) -> Steal<u32>
    requires { IsPassOf (stealer_deque deque_stealer.now) pass.old × (0 < (view pass.old).parts) }
    ensures same { IsPassOf (stealer_deque deque_stealer.now) pass.new }
    ensures taken { MatchSteal result (view pass.new ≡ view pass.old) (view pass.new ≡ view pass.old) (λ x. view pass.new
        ≡ contribution (view pass.old).parts (view pass.old).put ((view pass.old).taken ++ x ∷ [])) }
{
    deque_stealer.steal_as::<Takes>(pass)
}

/// Cuts off a part for a stealer.
pub fn split_pass(deque: &mut Deque) -> DequePass
    requires { 1 < (worker_view deque.old).parts }
    ensures same { IsSame deque.old deque.new × IsPassOf (worker_deque deque.old) result }
    ensures views { (worker_view deque.new ≡ contribution ((worker_view deque.old).parts - 1) (worker_view deque.old).put (worker_view deque.old).taken)
        × (view result ≡ contribution 1 [] []) }
{
    deque.another::<StealerPart>()
}

/// Takes a stealer's part back.
pub fn join_pass(deque: &mut Deque, pass: DequePass)
    requires { IsPassOf (worker_deque deque.old) pass × (0 < (worker_view deque.old).parts) }
    ensures same { IsSame deque.old deque.new }
    ensures view { worker_view deque.new ≡ contribution ((worker_view deque.old).parts + (view pass).parts)
        ((worker_view deque.old).put ++ (view pass).put) ((worker_view deque.old).taken ++ (view pass).taken) }
{
    deque.absorb::<StealerPart>(pass)
}

/// Takes all pids that are left in a deque that has every part again, and appends them to `left`.
pub fn drain(deque: Deque, left: Vec<u32>) -> Result<Vec<u32>, AllocError>
    requires { ((worker_view deque).parts ≡ 1024) × (worker_flavor deque ≡ 0) }
    ensures { IfOk result (λ all. (x : ℕ) → times x (worker_view deque).taken + times x all.items ≡ times x (worker_view deque).put + times x left.items) }
{
    let mut deque = deque;
    let mut left = left;
    for _ in 0..u64::MAX {
        left.reserve(1)?;
        match deque.pop_as::<Drains>() {
            Some(pid) => left.push_reserved(pid),
            None => return Ok(left),
        }
    }
    Err(AllocError)
}
