//! Laws of pids and names.

ghost use Rattle.std.specs.Prelude.{◌≡◌, ℕ, List, Some};
ghost use Rattle.beam_machine.specs.declared.event.Event.{Event};
ghost use Rattle.beam_model.specs.Listing.{Listing};
ghost use Rattle.beam_machine.specs.Process.{Process};
ghost use Rattle.beam_machine.specs.State.{empty, process_of};
ghost use Rattle.beam_machine.specs.Run.{run};

/// The pid of a process is its position: process n, the n-th that was started, has pid n.
pub fn pids_are_positions()
    ensures { (events : List (Event Listing)) (n : ℕ) (p : Process) → process_of (run empty events).state.processes n ≡ Some p → p.pid ≡ n }
{}

/// A name belongs to one process at most. (One that has ended has none.)
pub fn names_are_apart()
    ensures { (events : List (Event Listing)) (m n : ℕ) (p q : Process) (name : List ℕ)
        → process_of (run empty events).state.processes m ≡ Some p → process_of (run empty events).state.processes n ≡ Some q
        → p.name ≡ Some name → q.name ≡ Some name → m ≡ n }
{}
