//! Laws of the ends of processes.

ghost use Rattle.std.specs.Prelude.{◌≡◌, ℕ, List, true, Some};
ghost use Rattle.beam_term.specs.TermValue.{TermValue};
ghost use Rattle.beam_machine.specs.declared.event.Event.{Event};
ghost use Rattle.beam_machine.specs.declared.process.Status.TheVariants.{Ended};
ghost use Rattle.beam_model.specs.Listing.{Listing};
ghost use Rattle.beam_machine.specs.Process.{Process, is_ended, ended};
ghost use Rattle.beam_machine.specs.State.{State, empty, process_of};
ghost use Rattle.beam_machine.specs.Run.{run};

/// The end of a process is final: whatever happens, it stays as it is, with its reason and its value.
pub fn end_is_final()
    ensures any { (s : State) (events : List (Event Listing)) (pid : ℕ) (p : Process) (reason value : TermValue)
        → process_of s.processes pid ≡ Some (ended p reason value)
        → process_of (run s events).state.processes pid ≡ Some (ended p reason value) }
    ensures reached { (events more : List (Event Listing)) (pid : ℕ) (p : Process) → process_of (run empty events).state.processes pid ≡ Some p
        → is_ended p.status ≡ true
        → process_of (run (run empty events).state more).state.processes pid ≡ Some p }
{}

/// A process that has ended is its pid, its reason and its value: it goes nowhere, and has no name, registers, frames, messages,
/// signals or deadline.
pub fn end_drops_all()
    ensures { (events : List (Event Listing)) (pid : ℕ) (p : Process) (reason value : TermValue) → process_of (run empty events).state.processes pid ≡ Some p
        → p.status ≡ Ended reason value → p ≡ ended p reason value }
{}
