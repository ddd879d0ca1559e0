//! Each process that monitors one that ends is sent a DOWN.

ghost use Rattle.std.specs.Prelude.{◌≡◌, ℕ, ◌++◌, List, [], ◌∷◌, Some, slice_get};
ghost use Rattle.beam_term.specs.TermValue.{TermValue};
ghost use Rattle.beam_machine.specs.declared.event.Event.{Event};
ghost use Rattle.beam_machine.specs.declared.event.Event.TheVariants as event;
ghost use Rattle.beam_machine.specs.declared.process.Monitor.{Monitor};
ghost use Rattle.beam_machine.specs.declared.process.Signal.{Signal};
ghost use Rattle.beam_machine.specs.declared.process.Signal.TheVariants.{Down};
ghost use Rattle.beam_model.specs.Listing.{Listing};
ghost use Rattle.beam_machine.specs.Process.{Process, own_pid};
ghost use Rattle.beam_machine.specs.State.{State, empty, live_process, downs};
ghost use Rattle.beam_machine.specs.Next.{next};
ghost use Rattle.beam_machine.specs.Run.{run};
ghost use Rattle.beam_laws.specs.Monitors.{AreRising};
ghost use Rattle.beam_laws.specs.Orderly.{Orderly};
ghost use Rattle.beam_next_laws.specs.Heard.{EndsBetween, downs_in, downs_with, downs_about};

/// Where an event ends a process, each other process that is alive before and after it is sent one DOWN for each of its monitors of that
/// process: with the monitor's reference and the reason of the end, in the order of the monitors, and no other DOWN of that process. They
/// come after the signals that were in transit before, and after those that the process itself sent. This holds for each event by which a
/// process can end: its own rows, an exit signal that arrives, and a change of code that kills it; from any state in which pids are
/// positions and references rise, as they do after every list of events.
pub fn ends_are_heard()
    ensures behind { (s : State) (e : Event Listing) (pid n : ℕ) (reason : TermValue) (q r : Process) → EndsBetween pid reason s (next s e).state
        → live_process s.processes n ≡ Some q → live_process (next s e).state.processes n ≡ Some r
        → (came : List Signal) × (r.transit ≡ q.transit ++ came) }
    ensures all { (s : State) (e : Event Listing) (pid n : ℕ) (reason : TermValue) (q r : Process) (came : List Signal) → Orderly s.processes
        → AreRising s.references s.processes → EndsBetween pid reason s (next s e).state → live_process s.processes n ≡ Some q
        → live_process (next s e).state.processes n ≡ Some r → r.transit ≡ q.transit ++ came
        → downs_about pid q.monitors came ≡ downs pid reason q.monitors }
    ensures each { (s : State) (e : Event Listing) (pid n i : ℕ) (reason : TermValue) (q r : Process) (came : List Signal) (m : Monitor) → Orderly s.processes
        → AreRising s.references s.processes → EndsBetween pid reason s (next s e).state → live_process s.processes n ≡ Some q
        → live_process (next s e).state.processes n ≡ Some r → r.transit ≡ q.transit ++ came → slice_get q.monitors i ≡ Some m
        → m.pid ≡ own_pid pid → downs_with m.reference came ≡ Down m.reference reason ∷ [] }
    ensures last { (s : State) (pid n k : ℕ) (reason : TermValue) (q r : Process) (came : List Signal) → EndsBetween pid reason s (next s (event.Steps pid k)).state
        → live_process s.processes n ≡ Some q → live_process (next s (event.Steps pid k)).state.processes n ≡ Some r → r.transit ≡ q.transit ++ came
        → (first : List Signal) × (downs_in first ≡ []) × (came ≡ first ++ downs pid reason q.monitors) }
    ensures reached { (events : List (Event Listing)) (e : Event Listing) (pid n i : ℕ) (reason : TermValue) (q r : Process) (came : List Signal) (m : Monitor)
        → EndsBetween pid reason (run empty events).state (next (run empty events).state e).state
        → live_process (run empty events).state.processes n ≡ Some q → live_process (next (run empty events).state e).state.processes n ≡ Some r
        → r.transit ≡ q.transit ++ came → slice_get q.monitors i ≡ Some m → m.pid ≡ own_pid pid
        → downs_with m.reference came ≡ Down m.reference reason ∷ [] }
{}

/// A DOWN comes of nothing but an end. Where an event doesn't end the process of some number, which may have ended before or never have
/// started, no DOWN of a monitor of that number, which another process had before the event, comes to that other process. (`monitor` of
/// a process that doesn't live sends its caller a DOWN at once; its reference is a new one.)
pub fn only_ends_are_heard()
    ensures any { (s : State) (e : Event Listing) (pid n : ℕ) (q r : Process) (came : List Signal) → Orderly s.processes → AreRising s.references s.processes
        → live_process s.processes n ≡ Some q → live_process (next s e).state.processes n ≡ Some r → r.transit ≡ q.transit ++ came
        → ((reason : TermValue) → ¬ EndsBetween pid reason s (next s e).state) → downs_about pid q.monitors came ≡ [] }
    ensures reached { (events : List (Event Listing)) (e : Event Listing) (pid n : ℕ) (q r : Process) (came : List Signal)
        → live_process (run empty events).state.processes n ≡ Some q → live_process (next (run empty events).state e).state.processes n ≡ Some r
        → r.transit ≡ q.transit ++ came
        → ((reason : TermValue) → ¬ EndsBetween pid reason (run empty events).state (next (run empty events).state e).state)
        → downs_about pid q.monitors came ≡ [] }
{}
