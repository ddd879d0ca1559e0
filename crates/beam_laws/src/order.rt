//! A law of the order of signals.

ghost use Rattle.std.specs.Prelude.{◌≡◌, ℕ, ◌++◌, List, Some};
ghost use Rattle.beam_machine.specs.declared.event.Event.{Event};
ghost use Rattle.beam_machine.specs.declared.event.Event.TheVariants as event;
ghost use Rattle.beam_model.specs.Listing.{Listing};
ghost use Rattle.beam_machine.specs.Process.{Process};
ghost use Rattle.beam_machine.specs.State.{State, empty, live_process};
ghost use Rattle.beam_machine.specs.Next.{next};
ghost use Rattle.beam_machine.specs.Run.{run};
ghost use Rattle.beam_laws.specs.Signals.{sent, signals_to, on_its_way, brought, messages_for};

/// Signals arrive in the order in which they were sent: the signals sent to a process that hasn't ended are those that arrived, followed
/// by those in transit to it. So no signal is lost, doubled or overtaken by another, and the signals of one sender arrive in its order.
/// (Signals to a process that has ended, or was never started, aren't counted.) DOWNs are among them: the DOWNs of an end come after the
/// other signals of the process that ended, and those of one change of code by the pids of the processes that it ends. A delivery puts
/// the messages after the mailbox, in their order; a DOWN is one of them if its monitor is kept.
pub fn signals_arrive_in_order()
    ensures from_empty { (events : List (Event Listing)) (pid : ℕ) (p : Process) → live_process (run empty events).state.processes pid ≡ Some p
        → signals_to pid (sent empty events) ≡ brought pid empty events ++ p.transit }
    ensures from_any { (s : State) (events : List (Event Listing)) (pid : ℕ) (p : Process) → live_process (run s events).state.processes pid ≡ Some p
        → on_its_way (live_process s.processes pid) ++ signals_to pid (sent s events) ≡ brought pid s events ++ p.transit }
    ensures mailbox { (s : State) (pid : ℕ) (p q : Process) → live_process s.processes pid ≡ Some p
        → live_process (next s (event.Deliver pid)).state.processes pid ≡ Some q
        → q.mailbox.messages ≡ p.mailbox.messages ++ messages_for p.monitors p.transit }
{}
