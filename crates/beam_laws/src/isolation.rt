//! Laws of the isolation of processes: rows of one reach another by signals alone; a row that asks something of the node may also give
//! it a name, or take its name.

ghost use Rattle.std.specs.Prelude.{◌≡◌, ◌≢◌, ℕ, ◌+◌, ◌++◌, List, true, false, Option, Some, option_map};
ghost use Rattle.std.specs.List.{AllByRecursion};
ghost use Rattle.beam_machine.specs.declared.event.Event.{Event};
ghost use Rattle.beam_machine.specs.declared.event.Event.TheVariants as event;
ghost use Rattle.beam_machine.specs.declared.event.Reply.TheVariants.{Ran};
ghost use Rattle.beam_machine.specs.declared.process.Signal.{Signal};
ghost use Rattle.beam_model.specs.Listing.{Listing};
ghost use Rattle.beam_machine.specs.Code.{Code};
ghost use Rattle.beam_machine.specs.Process.{Process, is_running, is_ended, then_of};
ghost use Rattle.beam_machine.specs.State.{State, process_of};
ghost use Rattle.beam_machine.specs.Next.{replied, steps, next};
ghost use Rattle.beam_machine.specs.Run.{run};
ghost use Rattle.beam_machine.specs.Private.{private_rows, before_node_row};
ghost use Rattle.beam_laws.specs.Private.{with_name_and_transit, with_signals, downs_of_end, after_private, before, with_name_and_transit_of, is_of_others};
ghost use Rattle.beam_laws.specs.Signals.{steps_send, sent, signals_to};

/// Private rows of a process that hasn't ended are its next rows in the node. They change only three things in the node: the process,
/// the signals that they sent, posted in their order, and the DOWNs if they ended the process. Rows that follow go on from there, and an
/// event of exactly these rows answers their count and the process's status. They are all of the rows, or end before one that asks
/// something of the node.
pub fn private_rows_are_next()
    ensures next { (s : State) (pid n m : ℕ) (p : Process) → process_of s.processes pid ≡ Some p → is_ended p.status ≡ false
        → steps s pid ((private_rows s.code n p).count + m)
        ≡ before (private_rows s.code n p).count (steps (after_private s pid (private_rows s.code n p)) pid m) }
    ensures event { (s : State) (pid n : ℕ) (p : Process) → process_of s.processes pid ≡ Some p → is_running p.status ≡ true
        → next s (event.Steps pid (private_rows s.code n p).count)
        ≡ replied (after_private s pid (private_rows s.code n p)) (Ran (private_rows s.code n p).count (then_of (private_rows s.code n p).process.status)) }
    ensures all { (s : State) (pid n : ℕ) (p : Process) → process_of s.processes pid ≡ Some p → is_ended p.status ≡ false
        → (private_rows s.code n p).end ≢ before_node_row
        → steps s pid n ≡ record { count = (private_rows s.code n p).count; state = after_private s pid (private_rows s.code n p) } }
{}

/// After private rows each process has the signals that the rows sent to it after those that were in transit before, in their order,
/// and then, if the rows ended their process, a DOWN for each of its monitors of that one. The process of the rows is as they made it,
/// and each other is as it was.
pub fn private_rows_send_signals()
    ensures own { (s : State) (pid n : ℕ) (p : Process) → process_of s.processes pid ≡ Some p
        → process_of (after_private s pid (private_rows s.code n p)).processes pid
        ≡ Some (with_signals (signals_to pid (private_rows s.code n p).sent) (private_rows s.code n p).process) }
    ensures others { (s : State) (pid n other : ℕ) (p : Process) → process_of s.processes pid ≡ Some p → other ≢ pid
        → process_of (after_private s pid (private_rows s.code n p)).processes other
        ≡ option_map (λ q. with_signals (signals_to other (private_rows s.code n p).sent ++ downs_of_end pid (private_rows s.code n p).process.status q) q)
        (process_of s.processes other) }
{}

/// All rows of a process leave the code, the clock and the count of instances as they were. Of each other process they may change the
/// name, and add the signals that they sent to it after those in transit. Where no row asks something of the node, the names stay too.
/// (The DOWNs of the process's end are among the signals of its last row.)
pub fn rows_leave_others()
    ensures node { (s : State) (pid n : ℕ) → ((next s (event.Steps pid n)).state.code ≡ s.code)
        × ((next s (event.Steps pid n)).state.clock ≡ s.clock) × ((next s (event.Steps pid n)).state.instances ≡ s.instances) }
    ensures others { (s : State) (pid n other : ℕ) (q : Process) → process_of s.processes other ≡ Some q → other ≢ pid → (name : Option (List ℕ))
        × (process_of (next s (event.Steps pid n)).state.processes other ≡ Some (with_name_and_transit name (q.transit ++ signals_to other (steps_send s pid n)) q)) }
    ensures private { (s : State) (pid n other : ℕ) (p : Process) → process_of s.processes pid ≡ Some p → is_ended p.status ≡ false
        → (private_rows s.code n p).end ≢ before_node_row → other ≢ pid → process_of (next s (event.Steps pid n)).state.processes other
        ≡ option_map (λ q. with_signals (signals_to other (private_rows s.code n p).sent ++ downs_of_end pid (private_rows s.code n p).process.status q) q)
        (process_of s.processes other) }
{}

/// Private rows read neither the name of the process nor the signals in transit to it: with another name and other signals they are the
/// same rows, and the process after them has these, unless it has ended.
pub fn private_rows_read_the_process_alone()
    ensures { (code : Code) (n : ℕ) (p : Process) (name : Option (List ℕ)) (transit : List Signal)
        → private_rows code n (with_name_and_transit name transit p) ≡ record (private_rows code n p) { process = with_name_and_transit name transit (private_rows code n p).process } }
{}

/// Private rows can be executed first and committed later. Events of others leave the code as it is; of the process they may change the
/// name, and add signals after those in transit. Its next rows are then those that were executed before. An event of these rows has the
/// answer that it would have had before, and the node after it has the process that they made, with the name and the signals that it got
/// meanwhile, and the signals that the rows sent, posted in their order.
pub fn private_rows_can_wait()
    ensures process { (s : State) (events : List (Event Listing)) (pid : ℕ) (p : Process) → AllByRecursion (λ e. is_of_others pid e ≡ true) events
        → process_of s.processes pid ≡ Some p
        → ((run s events).state.code ≡ s.code)
        × ((name : Option (List ℕ)) × (process_of (run s events).state.processes pid ≡ Some (with_name_and_transit name (p.transit ++ signals_to pid (sent s events)) p))) }
    ensures rows { (s : State) (events : List (Event Listing)) (pid n : ℕ) (p q : Process) → AllByRecursion (λ e. is_of_others pid e ≡ true) events
        → process_of s.processes pid ≡ Some p → process_of (run s events).state.processes pid ≡ Some q
        → private_rows (run s events).state.code n q ≡ with_name_and_transit_of q (private_rows s.code n p) }
    ensures commit { (s : State) (events : List (Event Listing)) (pid n : ℕ) (p q : Process) → AllByRecursion (λ e. is_of_others pid e ≡ true) events
        → process_of s.processes pid ≡ Some p → process_of (run s events).state.processes pid ≡ Some q → is_running p.status ≡ true
        → next (run s events).state (event.Steps pid (private_rows s.code n p).count)
        ≡ replied (after_private (run s events).state pid (with_name_and_transit_of q (private_rows s.code n p)))
        (Ran (private_rows s.code n p).count (then_of (private_rows s.code n p).process.status)) }
{}
