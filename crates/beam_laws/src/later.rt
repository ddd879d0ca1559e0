//! Laws of slices: rows of a process that are done apart from the node, and count later.

ghost use Rattle.std.specs.Prelude.{◌≡◌, ℕ, ◌+◌, true, false, Some};
ghost use Rattle.beam_machine.specs.declared.event.Event.TheVariants as event;
ghost use Rattle.beam_machine.specs.declared.event.Reply.TheVariants.{Ran};
ghost use Rattle.beam_machine.specs.Code.{Code};
ghost use Rattle.beam_machine.specs.Process.{Process, is_running, is_ended, then_of};
ghost use Rattle.beam_machine.specs.State.{State, process_of};
ghost use Rattle.beam_machine.specs.Next.{replied, ran, steps, next};
ghost use Rattle.beam_machine.specs.Private.{private_rows};
ghost use Rattle.beam_laws.specs.Private.{IsStill, after_private, before, with_name_and_transit_of};

/// Private rows of a process p over some code are executed first. After any events, where the node has that code and its process is p,
/// except for the name and the signals in transit, they are the process's next rows. An event of exactly these rows leads to the process
/// that they made, with the name and the signals that it got meanwhile, and posts the signals that they sent, and the DOWNs if they ended
/// it. Further rows, such as the row of the node before which they ended, go on from there, and the answer to an event of these rows and
/// further ones counts both.
pub fn rows_count_later()
    ensures rows { (code : Code) (n : ℕ) (p q : Process) → IsStill p q → private_rows code n q ≡ with_name_and_transit_of q (private_rows code n p) }
    ensures commit { (s : State) (code : Code) (pid n : ℕ) (p q : Process) → s.code ≡ code → process_of s.processes pid ≡ Some q → IsStill p q
        → is_running p.status ≡ true → next s (event.Steps pid (private_rows code n p).count)
        ≡ replied (after_private s pid (with_name_and_transit_of q (private_rows code n p)))
        (Ran (private_rows code n p).count (then_of (private_rows code n p).process.status)) }
    ensures further { (s : State) (code : Code) (pid n m : ℕ) (p q : Process) → s.code ≡ code → process_of s.processes pid ≡ Some q → IsStill p q
        → is_ended p.status ≡ false → steps s pid ((private_rows code n p).count + m)
        ≡ before (private_rows code n p).count (steps (after_private s pid (with_name_and_transit_of q (private_rows code n p))) pid m) }
    ensures event { (s : State) (code : Code) (pid n m : ℕ) (p q : Process) → s.code ≡ code → process_of s.processes pid ≡ Some q → IsStill p q
        → is_running p.status ≡ true → next s (event.Steps pid ((private_rows code n p).count + m))
        ≡ ran pid (before (private_rows code n p).count (steps (after_private s pid (with_name_and_transit_of q (private_rows code n p))) pid m)) }
{}
