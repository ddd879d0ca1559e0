//! Each row finds what it names.

ghost use Rattle.std.specs.Prelude.{◌≡◌, ℕ, Bool, true, List, Some};
ghost use Rattle.beam_machine.specs.declared.event.Event.{Event};
ghost use Rattle.beam_machine.specs.Next.{Rows, steps};
ghost use Rattle.beam_machine.specs.Private.{Private, private_rows, private_to_spot};
ghost use Rattle.beam_machine.specs.Process.{Process, is_running};
ghost use Rattle.beam_machine.specs.Run.{Run, run};
ghost use Rattle.beam_machine.specs.State.{State, empty, process_of};
ghost use Rattle.beam_model.specs.Listing.{Listing};
ghost use Rattle.beam_model.specs.Place.{Place};
ghost use Rattle.beam_shape_laws.specs.Finds.{FindsNext};
ghost use Rattle.beam_shape_laws.specs.Shaped.{IsFramedNode, LoadFramed};

/// Where each listing that is loaded keeps the rules and is framed, each row of each process finds what it names: the sources that it
/// reads have values, so no y register is missing or holds a catch tag; the registers that it writes are there; the newest frame is as
/// the row needs it, without y registers or with an exact number of them; and its labels have rows. The row lies in an instance that is
/// current or old, and its names are those of this instance's listing. This holds after every list of events and n rows more of a
/// process, and in every node that is framed.
pub fn rows_find_what_they_name()
    ensures reached { (events : List (Event Listing)) (pid n : ℕ) (p : Process) → LoadFramed events
        → process_of (steps (run empty events).state pid n).state.processes pid ≡ Some p → is_running p.status ≡ true
        → FindsNext (run empty events).state.code p.goes p }
    ensures framed { (s : State) (pid n : ℕ) (p : Process) → IsFramedNode s
        → process_of (steps s pid n).state.processes pid ≡ Some p → is_running p.status ≡ true → FindsNext s.code p.goes p }
{}

/// Each row of a slice, whose rows are done apart from the node, finds what it names, over the code and the process as they were at the
/// checkout; also in a slice that ends before a break spot.
pub fn slices_find_what_they_name()
    ensures rows { (s : State) (pid n : ℕ) (p : Process) → IsFramedNode s → process_of s.processes pid ≡ Some p
        → is_running (private_rows s.code n p).process.status ≡ true
        → FindsNext s.code (private_rows s.code n p).process.goes (private_rows s.code n p).process }
    ensures to_spot { (s : State) (spots : List Place) (passes : Bool) (pid n : ℕ) (p : Process) → IsFramedNode s → process_of s.processes pid ≡ Some p
        → is_running (private_to_spot spots passes s.code n p).process.status ≡ true
        → FindsNext s.code (private_to_spot spots passes s.code n p).process.goes (private_to_spot spots passes s.code n p).process }
{}
