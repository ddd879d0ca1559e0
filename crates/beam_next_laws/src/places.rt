//! A call by module name enters current code, and a process goes on in the instance that it is in.

ghost use Rattle.std.specs.Prelude.{◌≡◌, ℕ, ◌+◌, ◌∷◌, List, true, false, Some, None, Ok, nat_lt, nat_le};
ghost use Rattle.beam_term.specs.TermValue.{TermValue, atom_term};
ghost use Rattle.beam_machine.specs.declared.action.Action.{Action};
ghost use Rattle.beam_machine.specs.declared.action.Action.TheVariants.{Control};
ghost use Rattle.beam_machine.specs.declared.action.Control.TheVariants.{CallExternal, CallExternalOnly, CallExternalLast, Apply, ApplyLast, Return};
ghost use Rattle.beam_machine.specs.declared.callee.Callee.TheVariants.{Function, Native as NativeCallee};
ghost use Rattle.beam_machine.specs.declared.event.Event.TheVariants as event;
ghost use Rattle.beam_machine.specs.declared.process.Deadline.{Deadline};
ghost use Rattle.beam_machine.specs.declared.process.Frame.{Frame};
ghost use Rattle.beam_machine.specs.declared.process.Goes.TheVariants.{At, Enter};
ghost use Rattle.beam_machine.specs.declared.process.Status.TheVariants.{Running};
ghost use Rattle.beam_model.specs.Native.{native_value};
ghost use Rattle.beam_model.specs.declared.native.Native.{Native};
ghost use Rattle.beam_model.specs.declared.exception.Fault.TheVariants.{Undef};
ghost use Rattle.beam_model.specs.NativeNames.{is_erlang};
ghost use Rattle.beam_model.specs.Place.{Place};
ghost use Rattle.beam_machine.specs.Code.{Code, versions_of};
ghost use Rattle.beam_machine.specs.Next.{next};
ghost use Rattle.beam_machine.specs.Process.{Process, is_running, is_waiting, words_of, dropped, read_x, put_x, own_pid, ended, normal};
ghost use Rattle.beam_machine.specs.Row.{makes, goes_on, with_new_frame, arguments_of, faults, outcome};
ghost use Rattle.beam_machine.specs.State.{State, process_of, live_process};
ghost use Rattle.beam_next_laws.specs.Places.{StandsAt, IsCurrentEntry, is_local, StaysIn, OutcomeStays, OutcomeKeepsDeadline};

/// A call of a function by its module's name goes to the function's row in the module's current instance, if that exports it, whichever
/// instance the caller is in. A call that returns leaves a new frame, which returns to the row after it, in the caller's instance; one in
/// the place of a return leaves none. `apply` finds the module and the name in registers. A process that begins enters its function in
/// the same way. Without current code, also where there is old code, the call raises `undef`. The process is that of the node after this
/// one row.
pub fn calls_enter_current_code()
    ensures call { (code : Code) (p : Process) (row entry : Place) (name function : List ℕ) (arity : ℕ)
        → StandsAt code p (Control (CallExternal (Function name function arity))) row → IsCurrentEntry code name function arity entry
        → nat_lt (words_of p.frames) 65536 ≡ true → outcome code p ≡ makes (goes_on (with_new_frame p row) entry) }
    ensures only { (code : Code) (p : Process) (row entry : Place) (name function : List ℕ) (arity : ℕ)
        → StandsAt code p (Control (CallExternalOnly (Function name function arity))) row → IsCurrentEntry code name function arity entry
        → outcome code p ≡ makes (goes_on p entry) }
    ensures last { (code : Code) (p q : Process) (row entry : Place) (name function : List ℕ) (arity n : ℕ)
        → StandsAt code p (Control (CallExternalLast n (Function name function arity))) row → IsCurrentEntry code name function arity entry
        → dropped n p p.frames ≡ Some q → outcome code p ≡ makes (goes_on q entry) }
    ensures apply { (code : Code) (p : Process) (row entry : Place) (name function : List ℕ) (arity : ℕ)
        → StandsAt code p (Control (Apply arity)) row → IsCurrentEntry code name function arity entry
        → read_x p.x arity ≡ atom_term name → read_x p.x (arity + 1) ≡ atom_term function → is_erlang name ≡ false
        → nat_lt (words_of p.frames) 65536 ≡ true → outcome code p ≡ makes (goes_on (with_new_frame p row) entry) }
    ensures apply_last { (code : Code) (p q : Process) (row entry : Place) (name function : List ℕ) (arity n : ℕ)
        → StandsAt code p (Control (ApplyLast arity n)) row → IsCurrentEntry code name function arity entry → dropped n p p.frames ≡ Some q
        → read_x q.x arity ≡ atom_term name → read_x q.x (arity + 1) ≡ atom_term function → is_erlang name ≡ false
        → outcome code p ≡ makes (goes_on q entry) }
    ensures first { (code : Code) (p : Process) (entry : Place) (name function : List ℕ) (arity : ℕ) → p.goes ≡ Enter name function arity
        → IsCurrentEntry code name function arity entry → is_erlang name ≡ false → outcome code p ≡ makes (goes_on p entry) }
    ensures none { (code : Code) (p : Process) (row : Place) (name function : List ℕ) (arity : ℕ)
        → StandsAt code p (Control (CallExternalOnly (Function name function arity))) row → (versions_of code name).current ≡ None
        → outcome code p ≡ makes (faults p Undef) }
    ensures event { (s : State) (pid : ℕ) (p q : Process) → process_of s.processes pid ≡ Some p → is_running p.status ≡ true
        → outcome s.code p ≡ makes q → process_of (next s (event.Steps pid 1)).state.processes pid ≡ Some q }
{}

/// A row that neither calls a function by its module's name nor returns leaves the process in the instance in which it was: calls within
/// the module, jumps, selects, tests, receives and waits, and natives that are called with a return to the next row. If it raises, the
/// process goes to a catch tag of its frames, or ends. A native of the node is answered first. After its deadline, a process that sleeps
/// goes on in that instance too (`timeout_stays_in_the_instance`).
pub fn process_stays_in_its_instance()
    ensures event { (s : State) (pid : ℕ) (p q : Process) (action : Action) (row : Place) → process_of s.processes pid ≡ Some p
        → is_running p.status ≡ true → StandsAt s.code p action row → is_local action ≡ true
        → process_of (next s (event.Steps pid 1)).state.processes pid ≡ Some q → StaysIn row.instance p.frames q }
    ensures outcome { (code : Code) (p : Process) (action : Action) (row : Place) → StandsAt code p action row → is_local action ≡ true
        → OutcomeStays row.instance p.frames (outcome code p) }
{}

/// A row, of whatever kind, keeps the deadline of its process, takes it away, or gives it a place in the row's instance, at which the
/// process goes on when the deadline comes. A process that waits after the row has no deadline, or one with such a place. The timeout goes
/// to that place.
pub fn timeout_stays_in_the_instance()
    ensures row { (code : Code) (p : Process) (action : Action) (row : Place) → StandsAt code p action row → p.status ≡ Running
        → OutcomeKeepsDeadline row.instance p.deadline (outcome code p) }
    ensures timeout { (s : State) (pid : ℕ) (p : Process) (d : Deadline) → live_process s.processes pid ≡ Some p → is_waiting p.status ≡ true
        → p.deadline ≡ Some d → nat_le d.at s.clock ≡ true
        → process_of (next s (event.Timeout pid)).state.processes pid ≡ Some (record p { goes = At d.after; deadline = None; status = Running }) }
{}

/// A return goes to the place that the newest frame names, in whichever instance that lies, and the frame goes. The return of the first
/// frame ends the process, normally, with the value of x0. A native that is called in the place of a return puts its value in x0 and
/// returns so.
pub fn return_goes_back()
    ensures back { (code : Code) (p : Process) (row back : Place) (frame : Frame) (older : List Frame) → StandsAt code p (Control Return) row
        → p.frames ≡ frame ∷ older → frame.y ≡ None → frame.back ≡ Some back → outcome code p ≡ makes (record p { frames = older; goes = At back }) }
    ensures ends { (code : Code) (p : Process) (row : Place) (frame : Frame) (older : List Frame) → StandsAt code p (Control Return) row
        → p.frames ≡ frame ∷ older → frame.y ≡ None → frame.back ≡ None → outcome code p ≡ makes (ended p normal (read_x p.x 0)) }
    ensures native { (code : Code) (p : Process) (row back : Place) (frame : Frame) (older : List Frame) (f : Native) (arity : ℕ) (value : TermValue)
        → StandsAt code p (Control (CallExternalOnly (NativeCallee f arity))) row → native_value f (arguments_of p arity) (own_pid p.pid) ≡ Ok value
        → p.frames ≡ frame ∷ older → frame.y ≡ None → frame.back ≡ Some back
        → outcome code p ≡ makes (record (put_x p 0 value) { frames = older; goes = At back }) }
{}
