//! Laws of purges.

ghost use Rattle.std.specs.Prelude.{◌≡◌, ℕ, List, length, flat_map, true, false, Some, None, Ok};
ghost use Rattle.std.specs.List.{list_any};
ghost use Rattle.beam_term.specs.TermValue.{nil_term};
ghost use Rattle.beam_machine.specs.declared.event.Event.TheVariants as event;
ghost use Rattle.beam_machine.specs.declared.event.Reply.{Reply};
ghost use Rattle.beam_machine.specs.declared.event.Reply.TheVariants.{Changed};
ghost use Rattle.beam_model.specs.Listing.{Listing};
ghost use Rattle.beam_model.specs.SameText.{same_text};
ghost use Rattle.beam_machine.specs.Code.{versions_of};
ghost use Rattle.beam_machine.specs.Process.{Process, ended, killed};
ghost use Rattle.beam_machine.specs.Change.{current_of, old_of, lingers, lingers_in_old, pids_of};
ghost use Rattle.beam_machine.specs.State.{State, process_of, with_signals, downs};
ghost use Rattle.beam_machine.specs.Next.{next};

/// A purge ends exactly the processes that linger in the module's old instance. Each other process is as it was, but gets a DOWN for each
/// of its monitors of those, by their pids and then by the references, after the signals that were in transit to it.
pub fn purge_ends_what_lingers()
    ensures ends { (s : State) (name : List ℕ) (number pid : ℕ) (p : Process) → old_of s.code name ≡ Some number → process_of s.processes pid ≡ Some p
        → lingers number p ≡ true
        → process_of (next s (event.Purge name)).state.processes pid ≡ Some (ended p killed nil_term) }
    ensures spares { (s : State) (name : List ℕ) (number pid : ℕ) (p : Process) → old_of s.code name ≡ Some number → process_of s.processes pid ≡ Some p
        → lingers number p ≡ false
        → process_of (next s (event.Purge name)).state.processes pid
        ≡ Some (with_signals (flat_map (λ at. downs at killed p.monitors) (pids_of (lingers number) s.processes)) p) }
    ensures idle { (s : State) (name : List ℕ) → old_of s.code name ≡ None → (next s (event.Purge name)).state.processes ≡ s.processes }
    ensures count { (s : State) (name : List ℕ) → length (next s (event.Purge name)).state.processes ≡ length s.processes }
{}

/// A purge removes the module's old instance, and leaves its current one.
pub fn purge_removes_old_code()
    ensures old { (s : State) (name : List ℕ) → old_of (next s (event.Purge name)).state.code name ≡ None }
    ensures current { (s : State) (name : List ℕ) → current_of (next s (event.Purge name)).state.code name ≡ current_of s.code name }
    ensures others { (s : State) (name other : List ℕ) → same_text name other ≡ false → versions_of (next s (event.Purge name)).state.code other
        ≡ versions_of s.code other }
{}

/// A soft purge ends no process: it removes the old instance only where none lingers in it.
pub fn soft_purge_ends_none()
    ensures kept { (s : State) (name : List ℕ) → (next s (event.SoftPurge name)).state.processes ≡ s.processes }
    ensures removed { (s : State) (name : List ℕ) → (next s (event.SoftPurge name)).answer ≡ Ok (Changed true)
        → (list_any (lingers_in_old s.code name) s.processes ≡ false) × (old_of (next s (event.SoftPurge name)).state.code name ≡ None) }
{}

/// A load that isn't refused ends the same processes as a purge of its module; a strict load ends none.
pub fn load_purges_first()
    ensures load { (s : State) (l : Listing) (r : Reply) → (next s (event.Load l)).answer ≡ Ok r
        → (next s (event.Load l)).state.processes ≡ (next s (event.Purge l.name)).state.processes }
    ensures strict { (s : State) (l : Listing) → (next s (event.LoadStrict l)).state.processes ≡ s.processes }
{}
