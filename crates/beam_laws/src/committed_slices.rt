//! Laws of slices: rows of a process over break spots that are done apart from the node, and count later.

ghost use Rattle.std.specs.Prelude.{◌≡◌, ◌≤◌, ◌<◌, ℕ, ◌+◌, Bool, true, false, List, [], Some};
ghost use Rattle.beam_machine.specs.declared.debug.DebugEvent.TheVariants.{Node as NodeEvent};
ghost use Rattle.beam_machine.specs.declared.debug.DebugReply.TheVariants.{Node, Held};
ghost use Rattle.beam_machine.specs.declared.event.Event.TheVariants as event;
ghost use Rattle.beam_machine.specs.declared.event.Reply.TheVariants.{Ran};
ghost use Rattle.beam_model.specs.Place.{Place};
ghost use Rattle.beam_machine.specs.Code.{Code};
ghost use Rattle.beam_machine.specs.Debug.{Debugged, is_among, is_at_spot, with_pid, halting, replies, after_rows, halts, debug_next};
ghost use Rattle.beam_machine.specs.Next.{steps};
ghost use Rattle.beam_machine.specs.Private.{Private, at_limit, after_row, before_node_row, at_spot, private_rows, private_to_spot};
ghost use Rattle.beam_machine.specs.Process.{Process, is_running, is_ended, then_of};
ghost use Rattle.beam_machine.specs.State.{process_of};
ghost use Rattle.beam_laws.specs.Private.{IsStill, with_name_and_transit, with_name_and_transit_of};
ghost use Rattle.beam_laws.specs.EarlierCode.{IsEarlierCode, same_numbers};
ghost use Rattle.beam_laws.specs.Origin.{Origin};
ghost use Rattle.beam_laws.specs.Out.{IsOut};
ghost use Rattle.beam_laws.specs.Slice.{slice_of, CanCommit, committed, and_next_row, passes_after, before_halting};

/// Private rows over break spots read neither the name of the process nor the signals in transit to it, and keep both and its pid. Rows
/// that end early are the rows under a limit of exactly their count. Without break spots they are the private rows.
pub fn rows_to_a_spot()
    ensures later { (spots : List Place) (passes : Bool) (code : Code) (n : ℕ) (p q : Process) → IsStill p q
        → private_to_spot spots passes code n q ≡ with_name_and_transit_of q (private_to_spot spots passes code n p) }
    ensures given { (spots : List Place) (passes : Bool) (code : Code) (n : ℕ) (p : Process)
        → with_name_and_transit p.name p.transit (private_to_spot spots passes code n p).process ≡ (private_to_spot spots passes code n p).process }
    ensures pid { (spots : List Place) (passes : Bool) (code : Code) (n : ℕ) (p : Process)
        → (private_to_spot spots passes code n p).process.pid ≡ p.pid }
    ensures cut { (spots : List Place) (passes : Bool) (code : Code) (n : ℕ) (p : Process)
        → private_to_spot spots passes code (private_to_spot spots passes code n p).count p
        ≡ record (private_to_spot spots passes code n p) { end = at_limit } }
    ensures none { (passes : Bool) (code : Code) (n : ℕ) (p : Process) → private_to_spot [] passes code n p ≡ private_rows code n p }
{}

/// A slice of at most n rows is a process's private rows over break spots, from its state at the checkout. A slice that ends at its limit
/// has exactly n rows; one that ends after a row has a process that waits or has ended; one that ends before a row of the node or at a
/// break spot has fewer than n, and its process runs.
pub fn slices_end()
    ensures limit { (o : Origin) (n : ℕ) → (slice_of o n).end ≡ at_limit → (slice_of o n).count ≡ n }
    ensures row { (o : Origin) (n : ℕ) → (slice_of o n).end ≡ after_row
        → ((slice_of o n).count ≤ n) × (is_running (slice_of o n).process.status ≡ false) }
    ensures node_row { (o : Origin) (n : ℕ) → (slice_of o n).end ≡ before_node_row
        → ((slice_of o n).count < n) × (is_running (slice_of o n).process.status ≡ true) }
    ensures at_spot { (o : Origin) (n : ℕ) → (slice_of o n).end ≡ at_spot
        → ((slice_of o n).count < n) × (is_running (slice_of o n).process.status ≡ true) × (is_at_spot o.spots (slice_of o n).process.goes ≡ true) }
{}

/// A process that is out, and hasn't ended meanwhile, can be committed where the node has the break spots and the instances that it had
/// at the checkout.
pub fn out_can_commit()
    ensures { (d : Debugged) (o : Origin) (q : Process) → IsOut d o → process_of d.node.processes o.pid ≡ Some q → is_ended q.status ≡ false
        → IsEarlierCode o.code d.node → same_numbers o.code d.node.code ≡ true → d.spots ≡ o.spots → CanCommit d o q }
{}

/// A slice can be committed later, after any events, where the node has the code and the break spots of the checkout, and the process is
/// as it was checked out, except for its name and the signals in transit to it. The slice's rows are then the process's next rows, and
/// further ones go on from there. An event of exactly these rows leads to the process that they made, with the name and the signals that
/// it got meanwhile, and posts the signals that they sent and the DOWNs of its end. If they ended before a break spot, an event of one row
/// more leads there too, and the process is held; if they ended before a row of the node, that row is done after them.
pub fn slices_count_later()
    ensures further { (d : Debugged) (o : Origin) (n m : ℕ) (q : Process) (r : Private) → r ≡ slice_of o n → CanCommit d o q
        → is_ended o.process.status ≡ false → halting d.spots (is_among o.pid d.passing) d.node o.pid (r.count + m)
        ≡ before_halting r.count (halting d.spots (passes_after r.count o.passes) (committed d.node o.pid q r).state o.pid m) }
    ensures event { (d : Debugged) (o : Origin) (n m : ℕ) (q : Process) (r : Private) → r ≡ slice_of o n → CanCommit d o q
        → is_running o.process.status ≡ true → debug_next d (NodeEvent (event.Steps o.pid (r.count + m)))
        ≡ halts d o.pid (before_halting r.count (halting d.spots (passes_after r.count o.passes) (committed d.node o.pid q r).state o.pid m)) }
    ensures rows { (d : Debugged) (o : Origin) (n : ℕ) (q : Process) (r : Private) → r ≡ slice_of o n → CanCommit d o q
        → is_running o.process.status ≡ true → debug_next d (NodeEvent (event.Steps o.pid r.count))
        ≡ replies (after_rows d o.pid (committed d.node o.pid q r)) (Node (Ran r.count (then_of r.process.status))) }
    ensures at_spot { (d : Debugged) (o : Origin) (n : ℕ) (q : Process) (r : Private) → r ≡ slice_of o n → CanCommit d o q
        → is_running o.process.status ≡ true → r.end ≡ at_spot → debug_next d (NodeEvent (event.Steps o.pid (r.count + 1)))
        ≡ replies (record (after_rows d o.pid (committed d.node o.pid q r)) { held = with_pid o.pid d.held }) (Held r.count) }
    ensures one { (d : Debugged) (o : Origin) (n : ℕ) (q : Process) (r : Private) → r ≡ slice_of o n → CanCommit d o q
        → r.end ≡ before_node_row → (steps (committed d.node o.pid q r).state o.pid 1).count ≡ 1 }
    ensures node_row { (d : Debugged) (o : Origin) (n : ℕ) (q : Process) (r : Private) → r ≡ slice_of o n → CanCommit d o q
        → is_running o.process.status ≡ true → r.end ≡ before_node_row
        → (z : Process) × (process_of (and_next_row (committed d.node o.pid q r) o.pid).state.processes o.pid ≡ Some z)
        × (debug_next d (NodeEvent (event.Steps o.pid (r.count + 1)))
        ≡ replies (after_rows d o.pid (and_next_row (committed d.node o.pid q r) o.pid)) (Node (Ran (r.count + 1) (then_of z.status)))) }
{}
