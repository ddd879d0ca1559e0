//! Which takes of a worker begin with a steal.
ghost use Rattle.std.specs.Prelude.{◌≡◌, ◌↔◌, IsTrue};
ghost use Rattle.beam_sched.specs.StealTurns.{after_take};

/// One of this many takes begins with a steal, while steals find nothing.
const STEAL_EVERY: u32 = 16;

/// How many takes of a worker are left before one begins with a steal. What commands made runnable is in queues without a worker, from which
/// processes are only stolen: so a worker whose own queue is never empty has to steal too, and the more often the more it finds.
#[derive(Clone, Copy, Debug)]
pub struct StealTurns {
    pub left: u32,
}

impl StealTurns {
    /// The next take begins with a steal.
    pub fn new() -> StealTurns
        ensures { result.left ≡ 0 }
    {
        StealTurns { left: 0 }
    }

    /// Counts a take. Tells whether it begins with a steal: one of 16 does.
    pub fn take(&mut self) -> bool
        ensures steals { IsTrue result ↔ (self.old.left ≡ 0) }
        ensures left { self.new.left ≡ after_take self.old.left }
    {
        let steals = self.left == 0;
        self.left = if steals {
            STEAL_EVERY - 1
        } else {
            self.left - 1
        };
        steals
    }

    /// Notes that a take which began with a steal has found a process: more may be there, so the take after the next one begins with a
    /// steal again.
    pub fn note_found(&mut self)
        ensures { self.new.left ≡ 1 }
    {
        self.left = 1;
    }
}
