//! Times, each of which may be missing.
ghost use Rattle.std.specs.Prelude.{◌≡◌, ◌<◌, ◌+◌, ◌*◌, [], ◌∷◌, ◌++◌, length, slice_get, slice_set, Option, ℕ, Some, OnOk, OnErr, IfOk, IfSome, if◌then◌else◌};
ghost use Rattle.beam_agenda.specs.Entries.{earlier, is_due_by};
ghost use Rattle.beam_agenda.specs.Pairs.{pairs};
ghost use Rattle.beam_agenda.specs.Positions.{position_from};
ghost use Rattle.beam_agenda.specs.Least.{least_of};

use std::alloc::{AllocError, Global};
use std::marker::Model;

/// A list of times that finds the least one, and the first one that is due.
#[cycle(times)]
#[derive(Drop)]
pub(crate) struct Times {
    alloc: Global,
    times: Vec<Option<u64>>,
    above: Above,
}

/// The list above a list: one time for each two neighbours; none for a list of one time or of no times.
#[cycle(times)]
#[derive(Drop)]
enum Above {
    Top,
    Level(Box<Times>),
}

impl Model for Times {
    ghost use Rattle.std.specs.Prelude.{ℕ, List, Option, length};

    ghost Value = { List (Option ℕ) };

    ghost use Rattle.beam_agenda.specs.TimeLevels.{LevelsAgree};

    ghost view = { λ a. a.times.items };

    ghost invariant = { λ a. LevelsAgree a.times.items a.above };

    ghost size = { length };

    ghost use Rattle.beam_agenda.specs.TimeSizes.{shorter};

    ghost size_decreases = { λ a h. shorter a.times.items a.above h };
}

/// The earlier of two times.
pub(crate) fn earlier(a: Option<u64>, b: Option<u64>) -> Option<u64>
    ensures { result ≡ earlier a b }
{
    match (a, b) {
        (Some(a), Some(b)) => Some(if a <= b { a } else { b }),
        (Some(a), None) => Some(a),
        (None, b) => b,
    }
}

fn is_due_by(at: u64, due: Option<u64>) -> bool
    ensures { result ≡ is_due_by at due }
{
    match due {
        Some(due) => due <= at,
        None => false,
    }
}

/// The time at a position of the list above: the earlier of the two times for which it stands.
fn pair(times: &[Option<u64>], at: usize) -> Option<u64>
    requires { 2 * at < length times.now }
    ensures { Some result ≡ slice_get (pairs times.now) at }
{
    let left = 2 * at;
    match times.get(left + 1) {
        Some(right) => earlier(times[left], *right),
        None => times[left],
    }
}

/// The position of the first of the two times for which the one at `at` of the list above stands, if the first is due, else of the second.
fn due_of_pair(times: &[Option<u64>], by: u64, at: usize) -> usize
    requires { 2 * at < length times.now }
    ensures { (due : Option ℕ) → slice_get times.now (2 * at) ≡ Some due → result ≡ (if is_due_by by due then 2 * at else 2 * at + 1) }
{
    let left = 2 * at;
    if is_due_by(by, times[left]) {
        left
    } else {
        left + 1
    }
}

impl Times {
    /// An empty list.
    pub(crate) fn new(alloc: Global) -> Times
        ensures { result ≡ [] }
    {
        Times {
            alloc,
            times: Vec::new(alloc),
            above: Above::Top,
        }
    }

    /// How many times it has.
    pub(crate) fn len(&self) -> usize
        ensures { result ≡ length self.now }
    {
        self.times.len()
    }

    /// The time at a position.
    pub(crate) fn get(&self, index: usize) -> Option<u64>
        requires { index < length self.now }
        ensures { Some result ≡ slice_get self.now index }
    {
        self.times[index]
    }

    /// Changes a time, in O(log n).
    pub(crate) fn set(&mut self, index: usize, due: Option<u64>)
        requires { index < length self.old }
        ensures { self.new ≡ slice_set self.old index due }
    {
        if self.times[index] == due {
            return;
        }
        self.times[index] = due;
        let pair = pair(&self.times, index / 2);
        match &mut self.above {
            Above::Top => {}
            Above::Level(above) => above.set(index / 2, pair),
        }
    }

    /// Adds a time at the end, in O(log n), amortized. Where memory is refused nothing changes.
    pub(crate) fn push(&mut self, due: Option<u64>) -> Result<(), AllocError>
        ensures ok { OnOk result (self.new ≡ self.old ++ due ∷ []) }
        ensures err { OnErr result (self.new ≡ self.old) }
    {
        self.times.reserve(1)?;
        let count = self.times.len();
        match &mut self.above {
            Above::Top if count == 0 => {}
            Above::Top => {
                let first = earlier(self.times[0], due);
                self.above = Above::Level(Times::of_one(self.alloc, first)?);
            }
            Above::Level(above) if count % 2 == 0 => above.push(due)?,
            Above::Level(above) => above.set(count / 2, earlier(self.times[count - 1], due)),
        }
        self.times.push_reserved(due);
        Ok(())
    }

    fn of_one(alloc: Global, due: Option<u64>) -> Result<Box<Times>, AllocError>
        ensures { IfOk result (λ one. one.value ≡ due ∷ []) }
    {
        let mut times = Vec::new(alloc);
        times.push(due)?;
        let above = Above::Top;
        Ok(Box::new(
            alloc,
            Times {
                alloc,
                times,
                above,
            },
        )?)
    }

    /// The first position, at `from` or after it, whose time is due by `by`, in O(log n).
    pub(crate) fn first_due(&self, by: u64, from: usize) -> Option<usize>
        ensures first { result ≡ position_from (is_due_by by) from self.now }
        ensures within { IfSome result (λ n. n < length self.now) }
    {
        let due = self.times.get(from)?;
        if is_due_by(by, *due) {
            return Some(from);
        }
        let Above::Level(above) = &self.above else {
            return None;
        };
        match above.first_due(by, from / 2 + from % 2) {
            Some(pair) => Some(due_of_pair(&self.times, by, pair)),
            None => None,
        }
    }

    /// The least of all times, in O(log n).
    pub(crate) fn least(&self) -> Option<u64>
        ensures { result ≡ least_of self.now }
    {
        match &self.above {
            Above::Top => *self.times.first()?,
            Above::Level(above) => above.least(),
        }
    }
}
