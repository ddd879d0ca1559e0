//! Which positions are set.
ghost use Rattle.std.specs.Prelude.{◌≡◌, ◌<◌, ◌≤◌, ◌+◌, ◌*◌, ◌/◌, [], ◌∷◌, ◌++◌, length, slice_get, slice_set, take, Some, OnOk, OnErr, IfOk, IfSome, nat_le, if◌then◌else◌};
ghost use Rattle.std.specs.List.{count_by};
ghost use Rattle.beam_agenda.specs.Groups.{is_set};
ghost use Rattle.beam_agenda.specs.Positions.{position_from};

use std::alloc::{AllocError, Global};
use std::marker::Model;

/// A list of numbers that finds the first one that isn't 0.
#[cycle(flags)]
#[derive(Drop)]
pub(crate) struct Flags {
    alloc: Global,
    numbers: Vec<u8>,
    above: Above,
}

/// The list above a list: for each group of 16 numbers how many of them aren't 0; none for a list of one group or of no numbers.
#[cycle(flags)]
#[derive(Drop)]
enum Above {
    Top,
    Level(Box<Flags>),
}

impl Model for Flags {
    ghost use Rattle.std.specs.Prelude.{ℕ, List, length};

    ghost Value = { List ℕ };

    ghost use Rattle.beam_agenda.specs.FlagLevels.{LevelsAgree};

    ghost view = { λ a. a.numbers.items };

    ghost invariant = { λ a. LevelsAgree a.numbers.items a.above };

    ghost size = { length };

    ghost use Rattle.beam_agenda.specs.FlagSizes.{shorter};

    ghost size_decreases = { λ a h. shorter a.numbers.items a.above h };
}

/// How many of the numbers aren't 0.
fn count(numbers: &[u8]) -> u8
    requires { length numbers.now ≤ 16 }
    ensures { result ≡ count_by is_set numbers.now }
{
    let mut count = 0;
    for number in numbers {
        if *number != 0 {
            count += 1;
        }
    }
    count
}

/// The first position, at `from` or after it in its group of 16, whose number isn't 0.
fn first_in_group(numbers: &[u8], from: usize) -> Option<usize>
    requires { from < length numbers.now }
    ensures { result ≡ position_from is_set from (take (16 * (from / 16) + 16) numbers.now) }
{
    let end = numbers.len().min(16 * (from / 16) + 16);
    for at in from..end {
        if numbers[at] != 0 {
            return Some(at);
        }
    }
    None
}

impl Flags {
    /// An empty list.
    pub(crate) fn new(alloc: Global) -> Flags
        ensures { result ≡ [] }
    {
        Flags {
            alloc,
            numbers: Vec::new(alloc),
            above: Above::Top,
        }
    }

    fn get(&self, index: usize) -> u8
        requires { index < length self.now }
        ensures { Some result ≡ slice_get self.now index }
    {
        self.numbers[index]
    }

    /// Changes a number, in O(log n), and in O(1) where the count of numbers that aren't 0 stays.
    pub(crate) fn set(&mut self, index: usize, number: u8)
        requires { index < length self.old }
        ensures { self.new ≡ slice_set self.old index number }
    {
        let was_set = self.numbers[index] != 0;
        let is_set = number != 0;
        self.numbers[index] = number;
        if was_set == is_set {
            return;
        }
        match &mut self.above {
            Above::Top => {}
            Above::Level(above) => {
                let count = above.get(index / 16);
                above.set(index / 16, if is_set { count + 1 } else { count - 1 });
            }
        }
    }

    /// Adds a 0 at the end if there are no more than `count` numbers. Where memory is refused nothing changes.
    pub(crate) fn make_room(&mut self, count: usize) -> Result<(), AllocError>
        ensures ok { OnOk result (self.new ≡ (if nat_le (length self.old) count then self.old ++ 0 ∷ [] else self.old)) }
        ensures err { OnErr result (self.new ≡ self.old) }
    {
        if self.numbers.len() > count {
            return Ok(());
        }
        self.add()
    }

    /// Adds a 0 at the end, in O(log n), amortized O(1). Where memory is refused nothing changes.
    fn add(&mut self) -> Result<(), AllocError>
        ensures ok { OnOk result (self.new ≡ self.old ++ 0 ∷ []) }
        ensures err { OnErr result (self.new ≡ self.old) }
    {
        self.numbers.reserve(1)?;
        let length = self.numbers.len();
        match &mut self.above {
            Above::Top if length < 16 => {}
            Above::Top => {
                let first = count(&self.numbers);
                self.above = Above::Level(Flags::of_two(self.alloc, first)?);
            }
            Above::Level(above) if length % 16 == 0 => above.add()?,
            Above::Level(_) => {}
        }
        self.numbers.push_reserved(0);
        Ok(())
    }

    fn of_two(alloc: Global, first: u8) -> Result<Box<Flags>, AllocError>
        ensures { IfOk result (λ two. two.value ≡ first ∷ 0 ∷ []) }
    {
        let mut numbers = Vec::new(alloc);
        numbers.push(first)?;
        numbers.push(0)?;
        let above = Above::Top;
        Ok(Box::new(
            alloc,
            Flags {
                alloc,
                numbers,
                above,
            },
        )?)
    }

    /// The first position, at `from` or after it, whose number isn't 0, in O(log n).
    pub(crate) fn first_from(&self, from: usize) -> Option<usize>
        ensures first { result ≡ position_from is_set from self.now }
        ensures within { IfSome result (λ n. n < length self.now) }
    {
        if from >= self.numbers.len() {
            return None;
        }
        if let Some(at) = first_in_group(&self.numbers, from) {
            return Some(at);
        }
        let Above::Level(above) = &self.above else {
            return None;
        };
        let group = above.first_from(from / 16 + 1)?;
        first_in_group(&self.numbers, 16 * group)
    }
}
