//! Whether a process lingers in an instance, or in one of several.
ghost use Rattle.std.specs.Prelude.{◌≡◌};
ghost use Rattle.std.specs.List.{list_any};
ghost use Rattle.beam_machine.specs.Change.{lingers, goes_in, is_deadline_in};

use crate::process::Process;
use beam_machine::process::Goes;
use indexmap::IndexSet;

impl Process {
    /// Whether the row at which it goes on lies in that instance.
    fn goes_in(&self, number: u32) -> bool
        ensures { result ≡ goes_in number self.now.goes }
    {
        match &self.goes {
            Goes::At(place) => place.instance() == number,
            Goes::Enter { .. } | Goes::Nowhere => false,
        }
    }

    /// Whether the row after its deadline lies in that instance.
    fn wakes_in(&self, number: u32) -> bool
        ensures { result ≡ is_deadline_in number self.now.deadline }
    {
        match self.deadline {
            Some(deadline) => deadline.after.instance() == number,
            None => false,
        }
    }

    /// Whether it goes on, returns or catches in that instance. It takes no memory.
    pub fn lingers(&self, number: u32) -> bool
        ensures { result ≡ lingers number self.now }
    {
        self.goes_in(number) || self.wakes_in(number) || self.frames.are_in(number)
    }

    /// Whether the row at which it goes on lies in one of those instances.
    fn goes_in_any(&self, numbers: &IndexSet<u32>) -> bool
        ensures { result ≡ list_any (λ n. goes_in n self.now.goes) numbers.now.keys }
    {
        match &self.goes {
            Goes::At(place) => numbers.contains(&place.instance()),
            Goes::Enter { .. } => false,
            Goes::Nowhere => false,
        }
    }

    /// Whether the row after its deadline lies in one of those instances.
    fn wakes_in_any(&self, numbers: &IndexSet<u32>) -> bool
        ensures { result ≡ list_any (λ n. is_deadline_in n self.now.deadline) numbers.now.keys }
    {
        match self.deadline {
            Some(deadline) => numbers.contains(&deadline.after.instance()),
            None => false,
        }
    }

    /// Whether it goes on, returns or catches in one of those instances, however many they are. It takes no memory.
    pub fn lingers_in_any(&self, numbers: &IndexSet<u32>) -> bool
        ensures { result ≡ list_any (λ n. lingers n self.now) numbers.now.keys }
    {
        self.goes_in_any(numbers) || self.wakes_in_any(numbers) || self.frames.are_in_any(numbers)
    }
}
