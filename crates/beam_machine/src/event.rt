//! Events, replies and refusals.

use beam_term::{Atom, Term};
use std::alloc::{AllocError, AllocFailed};
use std::marker::Model;
use thiserror::Error;

/// The arguments that a process starts with, at most 255.
#[derive(Debug, Drop)]
pub struct SpawnArguments {
    items: Vec<Term>,
}

impl Model for SpawnArguments {
    ghost use Rattle.std.specs.Prelude.{List, ◌≤◌, length};
    ghost use Rattle.std.specs.Coded.{coded_list};
    ghost use Rattle.beam_term.specs.Coding.{term_code};
    ghost use Rattle.beam_term.specs.TermValue.{TermValue};

    ghost Value = { List TermValue };

    ghost coded = { coded_list term_code };

    ghost view = { λ t. t.items.items };

    ghost invariant = { λ t. length t.items.items ≤ 255 };
}

impl SpawnArguments {
    ghost use Rattle.std.specs.Prelude.{◌≡◌, ◌<◌, ◌≤◌, length, MatchOption};

    /// These arguments; none where there are more than 255.
    pub fn new(items: Vec<Term>) -> Option<SpawnArguments>
        ensures { MatchOption result (255 < length items.items) (λ t. t ≡ items.items) }
    {
        if items.len() > 255 {
            return None;
        }
        Some(SpawnArguments { items })
    }

    /// The arguments, in their order.
    pub fn as_slice(&self) -> &[Term]
        ensures value { result.now ≡ self.now }
        ensures few { length self.now ≤ 255 }
    {
        &self.items
    }
}

/// How an upgrade list treats old code of its modules.
#[derive(Clone, Copy, Debug, PartialEq, Eq)]
pub enum UpgradeMode {
    /// The list is refused where a module has old code.
    Strict,
    /// Old code is removed; the list is refused where a process lingers in it.
    Soft,
    /// Old code is removed, and the processes that linger in it end.
    Hard,
}

/// Images that are loaded together. Contracts see the images.
#[derive(Drop)]
pub struct Images<I> {
    items: Vec<I>,
}

impl<I> Model for Images<I> {
    ghost use Rattle.std.specs.Prelude.{List};
    ghost use Rattle.std.specs.Coded.{coded_list};

    ghost Value = { List I };

    ghost coded = { coded_list I.code };

    ghost view = { λ s. s.items.items };
}

impl<I> Images<I> {
    ghost use Rattle.std.specs.Prelude.{◌≡◌};

    /// These images, in their order.
    pub fn new(items: Vec<I>) -> Images<I>
        ensures { result ≡ items.items }
    {
        Images { items }
    }

    /// The images, in their order.
    pub fn as_slice(&self) -> &[I]
        ensures { result.now ≡ self.now }
    {
        &self.items
    }
}

/// What happens to the node, one after another. `I` is a prepared image.
#[derive(Drop)]
pub enum Event<I> {
    /// An image's module is loaded: its old code is purged, and its current code becomes old.
    Load(I),
    /// An image's module is loaded, and its current code becomes old. Refused where the module has old code.
    LoadStrict(I),
    /// The modules of images are loaded together, in their order: all of them, or none.
    AtomicLoad {
        mode: UpgradeMode,
        images: Images<I>,
    },
    /// A module's current code becomes old.
    Delete(Atom),
    /// A module's old code is removed, unless a process lingers in it.
    SoftPurge(Atom),
    /// A module's old code is removed, and the processes that linger in it end.
    Purge(Atom),
    /// The instances of a module are asked for.
    Versions(Atom),
    /// A process starts; its first row enters the function of that name and of as many arguments.
    Spawn {
        module: Atom,
        function: Atom,
        arguments: SpawnArguments,
    },
    /// A message is sent to a process, by its pid or its name.
    Send {
        to: Term,
        message: Term,
    },
    /// A process runs at most `rows` rows: fewer if it waits or ends.
    Steps {
        pid: u32,
        rows: u32,
    },
    /// The signals in transit to a process arrive.
    Deliver {
        pid: u32,
    },
    /// The clock moves, in milliseconds.
    Clock {
        now: u64,
    },
    /// A waiting process whose deadline has come goes on.
    Timeout {
        pid: u32,
    },
}

/// How a process stands after its rows.
#[derive(Debug, Drop)]
pub enum Then {
    GoesOn,
    Waits,
    Ended { reason: Term, value: Term },
}

/// The numbers of a module's current and old instance, where it has them.
#[derive(Clone, Copy, Debug)]
pub struct Numbers {
    pub current: Option<u32>,
    pub old: Option<u32>,
}

/// The numbers of the instances of modules, in the order of a list. Contracts see that list.
#[derive(Debug, Drop)]
pub struct NumberList {
    items: Vec<Numbers>,
}

impl Model for NumberList {
    ghost use Rattle.std.specs.Prelude.{List};
    ghost use Rattle.beam_machine.specs.declared.event.Numbers.{Numbers};

    ghost Value = { List Numbers };

    ghost view = { λ l. l.items.items };
}

impl NumberList {
    ghost use Rattle.std.specs.Prelude.{◌≡◌};

    /// These numbers, in their order.
    pub fn new(items: Vec<Numbers>) -> NumberList
        ensures { result ≡ items.items }
    {
        NumberList { items }
    }

    /// The numbers, in their order.
    pub fn as_slice(&self) -> &[Numbers]
        ensures { result.now ≡ self.now }
    {
        &self.items
    }
}

/// The answer to an event that isn't refused.
#[derive(Debug, Drop)]
pub enum Reply {
    Done,
    /// The answer to a change of code: true or false.
    Changed(bool),
    /// A module's instances.
    Versions {
        current: Option<u32>,
        old: Option<u32>,
    },
    /// The instances of the modules of an upgrade list.
    Upgraded(NumberList),
    /// The number of the process that was started.
    Started(u32),
    /// How many rows were done, and how the process stands.
    Ran {
        count: u32,
        then: Then,
    },
}

/// Why an event is refused. It then changes nothing.
#[derive(Clone, Copy, Debug, PartialEq, Eq, Error)]
pub enum Refused {
    /// Memory was refused.
    #[error("NoMemory")]
    NoMemory,
    /// The process was never started, or has ended; or there is none of that name.
    #[error("NoProcess")]
    NoProcess,
    /// The clock would go back.
    #[error("BackwardClock")]
    BackwardClock,
    /// The process waits (`Steps`); its deadline hasn't come, or it doesn't wait (`Timeout`); or no signal is in transit to it (`Deliver`).
    #[error("NotReady")]
    NotReady,
    /// The process is held by the debugger.
    #[error("Stopped")]
    Stopped,
    /// No row stands where a break spot is to be set or cleared.
    #[error("BadSpot")]
    BadSpot,
    /// The module `erlang` can't be loaded.
    #[error("Sticky")]
    Sticky,
    /// The module has old code.
    #[error("NotPurged")]
    NotPurged,
    /// A module stands twice in an upgrade list.
    #[error("Duplicated")]
    Duplicated,
    /// There can't be more processes, or instances.
    #[error("TooMany")]
    TooMany,
}

impl Refused {
    ghost use Rattle.std.specs.Prelude.{◌≡◌};
    ghost use Rattle.beam_machine.specs.Refusal.{number_of_refusal};

    /// Its number. Those that are missing are refusals of a node on several threads, of a journal, and of files.
    pub fn number(&self) -> u8
        ensures { result ≡ number_of_refusal self.now }
    {
        match self {
            Refused::NoMemory => 1,
            Refused::NoProcess => 2,
            Refused::BackwardClock => 3,
            Refused::NotReady => 4,
            Refused::Stopped => 5,
            Refused::Sticky => 7,
            Refused::NotPurged => 8,
            Refused::Duplicated => 9,
            Refused::BadSpot => 11,
            Refused::TooMany => 13,
        }
    }
}

impl From<AllocError> for Refused {
    ghost use Rattle.std.specs.Prelude.{◌≡◌};
    ghost use Rattle.beam_machine.specs.declared.event.Refused.TheVariants.{NoMemory};

    ghost from_gives = { λ _ e. e ≡ NoMemory };

    fn from(_refused: AllocError) -> Refused {
        Refused::NoMemory
    }
}

impl<T: Drop> From<AllocFailed<T>> for Refused {
    ghost use Rattle.std.specs.Prelude.{◌≡◌};
    ghost use Rattle.beam_machine.specs.declared.event.Refused.TheVariants.{NoMemory};

    ghost from_gives = { λ _ e. e ≡ NoMemory };

    fn from(_refused: AllocFailed<T>) -> Refused {
        Refused::NoMemory
    }
}
