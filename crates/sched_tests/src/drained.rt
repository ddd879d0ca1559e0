//! Nodes of which entries leave memory.
ghost use Rattle.std.specs.Prelude.{◌≡◌};

use crate::drained_rows::{DrainedRow, rows};
use beam_image::Image;
use beam_journal::entry::Entry;
use beam_journal::node_journal::NodeJournal;
use beam_machine::debug::DebugEvent;
use beam_machine::event::Event;
use beam_receipts::brand::NodeBrand;
use beam_receipts::drain::DrainReceipt;
use beam_receipts::keeper::UnbrandedKeeper;
use beam_receipts::seat::SeatReceipt;
use beam_shared::checkout::Checkout;
use beam_shared::node::Node;
use node_testing::commands::Argument::Integer;
use node_testing::commands::Commands;
use node_testing::listings::SUM;
use std::alloc::{AllocError, Global};
use std::marker::Brand;
use std::mem;
use std::test::*;

/// Which of two receipts is used.
#[derive(Clone, Copy)]
pub enum Taker {
    First,
    Second,
}

/// What is done with a node.
#[derive(Clone, Copy)]
pub enum Step {
    /// A seat loads the module of `sum`.
    Load,
    /// A seat starts a process of it.
    Start,
    /// A seat sets the clock.
    Clock(u64),
    /// Process 1 is checked out.
    CheckOut,
    /// One row of the process that was checked out last is run, and committed.
    Commit,
    /// Entries leave memory, by a receipt, for a list with room for this many at least.
    Drain(Taker, usize),
    /// Entries leave memory, by a receipt, for the list of the step before that exchanged lists.
    DrainAgain(Taker),
}

/// A node, with a seat and two receipts.
struct Drained<B: NodeBrand> {
    alloc: Global,
    node: Node<B>,
    seat: SeatReceipt<B>,
    first: DrainReceipt<B>,
    second: DrainReceipt<B>,
    checkout: Option<Checkout<B>>,
    /// The list that came last from the node, whether it left memory or came back.
    left: Vec<Entry>,
}

impl<B: NodeBrand> Drop for Drained<B> {
    fn drop(self) {
        let Drained {
            alloc: _alloc,
            node: _node,
            seat: _seat,
            first: _first,
            second: _second,
            checkout: _checkout,
            left: _left,
        } = self;
    }
}

fn event_word(alloc: Global, event: &Event<Image>) -> Result<String, AllocError> {
    match event {
        Event::Load(_) => format!(in alloc; "load"),
        Event::Spawn { .. } => format!(in alloc; "start"),
        Event::Clock { now } => format!(in alloc; "clock{now}"),
        Event::Steps { rows, .. } => format!(in alloc; "rows{rows}"),
        _ => format!(in alloc; "another"),
    }
}

fn entry_word(alloc: Global, entry: &Entry) -> Result<String, AllocError> {
    match entry.event() {
        DebugEvent::Node(event) => event_word(alloc, event),
        _ => format!(in alloc; "another"),
    }
}

/// The words of entries, with a comma between two of them.
fn entry_words(alloc: Global, entries: &[Entry]) -> Result<String, AllocError> {
    let mut words = String::new(alloc);
    for entry in entries {
        if !words.is_empty() {
            words.push_str(",")?;
        }
        words.push_str(&entry_word(alloc, entry)?)?;
    }
    Ok(words)
}

/// A list without entries, with room for this many at least.
fn room(alloc: Global, count: usize) -> Result<Vec<Entry>, AllocError> {
    let mut room = Vec::new(alloc);
    room.reserve(count)?;
    Ok(room)
}

/// What a node's journal has at its end.
fn journal_text(alloc: Global, journal: NodeJournal) -> Result<String, AllocError> {
    let words = entry_words(alloc, journal.entries())?;
    let count = journal.len();
    match journal.into_whole() {
        Ok(whole) => format!(in alloc; "memory:{words}; whole: {}", whole.len()),
        Err(back) => format!(in alloc; "memory:{words}; gone: {} of {count}", back.drained()),
    }
}

impl<B: NodeBrand> Drained<B> {
    /// A node of which three entries can be in memory.
    fn new(alloc: Global, unbranded: UnbrandedKeeper) -> Result<Drained<B>, Fail>
        requires node { unbranded ≡ B.table }
        requires limit { B.limit ≡ 3 }
    {
        let mut node = Node::<B>::with_limit(alloc, unbranded, 3);
        let first = node.drain_receipt();
        let second = node.drain_receipt();
        match node.seat() {
            Ok(seat) => Ok(Drained {
                alloc,
                node,
                seat,
                first,
                second,
                checkout: None,
                left: Vec::new(alloc),
            }),
            Err(_) => Err(Fail::new("no seat")),
        }
    }

    /// Gives a command. Its word is the number of its refusal, or 0.
    fn given(&mut self, commands: Commands) -> Result<String, Fail> {
        let mut commands = commands;
        commands.made()?;
        let mut number = 0;
        for event in commands.take() {
            number = match self.node.command(&mut self.seat, event) {
                Ok(_) => 0,
                Err(refusal) => refusal.number(),
            };
        }
        Ok(format!(in self.alloc; "{number}")?)
    }

    /// Checks process 1 out. The word is the number of the refusal, or 0.
    fn checked_out(&mut self) -> Result<String, Fail> {
        let number = match self.node.checkout(1) {
            Ok(checkout) => {
                self.checkout = Some(checkout);
                0
            }
            Err(refusal) => refusal.number(),
        };
        Ok(format!(in self.alloc; "{number}")?)
    }

    /// Commits a row of the process that is checked out. The word is the number of the reason for which it is dropped, or 0.
    fn committed(&mut self) -> Result<String, Fail> {
        let Some(checkout) = mem::replace(&mut self.checkout, None) else {
            return Err(Fail::new("no process is checked out"));
        };
        let number = match self.node.commit(checkout.run(1)) {
            Ok(_) => 0,
            Err(refused) => refused.dropped.number(),
        };
        Ok(format!(in self.alloc; "{number}")?)
    }

    /// Exchanges the entries in memory for a list. The word has those that left memory, or how many the list has that came back.
    fn drained(&mut self, taker: Taker, room: Vec<Entry>) -> Result<String, Fail> {
        let answer = match taker {
            Taker::First => self.node.drain(&mut self.first, room),
            Taker::Second => self.node.drain(&mut self.second, room),
        };
        match answer {
            Ok(left) => self.left = left,
            Err(back) => {
                self.left = back;
                return Ok(format!(in self.alloc; "back:{}", self.left.len())?);
            }
        }
        let words = entry_words(self.alloc, &self.left)?;
        Ok(format!(in self.alloc; "left:{words}")?)
    }

    /// Takes a step. Returns its word.
    fn step(&mut self, step: Step) -> Result<String, Fail> {
        let commands = Commands::new(self.alloc);
        match step {
            Step::Load => self.given(commands.load(SUM)),
            Step::Start => self.given(commands.spawn("t", "sum", &[Integer(4)])),
            Step::Clock(now) => self.given(commands.clock(now)),
            Step::CheckOut => self.checked_out(),
            Step::Commit => self.committed(),
            Step::Drain(taker, count) => {
                let room = room(self.alloc, count)?;
                self.drained(taker, room)
            }
            Step::DrainAgain(taker) => {
                let room = mem::replace(&mut self.left, Vec::new(self.alloc));
                self.drained(taker, room)
            }
        }
    }

    /// Closes the node with its seat.
    fn closed(self) -> Result<NodeJournal, Fail> {
        let Drained {
            alloc,
            node,
            seat,
            first: _first,
            second: _second,
            checkout: _checkout,
            left: _left,
        } = self;
        let mut seats = Vec::new(alloc);
        seats.push(seat)?;
        match node.close(seats) {
            Ok(journal) => Ok(journal),
            Err(_) => Err(Fail::new("Mismatch")),
        }
    }
}

/// The words of the steps.
fn words_of<B: NodeBrand>(drained: &mut Drained<B>, steps: &[Step]) -> Result<String, Fail> {
    let mut words = String::new(drained.alloc);
    for step in steps {
        if !words.is_empty() {
            words.push_str(" ")?;
        }
        words.push_str(&drained.step(*step)?)?;
    }
    Ok(words)
}

/// What comes of a row.
fn found<B: NodeBrand>(
    alloc: Global,
    unbranded: UnbrandedKeeper,
    steps: &[Step],
) -> Result<String, Fail>
    requires node { unbranded ≡ B.table }
    requires limit { B.limit ≡ 3 }
{
    let mut drained = Drained::<B>::new(alloc, unbranded)?;
    let words = words_of(&mut drained, steps)?;
    let end = journal_text(alloc, drained.closed()?)?;
    Ok(format!(in alloc; "{words}; {end}")?)
}

fn found_here(alloc: Global, row: DrainedRow) -> Result<String, Fail> {
    found::<Brand>(alloc, UnbrandedKeeper::new(alloc)?, row.steps)
}

/// The rows whose outcome isn't the wanted one: their titles, and the outcome.
fn misses(alloc: Global) -> Result<String, Fail> {
    let mut misses = String::new(alloc);
    for row in rows() {
        let found = found_here(alloc, *row)?;
        if found.as_str() != row.wanted {
            misses.push_str(&format!(in alloc; "{}: {found}\n", row.title)?)?;
        }
    }
    Ok(misses)
}

#[test]
fn entries_leave_memory(rt: HostRuntime) -> Result<(), Fail> {
    let misses = misses(rt.alloc())?;
    assert_eq!(rt; misses, String::new(rt.alloc()));
    Ok(())
}
