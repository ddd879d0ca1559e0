//! The parts of a process.

use beam_model::place::Place;
use beam_term::{Atom, Term};
use std::marker::Model;

/// Where a process goes on.
#[derive(Debug, Drop)]
pub enum Goes {
    /// The row at a place.
    At(Place),
    /// Its first entry: of a module, the function of that name and arity.
    Enter {
        module: Atom,
        function: Atom,
        arity: u32,
    },
    /// It has ended.
    Nowhere,
}

/// How a process stands.
#[derive(Debug, Drop)]
pub enum Status {
    Running,
    Waiting,
    Ended { reason: Term, value: Term },
}

/// The mark of a catch or a try: an exception goes to its label.
#[derive(Clone, Copy, Debug)]
pub struct Tag {
    pub label: u32,
    /// The label's row.
    pub place: Place,
}

/// The content of a y register.
#[derive(Debug, Drop)]
pub enum Slot {
    Value(Term),
    Tag(Tag),
}

/// The y registers of a frame, y0 first.
#[derive(Debug, Drop)]
pub struct Slots {
    pub items: Vec<Slot>,
}

impl Model for Slots {
    ghost use Rattle.std.specs.Prelude.{List};
    ghost use Rattle.std.specs.Coded.{codes};
    ghost use Rattle.beam_term.specs.Coding.{term_code};
    ghost use Rattle.beam_machine.specs.declared.process.Slot.{Slot};

    ghost Value = { List Slot };

    ghost coded = { Prim.hlevel (codes, term_code) };

    ghost view = { λ s. s.items.items };
}

/// A frame of a process.
#[derive(Debug, Drop)]
pub struct Frame {
    /// Where it returns to. The first frame returns nowhere: its return ends the process.
    pub back: Option<Place>,
    /// Its y registers, once they are allocated.
    pub y: Option<Slots>,
}

/// When a process that waits goes on without a message. It stays set while messages wake the process.
#[derive(Clone, Copy, Debug)]
pub struct Deadline {
    /// The clock's time, in milliseconds.
    pub at: u64,
    /// The row at which it then goes on.
    pub after: Place,
}

/// A signal to a process.
#[derive(Debug, Drop)]
pub enum Signal {
    Message(Term),
    /// An exit signal: what `exit/2` of the sender sends.
    Exit { sender: u32, reason: Term },
    /// The end of a process that is monitored: the number of the monitor's reference, and why it ended.
    Down { reference: u32, reason: Term },
}

/// A monitor: the number of its reference, and the pid that is watched.
#[derive(Debug, Drop)]
pub struct Monitor {
    pub reference: u32,
    pub pid: Term,
}
