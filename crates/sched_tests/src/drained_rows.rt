//! What is done with nodes of which entries leave memory, and what comes of it, worked out by hand from the page about the journal. A
//! function without contracts gives the rows, so that the proof of the test computes nothing of them.

use crate::drained::Step;
use crate::drained::Step::{CheckOut, Clock, Commit, Drain, DrainAgain, Load, Start};
use crate::drained::Taker::{First, Second};

/// A node of which at most three entries can be in memory.
#[derive(Clone, Copy)]
pub struct DrainedRow {
    pub title: &'static str,
    pub steps: &'static [Step],
    /// A word for each step, and then what is left at the end.
    pub wanted: &'static str,
}

const ROWS: [DrainedRow; 9] = [
    DrainedRow {
        title: "nothing leaves memory",
        steps: &[Load, Start, Clock(1)],
        wanted: "0 0 0; memory:load,start,clock1; whole: 3",
    },
    DrainedRow {
        title: "three entries leave memory, and three others take their places",
        steps: &[
            Load,
            Start,
            Clock(1),
            Clock(2),
            Drain(First, 3),
            Clock(2),
            Clock(3),
            Clock(4),
            Clock(5),
        ],
        wanted: "0 0 0 10 left:load,start,clock1 0 0 0 10; memory:clock2,clock3,clock4; gone: 3 of 6",
    },
    DrainedRow {
        title: "entries leave memory twice, and none is left",
        steps: &[Load, Drain(First, 1), Start, Clock(7), Drain(First, 1)],
        wanted: "0 left:load 0 0 left:start,clock7; memory:; gone: 3 of 3",
    },
    DrainedRow {
        title: "the second receipt is behind once entries left memory by the first one",
        steps: &[
            Load,
            Drain(First, 1),
            Clock(1),
            Drain(Second, 1),
            Drain(First, 1),
            Drain(Second, 1),
        ],
        wanted: "0 left:load 0 back:0 left:clock1 back:0; memory:; gone: 2 of 2",
    },
    DrainedRow {
        title: "the first receipt is behind once entries left memory by the second one",
        steps: &[Load, Drain(Second, 1), Clock(1), Drain(First, 1)],
        wanted: "0 left:load 0 back:0; memory:clock1; gone: 1 of 2",
    },
    DrainedRow {
        title: "no entries leave memory, by one receipt after another",
        steps: &[Drain(First, 0), Drain(Second, 0), Load, Drain(First, 0)],
        wanted: "left: left: 0 left:load; memory:; gone: 1 of 1",
    },
    DrainedRow {
        title: "a list that has entries comes back with them",
        steps: &[
            Load,
            Start,
            Drain(First, 1),
            Clock(1),
            DrainAgain(First),
            Drain(First, 1),
        ],
        wanted: "0 0 left:load,start 0 back:2 left:clock1; memory:; gone: 3 of 3",
    },
    DrainedRow {
        title: "a list without room for the process that is checked out comes back",
        steps: &[
            Load,
            Start,
            CheckOut,
            Drain(First, 0),
            Drain(First, 1),
            Commit,
        ],
        wanted: "0 0 0 back:0 left:load,start 0; memory:rows1; gone: 2 of 3",
    },
    DrainedRow {
        title: "a slice that a full journal refused is run again once entries have left memory",
        steps: &[
            Load,
            Start,
            Clock(1),
            CheckOut,
            Commit,
            Drain(First, 3),
            CheckOut,
            Commit,
        ],
        wanted: "0 0 0 0 5 left:load,start,clock1 0 0; memory:rows1; gone: 3 of 4",
    },
];

/// Nodes of which entries leave memory.
pub fn rows() -> &'static [DrainedRow] {
    &ROWS
}
