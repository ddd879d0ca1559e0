//! The mismatch of an instruction with the newest frame, in words.

use crate::lines::Lines;
use beam_shapes::mismatch::{Actual, Expected, Mismatch};

// The text after a number of y registers. A frame with 0 y registers isn't the same as one without y registers.
fn registers_text(count: u32) -> &'static str {
    match count {
        0 => " y registers, allocated",
        1 => " y register",
        _ => " y registers",
    }
}

// `3 y registers`
fn push_registers(count: u32, lines: &mut Lines) {
    lines.push_number(count as usize);
    lines.push(registers_text(count).as_bytes());
}

// `y2`
fn push_register(number: u32, lines: &mut Lines) {
    lines.push(b"y");
    lines.push_number(number as usize);
}

fn push_expected(expected: Expected, lines: &mut Lines) {
    match expected {
        Expected::Value(number) => {
            lines.push(b"a value in ");
            push_register(number, lines);
        }
        Expected::Register(number) => push_register(number, lines),
        Expected::TagRegister => lines.push(b"a y register for the catch tag"),
        Expected::NoRegisters => lines.push(b"no y registers"),
        Expected::Registers(count) => push_registers(count, lines),
        Expected::SameFrame => lines.push(b"the frame of the instruction to which it goes"),
    }
}

// For a catch tag that the frame lacks: the x register to which it was to be moved.
fn push_actual(mismatch: Mismatch, lines: &mut Lines) {
    match (mismatch.expected, mismatch.actual) {
        (Expected::TagRegister, _) => lines.push(b"an x register"),
        (Expected::SameFrame, _) => lines.push(b"another frame, or other catch tags"),
        (_, Actual::NoRegisters) => lines.push(b"no y registers"),
        (_, Actual::Registers(count)) => push_registers(count, lines),
        (_, Actual::Tag) => lines.push(b"a catch tag"),
        (_, Actual::Others) => lines.push(b"different frames on the ways to it"),
    }
}

/// Adds two lines, the frame that an instruction wants and the newest frame there: `  wanted: 3 y registers`, `  there: no y registers`.
pub fn push_mismatch(mismatch: Mismatch, lines: &mut Lines) {
    lines.push(b"  wanted: ");
    push_expected(mismatch.expected, lines);
    lines.push(b"\n  there: ");
    push_actual(mismatch, lines);
    lines.push(b"\n");
}
