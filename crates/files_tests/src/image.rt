//! The rows of an image.

use crate::example::{long_code, t_beam, wide_code};
use beam_code::CodeBytes;
use beam_image::Image;
use beam_machine::action::{Action, Catching, Compute, Control, OnFault, Register, Source, Test};
use beam_model::exception::Fault;
use beam_model::native::{Arithmetic, Binary, Comparison};
use beam_model::opcode::Opcode;
use beam_model::place::Place;
use beam_term::Atom;
use std::alloc::Global;
use std::process::Abort;
use std::test::Fail;

/// The row after each position of the file's instructions.
const BEHIND: [usize; 15] = [1, 3, 3, 4, 6, 6, 8, 8, 9, 10, 12, 12, 13, 14, 15];

fn is_x(source: &Source<'_>, number: u32) -> bool {
    matches!(source, Source::X(n) if *n == number)
}

fn is_integer(source: &Source<'_>, number: i64) -> bool {
    let Source::Constant(constant) = source else {
        return false;
    };
    constant.term().as_integer() == Some(number)
}

/// The rows of t.beam, by what they do.
#[derive(Clone, Copy)]
enum RowEffect {
    RaisesFunctionClause,
    /// It goes to the first row after label 4.
    JumpsTo8,
    /// `{test,is_eq_exact,{f,_},[{x,0},{integer,0}]}` whose label's row is 12.
    TestsX0,
    Returns,
    /// `{gc_bif,'-',{f,0},_,[{x,0},{integer,1}],{x,0}}`.
    DecrementsX0,
    Other,
}

fn kind_of_control(control: &Control<'_>) -> RowEffect {
    match control {
        Control::Jump(Some(8)) => RowEffect::JumpsTo8,
        Control::Return => RowEffect::Returns,
        _ => RowEffect::Other,
    }
}

fn kind_of_test(test: &Test<'_>) -> RowEffect {
    match test {
        Test::Compare {
            comparison: Comparison::Equal,
            left,
            right,
        } if is_x(left, 0) && is_integer(right, 0) => RowEffect::TestsX0,
        _ => RowEffect::Other,
    }
}

fn kind_of_compute(compute: &Compute<'_>) -> RowEffect {
    match compute {
        Compute::Of2 {
            native: Binary::Compute(Arithmetic::Subtract),
            left,
            right,
            dest: Register::X(0),
        } if is_x(left, 0) && is_integer(right, 1) => RowEffect::DecrementsX0,
        _ => RowEffect::Other,
    }
}

fn kind_of(action: &Action<'_>) -> RowEffect {
    match action {
        Action::Catching(Catching::Raise(Fault::FunctionClause)) => RowEffect::RaisesFunctionClause,
        Action::Control(control) => kind_of_control(control),
        Action::Test {
            test,
            fail: Some(12),
        } => kind_of_test(test),
        Action::Compute {
            compute,
            fail: OnFault::Raises,
        } => kind_of_compute(compute),
        _ => RowEffect::Other,
    }
}

/// The effect of the row at a position. The one function that owns a step.
fn kind_at(image: &Image, at: usize) -> RowEffect {
    match image.step(at) {
        Some(step) => kind_of(&step.action),
        None => RowEffect::Other,
    }
}

/// The instance and the row at which an exported function begins.
fn entry_of(image: &Image, function: &Atom, arity: u32, instance: u32) -> Option<(u32, usize)> {
    match image.entry(function, arity, instance) {
        Some(place) => Some((place.instance(), place.at())),
        None => None,
    }
}

/// The instance and the row at which an exported function begins, found by a second reference to the image.
fn entry_of_share(image: &Image, function: &Atom, instance: u32) -> Option<(u32, usize)> {
    match image.try_share() {
        Ok(shared) => entry_of(&shared, function, 1, instance),
        Err(_) => None,
    }
}

fn has_rows(rt: &impl Abort, image: &Image) {
    for (at, behind) in BEHIND.iter().enumerate() {
        assert_eq!(rt; image.next(at), Some(*behind));
    }
    assert!(rt; image.next(15).is_none());
}

fn has_entries(rt: &impl Abort, alloc: Global, image: &Image) -> Result<(), Fail> {
    let sum = Atom::new(alloc, "sum")?;
    assert_eq!(rt; entry_of(image, &sum, 1, 7), Some((7, 3)));
    assert!(rt; entry_of(image, &sum, 2, 7).is_none());
    assert_eq!(rt; entry_of_share(image, &sum, 8), Some((8, 3)));
    Ok(())
}

#[test]
fn finds_rows(rt: HostRuntime) -> Result<(), Fail> {
    let image = Image::prepare(rt.alloc(), t_beam())?;
    assert_eq!(rt; image.module().as_str(), "t");
    has_rows(&rt, &image);
    has_entries(&rt, rt.alloc(), &image)
}

fn has_actions(rt: &impl Abort, image: &Image) {
    assert!(rt; matches!(kind_at(image, 1), RowEffect::RaisesFunctionClause));
    for at in [4, 14] {
        assert!(rt; matches!(kind_at(image, at), RowEffect::JumpsTo8));
    }
    assert!(rt; matches!(kind_at(image, 8), RowEffect::TestsX0));
    assert!(rt; matches!(kind_at(image, 10), RowEffect::Returns));
    assert!(rt; matches!(kind_at(image, 13), RowEffect::DecrementsX0));
}

#[test]
fn finds_actions(rt: HostRuntime) -> Result<(), Fail> {
    let image = Image::prepare(rt.alloc(), t_beam())?;
    has_actions(&rt, &image);
    Ok(())
}

/// Whether these bytes spell the instruction of a position.
fn is_spelled(image: &Image, at: usize, bytes: &[u8]) -> bool {
    image.fetch(Place::new(0, at)).raw() == bytes
}

fn has_bytes(rt: &impl Abort, image: &Image) {
    assert!(rt; is_spelled(image, 8, &[0x2B, 0x55, 0x03, 0x01]));
    assert!(rt; is_spelled(image, 13, &[0x7D, 0x05, 0x20, 0x10, 0x03, 0x11, 0x03]));
    assert!(rt; is_spelled(image, 15, &[0x03]));
    assert_eq!(rt; image.fetch(Place::new(0, 7)).label(), Some(4));
    assert_eq!(rt;
        image.labels(),
        [(1, 22), (2, 28), (3, 36), (4, 42), (5, 52)].as_slice()
    );
    assert!(rt; image.fetch(Place::new(0, 15)).opcode() == Opcode::IntCodeEnd);
}

#[test]
fn keeps_the_bytes(rt: HostRuntime) -> Result<(), Fail> {
    let image = Image::prepare(rt.alloc(), t_beam())?;
    has_bytes(&rt, &image);
    Ok(())
}

/// Whether it is the one instruction of `wide_code`, with the byte that isn't needed.
fn has_wide_spelling(code: &CodeBytes) -> bool {
    code.len() == 1 && code.fetch(0).raw() == [0x40, 0x09, 0x05, 0x03].as_slice()
}

#[test]
fn keeps_a_longer_spelling(rt: HostRuntime) -> Result<(), Fail> {
    let read = CodeBytes::read(rt.alloc(), wide_code(), &[], &[], &[])?;
    assert!(rt; has_wide_spelling(&read.0));
    Ok(())
}

/// Whether these are the instructions of `long_code`: those after the long one begin where they should.
fn has_long_spelling(code: &CodeBytes) -> bool {
    code.len() == 21
        && code.fetch(0).raw().len() == 305
        && code.fetch(1).raw() == [0x40, 0x01, 0x03].as_slice()
        && code.fetch(15).raw() == [0x40, 0xE1, 0x03].as_slice()
        && code.fetch(16).raw() == [0x40, 0xF1, 0x03].as_slice()
        && code.fetch(17).raw() == [0x40, 0x01, 0x03].as_slice()
        && code.fetch(20).raw() == [0x40, 0x31, 0x03].as_slice()
}

#[test]
fn finds_what_stands_after_a_long_one(rt: HostRuntime) -> Result<(), Fail> {
    let code = long_code(rt.alloc())?;
    let read = CodeBytes::read(rt.alloc(), &code, &[], &[], &[])?;
    assert!(rt; has_long_spelling(&read.0));
    Ok(())
}
