//! Terms that no text gives: references, made by their parts, written and printed.

use beam_erltext::{TextError, print_erl};
use beam_etf::{EtfError, read_term, write_term};
use beam_term::{Atom, Reference, Term, cons};
use std::alloc::Global;
use std::test::Fail;

/// A reference of the node a@b.
pub fn reference(alloc: Global, creation: u32, words: &[u32]) -> Result<Term, Fail> {
    let node = Atom::new(alloc, "a@b")?;
    let words = Vec::from_slice(alloc, words)?;
    let reference = Reference::new(node, creation, words).ok_or("no reference")?;
    Ok(Term::reference(alloc, reference)?)
}

fn write_reference(alloc: Global, out: &mut Vec<u8>) -> Result<(), Fail> {
    let reference = reference(alloc, 5, &[258, 1])?;
    write_term(&reference, out)?;
    Ok(())
}

#[test]
fn references_are_written(rt: HostRuntime) -> Result<(), Fail> {
    let mut out = Vec::new(rt.alloc());
    write_reference(rt.alloc(), &mut out)?;
    let bytes: [u8; 21] = [
        131, 90, 0, 2, 119, 3, 97, 64, 98, 0, 0, 0, 5, 0, 0, 1, 2, 0, 0, 0, 1,
    ];
    assert_eq!(rt; out.as_slice(), bytes.as_slice());
    Ok(())
}

/// Whether a term is printed as this text, after the text that was there.
fn is_printed(alloc: Global, term: &Term, text: &str) -> Result<bool, Fail> {
    let mut out = Vec::from_slice(alloc, b"x0 = ")?;
    print_erl(term, &mut out)?;
    Ok(out.get(5..) == Some(text.as_bytes()))
}

fn is_reference_printed(alloc: Global, words: &[u32], text: &str) -> Result<bool, Fail> {
    let reference = reference(alloc, 0, words)?;
    is_printed(alloc, &reference, text)
}

/// Whether a pair of 1 and the reference is printed as this text.
fn is_pair_printed(alloc: Global, words: &[u32], text: &str) -> Result<bool, Fail> {
    let pair = cons(alloc, Term::integer(1), reference(alloc, 0, words)?)?;
    is_printed(alloc, &pair, text)
}

/// References, alone and in a list. Printing appends.
#[test]
fn references_are_printed(rt: HostRuntime) -> Result<(), Fail> {
    let five = [1, 2, 3, 4, 4_294_967_295];
    for (words, text, pair) in [
        ([1, 2, 3].as_slice(), "#Ref<0.3.2.1>", "[1|#Ref<0.3.2.1>]"),
        ([7].as_slice(), "#Ref<0.7>", "[1|#Ref<0.7>]"),
        (
            five.as_slice(),
            "#Ref<0.4294967295.4.3.2.1>",
            "[1|#Ref<0.4294967295.4.3.2.1>]",
        ),
    ] {
        assert!(rt; is_reference_printed(rt.alloc(), words, text)?, "{text}");
        assert!(rt; is_pair_printed(rt.alloc(), words, pair)?, "{pair}");
    }
    Ok(())
}

/// Appends the bytes of `count` tuples, each in the next, around an empty list.
fn push_tuples(bytes: &mut Vec<u8>, count: usize) -> Result<(), Fail> {
    bytes.push(131)?;
    for _ in 0..count {
        bytes.extend_from_slice(&[104, 1])?;
    }
    bytes.push(106)?;
    Ok(())
}

fn depth_of(alloc: Global, bytes: &[u8]) -> Result<u16, Fail> {
    let read = read_term(alloc, bytes)?;
    Ok(read.0.depth())
}

/// The deepest term: 4,096 tuples, each in the next.
#[test]
fn the_depth_of_a_term(rt: HostRuntime) -> Result<(), Fail> {
    let mut bytes = Vec::new(rt.alloc());
    push_tuples(&mut bytes, 4096)?;
    assert_eq!(rt; depth_of(rt.alloc(), &bytes)?, 4096);
    Ok(())
}

#[test]
fn refused_memory_has_a_number(rt: HostRuntime) {
    assert_eq!(rt; EtfError::NoMemory.number(), 7);
    assert_eq!(rt; TextError::Syntax(3).number(), 1);
    assert_eq!(rt; TextError::NoMemory.number(), 2);
}
