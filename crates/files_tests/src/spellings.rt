//! Spellings of operands and of forms, and the labels of exports, found by hand. Functions without contracts give them, so that the proofs
//! of the tests compute nothing of them.

use crate::example::t_beam;
use beam_iff::{Chunks, chunks, write_form};
use beam_listing::read_listing;
use beam_model::compact::{Compact, CompactOperand};
use beam_operand::{OperandError, read_operand, write_operand};
use std::alloc::Global;
use std::test::Fail;

const SHORTEST: [(&[u8], Compact); 15] = [
    (&[0xF1], Compact::Integer(15)),
    (&[0x09, 0x10], Compact::Integer(16)),
    (&[0xE9, 0xFF], Compact::Integer(2_047)),
    (&[0x19, 0x08, 0x00], Compact::Integer(2_048)),
    (&[0x39, 0x00, 0x80, 0x00], Compact::Integer(32_768)),
    (&[0x19, 0xFF, 0xFF], Compact::Integer(-1)),
    (&[0x02], Compact::Nil),
    (&[0x12], Compact::Atom(1)),
    (&[0x03], Compact::X(0)),
    (&[0x14], Compact::Y(1)),
    (&[0x55], Compact::Label(5)),
    (&[0x20], Compact::Number(2)),
    (&[0x47, 0x30], Compact::Literal(3)),
    (
        &[0xD9, 0x07, 0xFF, 0xFF, 0xFF, 0xFF, 0xFF, 0xFF, 0xFF],
        Compact::Integer(576_460_752_303_423_487),
    ),
    (
        &[0xD9, 0xF8, 0x00, 0x00, 0x00, 0x00, 0x00, 0x00, 0x00],
        Compact::Integer(-576_460_752_303_423_488),
    ),
];

/// Operands, and the bytes that they are written as.
fn shortest() -> &'static [(&'static [u8], Compact)] {
    &SHORTEST
}

const LONGER: [(&[u8], Compact); 3] = [
    (&[0x09, 0x05], Compact::Integer(5)),
    (&[0x57, 0x03, 0x00], Compact::X(0)),
    (&[0x18, 0x00, 0x07], Compact::Number(7)),
];

/// Operands, and bytes that spell them too.
fn longer() -> &'static [(&'static [u8], Compact)] {
    &LONGER
}

const WRONG: [(&[u8], OperandError); 10] = [
    (
        &[0xD9, 0x08, 0x00, 0x00, 0x00, 0x00, 0x00, 0x00, 0x00],
        OperandError::IntegerTooLarge,
    ),
    (
        &[0x78, 0x01, 0x00, 0x00, 0x00, 0x00],
        OperandError::IntegerTooLarge,
    ),
    (&[0xF9], OperandError::IntegerTooLarge),
    (&[], OperandError::Truncated),
    (&[0x06], OperandError::UnsupportedOperand),
    (&[0x27], OperandError::UnsupportedOperand),
    (&[0x18, 0xFF, 0xFF], OperandError::BadSign),
    (&[0x17, 0x10, 0x17, 0x00], OperandError::UnsupportedOperand),
    (&[0x17, 0x20, 0x03], OperandError::Truncated),
    (&[0x17, 0x13], OperandError::UnsupportedOperand),
];

/// Bytes that spell no operand, and why.
fn wrong() -> &'static [(&'static [u8], OperandError)] {
    &WRONG
}

/// The operand that the bytes spell, if it takes all of them.
fn read(alloc: Global, bytes: &[u8]) -> Option<Compact> {
    match read_operand(alloc, bytes) {
        Ok((CompactOperand::One(operand), count)) if count == bytes.len() => Some(operand),
        _ => None,
    }
}

fn written(alloc: Global, operand: &CompactOperand) -> Result<Vec<u8>, Fail> {
    let mut out = Vec::new(alloc);
    write_operand(operand, &mut out)?;
    Ok(out)
}

#[test]
fn operands(rt: HostRuntime) -> Result<(), Fail> {
    for (bytes, operand) in shortest() {
        let written = written(rt.alloc(), &CompactOperand::One(*operand))?;
        assert_eq!(rt;
            (read(rt.alloc(), bytes), written.as_slice()),
            (Some(*operand), *bytes)
        );
    }
    Ok(())
}

#[test]
fn longer_operands(rt: HostRuntime) -> Result<(), Fail> {
    for (bytes, operand) in longer() {
        let written = written(rt.alloc(), &CompactOperand::One(*operand))?;
        let is_shorter = written.as_slice() != *bytes;
        assert_eq!(rt;
            (read(rt.alloc(), bytes), is_shorter),
            (Some(*operand), true)
        );
    }
    Ok(())
}

#[test]
fn wrong_operands(rt: HostRuntime) {
    for (bytes, fault) in wrong() {
        assert_eq!(rt; read_operand(rt.alloc(), bytes).err(), Some(*fault));
    }
}

fn list() -> &'static [u8] {
    &[0x17, 0x30, 0x03, 0x14, 0x47, 0x20]
}

fn members(operand: &CompactOperand) -> &[Compact] {
    match operand {
        CompactOperand::List(list) => list.members(),
        CompactOperand::One(_) => &[],
    }
}

#[test]
fn a_list(rt: HostRuntime) -> Result<(), Fail> {
    let (operand, _) = read_operand(rt.alloc(), list())?;
    let wanted = [Compact::X(0), Compact::Y(1), Compact::Literal(2)];
    assert_eq!(rt; members(&operand), wanted.as_slice());
    assert_eq!(rt; written(rt.alloc(), &operand)?.as_slice(), list());
    Ok(())
}

const NONE: Chunks<'static> = Chunks {
    atoms: None,
    code: None,
    imports: None,
    exports: None,
    literals: None,
};

fn t_chunks() -> Chunks<'static> {
    Chunks {
        atoms: t_beam().get(20..41),
        code: t_beam().get(52..122),
        imports: t_beam().get(132..160),
        exports: t_beam().get(168..184),
        literals: None,
    }
}

/// Forms with other orders, unknown chunks and bytes after their end; with padding that is cut short and of any values; and one without
/// chunks.
fn forms() -> [(&'static [u8], Chunks<'static>); 6] {
    [
        (t_beam(), t_chunks()),
        (
            b"FOR1\0\0\0\x2CBEAMExpT\0\0\0\x02\x05\x06\xFF\xFFLine\0\0\0\0AtU8\0\0\0\x04\x01\x02\x03\x04Line\0\0\0\0behind",
            Chunks {
                atoms: Some(&[1, 2, 3, 4]),
                exports: Some(&[5, 6]),
                ..NONE
            },
        ),
        (
            b"FOR1\0\0\0\x0DBEAMCode\0\0\0\x01\x09\0\0\0",
            Chunks {
                code: Some(&[9]),
                ..NONE
            },
        ),
        (
            b"FOR1\0\0\0\x0EBEAMCode\0\0\0\x01\x09\x08",
            Chunks {
                code: Some(&[9]),
                ..NONE
            },
        ),
        (
            b"FOR1\0\0\0\x10BEAMCode\0\0\0\x01\x09\x08\x07\x06",
            Chunks {
                code: Some(&[9]),
                ..NONE
            },
        ),
        (b"FOR1\0\0\0\x04BEAM", NONE),
    ]
}

fn has(file: &[u8], wanted: &Chunks) -> bool {
    match chunks(file) {
        Ok(found) => {
            (found.atoms, found.code, found.imports) == (wanted.atoms, wanted.code, wanted.imports)
                && (found.exports, found.literals) == (wanted.exports, wanted.literals)
        }
        Err(_) => false,
    }
}

#[test]
fn forms_are_read(rt: HostRuntime) {
    for (file, wanted) in forms() {
        assert!(rt; has(file, &wanted));
    }
}

/// The example, and a chunk with padding before literals.
#[test]
fn forms_are_written(rt: HostRuntime) -> Result<(), Fail> {
    let padded = Chunks {
        code: Some(&[7]),
        literals: Some(&[1, 2, 3, 4]),
        ..NONE
    };
    let wanted = b"FOR1\0\0\0\x1CBEAMCode\0\0\0\x01\x07\0\0\0LitT\0\0\0\x04\x01\x02\x03\x04";
    assert_eq!(rt;
        write_form(rt.alloc(), &padded)?.as_slice(),
        wanted.as_slice()
    );
    assert_eq!(rt; write_form(rt.alloc(), &t_chunks())?.as_slice(), t_beam());
    Ok(())
}

/// The label of the first export of the listing of a text.
fn first_label(alloc: Global, text: &str) -> Option<u32> {
    match read_listing(alloc, text) {
        Ok(listing) => match listing.exports.first() {
            Some(export) => Some(export.label),
            None => None,
        },
        Err(_) => None,
    }
}

/// Listings, and the label of their first export, which is that of its first function: without functions, without a function for the
/// export, and with two of one name.
fn exports() -> [(&'static str, u32); 3] {
    [
        (
            "{module,t}.{exports,[{f,1}]}.{attributes,[]}.{labels,3}.",
            0,
        ),
        (
            "{module,t}.{exports,[{f,1}]}.{attributes,[]}.{labels,3}.{function,f,2,7}.",
            0,
        ),
        (
            "{module,t}.{exports,[{f,1}]}.{attributes,[]}.{labels,3}.{'%',a}.{function,g,1,6}.{function,f,1,7}.{function,f,1,8}.",
            7,
        ),
    ]
}

#[test]
fn labels_of_exports(rt: HostRuntime) {
    for (text, label) in exports() {
        assert_eq!(rt; first_label(rt.alloc(), text), Some(label));
    }
}
