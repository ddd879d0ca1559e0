//! Blocks: worked bytes, each cut of a file of two blocks, and each byte of it changed.

use beam_blocks::{BlockFault, block_in, put_block};
use std::alloc::Global;
use std::test::Fail;

/// A content and its block, worked by hand: the table of docs/JOURNAL.md.
struct BlockRow {
    content: &'static [u8],
    block: &'static [u8],
}

const ROWS: [BlockRow; 4] = [
    BlockRow {
        content: &[],
        block: &[
            0x00, 0x00, 0x00, 0x00, 0xFF, 0xFF, 0xFF, 0xFF, 0x00, 0x00, 0x00, 0x01, 0x00, 0x00,
            0x00, 0x00,
        ],
    },
    BlockRow {
        content: &[0x00],
        block: &[
            0x00, 0x00, 0x00, 0x01, 0xFF, 0xFF, 0xFF, 0xFE, 0x00, 0x00, 0x00, 0x01, 0x00, 0x00,
            0x00, 0x01, 0x00,
        ],
    },
    BlockRow {
        content: &[0x61, 0x62, 0x63],
        block: &[
            0x00, 0x00, 0x00, 0x03, 0xFF, 0xFF, 0xFF, 0xFC, 0x00, 0x00, 0x01, 0x27, 0x00, 0x00,
            0x02, 0x4D, 0x61, 0x62, 0x63,
        ],
    },
    BlockRow {
        content: &[0xFF, 0xFF, 0xFF],
        block: &[
            0x00, 0x00, 0x00, 0x03, 0xFF, 0xFF, 0xFF, 0xFC, 0x00, 0x00, 0x02, 0xFE, 0x00, 0x00,
            0x05, 0xFD, 0xFF, 0xFF, 0xFF,
        ],
    },
];

/// Whether the block of the content is written, after other bytes.
fn is_written(alloc: Global, row: &BlockRow) -> Result<bool, Fail> {
    let mut out = Vec::new(alloc);
    out.push(7)?;
    if row.content.len() < 256 {
        put_block(&mut out, row.content)?;
    }
    Ok(out.first() == Some(&7) && out.get(1..) == Some(row.block))
}

/// Whether the content is read, with no bytes after its block.
fn is_read(row: &BlockRow) -> bool {
    match block_in(row.block) {
        Ok(Some((content, rest))) => content == row.content && rest.is_empty(),
        _ => false,
    }
}

#[test]
fn blocks_are_as_worked(rt: HostRuntime) -> Result<(), Fail> {
    for row in ROWS.iter() {
        assert!(rt;
            is_written(rt.alloc(), row)? && is_read(row),
            "{:?}",
            row.block
        );
    }
    Ok(())
}

/// The blocks of `abc` and of no bytes.
const TWO: [u8; 35] = [
    0x00, 0x00, 0x00, 0x03, 0xFF, 0xFF, 0xFF, 0xFC, 0x00, 0x00, 0x01, 0x27, 0x00, 0x00, 0x02, 0x4D,
    0x61, 0x62, 0x63, 0x00, 0x00, 0x00, 0x00, 0xFF, 0xFF, 0xFF, 0xFF, 0x00, 0x00, 0x00, 0x01, 0x00,
    0x00, 0x00, 0x00,
];

/// How many blocks are read from the front, at most two, and why there are no more.
fn read_blocks(bytes: &[u8]) -> (usize, Option<BlockFault>) {
    let mut rest = bytes;
    for count in 0..3 {
        match block_in(rest) {
            Ok(Some((_content, after))) => rest = after,
            Ok(None) => return (count, None),
            Err(fault) => return (count, Some(fault)),
        }
    }
    (3, None)
}

/// What is read of the first bytes of the two blocks: the first one takes 19 bytes.
fn first_blocks(size: usize) -> (usize, Option<BlockFault>) {
    match size {
        0 => (0, None),
        1..=18 => (0, Some(BlockFault::Cut)),
        19 => (1, None),
        20..=34 => (1, Some(BlockFault::Cut)),
        _ => (2, None),
    }
}

#[test]
fn each_cut_of_blocks(rt: HostRuntime) {
    for size in 0..36 {
        assert!(rt;
            read_blocks(&TWO[..size]) == first_blocks(size),
            "cut to {size} bytes"
        );
    }
}

/// Whether a bad block is found where this byte stands at that place in place of the right one.
fn is_found(at: usize, byte: u8) -> bool {
    let mut bytes = TWO;
    let Some(place) = bytes.get_mut(at) else {
        return false;
    };
    if *place == byte {
        return true;
    }
    *place = byte;
    read_blocks(&bytes) == (usize::from(at >= 19), Some(BlockFault::Bad))
}

#[test]
fn each_changed_byte_of_blocks(rt: HostRuntime) {
    for at in 0..35 {
        for byte in 0..=255 {
            assert!(rt; is_found(at, byte), "byte {at} is {byte}");
        }
    }
}
