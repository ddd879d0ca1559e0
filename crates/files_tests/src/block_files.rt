//! Files of blocks over a device in memory: what is written is read, each cut, bad blocks at the end and before it, and calls that fail.

use beam_block_file::{BlockFile, BlockReader, FileFault, MemoryShelf, ReadFault};
use std::alloc::Global;
use std::test::Fail;

/// The contents of the file that the tests are about: its blocks end at bytes 19, 35 and 56.
const CONTENTS: [&[u8]; 3] = [b"abc", b"", b"defgh"];

/// Where the first blocks end.
const ENDS: [usize; 4] = [0, 19, 35, 56];

/// A device that has the first `size` bytes of that file, and takes and gives `most` bytes a call.
fn device(alloc: Global, size: usize, most: usize) -> Result<MemoryShelf, Fail> {
    let shelf = MemoryShelf::new(Vec::new(alloc), most);
    let mut file = BlockFile::create(alloc, shelf, CONTENTS[0])?;
    file.put(CONTENTS[1])?;
    file.put(CONTENTS[2])?;
    let bytes = file.shelf().bytes();
    let Some(first) = bytes.get(..size) else {
        return Err(Fail::from("too few bytes"));
    };
    Ok(MemoryShelf::new(first.to_vec(alloc)?, most))
}

/// How many blocks a reader gives that are those of the file, in their order, and the fault after them.
fn read_blocks(reader: &mut BlockReader<MemoryShelf>) -> (usize, Option<ReadFault>) {
    for count in 0..9 {
        match reader.next() {
            Ok(true) => {
                if CONTENTS.get(count).copied() != Some(reader.content()) {
                    return (count, None);
                }
            }
            Ok(false) => return (count, None),
            Err(fault) => return (count, Some(fault)),
        }
    }
    (9, None)
}

/// How many of the blocks stand whole in the first bytes.
fn whole_blocks(size: usize) -> usize {
    ENDS.iter()
        .filter(|end| **end <= size)
        .count()
        .saturating_sub(1)
}

/// What a reader gives of the first bytes.
fn first_blocks(size: usize) -> (usize, Option<ReadFault>) {
    let count = whole_blocks(size);
    let end = ENDS.get(count).copied().unwrap_or(0);
    if size <= end {
        return (count, None);
    }
    let fault = ReadFault::CutFile {
        at: end as u64,
        bytes: (size - end) as u64,
    };
    (count, Some(fault))
}

/// Whether the file of the first bytes, cut after its last whole block and filled again with the blocks that it lacks, is the file.
fn is_filled_again(alloc: Global, size: usize, most: usize) -> Result<bool, Fail> {
    let mut reader = BlockReader::new(alloc, device(alloc, size, most)?);
    let (count, _fault) = read_blocks(&mut reader);
    let mut file = reader.into_file()?;
    for content in CONTENTS.iter().skip(count) {
        if content.len() < 256 {
            file.put(content)?;
        }
    }
    file.sync()?;
    let whole = device(alloc, 56, most)?;
    Ok(file.end() == 56 && file.shelf().bytes() == whole.bytes())
}

#[test]
fn each_cut_is_read_and_filled(rt: HostRuntime) -> Result<(), Fail> {
    for most in [1, 7, 1000] {
        for size in 0..57 {
            let mut reader = BlockReader::new(rt.alloc(), device(rt.alloc(), size, most)?);
            assert_eq!(rt;
                read_blocks(&mut reader),
                first_blocks(size),
                "cut to {size} bytes"
            );
            assert!(rt;
                is_filled_again(rt.alloc(), size, most)?,
                "cut to {size} bytes"
            );
        }
    }
    Ok(())
}

/// What a reader gives of the file, with another byte at a place and `more` zeros behind it.
fn read_changed(alloc: Global, at: usize, more: usize) -> Result<(usize, Option<ReadFault>), Fail> {
    let mut bytes = device(alloc, 56, 7)?.bytes().to_vec(alloc)?;
    if let Some(byte) = bytes.get_mut(at) {
        *byte ^= 1;
    }
    for _ in 0..more {
        bytes.push(0)?;
    }
    let mut reader = BlockReader::new(alloc, MemoryShelf::new(bytes, 1000));
    Ok(read_blocks(&mut reader))
}

/// A place of the file where a byte is changed, how many zeros stand after it, how many blocks are read, and the fault.
struct ChangedRow {
    at: usize,
    more: usize,
    count: usize,
    fault: ReadFault,
}

const CHANGED: [ChangedRow; 7] = [
    // The content of the first block, and of the last.
    ChangedRow {
        at: 17,
        more: 0,
        count: 0,
        fault: ReadFault::BadFile { at: 0 },
    },
    ChangedRow {
        at: 55,
        more: 0,
        count: 2,
        fault: ReadFault::CutFile { at: 35, bytes: 21 },
    },
    ChangedRow {
        at: 55,
        more: 1,
        count: 2,
        fault: ReadFault::BadFile { at: 35 },
    },
    // Counts that disagree with their mirrors.
    ChangedRow {
        at: 3,
        more: 4040,
        count: 0,
        fault: ReadFault::CutFile { at: 0, bytes: 4096 },
    },
    ChangedRow {
        at: 3,
        more: 4041,
        count: 0,
        fault: ReadFault::BadFile { at: 0 },
    },
    ChangedRow {
        at: 38,
        more: 0,
        count: 2,
        fault: ReadFault::CutFile { at: 35, bytes: 21 },
    },
    // Zeros behind the last block.
    ChangedRow {
        at: 56,
        more: 4096,
        count: 3,
        fault: ReadFault::CutFile {
            at: 56,
            bytes: 4096,
        },
    },
];

#[test]
fn changed_bytes_are_found(rt: HostRuntime) -> Result<(), Fail> {
    for row in CHANGED.iter() {
        let (count, fault) = read_changed(rt.alloc(), row.at, row.more)?;
        assert_eq!(rt;
            (count, fault),
            (row.count, Some(row.fault)),
            "byte {}",
            row.at
        );
    }
    Ok(())
}

/// The file over a device of which a call fails once; a block that was refused is put again. How many were refused.
fn refused_blocks(alloc: Global, shelf: MemoryShelf) -> Result<(usize, MemoryShelf), Fail> {
    if !shelf.bytes().is_empty() {
        return Err(Fail::from("the device has bytes"));
    }
    let mut file = BlockFile::create(alloc, shelf, CONTENTS[0])?;
    let mut refused = 0usize;
    for content in [CONTENTS[1], CONTENTS[2]] {
        for _ in 0..3 {
            if content.len() > 255 {
                return Err(Fail::from("too long"));
            }
            match file.put(content) {
                Ok(()) => break,
                Err(FileFault::ShelfFailed(_)) => refused = refused.saturating_add(1),
                Err(_) => return Err(Fail::from("another fault")),
            }
        }
    }
    Ok((refused, file.into_shelf()))
}

#[test]
fn refused_blocks_are_put_again(rt: HostRuntime) -> Result<(), Fail> {
    let alloc = rt.alloc();
    let whole = device(alloc, 56, 5)?;
    // The head takes four calls of five bytes, the other blocks four and five.
    for before in 4..13 {
        let shelf = MemoryShelf::new(Vec::new(alloc), 5).failing_append(before);
        let (refused, shelf) = refused_blocks(alloc, shelf)?;
        assert_eq!(rt; refused, 1, "call {before}");
        assert_eq!(rt; shelf.bytes(), whole.bytes(), "call {before}");
        let shelf = MemoryShelf::new(Vec::new(alloc), 5)
            .failing_append(before)
            .failing_cut(0);
        let (refused, shelf) = refused_blocks(alloc, shelf)?;
        assert_eq!(rt; refused, 2, "call {before} and the cut after it");
        assert_eq!(rt; shelf.bytes(), whole.bytes(), "call {before}");
    }
    Ok(())
}

#[test]
fn failed_calls_are_told(rt: HostRuntime) -> Result<(), Fail> {
    let alloc = rt.alloc();
    let mut reader = BlockReader::new(alloc, device(alloc, 56, 7)?.failing_read(2));
    assert!(rt; matches!(reader.next(), Err(ReadFault::ShelfFailed(_))));
    assert_eq!(rt; read_blocks(&mut reader), (3, None));
    let mut file = reader.into_file()?;
    file.put(b"more")?;
    assert_eq!(rt; file.end(), 76);
    let reader = BlockReader::new(alloc, device(alloc, 56, 7)?.failing_sync(0));
    assert!(rt; reader.into_file().is_err());
    Ok(())
}
