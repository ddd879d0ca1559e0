//! A journal's file over a device in memory. Its bytes, worked by hand from the format, are written and read; each cut of it, bytes that
//! changed, pages that no node wrote, pages that were half read, and calls that fail.

use crate::records::RECORDS;
use beam_block_file::MemoryShelf;
use beam_blocks::put_block;
use beam_journal_file::{
    JournalReader, JournalWriter, ReadFailed, TornEnd, WriteFailed, write_head,
};
use beam_records::{put_record, record_in};
use std::alloc::Global;
use std::test::Fail;

/// What was drawn when the file was made.
const ID: [u8; 16] = [0, 1, 2, 3, 4, 5, 6, 7, 8, 9, 10, 11, 12, 13, 14, 15];

/// The records of its entries: the table of docs/JOURNAL.md. The first page has three of them.
const ENTRIES: [&[u8]; 5] = [
    b"\x20\0\x05\x0f\xa0",
    b"\x21\0\x05",
    b"\x09\0\x01\x11\x70",
    b"\x8a\0\x01\0\0\0\0\0\0\x03\xe8",
    b"\x91\0\x03\0\0\0\x04shop",
];

/// The file, worked by hand: the blocks of its head and of two pages, which end at bytes 51, 88 and 134.
const FILE: [u8; 134] = [
    0x00, 0x00, 0x00, 0x23, 0xFF, 0xFF, 0xFF, 0xDC, 0x00, 0x00, 0x03, 0x27, 0x00, 0x00, 0x59, 0x6C,
    0x4B, 0x41, 0x4E, 0x47, 0x55, 0x52, 0x49, 0x57, 0x45, 0x00, 0x01, 0x00, 0x01, 0x02, 0x03, 0x04,
    0x05, 0x06, 0x07, 0x08, 0x09, 0x0A, 0x0B, 0x0C, 0x0D, 0x0E, 0x0F, 0x00, 0x00, 0x00, 0x00, 0x00,
    0x00, 0x00, 0x00, 0x00, 0x00, 0x00, 0x15, 0xFF, 0xFF, 0xFF, 0xEA, 0x00, 0x00, 0x01, 0x86, 0x00,
    0x00, 0x0A, 0x0A, 0x00, 0x00, 0x00, 0x00, 0x00, 0x00, 0x00, 0x00, 0x20, 0x00, 0x05, 0x0F, 0xA0,
    0x21, 0x00, 0x05, 0x09, 0x00, 0x01, 0x11, 0x70, 0x00, 0x00, 0x00, 0x1E, 0xFF, 0xFF, 0xFF, 0xE1,
    0x00, 0x00, 0x03, 0xCC, 0x00, 0x00, 0x22, 0x16, 0x00, 0x00, 0x00, 0x00, 0x00, 0x00, 0x00, 0x03,
    0x8A, 0x00, 0x01, 0x00, 0x00, 0x00, 0x00, 0x00, 0x00, 0x03, 0xE8, 0x91, 0x00, 0x03, 0x00, 0x00,
    0x00, 0x04, 0x73, 0x68, 0x6F, 0x70,
];

/// A reader of a file that has these bytes, over a device that gives `most` of them a call.
fn reader_of(
    alloc: Global,
    bytes: &[u8],
    most: usize,
    upto: u64,
) -> Result<JournalReader<MemoryShelf>, Fail> {
    let shelf = MemoryShelf::new(bytes.to_vec(alloc)?, most);
    Ok(JournalReader::open(alloc, shelf, upto)?)
}

/// The record of the next entry that a reader gives.
fn next_record(
    alloc: Global,
    reader: &mut JournalReader<MemoryShelf>,
) -> Result<Option<Vec<u8>>, ReadFailed> {
    let Some(sent) = reader.next(alloc)? else {
        return Ok(None);
    };
    let (event, seat) = sent.into_parts();
    let mut record = Vec::new(alloc);
    match put_record(&mut record, &event, seat) {
        Ok(()) => Ok(Some(record)),
        Err(_) => Err(ReadFailed::NoMemory),
    }
}

/// How many entries a reader gives in the file's order, and why it gives no more.
fn read_entries(
    alloc: Global,
    reader: &mut JournalReader<MemoryShelf>,
) -> (usize, Option<ReadFailed>) {
    for count in 0..9 {
        match next_record(alloc, reader) {
            Ok(Some(record)) => {
                if ENTRIES.get(count).copied() != Some(record.as_slice()) {
                    return (count, None);
                }
            }
            Ok(None) => return (count, None),
            Err(failed) => return (count, Some(failed)),
        }
    }
    (9, None)
}

/// Adds an entry by its record.
fn add(alloc: Global, writer: &mut JournalWriter<MemoryShelf>, record: &[u8]) -> Result<(), Fail> {
    if writer.is_full() {
        return Err(Fail::from("the page is full"));
    }
    let (sent, _rest) = record_in(alloc, record)?;
    let (event, seat) = sent.into_parts();
    Ok(writer.add(&event, seat)?)
}

/// Adds entries by their records.
fn add_all(
    alloc: Global,
    writer: &mut JournalWriter<MemoryShelf>,
    records: &[&[u8]],
) -> Result<(), Fail> {
    for record in records {
        add(alloc, writer, record)?;
    }
    Ok(())
}

#[test]
fn a_head_is_written(rt: HostRuntime) -> Result<(), Fail> {
    for most in [1, 7, 1000] {
        let shelf = MemoryShelf::new(Vec::new(rt.alloc()), most);
        let shelf = write_head(rt.alloc(), shelf, &ID)?;
        assert_eq!(rt; shelf.bytes(), &FILE[..51]);
    }
    Ok(())
}

/// What a file has after those of its first bytes were read that stand there, and the entries that it lacks were written in their pages.
fn filled(alloc: Global, size: usize, most: usize) -> Result<Vec<u8>, Fail> {
    let Some(first) = FILE.get(..size) else {
        return Err(Fail::from("too few bytes"));
    };
    let mut reader = reader_of(alloc, first, most, u64::MAX)?;
    let (count, _failed) = read_entries(alloc, &mut reader);
    let mut writer = reader.into_writer(alloc)?;
    if count == 0 {
        add_all(alloc, &mut writer, &ENTRIES[..3])?;
        writer.write()?;
    }
    if count < 5 {
        add_all(alloc, &mut writer, &ENTRIES[3..])?;
        writer.write()?;
    }
    writer.sync()?;
    Ok(writer.into_shelf().bytes().to_vec(alloc)?)
}

#[test]
fn each_cut_of_a_journal_is_filled(rt: HostRuntime) -> Result<(), Fail> {
    for most in [1, 7, 1000] {
        for size in 51..135 {
            let bytes = filled(rt.alloc(), size, most)?;
            assert_eq!(rt; bytes.as_slice(), FILE.as_slice(), "cut to {size} bytes");
        }
    }
    Ok(())
}

/// The end of a file of that size behind its last block, which ends at that byte.
fn torn_end(size: usize, end: usize) -> Option<TornEnd> {
    if size <= end {
        return None;
    }
    Some(TornEnd {
        at: end as u64,
        bytes: (size - end) as u64,
    })
}

/// How many entries a reader gives of the first bytes of the file, and the torn end.
fn first_entries(size: usize) -> (usize, Option<TornEnd>) {
    match size {
        0..=87 => (0, torn_end(size, 51)),
        88..=133 => (3, torn_end(size, 88)),
        _ => (5, torn_end(size, 134)),
    }
}

#[test]
fn each_cut_of_a_journal_is_read(rt: HostRuntime) -> Result<(), Fail> {
    for size in 51..135 {
        let mut reader = reader_of(rt.alloc(), &FILE[..size], 7, u64::MAX)?;
        let (count, failed) = read_entries(rt.alloc(), &mut reader);
        assert_eq!(rt;
            (count, reader.torn()),
            first_entries(size),
            "cut to {size} bytes"
        );
        assert_eq!(rt; failed, None, "cut to {size} bytes");
    }
    Ok(())
}

/// Why a file that has these bytes isn't read as a journal.
fn refusal(alloc: Global, bytes: &[u8]) -> Result<Option<ReadFailed>, Fail> {
    let shelf = MemoryShelf::new(bytes.to_vec(alloc)?, 7);
    match JournalReader::open(alloc, shelf, u64::MAX) {
        Ok(_reader) => Ok(None),
        Err(failed) => Ok(Some(failed)),
    }
}

#[test]
fn a_cut_head_is_no_journal(rt: HostRuntime) -> Result<(), Fail> {
    for size in 0..51 {
        let failed = refusal(rt.alloc(), &FILE[..size])?;
        assert_eq!(rt; failed, Some(ReadFailed::NoJournal), "cut to {size} bytes");
    }
    Ok(())
}

/// Blocks of these contents.
fn blocks_of(alloc: Global, contents: &[&[u8]]) -> Result<Vec<u8>, Fail> {
    let mut bytes = Vec::new(alloc);
    for content in contents {
        if content.len() < 256 {
            put_block(&mut bytes, content)?;
        }
    }
    Ok(bytes)
}

/// Contents of first blocks, and why they are no head.
const HEADS: [(&[u8], ReadFailed); 4] = [
    (b"", ReadFailed::NoJournal),
    (b"KANGUROOS\0\x01", ReadFailed::NoJournal),
    (b"KANGURIWE\0\x01", ReadFailed::NoJournal),
    (b"KANGURIWE\0\x02", ReadFailed::OtherVersion),
];

#[test]
fn other_heads_are_refused(rt: HostRuntime) -> Result<(), Fail> {
    for (content, failed) in HEADS.iter() {
        let bytes = blocks_of(rt.alloc(), &[*content])?;
        assert_eq!(rt; refusal(rt.alloc(), &bytes)?, Some(*failed), "{content:?}");
    }
    Ok(())
}

/// A place of the file where a byte is changed, how many entries are read, why there are no more, and the torn end.
struct ChangedRow {
    at: usize,
    count: usize,
    failed: Option<ReadFailed>,
    torn: Option<TornEnd>,
}

const CHANGED: [ChangedRow; 4] = [
    // The count of the first page, which disagrees with its mirror; the file ends within the next 4,096 bytes.
    ChangedRow {
        at: 54,
        count: 0,
        failed: None,
        torn: Some(TornEnd { at: 51, bytes: 83 }),
    },
    // A record of the first page, behind which the file goes on.
    ChangedRow {
        at: 77,
        count: 0,
        failed: Some(ReadFailed::Bad { at: 51 }),
        torn: None,
    },
    // The number of the second page, and its last record, where the file ends.
    ChangedRow {
        at: 111,
        count: 3,
        failed: None,
        torn: Some(TornEnd { at: 88, bytes: 46 }),
    },
    ChangedRow {
        at: 133,
        count: 3,
        failed: None,
        torn: Some(TornEnd { at: 88, bytes: 46 }),
    },
];

#[test]
fn changed_bytes_of_a_journal_are_found(rt: HostRuntime) -> Result<(), Fail> {
    for row in CHANGED.iter() {
        let mut bytes = FILE;
        if let Some(byte) = bytes.get_mut(row.at) {
            *byte ^= 1;
        }
        let mut reader = reader_of(rt.alloc(), &bytes, 1000, u64::MAX)?;
        let (count, failed) = read_entries(rt.alloc(), &mut reader);
        assert_eq!(rt;
            (count, failed, reader.torn()),
            (row.count, row.failed, row.torn),
            "byte {}",
            row.at
        );
    }
    Ok(())
}

/// Contents of the blocks behind the head, how many entries are read, and the byte at which the block begins that no node wrote.
struct PagesRow {
    contents: &'static [&'static [u8]],
    count: usize,
    at: u64,
}

const PAGES: [PagesRow; 6] = [
    // Fewer bytes than a number, and a page without a record.
    PagesRow {
        contents: &[b"\0\0\0\0\0\0\0"],
        count: 0,
        at: 51,
    },
    PagesRow {
        contents: &[b"\0\0\0\0\0\0\0\0"],
        count: 0,
        at: 51,
    },
    // A kind that no event has, and a record that is cut, behind one that isn't.
    PagesRow {
        contents: &[b"\0\0\0\0\0\0\0\0\x22\0\x05"],
        count: 0,
        at: 51,
    },
    PagesRow {
        contents: &[b"\0\0\0\0\0\0\0\0\x20\0\x05\x0f\xa0\x21\0"],
        count: 1,
        at: 51,
    },
    // The page before is missing; a page stands twice.
    PagesRow {
        contents: &[b"\0\0\0\0\0\0\0\x01\x21\0\x05"],
        count: 0,
        at: 51,
    },
    PagesRow {
        contents: &[
            b"\0\0\0\0\0\0\0\0\x20\0\x05\x0f\xa0",
            b"\0\0\0\0\0\0\0\0\x20\0\x05\x0f\xa0",
        ],
        count: 1,
        at: 80,
    },
];

#[test]
fn pages_that_no_node_wrote_are_bad(rt: HostRuntime) -> Result<(), Fail> {
    for row in PAGES.iter() {
        let mut bytes = FILE[..51].to_vec(rt.alloc())?;
        bytes.extend_from_slice(&blocks_of(rt.alloc(), row.contents)?)?;
        let mut reader = reader_of(rt.alloc(), &bytes, 1000, u64::MAX)?;
        assert_eq!(rt;
            read_entries(rt.alloc(), &mut reader),
            (row.count, Some(ReadFailed::Bad { at: row.at })),
            "{:?}",
            row.contents
        );
    }
    Ok(())
}

/// How many bytes are left of the file once a reader that ends before an entry goes on as a writer; none where it refuses.
fn left_before(alloc: Global, upto: u64) -> Result<Option<usize>, Fail> {
    let mut reader = reader_of(alloc, &FILE, 1000, upto)?;
    let (count, _failed) = read_entries(alloc, &mut reader);
    if count as u64 != upto || reader.entries() != upto {
        return Err(Fail::from("another entry"));
    }
    match reader.into_writer(alloc) {
        Ok(writer) => Ok(Some(writer.into_shelf().bytes().len())),
        Err(WriteFailed::Unread) => Ok(None),
        Err(failed) => Err(Fail::from(failed)),
    }
}

/// Where the blocks end behind the first entries; none where these end inside of a page.
const ENDS: [Option<usize>; 6] = [Some(51), None, None, Some(88), None, Some(134)];

#[test]
fn a_half_read_page_is_not_written_behind(rt: HostRuntime) -> Result<(), Fail> {
    for upto in 0..6 {
        assert_eq!(rt;
            left_before(rt.alloc(), upto as u64)?,
            ENDS[upto],
            "{upto} entries"
        );
    }
    Ok(())
}

/// A device to which all records were written.
fn all_written(alloc: Global) -> Result<MemoryShelf, Fail> {
    let mut writer = reader_of(alloc, &FILE[..51], 7, 0)?.into_writer(alloc)?;
    for (record, _event, _sender) in RECORDS.iter() {
        add(alloc, &mut writer, record)?;
    }
    writer.write()?;
    if writer.written() != 21 || writer.has() != 21 {
        return Err(Fail::from("another count"));
    }
    Ok(writer.into_shelf())
}

#[test]
fn all_records_are_kept(rt: HostRuntime) -> Result<(), Fail> {
    let shelf = all_written(rt.alloc())?;
    let mut reader = JournalReader::open(rt.alloc(), shelf, u64::MAX)?;
    for (record, event, _sender) in RECORDS.iter() {
        let Some(read) = next_record(rt.alloc(), &mut reader)? else {
            return Err(Fail::from("too few entries"));
        };
        assert_eq!(rt; read.as_slice(), *record, "{event:?}");
    }
    assert!(rt; next_record(rt.alloc(), &mut reader)?.is_none());
    Ok(())
}

#[test]
fn a_refused_page_is_written_again(rt: HostRuntime) -> Result<(), Fail> {
    // The block has 37 bytes.
    for before in 0..8 {
        let shelf = MemoryShelf::new(FILE[..51].to_vec(rt.alloc())?, 5).failing_append(before);
        let reader = JournalReader::open(rt.alloc(), shelf, 0)?;
        let mut writer = reader.into_writer(rt.alloc())?;
        add_all(rt.alloc(), &mut writer, &ENTRIES[..3])?;
        assert!(rt;
            matches!(writer.write(), Err(WriteFailed::Unwritten(_))),
            "call {before}"
        );
        assert_eq!(rt; (writer.written(), writer.has()), (0, 3), "call {before}");
        writer.write()?;
        assert_eq!(rt; writer.into_shelf().bytes(), &FILE[..88], "call {before}");
    }
    Ok(())
}

#[test]
fn failed_syncs_are_final(rt: HostRuntime) -> Result<(), Fail> {
    // A writer puts the cut on its device before it begins.
    let shelf = MemoryShelf::new(FILE.to_vec(rt.alloc())?, 1000).failing_sync(1);
    let mut reader = JournalReader::open(rt.alloc(), shelf, u64::MAX)?;
    let (count, _failed) = read_entries(rt.alloc(), &mut reader);
    assert_eq!(rt; count, 5);
    let mut writer = reader.into_writer(rt.alloc())?;
    let Err(failed) = writer.sync() else {
        return Err(Fail::from("the sync didn't fail"));
    };
    assert!(rt; failed.is_final());
    Ok(())
}

#[test]
fn a_failed_read_is_tried_again(rt: HostRuntime) -> Result<(), Fail> {
    // The head is read by eight calls.
    let shelf = MemoryShelf::new(FILE.to_vec(rt.alloc())?, 7).failing_read(8);
    let mut reader = JournalReader::open(rt.alloc(), shelf, u64::MAX)?;
    assert!(rt;
        matches!(
            next_record(rt.alloc(), &mut reader),
            Err(ReadFailed::Unread(_))
        )
    );
    assert_eq!(rt; read_entries(rt.alloc(), &mut reader), (5, None));
    Ok(())
}
