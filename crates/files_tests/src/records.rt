//! Records of a journal's file: bytes worked by hand from the format are read and written again; bytes at whose front no record stands;
//! heads and pages.

use beam_image::Image;
use beam_machine::debug::DebugEvent;
use beam_machine::event::Event;
use beam_records::{
    HeadError, RecordError, begin_page, head_in, page_in, put_head, put_record, record_in,
};
use std::alloc::Global;
use std::test::Fail;

/// The name of an event's kind and its numbers, or zeros.
pub(crate) type Told = (&'static str, u64, u64);

/// What an event of a node is.
fn told_of_node(event: &Event<Image>) -> Told {
    match event {
        Event::Steps { pid, rows } => ("Steps", u64::from(*pid), u64::from(*rows)),
        Event::Deliver { pid } => ("Deliver", u64::from(*pid), 0),
        Event::Clock { now } => ("Clock", *now, 0),
        Event::Timeout { pid } => ("Timeout", u64::from(*pid), 0),
        Event::Delete(_) => ("Delete", 0, 0),
        Event::SoftPurge(_) => ("SoftPurge", 0, 0),
        Event::Purge(_) => ("Purge", 0, 0),
        Event::Versions(_) => ("Versions", 0, 0),
        Event::Spawn { .. } => ("Spawn", 0, 0),
        Event::Send { .. } => ("Send", 0, 0),
        _ => ("Load", 0, 0),
    }
}

/// What an event is.
fn told(event: &DebugEvent<Image>) -> Told {
    match event {
        DebugEvent::Node(event) => told_of_node(event),
        DebugEvent::SetBreak(_) => ("SetBreak", 0, 0),
        DebugEvent::ClearBreak(_) => ("ClearBreak", 0, 0),
        DebugEvent::Resume { pid } => ("Resume", u64::from(*pid), 0),
        DebugEvent::StepOne { pid } => ("StepOne", u64::from(*pid), 0),
        DebugEvent::Inspect { pid } => ("Inspect", u64::from(*pid), 0),
    }
}

/// What the record at the front of bytes says, and the record that is written of it; two more bytes stand after it.
fn written_again(alloc: Global, bytes: &[u8]) -> Result<(Told, Option<u32>, Vec<u8>), Fail> {
    let mut more = bytes.to_vec(alloc)?;
    more.extend_from_slice(&[0, 255])?;
    let (sent, rest) = record_in(alloc, &more)?;
    if rest != [0, 255].as_slice() {
        return Err(Fail::from("the record ends elsewhere"));
    }
    let (event, seat) = sent.into_parts();
    let mut written = Vec::new(alloc);
    put_record(&mut written, &event, seat)?;
    Ok((told(&event), seat, written))
}

/// Records, what their events are, and the seats that sent them.
pub(crate) const RECORDS: [(&[u8], Told, Option<u32>); 21] = [
    (b"\x20\0\x01\x0f\xa0", ("Steps", 1, 4000), None),
    (b"\xa0\0\x07\0\x01\x0f\xa0", ("Steps", 1, 4000), Some(7)),
    (b"\x20\xff\xff\xff\xff", ("Steps", 65535, 65535), None),
    (b"\x08\0\x01\0\0\0\0\0\x01", ("Steps", 65536, 1), None),
    (b"\x08\0\0\0\x01\0\x01\0\0", ("Steps", 1, 65536), None),
    (
        b"\x88\x0f\xff\xff\xff\xff\xff\xff\xff\xff\xff",
        ("Steps", 4294967295, 4294967295),
        Some(4095),
    ),
    (b"\x21\0\x02", ("Deliver", 2, 0), None),
    (b"\xa1\0\0\xff\xff", ("Deliver", 65535, 0), Some(0)),
    (b"\x09\0\x01\0\0", ("Deliver", 65536, 0), None),
    (
        b"\x8a\0\x03\0\0\0\0\0\0\x03\xe8",
        ("Clock", 1000, 0),
        Some(3),
    ),
    (
        b"\x0a\xff\xff\xff\xff\xff\xff\xff\xff",
        ("Clock", 18446744073709551615, 0),
        None,
    ),
    (b"\x8b\0\x03\0\0\0\x05", ("Timeout", 5, 0), Some(3)),
    (b"\x03\0\0\0\x01t", ("Delete", 0, 0), None),
    (b"\x04\0\0\0\x01t", ("SoftPurge", 0, 0), None),
    (b"\x05\0\0\0\x01t", ("Purge", 0, 0), None),
    (b"\x91\0\x01\0\0\0\x01t", ("Versions", 0, 0), Some(1)),
    (b"\x8e\0\x01\0\0\0\x01", ("Resume", 1, 0), Some(1)),
    (b"\x8f\0\x01\0\0\0\x01", ("StepOne", 1, 0), Some(1)),
    (b"\x90\0\x01\0\0\0\x01", ("Inspect", 1, 0), Some(1)),
    // Spawn of t:sum(4), whose list of arguments is a string.
    (
        b"\x86\0\0\0\0\0\x0f\x83h\x03w\x01tw\x03sumk\0\x01\x04",
        ("Spawn", 0, 0),
        Some(0),
    ),
    (
        b"\x87\0\x02\0\0\0\x09\x83h\x02w\x02aba\x05",
        ("Send", 0, 0),
        Some(2),
    ),
];

#[test]
fn records_are_read_and_written(rt: HostRuntime) -> Result<(), Fail> {
    for (bytes, event, sender) in RECORDS.iter() {
        let (told, seat, written) = written_again(rt.alloc(), bytes)?;
        assert_eq!(rt; told, *event);
        assert_eq!(rt; seat, *sender, "{event:?}");
        assert_eq!(rt; written.as_slice(), *bytes);
    }
    Ok(())
}

#[test]
fn a_cut_record_is_none(rt: HostRuntime) -> Result<(), Fail> {
    for (bytes, event, _sender) in RECORDS.iter() {
        for size in 0..bytes.len() {
            let read = record_in(rt.alloc(), &bytes[..size]);
            assert!(rt;
                matches!(read, Err(RecordError::NoRecord)),
                "{event:?} cut to {size} bytes"
            );
        }
    }
    Ok(())
}

/// Records that are read, and what is written of them.
const OTHER_FORMS: [(&[u8], &[u8]); 2] = [
    (b"\x08\0\0\0\x01\0\0\x0f\xa0", b"\x20\0\x01\x0f\xa0"),
    (b"\x09\0\0\0\x02", b"\x21\0\x02"),
];

#[test]
fn long_kinds_are_read(rt: HostRuntime) -> Result<(), Fail> {
    for (bytes, short) in OTHER_FORMS.iter() {
        let (_told, _seat, written) = written_again(rt.alloc(), bytes)?;
        assert_eq!(rt; written.as_slice(), *short);
    }
    Ok(())
}

const NO_RECORDS: [&[u8]; 14] = [
    b"",
    // Seats that no node has.
    b"\xa0\x10\0\0\x01\0\x01",
    b"\xa0\xff\xff\0\x01\0\x01",
    // Kinds that no event has.
    b"\0\0\0\0\0",
    b"\x13\0\0\0\0",
    b"\x1f\0\0\0\0",
    b"\x22\0\0\0\0",
    b"\x7f\0\0\0\0",
    // A name beyond the bytes, and one that isn't UTF-8.
    b"\x03\0\0\0\x02t",
    b"\x03\0\0\0\x01\xff",
    // Spawn of a tuple of one element, Send to an integer.
    b"\x06\0\0\0\x06\x83h\x01w\x01t",
    b"\x07\0\0\0\x07\x83h\x02a\x01a\x05",
    // Files that aren't modules, and a mode that isn't one.
    b"\x01\0\0\0\x04FOR1",
    b"\x12\0\0\0\x05\x03\0\0\0\0",
];

#[test]
fn other_bytes_are_no_record(rt: HostRuntime) -> Result<(), Fail> {
    for bytes in NO_RECORDS.iter() {
        let read = record_in(rt.alloc(), bytes);
        assert!(rt; matches!(read, Err(RecordError::NoRecord)), "{bytes:?}");
    }
    Ok(())
}

#[test]
fn heads_are_told(rt: HostRuntime) -> Result<(), Fail> {
    let id = [0, 1, 2, 3, 4, 5, 6, 7, 8, 9, 10, 11, 12, 13, 14, 15];
    let worked =
        b"KANGURIWE\0\x01\0\x01\x02\x03\x04\x05\x06\x07\x08\x09\x0a\x0b\x0c\x0d\x0e\x0f\0\0\0\0\0\0\0\0";
    let mut head = Vec::new(rt.alloc());
    put_head(&mut head, &id)?;
    assert_eq!(rt; head.as_slice(), worked.as_slice());
    assert_eq!(rt; head_in(&head), Ok(id));
    for size in 0..35 {
        assert_eq!(rt;
            head_in(&worked[..size]),
            Err(HeadError::NoJournal),
            "cut to {size} bytes"
        );
    }
    assert_eq!(rt; head_in(b"KANGURIWE\0\x02"), Err(HeadError::OtherVersion));
    assert_eq!(rt; head_in(b"KANGURIWE\0\0\x01"), Err(HeadError::OtherVersion));
    assert_eq!(rt; head_in(b"KANGUROOS\0\x01"), Err(HeadError::NoJournal));
    head.push(0)?;
    assert_eq!(rt; head_in(&head), Err(HeadError::NoJournal), "a byte more");
    Ok(())
}

#[test]
fn pages_are_told(rt: HostRuntime) -> Result<(), Fail> {
    let mut page = Vec::new(rt.alloc());
    begin_page(&mut page, 258)?;
    assert_eq!(rt; page.as_slice(), b"\0\0\0\0\0\0\x01\x02".as_slice());
    page.extend_from_slice(b"\x21\0\x02")?;
    let rest: &[u8] = b"\x21\0\x02";
    assert_eq!(rt; page_in(&page), Some((258, rest)));
    assert_eq!(rt; page_in(b"\0\0\0\0\0\0\x01"), None);
    Ok(())
}
