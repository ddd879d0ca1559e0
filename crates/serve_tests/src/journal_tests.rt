//! `beamnode serve` and `beamnode replay` with a journal's file: nodes that come back, and files that are refused.

use crate::journal_rows::{JournalFile, head, journal_files, lives, long_lives, refusals};
use crate::serving::first_miss;
use crate::serving_rows::NodeRow;
use crate::serving_tests::{new_folder, write};
use beam_block_file::FileShelf;
use hex;
use node_testing::commands::file;
use node_testing::listings::OVER;
use std::fs::File;
use std::net::{Net, TcpListener, TcpStream};
use std::rt::Env;
use std::sync::Wait;
use std::test::*;
use std::thread::Threads;
use std::time::Clock;
use std::{fs, rt};

fn write_journal<R: rt::Files + AllocGlobal>(
    rt: &R,
    folder: &str,
    journal: JournalFile,
) -> Result<(), Fail> {
    let bytes = hex::decode(rt.alloc(), journal.digits.as_bytes())?;
    write(rt, folder, journal.name, &bytes)
}

/// Writes the files of the rows into a folder.
fn write_files<R: rt::Files + AllocGlobal>(rt: &R, folder: &str) -> Result<(), Fail> {
    for journal in journal_files() {
        write_journal(rt, folder, *journal)?;
    }
    write_journal(rt, folder, head())?;
    write(rt, folder, "e.beam", &file(rt.alloc(), OVER)?)
}

/// Each row has the outcome that it wants, in a folder of its own, which is removed before the outcome is looked at. While the rows run
/// another program, so to speak, has one of the files.
fn come_to<
    R: Net<Listener = TcpListener, Stream = TcpStream>
        + Threads
        + Wait
        + Clock
        + rt::Files<File = File>
        + Env
        + AllocGlobal
        + Sync,
>(rt: &R, rows: &'static [NodeRow]) -> Result<String, Fail> {
    let folder = new_folder(rt)?;
    write_files(rt, &folder)?;
    let used = format!(in rt.alloc(); "{folder}/used.journal")?;
    let held = FileShelf::open(rt, &used);
    let is_held = held.is_ok();
    let miss = first_miss(rt, &folder, rows);
    drop(held);
    let is_removed = fs::remove_dir_all(rt, folder.as_str()).is_ok();
    let miss = miss?;
    if !is_held || !is_removed {
        return Err(Fail::new("no file, or no folder"));
    }
    Ok(miss)
}

#[test]
fn a_node_comes_back(rt: HostRuntime) -> Result<(), Fail> {
    let miss = come_to(&rt, lives())?;
    assert_eq!(rt; miss, String::new(rt.alloc()));
    Ok(())
}

#[test]
fn a_journal_outgrows_its_limit(rt: HostRuntime) -> Result<(), Fail> {
    let miss = come_to(&rt, long_lives())?;
    assert_eq!(rt; miss, String::new(rt.alloc()));
    Ok(())
}

#[test]
fn journal_files_are_refused(rt: HostRuntime) -> Result<(), Fail> {
    let miss = come_to(&rt, refusals())?;
    assert_eq!(rt; miss, String::new(rt.alloc()));
    Ok(())
}
