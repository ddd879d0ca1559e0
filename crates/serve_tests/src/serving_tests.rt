//! `beamnode serve` over real sockets: the lines of its command line are kept, and clients get their replies.

use crate::serving::{first_miss, outcome};
use crate::serving_rows::{NodeRow, connections, files, journals, levels, silence, thread_counts};
use node_testing::commands::file;
use node_testing::frames::frames;
use node_testing::listings::{DOUBLE, LOOP, OVER};
use std::fs::File;
use std::net::{Net, TcpListener, TcpStream};
use std::process::Abort;
use std::rt::Env;
use std::sync::Wait;
use std::test::*;
use std::thread::Threads;
use std::time::Clock;
use std::{env, fs, rt};

/// How many bytes stand before the file in a `Load`.
const BEFORE_FILE: usize = 5;

/// Each row has the outcome that it wants.
fn come_to<
    R: Net<Listener = TcpListener, Stream = TcpStream>
        + Threads
        + Wait
        + Clock
        + rt::Files<File = File>
        + Abort
        + AllocGlobal
        + Sync,
>(rt: &R, rows: &'static [NodeRow]) -> Result<(), Fail> {
    let miss = first_miss(rt, "", rows)?;
    assert_eq!(rt; miss, String::new(rt.alloc()));
    Ok(())
}

#[test]
fn connections_are_served(rt: HostRuntime) -> Result<(), Fail> {
    come_to(&rt, connections())
}

/// Makes a folder, which the moment names.
pub fn new_folder<R: Env + Clock + rt::Files + AllocGlobal>(rt: &R) -> Result<String, Fail> {
    let parent = env::temp_dir(rt)?;
    let now = rt.since_1970()?;
    let folder = format!(in rt.alloc();
        "{}/beamnode-{}-{}",
        parent.as_str(),
        now.as_secs(),
        now.subsec_nanos()
    )?;
    fs::create_dir(rt, folder.as_str())?;
    Ok(folder)
}

/// Writes a file into a folder.
pub fn write<R: rt::Files + AllocGlobal>(
    rt: &R,
    folder: &str,
    name: &str,
    bytes: &[u8],
) -> Result<(), Fail> {
    let name = format!(in rt.alloc(); "{folder}/{name}")?;
    fs::write(rt, name.as_str(), bytes)?;
    Ok(())
}

/// Writes the files of the rows into a folder.
fn write_files<R: rt::Files + AllocGlobal>(rt: &R, folder: &str) -> Result<(), Fail> {
    let Some(load) = frames(rt.alloc(), "LOAD") else {
        return Err(Fail::new("no frames"));
    };
    let Some(file_of_t) = load.get(BEFORE_FILE..) else {
        return Err(Fail::new("no file"));
    };
    write(rt, folder, "t.beam", file_of_t)?;
    write(rt, folder, "e.beam", &file(rt.alloc(), OVER)?)?;
    write(rt, folder, "l.beam", &file(rt.alloc(), LOOP)?)?;
    write(rt, folder, "d.beam", &file(rt.alloc(), DOUBLE)?)?;
    write(rt, folder, "bad.beam", b"{module,t}.\n")
}

/// The folder is removed before the outcome is looked at.
#[test]
fn a_node_begins_with_files_and_a_process(rt: HostRuntime) -> Result<(), Fail> {
    let folder = new_folder(&rt)?;
    write_files(&rt, &folder)?;
    let miss = first_miss(&rt, &folder, files());
    let is_removed = fs::remove_dir_all(&rt, folder.as_str()).is_ok();
    let miss = miss?;
    assert_eq!(rt; (miss, is_removed), (String::new(rt.alloc()), true));
    Ok(())
}

#[test]
fn a_journal_fills(rt: HostRuntime) -> Result<(), Fail> {
    come_to(&rt, journals())
}

#[test]
fn threads_are_as_many_as_were_asked_for(rt: HostRuntime) -> Result<(), Fail> {
    come_to(&rt, thread_counts())
}

#[test]
fn silent_clients_are_left(rt: HostRuntime) -> Result<(), Fail> {
    come_to(&rt, silence())
}

#[test]
fn the_log_has_its_level(rt: HostRuntime) -> Result<(), Fail> {
    come_to(&rt, levels())
}

/// Another listener has the port.
#[test]
fn a_port_is_taken(rt: HostRuntime) -> Result<(), Fail> {
    let listener = TcpListener::bind(&rt, ("127.0.0.1", 0))?;
    let port = format!(in rt.alloc(); "{}", listener.local_addr()?.port())?;
    let words = [
        "beamnode",
        "serve",
        "--connections",
        "1",
        "--port",
        port.as_str(),
    ];
    let found = outcome(&rt, &words, &[], false)?;
    let wanted = format!(in rt.alloc(); "beamnode: 127.0.0.1:{port}: NetFailed\nstatus 1\n")?;
    assert_eq!(rt; found.as_str(), wanted.as_str());
    Ok(())
}
