//! `beamnode serve` over a socket of the file system.

use crate::serving::first_miss;
use crate::serving_rows::NodeRow;
use crate::serving_tests::{new_folder, write};
use crate::socket_rows::{in_use, left, no_socket, sockets};
use beam_serve::listen_at;
use std::fs::File;
use std::net::{Net, TcpListener, TcpStream};
use std::os::unix::fs::PermissionsExt;
use std::os::unix::net::UnixListener;
use std::sync::Wait;
use std::test::*;
use std::thread::Threads;
use std::time::Clock;
use std::{fs, rt};

/// The first row whose outcome isn't the wanted one, with that, and whether the folder is empty then; it is removed.
fn miss_in<
    R: Net<Listener = TcpListener, Stream = TcpStream>
        + Threads
        + Wait
        + Clock
        + rt::Files<File = File>
        + AllocGlobal
        + Sync,
>(rt: &R, folder: &str, rows: &'static [NodeRow]) -> Result<(String, bool), Fail> {
    let miss = first_miss(rt, folder, rows);
    let is_empty = fs::remove_dir(rt, folder).is_ok();
    let _ = fs::remove_dir_all(rt, folder);
    Ok((miss?, is_empty))
}

/// Listens on a socket whose file is to have that mode. Returns the mode that it has, and whether it is gone once it is removed.
fn mode_of_socket<
    R: Net<Listener = TcpListener, Stream = TcpStream> + rt::Files<File = File> + AllocGlobal,
>(rt: &R, folder: &str, mode: u32) -> Result<(u32, bool), Fail> {
    let alloc = rt.alloc();
    let inside = format!(in alloc; "{folder}/d")?;
    let path = format!(in alloc; "{folder}/s")?;
    let name = format!(in alloc; "{folder}/s")?;
    let Ok((_listener, file)) = listen_at(rt, alloc, inside.as_str(), path, mode) else {
        return Err(Fail::new("it doesn't listen"));
    };
    let found = fs::metadata(rt, name.as_str())?.permissions().mode() % 512;
    file.remove(rt);
    Ok((found, !fs::exists(rt, name.as_str())?))
}

#[test]
fn a_socket_has_its_mode(rt: HostRuntime) -> Result<(), Fail> {
    let folder = new_folder(&rt)?;
    let own = mode_of_socket(&rt, &folder, 0o600)?;
    let shared = mode_of_socket(&rt, &folder, 0o666)?;
    let is_empty = fs::remove_dir(&rt, folder.as_str()).is_ok();
    assert_eq!(rt;
        (own, shared, is_empty),
        ((0o600, true), (0o666, true), true)
    );
    Ok(())
}

/// The node leaves no file of its sockets.
#[test]
fn sockets_are_served(rt: HostRuntime) -> Result<(), Fail> {
    let folder = new_folder(&rt)?;
    let found = miss_in(&rt, &folder, sockets())?;
    assert_eq!(rt; found, (String::new(rt.alloc()), true));
    Ok(())
}

#[test]
fn a_socket_is_in_use(rt: HostRuntime) -> Result<(), Fail> {
    let folder = new_folder(&rt)?;
    let path = format!(in rt.alloc(); "{}/s.socket", folder.as_str())?;
    let listener = UnixListener::bind(&rt, path.as_str())?;
    let found = miss_in(&rt, &folder, in_use())?;
    drop(listener);
    // The other program's file is still there.
    assert_eq!(rt; found, (String::new(rt.alloc()), false));
    Ok(())
}

#[test]
fn a_socket_was_left(rt: HostRuntime) -> Result<(), Fail> {
    let folder = new_folder(&rt)?;
    let path = format!(in rt.alloc(); "{}/s.socket", folder.as_str())?;
    drop(UnixListener::bind(&rt, path.as_str())?);
    let found = miss_in(&rt, &folder, left())?;
    assert_eq!(rt; found, (String::new(rt.alloc()), true));
    Ok(())
}

#[test]
fn another_file_has_the_name(rt: HostRuntime) -> Result<(), Fail> {
    let folder = new_folder(&rt)?;
    write(&rt, &folder, "s.socket", b"text")?;
    let found = miss_in(&rt, &folder, no_socket())?;
    // The file is still there.
    assert_eq!(rt; found, (String::new(rt.alloc()), false));
    Ok(())
}
