//! Sockets of the file system.

use beam_tools::os_error::OsError;
use beam_tools::socket_fault::SocketFaultKind;
use std::alloc::Global;
use std::fs::{DirBuilder, File, Permissions};
use std::io::{Error, ErrorKind};
use std::net::{Net, TcpListener, TcpStream};
use std::os::unix::fs::{DirBuilderExt, FileTypeExt, MetadataExt, PermissionsExt};
use std::os::unix::net::{UnixListener, UnixStream};
use std::{fs, rt};

/// The file of a socket that a node listens on.
#[derive(Drop)]
pub struct SocketFile {
    path: String,
    device: u64,
    number: u64,
}

impl SocketFile {
    /// Removes the file, unless another one has its name now.
    pub fn remove<R: rt::Files<File = File>>(&self, rt: &R) {
        if let Ok(metadata) = fs::symlink_metadata(rt, self.path.as_str()) {
            if metadata.dev() == self.device && metadata.ino() == self.number {
                let _ = fs::remove_file(rt, self.path.as_str());
            }
        }
    }
}

fn failed(error: &Error) -> SocketFaultKind {
    SocketFaultKind::Failed(OsError::of(error))
}

/// Makes way for a new socket's file: the file of a socket on which nobody listens any more is removed. `InUse` where a program listens there,
/// and `NoSocket` where something else has the name.
fn make_way<R: Net<Listener = TcpListener, Stream = TcpStream> + rt::Files<File = File>>(
    rt: &R,
    path: &str,
) -> Result<(), SocketFaultKind> {
    let metadata = match fs::symlink_metadata(rt, path) {
        Ok(metadata) => metadata,
        Err(error) if error.kind() == ErrorKind::NotFound => return Ok(()),
        Err(error) => return Err(failed(&error)),
    };
    if !metadata.file_type().is_socket() {
        return Err(SocketFaultKind::NoSocket);
    }
    match UnixStream::connect(rt, path) {
        Ok(_stream) => Err(SocketFaultKind::InUse),
        Err(error) if error.kind() == ErrorKind::ConnectionRefused => {
            fs::remove_file(rt, path).map_err(|error| failed(&error))
        }
        // As many connections wait as may.
        Err(error) if error.kind() == ErrorKind::WouldBlock => Err(SocketFaultKind::InUse),
        Err(error) => Err(failed(&error)),
    }
}

/// Makes an empty folder that only this user may enter. One that a start left which was ended in its midst is used.
fn make_folder<R: rt::Files<File = File>>(
    rt: &R,
    folder: &str,
    inside: &str,
) -> Result<(), SocketFaultKind> {
    let mut builder = DirBuilder::new();
    let _ = builder.mode(0o700);
    match builder.create(rt, folder) {
        Ok(()) => return Ok(()),
        Err(error) if error.kind() == ErrorKind::AlreadyExists => {}
        Err(error) => return Err(failed(&error)),
    }
    let _ = fs::remove_file(rt, inside);
    let _ = fs::remove_dir(rt, folder);
    builder.create(rt, folder).map_err(|error| failed(&error))
}

/// Listens in a folder that only this user may enter, and gives the socket's file its mode and then its name.
fn bind_inside<R: Net<Listener = TcpListener, Stream = TcpStream> + rt::Files<File = File>>(
    rt: &R,
    inside: &str,
    path: &str,
    mode: u32,
) -> Result<UnixListener, Error> {
    let listener = UnixListener::bind(rt, inside)?;
    fs::set_permissions(rt, inside, Permissions::from_mode(mode))?;
    fs::rename(rt, inside, path)?;
    Ok(listener)
}

/// Listens on a socket whose file has that path and that mode. Before the file has its mode nobody else can connect: until then it stands in
/// `folder`, which is made for that and is removed. The file of a socket on which nobody listens any more makes way. `InUse`, `NoSocket` and
/// `Failed` as `SocketFaultKind` has them; then there is neither file nor folder.
pub fn listen_at<R: Net<Listener = TcpListener, Stream = TcpStream> + rt::Files<File = File>>(
    rt: &R,
    alloc: Global,
    folder: &str,
    path: String,
    mode: u32,
) -> Result<(UnixListener, SocketFile), SocketFaultKind> {
    make_way(rt, path.as_str())?;
    let Ok(inside) = format!(in alloc; "{folder}/s") else {
        return Err(failed(&Error::from(ErrorKind::OutOfMemory)));
    };
    make_folder(rt, folder, inside.as_str())?;
    let bound = bind_inside(rt, inside.as_str(), path.as_str(), mode);
    let _ = fs::remove_file(rt, inside.as_str());
    let _ = fs::remove_dir(rt, folder);
    let listener = bound.map_err(|error| failed(&error))?;
    let metadata = fs::symlink_metadata(rt, path.as_str()).map_err(|error| failed(&error))?;
    Ok((
        listener,
        SocketFile {
            path,
            device: metadata.dev(),
            number: metadata.ino(),
        },
    ))
}
