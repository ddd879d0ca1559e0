//! Files that are written beside the old one and then take its place, so that the old one stays as it is until the new one is whole.

use std::alloc::Global;
use std::fs::{File, OpenOptions, Permissions};
use std::io::{Error, ErrorKind, Write};
use std::os::unix::fs::PermissionsExt;
use std::{fs, io, rt};

/// The most names that are tried for a new file, while files of these names are there.
const MOST_NAMES: u32 = 100;

// The plain file that a name stands for: its path, with no link at its end, and its mode, if it is there.
struct PlainFile {
    path: String,
    mode: Option<u32>,
}

impl Drop for PlainFile {
    fn drop(self) {
        let PlainFile {
            path: _path,
            mode: _mode,
        } = self;
    }
}

// Whether a link of that name may be the system's, to an open file, as /dev/stdout is.
fn is_of_system(name: &str) -> bool {
    name.starts_with("/dev/") || name.starts_with("/proc/")
}

// The plain file at the end of a link, if there is one.
fn linked_file<R: rt::Files>(rt: &R, alloc: Global, name: &str) -> io::Result<Option<PlainFile>> {
    match fs::metadata(rt, name) {
        Ok(found) if found.is_file() => Ok(Some(PlainFile {
            path: rt.canonicalize(alloc, name)?.into_string(),
            mode: Some(found.permissions().mode()),
        })),
        _ => Ok(None),
    }
}

// The plain file that a name stands for, or one that isn't there yet. `None` where something else is there.
fn plain_file<R: rt::Files>(rt: &R, alloc: Global, name: &str) -> io::Result<Option<PlainFile>> {
    match fs::symlink_metadata(rt, name) {
        Ok(found) if found.is_file() => Ok(Some(PlainFile {
            path: String::from_str(alloc, name)?,
            mode: Some(found.permissions().mode()),
        })),
        Ok(found) if found.is_symlink() && !is_of_system(name) => linked_file(rt, alloc, name),
        Err(error) if error.kind() == ErrorKind::NotFound => Ok(Some(PlainFile {
            path: String::from_str(alloc, name)?,
            mode: None,
        })),
        _ => Ok(None),
    }
}

// An empty file in the same folder, and its path: that of the other file with `.new0`, `.new1` and so on.
fn new_file<R: rt::Files>(rt: &R, alloc: Global, path: &str) -> io::Result<(String, R::File)> {
    for number in 0..MOST_NAMES {
        let new_path = format!(in alloc; "{path}.new{number}")?;
        match File::create_new(rt, new_path.as_str()) {
            Ok(file) => return Ok((new_path, file)),
            Err(error) if error.kind() == ErrorKind::AlreadyExists => {}
            Err(error) => return Err(error),
        }
    }
    Err(Error::from(ErrorKind::AlreadyExists))
}

// Writes the new file, with the mode of the old one, and renames it onto that.
fn fill_and_rename<R: rt::Files>(
    rt: &R,
    old: &PlainFile,
    new_path: &str,
    file: R::File,
    bytes: &[u8],
) -> io::Result<()> {
    let mut file = file;
    if let Some(mode) = old.mode {
        fs::set_permissions(rt, new_path, Permissions::from_mode(mode))?;
    }
    file.write_all(bytes)?;
    fs::rename(rt, new_path, old.path.as_str())
}

// Puts a new file with these bytes in the place of the old one, or removes it again.
fn put_new<R: rt::Files>(
    rt: &R,
    old: &PlainFile,
    new: (String, R::File),
    bytes: &[u8],
) -> io::Result<()> {
    let (new_path, file) = new;
    let put = fill_and_rename(rt, old, new_path.as_str(), file, bytes);
    if put.is_err() {
        let _ = fs::remove_file(rt, new_path.as_str());
    }
    put
}

// An error where the old file is there and can't be written.
fn try_old<R: rt::Files>(rt: &R, old: &PlainFile) -> io::Result<()> {
    if old.mode.is_some() {
        OpenOptions::new().write(true).open(rt, old.path.as_str())?;
    }
    Ok(())
}

// Whether an error of making the new file says that the folder takes none, or not by that name.
fn is_refused_beside(error: &Error) -> bool {
    matches!(
        error.kind(),
        ErrorKind::PermissionDenied | ErrorKind::InvalidFilename
    )
}

fn replace_plain<R: rt::Files>(
    rt: &R,
    alloc: Global,
    old: &PlainFile,
    bytes: &[u8],
) -> io::Result<()> {
    try_old(rt, old)?;
    match new_file(rt, alloc, old.path.as_str()) {
        Ok(new) => put_new(rt, old, new, bytes),
        Err(error) if is_refused_beside(&error) => fs::write(rt, old.path.as_str(), bytes),
        Err(error) => Err(error),
    }
}

/// Writes a file of that name with these bytes.
///
/// Where a plain file is there, or none, the bytes go to a new file in the same folder, which gets the mode of the old one and
/// is then renamed onto it; through a link, onto the link's target. If that fails, the old file is as it was, and the new one is removed.
/// An old file that can't be written is refused. Written in place are: what is no plain file, as a device; a link below `/dev` or `/proc`;
/// a link to nothing; and a file in a folder that takes no new one, or not by the longer name.
pub fn replace<R: rt::Files>(rt: &R, alloc: Global, name: &str, bytes: &[u8]) -> io::Result<()> {
    match plain_file(rt, alloc, name)? {
        Some(old) => replace_plain(rt, alloc, &old, bytes),
        None => fs::write(rt, name, bytes),
    }
}
