//! Lists of pids, rising, each once.
ghost use Rattle.std.specs.Prelude.{◌≡◌, ◌<◌, ◌≤◌, IfSome, OnOk, OnErr, length, vec_len, vec_capacity};
ghost use Rattle.beam_machine.specs.Debug.{is_among, with_pid, without_pid};
ghost use Rattle.beam_debug.specs.InsertPosition.{insert_position};

use std::alloc::AllocError;

/// Whether a pid is there.
pub(crate) fn is_among(pid: u32, pids: &[u32]) -> bool
    ensures { result ≡ is_among pid pids.now }
{
    pids.iter().any(|first| *first == pid)
}

/// The position at which a pid is to be inserted; `None` if it is there.
fn insert_position(pid: u32, pids: &[u32]) -> Option<usize>
    ensures at { result ≡ insert_position pid 0 pids.now }
    ensures within { IfSome result (λ at. at ≤ length pids.now) }
{
    let mut at = 0;
    let mut rest = pids;
    while let Some((first, more)) = rest.split_first() {
        if pid == *first {
            return None;
        }
        if pid < *first {
            return Some(at);
        }
        at += 1;
        rest = more;
    }
    Some(at)
}

/// Inserts a pid, unless it is there.
pub(crate) fn put(pid: u32, pids: &mut Vec<u32>)
    requires { vec_len pids.old < vec_capacity pids.old }
    ensures items { pids.new.items ≡ with_pid pid pids.old.items }
    ensures capacity { vec_capacity pids.old ≤ vec_capacity pids.new }
{
    if let Some(at) = insert_position(pid, pids) {
        pids.insert(at, pid).unwrap();
    }
}

/// Inserts a pid, unless it is there. Where memory is refused nothing changes.
pub(crate) fn try_put(pid: u32, pids: &mut Vec<u32>) -> Result<(), AllocError>
    ensures ok { OnOk result (pids.new.items ≡ with_pid pid pids.old.items) }
    ensures err { OnErr result (pids.new.items ≡ pids.old.items) }
{
    match insert_position(pid, pids) {
        Some(at) => {
            pids.insert(at, pid)?;
            Ok(())
        }
        None => Ok(()),
    }
}

/// Takes out a pid.
pub(crate) fn take_out(pid: u32, pids: &mut Vec<u32>)
    ensures items { pids.new.items ≡ without_pid pid pids.old.items }
    ensures capacity { vec_capacity pids.new ≡ vec_capacity pids.old }
{
    pids.retain(move |other| *other != pid);
}
