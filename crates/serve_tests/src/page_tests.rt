//! Looks at a node that `beamnode serve` runs, over its page's port and its socket of requests.

use crate::page_rows::{looks, token};
use crate::serving::first_miss;
use crate::serving_tests::new_folder;
use std::fs;
use std::os::unix::fs::PermissionsExt;
use std::test::*;

#[test]
fn looks_are_answered(rt: HostRuntime) -> Result<(), Fail> {
    let folder = new_folder(&rt)?;
    let found = first_miss(&rt, &folder, looks())?;
    let _ = fs::remove_dir_all(&rt, folder.as_str());
    assert_eq!(rt; found, String::new(rt.alloc()));
    Ok(())
}

/// Whether a text is 64 hexadecimal digits and a line's end.
fn is_token(text: &[u8]) -> bool {
    match text.split_last() {
        Some((b'\n', digits)) => {
            digits.len() == 64 && digits.iter().all(|digit| digit.is_ascii_hexdigit())
        }
        _ => false,
    }
}

/// The file of the token is its owner's alone, and has 64 digits, which are others the next time.
#[test]
fn a_page_asks_for_a_token(rt: HostRuntime) -> Result<(), Fail> {
    let folder = new_folder(&rt)?;
    let name = format!(in rt.alloc(); "{}/p.token", folder.as_str())?;
    let found = first_miss(&rt, &folder, token())?;
    let mode = fs::metadata(&rt, name.as_str())?.permissions().mode() % 512;
    let first = fs::read(&rt, name.as_str())?;
    let again = first_miss(&rt, &folder, token())?;
    let second = fs::read(&rt, name.as_str())?;
    let _ = fs::remove_dir_all(&rt, folder.as_str());
    assert_eq!(rt;
        (found, again),
        (String::new(rt.alloc()), String::new(rt.alloc()))
    );
    assert_eq!(rt;
        (mode, is_token(&first), is_token(&second), first == second),
        (0o600, true, true, false)
    );
    Ok(())
}
