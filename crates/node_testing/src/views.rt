//! The views of processes.

use beam_debug::debugger::Debugger;
use std::alloc::Global;
use std::test::Fail;

/// The views of the processes from 1 to `count`, as text.
pub fn text_of(alloc: Global, node: &Debugger, count: u32) -> Result<Vec<u8>, Fail> {
    let mut text = Vec::new(alloc);
    for pid in 1..=count {
        node.inspect(pid)?.print(&mut text)?;
    }
    Ok(text)
}
