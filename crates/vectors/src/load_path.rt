//! Files that are read from a device and loaded.

use crate::devices::Device;
use crate::error::{TestRowError, unless_refused};
use crate::given::given_file;
use crate::story_answer::answer;
use beam_desk::NodeDesk;
use beam_image::Image;
use beam_machine::command::Response;
use beam_machine::debug::DebugEvent;
use beam_remote::{Desk, LoadError, load_path};
use beam_tools::files::Files;
use std::alloc::Global;

/// A desk of a node that counts the events that it is given.
struct CountingDesk {
    node: NodeDesk,
    events: u32,
}

impl Drop for CountingDesk {
    fn drop(self) {
        let CountingDesk {
            node: _node,
            events: _events,
        } = self;
    }
}

impl Desk for CountingDesk {
    ghost use Rattle.std.specs.Prelude.{⊤};

    ghost answers = { λ _ _ _ _. ⊤ };

    fn command(&mut self, event: DebugEvent<Image>) -> Response {
        self.events = self.events.saturating_add(1);
        self.node.command(event)
    }
}

// The answer to a load, as text.
fn answered(alloc: Global, loaded: Result<Response, LoadError>) -> Result<String, TestRowError> {
    match loaded {
        Ok(Response::Node(reply)) => answer(alloc, &Ok(reply)),
        Ok(_) => unless_refused(String::from_str(alloc, "no reply of a node")),
        Err(error) => unless_refused(format!(in alloc; "{error:?}")),
    }
}

/// How many events a new node is given when the file of the device is loaded, and the answer to the load.
pub fn loaded(alloc: Global, device: Device, file: Vec<u8>) -> Result<String, TestRowError> {
    let node = NodeDesk::new(alloc);
    let mut desk = CountingDesk { node, events: 0 };
    let answer = load_path(alloc, &mut device.over(alloc, file), &mut desk);
    match answered(alloc, answer) {
        Ok(answer) => unless_refused(format!(in alloc; "{} {answer}", desk.events)),
        Err(why) => Err(why),
    }
}

/// How many events a new node is given when the file in a column is loaded over the device in another, and the answer to the load.
pub fn found<F: Files>(
    alloc: Global,
    files: &mut F,
    device: &str,
    file: &str,
) -> Result<String, TestRowError> {
    match (Device::named(device), given_file(alloc, files, file)) {
        (Some(device), Ok(file)) => loaded(alloc, device, file),
        (_, Err(why)) => Err(why),
        (None, _) => Err(TestRowError::No("device")),
    }
}
