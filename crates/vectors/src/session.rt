//! Sessions: commands over a device in memory, and the replies of a new node.

use crate::devices::Device;
use crate::draft::Draft;
use crate::error::{TestRowError, unless_refused};
use crate::given::bytes_of;
use beam_desk::NodeDesk;
use beam_remote::{ServeError, Served, serve};
use hex;
use std::alloc::Global;

/// The bytes that were written in a session, in hexadecimal digits, and how it ended.
pub fn told(alloc: Global, written: &[u8], end: &str) -> Result<String, TestRowError> {
    match hex::encode_upper(alloc, written) {
        Ok(written) => unless_refused(format!(in alloc; "{written} {end}")),
        Err(_) => Err(TestRowError::NoMemory),
    }
}

/// The bytes that were written in a session, and how it ended: with how many commands answered, and how many replies written.
pub fn ended(
    alloc: Global,
    written: &[u8],
    end: Result<Served, ServeError>,
) -> Result<String, TestRowError> {
    let end = match end {
        Ok(served) => format!(in alloc; "Served {} {}", served.done, served.told),
        Err(error) => format!(in alloc; "{:?} {} {}", error.why, error.done, error.told),
    };
    match end {
        Ok(end) => told(alloc, written, &end),
        Err(_) => Err(TestRowError::NoMemory),
    }
}

// The outcome of a session over this device and input.
fn session(
    alloc: Global,
    device: &str,
    input: &str,
    desk: &mut NodeDesk,
) -> Result<String, TestRowError> {
    match (Device::named(device.trim()), bytes_of(alloc, input)) {
        (Some(device), Ok(input)) => {
            let mut device = device.over(alloc, input);
            let end = serve(alloc, &mut device, desk);
            ended(alloc, device.taken(), end)
        }
        (_, Err(why)) => Err(why),
        (None, _) => Err(TestRowError::No("device")),
    }
}

// Appends the outcomes of the sessions of these devices and inputs.
fn push_sessions(
    alloc: Global,
    devices: &str,
    inputs: &str,
    desk: &mut NodeDesk,
    texts: &mut Draft,
) {
    for (device, input) in devices.split('|').zip(inputs.split('|')) {
        if !texts.is_empty() {
            texts.push_text(" | ");
        }
        texts.push_made(&session(alloc, device, input, desk));
    }
}

/// The bytes that a session writes over the device with these commands, and how it ends. Sessions over the same node, one after another,
/// have a `|` between them.
pub fn found(alloc: Global, devices: &str, inputs: &str) -> Result<String, TestRowError> {
    let mut desk = NodeDesk::new(alloc);
    let mut texts = Draft::new(alloc);
    push_sessions(alloc, devices, inputs, &mut desk, &mut texts);
    texts.text()
}
