//! Waits for what must come. They end when it has come, however slow the machine is.

use std::test::Fail;
use std::thread;
use std::time::{Clock, Duration};

/// The most seconds that a scenario waits. `rt` ends each test after 60 seconds, and only a test that ends by itself can report what it
/// waited for: so this is a little less.
const SECONDS: u64 = 50;

/// The time until which a scenario waits, whatever it waits for.
#[derive(Clone, Copy)]
pub struct TestDeadline {
    end: Duration,
}

impl TestDeadline {
    /// A deadline that begins now.
    pub fn new<R: Clock>(rt: &R) -> TestDeadline {
        let now = rt.monotonic().unwrap_or(Duration::ZERO);
        TestDeadline {
            end: now.saturating_add(Duration::from_secs(SECONDS)),
        }
    }

    /// Lets 1 ms pass. Tells whether time is left.
    pub fn lasts<R: Clock>(self, rt: &R) -> bool {
        thread::sleep(rt, Duration::from_millis(1));
        match rt.monotonic() {
            Ok(now) => now < self.end,
            Err(_) => false,
        }
    }
}

/// Why a scenario did not come to its end.
#[derive(Clone, Copy)]
pub enum Unfinished {
    /// Something could not be done.
    Undone(&'static str),
    /// This didn't come in time: what, and its number.
    Late(&'static str, u32),
}

/// A command was refused.
pub const REFUSED: Unfinished = Unfinished::Undone("a command was refused");

impl Unfinished {
    /// The failure of its test.
    pub fn fail(self) -> Fail {
        match self {
            Unfinished::Undone(what) => Fail::new(what),
            Unfinished::Late(what, number) => {
                Fail::new(format_args!("waited {SECONDS} s for {what}: {number}"))
            }
        }
    }
}
