//! Which processes had more to do lately than a short turn.

/// For how many processes a worker notes that.
const NOTED: usize = 64;

/// Processes whose last slice was long, as far as they are noted: a later one takes the place of an earlier one.
#[derive(Clone, Copy, Debug)]
pub struct LongRunners {
    /// At a number's remainder that number, or 0.
    pids: [u32; 64],
}

impl LongRunners {
    /// None is noted.
    pub fn new() -> LongRunners {
        LongRunners { pids: [0; 64] }
    }

    /// Whether a process is noted.
    pub fn has(&self, pid: u32) -> bool {
        self.pids[pid as usize % NOTED] == pid
    }

    /// Notes a process, or that its slice was short.
    pub fn note(&mut self, pid: u32, is_long: bool) {
        let at = pid as usize % NOTED;
        if is_long {
            self.pids[at] = pid;
        } else if self.pids[at] == pid {
            self.pids[at] = 0;
        }
    }
}
