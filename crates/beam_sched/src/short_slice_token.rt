//! Which worker goes on running short slices.

use std::mem;
use std::sync::atomic::{AtomicBool, Ordering};

/// After this many short slices, one after another, a worker goes on only with the token.
const MANY_SHORT: u32 = 64;

/// A token that one worker at a time may have. Short slices spend their time under the node's lock, where a second worker would be in the
/// way.
#[derive(Drop)]
pub struct ShortSliceToken {
    is_taken: AtomicBool,
}

impl ShortSliceToken {
    /// A token that no worker has.
    pub fn new() -> ShortSliceToken {
        ShortSliceToken {
            is_taken: AtomicBool::new(false),
        }
    }

    /// Takes the token, unless a worker has it. Tells whether it was free.
    fn take(&self) -> bool {
        !self.is_taken.swap(true, Ordering::SeqCst)
    }

    fn give_back(&self) {
        self.is_taken.store(false, Ordering::SeqCst);
    }
}

/// What slices a worker had lately, and whether it has the token.
#[derive(Clone, Copy, Debug)]
pub struct RecentSlices {
    /// How many short slices the worker had since its last longer one.
    short: u32,
    has_token: bool,
}

impl RecentSlices {
    /// A worker before its first slice.
    pub fn new() -> RecentSlices {
        RecentSlices {
            short: 0,
            has_token: false,
        }
    }

    /// Whether the worker has the token.
    pub fn has_token(&self) -> bool {
        self.has_token
    }

    /// Counts a short slice. Tells whether the worker goes on: it had fewer than `MANY_SHORT` of them, or has the token now.
    pub fn had_short(&mut self, token: &ShortSliceToken) -> bool {
        self.short = self.short.saturating_add(1);
        self.short < MANY_SHORT || self.takes(token)
    }

    /// Notes a slice that wasn't short, and gives the token back. Tells whether the worker had it.
    pub fn had_long(&mut self, token: &ShortSliceToken) -> bool {
        self.short = 0;
        self.gives_back(token)
    }

    /// Takes the token, unless another worker has it. Tells whether this one has it now.
    pub fn takes(&mut self, token: &ShortSliceToken) -> bool {
        self.has_token = self.has_token || token.take();
        self.has_token
    }

    /// Gives the token back. Tells whether the worker had it.
    pub fn gives_back(&mut self, token: &ShortSliceToken) -> bool {
        if self.has_token {
            token.give_back();
        }
        mem::replace(&mut self.has_token, false)
    }
}
