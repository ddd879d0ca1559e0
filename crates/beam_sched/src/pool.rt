//! Values that threads take, and give back.

use std::sync::{Mutex, Wait};

/// A pool of values of which each thread takes one: the thread contexts of workers, or helpers.
#[derive(Drop)]
pub struct Pool<T: Drop> {
    left: Mutex<Vec<T>>,
    count: usize,
}

impl<T: Drop> Pool<T> {
    pub fn new(all: Vec<T>) -> Pool<T> {
        Pool {
            count: all.len(),
            left: Mutex::new(all),
        }
    }

    /// How many values there are, including those that threads have.
    pub fn count(&self) -> usize {
        self.count
    }

    pub fn take<R: Wait>(&self, rt: &R) -> Option<T> {
        self.left.lock(rt).pop()
    }

    /// Gives a value back that was taken. Its room is still there, so it takes no memory.
    pub fn give<R: Wait>(&self, rt: &R, one: T) {
        let _ = self.left.lock(rt).push(one);
    }

    /// The values that no thread has.
    pub fn into_left(self) -> Vec<T> {
        let Pool { left, .. } = self;
        left.into_inner()
    }
}
