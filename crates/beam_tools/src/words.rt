//! The words of a command line.

use crate::early_exit::Wrong;
use crate::fault::RunFault;
use std::rt::Env;
use std::{env, io};

/// The words of the command line. `Wrong` where one of them is no UTF-8, and `NoMemory`.
pub fn words<'a, R: Env + AllocGlobal>(rt: &R) -> Result<Vec<String>, RunFault<'a>> {
    match env::args(rt) {
        Ok(words) => match words.collect(rt.alloc()) {
            Ok(words) => Ok(words),
            Err(_) => Err(RunFault::NoMemory),
        },
        Err(error) => Err(match error.kind() {
            io::ErrorKind::OutOfMemory => RunFault::NoMemory,
            _ => RunFault::Wrong(Wrong::NoText),
        }),
    }
}
