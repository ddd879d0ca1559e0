//! Calls of natives.

use crate::error::{TestRowError, unless_refused};
use crate::term::printed;
use beam_bif::bif::call_bif;
use beam_bif::error::BifError;
use beam_bif::list::elements_in;
use beam_erltext::read_erl;
use beam_model::exception::Class;
use beam_term::{Atom, Pid, Term};
use std::alloc::Global;

/// How the pid of the process that calls is printed, and its number.
const OWN: &str = "<0.7.0>";

const OWN_NUMBER: u32 = 7;

/// The pid of a process of this node.
pub fn pid_of(alloc: Global, id: u32) -> Result<Pid, TestRowError> {
    match Atom::new(alloc, "nonode@nohost") {
        Ok(node) => Ok(Pid {
            node,
            id,
            serial: 0,
            creation: 0,
        }),
        Err(_) => Err(TestRowError::NoMemory),
    }
}

/// The pid of a process of this node, as a term.
pub fn pid_term(alloc: Global, id: u32) -> Result<Term, TestRowError> {
    match Term::pid(alloc, pid_of(alloc, id)?) {
        Ok(pid) => Ok(pid),
        Err(_) => Err(TestRowError::NoMemory),
    }
}

fn is_own(term: &Term) -> bool {
    match term.as_atom() {
        Some(name) => name.as_str() == OWN,
        None => false,
    }
}

// The arguments, with the pid of the process that calls in place of the atom of its text.
fn with_own(alloc: Global, mut arguments: Vec<Term>) -> Result<Vec<Term>, TestRowError> {
    for argument in &mut arguments {
        if is_own(argument) {
            *argument = pid_term(alloc, OWN_NUMBER)?;
        }
    }
    Ok(arguments)
}

/// The elements of the list whose Erlang text this is.
pub fn elements_of(alloc: Global, text: &str) -> Result<Vec<Term>, TestRowError> {
    match read_erl(alloc, text) {
        Ok(list) => match elements_in(alloc, &list) {
            Ok(Some(elements)) => Ok(elements),
            _ => Err(TestRowError::No("list of terms")),
        },
        Err(_) => Err(TestRowError::No("term")),
    }
}

fn class_name(class: Class) -> &'static str {
    match class {
        Class::Error => "error",
        Class::Exit => "exit",
        Class::Throw => "throw",
    }
}

// The text of a call's value, or of its exception.
fn shown(alloc: Global, answer: Result<Term, BifError>) -> Result<String, TestRowError> {
    match answer {
        Ok(value) => printed(alloc, &value),
        Err(BifError::NoMemory) => Err(TestRowError::NoMemory),
        Err(BifError::Raise(class, value)) => {
            let class = class_name(class);
            let value = printed(alloc, &value)?;
            unless_refused(format!(in alloc; "{class} {value}"))
        }
    }
}

/// The value of the native of that name with the list of arguments in this text, or the exception that it raises: its class and its reason.
pub fn found(alloc: Global, name: &str, list: &str) -> Result<String, TestRowError> {
    let arguments = with_own(alloc, elements_of(alloc, list)?)?;
    match (Atom::new(alloc, name), pid_of(alloc, OWN_NUMBER)) {
        (Ok(name), Ok(own)) => shown(alloc, call_bif(alloc, &name, &arguments, own)),
        _ => Err(TestRowError::No("name")),
    }
}
