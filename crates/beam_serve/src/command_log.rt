//! Log records of events and their answers.

use crate::exit_log::{lingering, lingering_in_any, log_arrival, log_killed, log_rows};
use beam_debug::outcome::Outcome;
use beam_erltext::print_atom;
use beam_image::Image;
use beam_machine::debug::DebugEvent;
use beam_machine::event::{Event, NumberList, Reply, UpgradeMode};
use beam_receipts::brand::NodeBrand;
use beam_receipts::refusal::Refusal;
use beam_sched::shared::Shared;
use beam_term::Atom;
use log::{Level, Log, info, log_enabled};
use std::fmt;
use std::fmt::{Display, Formatter};
use std::sync::Wait;

/// What to log of an event once it is answered.
#[derive(Drop)]
pub enum CommandLog {
    /// Nothing.
    Nothing,
    /// The answer to a change of a module's code, named by this word, and which of these processes it ended.
    Change {
        word: &'static str,
        module: Atom,
        lingering: Vec<u32>,
    },
    /// The answer to the upgrade of these modules, and which of these processes it ended.
    Upgrade {
        modules: Vec<Atom>,
        lingering: Vec<u32>,
    },
    /// The state of a process after its rows: whether it is held or has ended.
    Rows(u32),
    /// Whether a process ended by the signals that arrived.
    Arrival(u32),
}

/// What to log of a change of code; nothing where memory is refused for the module's name.
fn change(word: &'static str, module: &Atom, lingering: Vec<u32>) -> CommandLog {
    match module.try_share() {
        Ok(module) => CommandLog::Change {
            word,
            module,
            lingering,
        },
        Err(_) => CommandLog::Nothing,
    }
}

/// What to log of an upgrade to these images; nothing where memory is refused for the modules' names.
fn upgrade<B: NodeBrand, L: Log + AllocGlobal + Wait>(
    log: &L,
    shared: &Shared<B>,
    mode: UpgradeMode,
    images: &[Image],
) -> CommandLog {
    let mut modules = Vec::new(log.alloc());
    for image in images {
        let Ok(module) = image.module().try_share() else {
            return CommandLog::Nothing;
        };
        if modules.push(module).is_err() {
            return CommandLog::Nothing;
        }
    }
    let lingering = match mode {
        UpgradeMode::Hard => lingering_in_any(log, shared, images),
        UpgradeMode::Strict | UpgradeMode::Soft => Vec::new(log.alloc()),
    };
    CommandLog::Upgrade { modules, lingering }
}

/// What to log of an event of the node.
fn of_node<B: NodeBrand, L: Log + AllocGlobal + Wait>(
    log: &L,
    shared: &Shared<B>,
    event: &Event<Image>,
) -> CommandLog {
    let none = Vec::new(log.alloc());
    match event {
        Event::Load(image) => change(
            "load",
            image.module(),
            lingering(log, shared, image.module()),
        ),
        Event::LoadStrict(image) => change("load --strict", image.module(), none),
        Event::AtomicLoad { mode, images } => upgrade(log, shared, *mode, images.as_slice()),
        Event::Delete(module) => change("delete", module, none),
        Event::SoftPurge(module) => change("soft_purge", module, none),
        Event::Purge(module) => change("purge", module, lingering(log, shared, module)),
        Event::Steps { pid, .. } => CommandLog::Rows(*pid),
        Event::Deliver { pid } => CommandLog::Arrival(*pid),
        _ => CommandLog::Nothing,
    }
}

impl CommandLog {
    /// What to log of an event, found out before the node gets the event; nothing where the log leaves out level info.
    pub fn of<B: NodeBrand, L: Log + AllocGlobal + Wait>(
        log: &L,
        shared: &Shared<B>,
        event: &DebugEvent<Image>,
    ) -> CommandLog {
        if !log_enabled!(log; Level::Info) {
            return CommandLog::Nothing;
        }
        match event {
            DebugEvent::Node(event) => of_node(log, shared, event),
            DebugEvent::StepOne { pid } => CommandLog::Rows(*pid),
            _ => CommandLog::Nothing,
        }
    }

    /// Writes the log records, with the answer.
    pub fn write<B: NodeBrand, L: Log + AllocGlobal + Wait>(
        self,
        log: &L,
        shared: &Shared<B>,
        answer: &Result<Outcome, Refusal>,
    ) {
        match (self, answer) {
            (CommandLog::Nothing, _) => {}
            (
                CommandLog::Change {
                    word,
                    module,
                    lingering,
                },
                answer,
            ) => {
                log_change(log, word, &module, answer);
                log_killed(log, shared, &lingering);
            }
            (CommandLog::Upgrade { modules, lingering }, answer) => {
                log_upgrade(log, &modules, answer);
                log_killed(log, shared, &lingering);
            }
            (CommandLog::Rows(pid), Ok(outcome)) => log_rows(log, pid, outcome),
            (CommandLog::Arrival(pid), Ok(_)) => log_arrival(log, shared, pid),
            (CommandLog::Rows(_) | CommandLog::Arrival(_), Err(_)) => {}
        }
    }
}

/// The number of a module's instance, if it has one.
#[derive(Clone, Copy)]
struct Instance(Option<u32>);

impl Display for Instance {
    fn fmt<W: fmt::Write>(&self, f: &mut Formatter<W>) -> fmt::Result {
        match self.0 {
            Some(number) => write!(f, "{number}"),
            None => f.write_str("none"),
        }
    }
}

/// Logs the instances of a module after a change of its code.
fn log_instances<L: Log + AllocGlobal>(
    log: &L,
    word: &str,
    module: &Atom,
    current: Option<u32>,
    old: Option<u32>,
) {
    let mut text = Vec::new(log.alloc());
    if print_atom(module.as_str(), &mut text).is_err() {
        return;
    }
    if let Ok(module) = str::from_utf8(&text) {
        info!(log; "{word} {module}: current {}, old {}", Instance(current), Instance(old));
    }
}

fn log_upgraded<L: Log + AllocGlobal>(log: &L, modules: &[Atom], numbers: &NumberList) {
    for (module, numbers) in modules.iter().zip(numbers.as_slice()) {
        log_instances(log, "atomic", module, numbers.current, numbers.old);
    }
}

fn log_upgrade<L: Log + AllocGlobal>(log: &L, modules: &[Atom], answer: &Result<Outcome, Refusal>) {
    match answer {
        Ok(Outcome::Node(Reply::Upgraded(numbers))) => log_upgraded(log, modules, numbers),
        Ok(_) => info!(log; "atomic: done"),
        Err(refusal) => info!(log; "atomic: {refusal}"),
    }
}

fn log_change<L: Log + AllocGlobal>(
    log: &L,
    word: &str,
    module: &Atom,
    answer: &Result<Outcome, Refusal>,
) {
    if let Ok(Outcome::Node(Reply::Versions { current, old })) = answer {
        return log_instances(log, word, module, *current, *old);
    }
    let mut text = Vec::new(log.alloc());
    if print_atom(module.as_str(), &mut text).is_err() {
        return;
    }
    let Ok(module) = str::from_utf8(&text) else {
        return;
    };
    match answer {
        Ok(Outcome::Node(Reply::Changed(answer))) => info!(log; "{word} {module}: {answer}"),
        Ok(_) => info!(log; "{word} {module}: done"),
        Err(refusal) => info!(log; "{word} {module}: {refusal}"),
    }
}
