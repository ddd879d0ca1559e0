//! Commands to a node, in a list that is made one command after another.

use beam_asm::{AsmError, assemble};
use beam_image::Image;
use beam_listing::{ListingError, read_listing};
use beam_machine::debug::{DebugEvent, Spot, Version};
use beam_machine::event::{Event, Images, SpawnArguments, UpgradeMode};
use beam_queue::QueueBrand;
use beam_receipts::brand::NodeBrand;
use beam_sched::shared::Shared;
use beam_sched::thread_context::ThreadContext;
use beam_term::{Atom, Pid, Term, list};
use std::alloc::Global;
use std::sync::Wait;
use std::test::Fail;
use std::time::{Clock, Duration};
use std::{mem, thread};

/// An argument of the function with which a process starts.
#[derive(Clone, Copy)]
pub enum Argument {
    Integer(u32),
    /// The pid of a process of the node.
    Pid(u32),
    /// The list of the pids of `count` processes, from number `first` on.
    Pids { first: u32, count: u32 },
}

/// Why a command couldn't be made.
#[derive(Clone, Copy, Debug)]
pub enum CommandFault {
    Listing(ListingError),
    Assembly(AsmError),
    /// The layer and the number of a file's refusal.
    File(u8, u8),
    /// A name or a term can't be made, or memory was refused.
    Term,
}

/// The pid of a process of the node.
fn pid(alloc: Global, id: u32) -> Option<Term> {
    let node = Atom::new(alloc, "nonode@nohost").ok()?;
    let pid = Pid {
        node,
        id,
        serial: 0,
        creation: 0,
    };
    Term::pid(alloc, pid).ok()
}

fn pids(alloc: Global, first: u32, count: u32) -> Option<Term> {
    let mut pids = Vec::new(alloc);
    for number in 0..count {
        pids.push(pid(alloc, first.saturating_add(number))?).ok()?;
    }
    list(alloc, pids).ok()
}

impl Argument {
    fn term(self, alloc: Global) -> Option<Term> {
        match self {
            Argument::Integer(number) => Some(Term::integer(i64::from(number))),
            Argument::Pid(id) => pid(alloc, id),
            Argument::Pids { first, count } => pids(alloc, first, count),
        }
    }
}

fn terms(alloc: Global, arguments: &[Argument]) -> Option<SpawnArguments> {
    let mut terms = Vec::new(alloc);
    for argument in arguments {
        terms.push(argument.term(alloc)?).ok()?;
    }
    SpawnArguments::new(terms)
}

/// The file of the listing in this text.
pub fn file(alloc: Global, text: &str) -> Result<Vec<u8>, CommandFault> {
    match read_listing(alloc, text) {
        Ok(listing) => match assemble(alloc, &listing) {
            Ok(file) => Ok(file),
            Err(why) => Err(CommandFault::Assembly(why)),
        },
        Err(why) => Err(CommandFault::Listing(why)),
    }
}

fn image(alloc: Global, text: &str) -> Result<Image, CommandFault> {
    match file(alloc, text) {
        Ok(file) => match Image::prepare(alloc, &file) {
            Ok(image) => Ok(image),
            Err(why) => Err(CommandFault::File(why.layer(), why.number())),
        },
        Err(why) => Err(why),
    }
}

fn images(alloc: Global, texts: &[String]) -> Result<Images<Image>, CommandFault> {
    let mut images = Vec::new(alloc);
    for text in texts {
        if images.push(image(alloc, text)?).is_err() {
            return Err(CommandFault::Term);
        }
    }
    Ok(Images::new(images))
}

fn sent(alloc: Global, to: u32, message: u32) -> Option<Event<Image>> {
    let to = pid(alloc, to)?;
    let message = Term::integer(i64::from(message));
    Some(Event::Send { to, message })
}

fn spawned(
    alloc: Global,
    module: &str,
    function: &str,
    arguments: &[Argument],
) -> Option<Event<Image>> {
    match (
        Atom::new(alloc, module),
        Atom::new(alloc, function),
        terms(alloc, arguments),
    ) {
        (Ok(module), Ok(function), Some(arguments)) => Some(Event::Spawn {
            module,
            function,
            arguments,
        }),
        _ => None,
    }
}

/// Commands to a node. If one of them couldn't be made, the failure is kept for the end.
pub struct Commands {
    alloc: Global,
    events: Vec<DebugEvent<Image>>,
    fault: Option<CommandFault>,
}

impl Drop for Commands {
    fn drop(self) {
        let Commands {
            alloc: _alloc,
            events: _events,
            fault: _fault,
        } = self;
    }
}

impl Commands {
    /// No commands.
    pub fn new(alloc: Global) -> Commands {
        Commands {
            alloc,
            events: Vec::new(alloc),
            fault: None,
        }
    }

    /// Fails if one of them couldn't be made.
    pub fn made(&self) -> Result<(), Fail> {
        match self.fault {
            Some(why) => Err(Fail::from(why)),
            None => Ok(()),
        }
    }

    fn push(&mut self, event: DebugEvent<Image>) {
        if self.events.push(event).is_err() {
            self.fault = Some(CommandFault::Term);
        }
    }

    fn fail(self, why: CommandFault) -> Commands {
        let mut commands = self;
        commands.fault = Some(why);
        commands
    }

    /// Adds a command, if it could be made.
    fn and(self, event: Option<Event<Image>>) -> Commands {
        let mut commands = self;
        match event {
            Some(event) => commands.push(DebugEvent::Node(event)),
            None => commands.fault = Some(CommandFault::Term),
        }
        commands
    }

    /// Adds a load of a listing's module.
    pub fn load(self, text: &str) -> Commands {
        match image(self.alloc, text) {
            Ok(image) => self.and(Some(Event::Load(image))),
            Err(why) => self.fail(why),
        }
    }

    /// Adds an upgrade to the modules of listings.
    pub fn atomic_load(self, mode: UpgradeMode, texts: &[String]) -> Commands {
        match images(self.alloc, texts) {
            Ok(images) => self.and(Some(Event::AtomicLoad { mode, images })),
            Err(why) => self.fail(why),
        }
    }

    /// Adds the start of a process.
    pub fn spawn(self, module: &str, function: &str, arguments: &[Argument]) -> Commands {
        let event = spawned(self.alloc, module, function, arguments);
        self.and(event)
    }

    /// Adds the starts of `count` processes, all alike.
    pub fn spawn_many(
        self,
        count: u32,
        module: &str,
        function: &str,
        arguments: &[Argument],
    ) -> Commands {
        let mut commands = self;
        for _ in 0..count {
            commands = commands.spawn(module, function, arguments);
        }
        commands
    }

    /// Adds the sending of a message to a process.
    pub fn send(self, to: u32, message: u32) -> Commands {
        let event = sent(self.alloc, to, message);
        self.and(event)
    }

    /// Adds the sending of a message to each of the processes 1 to `count`.
    pub fn send_to_each(self, count: u32, message: u32) -> Commands {
        let mut commands = self;
        for pid in 1..=count {
            commands = commands.send(pid, message);
        }
        commands
    }

    /// Adds the delivery of the signals in transit to a process.
    pub fn deliver(self, pid: u32) -> Commands {
        self.and(Some(Event::Deliver { pid }))
    }

    /// Adds the execution of rows of a process.
    pub fn steps(self, pid: u32, rows: u32) -> Commands {
        self.and(Some(Event::Steps { pid, rows }))
    }

    /// Adds the setting of the node's clock.
    pub fn clock(self, now: u64) -> Commands {
        self.and(Some(Event::Clock { now }))
    }

    /// Adds the purge of a module's old code, which ends the processes that linger in it.
    pub fn purge(self, module: &str) -> Commands {
        match Atom::new(self.alloc, module) {
            Ok(module) => self.and(Some(Event::Purge(module))),
            Err(_) => self.fail(CommandFault::Term),
        }
    }

    /// Adds the soft purge of a module's old code, which isn't removed if a process lingers in it.
    pub fn soft_purge(self, module: &str) -> Commands {
        match Atom::new(self.alloc, module) {
            Ok(module) => self.and(Some(Event::SoftPurge(module))),
            Err(_) => self.fail(CommandFault::Term),
        }
    }

    /// Adds the deletion of a module, whose current code becomes old.
    pub fn delete(self, module: &str) -> Commands {
        match Atom::new(self.alloc, module) {
            Ok(module) => self.and(Some(Event::Delete(module))),
            Err(_) => self.fail(CommandFault::Term),
        }
    }

    /// Adds a break spot, the first row of a label in the current instance of a module.
    pub fn set_break(self, module: &str, label: u32) -> Commands {
        let mut commands = self;
        match Atom::new(commands.alloc, module) {
            Ok(module) => commands.push(DebugEvent::SetBreak(Spot {
                version: Version::Current,
                module,
                label,
                rows: 0,
            })),
            Err(_) => commands.fault = Some(CommandFault::Term),
        }
        commands
    }

    /// Takes all commands out.
    pub fn take(&mut self) -> Vec<DebugEvent<Image>> {
        mem::replace(&mut self.events, Vec::new(self.alloc))
    }

    /// Gives the commands to the node of a thread context, with a pause before each. Tells whether all were accepted; after one that wasn't, no
    /// more are given.
    pub fn give<B: NodeBrand + QueueBrand, R: Wait + Clock>(
        &mut self,
        rt: &R,
        shared: &Shared<B>,
        context: &mut ThreadContext<B>,
        pause: Duration,
    ) -> bool {
        for event in self.take() {
            if !pause.is_zero() {
                thread::sleep(rt, pause);
            }
            if shared.command(rt, context, event).is_err() {
                return false;
            }
        }
        true
    }
}
