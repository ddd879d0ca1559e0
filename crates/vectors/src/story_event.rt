//! The events of stories, as lines write them.

use crate::error::TestRowError;
use crate::given::parted;
use crate::native::{elements_of, pid_term};
use crate::story_code::image_of;
use beam_erltext::read_erl;
use beam_image::Image;
use beam_machine::event::{Event, Images, SpawnArguments, UpgradeMode};
use beam_term::{Atom, Term};
use beam_tools::files::Files;
use std::alloc::Global;

/// What happens in a line of a story.
#[derive(Drop)]
pub enum Happening {
    Event(Event<Image>),
    /// Which process after this one can go on?
    Ready(u32),
    /// When is the next deadline, and whose?
    NextDeadline,
    /// The file that is to be loaded is refused, with this name.
    Refused(&'static str),
}

/// The words of an event.
#[derive(Clone, Copy)]
struct Words<'a> {
    /// The first word, which says what happens.
    word: &'a str,
    /// All that stands after it ..
    whole: &'a str,
    /// .. which is the second word, and the others.
    first: &'a str,
    rest: &'a str,
}

impl Words<'_> {
    fn of(text: &str) -> Words<'_> {
        let (word, whole) = parted(text);
        let (first, rest) = parted(whole);
        Words {
            word,
            whole,
            first,
            rest,
        }
    }
}

/// A process of this node, or a name.
fn receiver(alloc: Global, text: &str) -> Result<Term, TestRowError> {
    match text.parse::<u32>() {
        Ok(id) => pid_term(alloc, id),
        Err(_) => match Atom::new(alloc, text) {
            Ok(name) => Ok(Term::atom(name)),
            Err(_) => Err(TestRowError::No("name")),
        },
    }
}

/// `send 1 {a,b}`, or `send name {a,b}`.
fn send(alloc: Global, words: Words<'_>) -> Result<Happening, TestRowError> {
    match (receiver(alloc, words.first), read_erl(alloc, words.rest)) {
        (Ok(to), Ok(message)) => Ok(Happening::Event(Event::Send { to, message })),
        _ => Err(TestRowError::No("receiver and message")),
    }
}

fn arguments(alloc: Global, text: &str) -> Result<SpawnArguments, TestRowError> {
    match elements_of(alloc, text) {
        Ok(items) => match SpawnArguments::new(items) {
            Some(arguments) => Ok(arguments),
            None => Err(TestRowError::No("list of arguments")),
        },
        Err(why) => Err(why),
    }
}

/// `spawn h:n [2]`.
fn spawn(alloc: Global, words: Words<'_>) -> Result<Happening, TestRowError> {
    let (module, function) = words.first.split_once(':').unwrap_or(("", ""));
    match (
        Atom::new(alloc, module),
        Atom::new(alloc, function),
        arguments(alloc, words.rest),
    ) {
        (Ok(module), Ok(function), Ok(arguments)) => Ok(Happening::Event(Event::Spawn {
            module,
            function,
            arguments,
        })),
        _ => Err(TestRowError::No("call")),
    }
}

/// An event of a process, `steps 1 100`, of the clock, `clock 99`, or the process after one, `ready 0`.
fn process(words: Words<'_>) -> Result<Happening, TestRowError> {
    match (
        words.word,
        words.first.parse::<u32>(),
        words.rest.parse::<u32>(),
    ) {
        ("ready", Ok(after), _) => Ok(Happening::Ready(after)),
        ("deliver", Ok(pid), _) => Ok(Happening::Event(Event::Deliver { pid })),
        ("timeout", Ok(pid), _) => Ok(Happening::Event(Event::Timeout { pid })),
        ("steps", Ok(pid), Ok(rows)) => Ok(Happening::Event(Event::Steps { pid, rows })),
        _ => Err(TestRowError::No("process")),
    }
}

fn clock(words: Words<'_>) -> Result<Happening, TestRowError> {
    match words.first.parse::<u64>() {
        Ok(now) => Ok(Happening::Event(Event::Clock { now })),
        Err(_) => Err(TestRowError::No("time")),
    }
}

/// An event of a module, `purge h`.
fn module(alloc: Global, words: Words<'_>) -> Result<Happening, TestRowError> {
    match (words.word, Atom::new(alloc, words.whole)) {
        ("delete", Ok(module)) => Ok(Happening::Event(Event::Delete(module))),
        ("soft_purge", Ok(module)) => Ok(Happening::Event(Event::SoftPurge(module))),
        ("purge", Ok(module)) => Ok(Happening::Event(Event::Purge(module))),
        ("versions", Ok(module)) => Ok(Happening::Event(Event::Versions(module))),
        _ => Err(TestRowError::No("event")),
    }
}

/// How many bytes of a file are loaded: all of them, or the first ones, as `cut 20` says.
fn length(text: &str) -> usize {
    match parted(text) {
        ("cut", number) => number.parse::<usize>().unwrap_or(0),
        _ => usize::MAX,
    }
}

/// A load: `load h1.S`, `load_strict t.beam`, or `load h1.S cut 20` of its first 20 bytes.
fn load<F: Files>(
    alloc: Global,
    files: &mut F,
    words: Words<'_>,
) -> Result<Happening, TestRowError> {
    match image_of(alloc, files, words.first, length(words.rest)) {
        Ok(image) if words.word == "load" => Ok(Happening::Event(Event::Load(image))),
        Ok(image) => Ok(Happening::Event(Event::LoadStrict(image))),
        Err(why) => Ok(Happening::Refused(why.name())),
    }
}

fn mode(text: &str) -> Result<UpgradeMode, TestRowError> {
    match text {
        "strict" => Ok(UpgradeMode::Strict),
        "soft" => Ok(UpgradeMode::Soft),
        "hard" => Ok(UpgradeMode::Hard),
        _ => Err(TestRowError::No("mode")),
    }
}

/// An upgrade list: `atomic_load strict h2.S g2.S`.
fn atomic_load<F: Files>(
    alloc: Global,
    files: &mut F,
    words: Words<'_>,
) -> Result<Happening, TestRowError> {
    let mode = mode(words.first)?;
    let mut images = Vec::new(alloc);
    for name in words.rest.split_whitespace() {
        match image_of(alloc, files, name, usize::MAX) {
            Ok(image) => images.push(image)?,
            Err(why) => return Ok(Happening::Refused(why.name())),
        }
    }
    Ok(Happening::Event(Event::AtomicLoad {
        mode,
        images: Images::new(images),
    }))
}

/// What happens in a line.
pub fn read_happening<F: Files>(
    alloc: Global,
    files: &mut F,
    text: &str,
) -> Result<Happening, TestRowError> {
    let words = Words::of(text);
    match words.word {
        "load" | "load_strict" => load(alloc, files, words),
        "atomic_load" => atomic_load(alloc, files, words),
        "send" => send(alloc, words),
        "spawn" => spawn(alloc, words),
        "clock" => clock(words),
        "next_deadline" => Ok(Happening::NextDeadline),
        "ready" | "deliver" | "timeout" | "steps" => process(words),
        _ => module(alloc, words),
    }
}
