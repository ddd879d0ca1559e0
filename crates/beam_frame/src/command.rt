//! Commands, read from the bodies of their frames.
ghost use Rattle.std.specs.Prelude.{◌≡◌, IfOk, drop, option_and_then, take};
ghost use Rattle.beam_model.specs.Native.{elements_in};
ghost use Rattle.beam_machine.specs.Frames.{kind_of, atom_in_body, number_in_body, term_in, fields_of, fields_in, spawn_of, names_process, send_of, spot_number, version_of, spot_of, steps_in, mode_of, after_number, files_in, atomic_load_in, command_in};
ghost use Rattle.beam_frame.specs.Faults.{Gives};
ghost use Rattle.beam_frame.specs.Files.{sized_file};

use crate::error::FrameError;
use beam_etf::{EtfError, read_term};
use beam_machine::command::{Bytes, Command, CommandKind};
use beam_machine::debug::{DebugEvent, Spot, Version};
use beam_machine::event::{Event, Images, SpawnArguments, UpgradeMode};
use beam_term::{Atom, AtomError, Term, TermView};
use byteorder::{BigEndian, ByteOrder};
use std::alloc::Global;

/// The kind of a number from 1 to 18; `None` for any other.
#[tactic(auto, unfolding(beam_machine::specs::Frames::kind_of))]
pub fn kind_of(number: u8) -> Option<CommandKind>
    ensures { result ≡ kind_of number }
{
    match number {
        1 => Some(CommandKind::Load),
        2 => Some(CommandKind::LoadStrict),
        3 => Some(CommandKind::Delete),
        4 => Some(CommandKind::SoftPurge),
        5 => Some(CommandKind::Purge),
        6 => Some(CommandKind::Spawn),
        7 => Some(CommandKind::Send),
        8 => Some(CommandKind::Steps),
        9 => Some(CommandKind::Deliver),
        10 => Some(CommandKind::Clock),
        11 => Some(CommandKind::Timeout),
        12 => Some(CommandKind::SetBreak),
        13 => Some(CommandKind::ClearBreak),
        14 => Some(CommandKind::Resume),
        15 => Some(CommandKind::StepOne),
        16 => Some(CommandKind::Inspect),
        17 => Some(CommandKind::Versions),
        18 => Some(CommandKind::AtomicLoad),
        _ => None,
    }
}

/// A file, copied once.
fn file(alloc: Global, body: &[u8]) -> Result<Bytes, FrameError>
    ensures { Gives (λ b. b) result (Some body.now) }
{
    Ok(Bytes::new(Vec::from_slice(alloc, body)?))
}

/// The name of a module: the whole body.
#[tactic(auto, unfolding(beam_machine::specs::Frames::atom_in_body))]
fn atom(alloc: Global, body: &[u8]) -> Result<Atom, FrameError>
    ensures { Gives (λ a. a) result (atom_in_body body.now) }
{
    let Ok(text) = str::from_utf8(body) else {
        return Err(FrameError::BadCommand);
    };
    match Atom::new(alloc, text) {
        Ok(atom) => Ok(atom),
        Err(AtomError::TooLong) => Err(FrameError::BadCommand),
        Err(AtomError::NoMemory) => Err(FrameError::NoMemory),
    }
}

/// A number in four bytes: the whole body.
#[tactic(auto, unfolding(beam_machine::specs::Frames::number_in_body))]
fn number(body: &[u8]) -> Result<u32, FrameError>
    ensures { Gives (λ n. n) result (number_in_body 4 body.now) }
{
    if body.len() != 4 {
        return Err(FrameError::BadCommand);
    }
    Ok(BigEndian::read_u32(body))
}

/// A time in eight bytes: the whole body.
#[tactic(auto, unfolding(beam_machine::specs::Frames::number_in_body))]
fn time(body: &[u8]) -> Result<u64, FrameError>
    ensures { Gives (λ n. n) result (number_in_body 8 body.now) }
{
    if body.len() != 8 {
        return Err(FrameError::BadCommand);
    }
    Ok(BigEndian::read_u64(body))
}

/// A pid and how many rows.
fn steps(body: &[u8]) -> Result<Command, FrameError>
    ensures { Gives (λ c. c) result (steps_in body.now) }
{
    let (pid, rows) = body.split_at(body.len().min(4));
    let pid = number(pid)?;
    let rows = number(rows)?;
    Ok(DebugEvent::Node(Event::Steps { pid, rows }))
}

/// The term that the whole body spells.
#[tactic(auto, using(crate::proofs::Bodies::whole_term, crate::proofs::Bodies::cut_term, crate::proofs::Bodies::no_term))]
fn term(alloc: Global, body: &[u8]) -> Result<Term, FrameError>
    ensures { Gives (λ t. t) result (term_in body.now) }
{
    match read_term(alloc, body) {
        Ok((term, count)) => {
            if count < body.len() {
                return Err(FrameError::BadCommand);
            }
            Ok(term)
        }
        Err(EtfError::NoMemory) => Err(FrameError::NoMemory),
        Err(_) => Err(FrameError::BadCommand),
    }
}

/// The elements of a tuple.
#[tactic(auto, using(crate::proofs::Bodies::no_fields, beam_term::specs::Elements::elements))]
fn fields(term: &Term) -> Result<&[Term], FrameError>
    ensures { Gives (λ f. f.now) result (fields_of term.now) }
{
    match term.as_tuple() {
        Some(fields) => Ok(fields),
        None => Err(FrameError::BadCommand),
    }
}

/// The elements of a proper list.
#[tactic(auto, using(crate::proofs::Bodies::elements))]
fn elements(alloc: Global, list: &Term) -> Result<Vec<Term>, FrameError>
    ensures { Gives (λ v. v.items) result (elements_in list.now) }
{
    let mut items = Vec::new(alloc);
    let mut rest = list;
    while let Some((head, tail)) = rest.as_pair() {
        items.push(head.clone()?)?;
        rest = tail;
    }
    if rest.is_nil() {
        Ok(items)
    } else {
        Err(FrameError::BadCommand)
    }
}

/// A module, a function and a list of arguments.
#[tactic(auto, using(crate::proofs::Bodies::others))]
fn spawn_of(alloc: Global, fields: &[Term]) -> Result<Command, FrameError>
    ensures { Gives (λ c. c) result (spawn_of fields.now) }
{
    let [module, function, arguments] = fields else {
        return Err(FrameError::BadCommand);
    };
    let Some(module) = module.as_atom() else {
        return Err(FrameError::BadCommand);
    };
    let Some(function) = function.as_atom() else {
        return Err(FrameError::BadCommand);
    };
    let Some(arguments) = SpawnArguments::new(elements(alloc, arguments)?) else {
        return Err(FrameError::BadCommand);
    };
    Ok(DebugEvent::Node(Event::Spawn {
        module: module.clone()?,
        function: function.clone()?,
        arguments,
    }))
}

/// Whether the term is a pid or a name.
fn names_process(term: &Term) -> bool
    ensures { result ≡ names_process term.now }
{
    match term.view() {
        TermView::Atom(_) | TermView::Pid(_) => true,
        _ => false,
    }
}

/// A receiver and a message.
#[tactic(auto, using(crate::proofs::Bodies::others))]
fn send_of(fields: &[Term]) -> Result<Command, FrameError>
    ensures { Gives (λ c. c) result (send_of fields.now) }
{
    let [to, message] = fields else {
        return Err(FrameError::BadCommand);
    };
    if !names_process(to) {
        return Err(FrameError::BadCommand);
    }
    Ok(DebugEvent::Node(Event::Send {
        to: to.clone()?,
        message: message.clone()?,
    }))
}

/// A label's number or a count of rows. 4,294,967,295 stands for each integer that is greater or negative.
fn spot_number(number: i64) -> u32
    ensures { result ≡ spot_number number }
{
    u32::try_from(number).unwrap_or(u32::MAX)
}

fn version_of(name: &Atom) -> Result<Version, FrameError>
    ensures { Gives (λ v. v) result (version_of name.now) }
{
    match name.as_str() {
        "current" => Ok(Version::Current),
        "old" => Ok(Version::Old),
        _ => Err(FrameError::BadCommand),
    }
}

/// A version, a module, a label and a count of rows.
#[tactic(auto, using(crate::proofs::Bodies::others))]
fn spot_of(fields: &[Term]) -> Result<Spot, FrameError>
    ensures { Gives (λ s. s) result (spot_of fields.now) }
{
    let [version, module, label, rows] = fields else {
        return Err(FrameError::BadCommand);
    };
    let Some(version) = version.as_atom() else {
        return Err(FrameError::BadCommand);
    };
    let Some(module) = module.as_atom() else {
        return Err(FrameError::BadCommand);
    };
    let Some(label) = label.as_integer() else {
        return Err(FrameError::BadCommand);
    };
    let Some(rows) = rows.as_integer() else {
        return Err(FrameError::BadCommand);
    };
    Ok(Spot {
        version: version_of(version)?,
        module: module.clone()?,
        label: spot_number(label),
        rows: spot_number(rows),
    })
}

fn spawn(alloc: Global, body: &[u8]) -> Result<Command, FrameError>
    ensures { Gives (λ c. c) result (option_and_then spawn_of (fields_in body.now)) }
{
    let term = term(alloc, body)?;
    spawn_of(alloc, fields(&term)?)
}

fn send(alloc: Global, body: &[u8]) -> Result<Command, FrameError>
    ensures { Gives (λ c. c) result (option_and_then send_of (fields_in body.now)) }
{
    let term = term(alloc, body)?;
    send_of(fields(&term)?)
}

fn spot(alloc: Global, body: &[u8]) -> Result<Spot, FrameError>
    ensures { Gives (λ s. s) result (option_and_then spot_of (fields_in body.now)) }
{
    let term = term(alloc, body)?;
    spot_of(fields(&term)?)
}

fn mode_of(number: u8) -> Result<UpgradeMode, FrameError>
    ensures { Gives (λ m. m) result (mode_of number) }
{
    match number {
        0 => Ok(UpgradeMode::Strict),
        1 => Ok(UpgradeMode::Soft),
        2 => Ok(UpgradeMode::Hard),
        _ => Err(FrameError::BadCommand),
    }
}

/// The number in the first four bytes, and the bytes after it.
fn number_before(bytes: &[u8]) -> Result<(u32, &[u8]), FrameError>
    ensures number { Gives (λ p. p.0) result (number_in_body 4 (take 4 bytes.now)) }
    ensures rest { IfOk result (λ p. p.1.now ≡ drop 4 bytes.now) }
{
    let (field, rest) = bytes.split_at(bytes.len().min(4));
    Ok((number(field)?, rest))
}

/// The first file, which stands after its size, and the bytes after it.
fn file_before(alloc: Global, bytes: &[u8]) -> Result<(Bytes, &[u8]), FrameError>
    ensures { Gives (λ p. (p.0, p.1.now)) result (after_number sized_file bytes.now) }
{
    let (size, rest) = number_before(bytes)?;
    if rest.len() < size as usize {
        return Err(FrameError::BadCommand);
    }
    let (contents, rest) = rest.split_at(size as usize);
    Ok((file(alloc, contents)?, rest))
}

/// `count` files, each after its size: the whole body. The count takes no memory, only the files that stand there do.
fn files(alloc: Global, count: u32, body: &[u8]) -> Result<Images<Bytes>, FrameError>
    ensures { Gives (λ f. f) result (files_in count body.now) }
{
    let mut files = Vec::new(alloc);
    let mut rest = body;
    for _ in 0..count {
        let (file, after) = file_before(alloc, rest)?;
        files.push(file)?;
        rest = after;
    }
    if !rest.is_empty() {
        return Err(FrameError::BadCommand);
    }
    Ok(Images::new(files))
}

/// A mode, how many files, and these.
fn atomic_load(alloc: Global, body: &[u8]) -> Result<Command, FrameError>
    ensures { Gives (λ c. c) result (atomic_load_in body.now) }
{
    let Some((mode, rest)) = body.split_first() else {
        return Err(FrameError::BadCommand);
    };
    let mode = mode_of(*mode)?;
    let (count, rest) = number_before(rest)?;
    Ok(DebugEvent::Node(Event::AtomicLoad {
        mode,
        images: files(alloc, count, rest)?,
    }))
}

/// The command of a kind that the whole body spells, in time that is linear in the body's bytes. `BadCommand` where it spells none,
/// `NoMemory` where memory is refused. A file is copied; nothing limits the body's length.
pub fn read_command(alloc: Global, kind: CommandKind, body: &[u8]) -> Result<Command, FrameError>
    ensures { Gives (λ c. c) result (command_in kind body.now) }
{
    match kind {
        CommandKind::Load => Ok(DebugEvent::Node(Event::Load(file(alloc, body)?))),
        CommandKind::LoadStrict => Ok(DebugEvent::Node(Event::LoadStrict(file(alloc, body)?))),
        CommandKind::Delete => Ok(DebugEvent::Node(Event::Delete(atom(alloc, body)?))),
        CommandKind::SoftPurge => Ok(DebugEvent::Node(Event::SoftPurge(atom(alloc, body)?))),
        CommandKind::Purge => Ok(DebugEvent::Node(Event::Purge(atom(alloc, body)?))),
        CommandKind::Spawn => spawn(alloc, body),
        CommandKind::Send => send(alloc, body),
        CommandKind::Steps => steps(body),
        CommandKind::Deliver => Ok(DebugEvent::Node(Event::Deliver { pid: number(body)? })),
        CommandKind::Clock => Ok(DebugEvent::Node(Event::Clock { now: time(body)? })),
        CommandKind::Timeout => Ok(DebugEvent::Node(Event::Timeout { pid: number(body)? })),
        CommandKind::SetBreak => Ok(DebugEvent::SetBreak(spot(alloc, body)?)),
        CommandKind::ClearBreak => Ok(DebugEvent::ClearBreak(spot(alloc, body)?)),
        CommandKind::Resume => Ok(DebugEvent::Resume { pid: number(body)? }),
        CommandKind::StepOne => Ok(DebugEvent::StepOne { pid: number(body)? }),
        CommandKind::Inspect => Ok(DebugEvent::Inspect { pid: number(body)? }),
        CommandKind::Versions => Ok(DebugEvent::Node(Event::Versions(atom(alloc, body)?))),
        CommandKind::AtomicLoad => atomic_load(alloc, body),
    }
}
