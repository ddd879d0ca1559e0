//! What a command line of `beamnode` leaves to be done, and the messages about its end.
ghost use Rattle.std.specs.Prelude.{◌≡◌, ◌++◌, IfErr, IfOk, OnOk, [], codes};
ghost use Rattle.std.specs.Io.KnownBytes.{append_known};
ghost use Rattle.clap.specs.Walk.{texts};
ghost use Rattle.beam_machine.specs.declared.event.Event.TheVariants.{Spawn};
ghost use Rattle.beam_tools.specs.Job.{NamingSays, StartingSays, job_message, job_place, job_text};
ghost use Rattle.beam_tools.specs.Job.{journal_message, port_message, session_message, socket_message, start_message};
ghost use Rattle.beam_tools.specs.Names.{session_name};

use crate::errors::{Errors, tell_three, tell_two};
use crate::fault::{FileFault, refusal_name};
use crate::journal_fault::JournalFault;
use crate::line::{Replay, Serve, Start};
use crate::os_error::OsError;
use crate::place::{tell_file_place, tell_journal_place, tell_os_error, tell_socket_place};
use crate::program::Program;
use crate::report::{is_verbose, tell_file};
use crate::socket_fault::SocketFault;
use beam_image::Image;
use beam_machine::event::{Event, Refused, SpawnArguments};
use beam_remote::SessionFailure;
use beam_term::{Atom, AtomError};
use itoa::Buffer;
use std::alloc::Global;

/// What a command line leaves to be done.
#[derive(Drop)]
pub enum Job<'a> {
    /// Nothing: all was done, and the program has this status.
    Done(u8),
    /// The commands on standard input are answered on standard output.
    Pipe,
    /// The commands of connections to a port or to a socket are answered.
    Serve(Serve<'a>),
    /// The entries of a journal's file are run again.
    Replay(Replay<'a>),
}

/// Why a job that was left isn't done to its end.
#[derive(Clone, Copy)]
pub enum JobFault<'a> {
    /// The session over the standard streams stops; the operating system's error, if a stream failed.
    Pipe(SessionFailure, Option<OsError>),
    /// Listening or accepting fails at this port of 127.0.0.1: the operating system's error.
    Net(u16, OsError),
    /// The socket can't be listened on, or accepting at it fails.
    Socket(SocketFault<'a>),
    /// Listening for the page fails at this port of 127.0.0.1: the operating system's error.
    Http(u16, OsError),
    /// The token of the page can't be made, or not be written to the file of this name.
    Token(&'a str),
    /// A file can't be loaded.
    File(FileFault<'a>),
    /// The node refuses to start the process.
    Start(Refused),
    /// The name of the module or of the function to start has more than 255 characters.
    LongName,
    /// The journal is full.
    JournalFull,
    /// The seats that came back aren't all of the node's, each once.
    Mismatch,
    /// A process is still checked out when the node is to be closed.
    ProcessesOut,
    /// The address can't be written on the output.
    Unwritten,
    /// Memory was refused.
    NoMemory,
    /// The journal's file can't be read or written.
    Journal(JournalFault<'a>),
    /// In the state to which the entries of the journal's file of this name lead, the process that is to be printed was never started.
    NoProcess(&'a str),
    /// The text of the process that is to be printed is too long, in the state to which the entries of this file lead.
    LongView(&'a str),
}

fn session_name(why: SessionFailure) -> &'static str
    ensures { result.now ≡ session_name why }
{
    match why {
        SessionFailure::ReadFailed => "ReadFailed",
        SessionFailure::WriteFailed => "WriteFailed",
        SessionFailure::CutFrame => "CutFrame",
        SessionFailure::BadFrame(_) => "BadFrame",
        SessionFailure::NoMemory => "NoMemory",
    }
}

fn tell_net<E: Errors>(port: u16, errors: &mut E)
    ensures { E.told errors.new ≡ append_known (E.told errors.old) (port_message port) }
{
    let mut digits = Buffer::new();
    let port_text = digits.format(port).as_bytes();
    tell_three(b"beamnode: 127.0.0.1:", port_text, b": NetFailed\n", errors);
}

fn tell_session<E: Errors>(why: SessionFailure, errors: &mut E)
    ensures { E.told errors.new ≡ append_known (E.told errors.old) (session_message why) }
{
    tell_three(
        b"beamnode: pipe: ",
        session_name(why).as_bytes(),
        b"\n",
        errors,
    );
}

fn tell_start<E: Errors>(refused: Refused, errors: &mut E)
    ensures { E.told errors.new ≡ append_known (E.told errors.old) (start_message refused) }
{
    tell_three(
        b"beamnode: serve: ",
        refusal_name(refused).as_bytes(),
        b"\n",
        errors,
    );
}

fn tell_journal<E: Errors>(fault: &JournalFault<'_>, errors: &mut E)
    ensures { E.told errors.new ≡ append_known (E.told errors.old) (journal_message fault.now) }
{
    tell_three(b"beamnode: ", fault.name.as_bytes(), b": ", errors);
    tell_two(fault.why.name().as_bytes(), b"\n", errors);
}

fn tell_socket<E: Errors>(fault: &SocketFault<'_>, errors: &mut E)
    ensures { E.told errors.new ≡ append_known (E.told errors.old) (socket_message fault.now) }
{
    tell_three(b"beamnode: ", fault.path.as_bytes(), b": ", errors);
    tell_two(fault.why.name().as_bytes(), b"\n", errors);
}

fn tell_file_end<E: Errors>(name: &str, end: &[u8], errors: &mut E)
    ensures { E.told errors.new ≡ append_known (E.told errors.old) (codes "beamnode: " ++ name.now ++ end.now) }
{
    tell_three(b"beamnode: ", name.as_bytes(), end, errors);
}

fn tell_fault<E: Errors>(fault: &JobFault<'_>, errors: &mut E)
    ensures { E.told errors.new ≡ append_known (E.told errors.old) (job_message fault.now) }
{
    match fault {
        JobFault::Pipe(why, _) => tell_session(*why, errors),
        JobFault::Net(port, _) | JobFault::Http(port, _) => tell_net(*port, errors),
        JobFault::Socket(socket) => tell_socket(socket, errors),
        JobFault::File(file) => tell_file(Program::Node, file, errors),
        JobFault::Start(refused) => tell_start(*refused, errors),
        JobFault::LongName => errors.tell(b"beamnode: serve: TooLong\n"),
        JobFault::JournalFull => errors.tell(b"beamnode: serve: JournalFull\n"),
        JobFault::Mismatch => errors.tell(b"beamnode: serve: Mismatch\n"),
        JobFault::ProcessesOut => errors.tell(b"beamnode: serve: ProcessesOut\n"),
        JobFault::Unwritten => errors.tell(b"beamnode: output: WriteFailed\n"),
        JobFault::NoMemory => errors.tell(b"beamnode: NoMemory\n"),
        JobFault::Journal(journal) => tell_journal(journal, errors),
        JobFault::Token(name) => tell_file_end(name, b": WriteFailed\n", errors),
        JobFault::NoProcess(name) => tell_file_end(name, b": NoProcess\n", errors),
        JobFault::LongView(name) => tell_file_end(name, b": TooLong\n", errors),
    }
}

// Writes more about a fault than its message.
fn tell_cause<E: Errors>(fault: &JobFault<'_>, errors: &mut E)
    ensures { E.told errors.new ≡ append_known (E.told errors.old) (job_place fault.now) }
{
    match fault {
        JobFault::Pipe(_, Some(os_error)) => tell_os_error(*os_error, errors),
        JobFault::Net(_, os_error) | JobFault::Http(_, os_error) => tell_os_error(
            *os_error, errors,
        ),
        JobFault::Socket(socket) => tell_socket_place(socket.why, errors),
        JobFault::File(file) => tell_file_place(file.why, &[], errors),
        JobFault::Journal(journal) => tell_journal_place(journal.why, errors),
        _ => {}
    }
}

/// The status of the program after a job that was left to be done: 0 where the job was done to its end. Otherwise 1, and the job's fault is
/// written to the error output, with `-v` or `--verbose` among the words in more detail. Takes no memory.
pub fn job_status<E: Errors>(words: &[&str], ended: Result<(), JobFault<'_>>, errors: &mut E) -> u8
    ensures done { OnOk ended.entry ((result ≡ 0) × (E.told errors.new ≡ E.told errors.old)) }
    ensures fault { IfErr ended.entry (λ f. (result ≡ 1) × (E.told errors.new ≡ append_known (E.told errors.old) (job_text (texts words.now) f))) }
{
    match ended {
        Ok(()) => 0,
        Err(fault) => {
            tell_fault(&fault, errors);
            if is_verbose(words) {
                tell_cause(&fault, errors);
            }
            1
        }
    }
}

fn atom_of<'a>(alloc: Global, name: &str) -> Result<Atom, JobFault<'a>>
    ensures text { IfOk result (λ a. a ≡ name.now) }
    ensures fault { IfErr result (NamingSays name.now) }
{
    match Atom::new(alloc, name) {
        Ok(atom) => Ok(atom),
        Err(AtomError::TooLong) => Err(JobFault::LongName),
        Err(AtomError::NoMemory) => Err(JobFault::NoMemory),
    }
}

/// The event that starts a process with a function, without arguments.
///
/// `LongName` where a name has more than 255 characters, and `NoMemory`.
pub fn start_event<'a>(alloc: Global, start: &Start<'_>) -> Result<Event<Image>, JobFault<'a>>
    ensures event { IfOk result (λ e. e ≡ Spawn start.now.module.now start.now.function.now []) }
    ensures fault { IfErr result (StartingSays start.now.module.now start.now.function.now) }
{
    let module = atom_of(alloc, start.module)?;
    let function = atom_of(alloc, start.function)?;
    let Some(arguments) = SpawnArguments::new(Vec::new(alloc)) else {
        return Err(JobFault::NoMemory);
    };
    Ok(Event::Spawn {
        module,
        function,
        arguments,
    })
}
