//! The command line of `beamnode serve`.
ghost use Rattle.std.specs.Prelude.{◌≡◌, IfErr, IfOk, None, Some, codes, map, option_map};
ghost use Rattle.clap.specs.Words.{first_of, found_of, rows_of};
ghost use Rattle.beam_tools.specs.Lines.{ServeStops};
ghost use Rattle.beam_tools.specs.Options.{address_lines, addresses_in, as_line, files_in, http_in, http_line, is_stop_set, journal_in, level_of, log_in};
ghost use Rattle.beam_tools.specs.Options.{mode_in, mode_of, numbers_in, port_in, serve_in, socket_in, socket_line, start_in};
ghost use Rattle.beam_tools.specs.Options.{start_line, start_of, sync_in, sync_of};

use crate::command::text_of;
use crate::early_exit::{EarlyExit, Wrong};
use crate::line::{HttpOptions, LogLevel, Options, Serve, SocketOptions, Start, SyncMode};
use crate::table::{ArgumentForm, ArgumentRow, FLAG, OPTION, POSITIONAL, VERBOSE};
use crate::values::{count_of, number_of, port_of, texts_of};
use clap::{ArgAction, ArgMatches};
use std::alloc::Global;

/// The most bytes of a socket's path.
const MOST_PATH_BYTES: usize = 102;

/// The greatest mode of a socket's file.
const MOST_MODE: u32 = 0o777;

/// The arguments of `serve`.
pub const SERVE: [ArgumentRow; 18] = [
    VERBOSE,
    ArgumentRow {
        id: "port",
        form: ArgumentForm::Number(0, 65_535),
        value_names: &["P"],
        ..OPTION
    },
    ArgumentRow {
        id: "socket",
        value_names: &["PATH"],
        ..OPTION
    },
    ArgumentRow {
        id: "socket-mode",
        value_names: &["MODE"],
        defaults: &["600"],
        ..OPTION
    },
    ArgumentRow {
        id: "socket-clients",
        form: ArgumentForm::Number(1, 16),
        value_names: &["S"],
        defaults: &["4"],
        ..OPTION
    },
    ArgumentRow {
        id: "http",
        form: ArgumentForm::Number(0, 65_535),
        value_names: &["P"],
        ..OPTION
    },
    ArgumentRow {
        id: "http-token",
        value_names: &["FILE"],
        ..OPTION
    },
    ArgumentRow {
        id: "connections",
        form: ArgumentForm::Number(0, 4_294_967_295),
        value_names: &["K"],
        defaults: &["0"],
        ..OPTION
    },
    ArgumentRow {
        id: "clients",
        form: ArgumentForm::Number(1, 16),
        value_names: &["C"],
        defaults: &["1"],
        ..OPTION
    },
    ArgumentRow {
        id: "schedulers",
        form: ArgumentForm::Number(1, 64),
        value_names: &["N"],
        defaults: &["2"],
        ..OPTION
    },
    ArgumentRow {
        id: "log",
        value_names: &["LEVEL"],
        defaults: &["warn"],
        ..OPTION
    },
    ArgumentRow {
        id: "idle",
        form: ArgumentForm::Number(0, 4_294_967_295),
        value_names: &["SECONDS"],
        defaults: &["0"],
        ..OPTION
    },
    ArgumentRow {
        id: "stop-when-full",
        ..FLAG
    },
    ArgumentRow {
        id: "journal-limit",
        form: ArgumentForm::Number(1, 16_777_216),
        value_names: &["N"],
        defaults: &["16777216"],
        ..OPTION
    },
    ArgumentRow {
        id: "journal",
        value_names: &["FILE"],
        ..OPTION
    },
    ArgumentRow {
        id: "sync",
        value_names: &["WHEN"],
        defaults: &["second"],
        ..OPTION
    },
    ArgumentRow {
        id: "start",
        value_names: &["M:F"],
        ..OPTION
    },
    ArgumentRow {
        id: "file",
        value_names: &["FILE"],
        action: ArgAction::Append,
        required: false,
        ..POSITIONAL
    },
];

fn level_of(text: &str) -> Option<LogLevel>
    ensures { result ≡ level_of text.now }
{
    match text {
        "error" => Some(LogLevel::Error),
        "warn" => Some(LogLevel::Warn),
        "info" => Some(LogLevel::Info),
        _ => None,
    }
}

fn sync_of(text: &str) -> Option<SyncMode>
    ensures { result ≡ sync_of text.now }
{
    match text {
        "always" => Some(SyncMode::Always),
        "second" => Some(SyncMode::Second),
        "no" => Some(SyncMode::No),
        _ => None,
    }
}

// The names before and after the first colon, if both are there.
fn start_of(text: &str) -> Option<Start<'_>>
    ensures { option_map start_line result ≡ start_of text.now }
{
    match text.split_once(':') {
        Some((module, function)) if !module.is_empty() && !function.is_empty() => {
            Some(Start { module, function })
        }
        _ => None,
    }
}

// The mode that one to four octal digits write, up to 777.
fn mode_of(text: &str) -> Option<u32>
    ensures { result ≡ mode_of text.now }
{
    if text.len() > 4 || text.starts_with('+') {
        return None;
    }
    match u32::from_str_radix(text, 8) {
        Ok(mode) if mode <= MOST_MODE => Some(mode),
        Ok(_) => None,
        Err(_) => None,
    }
}

// The numbers of a service.
#[derive(Clone, Copy)]
struct ServeNumbers {
    connections: u32,
    clients: u8,
    schedulers: u8,
    idle: u32,
    journal_limit: u32,
}

fn numbers_in(matches: &ArgMatches<'_>) -> Option<ServeNumbers>
    ensures { result ≡ numbers_in (rows_of (found_of matches.now)) }
{
    Some(ServeNumbers {
        connections: number_of(matches, "connections")?,
        clients: count_of(matches, "clients")?,
        schedulers: count_of(matches, "schedulers")?,
        idle: number_of(matches, "idle")?,
        journal_limit: number_of(matches, "journal-limit")?,
    })
}

// Where a service listens: at a port of 127.0.0.1, at a socket, or at both; and for its page, if it has one.
#[derive(Clone, Copy)]
struct Addresses<'a> {
    port: Option<u16>,
    socket: Option<SocketOptions<'a>>,
    http: Option<HttpOptions<'a>>,
}

// The port that is listened on, if one is named.
#[tactic(auto, using(crate::proofs::Services::no_port))]
fn port_in<'a>(matches: &ArgMatches<'a>) -> Result<Option<u16>, EarlyExit<'a>>
    ensures port { IfOk result (λ port. port_in (rows_of (found_of matches.now)) ≡ Some port) }
    ensures named { IfOk result (λ port. port ≡ None → first_of (codes "port") (rows_of (found_of matches.now)) ≡ None) }
    ensures stop { IfErr result (ServeStops (rows_of (found_of matches.now))) }
{
    if text_of(matches, "port").is_none() {
        return Ok(None);
    }
    match port_of(matches, "port") {
        Some(port) => Ok(Some(port)),
        None => Err(EarlyExit::Wrong(Wrong::NoCommand)),
    }
}

#[tactic(auto, using(crate::proofs::Services::no_mode))]
fn mode_in<'a>(matches: &ArgMatches<'a>) -> Result<u32, EarlyExit<'a>>
    ensures mode { IfOk result (λ mode. mode_in (rows_of (found_of matches.now)) ≡ Some mode) }
    ensures stop { IfErr result (ServeStops (rows_of (found_of matches.now))) }
{
    let Some(text) = text_of(matches, "socket-mode") else {
        return Err(EarlyExit::Wrong(Wrong::NoCommand));
    };
    match mode_of(text) {
        Some(mode) => Ok(mode),
        None => Err(EarlyExit::Wrong(Wrong::NoMode(text))),
    }
}

// The socket that is listened on, if one is named.
#[tactic(auto, using(crate::proofs::Services::no_socket_clients))]
fn socket_in<'a>(matches: &ArgMatches<'a>) -> Result<Option<SocketOptions<'a>>, EarlyExit<'a>>
    ensures socket { IfOk result (λ socket. socket_in (rows_of (found_of matches.now)) ≡ Some (option_map socket_line socket)) }
    ensures path { IfOk result (λ socket. option_map (λ s. s.path.now) socket ≡ first_of (codes "socket") (rows_of (found_of matches.now))) }
    ensures stop { IfErr result (ServeStops (rows_of (found_of matches.now))) }
{
    let mode = mode_in(matches)?;
    let Some(clients) = count_of(matches, "socket-clients") else {
        return Err(EarlyExit::Wrong(Wrong::NoCommand));
    };
    let Some(path) = text_of(matches, "socket") else {
        return Ok(None);
    };
    if path.len() > MOST_PATH_BYTES {
        return Err(EarlyExit::Wrong(Wrong::LongSocket(path)));
    }
    Ok(Some(SocketOptions {
        path,
        mode,
        clients,
    }))
}

// The page, if its port is named. Without that no file of a token may be.
#[tactic(auto, using(crate::proofs::Services::no_http))]
fn http_in<'a>(matches: &ArgMatches<'a>) -> Result<Option<HttpOptions<'a>>, EarlyExit<'a>>
    ensures http { IfOk result (λ http. http_in (rows_of (found_of matches.now)) ≡ Some (option_map http_line http)) }
    ensures stop { IfErr result (ServeStops (rows_of (found_of matches.now))) }
{
    let token = text_of(matches, "http-token");
    if text_of(matches, "http").is_none() {
        return match token {
            Some(_) => Err(EarlyExit::Wrong(Wrong::TokenAlone)),
            None => Ok(None),
        };
    }
    match port_of(matches, "http") {
        Some(port) => Ok(Some(HttpOptions { port, token })),
        None => Err(EarlyExit::Wrong(Wrong::NoCommand)),
    }
}

// The addresses of a service, of which there is at least one beside that of the page.
fn addresses_in<'a>(matches: &ArgMatches<'a>) -> Result<Addresses<'a>, EarlyExit<'a>>
    ensures addresses { IfOk result (λ a. addresses_in (rows_of (found_of matches.now)) ≡ Some (address_lines a)) }
    ensures stop { IfErr result (ServeStops (rows_of (found_of matches.now))) }
{
    let port = port_in(matches)?;
    let socket = socket_in(matches)?;
    let http = http_in(matches)?;
    if port.is_none() && socket.is_none() {
        return Err(EarlyExit::Wrong(Wrong::NoAddress));
    }
    Ok(Addresses { port, socket, http })
}

#[tactic(auto, using(crate::proofs::Services::no_log))]
fn log_in<'a>(matches: &ArgMatches<'a>) -> Result<LogLevel, EarlyExit<'a>>
    ensures level { IfOk result (λ level. log_in (rows_of (found_of matches.now)) ≡ Some level) }
    ensures stop { IfErr result (ServeStops (rows_of (found_of matches.now))) }
{
    let Some(text) = text_of(matches, "log") else {
        return Err(EarlyExit::Wrong(Wrong::NoCommand));
    };
    match level_of(text) {
        Some(level) => Ok(level),
        None => Err(EarlyExit::Wrong(Wrong::NoLevel(text))),
    }
}

fn is_stop_set(matches: &ArgMatches<'_>) -> bool
    ensures { result ≡ is_stop_set (rows_of (found_of matches.now)) }
{
    match text_of(matches, "stop-when-full") {
        Some(text) => text == "true",
        None => false,
    }
}

fn start_in<'a>(matches: &ArgMatches<'a>) -> Result<Option<Start<'a>>, EarlyExit<'a>>
    ensures start { IfOk result (λ start. start_in (rows_of (found_of matches.now)) ≡ Some (option_map start_line start)) }
    ensures stop { IfErr result (ServeStops (rows_of (found_of matches.now))) }
{
    let Some(text) = text_of(matches, "start") else {
        return Ok(None);
    };
    match start_of(text) {
        Some(start) => Ok(Some(start)),
        None => Err(EarlyExit::Wrong(Wrong::NoStart(text))),
    }
}

// The journal's file, which no node has that ends when its journal is full.
fn journal_in<'a>(matches: &ArgMatches<'a>) -> Result<Option<&'a str>, EarlyExit<'a>>
    ensures journal { IfOk result (λ name. journal_in (rows_of (found_of matches.now)) ≡ Some (option_map (λ s. s.now) name)) }
    ensures stop { IfErr result (ServeStops (rows_of (found_of matches.now))) }
{
    let Some(name) = text_of(matches, "journal") else {
        return Ok(None);
    };
    if is_stop_set(matches) {
        return Err(EarlyExit::Wrong(Wrong::StopsWithJournal));
    }
    Ok(Some(name))
}

#[tactic(auto, using(crate::proofs::Services::no_time))]
fn sync_in<'a>(matches: &ArgMatches<'a>) -> Result<SyncMode, EarlyExit<'a>>
    ensures sync { IfOk result (λ sync. sync_in (rows_of (found_of matches.now)) ≡ Some sync) }
    ensures stop { IfErr result (ServeStops (rows_of (found_of matches.now))) }
{
    let Some(text) = text_of(matches, "sync") else {
        return Err(EarlyExit::Wrong(Wrong::NoCommand));
    };
    match sync_of(text) {
        Some(sync) => Ok(sync),
        None => Err(EarlyExit::Wrong(Wrong::NoSync(text))),
    }
}

fn files_in<'a>(alloc: Global, matches: &ArgMatches<'a>) -> Result<Vec<&'a str>, EarlyExit<'a>>
    ensures files { IfOk result (λ v. files_in (rows_of (found_of matches.now)) ≡ map (λ s. s.now) v.items) }
    ensures stop { IfErr result (ServeStops (rows_of (found_of matches.now))) }
{
    let Some(names) = texts_of(matches, "file") else {
        return Ok(Vec::new(alloc));
    };
    match Vec::from_slice(alloc, names) {
        Ok(files) => Ok(files),
        Err(_) => Err(EarlyExit::NoMemory),
    }
}

/// The service in the matches of `serve`.
///
/// `Wrong` where the mode of the socket's file isn't one to four octal digits up to 777, where the socket's path has more than 102 bytes,
/// where there is neither a port nor a socket, where a file of a token is named and no port of a page, where the level of the log is unknown, where the function to start has no name or no module,
/// where a journal's file is named and the node is to end when its journal is full, and where the time is unknown at which that file is put
/// on the device; `NoMemory`.
pub fn serve_in<'a>(alloc: Global, matches: &ArgMatches<'a>) -> Result<Options<'a>, EarlyExit<'a>>
    ensures told { IfOk result (λ o. serve_in (rows_of (found_of matches.now)) ≡ Some (as_line o)) }
    ensures stop { IfErr result (ServeStops (rows_of (found_of matches.now))) }
{
    let Some(numbers) = numbers_in(matches) else {
        return Err(EarlyExit::Wrong(Wrong::NoCommand));
    };
    let addresses = addresses_in(matches)?;
    let log = log_in(matches)?;
    let start = start_in(matches)?;
    let journal = journal_in(matches)?;
    let sync = sync_in(matches)?;
    let files = files_in(alloc, matches)?;
    Ok(Options::Serve(Serve {
        port: addresses.port,
        socket: addresses.socket,
        http: addresses.http,
        connections: numbers.connections,
        clients: numbers.clients,
        schedulers: numbers.schedulers,
        log,
        idle: numbers.idle,
        stop_when_full: is_stop_set(matches),
        journal_limit: numbers.journal_limit,
        files,
        start,
        journal,
        sync,
    }))
}
