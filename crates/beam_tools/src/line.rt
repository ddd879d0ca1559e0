//! What a command line of `beamnode` asks for.

use crate::entry_range::EntryRange;

/// A subcommand, with its options.
#[derive(Drop)]
pub enum Options<'a> {
    /// Load files, call a function and print its value.
    Call(Call<'a>),
    /// Answer the commands on standard input.
    Pipe,
    /// Answer the commands of connections to a port or to a socket.
    Serve(Serve<'a>),
    /// Run the entries of a journal's file again.
    Replay(Replay<'a>),
}

/// The options of `beamnode call`.
pub struct Call<'a> {
    /// The module's name.
    pub module: &'a str,
    /// The function's name.
    pub function: &'a str,
    /// The list of its arguments, as Erlang text.
    pub arguments: &'a str,
    /// The rows that may be run in all.
    pub steps: u32,
    /// The names of the files to load, in order.
    pub files: Vec<&'a str>,
}

impl Drop for Call<'_> {
    fn drop(self) {
        let Call {
            module: _module,
            function: _function,
            arguments: _arguments,
            steps: _steps,
            files: _files,
        } = self;
    }
}

/// How much is logged while connections are served.
#[derive(Clone, Copy)]
pub enum LogLevel {
    /// Only what goes wrong.
    Error,
    /// Also what an operator should look at.
    Warn,
    /// Also what happens otherwise.
    Info,
}

/// When the answer to a command is told, where the node keeps its journal in a file, and when the file is put on the device.
#[derive(Clone, Copy, Debug, PartialEq, Eq)]
pub enum SyncMode {
    /// At once. The system puts the file on the device when it does.
    No,
    /// Once the command's entries stand in the file, which is put on the device once a second.
    Second,
    /// Once the command's entries are on the device.
    Always,
}

/// A function without arguments that a process starts with.
#[derive(Clone, Copy)]
pub struct Start<'a> {
    /// The module's name.
    pub module: &'a str,
    /// The function's name.
    pub function: &'a str,
}

/// A Unix-domain socket that is listened on.
#[derive(Clone, Copy)]
pub struct SocketOptions<'a> {
    /// Its path, of at most 102 bytes.
    pub path: &'a str,
    /// The mode of its file, from 0 to 0o777.
    pub mode: u32,
    /// How many of its connections are served at once, from 1 to 16.
    pub clients: u8,
}

/// A page over a node, and its looks and its stop, by HTTP.
#[derive(Clone, Copy)]
pub struct HttpOptions<'a> {
    /// The port of 127.0.0.1; 0 for one that is free.
    pub port: u16,
    /// The name of the file to which a token is written, if one is asked for.
    pub token: Option<&'a str>,
}

/// The options of `beamnode serve`.
pub struct Serve<'a> {
    /// The port of 127.0.0.1; 0 for one that is free; none where there is a socket alone.
    pub port: Option<u16>,
    /// The socket, if any. There is a port, a socket or both.
    pub socket: Option<SocketOptions<'a>>,
    /// The page, if any.
    pub http: Option<HttpOptions<'a>>,
    /// How many connections are served; 0 for no end.
    pub connections: u32,
    /// How many connections to the port are served at once, from 1 to 16.
    pub clients: u8,
    /// How many scheduler threads run, from 1 to 64.
    pub schedulers: u8,
    /// How much is logged.
    pub log: LogLevel,
    /// The seconds without a byte after which a session ends; 0 for never.
    pub idle: u32,
    /// Whether the node ends when its journal is full.
    pub stop_when_full: bool,
    /// How many entries the journal may have, from 1 to 16,777,216.
    pub journal_limit: u32,
    /// The names of the files to load, in order.
    pub files: Vec<&'a str>,
    /// The function with which a process starts, once the files are loaded.
    pub start: Option<Start<'a>>,
    /// The name of the file that keeps the journal, if any.
    pub journal: Option<&'a str>,
    /// When answers are told, and when the journal's file is put on the device. Without such a file it says nothing.
    pub sync: SyncMode,
}

impl Drop for Serve<'_> {
    fn drop(self) {
        let Serve {
            port: _port,
            socket: _socket,
            http: _http,
            connections: _connections,
            clients: _clients,
            schedulers: _schedulers,
            log: _log,
            idle: _idle,
            stop_when_full: _stop_when_full,
            journal_limit: _journal_limit,
            files: _files,
            start: _start,
            journal: _journal,
            sync: _sync,
        } = self;
    }
}

/// What is done with the entries of a journal's file and with the state to which they lead.
#[derive(Clone, Copy)]
pub enum ReplayGoal {
    /// A report of them is printed.
    Report {
        /// The entries that are printed before it, if any.
        print: Option<EntryRange>,
        /// The process whose state is printed after it, if any.
        inspect: Option<u32>,
    },
    /// The commands on standard input are answered, from that state on.
    Pipe,
}

/// The options of `beamnode replay`.
#[derive(Clone, Copy)]
pub struct Replay<'a> {
    /// The name of the journal's file.
    pub file: &'a str,
    /// The number of the entry before which the replay ends.
    pub upto: u32,
    /// What is done with its entries.
    pub goal: ReplayGoal,
}
