//! Runs of `beamnode serve`: what clients do, and what comes of it. Functions without contracts give them, so that the proofs of the tests
//! compute nothing of them.

use crate::node_client::Step;
use crate::node_client::Step::{Connect, End, Finish, Poll, Receive, Send, Threads};

/// A run of `beamnode serve` with a client.
#[derive(Clone, Copy)]
pub struct NodeRow {
    pub title: &'static str,
    /// The command line.
    pub words: &'static str,
    /// Whether nothing can be printed.
    pub is_closed: bool,
    /// What the client does.
    pub steps: &'static [Step],
    /// `listens` if the address was printed; the lines of the log, without their time and the ports of clients; the other errors; and the
    /// status.
    pub wanted: &'static str,
}

/// The view of process 1, which has ended with `normal`.
const ENDED: &str = "0000001404 706964203120656E646564206E6F726D616C0A";

/// No instance of a module.
const NONE: &str = "00000009050000000000000000";

/// The frame error `TooLong`, after which a session ends.
const TOO_LONG: &str = "000000020701";

/// The refusal `JournalFull`.
const FULL: &str = "00000002060A";

const CONNECTIONS: [NodeRow; 4] = [
    // The second client asks first, and is answered after the first one, which loads the module.
    NodeRow {
        title: "two clients, one after the other",
        words: "beamnode serve --port 0 --connections 2",
        is_closed: false,
        steps: &[
            Connect,
            Connect,
            Send(1, "VERSIONS"),
            Send(0, "LOAD SPAWN"),
            Receive(0, "LOADED STARTED"),
            Finish(0),
            End(0),
            Receive(1, "LOADED"),
            Finish(1),
            End(1),
        ],
        wanted: "listens\nstatus 0\n",
    },
    // The third client asks before the others do, and is answered once the first one, which loads the module, has left.
    NodeRow {
        title: "three clients, two of them at once",
        words: "beamnode serve --port 0 --connections 3 --clients 2",
        is_closed: false,
        steps: &[
            Connect,
            Connect,
            Connect,
            Send(2, "VERSIONS"),
            Send(0, "VERSIONS"),
            Receive(0, NONE),
            Send(1, "VERSIONS"),
            Receive(1, NONE),
            Send(0, "LOAD"),
            Receive(0, "LOADED"),
            Finish(0),
            End(0),
            Receive(2, "LOADED"),
            Send(1, "DELETE"),
            Receive(1, "TRUE"),
            Send(2, "DELETE"),
            Receive(2, "FALSE"),
            Finish(2),
            End(2),
            Finish(1),
            End(1),
        ],
        wanted: "listens\nstatus 0\n",
    },
    NodeRow {
        title: "a session that fails beside one that goes on",
        words: "beamnode serve --port 0 --connections 3 --clients 2",
        is_closed: false,
        steps: &[
            Connect,
            Connect,
            Send(1, "LOAD"),
            Receive(1, "LOADED"),
            Send(0, "VERSIONS 0000000163"),
            Receive(0, "LOADED 000000020702"),
            End(0),
            Send(1, "VERSIONS"),
            Receive(1, "LOADED"),
            Connect,
            Send(2, "VERSIONS"),
            Receive(2, "LOADED"),
            Finish(1),
            End(1),
            Finish(2),
            End(2),
        ],
        wanted: "listens\n[WARN  beam_serve::incoming_connections] BadFrame\nstatus 0\n",
    },
    NodeRow {
        title: "an address that can't be printed",
        words: "beamnode serve --port 0 --connections 1",
        is_closed: true,
        steps: &[],
        wanted: "beamnode: output: WriteFailed\nstatus 1\n",
    },
];

/// Connections, one after another and at once.
pub fn connections() -> &'static [NodeRow] {
    &CONNECTIONS
}

/// What `--start` and FILE need: `t.beam` has the module of `LOAD`, `e.beam` the listing OVER, `l.beam` the listing LOOP, `d.beam` the
/// listing DOUBLE, and `bad.beam` no module.
const FILES: [NodeRow; 7] = [
    NodeRow {
        title: "two files and a process",
        words: "beamnode serve --port 0 --connections 1 --log info --start e:hold t.beam e.beam",
        is_closed: false,
        steps: &[
            Connect,
            Poll(0, "INSPECT", ENDED),
            Send(0, "VERSIONS 000000021165"),
            Receive(0, "LOADED 00000009050000000200000000"),
            Finish(0),
            End(0),
        ],
        wanted: "listens
[INFO  beam_serve::command_log] load t: current 1, old none
[INFO  beam_serve::command_log] load e: current 2, old none
[INFO  beam_serve::incoming_connections] client: connected
status 0
",
    },
    NodeRow {
        title: "a file that isn't there",
        words: "beamnode serve --port 0 --connections 1 t.beam none.beam",
        is_closed: false,
        steps: &[],
        wanted: "beamnode: none.beam: ReadFailed\nstatus 1\n",
    },
    NodeRow {
        title: "a file that is no module's",
        words: "beamnode serve --port 0 --connections 1 t.beam bad.beam",
        is_closed: false,
        steps: &[],
        wanted: "beamnode: bad.beam: NotForm\nstatus 1\n",
    },
    NodeRow {
        title: "a journal without room for the files",
        words: "beamnode serve --port 0 --connections 1 --journal-limit 1 t.beam e.beam",
        is_closed: false,
        steps: &[],
        wanted: "beamnode: serve: JournalFull\nstatus 1\n",
    },
    NodeRow {
        title: "a journal without room for the process",
        words: "beamnode serve --port 0 --connections 1 --journal-limit 1 --start e:hold e.beam",
        is_closed: false,
        steps: &[],
        wanted: "beamnode: serve: JournalFull\nstatus 1\n",
    },
    // Its text would have terabytes. The session that asks for it ends, and the next one is served.
    NodeRow {
        title: "a process whose text is too long",
        words: "beamnode serve --port 0 --connections 2 --clients 1 --log error --start d:double d.beam",
        is_closed: false,
        steps: &[
            Connect,
            Poll(0, "INSPECT", TOO_LONG),
            End(0),
            Connect,
            Send(1, "VERSIONS"),
            Receive(1, NONE),
            Finish(1),
            End(1),
        ],
        wanted: "listens\nstatus 0\n",
    },
    // The process never ends.
    NodeRow {
        title: "a process that fills the journal",
        words: "beamnode serve --port 0 --connections 1 --log error --journal-limit 100 --stop-when-full --start l:loop l.beam",
        is_closed: false,
        steps: &[],
        wanted: "listens\nbeamnode: serve: JournalFull\nstatus 1\n",
    },
];

/// What a node begins with.
pub fn files() -> &'static [NodeRow] {
    &FILES
}

const JOURNALS: [NodeRow; 2] = [
    NodeRow {
        title: "a full journal refuses",
        words: "beamnode serve --port 0 --connections 1 --log error --journal-limit 2",
        is_closed: false,
        steps: &[
            Connect,
            Send(0, "VERSIONS"),
            Receive(0, NONE),
            Poll(0, "VERSIONS", FULL),
            Finish(0),
            End(0),
        ],
        wanted: "listens\nstatus 0\n",
    },
    NodeRow {
        title: "a full journal ends the node",
        words: "beamnode serve --port 0 --connections 1 --journal-limit 1 --stop-when-full",
        is_closed: false,
        steps: &[Connect, Send(0, "VERSIONS"), Receive(0, NONE), End(0)],
        wanted: "listens
[WARN  beam_serve::serve_gate] journal: full, 1 entries
beamnode: serve: JournalFull
status 1
",
    },
];

/// A journal that fills.
pub fn journals() -> &'static [NodeRow] {
    &JOURNALS
}

/// The threads are that of the client, that which writes the log, and those that serve connections and run processes.
const THREAD_COUNTS: [NodeRow; 2] = [
    NodeRow {
        title: "one scheduler, one connection at once",
        words: "beamnode serve --port 0 --connections 1 --schedulers 1",
        is_closed: false,
        steps: &[
            Connect,
            Send(0, "LOAD SPAWN"),
            Receive(0, "LOADED STARTED"),
            Poll(0, "INSPECT", ENDED),
            Threads(4),
            Finish(0),
            End(0),
        ],
        wanted: "listens\nstatus 0\n",
    },
    // The second connection comes last, so that the thread that waits for it is counted.
    NodeRow {
        title: "three schedulers, two connections at once",
        words: "beamnode serve --port 0 --connections 2 --clients 2 --schedulers 3",
        is_closed: false,
        steps: &[
            Connect,
            Send(0, "LOAD SPAWN"),
            Receive(0, "LOADED STARTED"),
            Poll(0, "INSPECT", ENDED),
            Threads(7),
            Connect,
            Finish(1),
            End(1),
            Finish(0),
            End(0),
        ],
        wanted: "listens\nstatus 0\n",
    },
];

/// Schedulers and threads that serve connections.
pub fn thread_counts() -> &'static [NodeRow] {
    &THREAD_COUNTS
}

/// The first client sends nothing, and the second one half a frame.
const SILENCE: [NodeRow; 1] = [NodeRow {
    title: "two silent clients",
    words: "beamnode serve --port 0 --connections 2 --clients 2 --idle 1",
    is_closed: false,
    steps: &[Connect, Connect, Send(1, "0000"), End(0), End(1)],
    wanted: "listens
[WARN  beam_serve::incoming_connections] ReadFailed
[WARN  beam_serve::incoming_connections] ReadFailed
status 0
",
}];

/// Clients that are silent for longer than they may be.
pub fn silence() -> &'static [NodeRow] {
    &SILENCE
}

/// A client that sends half a frame and then its end.
const CUT: &[Step] = &[
    Connect,
    Send(0, "VERSIONS 0000"),
    Receive(0, NONE),
    Finish(0),
    End(0),
];

const LEVELS: [NodeRow; 4] = [
    NodeRow {
        title: "the log at info",
        words: "beamnode serve --port 0 --connections 1 --log info",
        is_closed: false,
        steps: CUT,
        wanted: "listens
[INFO  beam_serve::incoming_connections] client: connected
[WARN  beam_serve::incoming_connections] CutFrame
[INFO  beam_serve::incoming_connections] client: CutFrame after command 1
status 0
",
    },
    NodeRow {
        title: "the log at warn",
        words: "beamnode serve --port 0 --connections 1 --log warn",
        is_closed: false,
        steps: CUT,
        wanted: "listens\n[WARN  beam_serve::incoming_connections] CutFrame\nstatus 0\n",
    },
    NodeRow {
        title: "the log at error",
        words: "beamnode serve --port 0 --connections 1 --log error",
        is_closed: false,
        steps: CUT,
        wanted: "listens\nstatus 0\n",
    },
    // The second client comes when the first one is served.
    NodeRow {
        title: "all places are taken",
        words: "beamnode serve --port 0 --connections 2 --clients 2 --log info",
        is_closed: false,
        steps: &[
            Connect,
            Send(0, "VERSIONS"),
            Receive(0, NONE),
            Connect,
            Send(1, "VERSIONS"),
            Receive(1, NONE),
            Finish(0),
            End(0),
            Finish(1),
            End(1),
        ],
        wanted: "listens
[INFO  beam_serve::incoming_connections] client: connected
[INFO  beam_serve::incoming_connections] client: connected
[INFO  beam_serve::incoming_connections] 2 of 2 places are taken
status 0
",
    },
];

/// Levels of the log.
pub fn levels() -> &'static [NodeRow] {
    &LEVELS
}
