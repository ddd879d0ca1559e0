//! Runs of `beamnode` with a journal's file, one after another in one folder. The bytes of files that a row begins with were worked out by
//! hand from the page about the format.

use crate::node_client::Step::{Connect, End, Finish, Poll, Receive, Send};
use crate::serving_rows::NodeRow;

/// A file that a row begins with: its name, and its bytes as digits.
#[derive(Clone, Copy)]
pub struct JournalFile {
    pub name: &'static str,
    pub digits: &'static str,
}

/// The block of a head whose identifier is zeros: 51 bytes.
const HEAD: &str =
    "00000023FFFFFFDC000002AF000053044B414E4755524957450001000000000000000000000000000000000000000000000000";

/// The block of a head of version 2 whose identifier is zeros: 51 bytes.
const OTHER_HEAD: &str =
    "00000023FFFFFFDC000002B00000531D4B414E4755524957450002000000000000000000000000000000000000000000000000";

/// A head, a page with Versions of `t` and with the time 1,000, both by seat 0, and the first 7 bytes of another block.
const TORN: &str =
    "00000023FFFFFFDC000002AF000053044B414E47555249574500010000000000000000000000000000000000000000000000000000001BFFFFFFE40000027C00001737000000000000000091000000000001748A000000000000000003E80000001BFFFFFF";

/// The same page with another byte, and then as it was.
const BAD: &str =
    "00000023FFFFFFDC000002AF000053044B414E47555249574500010000000000000000000000000000000000000000000000000000001BFFFFFFE40000027C00001737000000000000000091000000000001758A000000000000000003E80000001BFFFFFFE40000027C00001737000000000000000091000000000001748A000000000000000003E8";

/// A page with a delivery to process 1, which was never started.
const REFUSED: &str =
    "00000023FFFFFFDC000002AF000053044B414E47555249574500010000000000000000000000000000000000000000000000000000000BFFFFFFF4000000230000006F0000000000000000210001";

const FILES: [JournalFile; 6] = [
    JournalFile {
        name: "empty.journal",
        digits: "",
    },
    JournalFile {
        name: "torn.journal",
        digits: TORN,
    },
    JournalFile {
        name: "bad.journal",
        digits: BAD,
    },
    JournalFile {
        name: "refused.journal",
        digits: REFUSED,
    },
    JournalFile {
        name: "other.journal",
        digits: OTHER_HEAD,
    },
    JournalFile {
        name: "none.journal",
        digits: "00000023FFFFFFDC",
    },
];

/// The files that rows begin with.
pub fn journal_files() -> &'static [JournalFile] {
    &FILES
}

/// The file that is only a head.
pub fn head() -> JournalFile {
    JournalFile {
        name: "used.journal",
        digits: HEAD,
    }
}

/// The view of process 1, which has ended with `normal`.
const ENDED: &str = "0000001404 706964203120656E646564206E6F726D616C0A";

/// No instance of a module.
const NONE: &str = "00000009050000000000000000";

const LIVES: [NodeRow; 15] = [
    NodeRow {
        title: "a node with a new file",
        words: "beamnode serve --port 0 --connections 1 --journal n.journal",
        is_closed: false,
        steps: &[
            Connect,
            Send(0, "LOAD VERSIONS"),
            Receive(0, "LOADED LOADED"),
            Finish(0),
            End(0),
        ],
        wanted: "listens\nstatus 0\n",
    },
    // The two schedulers have seats 0 and 1, and the client has seat 2. After the load a scheduler may have entered the time.
    NodeRow {
        title: "what its file begins with",
        words: "beamnode replay --upto 1 n.journal",
        is_closed: false,
        steps: &[],
        wanted: "entries: 1
  Load: 1
seats: 3
clock: 0 ms
processes: 0, 0 of them ended
status 0
",
    },
    // The module is there, and the line's own files and its process are left out.
    NodeRow {
        title: "the node comes back, with more threads",
        words: "beamnode serve --port 0 --connections 2 --clients 2 --schedulers 3 --journal n.journal --sync always --start e:hold e.beam",
        is_closed: false,
        steps: &[
            Connect,
            Send(0, "VERSIONS 000000021165"),
            Receive(0, "LOADED 00000009050000000000000000"),
            Send(0, "SPAWN"),
            Receive(0, "STARTED"),
            Poll(0, "INSPECT", ENDED),
            Connect,
            Send(1, "VERSIONS"),
            Receive(1, "LOADED"),
            Finish(1),
            End(1),
            Finish(0),
            End(0),
        ],
        wanted: "listens\nstatus 0\n",
    },
    NodeRow {
        title: "it comes back with the process that has ended, with fewer threads",
        words: "beamnode serve --port 0 --connections 1 --schedulers 1 --journal n.journal --sync no",
        is_closed: false,
        steps: &[
            Connect,
            Send(0, "INSPECT DELETE"),
            Receive(0, "0000001404 706964203120656E646564206E6F726D616C0A TRUE"),
            Finish(0),
            End(0),
        ],
        wanted: "listens\nstatus 0\n",
    },
    NodeRow {
        title: "what was written at the end stands too",
        words: "beamnode serve --port 0 --connections 1 --journal n.journal",
        is_closed: false,
        steps: &[
            Connect,
            Send(0, "DELETE INSPECT"),
            Receive(0, "FALSE 0000001404 706964203120656E646564206E6F726D616C0A"),
            Finish(0),
            End(0),
        ],
        wanted: "listens\nstatus 0\n",
    },
    NodeRow {
        title: "a file without bytes",
        words: "beamnode serve --port 0 --connections 1 --journal empty.journal",
        is_closed: false,
        steps: &[
            Connect,
            Send(0, "VERSIONS"),
            Receive(0, NONE),
            Finish(0),
            End(0),
        ],
        wanted: "listens\nstatus 0\n",
    },
    NodeRow {
        title: "a torn end, read",
        words: "beamnode replay torn.journal",
        is_closed: false,
        steps: &[],
        wanted: "entries: 2
  Clock: 1
  Versions: 1
seats: 1
clock: 1000 ms
processes: 0, 0 of them ended
CutJournal at byte 94: 7 bytes
status 0
",
    },
    NodeRow {
        title: "the beginning of a file, read",
        words: "beamnode replay --upto 1 torn.journal",
        is_closed: false,
        steps: &[],
        wanted: "entries: 1
  Versions: 1
seats: 1
clock: 0 ms
processes: 0, 0 of them ended
status 0
",
    },
    NodeRow {
        title: "the lines of its entries, and a process that was never started",
        words: "beamnode replay --print .. --inspect 1 torn.journal",
        is_closed: false,
        steps: &[],
        wanted: "0 seat 0 Versions t
1 seat 0 Clock 1000
entries: 2
  Clock: 1
  Versions: 1
seats: 1
clock: 1000 ms
processes: 0, 0 of them ended
CutJournal at byte 94: 7 bytes
beamnode: torn.journal: NoProcess
status 1
",
    },
    NodeRow {
        title: "one of its lines",
        words: "beamnode replay --print 1..2 --upto 2 torn.journal",
        is_closed: false,
        steps: &[],
        wanted: "1 seat 0 Clock 1000
entries: 2
  Clock: 1
  Versions: 1
seats: 1
clock: 1000 ms
processes: 0, 0 of them ended
status 0
",
    },
    NodeRow {
        title: "a session without commands from there on",
        words: "beamnode replay --pipe torn.journal",
        is_closed: false,
        steps: &[],
        wanted: "status 0\n",
    },
    NodeRow {
        title: "a torn end, cut off",
        words: "beamnode serve --port 0 --connections 1 --journal torn.journal",
        is_closed: false,
        steps: &[
            Connect,
            Send(0, "VERSIONS"),
            Receive(0, NONE),
            Finish(0),
            End(0),
        ],
        wanted: "listens
[WARN  beam_replay::journal_recovery] torn.journal: CutJournal at byte 94: 7 bytes are cut off
status 0
",
    },
    NodeRow {
        title: "it goes on where it was cut off",
        words: "beamnode replay torn.journal",
        is_closed: false,
        steps: &[],
        wanted: "entries: 3
  Clock: 1
  Versions: 2
seats: 3
clock: 1000 ms
processes: 0, 0 of them ended
status 0
",
    },
    // The limit is of the entries that the file may lack, and not of those that it has.
    NodeRow {
        title: "more entries in the file than the limit",
        words: "beamnode serve --port 0 --connections 1 --journal-limit 1 --journal torn.journal",
        is_closed: false,
        steps: &[
            Connect,
            Send(0, "VERSIONS VERSIONS"),
            Receive(0, NONE),
            Receive(0, NONE),
            Finish(0),
            End(0),
        ],
        wanted: "listens\nstatus 0\n",
    },
    NodeRow {
        title: "the file has these too",
        words: "beamnode replay torn.journal",
        is_closed: false,
        steps: &[],
        wanted: "entries: 5
  Clock: 1
  Versions: 4
seats: 3
clock: 1000 ms
processes: 0, 0 of them ended
status 0
",
    },
];

/// Lives of nodes, one after another.
pub fn lives() -> &'static [NodeRow] {
    &LIVES
}

/// Ten commands. They only read something, so no scheduler is woken that enters the time.
const TEN: &str =
    "VERSIONS VERSIONS VERSIONS VERSIONS VERSIONS VERSIONS VERSIONS VERSIONS VERSIONS VERSIONS";

/// The replies to them, where the module isn't there.
const TEN_REPLIES: &str = "NONE NONE NONE NONE NONE NONE NONE NONE NONE NONE";

/// The start of a process of `t:sum(100000)`: more than 400,000 rows, so more than 100 slices.
const LONG_SUM: &str = "0000001706836803770174770373756D6C0000000162000186A06A";

const LONG_LIVES: [NodeRow; 6] = [
    NodeRow {
        title: "ten times as many commands as the file may lack",
        words: "beamnode serve --port 0 --connections 1 --journal long.journal --journal-limit 4 --sync no",
        is_closed: false,
        steps: &[
            Connect,
            Send(0, TEN),
            Send(0, TEN),
            Send(0, TEN),
            Send(0, TEN),
            Receive(0, TEN_REPLIES),
            Receive(0, TEN_REPLIES),
            Receive(0, TEN_REPLIES),
            Receive(0, TEN_REPLIES),
            Finish(0),
            End(0),
        ],
        wanted: "listens\nstatus 0\n",
    },
    NodeRow {
        title: "all of them are in the file",
        words: "beamnode replay long.journal",
        is_closed: false,
        steps: &[],
        wanted: "entries: 40
  Versions: 40
seats: 3
clock: 0 ms
processes: 0, 0 of them ended
status 0
",
    },
    NodeRow {
        title: "the node comes back, and goes on with answers that wait for the file",
        words: "beamnode serve --port 0 --connections 1 --journal long.journal --journal-limit 4 --sync second",
        is_closed: false,
        steps: &[
            Connect,
            Send(0, TEN),
            Send(0, TEN),
            Send(0, TEN),
            Send(0, TEN),
            Receive(0, TEN_REPLIES),
            Receive(0, TEN_REPLIES),
            Receive(0, TEN_REPLIES),
            Receive(0, TEN_REPLIES),
            Finish(0),
            End(0),
        ],
        wanted: "listens\nstatus 0\n",
    },
    NodeRow {
        title: "the file has the entries of both lives",
        words: "beamnode replay long.journal",
        is_closed: false,
        steps: &[],
        wanted: "entries: 80
  Versions: 80
seats: 3
clock: 0 ms
processes: 0, 0 of them ended
status 0
",
    },
    NodeRow {
        title: "a process of more slices than the file may lack",
        words: "beamnode serve --port 0 --connections 1 --journal work.journal --journal-limit 4 --sync no",
        is_closed: false,
        steps: &[
            Connect,
            Send(0, "LOAD"),
            Receive(0, "LOADED"),
            Send(0, LONG_SUM),
            Receive(0, "STARTED"),
            Poll(0, "INSPECT", ENDED),
            Finish(0),
            End(0),
        ],
        wanted: "listens\nstatus 0\n",
    },
    NodeRow {
        title: "its slices are run again",
        words: "beamnode serve --port 0 --connections 1 --journal work.journal --journal-limit 4 --sync no",
        is_closed: false,
        steps: &[
            Connect,
            Send(0, "INSPECT"),
            Receive(0, ENDED),
            Finish(0),
            End(0),
        ],
        wanted: "listens\nstatus 0\n",
    },
];

/// Lives of nodes that enter many more entries than their files may lack.
pub fn long_lives() -> &'static [NodeRow] {
    &LONG_LIVES
}

const REFUSALS: [NodeRow; 9] = [
    NodeRow {
        title: "a block with another byte",
        words: "beamnode serve -v --port 0 --journal bad.journal",
        is_closed: false,
        steps: &[],
        wanted: "beamnode: bad.journal: BadJournal\n  byte 51, entry 0\nstatus 1\n",
    },
    NodeRow {
        title: "an entry that the node refuses",
        words: "beamnode replay -v refused.journal",
        is_closed: false,
        steps: &[],
        wanted: "beamnode: refused.journal: BadJournal\n  byte 51, entry 0\nstatus 1\n",
    },
    NodeRow {
        title: "another version",
        words: "beamnode serve --port 0 --journal other.journal",
        is_closed: false,
        steps: &[],
        wanted: "beamnode: other.journal: OtherVersion\nstatus 1\n",
    },
    NodeRow {
        title: "a part of a head",
        words: "beamnode serve --port 0 --journal none.journal",
        is_closed: false,
        steps: &[],
        wanted: "beamnode: none.journal: NoJournal\nstatus 1\n",
    },
    NodeRow {
        title: "no file",
        words: "beamnode replay absent.journal",
        is_closed: false,
        steps: &[],
        wanted: "beamnode: absent.journal: ReadFailed\nstatus 1\n",
    },
    NodeRow {
        title: "a file that a node has",
        words: "beamnode replay used.journal",
        is_closed: false,
        steps: &[],
        wanted: "beamnode: used.journal: JournalInUse\nstatus 1\n",
    },
    NodeRow {
        title: "a node with the file of another node",
        words: "beamnode serve --port 0 --journal used.journal",
        is_closed: false,
        steps: &[],
        wanted: "beamnode: used.journal: JournalInUse\nstatus 1\n",
    },
    NodeRow {
        title: "lines that can't be printed",
        words: "beamnode replay --print 0.. torn.journal",
        is_closed: true,
        steps: &[],
        wanted: "beamnode: output: WriteFailed\nstatus 1\n",
    },
    NodeRow {
        title: "a report that can't be printed",
        words: "beamnode replay torn.journal",
        is_closed: true,
        steps: &[],
        wanted: "beamnode: output: WriteFailed\nstatus 1\n",
    },
];

/// Files that are refused.
pub fn refusals() -> &'static [NodeRow] {
    &REFUSALS
}
