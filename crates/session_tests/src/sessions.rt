//! Sessions with a node whose processes run on workers, found by hand: those rows of kind `session` of the program `vectors` whose replies
//! don't depend on when a worker runs a process. Functions without contracts give them, so that the proofs of the tests compute nothing of
//! them.

use crate::devices::Device;
use crate::devices::Device::{Pieces, Reads, Streams, Writes};

/// A session, in words: hexadecimal digits, and names of frames.
#[derive(Clone, Copy)]
pub struct Session {
    pub device: Device,
    /// The bytes that the device gives.
    pub input: &'static str,
    /// The bytes that are written.
    pub replies: &'static str,
    /// How it ends, how many commands were answered, and how many replies written.
    pub end: &'static str,
}

/// Sessions with one node, one after another.
#[derive(Clone, Copy)]
pub struct SessionRow {
    pub sessions: &'static [Session],
    /// The replies to the commands that were accepted, also those that could not be written.
    pub kept: &'static str,
    /// How many processes it starts. They end.
    pub processes: u32,
    /// The views of these processes then, the instances of the module `t`, and the number of break spots.
    pub seen: &'static str,
}

const ROWS: [SessionRow; 14] = [
    SessionRow {
        sessions: &[Session {
            device: Pieces(1),
            input: "LOAD SPAWN",
            replies: "LOADED STARTED",
            end: "Served 2 2",
        }],
        kept: "LOADED STARTED",
        processes: 1,
        seen: "pid 1 ended normal\ncurrent 1 old 0 spots 0\n",
    },
    SessionRow {
        sessions: &[Session {
            device: Streams,
            input: "LOAD SPAWN",
            replies: "LOADED STARTED",
            end: "Served 2 2",
        }],
        kept: "LOADED STARTED",
        processes: 1,
        seen: "pid 1 ended normal\ncurrent 1 old 0 spots 0\n",
    },
    SessionRow {
        sessions: &[Session {
            device: Pieces(4_096),
            input: "LOAD SPAWN 00",
            replies: "LOADED STARTED",
            end: "CutFrame 2 2",
        }],
        kept: "LOADED STARTED",
        processes: 1,
        seen: "pid 1 ended normal\ncurrent 1 old 0 spots 0\n",
    },
    SessionRow {
        sessions: &[Session {
            device: Reads(209),
            input: "LOAD SPAWN STEPS",
            replies: "LOADED STARTED",
            end: "ReadFailed 2 2",
        }],
        kept: "LOADED STARTED",
        processes: 1,
        seen: "pid 1 ended normal\ncurrent 1 old 0 spots 0\n",
    },
    SessionRow {
        sessions: &[Session {
            device: Writes(21),
            input: "LOAD SPAWN STEPS",
            replies: "LOADED 0000000502000000",
            end: "WriteFailed 2 1",
        }],
        kept: "LOADED STARTED",
        processes: 1,
        seen: "pid 1 ended normal\ncurrent 1 old 0 spots 0\n",
    },
    SessionRow {
        sessions: &[Session {
            device: Pieces(4_096),
            input: "LOAD 0000000163 SPAWN",
            replies: "LOADED 000000020702",
            end: "BadFrame(2) 1 1",
        }],
        kept: "LOADED",
        processes: 0,
        seen: "current 1 old 0 spots 0\n",
    },
    SessionRow {
        sessions: &[Session {
            device: Pieces(4_096),
            input: "LOAD 00800001",
            replies: "LOADED 000000020701",
            end: "BadFrame(1) 1 1",
        }],
        kept: "LOADED",
        processes: 0,
        seen: "current 1 old 0 spots 0\n",
    },
    SessionRow {
        sessions: &[Session {
            device: Streams,
            input: "000000080801020304050607",
            replies: "000000020703",
            end: "BadFrame(3) 0 0",
        }],
        kept: "",
        processes: 0,
        seen: "current 0 old 0 spots 0\n",
    },
    SessionRow {
        sessions: &[Session {
            device: Pieces(4_096),
            input: "0000000501464F5231 VERSIONS",
            replies: "00000004060C0102 00000009050000000000000000",
            end: "Served 2 2",
        }],
        kept: "00000009050000000000000000",
        processes: 0,
        seen: "current 0 old 0 spots 0\n",
    },
    SessionRow {
        sessions: &[Session {
            device: Streams,
            input: "LOAD VERSIONS PURGE DELETE VERSIONS DELETE SOFT_PURGE VERSIONS",
            replies: "LOADED LOADED FALSE TRUE 00000009050000000000000001 FALSE TRUE 00000009050000000000000000",
            end: "Served 8 8",
        }],
        kept: "LOADED LOADED FALSE TRUE 00000009050000000000000001 FALSE TRUE 00000009050000000000000000",
        processes: 0,
        seen: "current 0 old 0 spots 0\n",
    },
    SessionRow {
        sessions: &[Session {
            device: Pieces(4_096),
            input: "LOAD LOAD LOAD_STRICT SOFT_PURGE LOAD_STRICT",
            replies: "LOADED 00000009050000000200000001 000000020608 TRUE 00000009050000000300000002",
            end: "Served 5 5",
        }],
        kept: "LOADED 00000009050000000200000001 TRUE 00000009050000000300000002",
        processes: 0,
        seen: "current 3 old 2 spots 0\n",
    },
    SessionRow {
        sessions: &[Session {
            device: Pieces(4_096),
            input: "00000009080000000900000001 000000050900000009 000000050B00000001 RESUME STEP_ONE INSPECT",
            replies: "NO_PROCESS NO_PROCESS NO_PROCESS NO_PROCESS NO_PROCESS NO_PROCESS",
            end: "Served 6 6",
        }],
        kept: "",
        processes: 0,
        seen: "current 0 old 0 spots 0\n",
    },
    SessionRow {
        sessions: &[
            Session {
                device: Writes(0),
                input: "LOAD",
                replies: "",
                end: "WriteFailed 1 0",
            },
            Session {
                device: Pieces(4_096),
                input: "VERSIONS",
                replies: "LOADED",
                end: "Served 1 1",
            },
        ],
        kept: "LOADED LOADED",
        processes: 0,
        seen: "current 1 old 0 spots 0\n",
    },
    SessionRow {
        sessions: &[
            Session {
                device: Pieces(4_096),
                input: "LOAD SET_BREAK SPAWN",
                replies: "LOADED TRUE STARTED",
                end: "Served 3 3",
            },
            Session {
                device: Streams,
                input: "INSPECT STEPS STEP_ONE CLEAR_BREAK CLEAR_BREAK RESUME",
                replies: "HELD STOPPED 00000006030000000102 TRUE FALSE DONE",
                end: "Served 6 6",
            },
        ],
        kept: "LOADED TRUE STARTED HELD 00000006030000000102 TRUE FALSE DONE",
        processes: 1,
        seen: "pid 1 ended normal\ncurrent 1 old 0 spots 0\n",
    },
];

/// The rows.
pub fn rows() -> &'static [SessionRow] {
    &ROWS
}
