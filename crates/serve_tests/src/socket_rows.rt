//! Runs of `beamnode serve` with a socket. Functions without contracts give them, so that the proofs of the tests compute nothing of them.

use crate::node_client::Step::{Ask, Connect, ConnectToSocket, End, Finish, Receive, Send};
use crate::serving_rows::NodeRow;

/// No instance of a module.
const NONE: &str = "00000009050000000000000000";

/// A request that stops the node, and its response.
const STOP: &str =
    "POST /stop HTTP/1.1\r\nHost: localhost\r\nX-Kanguriwe: 1\r\nContent-Length: 0\r\n\r\n";

const STOPPING: &str = "202 Accepted\n{\"stopping\":true}\n";

const OK: &str = "200 OK\nok\n";

const FORBIDDEN: &str = "403 Forbidden\nnot from here\n";

const NOT_ALLOWED: &str = "405 Method Not Allowed\nnot by this method\n";

const NOT_FOUND: &str = "404 Not Found\nnothing is there\n";

const BAD_REQUEST: &str = "400 Bad Request\nno request\n";

const SOCKETS: [NodeRow; 6] = [
    NodeRow {
        title: "a socket alone",
        words: "beamnode serve --socket s.socket --connections 2",
        is_closed: false,
        steps: &[
            ConnectToSocket,
            ConnectToSocket,
            Send(1, "LOAD"),
            Receive(1, "LOADED"),
            Send(0, "VERSIONS"),
            Receive(0, "LOADED"),
            Finish(0),
            End(0),
            Finish(1),
            End(1),
        ],
        wanted: "listening on s.socket\nstatus 0\n",
    },
    // The port's one place is taken, and the socket has its own.
    NodeRow {
        title: "a socket beside a port that is taken",
        words: "beamnode serve --port 0 --socket s.socket --socket-mode 660 --connections 2",
        is_closed: false,
        steps: &[
            Connect,
            Send(0, "VERSIONS"),
            Receive(0, NONE),
            ConnectToSocket,
            Send(1, "LOAD"),
            Receive(1, "LOADED"),
            Send(0, "VERSIONS"),
            Receive(0, "LOADED"),
            Finish(1),
            End(1),
            Finish(0),
            End(0),
        ],
        wanted: "listens\nlistening on s.socket\nstatus 0\n",
    },
    // The second connection to the socket is served once the first one has left.
    NodeRow {
        title: "one place of the socket",
        words: "beamnode serve --port 0 --socket s.socket --socket-clients 1 --connections 2",
        is_closed: false,
        steps: &[
            ConnectToSocket,
            ConnectToSocket,
            Send(1, "VERSIONS"),
            Send(0, "LOAD"),
            Receive(0, "LOADED"),
            Finish(0),
            End(0),
            Receive(1, "LOADED"),
            Finish(1),
            End(1),
        ],
        wanted: "listens\nlistening on s.socket\nstatus 0\n",
    },
    NodeRow {
        title: "a stop in good order",
        words: "beamnode serve --port 0 --clients 2 --socket s.socket --log info",
        is_closed: false,
        steps: &[
            Connect,
            Send(0, "LOAD"),
            Receive(0, "LOADED"),
            Ask("GET /readyz HTTP/1.1\r\n\r\n", OK),
            Ask(STOP, STOPPING),
            End(0),
        ],
        wanted: "listens\nlistening on s.socket
[INFO  beam_serve::incoming_connections] client: connected
[INFO  beam_serve::command_log] load t: current 1, old none
[INFO  beam_serve::http_thread] asked to stop
status 0\n",
    },
    NodeRow {
        title: "a stop of a node that nobody asked for anything",
        words: "beamnode serve --socket s.socket --socket-mode 0640",
        is_closed: false,
        steps: &[Ask(STOP, STOPPING)],
        wanted: "listening on s.socket\nstatus 0\n",
    },
    NodeRow {
        title: "requests by which nothing is done",
        words: "beamnode serve --socket s.socket --connections 1",
        is_closed: false,
        steps: &[
            Ask("GET /healthz HTTP/1.1\r\nHost: localhost\r\n\r\n", OK),
            Ask("GET /readyz HTTP/1.1\r\nHost: localhost\r\n\r\n", OK),
            Ask("POST /stop HTTP/1.1\r\nHost: localhost\r\n\r\n", FORBIDDEN),
            Ask("GET /stop HTTP/1.1\r\nX-Kanguriwe: 1\r\n\r\n", NOT_ALLOWED),
            Ask(
                "POST /readyz HTTP/1.1\r\nX-Kanguriwe: 1\r\n\r\n",
                NOT_ALLOWED,
            ),
            Ask("GET /stopp HTTP/1.1\r\n\r\n", NOT_FOUND),
            Ask("\u{0}\u{0}\u{0}\u{1}c", BAD_REQUEST),
            ConnectToSocket,
            Send(0, "VERSIONS"),
            Receive(0, NONE),
            Finish(0),
            End(0),
        ],
        wanted: "listening on s.socket\nstatus 0\n",
    },
];

/// What clients of a socket get, and how a node is stopped.
pub fn sockets() -> &'static [NodeRow] {
    &SOCKETS
}

const IN_USE: [NodeRow; 1] = [NodeRow {
    title: "a socket on which another program listens",
    words: "beamnode serve --socket s.socket --connections 1",
    is_closed: false,
    steps: &[],
    wanted: "beamnode: s.socket: SocketInUse\nstatus 1\n",
}];

/// A socket on which another program listens.
pub fn in_use() -> &'static [NodeRow] {
    &IN_USE
}

const LEFT: [NodeRow; 1] = [NodeRow {
    title: "a socket that a dead node has left",
    words: "beamnode serve --socket s.socket --connections 1",
    is_closed: false,
    steps: &[
        ConnectToSocket,
        Send(0, "VERSIONS"),
        Receive(0, NONE),
        Finish(0),
        End(0),
    ],
    wanted: "listening on s.socket\nstatus 0\n",
}];

/// A socket that a dead node has left.
pub fn left() -> &'static [NodeRow] {
    &LEFT
}

const NO_SOCKET: [NodeRow; 1] = [NodeRow {
    title: "a file that is no socket",
    words: "beamnode serve --socket s.socket --connections 1",
    is_closed: false,
    steps: &[],
    wanted: "beamnode: s.socket: NoSocket\nstatus 1\n",
}];

/// A file that is no socket.
pub fn no_socket() -> &'static [NodeRow] {
    &NO_SOCKET
}
