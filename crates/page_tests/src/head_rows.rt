//! Heads of requests, and what a node makes of them. Functions without contracts give them, so that the proofs of the tests compute nothing of
//! them. RFC 9112 says which heads are requests; where this node refuses otherwise than it has it, a comment says so.

/// A head that comes through a door.
#[derive(Clone, Copy)]
pub struct HeadRow {
    pub title: &'static str,
    /// The port that it comes over; 0 for a socket.
    pub port: u16,
    /// The port's token; empty for none.
    pub token: &'static str,
    pub head: &'static str,
    /// The answer, as `{:?}` prints it.
    pub wanted: &'static str,
}

const HOSTS: [HeadRow; 10] = [
    // A socket reads no Host.
    HeadRow {
        title: "alive over a socket",
        port: 0,
        token: "",
        head: "GET /healthz HTTP/1.1\r\n\r\n",
        wanted: "Some(Ok(Health))",
    },
    HeadRow {
        title: "alive over a port",
        port: 4001,
        token: "",
        head: "GET /healthz HTTP/1.1\r\nHost: 127.0.0.1:4001\r\n\r\n",
        wanted: "Some(Ok(Health))",
    },
    HeadRow {
        title: "the other name of the port",
        port: 4001,
        token: "",
        head: "GET /readyz HTTP/1.1\r\nHost: localhost:4001\r\n\r\n",
        wanted: "Some(Ok(Readiness))",
    },
    // RFC 9112, 3.2 says 400; this node 403.
    HeadRow {
        title: "no host",
        port: 4001,
        token: "",
        head: "GET /healthz HTTP/1.1\r\n\r\n",
        wanted: "Some(Err(Forbidden))",
    },
    // RFC 9112, 3.2 says 400; this node 403.
    HeadRow {
        title: "two hosts, each right",
        port: 4001,
        token: "",
        head: "GET /healthz HTTP/1.1\r\nHost: 127.0.0.1:4001\r\nHost: 127.0.0.1:4001\r\n\r\n",
        wanted: "Some(Err(Forbidden))",
    },
    // RFC 9112, 3.2 says 400; this node 403.
    HeadRow {
        title: "a right host and a foreign one",
        port: 4001,
        token: "",
        head: "GET /healthz HTTP/1.1\r\nHost: 127.0.0.1:4001\r\nHost: evil.example\r\n\r\n",
        wanted: "Some(Err(Forbidden))",
    },
    HeadRow {
        title: "a foreign host",
        port: 4001,
        token: "",
        head: "GET /healthz HTTP/1.1\r\nHost: evil.example:4001\r\n\r\n",
        wanted: "Some(Err(Forbidden))",
    },
    HeadRow {
        title: "a host that only begins so",
        port: 4001,
        token: "",
        head: "GET /healthz HTTP/1.1\r\nHost: 127.0.0.1:40010\r\n\r\n",
        wanted: "Some(Err(Forbidden))",
    },
    HeadRow {
        title: "a host without its port",
        port: 4001,
        token: "",
        head: "GET /healthz HTTP/1.1\r\nHost: localhost\r\n\r\n",
        wanted: "Some(Err(Forbidden))",
    },
    // Byte for byte, though RFC 9110, 4.2.3 has hosts in any case.
    HeadRow {
        title: "a host in capitals",
        port: 4001,
        token: "",
        head: "GET /healthz HTTP/1.1\r\nHost: LOCALHOST:4001\r\n\r\n",
        wanted: "Some(Err(Forbidden))",
    },
];

/// The `Host` of a request over a port.
pub fn hosts() -> &'static [HeadRow] {
    &HOSTS
}

const FIELDS: [HeadRow; 6] = [
    // RFC 9112, 5.
    HeadRow {
        title: "a field name in another case",
        port: 4001,
        token: "",
        head: "GET /healthz HTTP/1.1\r\nhOST: 127.0.0.1:4001\r\n\r\n",
        wanted: "Some(Ok(Health))",
    },
    // RFC 9112, 5.1.
    HeadRow {
        title: "white space around a value",
        port: 4001,
        token: "",
        head: "GET /healthz HTTP/1.1\r\nHost: \t 127.0.0.1:4001 \t\r\n\r\n",
        wanted: "Some(Ok(Health))",
    },
    // RFC 9112, 5.1.
    HeadRow {
        title: "white space before a colon",
        port: 4001,
        token: "",
        head: "GET /healthz HTTP/1.1\r\nHost : 127.0.0.1:4001\r\n\r\n",
        wanted: "Some(Err(BadRequest))",
    },
    // RFC 9112, 5.2.
    HeadRow {
        title: "a folded value",
        port: 4001,
        token: "",
        head: "GET /healthz HTTP/1.1\r\nHost: 127.0.0.1:4001\r\nX-A: b\r\n c\r\n\r\n",
        wanted: "Some(Err(BadRequest))",
    },
    // RFC 9112, 2.2.
    HeadRow {
        title: "line feeds alone",
        port: 4001,
        token: "",
        head: "GET /healthz HTTP/1.1\nHost: 127.0.0.1:4001\n\n",
        wanted: "Some(Ok(Health))",
    },
    // RFC 9112, 2.2.
    HeadRow {
        title: "an empty line before",
        port: 4001,
        token: "",
        head: "\r\nGET /healthz HTTP/1.1\r\nHost: 127.0.0.1:4001\r\n\r\n",
        wanted: "Some(Ok(Health))",
    },
];

/// Lines of fields.
pub fn fields() -> &'static [HeadRow] {
    &FIELDS
}

const START_LINES: [HeadRow; 6] = [
    // RFC 9112, 2.3.
    HeadRow {
        title: "HTTP/1.0",
        port: 0,
        token: "",
        head: "GET /healthz HTTP/1.0\r\n\r\n",
        wanted: "Some(Ok(Health))",
    },
    // RFC 9110, 15.6.6 allows 505.
    HeadRow {
        title: "a later version",
        port: 0,
        token: "",
        head: "GET /healthz HTTP/2.0\r\n\r\n",
        wanted: "Some(Err(BadRequest))",
    },
    // RFC 9112, 3.
    HeadRow {
        title: "no version",
        port: 0,
        token: "",
        head: "GET /healthz\r\n\r\n",
        wanted: "Some(Err(BadRequest))",
    },
    // RFC 9110, 9.1.
    HeadRow {
        title: "a method in small letters",
        port: 0,
        token: "",
        head: "get /healthz HTTP/1.1\r\n\r\n",
        wanted: "Some(Err(NotAllowed))",
    },
    // RFC 9110, 9.1 has servers of general purpose support it.
    HeadRow {
        title: "HEAD",
        port: 0,
        token: "",
        head: "HEAD /healthz HTTP/1.1\r\n\r\n",
        wanted: "Some(Err(NotAllowed))",
    },
    HeadRow {
        title: "OPTIONS from the own page",
        port: 4001,
        token: "",
        head: "OPTIONS / HTTP/1.1\r\nHost: 127.0.0.1:4001\r\nOrigin: http://127.0.0.1:4001\r\n\r\n",
        wanted: "Some(Err(NotAllowed))",
    },
];

/// Request lines: versions and methods.
pub fn start_lines() -> &'static [HeadRow] {
    &START_LINES
}

const BODIES: [HeadRow; 10] = [
    // RFC 9110, 5.5.
    HeadRow {
        title: "a NUL in a value",
        port: 4001,
        token: "",
        head: "GET /healthz HTTP/1.1\r\nHost: 127.0.0.1:4001\r\nX-A: b\u{0}\r\n\r\n",
        wanted: "Some(Err(BadRequest))",
    },
    // Nothing yet.
    HeadRow {
        title: "half a head",
        port: 0,
        token: "",
        head: "GET /healthz HTTP/1.1\r\nHost: 127.0",
        wanted: "None",
    },
    // A connection has one request.
    HeadRow {
        title: "bytes behind the head",
        port: 0,
        token: "",
        head: "GET /healthz HTTP/1.1\r\n\r\nGET /",
        wanted: "Some(Ok(Health))",
    },
    // RFC 6585, 5.
    HeadRow {
        title: "33 fields",
        port: 0,
        token: "",
        head: "GET /healthz HTTP/1.1\r\nX-0: 1\r\nX-1: 1\r\nX-2: 1\r\nX-3: 1\r\nX-4: 1\r\nX-5: 1\r\nX-6: 1\r\nX-7: 1\r\nX-8: 1\r\nX-9: 1\r\nX-10: 1\r\nX-11: 1\r\nX-12: 1\r\nX-13: 1\r\nX-14: 1\r\nX-15: 1\r\nX-16: 1\r\nX-17: 1\r\nX-18: 1\r\nX-19: 1\r\nX-20: 1\r\nX-21: 1\r\nX-22: 1\r\nX-23: 1\r\nX-24: 1\r\nX-25: 1\r\nX-26: 1\r\nX-27: 1\r\nX-28: 1\r\nX-29: 1\r\nX-30: 1\r\nX-31: 1\r\nX-32: 1\r\n\r\n",
        wanted: "Some(Err(TooLarge))",
    },
    HeadRow {
        title: "32 fields",
        port: 0,
        token: "",
        head: "GET /healthz HTTP/1.1\r\nX-0: 1\r\nX-1: 1\r\nX-2: 1\r\nX-3: 1\r\nX-4: 1\r\nX-5: 1\r\nX-6: 1\r\nX-7: 1\r\nX-8: 1\r\nX-9: 1\r\nX-10: 1\r\nX-11: 1\r\nX-12: 1\r\nX-13: 1\r\nX-14: 1\r\nX-15: 1\r\nX-16: 1\r\nX-17: 1\r\nX-18: 1\r\nX-19: 1\r\nX-20: 1\r\nX-21: 1\r\nX-22: 1\r\nX-23: 1\r\nX-24: 1\r\nX-25: 1\r\nX-26: 1\r\nX-27: 1\r\nX-28: 1\r\nX-29: 1\r\nX-30: 1\r\nX-31: 1\r\n\r\n",
        wanted: "Some(Ok(Health))",
    },
    // RFC 9112, 6.3.
    HeadRow {
        title: "a length of 0",
        port: 0,
        token: "",
        head: "GET /healthz HTTP/1.1\r\nContent-Length: 0\r\n\r\n",
        wanted: "Some(Ok(Health))",
    },
    HeadRow {
        title: "a body",
        port: 0,
        token: "",
        head: "GET /healthz HTTP/1.1\r\nContent-Length: 5\r\n\r\nhello",
        wanted: "Some(Err(BadRequest))",
    },
    // RFC 9112, 6.3.
    HeadRow {
        title: "two lengths",
        port: 0,
        token: "",
        head: "GET /healthz HTTP/1.1\r\nContent-Length: 0\r\nContent-Length: 5\r\n\r\n",
        wanted: "Some(Err(BadRequest))",
    },
    // A length other than `0`, though RFC 9110, 8.6 has it.
    HeadRow {
        title: "a length of 00",
        port: 0,
        token: "",
        head: "GET /healthz HTTP/1.1\r\nContent-Length: 00\r\n\r\n",
        wanted: "Some(Err(BadRequest))",
    },
    HeadRow {
        title: "a coding",
        port: 0,
        token: "",
        head: "POST /stop HTTP/1.1\r\nX-Kanguriwe: 1\r\nTransfer-Encoding: chunked\r\n\r\n",
        wanted: "Some(Err(BadRequest))",
    },
];

/// Ends of heads, numbers of fields, and bodies.
pub fn bodies() -> &'static [HeadRow] {
    &BODIES
}

const TARGETS: [HeadRow; 6] = [
    HeadRow {
        title: "a path with a query",
        port: 0,
        token: "",
        head: "GET /healthz?x=1 HTTP/1.1\r\n\r\n",
        wanted: "Some(Ok(Health))",
    },
    // RFC 9112, 3.2.2 has servers accept it.
    HeadRow {
        title: "the absolute form",
        port: 4001,
        token: "",
        head: "GET http://127.0.0.1:4001/healthz HTTP/1.1\r\nHost: 127.0.0.1:4001\r\n\r\n",
        wanted: "Some(Err(NotFound))",
    },
    HeadRow {
        title: "nothing of that name",
        port: 0,
        token: "",
        head: "GET /index.html HTTP/1.1\r\n\r\n",
        wanted: "Some(Err(NotFound))",
    },
    // RFC 9110, 4.2.3.
    HeadRow {
        title: "a path in capitals",
        port: 0,
        token: "",
        head: "GET /Healthz HTTP/1.1\r\n\r\n",
        wanted: "Some(Err(NotFound))",
    },
    // No token is needed.
    HeadRow {
        title: "the page",
        port: 4001,
        token: "0123abcd",
        head: "GET / HTTP/1.1\r\nHost: 127.0.0.1:4001\r\n\r\n",
        wanted: "Some(Ok(Page))",
    },
    HeadRow {
        title: "a path that begins with two strokes",
        port: 0,
        token: "",
        head: "GET // HTTP/1.1\r\n\r\n",
        wanted: "Some(Err(NotFound))",
    },
];

/// Paths that name a page or nothing.
pub fn targets() -> &'static [HeadRow] {
    &TARGETS
}

const TOKENS: [HeadRow; 10] = [
    HeadRow {
        title: "metrics at a door without a token",
        port: 4001,
        token: "",
        head: "GET /metrics HTTP/1.1\r\nHost: 127.0.0.1:4001\r\n\r\n",
        wanted: "Some(Ok(Metrics))",
    },
    HeadRow {
        title: "metrics without the token",
        port: 4001,
        token: "0123abcd",
        head: "GET /metrics HTTP/1.1\r\nHost: 127.0.0.1:4001\r\n\r\n",
        wanted: "Some(Err(Unauthorized))",
    },
    HeadRow {
        title: "metrics with the token",
        port: 4001,
        token: "0123abcd",
        head: "GET /metrics HTTP/1.1\r\nHost: 127.0.0.1:4001\r\nAuthorization: Bearer 0123abcd\r\n\r\n",
        wanted: "Some(Ok(Metrics))",
    },
    HeadRow {
        title: "another token of that length",
        port: 4001,
        token: "0123abcd",
        head: "GET /metrics HTTP/1.1\r\nHost: 127.0.0.1:4001\r\nAuthorization: Bearer 0123abce\r\n\r\n",
        wanted: "Some(Err(Unauthorized))",
    },
    HeadRow {
        title: "the beginning of the token",
        port: 4001,
        token: "0123abcd",
        head: "GET /metrics HTTP/1.1\r\nHost: 127.0.0.1:4001\r\nAuthorization: Bearer 0123abc\r\n\r\n",
        wanted: "Some(Err(Unauthorized))",
    },
    HeadRow {
        title: "the token in another scheme",
        port: 4001,
        token: "0123abcd",
        head: "GET /metrics HTTP/1.1\r\nHost: 127.0.0.1:4001\r\nAuthorization: Basic 0123abcd\r\n\r\n",
        wanted: "Some(Err(Unauthorized))",
    },
    HeadRow {
        title: "the token twice",
        port: 4001,
        token: "0123abcd",
        head: "GET /metrics HTTP/1.1\r\nHost: 127.0.0.1:4001\r\nAuthorization: Bearer 0123abcd\r\nAuthorization: Bearer 0123abcd\r\n\r\n",
        wanted: "Some(Err(Unauthorized))",
    },
    HeadRow {
        title: "a foreign host with the token",
        port: 4001,
        token: "0123abcd",
        head: "GET /metrics HTTP/1.1\r\nHost: evil.example\r\nAuthorization: Bearer 0123abcd\r\n\r\n",
        wanted: "Some(Err(Forbidden))",
    },
    // Who lacks the token learns no names.
    HeadRow {
        title: "nothing of that name, without the token",
        port: 4001,
        token: "0123abcd",
        head: "GET /api/secret HTTP/1.1\r\nHost: 127.0.0.1:4001\r\n\r\n",
        wanted: "Some(Err(Unauthorized))",
    },
    HeadRow {
        title: "a bad query without the token",
        port: 4001,
        token: "0123abcd",
        head: "GET /api/processes?limit=0 HTTP/1.1\r\nHost: 127.0.0.1:4001\r\n\r\n",
        wanted: "Some(Err(Unauthorized))",
    },
];

/// Tokens.
pub fn tokens() -> &'static [HeadRow] {
    &TOKENS
}

const ORIGINS: [HeadRow; 6] = [
    HeadRow {
        title: "the own origin",
        port: 4001,
        token: "0123abcd",
        head: "GET /api/node HTTP/1.1\r\nHost: 127.0.0.1:4001\r\nAuthorization: Bearer 0123abcd\r\nOrigin: http://localhost:4001\r\n\r\n",
        wanted: "Some(Ok(Node))",
    },
    HeadRow {
        title: "a foreign origin",
        port: 4001,
        token: "0123abcd",
        head: "GET /api/node HTTP/1.1\r\nHost: 127.0.0.1:4001\r\nAuthorization: Bearer 0123abcd\r\nOrigin: http://evil.example\r\n\r\n",
        wanted: "Some(Err(Forbidden))",
    },
    HeadRow {
        title: "the origin null",
        port: 4001,
        token: "",
        head: "GET / HTTP/1.1\r\nHost: 127.0.0.1:4001\r\nOrigin: null\r\n\r\n",
        wanted: "Some(Err(Forbidden))",
    },
    HeadRow {
        title: "an origin of https",
        port: 4001,
        token: "",
        head: "GET / HTTP/1.1\r\nHost: 127.0.0.1:4001\r\nOrigin: https://127.0.0.1:4001\r\n\r\n",
        wanted: "Some(Err(Forbidden))",
    },
    HeadRow {
        title: "a right origin and a foreign one",
        port: 4001,
        token: "",
        head: "GET / HTTP/1.1\r\nHost: 127.0.0.1:4001\r\nOrigin: http://127.0.0.1:4001\r\nOrigin: http://evil.example\r\n\r\n",
        wanted: "Some(Err(Forbidden))",
    },
    HeadRow {
        title: "a foreign origin over a socket",
        port: 0,
        token: "",
        head: "GET / HTTP/1.1\r\nOrigin: http://evil.example\r\n\r\n",
        wanted: "Some(Ok(Page))",
    },
];

/// Origins.
pub fn origins() -> &'static [HeadRow] {
    &ORIGINS
}

const STOPS: [HeadRow; 8] = [
    HeadRow {
        title: "a stop over a socket",
        port: 0,
        token: "",
        head: "POST /stop HTTP/1.1\r\nX-Kanguriwe: 1\r\n\r\n",
        wanted: "Some(Ok(Stop))",
    },
    HeadRow {
        title: "a stop with an empty marker, in another case",
        port: 0,
        token: "",
        head: "POST /stop HTTP/1.1\r\nx-kanguriwe:\r\nContent-Length: 0\r\n\r\n",
        wanted: "Some(Ok(Stop))",
    },
    HeadRow {
        title: "a stop without the marker",
        port: 0,
        token: "",
        head: "POST /stop HTTP/1.1\r\n\r\n",
        wanted: "Some(Err(Forbidden))",
    },
    HeadRow {
        title: "a stop by GET",
        port: 0,
        token: "",
        head: "GET /stop HTTP/1.1\r\nX-Kanguriwe: 1\r\n\r\n",
        wanted: "Some(Err(NotAllowed))",
    },
    HeadRow {
        title: "a stop at a door without a token",
        port: 4001,
        token: "",
        head: "POST /stop HTTP/1.1\r\nHost: 127.0.0.1:4001\r\nX-Kanguriwe: 1\r\n\r\n",
        wanted: "Some(Err(Forbidden))",
    },
    HeadRow {
        title: "a stop without the token",
        port: 4001,
        token: "0123abcd",
        head: "POST /stop HTTP/1.1\r\nHost: 127.0.0.1:4001\r\nX-Kanguriwe: 1\r\n\r\n",
        wanted: "Some(Err(Unauthorized))",
    },
    HeadRow {
        title: "a stop with the token and without the marker",
        port: 4001,
        token: "0123abcd",
        head: "POST /stop HTTP/1.1\r\nHost: 127.0.0.1:4001\r\nAuthorization: Bearer 0123abcd\r\n\r\n",
        wanted: "Some(Err(Forbidden))",
    },
    HeadRow {
        title: "a stop with both",
        port: 4001,
        token: "0123abcd",
        head: "POST /stop HTTP/1.1\r\nHost: 127.0.0.1:4001\r\nAuthorization: Bearer 0123abcd\r\nX-Kanguriwe: 1\r\n\r\n",
        wanted: "Some(Ok(Stop))",
    },
];

/// Stops.
pub fn stops() -> &'static [HeadRow] {
    &STOPS
}

const PROCESSES: [HeadRow; 5] = [
    HeadRow {
        title: "a process",
        port: 0,
        token: "",
        head: "GET /api/process/17 HTTP/1.1\r\n\r\n",
        wanted: "Some(Ok(Process(17)))",
    },
    HeadRow {
        title: "the last process there may be",
        port: 0,
        token: "",
        head: "GET /api/process/4294967295 HTTP/1.1\r\n\r\n",
        wanted: "Some(Ok(Process(4294967295)))",
    },
    HeadRow {
        title: "a process too far",
        port: 0,
        token: "",
        head: "GET /api/process/4294967296 HTTP/1.1\r\n\r\n",
        wanted: "Some(Err(NotFound))",
    },
    HeadRow {
        title: "a process with a sign",
        port: 0,
        token: "",
        head: "GET /api/process/+17 HTTP/1.1\r\n\r\n",
        wanted: "Some(Err(NotFound))",
    },
    HeadRow {
        title: "a process without digits",
        port: 0,
        token: "",
        head: "GET /api/process/ HTTP/1.1\r\n\r\n",
        wanted: "Some(Err(NotFound))",
    },
];

/// Numbers of processes.
pub fn processes() -> &'static [HeadRow] {
    &PROCESSES
}

const QUERIES: [HeadRow; 13] = [
    HeadRow {
        title: "processes",
        port: 0,
        token: "",
        head: "GET /api/processes HTTP/1.1\r\n\r\n",
        wanted: "Some(Ok(Processes(ProcessQuery { after: 0, limit: 100, state: Live, key: Pid, is_descending: false, search: None })))",
    },
    HeadRow {
        title: "processes with all parameters",
        port: 0,
        token: "",
        head: "GET /api/processes?after=17&limit=500&state=held&sort=mailbox&down=1&q=a%20b+%C3%A9 HTTP/1.1\r\n\r\n",
        wanted: "Some(Ok(Processes(ProcessQuery { after: 17, limit: 500, state: Held, key: Mailbox, is_descending: true, search: Some(\"a b é\") })))",
    },
    HeadRow {
        title: "an unknown parameter, and an empty text",
        port: 0,
        token: "",
        head: "GET /api/processes?colour=red&q=&limit=1 HTTP/1.1\r\n\r\n",
        wanted: "Some(Ok(Processes(ProcessQuery { after: 0, limit: 1, state: Live, key: Pid, is_descending: false, search: None })))",
    },
    HeadRow {
        title: "the first of two limits",
        port: 0,
        token: "",
        head: "GET /api/processes?limit=5&limit=0 HTTP/1.1\r\n\r\n",
        wanted: "Some(Ok(Processes(ProcessQuery { after: 0, limit: 5, state: Live, key: Pid, is_descending: false, search: None })))",
    },
    HeadRow {
        title: "a name that is coded",
        port: 0,
        token: "",
        head: "GET /api/processes?l%69mit=7 HTTP/1.1\r\n\r\n",
        wanted: "Some(Ok(Processes(ProcessQuery { after: 0, limit: 7, state: Live, key: Pid, is_descending: false, search: None })))",
    },
    HeadRow {
        title: "a second question mark",
        port: 0,
        token: "",
        head: "GET /api/processes?q=a?b HTTP/1.1\r\n\r\n",
        wanted: "Some(Ok(Processes(ProcessQuery { after: 0, limit: 100, state: Live, key: Pid, is_descending: false, search: Some(\"a?b\") })))",
    },
    HeadRow {
        title: "a limit of 0",
        port: 0,
        token: "",
        head: "GET /api/processes?limit=0 HTTP/1.1\r\n\r\n",
        wanted: "Some(Err(BadRequest))",
    },
    HeadRow {
        title: "a limit of 501",
        port: 0,
        token: "",
        head: "GET /api/processes?limit=501 HTTP/1.1\r\n\r\n",
        wanted: "Some(Err(BadRequest))",
    },
    HeadRow {
        title: "no limit",
        port: 0,
        token: "",
        head: "GET /api/processes?limit= HTTP/1.1\r\n\r\n",
        wanted: "Some(Err(BadRequest))",
    },
    HeadRow {
        title: "a state that is none",
        port: 0,
        token: "",
        head: "GET /api/processes?state=dead HTTP/1.1\r\n\r\n",
        wanted: "Some(Err(BadRequest))",
    },
    HeadRow {
        title: "down by 2",
        port: 0,
        token: "",
        head: "GET /api/processes?down=2 HTTP/1.1\r\n\r\n",
        wanted: "Some(Err(BadRequest))",
    },
    HeadRow {
        title: "a text of 255 bytes",
        port: 0,
        token: "",
        head: "GET /api/processes?q=aaaaaaaaaaaaaaaaaaaaaaaaaaaaaaaaaaaaaaaaaaaaaaaaaaaaaaaaaaaaaaaaaaaaaaaaaaaaaaaaaaaaaaaaaaaaaaaaaaaaaaaaaaaaaaaaaaaaaaaaaaaaaaaaaaaaaaaaaaaaaaaaaaaaaaaaaaaaaaaaaaaaaaaaaaaaaaaaaaaaaaaaaaaaaaaaaaaaaaaaaaaaaaaaaaaaaaaaaaaaaaaaaaaaaaaaaaaaaaaaaaaaaaaaaaaaaaa HTTP/1.1\r\n\r\n",
        wanted: "Some(Ok(Processes(ProcessQuery { after: 0, limit: 100, state: Live, key: Pid, is_descending: false, search: Some(\"aaaaaaaaaaaaaaaaaaaaaaaaaaaaaaaaaaaaaaaaaaaaaaaaaaaaaaaaaaaaaaaaaaaaaaaaaaaaaaaaaaaaaaaaaaaaaaaaaaaaaaaaaaaaaaaaaaaaaaaaaaaaaaaaaaaaaaaaaaaaaaaaaaaaaaaaaaaaaaaaaaaaaaaaaaaaaaaaaaaaaaaaaaaaaaaaaaaaaaaaaaaaaaaaaaaaaaaaaaaaaaaaaaaaaaaaaaaaaaaaaaaaaaaaaaaaaaa\") })))",
    },
    HeadRow {
        title: "a text of 256 bytes",
        port: 0,
        token: "",
        head: "GET /api/processes?q=aaaaaaaaaaaaaaaaaaaaaaaaaaaaaaaaaaaaaaaaaaaaaaaaaaaaaaaaaaaaaaaaaaaaaaaaaaaaaaaaaaaaaaaaaaaaaaaaaaaaaaaaaaaaaaaaaaaaaaaaaaaaaaaaaaaaaaaaaaaaaaaaaaaaaaaaaaaaaaaaaaaaaaaaaaaaaaaaaaaaaaaaaaaaaaaaaaaaaaaaaaaaaaaaaaaaaaaaaaaaaaaaaaaaaaaaaaaaaaaaaaaaaaaaaaaaaaaa HTTP/1.1\r\n\r\n",
        wanted: "Some(Err(BadRequest))",
    },
];

/// Queries for a list of processes.
pub fn queries() -> &'static [HeadRow] {
    &QUERIES
}

const LISTS: [HeadRow; 6] = [
    HeadRow {
        title: "modules",
        port: 0,
        token: "",
        head: "GET /api/modules HTTP/1.1\r\n\r\n",
        wanted: "Some(Ok(Modules { after: 0 }))",
    },
    HeadRow {
        title: "modules too far",
        port: 0,
        token: "",
        head: "GET /api/modules?after=4294967296 HTTP/1.1\r\n\r\n",
        wanted: "Some(Err(BadRequest))",
    },
    HeadRow {
        title: "the log from its last number",
        port: 0,
        token: "",
        head: "GET /api/log?after=18446744073709551615 HTTP/1.1\r\n\r\n",
        wanted: "Some(Ok(Log { after: 18446744073709551615 }))",
    },
    HeadRow {
        title: "the log too far",
        port: 0,
        token: "",
        head: "GET /api/log?after=18446744073709551616 HTTP/1.1\r\n\r\n",
        wanted: "Some(Err(BadRequest))",
    },
    HeadRow {
        title: "the journal",
        port: 0,
        token: "",
        head: "GET /api/journal HTTP/1.1\r\n\r\n",
        wanted: "Some(Ok(Journal))",
    },
    HeadRow {
        title: "the connections",
        port: 0,
        token: "",
        head: "GET /api/connections HTTP/1.1\r\n\r\n",
        wanted: "Some(Ok(Connections))",
    },
];

/// Other lists.
pub fn lists() -> &'static [HeadRow] {
    &LISTS
}
