//! The threads that answer requests of HTTP beside the protocol.

use crate::acceptor::{Acceptor, Ended};
use crate::http_state::{HttpDoor, HttpState};
use crate::looking::{module_list, process_list, process_look};
use crate::node_facts::{connection_list, journal_facts, log_tail, node_facts};
use beam_http::{
    ContentType, Request, RequestRefusal, Response, StatusCode, read_request, write_response,
};
use beam_page::{
    NodeFacts, PAGE, connections_json, journal_json, log_json, metrics_text, modules_json,
    node_json, process_json, processes_json,
};
use beam_queue::QueueBrand;
use beam_receipts::brand::NodeBrand;
use beam_sched::schedulers::Helper;
use beam_sched::shared::Shared;
use log::{Log, info};
use std::alloc::{AllocError, Global};
use std::io::ErrorKind;
use std::net::TcpStream;
use std::sync::Wait;
use std::time::{Clock, Duration};

/// How long a thread waits for a request before it looks whether it is to end, in milliseconds.
const WAIT_MS: u64 = 250;

/// For how many seconds sessions may go on after a request to stop.
const PATIENCE: u64 = 2;

/// The response where memory is refused for another one.
const NO_MEMORY: &[u8] =
    b"HTTP/1.1 503 Service Unavailable\r\nContent-Length: 10\r\nConnection: close\r\n\r\nno memory\n";

/// What a request is answered.
#[derive(Drop)]
struct Answer {
    status: StatusCode,
    content: ContentType,
    body: Vec<u8>,
}

impl Answer {
    /// Some text.
    fn text(alloc: Global, status: StatusCode, text: &str) -> Result<Answer, AllocError> {
        Ok(Answer {
            status,
            content: ContentType::Text,
            body: Vec::from_slice(alloc, text.as_bytes())?,
        })
    }

    /// What was asked for, as JSON.
    fn json(body: Vec<u8>) -> Answer {
        Answer {
            status: StatusCode::Ok,
            content: ContentType::Json,
            body,
        }
    }
}

/// Answers requests to a socket or a port, one after another. A request to stop ends the node in good order: no connection is accepted any
/// more, the sessions end after the commands that were read, those that are open after 2 seconds are cut off, and workers end after their
/// slices. The thread ends once no thread serves connections any more.
#[derive(Drop)]
pub struct HttpThread<'a, B: NodeBrand + QueueBrand, R> {
    rt: &'a R,
    alloc: Global,
    shared: &'a Shared<B>,
    acceptor: &'a Acceptor<'a>,
    door: &'a HttpDoor<'a>,
    /// The number of its place there.
    number: usize,
}

impl<'a, B: NodeBrand + QueueBrand, R> HttpThread<'a, B, R> {
    /// The thread of a place at a door, for the node whose connections come from an acceptor.
    pub fn new(
        rt: &'a R,
        alloc: Global,
        shared: &'a Shared<B>,
        acceptor: &'a Acceptor<'a>,
        door: &'a HttpDoor<'a>,
        number: usize,
    ) -> HttpThread<'a, B, R> {
        HttpThread {
            rt,
            alloc,
            shared,
            acceptor,
            door,
            number,
        }
    }

    /// What the threads share that answer requests.
    fn state(&self) -> &'a HttpState<'a> {
        self.acceptor.endpoint().http
    }
}

/// The line of a response to a request by which nothing is done.
fn refusal_line(refusal: RequestRefusal) -> &'static str {
    match refusal {
        RequestRefusal::BadRequest => "no request\n",
        RequestRefusal::Unauthorized => "give the token\n",
        RequestRefusal::Forbidden => "not from here\n",
        RequestRefusal::NotFound => "nothing is there\n",
        RequestRefusal::NotAllowed => "not by this method\n",
        RequestRefusal::TooLarge => "too long\n",
    }
}

impl<B: NodeBrand + QueueBrand, R: Wait + Clock + Log + AllocGlobal> HttpThread<'_, B, R> {
    /// Whether the node serves.
    fn readiness(&self) -> Result<Answer, AllocError> {
        let sockets = self.acceptor.endpoint().sockets;
        if self.state().stopping_for(self.rt).is_some() {
            let line = format!(in self.alloc;
                "stopping, {} sessions are open\n",
                sockets.served_count(self.rt)
            )?;
            return Answer::text(self.alloc, StatusCode::Unavailable, line.as_str());
        }
        if self.acceptor.endpoint().readiness.is_full() {
            return Answer::text(self.alloc, StatusCode::Unavailable, "journal full\n");
        }
        Answer::text(self.alloc, StatusCode::Ok, "ok\n")
    }

    /// The node, as it stands.
    fn node(&self) -> Result<NodeFacts, AllocError> {
        let (rt, state, door) = (self.rt, self.state(), &self.door.door);
        node_facts(rt, self.alloc, self.shared, self.acceptor, state, door)
    }

    /// One process.
    fn process(&self, pid: u32) -> Result<Answer, AllocError> {
        let alloc = self.alloc;
        match process_look(self.rt, alloc, self.shared, pid)? {
            Some(look) => Ok(Answer::json(process_json(alloc, &look.into_detail(alloc)?)?)),
            None => Answer::text(alloc, StatusCode::NotFound, "NoProcess\n"),
        }
    }

    /// What looks at the node give.
    fn look(&self, request: Request) -> Result<Vec<u8>, AllocError> {
        let (rt, alloc, shared) = (self.rt, self.alloc, self.shared);
        match request {
            Request::Processes(query) => {
                processes_json(alloc, &process_list(rt, alloc, shared, query)?)
            }
            Request::Modules { after } => {
                modules_json(alloc, &module_list(rt, alloc, shared, after)?)
            }
            Request::Journal => journal_json(alloc, &journal_facts(rt, shared, self.state())),
            Request::Connections => {
                connections_json(alloc, &connection_list(rt, alloc, self.acceptor)?)
            }
            Request::Log { after } => log_json(alloc, &log_tail(rt, alloc, self.state(), after)?),
            _ => node_json(alloc, &self.node()?),
        }
    }

    /// The answer to a request.
    fn answer_to(&self, request: Request) -> Result<Answer, AllocError> {
        match request {
            Request::Readiness => self.readiness(),
            Request::Health => Answer::text(self.alloc, StatusCode::Ok, "ok\n"),
            Request::Stop => Ok(Answer {
                status: StatusCode::Accepted,
                content: ContentType::Json,
                body: Vec::from_slice(self.alloc, b"{\"stopping\":true}\n")?,
            }),
            Request::Page => Ok(Answer {
                status: StatusCode::Ok,
                content: ContentType::Page,
                body: Vec::from_slice(self.alloc, PAGE.as_bytes())?,
            }),
            Request::Metrics => Ok(Answer {
                status: StatusCode::Ok,
                content: ContentType::Metrics,
                body: metrics_text(self.alloc, &self.node()?)?,
            }),
            Request::Process(pid) => self.process(pid),
            request => Ok(Answer::json(self.look(request)?)),
        }
    }

    /// The bytes of the response to a request.
    fn response(&self, request: Result<Request, RequestRefusal>) -> Result<Vec<u8>, AllocError> {
        let answer = match request {
            Ok(request) => self.answer_to(request)?,
            Err(refusal) => Answer::text(self.alloc, refusal.into(), refusal_line(refusal))?,
        };
        self.state().requests.note(answer.status);
        Response {
            status: answer.status,
            content: answer.content,
            body: &answer.body,
        }
        .bytes(self.alloc)
    }

    /// Ends the node in good order.
    fn stop(&self) {
        let rt = self.rt;
        if !self.state().begin_stop(rt) {
            return;
        }
        info!(rt; "asked to stop");
        self.acceptor.close(rt, Ended::Asked);
        self.shared.stop(rt);
        self.acceptor.endpoint().sockets.begin_shut(rt);
    }

    /// Reads a request and answers it. A peer that is too slow, or goes, gets no answer.
    fn answer(&self, stream: TcpStream) {
        let mut stream = stream;
        let Ok(request) = read_request(self.rt, self.alloc, &mut stream, &self.door.door) else {
            return;
        };
        let is_stop = matches!(request, Ok(Request::Stop));
        match self.response(request) {
            Ok(bytes) => {
                let _ = write_response(self.rt, &mut stream, &bytes);
            }
            Err(_) => {
                self.state().requests.note(StatusCode::Unavailable);
                let _ = write_response(self.rt, &mut stream, NO_MEMORY);
            }
        }
        if is_stop {
            self.stop();
        }
    }

    /// Answers a request over a connection, which has this thread's place meanwhile.
    fn serve(&self, stream: TcpStream) {
        let Ok(twin) = stream.try_clone() else {
            return;
        };
        let places = &self.door.places;
        places.enter(self.rt, self.number, twin);
        self.answer(stream);
        places.leave(self.rt, self.number);
    }

    /// After a wait in which no request came: cuts the sessions off that are open long after a request to stop.
    fn after_wait(&self) {
        match self.state().stopping_for(self.rt) {
            Some(time) if time >= Duration::from_secs(PATIENCE) => {
                self.acceptor.endpoint().sockets.cut_off(self.rt);
            }
            _ => {}
        }
    }

    /// Waits for a request, and answers it.
    fn wait(&self) {
        match self.door.listener.accept() {
            Ok((stream, _peer)) => self.serve(stream),
            Err(error) if error.kind() == ErrorKind::WouldBlock => self.after_wait(),
            Err(_) => {
                self.rt.sleep(Duration::from_millis(WAIT_MS));
                self.after_wait();
            }
        }
    }
}

impl<B: NodeBrand + QueueBrand, R: Wait + Clock + Log + AllocGlobal> Helper
    for HttpThread<'_, B, R> {
    fn help(&mut self) {
        if let Ok(handle) = self.door.listener.handle() {
            let _ = handle.set_read_timeout(Some(Duration::from_millis(WAIT_MS)));
        }
        for _ in self.rt.forever() {
            if self.acceptor.all_left() {
                return;
            }
            self.wait();
        }
    }
}
