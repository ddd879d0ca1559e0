//! What a request asks for.
ghost use Rattle.std.specs.Prelude.{◌≡◌, ◌↔◌, IfErr, IfNone, IfOk, IfSome, IsTrue, MatchOption};
ghost use Rattle.httparse.specs.Grammar.{HasNoRequest, MayBecomeRequest};
ghost use Rattle.beam_http.specs.Requests.{Asks, IsAdmitted, IsRefused, IsOpenPath, IsPathFault, IsPathOf, IsReasonOfFault, IsUnknown, method_of};
ghost use Rattle.beam_http.specs.Values.{fields_in};

use crate::access::Door;
use crate::fields::Fields;
use crate::query::{ProcessQuery, after_of};
use crate::refusal::{Fault, RequestRefusal};
use crate::text::{behind, number_in, parted};
use httparse::spans::{EMPTY_HEADER_SPAN, parse_request};
use httparse::{Error, Status};
use std::alloc::{AllocError, Global};

/// How many fields a request has at most.
const MOST_FIELDS: usize = 32;

/// How many bytes a request has at most before its body.
pub(crate) const MOST_BYTES: usize = 8_192;

/// What is asked of a node.
#[derive(Debug, PartialEq, Eq, Drop)]
pub enum Request {
    /// Whether it is there: `GET /healthz`.
    Health,
    /// Whether it serves: `GET /readyz`.
    Readiness,
    /// That it stops: `POST /stop`, with the field `X-Kanguriwe`.
    Stop,
    /// The page for an operator: `GET /`.
    Page,
    /// Counts for Prometheus: `GET /metrics`.
    Metrics,
    /// The node as a whole: `GET /api/node`.
    Node,
    /// Rows of processes: `GET /api/processes?after=N&limit=N&state=S&sort=K&down=0&q=T`.
    Processes(ProcessQuery),
    /// One process, by its pid: `GET /api/process/PID`.
    Process(u32),
    /// The modules behind that many: `GET /api/modules?after=N`. 0 where the query doesn't say.
    Modules { after: u32 },
    /// How full the journal is: `GET /api/journal`.
    Journal,
    /// The connections of the protocol: `GET /api/connections`.
    Connections,
    /// The lines of the log behind that number: `GET /api/log?after=N`. 0 where the query doesn't say.
    Log { after: u64 },
}

impl Request {
    /// The method by which it is asked.
    fn method(&self) -> &'static [u8]
        ensures { result.now ≡ method_of self.now }
    {
        match self {
            Request::Stop => b"POST",
            _ => b"GET",
        }
    }

    /// Whether the node is asked to stop.
    fn is_stop(&self) -> bool
        ensures { IsTrue result ↔ (self.now ≡ Request.Stop) }
    {
        matches!(self, Request::Stop)
    }
}

/// Whether all may ask for what has that name.
fn is_open(path: &[u8]) -> bool
    ensures { IsTrue result ↔ IsOpenPath path.now }
{
    matches!(path, b"/healthz" | b"/readyz" | b"/")
}

/// What has that name, where a query says nothing.
fn plain_request(path: &[u8]) -> Option<Request>
    ensures { MatchOption result (IsUnknown path.now) (λ request. IsPathOf request path.now) }
{
    if path == b"/healthz".as_slice() {
        Some(Request::Health)
    } else if path == b"/readyz".as_slice() {
        Some(Request::Readiness)
    } else if path == b"/stop".as_slice() {
        Some(Request::Stop)
    } else if path == b"/".as_slice() {
        Some(Request::Page)
    } else if path == b"/metrics".as_slice() {
        Some(Request::Metrics)
    } else if path == b"/api/node".as_slice() {
        Some(Request::Node)
    } else if path == b"/api/journal".as_slice() {
        Some(Request::Journal)
    } else if path == b"/api/connections".as_slice() {
        Some(Request::Connections)
    } else {
        None
    }
}

/// The process whose pid a path ends in.
fn process_request(path: &[u8]) -> Option<Request>
    ensures { IfSome result (λ request. IsPathOf request path.now) }
{
    let pid = number_in(behind(b"/api/process/", path)?)?;
    Some(Request::Process(u32::try_from(pid).ok()?))
}

/// What has that name, with that query.
fn request_at(alloc: Global, path: &[u8], query: &[u8]) -> Result<Request, Fault>
    ensures named { IfOk result (λ request. IsPathOf request path.now) }
    ensures refused { IfErr result (IsPathFault path.now) }
{
    if path == b"/api/processes".as_slice() {
        let query = ProcessQuery::in_query(alloc, query)?;
        Ok(Request::Processes(query))
    } else if path == b"/api/modules".as_slice() {
        let after = after_of(alloc, query, u32::MAX as u64)? as u32;
        Ok(Request::Modules { after })
    } else if path == b"/api/log".as_slice() {
        let after = after_of(alloc, query, u64::MAX)?;
        Ok(Request::Log { after })
    } else {
        match plain_request(path).or(process_request(path)) {
            Some(request) => Ok(request),
            None => Err(RequestRefusal::NotFound.into()),
        }
    }
}

/// What a head of that method, target and fields asks for that came through that door, if it may be asked.
fn admitted(
    alloc: Global,
    method: &[u8],
    target: &[u8],
    fields: &Fields<'_>,
    door: &Door,
) -> Result<Request, Fault>
    ensures admitted { IfOk result (IsAdmitted door.now method.now target.now (fields_in fields.now)) }
    ensures refused { IfErr result (IsReasonOfFault door.now method.now target.now (fields_in fields.now)) }
{
    if !fields.lack_body() {
        return Err(RequestRefusal::BadRequest.into());
    }
    if !door.is_named_by(fields) {
        return Err(RequestRefusal::Forbidden.into());
    }
    let (path, query) = parted(target);
    if !is_open(path) && !door.is_open_to(fields) {
        return Err(RequestRefusal::Unauthorized.into());
    }
    let request = request_at(alloc, path, query)?;
    if method != request.method() {
        return Err(RequestRefusal::NotAllowed.into());
    }
    if request.is_stop() && !door.lets_stop(fields) {
        return Err(RequestRefusal::Forbidden.into());
    }
    Ok(request)
}

/// What bytes ask for that begin with the head of a request, and come through that door. `None` while the head isn't whole. It fails only
/// for memory.
pub fn request_of(
    alloc: Global,
    bytes: &[u8],
    door: &Door,
) -> Result<Option<Result<Request, RequestRefusal>>, AllocError>
    ensures accepted { IfOk result (λ found. IfSome found (λ answer. IfOk answer (Asks door.now bytes.now))) }
    ensures refused { IfOk result (λ found. IfSome found (λ answer. IfErr answer (IsRefused door.now bytes.now))) }
    ensures begun { IfOk result (λ found. IfNone found (HasNoRequest bytes.now × MayBecomeRequest bytes.now)) }
{
    let mut spans = [EMPTY_HEADER_SPAN; MOST_FIELDS];
    let head = match parse_request(bytes, &mut spans) {
        Ok(Status::Complete(head)) if head.len <= MOST_BYTES => head,
        Ok(Status::Partial) if bytes.len() < MOST_BYTES => return Ok(None),
        Ok(_) | Err(Error::TooManyHeaders) => return Ok(Some(Err(RequestRefusal::TooLarge))),
        Err(_) => return Ok(Some(Err(RequestRefusal::BadRequest))),
    };
    let fields = Fields {
        bytes,
        spans: &spans[..head.headers],
    };
    match admitted(
        alloc,
        head.method.of(bytes),
        head.path.of(bytes),
        &fields,
        door,
    ) {
        Ok(request) => Ok(Some(Ok(request))),
        Err(Fault::Refused(refusal)) => Ok(Some(Err(refusal))),
        Err(Fault::NoMemory(error)) => Err(error),
    }
}
