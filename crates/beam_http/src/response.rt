//! Responses.
ghost use Rattle.std.specs.Prelude.{◌≡◌, ℕ, List, ◌++◌, IfOk, OnOk};
ghost use Rattle.beam_http.specs.Responses.{body_text, challenge_of, content_type_of, policies, reason_of, response_text, status_of};

use crate::refusal::RequestRefusal;
use itoa::Buffer;
use std::alloc::{AllocError, Global};

/// The hash of the page's script, without which a browser doesn't run it.
pub const SCRIPT_HASH: &str = "sha256-6/L3ZMLrDk8xvP6xJ3K8NQITppEMt2QEDfvFdwtOidI=";

/// What a browser is asked to do and to leave, up to the hash of the page's script.
const BEFORE_HASH: &str = "Connection: close\r\n\
    Cache-Control: no-store\r\n\
    X-Content-Type-Options: nosniff\r\n\
    Referrer-Policy: no-referrer\r\n\
    Cross-Origin-Resource-Policy: same-origin\r\n\
    Content-Security-Policy: default-src 'none'; style-src 'unsafe-inline'; script-src '";

/// The rest of it.
const BEHIND_HASH: &str =
    "'; img-src data:; connect-src 'self'; base-uri 'none'; form-action 'none'; frame-ancestors 'none'\r\n";

/// The status of a response.
#[derive(Clone, Copy, Debug, PartialEq, Eq)]
pub enum StatusCode {
    Ok,
    Accepted,
    BadRequest,
    Unauthorized,
    Forbidden,
    NotFound,
    NotAllowed,
    TooLarge,
    Unavailable,
}

impl StatusCode {
    /// Its number and its reason.
    fn reason(self) -> &'static str
        ensures { result.now ≡ reason_of self }
    {
        match self {
            StatusCode::Ok => "200 OK",
            StatusCode::Accepted => "202 Accepted",
            StatusCode::BadRequest => "400 Bad Request",
            StatusCode::Unauthorized => "401 Unauthorized",
            StatusCode::Forbidden => "403 Forbidden",
            StatusCode::NotFound => "404 Not Found",
            StatusCode::NotAllowed => "405 Method Not Allowed",
            StatusCode::TooLarge => "431 Request Header Fields Too Large",
            StatusCode::Unavailable => "503 Service Unavailable",
        }
    }

    /// The field that says how a client is known, where it wasn't.
    fn challenge(self) -> &'static str
        ensures { result.now ≡ challenge_of self }
    {
        match self {
            StatusCode::Unauthorized => "WWW-Authenticate: Bearer\r\n",
            _ => "",
        }
    }
}

impl From<RequestRefusal> for StatusCode {
    ghost from_gives = { λ refusal status. status ≡ status_of refusal };

    fn from(refusal: RequestRefusal) -> StatusCode {
        match refusal {
            RequestRefusal::BadRequest => StatusCode::BadRequest,
            RequestRefusal::Unauthorized => StatusCode::Unauthorized,
            RequestRefusal::Forbidden => StatusCode::Forbidden,
            RequestRefusal::NotFound => StatusCode::NotFound,
            RequestRefusal::NotAllowed => StatusCode::NotAllowed,
            RequestRefusal::TooLarge => StatusCode::TooLarge,
        }
    }
}

/// What a body is.
#[derive(Clone, Copy, Debug, PartialEq, Eq)]
pub enum ContentType {
    /// Plain text.
    Text,
    Json,
    /// The text form of Prometheus, in its version 0.0.4.
    Metrics,
    /// HTML.
    Page,
}

impl ContentType {
    /// Its name among media types. All of them are UTF-8.
    fn name(self) -> &'static str
        ensures { result.now ≡ content_type_of self }
    {
        match self {
            ContentType::Text => "text/plain; charset=utf-8",
            ContentType::Json => "application/json; charset=utf-8",
            ContentType::Metrics => "text/plain; version=0.0.4; charset=utf-8",
            ContentType::Page => "text/html; charset=utf-8",
        }
    }
}

/// A response: its status, what its body is, and the body.
#[derive(Clone, Copy)]
pub struct Response<'a> {
    pub status: StatusCode,
    pub content: ContentType,
    pub body: &'a [u8],
}

/// The fields of each response: a connection has one and then ends; a browser keeps nothing of it, shows it in no frame and to no page of
/// another origin, and runs no script but the page's.
fn put_policies(bytes: &mut Vec<u8>) -> Result<(), AllocError>
    ensures { OnOk result (bytes.new.items ≡ bytes.old.items ++ policies) }
{
    bytes.extend_from_slice(BEFORE_HASH.as_bytes())?;
    bytes.extend_from_slice(SCRIPT_HASH.as_bytes())?;
    bytes.extend_from_slice(BEHIND_HASH.as_bytes())?;
    Ok(())
}

/// How long a body is, the line that ends the fields, and the body.
#[tactic(auto, unfolding(crate::specs::Responses::body_text))]
fn put_body(bytes: &mut Vec<u8>, body: &[u8]) -> Result<(), AllocError>
    ensures { OnOk result (bytes.new.items ≡ bytes.old.items ++ body_text body.now) }
{
    let mut length = Buffer::new();
    bytes.extend_from_slice(b"Content-Length: ")?;
    bytes.extend_from_slice(length.format(body.len()).as_bytes())?;
    bytes.extend_from_slice(b"\r\n\r\n")?;
    bytes.extend_from_slice(body)
}

impl Response<'_> {
    /// Its bytes. A connection has one response and then ends. It fails only for memory.
    #[tactic(auto, unfolding(crate::specs::Responses::response_text))]
    pub fn bytes(&self, alloc: Global) -> Result<Vec<u8>, AllocError>
        ensures text { IfOk result (λ bytes. bytes.items ≡ response_text self.now.status self.now.content self.now.body.now) }
        ensures length { IfOk result (λ bytes. (front : List ℕ) × (bytes.items ≡ front ++ body_text self.now.body.now)) }
    {
        let mut bytes = Vec::new(alloc);
        bytes.extend_from_slice(b"HTTP/1.1 ")?;
        bytes.extend_from_slice(self.status.reason().as_bytes())?;
        bytes.extend_from_slice(b"\r\n")?;
        bytes.extend_from_slice(self.status.challenge().as_bytes())?;
        bytes.extend_from_slice(b"Content-Type: ")?;
        bytes.extend_from_slice(self.content.name().as_bytes())?;
        bytes.extend_from_slice(b"\r\n")?;
        put_policies(&mut bytes)?;
        put_body(&mut bytes, self.body)?;
        Ok(bytes)
    }
}
