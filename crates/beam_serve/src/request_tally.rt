//! How requests were answered.

use beam_http::StatusCode;
use beam_page::RequestCounts;
use std::sync::atomic::{AtomicU64, Ordering};

/// How many requests were answered, by the first digit of the status.
#[derive(Drop)]
pub struct RequestTally {
    ok: AtomicU64,
    client_errors: AtomicU64,
    server_errors: AtomicU64,
}

impl RequestTally {
    /// None was.
    pub fn new() -> RequestTally {
        RequestTally {
            ok: AtomicU64::new(0),
            client_errors: AtomicU64::new(0),
            server_errors: AtomicU64::new(0),
        }
    }

    /// Notes an answer.
    pub fn note(&self, status: StatusCode) {
        let count = match status {
            StatusCode::Ok | StatusCode::Accepted => &self.ok,
            StatusCode::Unavailable => &self.server_errors,
            StatusCode::BadRequest
            | StatusCode::Unauthorized
            | StatusCode::Forbidden
            | StatusCode::NotFound
            | StatusCode::NotAllowed
            | StatusCode::TooLarge => &self.client_errors,
        };
        let _ = count.fetch_add(1, Ordering::SeqCst);
    }

    /// How many there were.
    pub fn counts(&self) -> RequestCounts {
        RequestCounts {
            ok: self.ok.load(Ordering::SeqCst),
            client_errors: self.client_errors.load(Ordering::SeqCst),
            server_errors: self.server_errors.load(Ordering::SeqCst),
        }
    }
}
