//! Who may ask for what.
ghost use Rattle.std.specs.Prelude.{◌≡◌, ◌++◌, ◌↔◌, codes, decimal, IfOk, IsSome, IsTrue};
ghost use Rattle.beam_http.specs.Access.{IsOwnHost, IsOwnOrigin, NamesHost, HasOwnOrigins, ShowsToken, CanStop, HasMarker};
ghost use Rattle.beam_http.specs.Values.{fields_in};

use crate::fields::Fields;
use crate::text::{behind, is_same};
use itoa::Buffer;
use std::alloc::{AllocError, Global};

/// The field without which no request stops a node. No form of a page sends it.
const MARKER: &[u8] = b"x-kanguriwe";

/// Who may ask over a port of 127.0.0.1: the two names that it has there, and the token by which an operator is known.
#[derive(Drop)]
pub struct PortAccess {
    /// `127.0.0.1:PORT`.
    number: Vec<u8>,
    /// `localhost:PORT`.
    name: Vec<u8>,
    token: Option<Vec<u8>>,
}

impl PortAccess {
    /// The access over that port. Without a token all may look, and nobody may stop the node. It fails only for memory.
    pub fn new(alloc: Global, port: u16, token: Option<Vec<u8>>) -> Result<PortAccess, AllocError>
        ensures number { IfOk result (λ access. access.number.items ≡ codes "127.0.0.1:" ++ decimal port) }
        ensures name { IfOk result (λ access. access.name.items ≡ codes "localhost:" ++ decimal port) }
        ensures token { IfOk result (λ access. access.token ≡ token) }
    {
        let mut buffer = Buffer::new();
        let port = buffer.format(port).as_bytes();
        let mut number = Vec::from_slice(alloc, b"127.0.0.1:")?;
        number.extend_from_slice(port)?;
        let mut name = Vec::from_slice(alloc, b"localhost:")?;
        name.extend_from_slice(port)?;
        Ok(PortAccess {
            number,
            name,
            token,
        })
    }

    /// Whether there is a token.
    pub fn has_token(&self) -> bool
        ensures { IsTrue result ↔ IsSome self.now.token }
    {
        self.token.is_some()
    }

    /// Whether a host is one of the two names. A name that leads to 127.0.0.1 is none.
    fn is_own_host(&self, host: &[u8]) -> bool
        ensures { IsTrue result ↔ IsOwnHost self.now host.now }
    {
        host == self.number.as_slice() || host == self.name.as_slice()
    }

    /// Whether an origin is that of the node's own page.
    #[tactic(auto, unfolding(crate::specs::Access::IsOwnOrigin))]
    fn is_own_origin(&self, origin: &[u8]) -> bool
        ensures { IsTrue result ↔ IsOwnOrigin self.now origin.now }
    {
        match behind(b"http://", origin) {
            Some(host) => self.is_own_host(host),
            None => false,
        }
    }

    /// Whether one host is named, and it is the port's own.
    fn is_named_by(&self, fields: &Fields<'_>) -> bool
        ensures { IsTrue result ↔ NamesHost (Door.Port self.now) (fields_in fields.now) }
    {
        match fields.only(b"host") {
            Some(host) => self.is_own_host(host),
            None => false,
        }
    }

    /// Whether no page of another origin asks.
    fn has_own_origins(&self, fields: &Fields<'_>) -> bool
        ensures { IsTrue result ↔ HasOwnOrigins (Door.Port self.now) (fields_in fields.now) }
    {
        fields
            .values(b"origin")
            .all(|origin| self.is_own_origin(origin))
    }

    /// Whether the token is shown, if there is one.
    fn is_shown_by(&self, fields: &Fields<'_>) -> bool
        ensures { IsTrue result ↔ ShowsToken (Door.Port self.now) (fields_in fields.now) }
    {
        let Some(token) = &self.token else {
            return true;
        };
        let Some(value) = fields.only(b"authorization") else {
            return false;
        };
        match behind(b"Bearer ", value) {
            Some(shown) => is_same(shown, token),
            None => false,
        }
    }
}

/// How requests come in.
#[derive(Drop)]
pub enum Door {
    /// Over a Unix-domain socket, whose mode says who may ask.
    Socket,
    /// Over a port of 127.0.0.1, which all users of the machine reach, and the pages in their browsers.
    Port(PortAccess),
}

impl Door {
    /// Whether a request with these fields names this host, and comes from no page of another origin.
    pub(crate) fn is_named_by(&self, fields: &Fields<'_>) -> bool
        ensures { IsTrue result ↔ NamesHost self.now (fields_in fields.now) × HasOwnOrigins self.now (fields_in fields.now) }
    {
        match self {
            Door::Socket => true,
            Door::Port(access) => access.is_named_by(fields) && access.has_own_origins(fields),
        }
    }

    /// Whether a request with these fields shows the token, if there is one.
    pub(crate) fn is_open_to(&self, fields: &Fields<'_>) -> bool
        ensures { IsTrue result ↔ ShowsToken self.now (fields_in fields.now) }
    {
        match self {
            Door::Socket => true,
            Door::Port(access) => access.is_shown_by(fields),
        }
    }

    /// Whether a request with these fields may stop the node, if the door is open to it.
    pub(crate) fn lets_stop(&self, fields: &Fields<'_>) -> bool
        ensures { IsTrue result ↔ CanStop self.now × HasMarker (fields_in fields.now) }
    {
        let can_stop = match self {
            Door::Socket => true,
            Door::Port(access) => access.has_token(),
        };
        can_stop && fields.has(MARKER)
    }
}
