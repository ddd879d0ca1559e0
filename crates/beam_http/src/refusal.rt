//! Why nothing is done.
ghost use Rattle.std.specs.Prelude.{◌≡◌};

use std::alloc::AllocError;

/// Why nothing is done.
#[derive(Clone, Copy, Debug, PartialEq, Eq)]
pub enum RequestRefusal {
    /// It isn't spelled as HTTP/1.1 has it, brings a body, or a value of its query can't be read or is out of range.
    BadRequest,
    /// It lacks the token of the port.
    Unauthorized,
    /// It names another host, or comes from a page of another origin; or it would stop the node, and lacks the field `X-Kanguriwe`, or comes
    /// over a port without a token.
    Forbidden,
    /// Nothing has that name.
    NotFound,
    /// It has another method than what has that name.
    NotAllowed,
    /// It has more than 8,192 bytes or more than 32 fields before its body.
    TooLarge,
}

/// Why no request is made of a head.
#[derive(Clone, Copy)]
pub(crate) enum Fault {
    /// The peer is told why.
    Refused(RequestRefusal),
    /// There was no memory for what is asked.
    NoMemory(AllocError),
}

impl From<RequestRefusal> for Fault {
    ghost use Rattle.beam_http.specs.declared.refusal.Fault.TheVariants.{Refused};

    ghost from_gives = { λ refusal fault. fault ≡ Refused refusal };

    fn from(refusal: RequestRefusal) -> Fault {
        Fault::Refused(refusal)
    }
}

impl From<AllocError> for Fault {
    ghost use Rattle.beam_http.specs.declared.refusal.Fault.TheVariants.{NoMemory};

    ghost from_gives = { λ error fault. fault ≡ NoMemory error };

    fn from(error: AllocError) -> Fault {
        Fault::NoMemory(error)
    }
}
