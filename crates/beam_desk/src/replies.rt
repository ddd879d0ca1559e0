//! Replies to events that aren't refused.
ghost use Rattle.std.specs.Prelude.{◌≡◌, Ok};
ghost use Rattle.beam_machine.specs.Frames.{response_of};
ghost use Rattle.beam_debug.specs.Answers.{reply_of};

use beam_debug::outcome::Outcome;
use beam_machine::command::Response;

/// The reply to an event that isn't refused: the answer. It takes no memory.
pub fn reply(outcome: Outcome) -> Response
    ensures { result ≡ response_of (Ok (reply_of outcome)) }
{
    match outcome {
        Outcome::Node(reply) => Response::Node(reply),
        Outcome::Held { count } => Response::Held { count },
        Outcome::Viewed(shown) => Response::Viewed(shown.into_text()),
    }
}
