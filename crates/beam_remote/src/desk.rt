//! What answers events.
ghost use Rattle.beam_machine.specs.declared.command.Response.{Response};
ghost use Rattle.beam_machine.specs.declared.debug.DebugEvent.{DebugEvent};
ghost use Rattle.beam_model.specs.Listing.{Listing};

use beam_image::Image;
use beam_machine::command::Response;
use beam_machine::debug::DebugEvent;

/// What answers events: a node, or something that reaches one.
pub trait Desk {
    // From the first state the event gets this answer, which leaves the second state.
    ghost answers: { Self → DebugEvent Listing → Response → Self → Type 0 };

    /// Answers an event.
    fn command(&mut self, event: DebugEvent<Image>) -> Response
        ensures { answers self.old event result self.new };
}
