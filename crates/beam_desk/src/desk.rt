//! The desk of a node.
ghost use Rattle.std.specs.Prelude.{◌≡◌};
ghost use Rattle.beam_machine.specs.Debug.{undisturbed};
ghost use Rattle.beam_machine.specs.State.{empty};

use crate::replies::reply;
use beam_debug::debugger::Debugger;
use beam_image::Image;
use beam_machine::command::Response;
use beam_machine::debug::DebugEvent;
use beam_remote::Desk;
use std::alloc::Global;
use std::marker::Model;

/// A desk that has a node with its debugger.
pub struct NodeDesk {
    debugger: Debugger,
}

impl Drop for NodeDesk {
    fn drop(self) {
        let NodeDesk {
            debugger: _debugger,
        } = self;
    }
}

impl Model for NodeDesk {
    ghost use Rattle.std.specs.Coded.{codes};
    ghost use Rattle.beam_term.specs.Coding.{term_code};
    ghost use Rattle.beam_machine.specs.Debug.{Debugged};

    ghost Value = { Debugged };

    ghost coded = { Prim.hlevel (codes, term_code) };

    ghost view = { λ d. d.debugger.state };
}

impl NodeDesk {
    /// The desk of a node with no code, no processes and no break spots.
    pub fn new(alloc: Global) -> NodeDesk
        ensures { result ≡ undisturbed empty }
    {
        NodeDesk {
            debugger: Debugger::new(alloc),
        }
    }

    /// The desk of a node in the state that it has.
    pub fn of(debugger: Debugger) -> NodeDesk
        ensures { result ≡ debugger.state }
    {
        NodeDesk { debugger }
    }

    /// The node.
    pub fn debugger(&self) -> &Debugger
        ensures { result.now.state ≡ self.now }
    {
        &self.debugger
    }
}

impl Desk for NodeDesk {
    ghost use Rattle.beam_desk.specs.Answers.{NodeAnswers};

    ghost answers = { NodeAnswers };

    fn command(&mut self, event: DebugEvent<Image>) -> Response {
        match self.debugger.apply(&event) {
            Ok(outcome) => reply(outcome),
            Err(refused) => Response::Refused(refused),
        }
    }
}
