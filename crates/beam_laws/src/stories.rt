//! Short stories of the machine: events from the empty node on, each with the answer that the definitions give, by computing it.
#![tactic(auto, unfolding(beam_machine::specs::Code::step_of, beam_machine::specs::Code::entry_of, beam_machine::specs::Callee::callee_named, beam_model::specs::NativeNames::built_in_of))]

pub mod debugging;
pub mod exceptions;
pub mod messages;
pub mod monitors;
pub mod processes;
pub mod purging;
pub mod replacement;
pub mod rows;
