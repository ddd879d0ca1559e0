//! Laws of commands that are written. The functions do nothing: their contracts are proved.
ghost use Rattle.std.specs.Prelude.{◌≡◌, ◌≤◌, ◌++◌, ◌∷◌, ℕ, List, Some, length};
ghost use Rattle.beam_machine.specs.Frames.{Command, SpellsCommand, command_of, frame_in, frame_of, longest_frame, one_frame};
ghost use Rattle.beam_command_writer.specs.Bodies.{kind_number, command_body};

/// The body that is written for a command is read as that command, and so is its frame, whatever bytes follow.
#[tactic(auto, using(crate::proofs::RoundTrip::body_again, crate::proofs::RoundTrip::frame_again))]
pub fn written_is_read()
    ensures body { (c : Command) → SpellsCommand (kind_number c) (command_body c) c → command_of (kind_number c) (command_body c) ≡ Some c }
    ensures frame { (c : Command) (more : List ℕ) → SpellsCommand (kind_number c) (command_body c) c
        → length (kind_number c ∷ command_body c) ≤ longest_frame → frame_in (frame_of (kind_number c ∷ command_body c) ++ more) ≡ one_frame c more }
{}
