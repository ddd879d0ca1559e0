//! Laws of frames. The functions do nothing: their contracts are proved.
ghost use Rattle.std.specs.Prelude.{◌≡◌, ◌≢◌, ◌↔◌, ◌++◌, ◌∷◌, ℕ, List, [], Some, None, codes, pos};
ghost use Rattle.std.specs.List.{flat_map};
ghost use Rattle.beam_term.specs.TermValue.{int_term, atom_term};
ghost use Rattle.beam_machine.specs.declared.command.FrameFault.{FrameFault};
ghost use Rattle.beam_machine.specs.declared.command.FrameFault.TheVariants.{TooLong, BadKind, BadCommand};
ghost use Rattle.beam_machine.specs.declared.command.Response.TheVariants as response;
ghost use Rattle.beam_machine.specs.declared.debug.DebugEvent.TheVariants.{Node};
ghost use Rattle.beam_machine.specs.declared.event.Event.TheVariants.{AtomicLoad, Spawn, Steps, Versions};
ghost use Rattle.beam_machine.specs.declared.event.UpgradeMode.TheVariants.{Soft};
ghost use Rattle.beam_machine.specs.declared.event.Reply.TheVariants.{Ran, Started, Upgraded, Versions as InstancesOf};
ghost use Rattle.beam_machine.specs.declared.event.Then.TheVariants.{Ended};
ghost use Rattle.beam_machine.specs.Frames.{Command, SpellsCommand, command_of, frame_in, no_frame, one_frame, bad_frame, at_fault, stream_end, empty_stream, with_command, stream_of, reply_body, frame_of, fault_frame};
ghost use Rattle.beam_frame.specs.Reader.{before_more, stream_in};

/// The command that is read from a kind and a body is the one that they spell.
pub fn spelled_is_read()
    ensures { (kind : ℕ) (body : List ℕ) (c : Command) → SpellsCommand kind body c ↔ (command_of kind body ≡ Some c) }
{}

/// A kind and a body spell one command at most.
pub fn one_command()
    ensures { (kind : ℕ) (body : List ℕ) (c d : Command) → SpellsCommand kind body c → SpellsCommand kind body d → c ≡ d }
{}

/// The frame that is found at the front of bytes is found also with any bytes after it, and is the first of their stream.
pub fn found_first()
    ensures stays { (bytes more : List ℕ) → frame_in bytes ≢ no_frame → frame_in (bytes ++ more) ≡ before_more more (frame_in bytes) }
    ensures none { (bytes : List ℕ) → frame_in bytes ≡ no_frame → stream_of bytes ≡ empty_stream (stream_end bytes) }
    ensures one { (bytes : List ℕ) (c : Command) (rest : List ℕ) → frame_in bytes ≡ one_frame c rest
        → stream_of bytes ≡ with_command c (stream_of rest) }
    ensures fault { (bytes : List ℕ) (f : FrameFault) → frame_in bytes ≡ bad_frame f → stream_of bytes ≡ empty_stream (at_fault f) }
{}

/// However a stream is cut into pieces, the commands that `next` answers after each piece are together those of the whole stream, and
/// it ends in the same way.
pub fn any_pieces()
    ensures { (pieces : List (List ℕ)) → stream_in pieces [] ≡ stream_of (flat_map (λ piece. piece) pieces) }
{}

/// Worked frames: 100 rows of process 1, the versions of module t, a start of t:sum/1 with the argument 4, an upgrade list of two
/// files; a length of 0, a kind 99, a length of 8,388,609, a pid and a count of rows in seven bytes, and a file of two bytes of which
/// one is there.
pub fn worked_frames()
    ensures steps { frame_in (0 ∷ 0 ∷ 0 ∷ 9 ∷ 8 ∷ 0 ∷ 0 ∷ 0 ∷ 1 ∷ 0 ∷ 0 ∷ 0 ∷ 100 ∷ []) ≡ one_frame (Node (Steps 1 100)) [] }
    ensures versions { frame_in (0 ∷ 0 ∷ 0 ∷ 2 ∷ 17 ∷ 116 ∷ []) ≡ one_frame (Node (Versions (codes "t"))) [] }
    ensures spawn { SpellsCommand 6 (131 ∷ 104 ∷ 3 ∷ 119 ∷ 1 ∷ 116 ∷ 119 ∷ 3 ∷ 115 ∷ 117 ∷ 109 ∷ 107 ∷ 0 ∷ 1 ∷ 4 ∷ [])
        (Node (Spawn (codes "t") (codes "sum") (int_term (pos 4) ∷ []))) }
    ensures upgrade { frame_in (0 ∷ 0 ∷ 0 ∷ 17 ∷ 18 ∷ 1 ∷ 0 ∷ 0 ∷ 0 ∷ 2 ∷ 0 ∷ 0 ∷ 0 ∷ 1 ∷ 70 ∷ 0 ∷ 0 ∷ 0 ∷ 2 ∷ 79 ∷ 82 ∷ [])
        ≡ one_frame (Node (AtomicLoad Soft ((70 ∷ []) ∷ (79 ∷ 82 ∷ []) ∷ []))) [] }
    ensures empty { frame_in (0 ∷ 0 ∷ 0 ∷ 0 ∷ []) ≡ bad_frame BadKind }
    ensures kind { frame_in (0 ∷ 0 ∷ 0 ∷ 1 ∷ 99 ∷ []) ≡ bad_frame BadKind }
    ensures long { frame_in (0 ∷ 128 ∷ 0 ∷ 1 ∷ []) ≡ bad_frame TooLong }
    ensures cut { frame_in (0 ∷ 0 ∷ 0 ∷ 8 ∷ 8 ∷ 0 ∷ 0 ∷ 0 ∷ 1 ∷ 0 ∷ 0 ∷ 0 ∷ []) ≡ bad_frame BadCommand }
    ensures cut_file { frame_in (0 ∷ 0 ∷ 0 ∷ 11 ∷ 18 ∷ 0 ∷ 0 ∷ 0 ∷ 0 ∷ 1 ∷ 0 ∷ 0 ∷ 0 ∷ 2 ∷ 70 ∷ []) ≡ bad_frame BadCommand }
{}

/// Worked replies: 22 rows, after which the process ended with reason normal and value 10; process 1 was started; instance 1 is
/// current, and none is old; of two modules instances 3 and 4 are current, 1 and 2 old; a process that is out; a full journal; the
/// fault of a kind.
pub fn worked_replies()
    ensures ended { frame_of (reply_body (response.Node (Ran 22 (Ended (atom_term (codes "normal")) (int_term (pos 10))))))
        ≡ 0 ∷ 0 ∷ 0 ∷ 18 ∷ 3 ∷ 0 ∷ 0 ∷ 0 ∷ 22 ∷ 3 ∷ 131 ∷ 119 ∷ 6 ∷ 110 ∷ 111 ∷ 114 ∷ 109 ∷ 97 ∷ 108 ∷ 131 ∷ 97 ∷ 10 ∷ [] }
    ensures started { frame_of (reply_body (response.Node (Started 1))) ≡ 0 ∷ 0 ∷ 0 ∷ 5 ∷ 2 ∷ 0 ∷ 0 ∷ 0 ∷ 1 ∷ [] }
    ensures loaded { frame_of (reply_body (response.Node (InstancesOf (Some 1) None))) ≡ 0 ∷ 0 ∷ 0 ∷ 9 ∷ 5 ∷ 0 ∷ 0 ∷ 0 ∷ 1 ∷ 0 ∷ 0 ∷ 0 ∷ 0 ∷ [] }
    ensures upgraded { frame_of (reply_body (response.Node (Upgraded
        (record { current = Some 3; old = Some 1 } ∷ record { current = Some 4; old = Some 2 } ∷ []))))
        ≡ 0 ∷ 0 ∷ 0 ∷ 21 ∷ 8 ∷ 0 ∷ 0 ∷ 0 ∷ 2 ∷ 0 ∷ 0 ∷ 0 ∷ 3 ∷ 0 ∷ 0 ∷ 0 ∷ 1 ∷ 0 ∷ 0 ∷ 0 ∷ 4 ∷ 0 ∷ 0 ∷ 0 ∷ 2 ∷ [] }
    ensures busy { frame_of (reply_body response.Busy) ≡ 0 ∷ 0 ∷ 0 ∷ 2 ∷ 6 ∷ 6 ∷ [] }
    ensures full { frame_of (reply_body response.JournalFull) ≡ 0 ∷ 0 ∷ 0 ∷ 2 ∷ 6 ∷ 10 ∷ [] }
    ensures kind { fault_frame BadKind ≡ 0 ∷ 0 ∷ 0 ∷ 2 ∷ 7 ∷ 2 ∷ [] }
{}
