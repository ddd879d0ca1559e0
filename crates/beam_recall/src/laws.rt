//! Laws of recorded events and of seats.
ghost use Rattle.std.specs.Prelude.{List, map};
ghost use Rattle.beam_journal_file.specs.JournalRead.{HasRead, IsOver, JournalRead, ReadsOn, gives};
ghost use Rattle.beam_machine.specs.Journal.{sent_event_of};
ghost use Rattle.beam_receipts.specs.Receipts.{SeatHistory};
ghost use Rattle.beam_recall.specs.Recalling.{AreNumbered, EntersAll, EntersThose};
ghost use Rattle.beam_shared.specs.Node.{Node};
ghost use Rattle.beam_shared.specs.Seats.{AreAll};

/// Seats in the order of their numbers, as many as a node gave, are all of the node's, each once.
pub fn numbered_are_all()
    ensures { (n : Node) (seats : List SeatHistory) → AreNumbered n.seats seats → AreAll n seats }
{}

/// A node that entered some events which the reader of a journal's file gave, after those that this reader gave before, has in its journal
/// what the reader gave since the beginning of the file.
pub fn read_so_far()
    ensures { (reader end : JournalRead) (old new : Node) → EntersThose gives reader old end new → HasRead reader (map sent_event_of old.journal)
        → HasRead end (map sent_event_of new.journal) }
{}

/// A node that entered all events that the reader of a journal's file had left, after those that this reader gave before, has in its
/// journal what the reader gave since the beginning of the file.
pub fn recalled_is_read()
    ensures { (reader end : JournalRead) (old new : Node) → EntersAll gives reader old end new → HasRead reader (map sent_event_of old.journal)
        → HasRead end (map sent_event_of new.journal) }
{}

/// A node that entered events which the reader of a journal's file gave left a reader that read on in the same file. Where it entered all that
/// the reader had left, nothing but a torn end stands behind what was read, or the reader came to the entry before which it ends.
pub fn recalled_to_the_end()
    ensures those { (reader end : JournalRead) (old new : Node) → EntersThose gives reader old end new → ReadsOn reader end }
    ensures all { (reader end : JournalRead) (old new : Node) → EntersAll gives reader old end new → ReadsOn reader end × IsOver end }
{}
