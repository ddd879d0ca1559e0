//! Closing a node.
ghost use Rattle.std.specs.Prelude.{◌≡◌, ◌≤◌, ◌↔◌, IsTrue, OnOk, OnErr, IfOk, IfErr};
ghost use Rattle.beam_machine.specs.Journal.{IsLawful, replay};
ghost use Rattle.beam_shared.specs.Node.{most_seats};
ghost use Rattle.beam_shared.specs.Seats.{Agree, AreAll, AreBelow, AreDistinct, WereAllRefused, WereEachRefused, commands_in, commands_kept};

use crate::node::{MOST_SEATS, Node};
use crate::seat_mismatch::SeatMismatch;
use beam_journal::node_journal::NodeJournal;
use beam_receipts::brand::NodeBrand;
use beam_receipts::keeper::Keeper;
use beam_receipts::seat::SeatReceipt;

/// Whether all seats' numbers differ. If they do, it shows that each number is below the count of seats given, and that each seat kept
/// exactly the journal's entries of its number.
fn are_distinct<B: NodeBrand>(keeper: &mut Keeper<B>, seats: &mut Vec<SeatReceipt<B>>) -> bool
    requires { keeper.old.given ≤ most_seats }
    ensures is { IsTrue result ↔ AreDistinct seats.old.items }
    ensures below { IsTrue result → AreBelow keeper.old.given seats.old.items }
    ensures agree { IsTrue result → Agree keeper.old.journal seats.old.items }
    ensures refused { IsTrue result → WereEachRefused keeper.old.journal keeper.old.moves keeper.old.drains B.limit seats.old.items }
    ensures keeper { keeper.new ≡ keeper.old }
    ensures seats { seats.new.items ≡ seats.old.items }
{
    let mut seen = [false; MOST_SEATS as usize];
    for at in 0..seats.len() {
        keeper.check_seat(&mut seats[at]);
        let number = seats[at].number() as usize;
        if seen[number] {
            return false;
        }
        seen[number] = true;
    }
    true
}

impl<B: NodeBrand> Node<B> {
    /// Closes the node and gives its journal, with the entries that are in memory, if these are all of its seats, each once. The journal is lawful and replays to the node's
    /// state. Each seat kept the commands that were accepted of it, with their replies: exactly the journal's entries of that seat, in
    /// their order. Each command that was refused of a seat could be refused so: the state to which the entries before it lead refuses it, or
    /// its process had been checked out; and `JournalFull` was told exactly where as many entries were in memory as can be. Each seat's number is below the
    /// count of seats given, and together they kept as many commands as the journal has. Otherwise the node and the seats come back. It takes time for the seats, at most 4,096, and not for the journal.
    pub fn close(self, seats: Vec<SeatReceipt<B>>) -> Result<NodeJournal, SeatMismatch<B>>
        ensures journal { IfOk result (λ journal. journal.entries ≡ self.journal) }
        ensures drained { IfOk result (λ journal. journal.drained ≡ self.drained) }
        ensures lawful { OnOk result (IsLawful self.journal) }
        ensures replays { OnOk result (replay self.journal ≡ self.state) }
        ensures all { OnOk result (AreAll self seats.items) }
        ensures below { OnOk result (AreBelow self.seats seats.items) }
        ensures agree { OnOk result (Agree self.journal seats.items) }
        ensures refused { OnOk result (WereAllRefused self seats.items) }
        ensures counts { OnOk result (commands_kept seats.items ≡ commands_in self.journal) }
        ensures mismatch { OnErr result (AreAll self seats.items → ⊥) }
        ensures back { IfErr result (λ back. (back.node ≡ self) × (back.seats.items ≡ seats.items)) }
    {
        let mut node = self;
        let mut seats = seats;
        if seats.len() == node.keeper.given() as usize
            && are_distinct(&mut node.keeper, &mut seats)
        {
            Ok(node.into_journal())
        } else {
            Err(SeatMismatch { node, seats })
        }
    }
}
