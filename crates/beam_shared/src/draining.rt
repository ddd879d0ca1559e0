//! Entries of the journal that leave memory.
ghost use Rattle.std.specs.Prelude.{◌≡◌, ◌≢◌, ◌⊎◌, ◌<◌, ◌^◌, ◌++◌, [], drop, length, map, vec_capacity, IfOk, IfErr, OnOk, OnErr};
ghost use Rattle.beam_machine.specs.Journal.{sent_event_of};
ghost use Rattle.beam_shared.specs.Node.{without_entries};

use crate::node::Node;
use beam_journal::entry::Entry;
use beam_receipts::brand::NodeBrand;
use beam_receipts::drain::DrainReceipt;

impl<B: NodeBrand> Node<B> {
    /// Gives the receipt of who takes entries of the journal out of memory, which knows of none yet.
    pub fn drain_receipt(&mut self) -> DrainReceipt<B>
        ensures receipt { result ≡ [] }
        ensures node { self.new ≡ self.old }
    {
        self.keeper.drain_receipt()
    }

    /// The entries that are in memory leave it, for a list without entries, whose room is then there for the next ones. The journal stays
    /// what it is: it has the entries that the receipt knew, then these, and the receipt knows all of them afterwards. It is one exchange of
    /// two lists, and takes no memory. The list comes back, and nothing changes, where it has entries or less room than the processes that
    /// are checked out need, where entries left memory by another receipt since, and where 2^63 entries would have left memory.
    pub fn drain(
        &mut self,
        receipt: &mut DrainReceipt<B>,
        room: Vec<Entry>,
    ) -> Result<Vec<Entry>, Vec<Entry>>
        ensures entries { IfOk result (λ left. left.items ≡ drop self.old.drained (map sent_event_of self.old.journal)) }
        ensures all { IfOk result (λ left. map sent_event_of self.old.journal ≡ map sent_event_of receipt.old ++ left.items) }
        ensures receipt { OnOk result (receipt.new ≡ self.old.journal) }
        ensures node { OnOk result (self.new ≡ without_entries self.old) }
        ensures refused { OnErr result ((length room.items ≢ 0) ⊎ (vec_capacity room < length self.old.checked_out)
            ⊎ (length receipt.old ≢ self.old.drained) ⊎ (2 ^ 63 < length self.old.journal)) }
        ensures back { IfErr result (λ back. back ≡ room) }
        ensures err { OnErr result ((self.new ≡ self.old) × (receipt.new ≡ receipt.old)) }
    {
        if room.capacity() < self.checked_out.len() || receipt.count() != self.journal.drained() {
            return Err(room);
        }
        let count = self.journal.len();
        match self.journal.drain(room) {
            Ok(left) => {
                self.keeper.drain(receipt, count);
                Ok(left)
            }
            Err(room) => Err(room),
        }
    }
}
