//! A node that threads share.
ghost use Rattle.std.specs.Prelude.{◌≡◌, ◌+◌, ◌<◌, ◌≤◌, ◌↔◌, ℕ, [], drop, length, map, IsErrOf, OnErr, IfOk, IfErr};
ghost use Rattle.beam_journal.specs.Counts.{counts_of};
ghost use Rattle.beam_journal.specs.Entering.{in_memory, most_entries};
ghost use Rattle.beam_machine.specs.Journal.{IsLawful, replay, sent_event_of};
ghost use Rattle.beam_machine.specs.Ready.{ready_after, next_deadline};
ghost use Rattle.beam_machine.specs.declared.event.Refused.TheVariants.{TooMany};
ghost use Rattle.beam_shared.specs.Node.{most_seats, new_node};
ghost use Rattle.beam_shared.specs.Seats.{AddUp, AreOfSeats};
ghost use Rattle.beam_receipts.specs.declared.refusal.Refusal.TheVariants as refusals;

use crate::checked_out::CheckoutEntry;
use crate::code_context::CodeContext;
use beam_debug::debugger::Debugger;
use beam_journal::entry::Entry;
use beam_journal::entry_counts::EntryCounts;
use beam_journal::journal::MOST_ENTRIES;
use beam_journal::node_journal::NodeJournal;
use beam_machine::event::Refused;
use beam_receipts::brand::NodeBrand;
use beam_receipts::keeper::{Keeper, UnbrandedKeeper};
use beam_receipts::refusal::Refusal;
use beam_receipts::seat::SeatReceipt;
use std::alloc::Global;
use std::marker::Model;

/// How many seats a node gives.
pub const MOST_SEATS: u32 = 4_096;

/// A node with its debugger, which threads share under one lock. It enters all that it accepts in a journal, which replays to its state,
/// while processes are checked out, run under no lock, and are committed.
pub struct Node<B: NodeBrand> {
    pub(crate) alloc: Global,
    pub(crate) debugger: Debugger,
    pub(crate) journal: NodeJournal,
    pub(crate) keeper: Keeper<B>,
    pub(crate) checked_out: Vec<CheckoutEntry>,
    // how often code or break spots changed
    pub(crate) changes: u64,
    // the copy of code and break spots for all that run processes; none after a change
    pub(crate) context: Option<CodeContext>,
}

impl<B: NodeBrand> Drop for Node<B> {
    fn drop(self) {
        let Node {
            alloc: _alloc,
            debugger: _debugger,
            journal: _journal,
            keeper: _keeper,
            checked_out: _checked_out,
            changes: _changes,
            context: _context,
        } = self;
    }
}

impl<B: NodeBrand> Model for Node<B> {
    ghost use Rattle.std.specs.Prelude.{◌≡◌};
    ghost use Rattle.std.specs.Coded.{codes};
    ghost use Rattle.beam_term.specs.Coding.{term_code};
    ghost use Rattle.beam_shared.specs.Node.{Node as TheNode};
    ghost use Rattle.beam_shared.specs.Invariant.{node_of, AreDrained, AreThoseOut, HasCapacityFor, NodeInvariant};

    ghost Value = { TheNode };

    ghost coded = { Prim.hlevel (codes, term_code) };

    ghost view = { λ n. node_of n.debugger.state n.journal n.keeper n.checked_out.items };

    ghost invariant = { λ n. NodeInvariant n.debugger.state n.journal n.keeper n.checked_out.items n.changes n.context × HasCapacityFor n.debugger n.checked_out.items
        × (n.journal.limit ≡ B.limit) × AreThoseOut n.keeper.moves n.checked_out.items × AreDrained n.keeper.drains n.journal };
}

impl<B: NodeBrand> Node<B> {
    /// A node with no code, no processes and an empty journal, of which 16,777,216 entries can be in memory. It takes no memory.
    pub fn new(alloc: Global, unbranded: UnbrandedKeeper) -> Node<B>
        requires unbranded { unbranded ≡ B.table }
        requires limit { B.limit ≡ most_entries }
        ensures { result ≡ new_node most_entries }
    {
        Node::with_limit(alloc, unbranded, MOST_ENTRIES)
    }

    /// A node with no code, no processes and an empty journal, of which `limit` entries can be in memory, at most 16,777,216. It takes no
    /// memory.
    pub fn with_limit(alloc: Global, unbranded: UnbrandedKeeper, limit: u32) -> Node<B>
        requires unbranded { unbranded ≡ B.table }
        requires limit { limit ≤ most_entries }
        requires brand { B.limit ≡ limit }
        ensures { result ≡ new_node limit }
    {
        Node {
            alloc,
            debugger: Debugger::new(alloc),
            journal: NodeJournal::with_limit(alloc, limit),
            keeper: unbranded.branded::<B>(),
            checked_out: Vec::new(alloc),
            changes: 0,
            context: None,
        }
    }

    /// In every state the journal is lawful: running its events from the empty node on refuses none and gives its replies. It replays to
    /// the state. Each of its commands is of a seat that was given, and the seats' commands are together as many as it has.
    pub fn recall_invariant(&self)
        ensures lawful { IsLawful self.now.journal }
        ensures replays { replay self.now.journal ≡ self.now.state }
        ensures of_seats { AreOfSeats self.now }
        ensures add_up { AddUp self.now }
    {
        let _entries = self.journal.entries();
    }

    /// How many processes are checked out: handed out, and not committed since.
    pub fn checked_out_count(&self) -> usize
        ensures { result ≡ length self.now.checked_out }
    {
        self.checked_out.len()
    }

    pub(crate) fn into_journal(self) -> NodeJournal
        ensures { (result.entries ≡ self.journal) × (result.drained ≡ self.drained) }
    {
        let Node {
            alloc: _alloc,
            debugger: _debugger,
            journal,
            keeper: _keeper,
            checked_out: _checked_out,
            changes: _changes,
            context: _context,
        } = self;
        journal
    }

    /// The node with its debugger alone, in the state that it has. The journal goes, with the entries that are in memory, and what is checked out
    /// can't be committed any more.
    pub fn into_debugger(self) -> Debugger
        ensures { result.state ≡ self.state }
    {
        let Node {
            alloc: _alloc,
            debugger,
            journal: _journal,
            keeper: _keeper,
            checked_out: _checked_out,
            changes: _changes,
            context: _context,
        } = self;
        debugger
    }

    /// Gives a seat to a sender of commands. `TooMany` where 4,096 were given. It takes no memory.
    pub fn seat(&mut self) -> Result<SeatReceipt<B>, Refusal>
        ensures seat { IfOk result (λ seat. seat ≡ record { number = self.old.seats; limit = self.old.limit; kept = []; refused = [] }) }
        ensures given { IfOk result (λ seat. self.new ≡ record self.old { seats = self.old.seats + 1 }) }
        ensures refused { IfErr result (λ refusal. (refusal ≡ refusals.Node TooMany) × (self.old.seats ≡ most_seats)) }
        ensures err { OnErr result (self.new ≡ self.old) }
    {
        if self.keeper.given() == MOST_SEATS {
            return Err(Refusal::Node(Refused::TooMany));
        }
        Ok(self.keeper.seat())
    }

    /// The journal's entries that are in memory, in their order, without the replies.
    pub fn entries(&self) -> &[Entry]
        ensures { result.now ≡ drop self.now.drained (map sent_event_of self.now.journal) }
    {
        self.journal.entries()
    }

    /// How many entries the journal has.
    pub fn entered(&self) -> u64
        ensures { result ≡ length self.now.journal }
    {
        self.journal.len()
    }

    /// How many entries of each kind the journal has.
    pub fn entry_counts(&self) -> EntryCounts
        ensures { result ≡ counts_of (map sent_event_of self.now.journal) }
    {
        self.journal.counts()
    }

    /// How many entries of the journal are in memory.
    pub fn in_memory(&self) -> u32
        ensures count { result ≡ in_memory self.now.journal self.now.drained }
        ensures few { result ≤ self.now.limit }
    {
        self.journal.in_memory()
    }

    /// How many entries of the journal can be in memory.
    pub fn limit(&self) -> u32
        ensures is { result ≡ self.now.limit }
        ensures most { result ≤ most_entries }
    {
        self.journal.limit()
    }

    /// The node itself, with its debugger.
    pub fn debugger(&self) -> &Debugger
        ensures { result.now.state ≡ self.now.state }
    {
        &self.debugger
    }

    /// The least number above `after` of a process that hasn't ended, and runs or has a signal in transit to it.
    pub fn ready(&self, after: u32) -> Option<u32>
        ensures { result ≡ ready_after after self.now.state.node.processes }
    {
        self.debugger.core().ready(after)
    }

    /// The least deadline of a waiting process, and the least number of a process that has it.
    pub fn next_deadline(&self) -> Option<(u64, u32)>
        ensures { result ≡ next_deadline self.now.state.node.processes }
    {
        self.debugger.core().next_deadline()
    }
}
