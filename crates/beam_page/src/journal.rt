//! What is told of the journal.
ghost use Rattle.std.specs.Prelude.{◌≡◌, IfOk};
ghost use Rattle.json.specs.Print.{print};
ghost use Rattle.beam_page.specs.Journals.{entry_tokens, journal_tokens};

use crate::to_json::{ToJson, json_of, put_member};
use json::Writer;
use std::alloc::{AllocError, Global};

/// How many entries of each kind a journal has.
#[derive(Clone, Copy, Debug, PartialEq, Eq)]
pub struct EntryFacts {
    pub commands: u64,
    pub slices: u64,
    pub deliveries: u64,
    pub moments: u64,
    pub timeouts: u64,
}

/// What is told of a journal.
#[derive(Clone, Copy, Debug, PartialEq, Eq)]
pub struct JournalFacts {
    /// All entries, since the node began.
    pub entries: u64,
    /// The entries that are in memory.
    pub in_memory: u64,
    /// How many may be in memory.
    pub limit: u64,
    /// Whether entries go to a file.
    pub is_in_file: bool,
    /// Whether the node ends once the journal is full.
    pub stops_when_full: bool,
    pub kinds: EntryFacts,
}

impl ToJson for EntryFacts {
    ghost tokens = { entry_tokens };

    #[tactic(auto, unfolding(crate::specs::Journals::entry_tokens))]
    fn put(&self, writer: &mut Writer) -> Result<(), AllocError> {
        writer.begin_object()?;
        put_member(writer, "commands", &self.commands)?;
        put_member(writer, "slices", &self.slices)?;
        put_member(writer, "deliveries", &self.deliveries)?;
        put_member(writer, "moments", &self.moments)?;
        put_member(writer, "timeouts", &self.timeouts)?;
        writer.end_object()
    }
}

impl ToJson for JournalFacts {
    ghost tokens = { journal_tokens };

    #[tactic(auto, unfolding(crate::specs::Journals::journal_tokens))]
    fn put(&self, writer: &mut Writer) -> Result<(), AllocError> {
        writer.begin_object()?;
        put_member(writer, "entries", &self.entries)?;
        put_member(writer, "in_memory", &self.in_memory)?;
        put_member(writer, "limit", &self.limit)?;
        put_member(writer, "in_file", &self.is_in_file)?;
        put_member(writer, "stops_when_full", &self.stops_when_full)?;
        put_member(writer, "kinds", &self.kinds)?;
        writer.end_object()
    }
}

/// The journal as JSON. It fails only for memory.
pub fn journal_json(alloc: Global, journal: &JournalFacts) -> Result<Vec<u8>, AllocError>
    ensures { IfOk result (λ bytes. bytes.items ≡ print (journal_tokens journal.now)) }
{
    json_of(alloc, journal)
}
