//! How many entries of the journal can be in memory, and how far its file can fall behind.
ghost use Rattle.std.specs.Prelude.{◌≡◌, ◌≤◌};
ghost use Rattle.beam_journal.specs.Entering.{most_entries};
ghost use Rattle.beam_serve.specs.Limits.{limit_for};

use beam_journal::journal::MOST_ENTRIES;
use beam_tools::line::Serve;

/// How many entries of a node's journal can be missing in its file at most before all that enter further ones wait: as many as take 64 MiB
/// of memory.
const MOST_BEHIND: u32 = 1_048_576;

/// How many entries of the journal can be in memory: with a file as many as a node can have, since they leave memory, and those that enter
/// further ones wait long before; without one as many as the line says.
pub(crate) fn limit_of(line: &Serve) -> u32
    ensures most { result ≤ most_entries }
    ensures limit { result ≡ limit_for line.now.journal line.now.journal_limit }
{
    if line.journal.is_some() {
        return MOST_ENTRIES;
    }
    if line.journal_limit < MOST_ENTRIES {
        line.journal_limit
    } else {
        MOST_ENTRIES
    }
}

/// How many entries of the journal can be missing in its file before those that enter further ones wait: as many as the line says, at most
/// 1,048,576.
pub(crate) fn most_behind_of(line: &Serve) -> u64 {
    u64::from(line.journal_limit.min(MOST_BEHIND))
}
