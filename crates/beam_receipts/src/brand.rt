//! Ghost names: of a node, of an entry, of a refused command, of a checkout and of a process.

use std::marker::Brand;

/// Names one node, whose keeper, seats and tickets belong together. A program passes `Brand` to a function over `B: NodeBrand`, and the
/// proof of that call picks the table, which is that of the `UnbrandedKeeper` which is branded, and the limit of the node's journal.
pub trait NodeBrand {
    ghost use Rattle.atomic_table.specs.Seated.{TableId};
    ghost use Rattle.std.specs.Prelude.{ℕ};

    ghost table: { TableId };

    // How many entries of the node's journal can be in memory.
    ghost limit: { ℕ };
}

impl NodeBrand for Brand {
    ghost use Rattle.beam_receipts.specs.Receipts.{no_table};

    ghost table = { no_table };

    ghost limit = { 0 };
}

/// The entry that is entered. No code holds it: the proof of a call that passes `Brand` picks it.
pub trait GhostEntry {
    ghost use Rattle.beam_machine.specs.Journal.{Entry};

    ghost entry: { Entry };
}

impl GhostEntry for Brand {
    ghost use Rattle.beam_receipts.specs.Receipts.{no_entry};

    ghost entry = { no_entry };
}

/// The command that is refused. No code holds it: the proof of a call that passes `Brand` picks it.
pub trait GhostRefusedCommand {
    ghost use Rattle.beam_receipts.specs.Receipts.{RefusedCommand};

    ghost refused: { RefusedCommand };
}

impl GhostRefusedCommand for Brand {
    ghost use Rattle.beam_receipts.specs.Receipts.{no_refused_command};

    ghost refused = { no_refused_command };
}

/// The origin of a checkout. No code holds it: the proof of a call that passes `Brand` picks it.
pub trait GhostOrigin {
    ghost use Rattle.beam_laws.specs.Origin.{Origin};

    ghost origin: { Origin };
}

impl GhostOrigin for Brand {
    ghost use Rattle.beam_receipts.specs.Receipts.{no_origin};

    ghost origin = { no_origin };
}

/// The number of the process that is checked in. No code holds it: the proof of a call that passes `Brand` picks it.
pub trait GhostPid {
    ghost use Rattle.std.specs.Prelude.{ℕ};

    ghost pid: { ℕ };
}

impl GhostPid for Brand {
    ghost pid = { 0 };
}
