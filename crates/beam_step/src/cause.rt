//! Why rows end.
ghost use Rattle.std.specs.Prelude.{◌≡◌};
ghost use Rattle.beam_proc.specs.Ending.{end_of};
ghost use Rattle.beam_step.specs.Slices.{private_end, is_cut};

use beam_proc::private::End;

/// Why rows end, where memory may be refused.
#[derive(Clone, Copy, Debug, PartialEq, Eq)]
pub enum Cause {
    /// As many rows were executed as were asked for, or 4,000.
    AtLimit,
    /// The process waits, or has ended.
    AfterRow,
    /// The next row asks something of the node.
    BeforeNodeRow,
    /// The next row is that of a break spot, which the process may not pass.
    AtSpot,
    /// Memory was refused for the next row, which isn't a quiet one.
    WantOfMemory,
}

impl Cause {
    /// How the rows end. Those that an allocation failure ended are as many as were executed, and end at that limit.
    pub(crate) fn end(self) -> End
        ensures { end_of result ≡ private_end self }
    {
        match self {
            Cause::AtLimit => End::AtLimit,
            Cause::AfterRow => End::AfterRow,
            Cause::BeforeNodeRow => End::BeforeNodeRow,
            Cause::AtSpot => End::AtSpot,
            Cause::WantOfMemory => End::AtLimit,
        }
    }

    /// Whether an allocation failure ended the rows.
    pub(crate) fn is_cut(self) -> bool
        ensures { result ≡ is_cut self }
    {
        self == Cause::WantOfMemory
    }
}
