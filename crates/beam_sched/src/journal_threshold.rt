//! How much of a journal is filled.
ghost use Rattle.std.specs.Prelude.{◌≡◌};
ghost use Rattle.beam_sched.specs.Thresholds.{percent_of, rank_of, threshold_at, threshold_of};

/// A threshold that a journal has reached, as a part of its limit.
#[derive(Clone, Copy, Debug, PartialEq, Eq)]
pub enum JournalThreshold {
    /// 50 percent or more.
    Half,
    /// 75 percent or more.
    ThreeQuarters,
    /// 90 percent or more.
    NineTenths,
    /// 99 percent or more.
    NinetyNine,
    /// 100 percent: no event is accepted any more.
    Full,
}

impl JournalThreshold {
    /// How many percent it is: 50, 75, 90, 99 or 100.
    pub fn percent(&self) -> u32
        ensures { result ≡ percent_of self.now }
    {
        match self {
            JournalThreshold::Half => 50,
            JournalThreshold::ThreeQuarters => 75,
            JournalThreshold::NineTenths => 90,
            JournalThreshold::NinetyNine => 99,
            JournalThreshold::Full => 100,
        }
    }

    /// Its rank among the thresholds, from the least one on: 1 to 5.
    pub(crate) fn rank(&self) -> u32
        ensures { result ≡ rank_of self.now }
    {
        match self {
            JournalThreshold::Half => 1,
            JournalThreshold::ThreeQuarters => 2,
            JournalThreshold::NineTenths => 3,
            JournalThreshold::NinetyNine => 4,
            JournalThreshold::Full => 5,
        }
    }
}

/// The threshold of that rank, if there is one.
pub(crate) fn threshold_at(rank: u32) -> Option<JournalThreshold>
    ensures { result ≡ threshold_at rank }
{
    match rank {
        1 => Some(JournalThreshold::Half),
        2 => Some(JournalThreshold::ThreeQuarters),
        3 => Some(JournalThreshold::NineTenths),
        4 => Some(JournalThreshold::NinetyNine),
        5 => Some(JournalThreshold::Full),
        _ => None,
    }
}

/// The greatest threshold of the limit that `entered` entries reach; none below 50 percent. With a limit of 0 it is `Full`.
pub fn threshold_of(entered: u32, limit: u32) -> Option<JournalThreshold>
    ensures { result ≡ threshold_of entered limit }
{
    let entered = 100 * u64::from(entered);
    let limit = u64::from(limit);
    if entered < 50 * limit {
        None
    } else if entered < 75 * limit {
        Some(JournalThreshold::Half)
    } else if entered < 90 * limit {
        Some(JournalThreshold::ThreeQuarters)
    } else if entered < 99 * limit {
        Some(JournalThreshold::NineTenths)
    } else if entered < 100 * limit {
        Some(JournalThreshold::NinetyNine)
    } else {
        Some(JournalThreshold::Full)
    }
}
