//! Fletcher's sums of bytes.
ghost use Rattle.std.specs.Prelude.{◌≡◌};
ghost use Rattle.beam_blocks.specs.Blocks.{sums_of, with_byte, initial_sums};

/// Fletcher's sums of bytes: 1 and the bytes, and the first sums up to each byte. Both modulo 2^32.
#[derive(Clone, Copy)]
pub(crate) struct FletcherSums {
    pub(crate) first: u32,
    pub(crate) second: u32,
}

impl FletcherSums {
    /// The sums of no bytes.
    fn new() -> FletcherSums
        ensures { result ≡ initial_sums }
    {
        FletcherSums {
            first: 1,
            second: 0,
        }
    }

    /// The sums with one more byte.
    #[tactic(auto, unfolding(crate::specs::Blocks::with_byte))]
    fn with(self, byte: u8) -> FletcherSums
        ensures { result ≡ with_byte self byte }
    {
        let first = self.first.wrapping_add(u32::from(byte));
        FletcherSums {
            first,
            second: self.second.wrapping_add(first),
        }
    }
}

/// The sums of bytes.
pub(crate) fn sums_of(bytes: &[u8]) -> FletcherSums
    ensures { result ≡ sums_of bytes.now }
{
    let mut sums = FletcherSums::new();
    for byte in bytes {
        sums = sums.with(*byte);
    }
    sums
}
