//! What stands behind the last whole block of a file.
ghost use Rattle.std.specs.Prelude.{◌≡◌, ◌+◌, ◌≤◌, false, length, true};
ghost use Rattle.beam_blocks.specs.Blocks.{number_at};
ghost use Rattle.beam_block_file.specs.Fronts.{IfBlock, IsFirst, IsUnsettled, front_in, goes_on};

use beam_blocks::{BlockFault, block_in};

/// What stands at the front of bytes.
#[derive(Clone, Copy, PartialEq, Eq)]
pub enum Front {
    /// No bytes.
    Nothing,
    /// The torn end of a file.
    Cut,
    /// No block, and the bytes go on after it.
    Bad,
    /// A block, whose content has that many bytes.
    Block(usize),
}

/// The number in the four bytes at a place.
fn number(bytes: &[u8], at: usize) -> u32
    requires { at + 4 ≤ length bytes.now }
    ensures { result ≡ number_at at bytes.now }
{
    u32::from_be_bytes([bytes[at], bytes[at + 1], bytes[at + 2], bytes[at + 3]])
}

/// Whether bytes that begin with a bad block go on after it.
fn goes_on(bytes: &[u8]) -> bool
    requires { 16 ≤ length bytes.now }
    ensures { result ≡ goes_on bytes.now }
{
    let (count, mirror) = (number(bytes, 0), number(bytes, 4));
    let size = if u64::from(count) + u64::from(mirror) == 0xFFFF_FFFF {
        16 + count as usize
    } else {
        4096
    };
    size < bytes.len()
}

/// What stands at the front of bytes, if a file ends with them. A block takes bytes of them.
#[tactic(auto, unfolding(crate::specs::Fronts::front_in), using(crate::proofs::KnownFronts::bad_long))]
pub(crate) fn front_of(bytes: &[u8]) -> Front
    ensures front { result ≡ front_in bytes.now }
    ensures block { IfBlock result (λ n. IsFirst n bytes.now) }
{
    match block_in(bytes) {
        Ok(None) => Front::Nothing,
        Ok(Some((content, _rest))) => Front::Block(content.len()),
        Err(BlockFault::Cut) => Front::Cut,
        Err(BlockFault::Bad) => {
            if goes_on(bytes) {
                Front::Bad
            } else {
                Front::Cut
            }
        }
    }
}

/// Whether it is known what stands there, whatever bytes follow.
pub(crate) fn is_settled(front: Front) -> bool
    ensures settled { result ≡ true → IsUnsettled front → ⊥ }
    ensures unsettled { result ≡ false → IsUnsettled front }
{
    match front {
        Front::Bad | Front::Block(_) => true,
        Front::Nothing | Front::Cut => false,
    }
}
