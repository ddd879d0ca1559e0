//! Blocks, read from the front of bytes.
ghost use Rattle.std.specs.Prelude.{◌≡◌, ◌↔◌, ◌+◌, ◌≤◌, length, IfOk, IsErrOf, MatchOption};
ghost use Rattle.beam_blocks.specs.Blocks.{no_bytes, cut_block, bad_block, one_block, block_in, number_at, after_header};

use crate::sums::sums_of;

/// Why no whole block stands at the front of bytes.
#[derive(Clone, Copy, Debug, PartialEq, Eq)]
pub enum BlockFault {
    /// The bytes end before a header does, or before the content that a header counts. With more bytes it may be a block.
    Cut,
    /// The bytes begin with no block, whatever follows them: the count and its mirror disagree, or the content has other sums.
    Bad,
}

/// The number in the four bytes at a place.
fn number(bytes: &[u8], at: usize) -> u32
    requires { at + 4 ≤ length bytes.now }
    ensures { result ≡ number_at at bytes.now }
{
    u32::from_be_bytes([bytes[at], bytes[at + 1], bytes[at + 2], bytes[at + 3]])
}

/// The content after a header, and the bytes after it.
#[tactic(auto, unfolding(crate::specs::Blocks::after_header))]
fn after_header(
    count: u32,
    mirror: u32,
    first: u32,
    second: u32,
    rest: &[u8],
) -> Result<(&[u8], &[u8]), BlockFault>
    ensures found { IfOk result (λ p. after_header count mirror first second rest.now ≡ one_block p.0.now p.1.now) }
    ensures cut { IsErrOf result BlockFault.Cut → after_header count mirror first second rest.now ≡ cut_block }
    ensures bad { IsErrOf result BlockFault.Bad → after_header count mirror first second rest.now ≡ bad_block }
{
    if u64::from(count) + u64::from(mirror) != 0xFFFF_FFFF {
        return Err(BlockFault::Bad);
    }
    let count = count as usize;
    if rest.len() < count {
        return Err(BlockFault::Cut);
    }
    let (content, rest) = rest.split_at(count);
    let sums = sums_of(content);
    if sums.first == first && sums.second == second {
        Ok((content, rest))
    } else {
        Err(BlockFault::Bad)
    }
}

/// The content of the block at the front, and the bytes after the block; `None` exactly where there are no bytes. It takes no memory.
#[tactic(auto, unfolding(crate::specs::Blocks::block_in))]
pub fn block_in(bytes: &[u8]) -> Result<Option<(&[u8], &[u8])>, BlockFault>
    ensures found { IfOk result (λ o. MatchOption o (block_in bytes.now ≡ no_bytes) (λ p. block_in bytes.now ≡ one_block p.0.now p.1.now)) }
    ensures cut { IsErrOf result BlockFault.Cut ↔ (block_in bytes.now ≡ cut_block) }
    ensures bad { IsErrOf result BlockFault.Bad ↔ (block_in bytes.now ≡ bad_block) }
{
    if bytes.is_empty() {
        return Ok(None);
    }
    if bytes.len() < 16 {
        return Err(BlockFault::Cut);
    }
    let (count, mirror) = (number(bytes, 0), number(bytes, 4));
    let (first, second) = (number(bytes, 8), number(bytes, 12));
    let (_header, rest) = bytes.split_at(16);
    let (content, rest) = after_header(count, mirror, first, second, rest)?;
    Ok(Some((content, rest)))
}
