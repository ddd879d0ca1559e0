//! Blocks, written.
ghost use Rattle.std.specs.Prelude.{◌≡◌, ◌<◌, ◌^◌, ◌++◌, length, OnOk, OnErr};
ghost use Rattle.beam_blocks.specs.Blocks.{block};

use crate::sums::sums_of;
use std::alloc::AllocError;

/// Appends the block of a content. Where memory is refused nothing is appended.
#[tactic(auto, unfolding(crate::specs::Blocks::block))]
pub fn put_block(out: &mut Vec<u8>, content: &[u8]) -> Result<(), AllocError>
    requires { length content.now < 2 ^ 32 }
    ensures ok { OnOk result (out.new.items ≡ out.old.items ++ block content.now) }
    ensures err { OnErr result (out.new.items ≡ out.old.items) }
{
    let count = content.len() as u32;
    let sums = sums_of(content);
    out.reserve(16 + content.len())?;
    out.extend_from_slice(&count.to_be_bytes())?;
    out.extend_from_slice(&(u32::MAX - count).to_be_bytes())?;
    out.extend_from_slice(&sums.first.to_be_bytes())?;
    out.extend_from_slice(&sums.second.to_be_bytes())?;
    out.extend_from_slice(content)?;
    Ok(())
}
