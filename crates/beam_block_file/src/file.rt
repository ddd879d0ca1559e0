//! Files of blocks that are added to.
ghost use Rattle.std.specs.Prelude.{◌≡◌, ◌<◌, ◌≤◌, ◌+◌, ◌^◌, ◌⊎◌, ◌∷◌, [], false, IfErr, IfOk, IfSome, IsErrOf, MatchResult, OnErr, OnOk, Some, length, option_map, take, vec_len};
ghost use Rattle.beam_blocks.specs.Blocks.{AreShort, block, blocks_of};
ghost use Rattle.beam_block_file.specs.Shelves.{IsBegun, appended, saturating_increment};

use crate::shelf::{Shelf, ShelfFailed};
use beam_blocks::put_block;
use std::alloc::{AllocError, Global};
use std::marker::Model;
use thiserror::Error;

/// Why a block wasn't added.
#[derive(Clone, Copy, Debug, PartialEq, Eq, Error)]
pub enum FileFault {
    /// The device failed.
    #[error("ShelfFailed")]
    ShelfFailed(ShelfFailed),
    /// The file would have 2^64 bytes or more.
    #[error("TooLong")]
    TooLong,
    /// Memory was refused.
    #[error("NoMemory")]
    NoMemory,
}

/// Puts the block of a content in the place of what a buffer holds.
#[tactic(auto, using(crate::proofs::KnownFiles::length_of_block))]
fn set_block(buffer: &mut Vec<u8>, content: &[u8]) -> Result<(), AllocError>
    requires { length content.now < 2 ^ 32 }
    ensures block { OnOk result (buffer.new.items ≡ block content.now) }
    ensures size { OnOk result (vec_len buffer.new ≡ 16 + length content.now) }
{
    buffer.clear();
    put_block(buffer, content)?;
    Ok(())
}

/// Adds all bytes, or a beginning of them.
#[tactic(auto, using(crate::proofs::BytesAdded::all_begun, crate::proofs::BytesAdded::appended_none))]
fn append_all<S: Shelf>(shelf: &mut S, bytes: &[u8]) -> Result<(), ShelfFailed>
    ensures whole { OnOk result (S.bytes shelf.new ≡ appended (S.bytes shelf.old) bytes.now) }
    ensures begun { OnErr result (IsBegun (S.bytes shelf.old) bytes.now (S.bytes shelf.new)) }
    ensures failed { MatchResult result (λ _. S.failed shelf.new ≡ S.failed shelf.old) (λ _. S.failed shelf.new ≡ saturating_increment (S.failed shelf.old)) }
{
    let mut rest = bytes;
    while !rest.is_empty() {
        let count = shelf.append(rest)?;
        rest = &rest[count..];
    }
    Ok(())
}

/// Adds all bytes behind the first `end` bytes, or a beginning of them. What stands behind these is cut off before, if there may be any.
fn add_behind<S: Shelf>(
    shelf: &mut S,
    end: u64,
    torn: bool,
    bytes: &[u8],
) -> Result<(), ShelfFailed>
    requires { torn ≡ false → IfSome (S.bytes shelf.old) (λ b. length b ≡ end) }
    ensures whole { OnOk result (S.bytes shelf.new ≡ appended (option_map (take end) (S.bytes shelf.old)) bytes.now) }
    ensures begun { OnErr result ((S.bytes shelf.new ≡ S.bytes shelf.old) ⊎ IsBegun (option_map (take end) (S.bytes shelf.old)) bytes.now (S.bytes shelf.new)) }
    ensures failed { MatchResult result (λ _. S.failed shelf.new ≡ S.failed shelf.old) (λ _. S.failed shelf.new ≡ saturating_increment (S.failed shelf.old)) }
{
    if torn {
        shelf.cut(end)?;
    }
    append_all(shelf, bytes)
}

/// A file of blocks on a device. Contracts see its blocks, what stands behind them and where the last of them ends.
///
/// Behind the last whole block there is nothing but what a call that failed has left: the beginning of a block, which the next call that
/// adds a block cuts off.
#[derive(Drop)]
pub struct BlockFile<S: Shelf + Drop> {
    pub(crate) shelf: S,
    // The block that is added.
    pub(crate) buffer: Vec<u8>,
    pub(crate) end: u64,
    // Whether bytes may stand behind the last whole block.
    pub(crate) torn: bool,
}

impl<S: Shelf + Drop> Model for BlockFile<S> {
    ghost use Rattle.std.specs.Prelude.{◌≡◌, false, IfSome, length, option_map};
    ghost use Rattle.beam_block_file.specs.StoredBlocks.{HasBlocks, StoredBlocks, known_blocks};

    ghost Value = { StoredBlocks };

    ghost view = { λ f. record { known = option_map (known_blocks f.end) (S.bytes f.shelf); end = f.end; failures = S.failed f.shelf } };

    ghost invariant = { λ f. IfSome (S.bytes f.shelf) (HasBlocks f.end) × (f.torn ≡ false → IfSome (S.bytes f.shelf) (λ b. length b ≡ f.end)) };
}

impl<S: Shelf + Drop> BlockFile<S> {
    ghost use Rattle.beam_block_file.specs.StoredBlocks.{IsKept, all_bytes, contents_of, with_block};

    /// A file whose first block has that content, on a device that has no bytes. The faults are those of `put`; the device is dropped then.
    pub fn create(alloc: Global, shelf: S, head: &[u8]) -> Result<BlockFile<S>, FileFault>
        requires empty { IfSome (S.bytes shelf) (λ b. b ≡ []) }
        requires short { length head.now < 2 ^ 32 }
        ensures known { IfOk result (λ f. f.known ≡ option_map (λ _. record { contents = head.now ∷ []; rest = [] }) (S.bytes shelf)) }
        ensures end { IfOk result (λ f. f.end ≡ 16 + length head.now) }
        ensures quiet { IfOk result (λ f. f.failures ≡ S.failed shelf) }
    {
        let mut file = BlockFile {
            shelf,
            buffer: Vec::new(alloc),
            end: 0,
            torn: false,
        };
        file.put(head)?;
        Ok(file)
    }

    /// Adds the block of a content behind the last whole block.
    ///
    /// `ShelfFailed` where the device fails: then the blocks are as they were, and behind them may stand what stood there before or a
    /// beginning of the block, which the next call cuts off before it adds anything. `NoMemory` where memory is refused, and `TooLong`
    /// exactly where the file would have 2^64 bytes or more: the file is as it was.
    pub fn put(&mut self, content: &[u8]) -> Result<(), FileFault>
        requires { length content.now < 2 ^ 32 }
        ensures put { OnOk result (self.new.known ≡ option_map (with_block content.now) self.old.known) }
        ensures end { OnOk result (self.new.end ≡ self.old.end + 16 + length content.now) }
        ensures quiet { OnOk result (self.new.failures ≡ self.old.failures) }

        ensures blocks { OnErr result (option_map contents_of self.new.known ≡ option_map contents_of self.old.known) }
        ensures stays { OnErr result (self.new.end ≡ self.old.end) }
        ensures left { OnErr result (IsKept self.old.known content.now self.new.known) }
        ensures failed { IfErr result (λ e. (failed : _) → e ≡ FileFault.ShelfFailed failed → self.new.failures ≡ saturating_increment self.old.failures) }
        ensures memory { IsErrOf result FileFault.NoMemory → self.new ≡ self.old }
        ensures long { IsErrOf result FileFault.TooLong → (2 ^ 64 ≤ self.old.end + 16 + length content.now) × (self.new ≡ self.old) }
    {
        let Ok(()) = set_block(&mut self.buffer, content) else {
            return Err(FileFault::NoMemory);
        };
        let Some(end) = self.end.checked_add(self.buffer.len() as u64) else {
            return Err(FileFault::TooLong);
        };
        let torn = self.torn;
        self.torn = true;
        if let Err(failed) = add_behind(&mut self.shelf, self.end, torn, &self.buffer) {
            return Err(FileFault::ShelfFailed(failed));
        }
        self.end = end;
        self.torn = false;
        Ok(())
    }

    /// All blocks are on the device once this returns Ok. The blocks stay the same in any case.
    pub fn sync(&mut self) -> Result<(), ShelfFailed>
        ensures known { self.new.known ≡ self.old.known }
        ensures end { self.new.end ≡ self.old.end }
        ensures failed { MatchResult result (λ _. self.new.failures ≡ self.old.failures) (λ _. self.new.failures ≡ saturating_increment self.old.failures) }
    {
        self.shelf.sync()
    }

    /// How many bytes the blocks take.
    pub fn end(&self) -> u64
        ensures end { result ≡ self.now.end }
        ensures size { IfSome self.now.known (λ k. result ≡ length (blocks_of k.contents)) }
    {
        self.end
    }

    /// The device.
    pub fn shelf(&self) -> &S
        ensures bytes { S.bytes result.now ≡ option_map all_bytes self.now.known }
        ensures short { IfSome self.now.known (λ k. AreShort k.contents) }
        ensures failed { S.failed result.now ≡ self.now.failures }
    {
        &self.shelf
    }

    /// The device, which the file gives back.
    pub fn into_shelf(self) -> S
        ensures bytes { S.bytes result ≡ option_map all_bytes self.known }
        ensures failed { S.failed result ≡ self.failures }
    {
        let BlockFile { shelf, .. } = self;
        shelf
    }
}
