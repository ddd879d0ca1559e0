//! Files of blocks that are read.
ghost use Rattle.std.specs.Prelude.{◌≡◌, ◌<◌, ◌≤◌, ◌+◌, ◌^◌, ◌++◌, ℕ, List, [], false, true, IfErr, IfOk, IfSome, MatchResult, OnErr, OnOk, drop, length, option_map, take, vec_len};
ghost use Rattle.beam_block_file.specs.Fronts.{IfBlock, IsFirst, IsUnsettled, front_in};
ghost use Rattle.beam_block_file.specs.ReadFaults.{IsRefusal, failures_after};
ghost use Rattle.beam_block_file.specs.Shelves.{StandAt, saturating_increment};

use crate::file::BlockFile;
use crate::front::{Front, front_of, is_settled};
use crate::shelf::{Shelf, ShelfFailed};
use std::alloc::{AllocError, Global};
use std::marker::Model;
use thiserror::Error;

/// The most bytes of one read.
const PIECE: usize = 65_536;

/// Why a file has no next block.
#[derive(Clone, Copy, Debug, PartialEq, Eq, Error)]
pub enum ReadFault {
    /// Behind the last whole block, which ends at byte `at`, the file has `bytes` bytes more that are no whole block: fewer than a header
    /// or than a block counts, or a bad block that the file doesn't go on behind.
    #[error("CutFile")]
    CutFile { at: u64, bytes: u64 },
    /// At byte `at` there is no block, and the file goes on after it: behind as many bytes as it counts, if its count agrees with the
    /// mirror, and else behind the next 4,096 bytes.
    #[error("BadFile")]
    BadFile { at: u64 },
    /// The device failed.
    #[error("ShelfFailed")]
    ShelfFailed(ShelfFailed),
    /// Memory was refused.
    #[error("NoMemory")]
    NoMemory,
}

/// Removes `count` bytes from the front.
fn remove_front(buffer: &mut Vec<u8>, count: usize)
    requires { count ≤ length buffer.old.items }
    ensures { buffer.new.items ≡ drop count buffer.old.items }
{
    let rest = buffer.len() - count;
    buffer.rotate_left(count);
    buffer.truncate(rest);
}

/// Makes room for the bytes of one read, if there is none yet.
fn make_piece(piece: &mut Vec<u8>) -> Result<(), AllocError>
    ensures { OnOk result (0 < length piece.new.items) }
{
    if piece.is_empty() {
        piece.resize(PIECE, 0)?;
    }
    Ok(())
}

/// Reads more bytes, from a place on, behind those that are there, and tells how many; none only where no byte stands there.
fn read_more<S: Shelf>(
    shelf: &mut S,
    place: u64,
    piece: &mut [u8],
    pending: &mut Vec<u8>,
) -> Result<usize, ReadFault>
    requires { 0 < length piece.old }
    ensures more { IfOk result (λ n. (read : List ℕ) × (length read ≡ n) × (pending.new.items ≡ pending.old.items ++ read)
        × IfSome (S.bytes shelf.old) (StandAt place read)) }
    ensures end { IfOk result (λ n. n ≡ 0 → IfSome (S.bytes shelf.old) (λ b. drop place b ≡ [])) }
    ensures place { IfOk result (λ n. place + n < 2 ^ 64) }
    ensures err { OnErr result (pending.new.items ≡ pending.old.items) }
    ensures same { S.bytes shelf.new ≡ S.bytes shelf.old }
    ensures refusal { IfErr result IsRefusal }
    ensures failures { S.failed shelf.new ≡ failures_after result (S.failed shelf.old) }
{
    let count = match shelf.read_at(place, piece) {
        Ok(count) => count,
        Err(failed) => return Err(ReadFault::ShelfFailed(failed)),
    };
    let Ok(()) = pending.extend_from_slice(&piece[..count]) else {
        return Err(ReadFault::NoMemory);
    };
    Ok(count)
}

/// What stands at a place, from where on these bytes were read. More are read until it is known, or the file ends.
fn read_front<S: Shelf>(
    shelf: &mut S,
    at: u64,
    piece: &mut [u8],
    pending: &mut Vec<u8>,
) -> Result<Front, ReadFault>
    requires piece { 0 < length piece.old }
    requires stands { IfSome (S.bytes shelf.old) (StandAt at pending.old.items) }
    requires place { at + length pending.old.items < 2 ^ 64 }
    ensures stands { IfSome (S.bytes shelf.old) (StandAt at pending.new.items) }
    ensures place { at + length pending.new.items < 2 ^ 64 }
    ensures front { IfOk result (λ f. IfSome (S.bytes shelf.old) (λ b. f ≡ front_in (drop at b))) }
    ensures block { IfOk result (λ f. IfBlock f (λ n. IsFirst n pending.new.items)) }
    ensures all { IfOk result (λ f. IsUnsettled f → IfSome (S.bytes shelf.old) (λ b. drop at b ≡ pending.new.items)) }
    ensures same { S.bytes shelf.new ≡ S.bytes shelf.old }
    ensures refusal { IfErr result IsRefusal }
    ensures failures { S.failed shelf.new ≡ failures_after result (S.failed shelf.old) }
{
    loop {
        let front = front_of(pending);
        if is_settled(front) {
            return Ok(front);
        }
        let place = at + pending.len() as u64;
        let count = read_more(shelf, place, piece, pending)?;
        if count == 0 {
            return Ok(front);
        }
    }
}

/// What stands at a place, from where on the bytes behind `start` were read. More are read until it is known, or the file ends; then the
/// bytes before `start` are removed.
fn find_front<S: Shelf>(
    shelf: &mut S,
    at: u64,
    piece: &mut [u8],
    buffer: &mut Vec<u8>,
    start: &mut usize,
) -> Result<Front, ReadFault>
    requires piece { 0 < length piece.old }
    requires start { start.old ≤ length buffer.old.items }
    requires stands { IfSome (S.bytes shelf.old) (StandAt at (drop start.old buffer.old.items)) }
    requires place { at + length (drop start.old buffer.old.items) < 2 ^ 64 }
    ensures start { start.new ≤ length buffer.new.items }
    ensures stands { IfSome (S.bytes shelf.old) (StandAt at (drop start.new buffer.new.items)) }
    ensures place { at + length (drop start.new buffer.new.items) < 2 ^ 64 }
    ensures front { IfOk result (λ f. IfSome (S.bytes shelf.old) (λ b. f ≡ front_in (drop at b))) }
    ensures block { IfOk result (λ f. IfBlock f (λ n. IsFirst n (drop start.new buffer.new.items))) }
    ensures all { IfOk result (λ f. IsUnsettled f → IfSome (S.bytes shelf.old) (λ b. drop at b ≡ drop start.new buffer.new.items)) }
    ensures same { S.bytes shelf.new ≡ S.bytes shelf.old }
    ensures refusal { IfErr result IsRefusal }
    ensures failures { S.failed shelf.new ≡ failures_after result (S.failed shelf.old) }
{
    let front = front_of(&buffer[*start..]);
    if is_settled(front) {
        return Ok(front);
    }
    remove_front(buffer, *start);
    *start = 0;
    let front = read_front(shelf, at, piece, buffer)?;
    Ok(front)
}

/// A reader of a file of blocks, from its front. Contracts see the blocks that were read, where the last of them ends, its content, and what
/// stands after it.
///
/// It takes memory for the bytes of one block and one read of at most 65,536 bytes, and only for bytes that the file has, whatever it counts.
/// In all it takes time proportional to the bytes of the file.
#[derive(Drop)]
pub struct BlockReader<S: Shelf + Drop> {
    shelf: S,
    // Room for the bytes of one read.
    piece: Vec<u8>,
    // The block that was read last, if it wasn't removed yet, and bytes behind it.
    buffer: Vec<u8>,
    // Where the block that was read last ends in the buffer.
    start: usize,
    // How many bytes before that are its content.
    size: usize,
    // Where it ends in the file.
    at: u64,
}

impl<S: Shelf + Drop> Model for BlockReader<S> {
    ghost use Rattle.std.specs.Prelude.{◌≤◌, ◌<◌, ◌+◌, ◌-◌, ◌^◌, IfSome, drop, length, option_map, take};
    ghost use Rattle.beam_block_file.specs.Shelves.{StandAt};
    ghost use Rattle.beam_block_file.specs.StoredBlocks.{BlocksRead, HasBlocks, known_blocks};

    ghost Value = { BlocksRead };

    ghost view = { λ r. record {
      known = option_map (known_blocks r.at) (S.bytes r.shelf);
      end = r.at;
      content = take r.size (drop (r.start - r.size) r.buffer.items);
      failures = S.failed r.shelf;
    } };

    ghost invariant = { λ r. (r.size ≤ r.start) × (r.start ≤ length r.buffer.items) × (r.at + length (drop r.start r.buffer.items) < 2 ^ 64)
        × IfSome (S.bytes r.shelf) (HasBlocks r.at) × IfSome (S.bytes r.shelf) (StandAt r.at (drop r.start r.buffer.items)) };
}

impl<S: Shelf + Drop> BlockReader<S> {
    ghost use Rattle.beam_block_file.specs.ReadFaults.{IsFaultOf};
    ghost use Rattle.beam_block_file.specs.StoredBlocks.{IsNext, all_bytes, with_next, with_rest};

    /// A reader of the blocks of a device, before the first.
    pub fn new(alloc: Global, shelf: S) -> BlockReader<S>
        ensures known { result.known ≡ option_map (λ b. record { contents = []; rest = b }) (S.bytes shelf) }
        ensures end { result.end ≡ 0 }
        ensures quiet { result.failures ≡ S.failed shelf }
    {
        BlockReader {
            shelf,
            piece: Vec::new(alloc),
            buffer: Vec::new(alloc),
            start: 0,
            size: 0,
            at: 0,
        }
    }

    /// Reads the next block, and tells whether there is one; none exactly where nothing stands behind the last one.
    ///
    /// `CutFile` and `BadFile` where what stands there is no whole block, `ShelfFailed` where the device fails, and `NoMemory` where memory
    /// is refused. After an error, and where there was no block, it looks at the same place again.
    pub fn next(&mut self) -> Result<bool, ReadFault>
        ensures block { IfOk result (λ found. found ≡ true → IfSome self.old.known (IsNext self.new.content)) }
        ensures known { IfOk result (λ found. found ≡ true → self.new.known ≡ option_map (with_next self.new.content) self.old.known) }
        ensures end { IfOk result (λ found. found ≡ true → self.new.end ≡ self.old.end + 16 + length self.new.content) }
        ensures none { IfOk result (λ found. found ≡ false → IfSome self.old.known (λ k. k.rest ≡ [])) }
        ensures stays { IfOk result (λ found. found ≡ false → (self.new.known ≡ self.old.known) × (self.new.end ≡ self.old.end)) }

        ensures fault { IfErr result (λ e. IsFaultOf e self.old) }
        ensures same { OnErr result ((self.new.known ≡ self.old.known) × (self.new.end ≡ self.old.end)) }
        ensures failures { self.new.failures ≡ failures_after result self.old.failures }
    {
        self.size = 0;
        let Ok(()) = make_piece(&mut self.piece) else {
            return Err(ReadFault::NoMemory);
        };
        let front = find_front(
            &mut self.shelf,
            self.at,
            &mut self.piece,
            &mut self.buffer,
            &mut self.start,
        )?;
        match front {
            Front::Block(count) => {
                self.size = count;
                self.start += 16 + count;
                self.at += 16 + count as u64;
                Ok(true)
            }
            Front::Nothing => Ok(false),
            Front::Cut => Err(ReadFault::CutFile {
                at: self.at,
                bytes: (self.buffer.len() - self.start) as u64,
            }),
            Front::Bad => Err(ReadFault::BadFile { at: self.at }),
        }
    }

    /// The content of the block that was read last, if the last call of `next` gave one.
    pub fn content(&self) -> &[u8]
        ensures { result.now ≡ self.now.content }
    {
        &self.buffer[self.start - self.size..self.start]
    }

    /// How many bytes the blocks take that were read.
    pub fn end(&self) -> u64
        ensures { result ≡ self.now.end }
    {
        self.at
    }

    /// The device, which the reader gives back as it was.
    pub fn into_shelf(self) -> S
        ensures bytes { S.bytes result ≡ option_map all_bytes self.known }
        ensures failed { S.failed result ≡ self.failures }
    {
        let BlockReader { shelf, .. } = self;
        shelf
    }

    /// The file of the blocks that were read, to be added to. Whatever stands behind them is cut off, on the device too: blocks that were
    /// not read yet, a torn end, a bad block. `ShelfFailed` where the device fails, which is dropped then.
    pub fn into_file(self) -> Result<BlockFile<S>, ShelfFailed>
        ensures known { IfOk result (λ f. f.known ≡ option_map (with_rest []) self.known) }
        ensures end { IfOk result (λ f. f.end ≡ self.end) }
        ensures quiet { IfOk result (λ f. f.failures ≡ self.failures) }
    {
        let BlockReader {
            mut shelf,
            buffer,
            at,
            ..
        } = self;
        shelf.cut(at)?;
        shelf.sync()?;
        Ok(BlockFile {
            shelf,
            buffer,
            end: at,
            torn: false,
        })
    }
}
