//! Where the instructions of a chunk begin.

ghost use Rattle.std.specs.Prelude.{◌≡◌, ◌+◌, ◌<◌, ◌++◌, ◌∷◌, [], Some, length, slice_get, unwrap_or, OnErr, OnOk};
ghost use Rattle.std.specs.BTreeMap.{get};
ghost use Rattle.std.specs.Ordering.{nat_cmp};

use std::alloc::{AllocError, Global};
use std::collections::BTreeMap;
use std::marker::Model;

/// How many instructions share a base.
const GROUP: usize = 16;

/// The offset of an instruction that begins 255 bytes or more after its base, or before it.
const FAR: u8 = 255;

/// Where each instruction begins, in their order: a base, the start of every sixteenth instruction, for it and the fifteen after it; an
/// offset from the base, in bytes, for each; and the start itself for an instruction with offset FAR, which comes after long operands.
pub struct Starts {
    bases: Vec<u32>,
    offsets: Vec<u8>,
    far: BTreeMap<usize, u32>,
}

impl Drop for Starts {
    fn drop(self) {
        let Starts {
            bases: _bases,
            offsets: _offsets,
            far: _far,
        } = self;
    }
}

impl Model for Starts {
    ghost use Rattle.std.specs.Prelude.{ℕ, List};

    ghost Value = { List ℕ };

    ghost use Rattle.beam_code.specs.Starts.{starts_of, AreGrouped};

    ghost view = { λ s. starts_of s.bases.items s.offsets.items s.far };

    ghost invariant = { λ s. AreGrouped s.bases.items s.offsets.items s.far };
}

/// How many bytes after its base an instruction begins, FAR if they don't fit.
fn offset_from(base: u32, start: u32) -> u8
    ensures { result < 255 → base + result ≡ start }
{
    match start.checked_sub(base) {
        Some(offset) if offset < FAR as u32 => offset as u8,
        _ => FAR,
    }
}

/// Where the instruction of a position begins that is far from its base.
#[inline(never)]
fn far_start(far: &BTreeMap<usize, u32>, at: usize) -> u32
    ensures { result ≡ unwrap_or (get nat_cmp far.now at) 0 }
{
    match far.get(&at) {
        Some(start) => *start,
        None => 0,
    }
}

impl Starts {
    /// No starts. It takes no memory.
    pub fn new(alloc: Global) -> Starts
        ensures { result ≡ [] }
    {
        Starts {
            bases: Vec::new(alloc),
            offsets: Vec::new(alloc),
            far: BTreeMap::new(alloc),
        }
    }

    /// How many there are. In O(1).
    #[inline(always)]
    pub fn len(&self) -> usize
        ensures { result ≡ length self.now }
    {
        self.offsets.len()
    }

    /// Where the instruction of a position begins. In O(1), or in O(log n) where it is far from its base; without memory.
    #[inline(always)]
    pub fn get(&self, at: usize) -> u32
        requires { at < length self.now }
        ensures { slice_get self.now at ≡ Some result }
    {
        let offset = self.offsets[at];
        if offset < FAR {
            self.bases[at / GROUP] + offset as u32
        } else {
            far_start(&self.far, at)
        }
    }

    /// Adds a start at the end. It fails only for memory, and then nothing changes.
    pub fn push(&mut self, start: u32) -> Result<(), AllocError>
        ensures ok { OnOk result (self.new ≡ self.old ++ start ∷ []) }
        ensures err { OnErr result (self.new ≡ self.old) }
    {
        let at = self.offsets.len();
        self.offsets.reserve(1)?;
        if at % GROUP == 0 {
            self.bases.push(start)?;
            self.offsets.push_reserved(0);
            return Ok(());
        }
        let offset = offset_from(self.bases[at / GROUP], start);
        if offset < FAR {
            self.offsets.push_reserved(offset);
            return Ok(());
        }
        self.far.insert(at, start)?;
        self.offsets.push_reserved(FAR);
        Ok(())
    }

    /// Gives back the memory that no start takes.
    pub fn shrink_to_fit(&mut self)
        ensures { self.new ≡ self.old }
    {
        self.bases.shrink_to_fit();
        self.offsets.shrink_to_fit();
    }
}
