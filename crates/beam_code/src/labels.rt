//! The bytes after the labels of a chunk.

ghost use Rattle.std.specs.Prelude.{◌≡◌, ◌<◌, ◌+◌, ◌++◌, ◌∷◌, [], ℕ, nat_eq, drop, length, map, option_map, slice_index_or, if◌then◌else◌, Some, IfOk, OnOk};
ghost use Rattle.std.specs.Map.{lookup};
ghost use Rattle.std.specs.Ordering.{nat_cmp};
ghost use Rattle.std.specs.BTreeMap.{get, IsOrdered};
ghost use Rattle.beam_model.specs.Listing.{is_this_number};
ghost use Rattle.beam_code.specs.Ascending.{ascending_from};
ghost use Rattle.beam_code.specs.Bytes.{byte_after, AreAscending};

use crate::starts::Starts;
use beam_model::instruction::Instruction;
use std::alloc::{AllocError, Global};
use std::collections::BTreeMap;

/// Notes the byte after an instruction, if it is a label.
fn note(bytes: &mut BTreeMap<u32, u32>, label: Option<u32>, byte: u32) -> Result<(), AllocError>
    ensures { OnOk result ((q : ℕ) → get nat_cmp bytes.new q ≡ (if is_this_number q label then Some byte else get nat_cmp bytes.old q)) }
{
    let Some(label) = label else {
        return Ok(());
    };
    bytes.insert(label, byte)?;
    Ok(())
}

/// The byte after each label. Later label instructions are noted first, so that of several of one number the first stays.
fn noted(
    alloc: Global,
    instructions: &[Instruction],
    starts: &Starts,
    end: u32,
) -> Result<BTreeMap<u32, u32>, AllocError>
    requires { length starts.now ≡ length instructions.now }
    ensures { IfOk result (λ m. (label : ℕ) → get nat_cmp m label ≡ byte_after label instructions.now (drop 1 starts.now ++ end ∷ [])) }
{
    let mut bytes = BTreeMap::new(alloc);
    let mut at = instructions.len();
    let mut after = end;
    while at > 0 {
        at -= 1;
        note(&mut bytes, instructions[at].label(), after)?;
        after = starts.get(at);
    }
    Ok(bytes)
}

/// The noted labels, in the order of their numbers.
fn in_order(alloc: Global, bytes: &BTreeMap<u32, u32>) -> Result<Vec<(u32, u32)>, AllocError>
    ensures entries { IfOk result (λ v. v.items ≡ bytes.now.entries) }
    ensures ordered { IsOrdered nat_cmp bytes.now }
{
    bytes
        .iter()
        .map(|(label, byte)| (*label, *byte))
        .collect(alloc)
}

/// The byte after the instruction at a position.
#[inline(always)]
fn byte_behind(starts: &Starts, end: u32, at: usize) -> u32
    requires { at < length starts.now }
    ensures { result ≡ slice_index_or starts.now (at + 1) end }
{
    if starts.len() > at + 1 {
        starts.get(at + 1)
    } else {
        end
    }
}

/// The byte after each label, if they stand in the order of their numbers.
fn ascending(
    alloc: Global,
    instructions: &[Instruction],
    starts: &Starts,
    end: u32,
) -> Result<Option<Vec<(u32, u32)>>, AllocError>
    requires { length starts.now ≡ length instructions.now }
    ensures { IfOk result (λ r. option_map (λ v. v.items) r ≡ ascending_from 0 instructions.now (drop 1 starts.now ++ end ∷ [])) }
{
    let mut labels = Vec::new(alloc);
    let mut least = 0u64;
    for at in 0..instructions.len() {
        let Some(label) = instructions[at].label() else {
            continue;
        };
        if (label as u64) < least {
            return Ok(None);
        }
        labels.push((label, byte_behind(starts, end, at)))?;
        least = label as u64 + 1;
    }
    Ok(Some(labels))
}

/// The labels in the order of their numbers, each with the byte after its first label instruction. The instructions begin at `starts`,
/// and the last ends at `end`.
pub fn labels(
    alloc: Global,
    instructions: &[Instruction],
    starts: &Starts,
    end: u32,
) -> Result<Vec<(u32, u32)>, AllocError>
    requires { length starts.now ≡ length instructions.now }
    ensures order { IfOk result (λ v. AreAscending (map (λ l. l.0) v.items)) }
    ensures bytes { IfOk result (λ v. (label : ℕ) → lookup (nat_eq label) v.items ≡ byte_after label instructions.now (drop 1 starts.now ++ end ∷ [])) }
{
    if let Some(listed) = ascending(alloc, instructions, starts, end)? {
        return Ok(listed);
    }
    let bytes = noted(alloc, instructions, starts, end)?;
    let labels = in_order(alloc, &bytes)?;
    Ok(labels)
}
