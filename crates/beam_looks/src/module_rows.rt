//! Rows of a list of modules.
ghost use Rattle.std.specs.Prelude.{◌≡◌, ◌<◌, ◌+◌, ◌^◌, IfOk, option_map, slice_get};
ghost use Rattle.beam_looks.specs.Modules.{instance_row, instruction_count, module_row, modules_after};

use beam_codesrv::CodeTable;
use beam_term::Atom;
use std::alloc::{AllocError, Global};

/// What a list tells of an instance.
#[derive(Clone, Copy, Debug)]
pub struct InstanceRow {
    pub number: u32,
    /// How many instructions its code has, labels and lines with them.
    pub instructions: usize,
}

/// What a list tells of a module.
#[derive(Drop)]
pub struct ModuleRow {
    pub name: Atom,
    pub current: Option<InstanceRow>,
    pub old: Option<InstanceRow>,
}

/// How many instructions the instance of that number has; 0 where there is none.
fn instruction_count(table: &CodeTable, number: u32) -> usize
    ensures { result ≡ instruction_count table.now number }
{
    match table.image_of(number) {
        Some(image) => image.code().len(),
        None => 0,
    }
}

fn instance_row(table: &CodeTable, number: Option<u32>) -> Option<InstanceRow>
    ensures { result ≡ instance_row table.now number }
{
    match number {
        Some(number) => Some(InstanceRow {
            number,
            instructions: instruction_count(table, number),
        }),
        None => None,
    }
}

/// The row of the module at an index.
fn row_at(table: &CodeTable, index: usize) -> Result<Option<ModuleRow>, AllocError>
    ensures { IfOk result (λ row. row ≡ option_map (module_row table.now) (slice_get table.now index)) }
{
    let Some((name, current, old)) = table.module_at(index) else {
        return Ok(None);
    };
    Ok(Some(ModuleRow {
        name: name.clone()?,
        current: instance_row(table, current),
        old: instance_row(table, old),
    }))
}

/// The rows of modules from an index on, in the order in which they were loaded first: at most `most`, fewer where there are no more. It
/// takes time linear in `most`.
#[tactic(auto, using(crate::proofs::Modules::next_row, crate::proofs::Modules::no_row, crate::proofs::Modules::no_row_left))]
pub fn modules_after(
    alloc: Global,
    table: &CodeTable,
    after: usize,
    most: usize,
) -> Result<Vec<ModuleRow>, AllocError>
    ensures { after + most < 2 ^ 64 → IfOk result (λ rows. rows.items ≡ modules_after table.now after most) }
{
    let mut rows = Vec::new(alloc);
    let Some(end) = after.checked_add(most) else {
        return Ok(rows);
    };
    let mut index = after;
    while index < end {
        match row_at(table, index)? {
            Some(row) => rows.push(row)?,
            None => return Ok(rows),
        }
        index += 1;
    }
    Ok(rows)
}
