//! The rows to which labels lead.
ghost use Rattle.std.specs.Prelude.{◌≡◌, ◌==◌, None, Some, IfOk, OnOk, if◌then◌else◌};
ghost use Rattle.std.specs.BTreeMap.{get};
ghost use Rattle.std.specs.Ordering.{nat_cmp};
ghost use Rattle.beam_shapes.specs.Tabled.{row_after_label, HasRows};

use beam_model::instruction::Instruction;
use std::alloc::{AllocError, Global};
use std::collections::BTreeMap;

/// The row of each label. Labels that are numbered from 1 on, as compilers number them, stand in a table, and others in a tree.
pub struct LabelRows {
    near: Vec<Option<u32>>,
    far: BTreeMap<u32, u32>,
}

impl Drop for LabelRows {
    fn drop(self) {
        let LabelRows {
            near: _near,
            far: _far,
        } = self;
    }
}

impl LabelRows {
    /// No rows, with a table for the labels below a number.
    fn new(alloc: Global, size: usize) -> Result<LabelRows, AllocError>
        ensures { IfOk result (λ rows. (label : _) → row_after_label rows label ≡ None) }
    {
        Ok(LabelRows {
            near: vec![in alloc; None; size]?,
            far: BTreeMap::new(alloc),
        })
    }

    /// Sets the row of a label.
    fn put(&mut self, label: u32, row: u32) -> Result<(), AllocError>
        ensures { OnOk result ((other : _) → row_after_label self.new other ≡ (if label == other then Some row else row_after_label self.old other)) }
    {
        let index = label as usize;
        if index < self.near.len() {
            self.near[index] = Some(row);
        } else {
            self.far.insert(label, row)?;
        }
        Ok(())
    }

    /// The rows to which the labels of these instructions lead, with a table for the labels below a number. It fails only for memory,
    /// and for more than 4,294,967,295 instructions.
    pub fn of(
        alloc: Global,
        instructions: &[Instruction],
        size: usize,
    ) -> Result<LabelRows, AllocError>
        ensures { IfOk result (HasRows 0 instructions.now) }
    {
        let mut rows = LabelRows::new(alloc, size)?;
        let mut row = u32::try_from(instructions.len()).map_err(|_| AllocError)?;
        for at in (0..row).rev() {
            let instruction = &instructions[at as usize];
            if let Some(label) = instruction.label() {
                rows.put(label, row)?;
            }
            if instruction.is_row() {
                row = at;
            }
        }
        Ok(rows)
    }

    /// The row of a label. In O(1) for the labels of the table.
    #[inline(always)]
    pub fn row(&self, label: u32) -> Option<usize>
        ensures { result ≡ row_after_label self.now label }
    {
        let index = label as usize;
        if index < self.near.len() {
            let row = self.near[index]?;
            Some(row as usize)
        } else {
            self.far_row(label)
        }
    }

    fn far_row(&self, label: u32) -> Option<usize>
        ensures { result ≡ get nat_cmp self.now.far label }
    {
        let row = self.far.get(&label)?;
        Some(*row as usize)
    }
}
