//! Which parts of a listing its check refuses.

use beam_bif::built_in::built_in_of;
use beam_check::error::CheckError;
use beam_check::limits::{are_limits_met, are_operands_within};
use beam_genop::kinds;
use beam_model::function::Export;
use beam_model::instruction::{Argument, Instruction, Operand};
use beam_model::listing::Listing;
use beam_model::opcode::{Kind, Opcode};
use beam_model::operand_value::{atom_in, number_in};
use beam_shapes::first_mismatch::{FirstMismatch, find_mismatch};
use beam_shapes::mismatch::Mismatch;
use beam_term::Atom;
use std::alloc::{AllocError, Global};

/// The most labels of a listing that is searched.
const MOST_LABELS: u32 = 16_777_216;

/// A part of a listing.
#[derive(Clone, Copy)]
pub enum ListingPart {
    /// Its exports.
    Exports,
    /// The instruction at that position.
    Instruction(usize),
}

/// A part that is refused, and why.
#[derive(Clone, Copy)]
pub struct PartFault {
    pub part: ListingPart,
    pub error: CheckError,
    /// What the instruction wants of the newest frame, and what is there, if it is refused for that.
    pub mismatch: Option<Mismatch>,
}

// A part that is refused for itself, and not for its frame.
fn part_of(part: ListingPart, error: CheckError) -> PartFault {
    PartFault {
        part,
        error,
        mismatch: None,
    }
}

// An instruction that doesn't find the frame that it wants.
fn mismatch_part(first: FirstMismatch) -> PartFault {
    PartFault {
        part: ListingPart::Instruction(first.at),
        error: CheckError::FrameMismatch,
        mismatch: Some(first.mismatch),
    }
}

// Which instructions came before the next one, as far as the next one depends on that.
#[derive(Clone, Copy)]
enum HeadStage<'a> {
    Start,
    FirstLabel,
    Informed(FunctionName<'a>),
    Body,
    BodyLabel,
}

// A function's name and arity.
#[derive(Clone, Copy)]
struct FunctionName<'a> {
    text: &'a str,
    arity: u32,
}

// The function that a head names, and the label after the head.
#[derive(Clone, Copy)]
struct FunctionEntry<'a> {
    name: FunctionName<'a>,
    label: u32,
}

// The labels that are defined: all of a listing, or those before an instruction.
struct DefinedLabels {
    marks: Vec<bool>,
}

impl Drop for DefinedLabels {
    fn drop(self) {
        let DefinedLabels { marks: _marks } = self;
    }
}

impl DefinedLabels {
    fn none(alloc: Global, count: u32) -> Result<DefinedLabels, AllocError> {
        match vec![in alloc; false; count as usize] {
            Ok(marks) => Ok(DefinedLabels { marks }),
            Err(error) => Err(error),
        }
    }

    fn has(&self, label: u32) -> bool {
        matches!(self.marks.get(label as usize), Some(true))
    }

    // Notes that an instruction defines a label, if it does.
    fn note(&mut self, instruction: &Instruction) {
        if let Some(label) = instruction.label()
            && let Some(mark) = self.marks.get_mut(label as usize)
        {
            *mark = true;
        }
    }

    fn note_all(&mut self, instructions: &[Instruction]) {
        for instruction in instructions {
            self.note(instruction);
        }
    }

    // Whether the label that an argument names, if it names one, is defined.
    fn knows(&self, argument: &Argument) -> bool {
        match argument {
            Argument::Label(label) => *label > 0 && self.has(*label),
            _ => true,
        }
    }

    fn knows_operand(&self, kind: Kind, operand: &Operand) -> bool {
        match (kind, operand) {
            (Kind::FailLabel, Operand::One(Argument::Label(0))) => true,
            (_, Operand::One(argument)) => self.knows(argument),
            (_, Operand::Import(_)) => true,
            (_, Operand::List(arguments)) => arguments
                .as_slice()
                .iter()
                .all(|argument| self.knows(argument)),
        }
    }

    fn knows_operands(&self, instruction: &Instruction) -> bool {
        kinds(instruction.opcode)
            .iter()
            .zip(instruction.operands.as_slice())
            .all(|(kind, operand)| self.knows_operand(*kind, operand))
    }
}

fn is_known(kind: Kind, operand: &Operand) -> bool {
    match (kind, operand) {
        (Kind::Native(arity), Operand::Import(import)) => {
            built_in_of(import).is_some() && import.arity == arity
        }
        (Kind::Native(_), _) => false,
        _ => true,
    }
}

fn are_known(instruction: &Instruction) -> bool {
    kinds(instruction.opcode)
        .iter()
        .zip(instruction.operands.as_slice())
        .all(|(kind, operand)| is_known(*kind, operand))
}

// The stage after a head, if it is one of that module.
fn informed<'a>(module: &Atom, operands: &'a [Operand]) -> Option<HeadStage<'a>> {
    let [owner, function, arity] = operands else {
        return None;
    };
    match (atom_in(owner), atom_in(function), number_in(arity)) {
        (Some(owner), Some(function), Some(arity)) if owner == module => {
            Some(HeadStage::Informed(FunctionName {
                text: function.as_str(),
                arity,
            }))
        }
        _ => None,
    }
}

fn next_stage<'a>(
    stage: HeadStage<'a>,
    module: &Atom,
    instruction: &'a Instruction,
) -> Option<HeadStage<'a>> {
    match (stage, instruction.opcode) {
        (HeadStage::Start, Opcode::Label) => Some(HeadStage::FirstLabel),
        (HeadStage::FirstLabel, Opcode::Line) => Some(HeadStage::FirstLabel),
        (HeadStage::FirstLabel | HeadStage::BodyLabel, Opcode::FuncInfo) => {
            informed(module, instruction.operands.as_slice())
        }
        (HeadStage::Informed(_), Opcode::Label) => Some(HeadStage::Body),
        (HeadStage::Body | HeadStage::BodyLabel, Opcode::Label) => Some(HeadStage::BodyLabel),
        (HeadStage::BodyLabel, Opcode::Line) => Some(HeadStage::BodyLabel),
        (HeadStage::Body | HeadStage::BodyLabel, Opcode::FuncInfo | Opcode::IntCodeEnd) => None,
        (HeadStage::Body | HeadStage::BodyLabel, _) => Some(HeadStage::Body),
        _ => None,
    }
}

fn is_same(name: FunctionName<'_>, other: FunctionName<'_>) -> bool {
    name.arity == other.arity && name.text == other.text
}

fn are_twins(export: &Export, other: &Export) -> bool {
    export.arity == other.arity && export.name == other.name
}

// Whether one of the exports before that position exports the same function.
fn is_twice(exports: &[Export], index: usize, export: &Export) -> bool {
    exports
        .iter()
        .enumerate()
        .any(|(at, other)| at < index && are_twins(export, other))
}

// How far a listing was searched, and the parts that were found.
struct ListingScan<'a> {
    listing: &'a Listing,
    defined: DefinedLabels,
    seen: DefinedLabels,
    stage: HeadStage<'a>,
    entries: Vec<FunctionEntry<'a>>,
    parts: Vec<PartFault>,
    lacks_memory: bool,
}

impl Drop for ListingScan<'_> {
    fn drop(self) {
        let ListingScan {
            listing: _listing,
            defined: _defined,
            seen: _seen,
            stage: _stage,
            entries: _entries,
            parts: _parts,
            lacks_memory: _lacks_memory,
        } = self;
    }
}

impl<'a> ListingScan<'a> {
    fn add(&mut self, part_fault: PartFault) {
        if self.parts.push(part_fault).is_err() {
            self.lacks_memory = true;
        }
    }

    fn add_first(&mut self, part_fault: PartFault) {
        if self.parts.insert(0, part_fault).is_err() {
            self.lacks_memory = true;
        }
    }

    fn add_entry(&mut self, name: FunctionName<'a>, label: u32) {
        if self.entries.push(FunctionEntry { name, label }).is_err() {
            self.lacks_memory = true;
        }
    }

    // Whether an instruction defines no label, or one below the count that wasn't defined before.
    fn defines_new(&mut self, instruction: &Instruction) -> bool {
        let is_new = match instruction.label() {
            Some(label) => self.defined.has(label) && !self.seen.has(label),
            None => true,
        };
        self.seen.note(instruction);
        is_new
    }

    // Whether no earlier function has that name. Notes the function, with its label.
    fn names_new(&mut self, name: FunctionName<'a>, label: u32) -> bool {
        let is_new = !self.entries.iter().any(|entry| is_same(name, entry.name));
        self.add_entry(name, label);
        is_new
    }

    // Whether an instruction may come after those before it, and defines no function a second time.
    fn may_stand(&mut self, instruction: &'a Instruction) -> bool {
        let (stage, listing) = (self.stage, self.listing);
        let next = next_stage(stage, &listing.module, instruction);
        self.stage = next.unwrap_or(HeadStage::Body);
        match (stage, next) {
            (HeadStage::Informed(name), Some(_)) => {
                self.names_new(name, instruction.label().unwrap_or(0))
            }
            (_, next) => next.is_some(),
        }
    }

    // Why an instruction is refused, if it is.
    fn fault(&mut self, instruction: &'a Instruction) -> Option<CheckError> {
        let is_new = self.defines_new(instruction);
        let stands = self.may_stand(instruction);
        if !is_new || !self.defined.knows_operands(instruction) {
            Some(CheckError::BadLabel)
        } else if !stands {
            Some(CheckError::BadHead)
        } else if !are_known(instruction) {
            Some(CheckError::UnknownBif)
        } else if !are_operands_within(instruction) {
            Some(CheckError::LimitExceeded)
        } else {
            None
        }
    }

    fn scan_instructions(&mut self) {
        let listing = self.listing;
        for (index, instruction) in listing.instructions.iter().enumerate() {
            if let Some(error) = self.fault(instruction) {
                self.add(part_of(ListingPart::Instruction(index), error));
            }
        }
    }

    fn is_entry(&self, export: &Export) -> bool {
        let name = FunctionName {
            text: export.name.as_str(),
            arity: export.arity,
        };
        self.entries.iter().any(|entry| entry.label == export.label && is_same(name, entry.name))
    }

    fn scan_exports(&mut self) {
        let listing = self.listing;
        let exports = listing.exports.as_slice();
        let are_right = exports.iter().enumerate().all(|(index, export)| self.is_entry(export)
            && !is_twice(exports, index, export));
        if !are_right {
            self.add_first(part_of(ListingPart::Exports, CheckError::BadExport));
        }
    }

    // Where no other part is refused: adds the instruction at which the listing is found not to be framed, if there is one.
    fn scan_frames(&mut self, alloc: Global) {
        if self.parts.is_empty() && are_limits_met(self.listing) {
            match find_mismatch(alloc, self.listing) {
                Ok(Some(first)) => self.add(mismatch_part(first)),
                Ok(None) => {}
                Err(_) => self.lacks_memory = true,
            }
        }
    }

    fn scan(&mut self, alloc: Global) {
        let listing = self.listing;
        self.defined.note_all(&listing.instructions);
        self.scan_instructions();
        self.scan_exports();
        self.scan_frames(alloc);
    }

    fn into_parts(self) -> Result<Vec<PartFault>, AllocError> {
        let ListingScan {
            listing: _listing,
            defined: _defined,
            seen: _seen,
            stage: _stage,
            entries: _entries,
            parts,
            lacks_memory,
        } = self;
        if lacks_memory {
            return Err(AllocError);
        }
        Ok(parts)
    }
}

/// The parts of a listing that its check refuses, each with its first fault: the exports, then the instructions in their order. If none is
/// refused, the instruction at which the listing is found not to be framed, with the frame that it wants and the one there. A listing that
/// counts more than 16,777,216 labels isn't searched.
pub fn part_faults(alloc: Global, listing: &Listing) -> Result<Vec<PartFault>, AllocError> {
    if listing.label_count > MOST_LABELS {
        return Ok(Vec::new(alloc));
    }
    let defined = DefinedLabels::none(alloc, listing.label_count)?;
    let seen = DefinedLabels::none(alloc, listing.label_count)?;
    let mut scan = ListingScan {
        listing,
        defined,
        seen,
        stage: HeadStage::Start,
        entries: Vec::new(alloc),
        parts: Vec::new(alloc),
        lacks_memory: false,
    };
    scan.scan(alloc);
    scan.into_parts()
}
