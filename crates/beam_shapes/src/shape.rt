//! Shapes: what is known of the newest frame before a row.
ghost use Rattle.std.specs.Prelude.{◌≡◌, ◌+◌, ◌-◌, ◌<◌, ◌≤◌, ◌∷◌, [], drop, replicate, slice_get, slice_set, nat_eq, IfOk, MatchResult, option_map};
ghost use Rattle.std.specs.Cmp.Lexicographic.{pointwise};
ghost use Rattle.std.specs.List.{list_all};
ghost use Rattle.std.specs.Option.{option_eq};
ghost use Rattle.beam_model.specs.Framed as book;
ghost use Rattle.beam_shapes.specs.Forced.{Joins, Unites, AreApart, Leaves, NeverLeaves};
ghost use Rattle.beam_shapes.specs.Shown.{shown_effect, shown_registers, shown, AreRegisters, IsShape, IsKnown, IsSmall};
ghost use Rattle.beam_shapes.specs.Trees.{Parts, Grows};

use crate::error::FrameCheckError;
use crate::named::{OperandRole, may_name_some, named};
use crate::row::{Effect, effect_of, tag};
use crate::trees::{PLACES, Trees};
use beam_model::instruction::Instruction;
use std::alloc::{AllocError, Global};

/// y registers: their tags stand in a tree, from a place on to its end.
#[derive(Clone, Copy)]
pub struct YRegisters {
    from: u32,
    tags: u32,
}

/// What is known of the newest frame.
#[derive(Clone, Copy)]
pub enum Shape {
    /// It has no y registers.
    Bare,
    /// It has these y registers.
    Sized(YRegisters),
    /// No catch tag stands in it, and nothing else is known.
    Any,
}

impl YRegisters {
    /// `count` registers without tags.
    fn new(count: u32) -> YRegisters
        requires { count ≤ 1024 }
        ensures registers { (p : Parts) → AreRegisters p result }
        ensures shown { (p : Parts) → shown_registers p result ≡ replicate count None }
    {
        YRegisters {
            from: PLACES - count,
            tags: 0,
        }
    }

    fn count(self) -> u32
        requires { self.from ≤ 1024 }
        ensures { result ≡ 1024 - self.from }
    {
        PLACES - self.from
    }

    /// How many there are.
    pub fn size(self) -> u32 {
        PLACES.saturating_sub(self.from)
    }

    fn tag(self, trees: &Trees, number: u32) -> Option<u32>
        requires { self.from + number < 1024 }
        ensures { slice_get (shown_registers trees.now self) number ≡ Some result }
    {
        trees.tag_at(self.tags, self.from + number)
    }

    fn first_tag(self, trees: &Trees) -> Option<u32>
        requires { AreRegisters trees.now self }
        ensures { result ≡ book.first_in (shown_registers trees.now self) }
    {
        trees.first(self.tags)
    }

    fn put(self, trees: &mut Trees, number: u32, tag: Option<u32>) -> Result<YRegisters, AllocError>
        requires { AreRegisters trees.old self }
        ensures grows { Grows trees.old trees.new }
        ensures registers { IfOk result (λ r. AreRegisters trees.new r) }
        ensures put { IfOk result (λ r. shown_registers trees.new r ≡ slice_set (shown_registers trees.old self) number tag) }
    {
        if number >= self.count() {
            return Ok(self);
        }
        let tags = trees.put(self.tags, self.from + number, tag)?;
        Ok(YRegisters {
            from: self.from,
            tags,
        })
    }

    /// The registers without the first `count`.
    fn without(self, trees: &mut Trees, count: u32) -> Result<YRegisters, AllocError>
        requires registers { AreRegisters trees.old self }
        requires count { self.from + count ≤ 1024 }
        ensures grows { Grows trees.old trees.new }
        ensures registers { IfOk result (λ r. AreRegisters trees.new r) }
        ensures shown { IfOk result (λ r. shown_registers trees.new r ≡ drop count (shown_registers trees.old self)) }
    {
        let from = self.from + count;
        let tags = trees.clear(self.tags, from)?;
        Ok(YRegisters { from, tags })
    }

    fn are_same(self, trees: &Trees, others: YRegisters) -> bool
        requires one { AreRegisters trees.now self }
        requires other { AreRegisters trees.now others }
        ensures { result ≡ pointwise (option_eq nat_eq) (shown_registers trees.now self) (shown_registers trees.now others) }
    {
        self.from == others.from && trees.are_same(self.tags, others.tags)
    }
}

impl Shape {
    /// The label of the first catch tag.
    pub fn first_tag(self, trees: &Trees) -> Option<u32>
        requires { IsShape trees.now self }
        ensures { result ≡ book.first_tag (shown trees.now self) }
    {
        match self {
            Shape::Sized(registers) => registers.first_tag(trees),
            _ => None,
        }
    }

    /// Whether a y register is there and holds no catch tag.
    pub fn is_value(self, trees: &Trees, number: u32) -> bool
        requires { IsShape trees.now self }
        ensures { result ≡ book.is_value (shown trees.now self) number }
    {
        match self {
            Shape::Sized(registers) => {
                number < registers.count() && registers.tag(trees, number).is_none()
            }
            _ => false,
        }
    }

    /// Whether a y register is there.
    pub fn is_there(self, trees: &Trees, number: u32) -> bool
        requires { IsShape trees.now self }
        ensures { result ≡ book.is_there (shown trees.now self) number }
    {
        match self {
            Shape::Sized(registers) => number < registers.count(),
            _ => false,
        }
    }

    /// Whether these registers are there and hold no catch tags.
    pub fn are_values(self, trees: &Trees, numbers: &[u32]) -> bool
        requires { IsShape trees.now self }
        ensures { result ≡ list_all (book.is_value (shown trees.now self)) numbers.now }
    {
        numbers.iter().all(|number| self.is_value(trees, *number))
    }

    /// Whether these registers are there.
    pub fn are_there(self, trees: &Trees, numbers: &[u32]) -> bool
        requires { IsShape trees.now self }
        ensures { result ≡ list_all (book.is_there (shown trees.now self)) numbers.now }
    {
        numbers.iter().all(|number| self.is_there(trees, *number))
    }

    /// The shape with a tag, or with none, in one register.
    fn put(self, trees: &mut Trees, number: u32, tag: Option<u32>) -> Result<Shape, AllocError>
        requires { IsShape trees.old self }
        ensures grows { Grows trees.old trees.new }
        ensures shape { IfOk result (λ s. IsShape trees.new s) }
        ensures put { IfOk result (λ s. shown trees.new s ≡ book.put_all tag (number ∷ []) (shown trees.old self)) }
    {
        match self {
            Shape::Sized(registers) => {
                let registers = registers.put(trees, number, tag)?;
                Ok(Shape::Sized(registers))
            }
            other => Ok(other),
        }
    }

    /// The shape with a tag, or with none, in these registers.
    pub fn put_all(
        self,
        trees: &mut Trees,
        numbers: &[u32],
        tag: Option<u32>,
    ) -> Result<Shape, AllocError>
        requires { IsShape trees.old self }
        ensures grows { Grows trees.old trees.new }
        ensures shape { IfOk result (λ s. IsShape trees.new s) }
        ensures put { IfOk result (λ s. shown trees.new s ≡ book.put_all tag numbers.now (shown trees.old self)) }
    {
        let mut shape = self;
        let mut rest = numbers;
        while let Some((number, others)) = rest.split_first() {
            shape = shape.put(trees, *number, tag)?;
            rest = others;
        }
        Ok(shape)
    }

    /// The shape after a row with this effect; None if the row needs another shape.
    pub fn made(self, trees: &mut Trees, effect: Effect) -> Result<Option<Shape>, AllocError>
        requires shape { IsShape trees.old self }
        requires effect { IsSmall (shown_effect effect) }
        ensures grows { Grows trees.old trees.new }
        ensures shape { IfOk result (λ s. IsKnown trees.new s) }
        ensures made { IfOk result (λ s. option_map (shown trees.new) s ≡ book.after_effect (shown_effect effect) (shown trees.old self)) }
    {
        match (effect, self) {
            (Effect::Keeps, shape) => Ok(Some(shape)),
            (Effect::WantsBare, Shape::Bare) => Ok(Some(Shape::Bare)),
            (Effect::Allocates(count), Shape::Bare) => {
                Ok(Some(Shape::Sized(YRegisters::new(count))))
            }
            (Effect::Drops(count), Shape::Sized(registers)) => {
                if registers.count() == count {
                    Ok(Some(Shape::Bare))
                } else {
                    Ok(None)
                }
            }
            (Effect::Trims(first, rest), Shape::Sized(registers)) => {
                let count = registers.count();
                if first <= count && rest == count - first {
                    let registers = registers.without(trees, first)?;
                    Ok(Some(Shape::Sized(registers)))
                } else {
                    Ok(None)
                }
            }
            _ => Ok(None),
        }
    }

    fn is_same(self, trees: &Trees, other: Shape) -> bool
        requires one { IsShape trees.now self }
        requires other { IsShape trees.now other }
        ensures { result ≡ book.same_shape (shown trees.now self) (shown trees.now other) }
    {
        match (self, other) {
            (Shape::Bare, Shape::Bare) => true,
            (Shape::Sized(one), Shape::Sized(other)) => one.are_same(trees, other),
            (Shape::Any, Shape::Any) => true,
            _ => false,
        }
    }

    /// Whether a place that is reached with this shape may have the shape `place`.
    fn may_have(self, trees: &Trees, place: Shape) -> bool
        requires one { IsShape trees.now self }
        requires other { IsShape trees.now place }
        ensures { result ≡ book.may_have (shown trees.now self) (Some (shown trees.now place)) }
    {
        match place {
            Shape::Any => self.first_tag(trees).is_none(),
            _ => self.is_same(trees, place),
        }
    }
}

/// The shape of a place after this one comes to it. `FrameMismatch` if no shape is above both.
pub fn joined(
    trees: &Trees,
    before: Option<Shape>,
    shape: Shape,
) -> Result<Option<Shape>, FrameCheckError>
    requires before { IsKnown trees.now before }
    requires shape { IsShape trees.now shape }
    ensures shape { IfOk result (λ after. IsKnown trees.now after) }
    ensures unites { IfOk result (λ after. Unites (option_map (shown trees.now) after) (option_map (shown trees.now) before) (shown trees.now shape)) }
    ensures joined { MatchResult result
        (λ after. Joins (option_map (shown trees.now) after) (option_map (shown trees.now) before) (shown trees.now shape))
        (λ e. AreApart e (option_map (shown trees.now) before) (shown trees.now shape)) }
{
    let Some(known) = before else {
        return Ok(Some(shape));
    };
    if shape.may_have(trees, known) {
        return Ok(None);
    }
    if known.first_tag(trees).is_some() {
        return Err(FrameCheckError::FrameMismatch);
    }
    if shape.first_tag(trees).is_some() {
        return Err(FrameCheckError::FrameMismatch);
    }
    Ok(Some(Shape::Any))
}

/// The answer of `left` for a row that names no y registers.
#[tactic(auto, using(crate::proofs::Unnamed::leaves_so, crate::proofs::Unnamed::never_tagged, crate::proofs::Unnamed::never_made))]
fn left_unnamed(
    trees: &mut Trees,
    instruction: &Instruction,
    shape: Shape,
) -> Result<Shape, FrameCheckError>
    requires shape { IsShape trees.old shape }
    requires making { IsSmall (book.frame_effect instruction.now) }
    requires reads { book.read_ys instruction.now ≡ [] }
    requires writes { book.written_ys instruction.now ≡ [] }
    ensures grows { Grows trees.old trees.new }
    ensures shape { IfOk result (λ s. IsShape trees.new s) }
    ensures left { MatchResult result
        (λ s. Leaves instruction.now (shown trees.old shape) (shown trees.new s))
        (λ e. NeverLeaves e instruction.now (shown trees.old shape)) }
{
    if tag(instruction).is_some() {
        return Err(FrameCheckError::FrameMismatch);
    }
    match shape.made(trees, effect_of(instruction))? {
        Some(made) => Ok(made),
        None => Err(FrameCheckError::FrameMismatch),
    }
}

/// The shape after a row, from this one. `FrameMismatch` if the row doesn't find its registers or the frame that it needs.
#[tactic(auto, using(crate::proofs::Nothing::none_read, crate::proofs::Nothing::none_written))]
pub fn left(
    alloc: Global,
    trees: &mut Trees,
    instruction: &Instruction,
    shape: Shape,
) -> Result<Shape, FrameCheckError>
    requires shape { IsShape trees.old shape }
    requires making { IsSmall (book.frame_effect instruction.now) }
    ensures grows { Grows trees.old trees.new }
    ensures shape { IfOk result (λ s. IsShape trees.new s) }
    ensures left { MatchResult result
        (λ s. Leaves instruction.now (shown trees.old shape) (shown trees.new s))
        (λ e. NeverLeaves e instruction.now (shown trees.old shape)) }
{
    // Read and written registers are named by the same kinds of operands, so one look serves for both.
    if !may_name_some(OperandRole::Reads, instruction) {
        return left_unnamed(trees, instruction, shape);
    }
    let reads = named(alloc, OperandRole::Reads, instruction)?;
    let writes = named(alloc, OperandRole::Writes, instruction)?;
    let tag = tag(instruction);
    if !shape.are_values(trees, &reads) || !shape.are_there(trees, &writes) {
        return Err(FrameCheckError::FrameMismatch);
    }
    if tag.is_some() && writes.is_empty() {
        return Err(FrameCheckError::FrameMismatch);
    }
    match shape.made(trees, effect_of(instruction))? {
        Some(made) => Ok(made.put_all(trees, &writes, tag)?),
        None => Err(FrameCheckError::FrameMismatch),
    }
}
