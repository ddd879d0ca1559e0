//! The shapes that are known before the rows of a listing.
ghost use Rattle.std.specs.Prelude.{◌≡◌, ◌↔◌, ℕ, ◌+◌, ◌<◌, [], ◌∷◌, ◌++◌, None, is_some, nat_eq, true, length, replicate, slice_index_or, IsTrue, IfNone, IfSome, IfOk, MatchResult, option_map};
ghost use Rattle.std.specs.List.{list_any};
ghost use Rattle.beam_model.specs.Framed.{may_have, is_bare, frame_effect};
ghost use Rattle.beam_model.specs.Framed as book;
ghost use Rattle.beam_shapes.specs.Forced.{assigned, Does, Leaves, NeverLeaves};
ghost use Rattle.beam_shapes.specs.Shown.{shown, IsShape, IsKnown, IsSmall};
ghost use Rattle.beam_shapes.specs.Trees.{Grows};

use crate::error::FrameCheckError;
use crate::mismatch::{Mismatch, mismatch_of};
use crate::shape::{Shape, joined, left};
use crate::trees::Trees;
use beam_model::instruction::Instruction;
use std::alloc::{AllocError, Global};
use std::marker::Model;

/// For each place the shape that is known there, with the parts of its tags, and places whose shape changed.
pub struct KnownShapes {
    trees: Trees,
    shapes: Vec<Option<Shape>>,
    waiting: Vec<usize>,
}

impl Drop for KnownShapes {
    fn drop(self) {
        let KnownShapes {
            trees: _trees,
            shapes: _shapes,
            waiting: _waiting,
        } = self;
    }
}

impl Model for KnownShapes {
    ghost use Rattle.std.specs.Prelude.{ℕ, map, option_map, slice_index_or, None};
    ghost use Rattle.beam_shapes.specs.Forced.{ShapeState};
    ghost use Rattle.beam_shapes.specs.Shown.{shown, IsKnown};

    ghost Value = { ShapeState };

    ghost view = { λ k. record { parts = k.trees; known = map (option_map (shown k.trees)) k.shapes.items; waiting = k.waiting.items } };

    ghost invariant = { λ k. (at : ℕ) → IsKnown k.trees (slice_index_or k.shapes.items at None) };
}

/// The places of which something is known.
fn known_places(alloc: Global, shapes: &[Option<Shape>]) -> Result<Vec<usize>, AllocError>
    ensures { IfOk result (λ places. (at : ℕ) → list_any (nat_eq at) places.items ≡ is_some (slice_index_or shapes.now at None)) }
{
    let mut places = Vec::new(alloc);
    for place in 0..shapes.len() {
        if shapes[place].is_some() {
            places.push(place)?;
        }
    }
    Ok(places)
}

impl KnownShapes {
    /// No known shape at any of `places` places, with room for `tags` tags.
    pub fn new(alloc: Global, places: usize, tags: usize) -> Result<KnownShapes, AllocError>
        ensures { IfOk result (λ k. (k.known ≡ replicate places None) × (k.waiting ≡ [])) }
    {
        let shapes = vec![in alloc; None; places]?;
        let trees = Trees::new(alloc, tags)?;
        Ok(KnownShapes {
            trees,
            shapes,
            waiting: Vec::new(alloc),
        })
    }

    /// The shape that is known at a place.
    pub fn shape(&self, place: usize) -> Option<Shape>
        ensures shown { option_map (shown self.now.parts) result ≡ slice_index_or self.now.known place None }
        ensures shape { IsKnown self.now.parts result }
    {
        match self.shapes.get(place) {
            Some(shape) => *shape,
            None => None,
        }
    }

    /// Takes a place whose shape changed; a place is given once for each change. None if no place waits.
    pub fn next(&mut self) -> Option<usize>
        ensures known { self.new.known ≡ self.old.known }
        ensures last { IfNone result (self.new.waiting ≡ []) }
        ensures empty { IfNone result (self.old.waiting ≡ []) }
        ensures popped { IfSome result (λ at. self.old.waiting ≡ self.new.waiting ++ at ∷ []) }
        ensures fewer { IfSome result (λ _. length self.new.waiting + 1 ≡ length self.old.waiting) }
    {
        self.waiting.pop()
    }

    /// Lets exactly the places wait of which something is known.
    pub fn wait(&mut self, alloc: Global) -> Result<(), AllocError>
        ensures known { self.new.known ≡ self.old.known }
        ensures waiting { IfOk result (λ _. (at : ℕ) → list_any (nat_eq at) self.new.waiting ≡ is_some (assigned self.new.known at)) }
    {
        self.waiting = known_places(alloc, &self.shapes)?;
        Ok(())
    }

    /// Whether no place waits to be looked at again.
    pub fn is_settled(&self) -> bool
        ensures { IsTrue result ↔ (self.now.waiting ≡ []) }
    {
        self.waiting.is_empty()
    }

    /// The label of the first catch tag of a shape.
    pub fn first_tag(&self, shape: Shape) -> Option<u32>
        requires { IsShape self.now.parts shape }
        ensures { result ≡ book.first_tag (shown self.now.parts shape) }
    {
        shape.first_tag(&self.trees)
    }

    /// Joins a shape with which a place is reached into the place. `FrameMismatch` if no shape is above this one and the known one.
    pub fn come(&mut self, place: usize, shape: Shape) -> Result<(), FrameCheckError>
        requires place { place < length self.old.known }
        requires shape { IsShape self.old.parts shape }
        ensures parts { self.new.parts ≡ self.old.parts }
        ensures come { Does result (λ a. may_have (shown self.old.parts shape) (a place) ≡ true) self.old self.new }
        ensures comes { IfOk result (λ _. may_have (shown self.old.parts shape) (assigned self.new.known place) ≡ true) }
    {
        let before = self.shapes[place];
        let Some(after) = joined(&self.trees, before, shape)? else {
            return Ok(());
        };
        let Ok(()) = self.waiting.push(place) else {
            return Err(FrameCheckError::NoMemory);
        };
        self.shapes[place] = Some(after);
        Ok(())
    }

    /// Joins the shape without y registers into a place at which a function begins. `FrameMismatch` if the place can't have it.
    pub fn begin(&mut self, place: usize) -> Result<(), FrameCheckError>
        requires { place < length self.old.known }
        ensures parts { self.new.parts ≡ self.old.parts }
        ensures begin { Does result (λ a. is_bare (a place) ≡ true) self.old self.new }
    {
        match self.shapes[place] {
            None => {}
            Some(Shape::Bare) => return Ok(()),
            Some(_) => return Err(FrameCheckError::FrameMismatch),
        }
        let Ok(()) = self.waiting.push(place) else {
            return Err(FrameCheckError::NoMemory);
        };
        self.shapes[place] = Some(Shape::Bare);
        Ok(())
    }

    /// The mismatch of a row with a frame of this shape. None where it finds its registers and the frame that it needs.
    pub fn mismatch(
        &self,
        alloc: Global,
        instruction: &Instruction,
        shape: Shape,
    ) -> Result<Option<Mismatch>, AllocError>
        requires { IsShape self.now.parts shape }
    {
        mismatch_of(alloc, &self.trees, instruction, shape)
    }

    /// The shape after a row, from the shape before it. `FrameMismatch` if the row doesn't find its registers or the frame that it needs.
    pub fn left(
        &mut self,
        alloc: Global,
        instruction: &Instruction,
        shape: Shape,
    ) -> Result<Shape, FrameCheckError>
        requires shape { IsShape self.old.parts shape }
        requires making { IsSmall (frame_effect instruction.now) }
        ensures grows { Grows self.old.parts self.new.parts }
        ensures known { self.new.known ≡ self.old.known }
        ensures waiting { self.new.waiting ≡ self.old.waiting }
        ensures shape { IfOk result (λ s. IsShape self.new.parts s) }
        ensures left { MatchResult result
            (λ s. Leaves instruction.now (shown self.old.parts shape) (shown self.new.parts s))
            (λ e. NeverLeaves e instruction.now (shown self.old.parts shape)) }
    {
        left(alloc, &mut self.trees, instruction, shape)
    }
}
