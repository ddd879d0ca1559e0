//! Trees whose places hold the label of a catch tag or nothing. They share their parts.
ghost use Rattle.std.specs.Prelude.{◌≡◌, ◌+◌, ◌-◌, ◌^◌, ◌<◌, ◌≤◌, Option, None, set, get_or, [], length, drop, replicate, ◌++◌, ◌↔◌, IfOk, OnErr, IsTrue};
ghost use Rattle.beam_model.specs.Framed.{first_in};
ghost use Rattle.beam_shapes.specs.Trees.{part_of, halves_of, tags_of, IsTree, Grows, IsInterned};

use indexmap::IndexSet;
use std::alloc::{AllocError, Global};
use std::marker::Model;

/// Places of a tree.
pub const PLACES: u32 = 1024;

/// How many times a tree can be halved.
pub const HEIGHT: u32 = 10;

/// The halves of a tree, by their numbers.
#[derive(Clone, Copy, PartialEq, Eq, Hash, Debug)]
pub struct Halves {
    pub left: u32,
    pub right: u32,
}

/// Parts of trees, each once. A tree is the number of a part, from 1 on: at its last height of a label, above of halves. 0 is the tree
/// with nothing at any place. So two trees of a height have the same number if they hold the same.
pub struct Trees {
    labels: IndexSet<u32>,
    halves: IndexSet<Halves>,
}

impl Drop for Trees {
    fn drop(self) {
        let Trees {
            labels: _labels,
            halves: _halves,
        } = self;
    }
}

impl Model for Trees {
    ghost use Rattle.beam_shapes.specs.Trees.{Parts, IsTidy};

    ghost Value = { Parts };

    ghost view = { λ t. record { labels = t.labels.keys; halves = t.halves.keys } };

    ghost invariant = { λ t. IsTidy (record { labels = t.labels.keys; halves = t.halves.keys }) };
}

/// The number of a label, which is added if it is new. `AllocError` if memory is refused or 2^32 - 1 labels are there.
fn intern_label(labels: &mut IndexSet<u32>, label: u32) -> Result<u32, AllocError>
    ensures interned { IfOk result (λ n. IsInterned label labels.old.keys labels.new.keys n) }
    ensures err { OnErr result (labels.new.keys ≡ labels.old.keys) }
{
    if labels.len() >= u32::MAX as usize {
        return Err(AllocError);
    }
    match labels.insert_full(label) {
        Ok((at, _)) => Ok(at as u32 + 1),
        Err(_refused) => Err(AllocError),
    }
}

/// The number of halves, which are added if they are new. `AllocError` if memory is refused or 2^32 - 1 halves are there.
fn intern_halves(halves: &mut IndexSet<Halves>, both: Halves) -> Result<u32, AllocError>
    ensures interned { IfOk result (λ n. IsInterned both halves.old.keys halves.new.keys n) }
    ensures err { OnErr result (halves.new.keys ≡ halves.old.keys) }
{
    if halves.len() >= u32::MAX as usize {
        return Err(AllocError);
    }
    match halves.insert_full(both) {
        Ok((at, _)) => Ok(at as u32 + 1),
        Err(_refused) => Err(AllocError),
    }
}

impl Trees {
    /// No parts, with room for the parts of `tags` tags.
    pub fn new(alloc: Global, tags: usize) -> Result<Trees, AllocError>
        ensures { IfOk result (λ t. (t.labels ≡ []) × (t.halves ≡ [])) }
    {
        Ok(Trees {
            labels: IndexSet::with_capacity(alloc, tags)?,
            halves: IndexSet::with_capacity(alloc, tags.saturating_mul(HEIGHT as usize))?,
        })
    }

    /// The tag at the only place of a tree of height 0.
    fn tag(&self, tree: u32) -> Option<u32>
        ensures { result ≡ part_of self.now.labels tree }
    {
        if tree == 0 {
            return None;
        }
        self.labels.get_index((tree - 1) as usize).copied()
    }

    fn halves(&self, tree: u32) -> Halves
        ensures { result ≡ halves_of self.now.halves tree }
    {
        let nothing = Halves { left: 0, right: 0 };
        if tree == 0 {
            return nothing;
        }
        match self.halves.get_index((tree - 1) as usize) {
            Some(both) => *both,
            None => nothing,
        }
    }

    /// The tree of two halves.
    fn join(&mut self, left: u32, right: u32) -> Result<u32, AllocError>
        ensures grows { Grows self.old self.new }
        ensures tree { IfOk result (λ t. (halves_of self.new.halves t ≡ record { left = left; right = right }) × (t ≤ length self.new.halves)) }
    {
        if left == 0 && right == 0 {
            return Ok(0);
        }
        let tree = intern_halves(&mut self.halves, Halves { left, right })?;
        Ok(tree)
    }

    /// The tree of one place.
    fn leaf(&mut self, tag: Option<u32>) -> Result<u32, AllocError>
        ensures grows { Grows self.old self.new }
        ensures tree { IfOk result (λ t. (part_of self.new.labels t ≡ tag) × (t ≤ length self.new.labels)) }
    {
        match tag {
            Some(label) => {
                let tree = intern_label(&mut self.labels, label)?;
                Ok(tree)
            }
            None => Ok(0),
        }
    }

    fn tag_below(&self, tree: u32, height: u32, at: u32) -> Option<u32>
        requires { (at < 2 ^ height) × (height ≤ 10) }
        ensures { result ≡ get_or (tags_of self.now height tree) at None }
    {
        if height == 0 {
            return self.tag(tree);
        }
        let both = self.halves(tree);
        let half = 2u32.pow(height - 1);
        if at < half {
            self.tag_below(both.left, height - 1, at)
        } else {
            self.tag_below(both.right, height - 1, at - half)
        }
    }

    /// The tag at a place.
    pub fn tag_at(&self, tree: u32, at: u32) -> Option<u32>
        requires { at < 1024 }
        ensures { result ≡ get_or (tags_of self.now HEIGHT tree) at None }
    {
        self.tag_below(tree, HEIGHT, at)
    }

    fn put_below(
        &mut self,
        tree: u32,
        height: u32,
        at: u32,
        tag: Option<u32>,
    ) -> Result<u32, AllocError>
        requires at { (at < 2 ^ height) × (height ≤ 10) }
        requires tree { IsTree self.old height tree }
        ensures grows { Grows self.old self.new }
        ensures tree { IfOk result (λ t. IsTree self.new height t) }
        ensures put { IfOk result (λ t. tags_of self.new height t ≡ set (tags_of self.old height tree) at tag) }
    {
        if height == 0 {
            let place = self.leaf(tag)?;
            return Ok(place);
        }
        let both = self.halves(tree);
        let half = 2u32.pow(height - 1);
        if at < half {
            let left = self.put_below(both.left, height - 1, at, tag)?;
            let tree = self.join(left, both.right)?;
            Ok(tree)
        } else {
            let right = self.put_below(both.right, height - 1, at - half, tag)?;
            let tree = self.join(both.left, right)?;
            Ok(tree)
        }
    }

    /// The tree with a tag at a place, or with none.
    pub fn put(&mut self, tree: u32, at: u32, tag: Option<u32>) -> Result<u32, AllocError>
        requires at { at < 1024 }
        requires tree { IsTree self.old HEIGHT tree }
        ensures grows { Grows self.old self.new }
        ensures tree { IfOk result (λ t. IsTree self.new HEIGHT t) }
        ensures put { IfOk result (λ t. tags_of self.new HEIGHT t ≡ set (tags_of self.old HEIGHT tree) at tag) }
    {
        self.put_below(tree, HEIGHT, at, tag)
    }

    fn clear_below(&mut self, tree: u32, height: u32, count: u32) -> Result<u32, AllocError>
        requires count { (count ≤ 2 ^ height) × (height ≤ 10) }
        requires tree { IsTree self.old height tree }
        ensures grows { Grows self.old self.new }
        ensures tree { IfOk result (λ t. IsTree self.new height t) }
        ensures cleared { IfOk result (λ t. tags_of self.new height t ≡ replicate count None ++ drop count (tags_of self.old height tree)) }
    {
        if count == 0 {
            return Ok(tree);
        }
        if height == 0 {
            return Ok(0);
        }
        let both = self.halves(tree);
        let half = 2u32.pow(height - 1);
        if count < half {
            let left = self.clear_below(both.left, height - 1, count)?;
            let tree = self.join(left, both.right)?;
            Ok(tree)
        } else {
            let right = self.clear_below(both.right, height - 1, count - half)?;
            let tree = self.join(0, right)?;
            Ok(tree)
        }
    }

    /// The tree with nothing at the first places.
    pub fn clear(&mut self, tree: u32, count: u32) -> Result<u32, AllocError>
        requires count { count ≤ 1024 }
        requires tree { IsTree self.old HEIGHT tree }
        ensures grows { Grows self.old self.new }
        ensures tree { IfOk result (λ t. IsTree self.new HEIGHT t) }
        ensures cleared { IfOk result (λ t. tags_of self.new HEIGHT t ≡ replicate count None ++ drop count (tags_of self.old HEIGHT tree)) }
    {
        self.clear_below(tree, HEIGHT, count)
    }

    fn first_below(&self, tree: u32, height: u32) -> Option<u32>
        requires tree { IsTree self.now height tree }
        ensures { result ≡ first_in (tags_of self.now height tree) }
    {
        let _lawful = &self.labels;
        if tree == 0 {
            return None;
        }
        if height == 0 {
            return self.tag(tree);
        }
        let both = self.halves(tree);
        if both.left == 0 {
            self.first_below(both.right, height - 1)
        } else {
            self.first_below(both.left, height - 1)
        }
    }

    /// The first tag.
    pub fn first(&self, tree: u32) -> Option<u32>
        requires tree { IsTree self.now HEIGHT tree }
        ensures { result ≡ first_in (tags_of self.now HEIGHT tree) }
    {
        self.first_below(tree, HEIGHT)
    }

    /// Whether two trees hold equal tags at all places.
    pub fn are_same(&self, one: u32, other: u32) -> bool
        requires one { IsTree self.now HEIGHT one }
        requires other { IsTree self.now HEIGHT other }
        ensures { IsTrue result ↔ (tags_of self.now HEIGHT one ≡ tags_of self.now HEIGHT other) }
    {
        let _lawful = &self.labels;
        one == other
    }
}
