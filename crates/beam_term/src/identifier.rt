// Source: External Term Format, NEW_PID_EXT and NEWER_REFERENCE_EXT.
use crate::atom::Atom;
use std::marker::Model;

/// The identity of a process: the node that made it, two counts of 32 bits and the node's creation.
#[derive(Clone, Debug, Drop)]
pub struct Pid {
    pub node: Atom,
    pub id: u32,
    pub serial: u32,
    pub creation: u32,
}

/// A reference: a node, its creation, and one to five words of 32 bits.
#[derive(Debug, Drop)]
pub struct Reference {
    node: Atom,
    creation: u32,
    words: Vec<u32>,
}

impl Model for Reference {
    ghost use Rattle.beam_term.specs.Reference.{ReferenceValue, AreReferenceWords};

    ghost Value = { ReferenceValue };

    ghost view = { λ r. record { node = r.node; creation = r.creation; words = r.words.items } };

    ghost invariant = { λ r. AreReferenceWords r.words.items };
}

impl Reference {
    ghost use Rattle.std.specs.Prelude.{◌≡◌, ◌<◌, ◌≤◌, ◌⊎◌, length, MatchOption, vec_len};
    ghost use Rattle.beam_term.specs.Reference.{AreReferenceWords};

    /// The reference of these words, first word first; None for another count than one to five.
    pub fn new(node: Atom, creation: u32, words: Vec<u32>) -> Option<Reference>
        ensures { MatchOption result ((vec_len words < 1) ⊎ (5 < vec_len words))
            (λ r. r ≡ record { node = node; creation = creation; words = words.items }) }
    {
        if words.is_empty() || words.len() > 5 {
            return None;
        }
        Some(Reference {
            node,
            creation,
            words,
        })
    }

    /// The node that made it.
    pub fn node(&self) -> &Atom
        ensures { result.now ≡ self.now.node }
    {
        &self.node
    }

    /// Which start of the node made it.
    pub fn creation(&self) -> u32
        ensures { result ≡ self.now.creation }
    {
        self.creation
    }

    /// Its words, first word first.
    pub fn words(&self) -> &[u32]
        ensures value { result.now ≡ self.now.words }
        ensures lawful { AreReferenceWords self.now.words }
    {
        &self.words
    }
}
