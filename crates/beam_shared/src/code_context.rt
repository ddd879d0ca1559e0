//! Code and break spots that processes run over apart from the node.
ghost use Rattle.std.specs.Prelude.{◌≡◌, IfOk};

use beam_codesrv::CodeTable;
use beam_model::place::Place;
use std::alloc::{AllocError, Global};
use std::marker::Model;
use std::sync::Arc;

/// Code and break spots.
struct ContextParts {
    code: CodeTable,
    spots: Vec<Place>,
}

impl Drop for ContextParts {
    fn drop(self) {
        let ContextParts {
            code: _code,
            spots: _spots,
        } = self;
    }
}

impl Model for ContextParts {
    ghost use Rattle.std.specs.Coded.{codes};
    ghost use Rattle.beam_term.specs.Coding.{term_code};
    ghost use Rattle.beam_shared.specs.FinishedSlice.{CodeContext};

    ghost Value = { CodeContext };

    ghost coded = { Prim.hlevel (codes, term_code) };

    ghost view = { λ b. record { code = b.code; spots = b.spots.items } };
}

/// A copy of a node's code and break spots, shared by all that run its processes. It is made again only after a change.
pub(crate) struct CodeContext {
    parts: Arc<ContextParts>,
}

impl Drop for CodeContext {
    fn drop(self) {
        let CodeContext { parts: _parts } = self;
    }
}

impl Model for CodeContext {
    ghost use Rattle.std.specs.Arc.{arc_value};
    ghost use Rattle.std.specs.Coded.{codes};
    ghost use Rattle.beam_term.specs.Coding.{term_code};
    ghost use Rattle.beam_shared.specs.FinishedSlice.{CodeContext as TheContext};

    ghost Value = { TheContext };

    ghost coded = { Prim.hlevel (codes, term_code) };

    ghost view = { λ g. arc_value g.parts };
}

impl CodeContext {
    /// Copies of code and break spots, in time and memory that grow with the numbers of modules and of break spots.
    pub(crate) fn new(
        alloc: Global,
        code: &CodeTable,
        spots: &[Place],
    ) -> Result<CodeContext, AllocError>
        ensures { IfOk result (λ context. context ≡ record { code = code.now; spots = spots.now }) }
    {
        let parts = ContextParts {
            code: code.try_copy()?,
            spots: spots.to_vec(alloc)?,
        };
        Ok(CodeContext {
            parts: Arc::new(alloc, parts)?,
        })
    }

    /// The same copy, shared once more.
    pub(crate) fn share(&self) -> Result<CodeContext, AllocError>
        ensures { IfOk result (λ context. context ≡ self.now) }
    {
        Ok(CodeContext {
            parts: self.parts.clone()?,
        })
    }

    pub(crate) fn code(&self) -> &CodeTable
        ensures { result.now ≡ self.now.code }
    {
        &self.parts.code
    }

    pub(crate) fn spots(&self) -> &[Place]
        ensures { result.now ≡ self.now.spots }
    {
        &self.parts.spots
    }
}
