//! The chunks of a module's file but its code chunk.
ghost use Rattle.std.specs.Prelude.{◌≡◌, option_map, IfOk, Ok, Some};
ghost use Rattle.std.specs.Option.{option_copied};
ghost use Rattle.beam_iff.specs.Chunks.{form_of};
ghost use Rattle.beam_model.specs.Form.{form_at};
ghost use Rattle.beam_image.specs.FileForm.{with_code, without_code};

use beam_iff::{Chunks, write_form};
use std::alloc::{AllocError, Global};
use std::marker::Model;

/// Copies of the chunks of a file that are read, without its code chunk. Contracts see the form that they make.
pub struct ChunkCopies {
    atoms: Option<Vec<u8>>,
    imports: Option<Vec<u8>>,
    exports: Option<Vec<u8>>,
    literals: Option<Vec<u8>>,
}

impl Drop for ChunkCopies {
    fn drop(self) {
        let ChunkCopies {
            atoms: _atoms,
            imports: _imports,
            exports: _exports,
            literals: _literals,
        } = self;
    }
}

impl Model for ChunkCopies {
    ghost use Rattle.std.specs.Prelude.{option_map, None};
    ghost use Rattle.std.specs.Coded.{codes};
    ghost use Rattle.beam_model.specs.Form.{Form};

    ghost Value = { Form };

    ghost coded = { Prim.hlevel (codes) };

    ghost view = { λ c. record {
      atoms = option_map (λ v. v.items) c.atoms;
      code = None;
      imports = option_map (λ v. v.items) c.imports;
      exports = option_map (λ v. v.items) c.exports;
      literals = option_map (λ v. v.items) c.literals;
    } };
}

/// A copy of a chunk's content, if the chunk is there.
fn copied(alloc: Global, chunk: Option<&[u8]>) -> Result<Option<Vec<u8>>, AllocError>
    ensures { IfOk result (λ copy. option_map (λ v. v.items) copy ≡ option_copied chunk.entry) }
{
    match chunk {
        Some(content) => Ok(Some(content.to_vec(alloc)?)),
        None => Ok(None),
    }
}

impl ChunkCopies {
    /// Copies of these chunks but the code chunk. It fails only for memory.
    pub fn of(alloc: Global, chunks: &Chunks) -> Result<ChunkCopies, AllocError>
        ensures { IfOk result (λ copies. copies ≡ without_code (form_of chunks.now)) }
    {
        Ok(ChunkCopies {
            atoms: copied(alloc, chunks.atoms)?,
            imports: copied(alloc, chunks.imports)?,
            exports: copied(alloc, chunks.exports)?,
            literals: copied(alloc, chunks.literals)?,
        })
    }

    /// A file of these chunks and a code chunk. It fails for memory, and where the file would have 4 GiB.
    pub fn file(&self, alloc: Global, code: &[u8]) -> Result<Vec<u8>, AllocError>
        ensures { IfOk result (λ file. form_at file.items ≡ Ok (with_code code.now self.now)) }
    {
        let chunks = Chunks {
            atoms: self.atoms.as_deref(),
            code: Some(code),
            imports: self.imports.as_deref(),
            exports: self.exports.as_deref(),
            literals: self.literals.as_deref(),
        };
        match write_form(alloc, &chunks) {
            Ok(file) => Ok(file),
            Err(_) => Err(AllocError),
        }
    }
}
