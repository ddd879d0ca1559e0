//! The Code chunk of a BEAM file, kept by its bytes.

ghost use Rattle.std.specs.Prelude.{◌≡◌, ◌≢◌, true, ℕ, ◌<◌, ◌≤◌, ◌+◌, ◌*◌, ◌/◌, ◌^◌, ◌∷◌, drop, length, map, IfOk, IsSome};
ghost use Rattle.beam_term.specs.TermValue.{atom_term};
ghost use Rattle.beam_model.specs.CodeForm.{IsInstruction};
ghost use Rattle.beam_model.specs.CodeChunk.{code_of};
ghost use Rattle.beam_model.specs.Compact.{atom_or_nil, HasSmall as IsSmallOperand};
ghost use Rattle.beam_model.specs.Listing.{label_of};
ghost use Rattle.beam_model.specs.Opcodes.{kinds_of};
ghost use Rattle.beam_code.specs.Bytes.{instructions_in, start_of, end_of, raw_in, spelled_in, AreLabels, AreStarts};
ghost use Rattle.beam_code.specs.Faults.{Gives};
ghost use Rattle.beam_code.specs.Operands.{argument_of, HasSmall, meant_in, argument_at, index_at, IsFront};
ghost use Rattle.beam_code.specs.ReadChunk.{parts_of, tables_of};

use crate::error::CodeError;
use crate::instruction::{ChunkLayout, standing};
use crate::operands::{ArgumentRef, OperandReader};
use crate::read::{CodeChunk, code_chunk};
use crate::share::{atom_terms, shared_imports};
use beam_genop::by_number;
use beam_model::compact::Compact;
use beam_model::function::Import;
use beam_model::instruction::Instruction;
use beam_model::opcode::Opcode;
use beam_operand::read_single;
use beam_term::{Atom, Term};
use std::alloc::{AllocError, Global};
use std::marker::Model;

/// The bytes of a Code chunk, the atoms, imports and literals that they speak of by index, and where each instruction begins. An
/// instruction is known by its position: the first is 0, and int_code_end isn't counted. Positions of bytes count the chunk's.
pub struct CodeBytes {
    atoms: Vec<Atom>,
    /// The atoms as terms, to lend.
    atom_terms: Vec<Term>,
    imports: Vec<Import>,
    literals: Vec<Term>,
    code: Vec<u8>,
    places: ChunkLayout,
}

impl Drop for CodeBytes {
    fn drop(self) {
        let CodeBytes {
            atoms: _atoms,
            atom_terms: _atom_terms,
            imports: _imports,
            literals: _literals,
            code: _code,
            places: _places,
        } = self;
    }
}

impl Model for CodeBytes {
    ghost use Rattle.std.specs.Prelude.{◌≡◌, map};
    ghost use Rattle.std.specs.Coded.{codes};
    ghost use Rattle.beam_term.specs.Coding.{term_code};
    ghost use Rattle.beam_term.specs.TermValue.{atom_term};
    ghost use Rattle.beam_code.specs.Bytes.{CodeBytes as TheBytes, AreStarts, AreLabels};
    ghost use Rattle.beam_code.specs.ReadChunk.{tables_of};
    ghost use Rattle.beam_code.specs.ChunkLayout.{chunk_with};

    ghost Value = { TheBytes };

    ghost coded = { Prim.hlevel (codes, term_code) };

    ghost view = { λ c. chunk_with (tables_of c.atoms.items c.imports.items c.literals.items) c.code.items c.places };

    ghost invariant = { λ c. let chunk = chunk_with (tables_of c.atoms.items c.imports.items c.literals.items) c.code.items c.places in
        AreStarts chunk × AreLabels chunk c.places.labels.items × (c.atom_terms.items ≡ map (λ text. atom_term text) c.atoms.items) };
}

/// The first byte of a register with its type (tag z, 5).
const TYPED: u8 = 87;

/// The value that one byte spells: bits 7 to 4.
#[inline(always)]
fn one_byte(first: u8) -> u32
    ensures { result ≡ first / 16 }
{
    first as u32 / 16
}

/// The value that two bytes spell: bits 7 to 5 of the first on top of the second.
#[inline(always)]
fn two_bytes(first: u8, second: u8) -> u32
    ensures { result ≡ first / 32 * 256 + second }
{
    (first / 32) as u32 * 256 + second as u32
}

/// An instruction as it stands in its chunk.
#[derive(Drop)]
pub struct Instr<'a> {
    bytes: &'a CodeBytes,
    at: usize,
}

impl<'a> Model for Instr<'a> {
    ghost use Rattle.std.specs.Coded.{codes};
    ghost use Rattle.beam_term.specs.Coding.{term_code};
    ghost use Rattle.beam_code.specs.Bytes.{Spelled, spelled_in};

    ghost Value = { Spelled };

    ghost coded = { Prim.hlevel (codes, term_code) };

    ghost view = { λ i. spelled_in i.bytes.now i.at };
}

impl CodeBytes {
    /// Reads a Code chunk once, and gives its bytes to keep and what `read_code` answers. The refusals are those of `read_code`. It takes
    /// memory for both answers: the bytes are copied, and the atoms, imports and literals are shared.
    pub fn read(
        alloc: Global,
        code: &[u8],
        atoms: &[Atom],
        imports: &[Import],
        literals: &[Term],
    ) -> Result<(CodeBytes, CodeChunk), CodeError>
        ensures exact { Gives (λ r. parts_of r.1) result (code_of atoms.now imports.now literals.now code.now) }
        ensures bytes { IfOk result (λ r. (r.0.code ≡ code.now) × (r.0.tables ≡ tables_of atoms.now imports.now literals.now)) }
        ensures instructions { IfOk result (λ r. instructions_in r.0 ≡ r.1.instructions.items) }
    {
        let (chunk, mut places) = code_chunk(alloc, code, atoms, imports, literals)?;
        // These vectors grew as the starts and labels were found.
        places.starts.shrink_to_fit();
        places.labels.shrink_to_fit();
        let bytes = CodeBytes {
            atoms: atoms.to_vec(alloc)?,
            atom_terms: atom_terms(alloc, atoms)?,
            imports: shared_imports(alloc, imports)?,
            literals: literals.to_vec(alloc)?,
            code: code.to_vec(alloc)?,
            places,
        };
        Ok((bytes, chunk))
    }

    /// The bytes of the chunk. In O(1), without memory.
    pub fn chunk(&self) -> &[u8]
        ensures { result.now ≡ self.now.code }
    {
        &self.code
    }

    /// The table of atoms, by index from 0. In O(1).
    #[inline(always)]
    pub fn atoms(&self) -> &[Atom]
        ensures { result.now ≡ self.now.tables.atoms }
    {
        &self.atoms
    }

    /// The table of atoms as terms, by index from 0. In O(1).
    #[inline(always)]
    pub fn atom_terms(&self) -> &[Term]
        ensures { result.now ≡ map (λ text. atom_term text) self.now.tables.atoms }
    {
        &self.atom_terms
    }

    /// The table of imports, by index from 0. In O(1).
    pub fn imports(&self) -> &[Import]
        ensures { result.now ≡ self.now.tables.imports }
    {
        &self.imports
    }

    /// How many instructions there are, int_code_end left out. In O(1).
    pub fn len(&self) -> usize
        ensures { result ≡ length (instructions_in self.now) }
    {
        self.places.starts.len()
    }

    /// The labels in the order of their numbers, each with the byte after its label instruction: of several instructions of one number
    /// the first. In O(1), without memory.
    pub fn labels(&self) -> &[(u32, u32)]
        ensures labels { AreLabels self.now result.now }
        ensures starts { AreStarts self.now }
    {
        &self.places.labels
    }

    /// The instruction of a position, int_code_end after the last. In O(1), without memory.
    #[inline(always)]
    pub fn fetch(&self, at: usize) -> Instr<'_>
        ensures found { result ≡ spelled_in self.now at }
        // Its bytes spell it.
        ensures spells { at < length (instructions_in self.now) → IsInstruction self.now.tables result.instruction result.raw }
    {
        // Reading a field makes the type's invariant known.
        let _ = &self.places;
        Instr { bytes: self, at }
    }

    /// Where the instruction of a position begins.
    #[inline(always)]
    fn start(&self, at: usize) -> usize
        ensures value { result ≡ start_of self.now at }
        ensures fits { result < 2 ^ 32 }
    {
        let starts = &self.places.starts;
        if at < starts.len() {
            starts.get(at) as usize
        } else {
            self.places.end as usize
        }
    }

    /// Where the instruction of a position below `len` begins: any but the last `int_code_end`.
    #[inline(always)]
    fn start_within(&self, at: usize) -> usize
        requires { at < length (instructions_in self.now) }
        ensures value { result ≡ start_of self.now at }
        ensures fits { result < 2 ^ 32 }
    {
        self.places.starts.get(at) as usize
    }

    /// Where the instruction of a position ends.
    fn end(&self, at: usize) -> usize
        ensures { result ≡ end_of self.now at }
    {
        if at < self.places.starts.len() {
            self.start(at + 1)
        } else {
            self.places.end as usize + 1
        }
    }

    #[tactic(auto, unfolding(crate::specs::Bytes::raw_in))]
    fn raw(&self, at: usize) -> &[u8]
        ensures { result.now ≡ raw_in self.now at }
    {
        &self.code[self.start(at)..self.end(at)]
    }

    #[inline(always)]
    fn opcode(&self, at: usize) -> Opcode
        ensures { result ≡ (spelled_in self.now at).instruction.opcode }
    {
        by_number(self.code[self.start(at)]).unwrap()
    }

    #[inline(always)]
    fn operands(&self, at: usize, opcode: Opcode) -> OperandReader<'_>
        requires { opcode ≡ (spelled_in self.now at).instruction.opcode }
        ensures tables { result.tables ≡ self.now.tables }
        ensures kinds { result.kinds ≡ kinds_of opcode }
        ensures operands { opcode ≢ Opcode.Line → result.operands ≡ (spelled_in self.now at).instruction.operands }
    {
        // Reading a field makes the type's invariant known.
        let _ = &self.places;
        OperandReader {
            bytes: self,
            opcode,
            count: 0,
            at: self.start(at) + 1,
        }
    }

    /// A reader of the operands of the instruction of a position, which has this opcode, one after another and in place. In O(1),
    /// without memory.
    #[inline(always)]
    pub fn operands_at(&self, at: usize, opcode: Opcode) -> OperandReader<'_>
        requires within { at < length (instructions_in self.now) }
        requires opcode { opcode ≡ (spelled_in self.now at).instruction.opcode }
        ensures tables { result.tables ≡ self.now.tables }
        ensures kinds { result.kinds ≡ kinds_of opcode }
        // A line's operand differs: a listing has 0.
        ensures operands { opcode ≢ Opcode.Line → result.operands ≡ (spelled_in self.now at).instruction.operands }
    {
        // Reading a field makes the type's invariant known.
        let _ = &self.places;
        OperandReader {
            bytes: self,
            opcode,
            count: 0,
            at: self.start_within(at) + 1,
        }
    }

    fn instruction(&self, at: usize) -> Result<Instruction, AllocError>
        ensures { IfOk result (λ i. i ≡ (spelled_in self.now at).instruction) }
    {
        let alloc = *self.code.allocator();
        let start = self.start(at);
        match standing(
            alloc,
            &self.atoms,
            &self.imports,
            &self.literals,
            &self.code,
            start,
        ) {
            Ok((instruction, _next)) => Ok(instruction),
            Err(_) => Err(AllocError),
        }
    }
}

/// Bytes and operands where they stand.
impl CodeBytes {
    /// The byte at a position.
    #[inline(always)]
    fn byte(&self, at: usize) -> u8
        requires { at < length self.now.code }
        ensures there { drop at self.now.code ≡ result ∷ drop (at + 1) self.now.code }
        ensures room { at + 1 < 2 ^ 64 }
    {
        self.code[at]
    }

    /// The bytes from a position on.
    fn rest(&self, at: usize) -> &[u8]
        requires { at ≤ length self.now.code }
        ensures rest { result.now ≡ drop at self.now.code }
        ensures room { length self.now.code < 2 ^ 64 }
    {
        &self.code[at..]
    }

    /// The byte that spells the operand at a byte, if that is a register or an integer below 16, and the byte after the operand. A
    /// register with its type is spelled in three bytes, of which this is the second.
    #[inline(always)]
    fn front(&self, at: usize) -> (u8, usize)
        requires { IsSome (argument_at self.now at) }
        ensures { IsFront self.now at result.0 result.1 }
    {
        let first = self.byte(at);
        if first == TYPED {
            return self.typed_front(at);
        }
        (first, at + 1)
    }

    /// `front` of a register with its type: the byte that spells the register, and the byte after the type's index.
    #[inline(always)]
    fn typed_front(&self, at: usize) -> (u8, usize)
        requires { IsSome (argument_at self.now at) }
        ensures { IsFront self.now at result.0 result.1 }
    {
        match self.rest(at) {
            [first, register, index, ..] if *first == TYPED && *index % 16 == 0 => {
                let _type_index = one_byte(*index);
                let _number = one_byte(*register);
                (*register, at + 3)
            }
            _ => (TYPED, at),
        }
    }

    /// The operand at a byte, which is neither a list nor an import, and the byte after it. Fastest for an integer below 16 and a
    /// register.
    #[inline(always)]
    pub(crate) fn argument(&self, at: usize) -> (ArgumentRef<'_>, usize)
        requires { IsSome (argument_at self.now at) }
        ensures is { argument_at self.now at ≡ Some (argument_of result.0, result.1) }
        ensures small { HasSmall result.0 }
    {
        let (byte, next) = self.front(at);
        let number = one_byte(byte);
        match byte as u32 % 16 {
            1 => (ArgumentRef::Integer(number as i64), next),
            3 => (ArgumentRef::X(number), next),
            4 => (ArgumentRef::Y(number), next),
            _ => self.other_argument(at),
        }
    }

    /// The operand at a byte, and the byte after it, as `argument`. Fastest for a label.
    #[inline(always)]
    pub(crate) fn label_argument(&self, at: usize) -> (ArgumentRef<'_>, usize)
        requires { IsSome (argument_at self.now at) }
        ensures is { argument_at self.now at ≡ Some (argument_of result.0, result.1) }
        ensures small { HasSmall result.0 }
    {
        let first = self.byte(at);
        if first % 16 == 5 {
            return (ArgumentRef::Label((first / 16) as u32), at + 1);
        }
        self.wide_label(at)
    }

    /// The operand at a byte, and the byte after it, as `argument`. Fastest for a label from 16 to 2,047, spelled in two bytes.
    #[inline(always)]
    fn wide_label(&self, at: usize) -> (ArgumentRef<'_>, usize)
        requires { IsSome (argument_at self.now at) }
        ensures is { argument_at self.now at ≡ Some (argument_of result.0, result.1) }
        ensures small { HasSmall result.0 }
    {
        match self.rest(at) {
            [first, second, ..] if *first % 32 == 13 => (
                ArgumentRef::Label(two_bytes(*first, *second)),
                at + 2,
            ),
            _ => self.other_argument(at),
        }
    }

    /// The operand at a byte, and the byte after it, as `argument`. Fastest for a number below 16, spelled in one byte.
    #[inline(always)]
    pub(crate) fn number_argument(&self, at: usize) -> (ArgumentRef<'_>, usize)
        requires { IsSome (argument_at self.now at) }
        ensures is { argument_at self.now at ≡ Some (argument_of result.0, result.1) }
        ensures small { HasSmall result.0 }
    {
        let first = self.byte(at);
        if first % 16 == 0 {
            return (ArgumentRef::Number((first / 16) as u32), at + 1);
        }
        self.other_argument(at)
    }

    /// The operand at a byte, and the byte after it, as `argument`. Fastest for one byte and then two.
    #[inline(never)]
    fn other_argument(&self, at: usize) -> (ArgumentRef<'_>, usize)
        requires { IsSome (argument_at self.now at) }
        ensures is { argument_at self.now at ≡ Some (argument_of result.0, result.1) }
        ensures small { HasSmall result.0 }
    {
        let first = self.byte(at);
        let number = (first / 16) as u32;
        match first % 16 {
            0 => (ArgumentRef::Number(number), at + 1),
            2 => (self.atom(number), at + 1),
            5 => (ArgumentRef::Label(number), at + 1),
            _ => self.wide_argument(at),
        }
    }

    /// The operand at a byte, and the byte after it, as `argument`. Fastest for two bytes.
    #[inline(always)]
    fn wide_argument(&self, at: usize) -> (ArgumentRef<'_>, usize)
        requires { IsSome (argument_at self.now at) }
        ensures is { argument_at self.now at ≡ Some (argument_of result.0, result.1) }
        ensures small { HasSmall result.0 }
    {
        let [first, second, ..] = self.rest(at) else {
            return self.long_argument(at);
        };
        let number = two_bytes(*first, *second);
        match *first % 32 {
            8 => (ArgumentRef::Number(number), at + 2),
            9 => (ArgumentRef::Integer(number as i64), at + 2),
            10 => (self.atom(number), at + 2),
            11 => (ArgumentRef::X(number), at + 2),
            12 => (ArgumentRef::Y(number), at + 2),
            13 => (ArgumentRef::Label(number), at + 2),
            _ => self.long_argument(at),
        }
    }

    /// The operand at a byte, and the byte after it, in any spelling.
    #[inline(never)]
    fn long_argument(&self, at: usize) -> (ArgumentRef<'_>, usize)
        requires { IsSome (argument_at self.now at) }
        ensures is { argument_at self.now at ≡ Some (argument_of result.0, result.1) }
        ensures small { HasSmall result.0 }
    {
        let bytes = self.rest(at);
        match read_single(bytes) {
            Ok((operand, rest)) => (self.lent(operand), at + (bytes.len() - rest.len())),
            Err(_) => unreachable!(),
        }
    }

    /// The meaning of an operand, lent from the tables.
    fn lent(&self, operand: Compact) -> ArgumentRef<'_>
        requires meant { IsSome (meant_in self.now operand) }
        requires small { IsSmallOperand operand }
        ensures is { meant_in self.now operand ≡ Some (argument_of result) }
        ensures small { HasSmall result }
    {
        match operand {
            Compact::Number(number) => ArgumentRef::Number(number),
            Compact::Integer(integer) => ArgumentRef::Integer(integer),
            Compact::Nil => ArgumentRef::Nil,
            Compact::Atom(number) => self.atom(number),
            Compact::X(number) => ArgumentRef::X(number),
            Compact::Y(number) => ArgumentRef::Y(number),
            Compact::Label(number) => ArgumentRef::Label(number),
            Compact::Literal(index) => ArgumentRef::Term(&self.literals[index as usize]),
        }
    }

    /// Nil for 0, and else the atom of a number, counted from 1.
    #[inline(always)]
    fn atom(&self, number: u32) -> ArgumentRef<'_>
        requires { IsSome (meant_in self.now (atom_or_nil number)) }
        ensures is { meant_in self.now (atom_or_nil number) ≡ Some (argument_of result) }
        ensures small { HasSmall result }
    {
        if number == 0 {
            return ArgumentRef::Nil;
        }
        ArgumentRef::Term(&self.atom_terms[number as usize - 1])
    }

    /// The index of the import at a byte, and the byte after it.
    #[inline(always)]
    pub(crate) fn import(&self, at: usize) -> (usize, usize)
        requires { IsSome (index_at self.now at) }
        ensures { index_at self.now at ≡ Some (result.0, result.1) }
    {
        let first = self.byte(at);
        if first % 16 == 0 {
            return ((first / 16) as usize, at + 1);
        }
        self.long_import(at)
    }

    /// The index of the import at a byte, in whichever way it is spelled.
    #[inline(never)]
    fn long_import(&self, at: usize) -> (usize, usize)
        requires { IsSome (index_at self.now at) }
        ensures { index_at self.now at ≡ Some (result.0, result.1) }
    {
        let bytes = self.rest(at);
        match read_single(bytes) {
            Ok((operand, rest)) => (import_index(operand), at + (bytes.len() - rest.len())),
            Err(_) => unreachable!(),
        }
    }
}

/// The index that an operand under the kind of imports is.
fn import_index(operand: Compact) -> usize
    requires { (n : ℕ) × (operand ≡ Compact.Number n) }
    ensures { operand ≡ Compact.Number result }
{
    match operand {
        Compact::Number(index) => index as usize,
        _ => unreachable!(),
    }
}

impl<'a> Instr<'a> {
    /// The bytes of the chunk that spell it. In O(1), without memory.
    pub fn raw(&self) -> &'a [u8]
        ensures { result.now ≡ self.now.raw }
    {
        let bytes = self.bytes;
        bytes.raw(self.at)
    }

    /// Its opcode. In O(1), without memory.
    #[inline(always)]
    pub fn opcode(&self) -> Opcode
        ensures { result ≡ self.now.instruction.opcode }
    {
        let bytes = self.bytes;
        bytes.opcode(self.at)
    }

    /// The number of a label instruction. In O(1), without memory.
    #[inline(always)]
    pub fn label(&self) -> Option<u32>
        ensures { result ≡ label_of self.now.instruction }
    {
        if self.opcode() != Opcode::Label {
            return None;
        }
        match self.operands().argument() {
            ArgumentRef::Number(number) => Some(number),
            _ => None,
        }
    }

    /// Its operands, to be read one after another where they stand. In O(1), without memory.
    #[inline(always)]
    pub fn operands(&self) -> OperandReader<'a>
        ensures tables { result.tables ≡ self.now.tables }
        ensures kinds { result.kinds ≡ kinds_of self.now.instruction.opcode }
        // A line's operand differs: a listing has 0.
        ensures operands { self.now.instruction.opcode ≢ Opcode.Line → result.operands ≡ self.now.instruction.operands }
    {
        self.operands_of(self.opcode())
    }

    /// A reader of its operands, as `operands`, where its opcode is known: that isn't read again.
    #[inline(always)]
    pub fn operands_of(&self, opcode: Opcode) -> OperandReader<'a>
        requires { opcode ≡ self.now.instruction.opcode }
        ensures tables { result.tables ≡ self.now.tables }
        ensures kinds { result.kinds ≡ kinds_of opcode }
        ensures operands { opcode ≢ Opcode.Line → result.operands ≡ self.now.instruction.operands }
    {
        let bytes = self.bytes;
        bytes.operands(self.at, opcode)
    }

    /// The instruction with its operands, read anew. It takes memory for the operands, and fails only for want of it.
    pub fn read(&self) -> Result<Instruction, AllocError>
        ensures { IfOk result (λ i. i ≡ self.now.instruction) }
    {
        let bytes = self.bytes;
        bytes.instruction(self.at)
    }
}
