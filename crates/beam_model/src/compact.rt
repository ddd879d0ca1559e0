//! Operands of BEAM code as a file spells them: atoms and literals are numbers of tables.

use std::marker::Model;

/// The kind of an operand, in the low three bits of its first byte.
#[derive(Clone, Copy, Debug, PartialEq, Eq)]
pub enum CompactTag {
    Number,
    Integer,
    Atom,
    X,
    Y,
    Label,
    Character,
    Extended,
}

/// An operand that is no list. Atom 0 has no spelling of its own, since its bytes spell `Nil`.
#[derive(Clone, Copy, Debug, PartialEq, Eq)]
pub enum Compact {
    Number(u32),
    /// From -2^59 to 2^59 - 1.
    Integer(i64),
    Nil,
    Atom(u32),
    X(u32),
    Y(u32),
    Label(u32),
    Literal(u32),
}

/// The members of a list operand, none of them a list.
#[derive(Debug, Drop)]
pub struct CompactList {
    members: Vec<Compact>,
}

impl Model for CompactList {
    ghost use Rattle.std.specs.Prelude.{List};
    ghost use Rattle.beam_model.specs.declared.compact.Compact.{Compact};

    ghost Value = { List Compact };

    ghost view = { λ l. l.members.items };
}

impl CompactList {
    ghost use Rattle.std.specs.Prelude.{◌≡◌};

    /// The list of these members.
    pub fn new(members: Vec<Compact>) -> CompactList
        ensures { result ≡ members.items }
    {
        CompactList { members }
    }

    /// The members, in their order.
    pub fn members(&self) -> &[Compact]
        ensures { result.now ≡ self.now }
    {
        self.members.as_slice()
    }
}

/// An operand.
#[derive(Debug, Drop)]
pub enum CompactOperand {
    One(Compact),
    List(CompactList),
}
