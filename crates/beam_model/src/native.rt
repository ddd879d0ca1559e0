//! The natives of module `erlang`.

/// A type that a term is tested for.
#[derive(Clone, Copy, Debug, PartialEq, Eq)]
pub enum TypeTest {
    Integer,
    Float,
    Number,
    Atom,
    Pid,
    Reference,
    Port,
    Nil,
    Binary,
    List,
    NonemptyList,
    Tuple,
    Function,
    Boolean,
    Map,
}

/// A comparison of two terms. The exact and the plain ones agree, since all numbers are integers.
#[derive(Clone, Copy, Debug, PartialEq, Eq)]
pub enum Comparison {
    Equal,
    NotEqual,
    Less,
    LessOrEqual,
    Greater,
    GreaterOrEqual,
}

/// A function of two integers.
#[derive(Clone, Copy, Debug, PartialEq, Eq)]
pub enum Arithmetic {
    Add,
    Subtract,
    Multiply,
    Divide,
    Remainder,
    BitAnd,
    BitOr,
    BitXor,
    ShiftLeft,
    ShiftRight,
}

/// A native of no argument.
#[derive(Clone, Copy, Debug, PartialEq, Eq)]
pub enum Nullary {
    OwnPid,
    Node,
}

/// A native of one argument.
#[derive(Clone, Copy, Debug, PartialEq, Eq)]
pub enum Unary {
    Negate,
    BitNot,
    Abs,
    Not,
    IsOfType(TypeTest),
    Head,
    Tail,
    Length,
    TupleSize,
    Error,
    Exit,
    Throw,
    TupleToList,
    ListToTuple,
    AtomToList,
    IntegerToList,
}

/// A native of two arguments.
#[derive(Clone, Copy, Debug, PartialEq, Eq)]
pub enum Binary {
    Compute(Arithmetic),
    Compare(Comparison),
    Maximum,
    Minimum,
    And,
    Or,
    Xor,
    Element,
    Error,
    Append,
}

/// A native of three arguments.
#[derive(Clone, Copy, Debug, PartialEq, Eq)]
pub enum Ternary {
    Raise,
    SetElement,
}

/// A native, by the number of its arguments.
#[derive(Clone, Copy, Debug, PartialEq, Eq)]
pub enum Native {
    Nullary(Nullary),
    Unary(Unary),
    Binary(Binary),
    Ternary(Ternary),
}

/// A native that asks something of the node, or changes it.
#[derive(Clone, Copy, Debug, PartialEq, Eq)]
pub enum NodeNative {
    Spawn,
    Register,
    Unregister,
    Whereis,
    IsProcessAlive,
    /// `exit` of a process and a reason.
    Exit,
    /// `send`, and `!`.
    Send,
    MakeRef,
    /// `monitor` of a process, by its pid.
    Monitor,
}

/// A native that changes its process, and asks nothing of the node.
#[derive(Clone, Copy, Debug, PartialEq, Eq)]
pub enum ProcessNative {
    /// `demonitor` of a reference, with options or without.
    Demonitor,
}
