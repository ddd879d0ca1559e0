//! The forms of the External Term Format.

/// The forms of the format, named as there.
#[derive(Clone, Copy, Debug, PartialEq, Eq)]
pub enum Form {
    SmallInteger,
    Integer,
    SmallBig,
    Nil,
    String,
    List,
    SmallTuple,
    LargeTuple,
    SmallAtom,
    LongAtom,
    Pid,
    Reference,
    /// A form of the format that the profile leaves out.
    LeftOut,
    /// No form of the format.
    Unknown,
}
