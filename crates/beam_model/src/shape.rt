//! How a listing writes an instruction.

/// The form of an instruction in a listing (the compiler's .S files).
#[derive(Clone, Copy, Debug, PartialEq, Eq)]
pub enum Shape {
    /// `{name,operands..}`, and without operands the name alone.
    Plain,
    /// `{line,[]}`, whatever its operand.
    Line,
    /// `{test,name,F,[arguments]}`: its operands are a label and the arguments.
    Test,
    /// `{bif,Name,{f,0},[arguments],D}`: its operands are the native, the arguments and the destination.
    Bif0,
    /// `{bif,Name,F,[arguments],D}`: its operands are a label, the native, the arguments and the destination.
    Bif,
    /// `{gc_bif,Name,F,Live,[arguments],D}`: as `Bif`, with the number of live registers after the label.
    GcBif,
    /// `{raise,[operands]}`.
    Raise,
}
