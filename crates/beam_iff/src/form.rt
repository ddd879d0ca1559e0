pub(crate) const ATOMS: &[u8] = b"AtU8";

pub(crate) const CODE: &[u8] = b"Code";

pub(crate) const IMPORTS: &[u8] = b"ImpT";

pub(crate) const EXPORTS: &[u8] = b"ExpT";

pub(crate) const LITERALS: &[u8] = b"LitT";

/// The contents of the chunks that are read, as slices of the file. Each may be absent.
#[derive(Clone, Copy)]
pub struct Chunks<'a> {
    /// `AtU8`, the atoms.
    pub atoms: Option<&'a [u8]>,
    /// `Code`, the instructions.
    pub code: Option<&'a [u8]>,
    /// `ImpT`, the imported functions.
    pub imports: Option<&'a [u8]>,
    /// `ExpT`, the exported functions.
    pub exports: Option<&'a [u8]>,
    /// `LitT`, the literals.
    pub literals: Option<&'a [u8]>,
}
