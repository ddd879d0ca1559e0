//! What a device did.

/// A call of a device that didn't fail.
#[derive(Clone, Copy, Drop)]
pub(crate) enum Note<'a> {
    Read(&'a [u8]),
    Written(&'a [u8]),
}
