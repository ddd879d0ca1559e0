//! How an instruction counts in the search for the last label.

/// How an instruction counts in the search for the last label and the rows after it.
pub(crate) enum LabelOrRows {
    Label(u32),
    /// One row, or none.
    Rows(usize),
}
