//! The form of what is written.

/// The form in which things are written.
#[derive(Clone, Copy, Debug, PartialEq, Eq)]
pub enum Form {
    /// A line of words and numbers for each.
    Lines,
    /// Comma-separated values: a heading, and a row for each.
    Csv,
}
