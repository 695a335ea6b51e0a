//! What an account may do with a frame.

/// What a watched account may do with a frame, by what is known of its level.
#[derive(Clone, Copy, Debug, PartialEq, Eq)]
pub enum Outlook {
    /// It passes the frame, whatever its level is.
    Must,
    /// It polices the frame, whatever its level is.
    Never,
    /// It passes the frame at some levels that it may have, and polices it at others.
    Unsure,
}
