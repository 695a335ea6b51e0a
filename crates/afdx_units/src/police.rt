//! Kinds of policing.

/// How a virtual link is policed (ARINC 664 Part 7 has both kinds).
#[derive(Clone, Copy, Debug, PartialEq, Eq)]
pub enum Police {
    /// By bytes: a frame costs its size.
    Byte,
    /// By frames: each frame costs the same.
    Frame,
}
