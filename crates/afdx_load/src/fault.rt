//! What a check refuses.

use thiserror::Error;

/// The rules that a port's load keeps (profile).
#[derive(Clone, Copy, Debug, PartialEq, Eq)]
pub enum Rule {
    /// L1: the links ask for no more than the line.
    Rate,
    /// L2: the buffer holds what may wait and be on the line at once.
    Buffer,
    /// L3: the bound of the high frames is within the greatest delay.
    HighDelay,
    /// L4: the bound of the low frames is within the greatest delay.
    LowDelay,
}

/// A rule that a port's load breaks, what is needed and what there is.
///
/// Of `Rate` both are in parts of the line, of which it has 2,048,000,000. Of `Buffer` they are the line times of what
/// may wait and of the buffer, in the 2,048,000,000th part of a nanosecond. Of the two delays they are in nanoseconds.
///
/// It is printed as the name of its rule, with the port, the need and the limit: `Buffer, port 2, need 9, limit 8`.
#[derive(Clone, Copy, Debug, PartialEq, Eq, Error)]
#[error("{rule:?}, port {port}, need {need}, limit {limit}")]
pub struct LoadFault {
    /// The number of the port, from 1 to 24.
    pub port: u8,
    /// The rule that is broken.
    pub rule: Rule,
    /// What the links ask for.
    pub need: u128,
    /// What the port can give; it is less.
    pub limit: u128,
}
