//! What links ask for at once.

/// What the links of a port ask for at once, in the 2,048,000,000th part of a nanosecond.
#[derive(Clone, Copy, Debug, PartialEq, Eq)]
pub struct Bursts {
    /// All links of the port.
    pub all: u128,
    /// Its high ones.
    pub high: u128,
}
