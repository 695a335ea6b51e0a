//! What left a port.

use afdx_port::Sent;
use afdx_wiring::End;

/// A copy, and the port that sent it.
#[derive(Clone, Copy, Debug, PartialEq, Eq)]
pub struct Departure {
    pub from: End,
    pub copy: Sent,
}
