//! The destination address of a frame, which names its virtual link.

ghost use Rattle.std.specs.Prelude.{◌≡◌, ◌≤◌, length};
ghost use Rattle.afdx_frame.specs.Address.{constant_of, link_of};

use byteorder::{BigEndian, ByteOrder};
use std::marker::Model;

/// A frame's bytes, at least the six of its destination address.
///
/// Contracts see it as the bytes that it borrows.
#[derive(Debug, Drop)]
pub struct View<'a> {
    bytes: &'a [u8],
}

impl<'a> Model for View<'a> {
    ghost use Rattle.std.specs.Prelude.{ℕ, List, ◌≤◌, length};

    ghost Value = { List ℕ };

    ghost view = { λ v. v.bytes.now };

    ghost invariant = { λ v. 6 ≤ length v.bytes.now };
}

impl<'a> View<'a> {
    /// Makes the view of a frame of at least six bytes.
    pub(crate) fn new(bytes: &'a [u8]) -> View<'a>
        requires { 6 ≤ length bytes.now }
        ensures { result ≡ bytes.now }
    {
        View { bytes }
    }

    /// Returns the constant field: bytes 0 to 3, which all links of a network share (ARINC 664 Part 7).
    pub fn constant(&self) -> [u8; 4]
        ensures { result ≡ constant_of self.now }
    {
        [self.bytes[0], self.bytes[1], self.bytes[2], self.bytes[3]]
    }

    /// Returns the number of the virtual link: bytes 4 and 5, big-endian (ARINC 664 Part 7).
    pub fn link(&self) -> u16
        ensures { result ≡ link_of self.now }
    {
        BigEndian::read_u16(&self.bytes[4..])
    }
}
