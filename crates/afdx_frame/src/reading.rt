//! From bytes to a view of their address.

ghost use Rattle.std.specs.Prelude.{◌≤◌, length, SomeIff};

use crate::address::View;

/// Bytes of a destination address (IEEE 802.3).
const ADDRESS_LENGTH: usize = 6;

/// Returns the view of a frame, or none if it has fewer than the six bytes of an address.
///
/// It borrows the bytes and copies none. O(1).
pub fn view(bytes: &[u8]) -> Option<View<'_>>
    ensures { SomeIff result (6 ≤ length bytes.now) bytes.now }
{
    if bytes.len() < ADDRESS_LENGTH {
        return None;
    }
    Some(View::new(bytes))
}
