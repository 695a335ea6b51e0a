//! The number of a port as a text writes it.

ghost use Rattle.std.specs.Prelude.{ℕ, MatchOption};
ghost use Rattle.afdx_recordings.specs.Recordings.{IsPort};

/// The greatest number of a port (profile).
pub(crate) const MAX_PORT: usize = 24;

/// Returns the number of a port that a text writes; none if it writes none. O(text).
pub(crate) fn port_of(text: &str) -> Option<u8>
    ensures { MatchOption result ((port : ℕ) → IsPort text.now port → ⊥) (IsPort text.now) }
{
    let port = text.parse::<u8>().ok()?;
    if port == 0 || MAX_PORT < usize::from(port) {
        return None;
    }
    Some(port)
}
