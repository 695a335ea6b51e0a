//! Bytes that were let go.

ghost use Rattle.std.specs.Prelude.{◌≡◌, ℕ, List, [], ◌++◌};
ghost use Rattle.std.specs.Borrow.{ftrue};

use std::marker::Model;

/// What a reader has let go: proofs read it, and it takes no memory.
#[derive(Drop)]
pub struct Gone {
    pub ghost bytes: { List ℕ },
}

impl Model for Gone {
    ghost also_owns = { λ _. ftrue };
}

impl Gone {
    /// Makes one that holds nothing so far.
    pub fn new() -> Gone
        ensures { result.bytes ≡ [] }
    {
        Gone {}
    }

    /// Returns one that holds these bytes too.
    pub fn and(&self, _more: &[u8]) -> Gone
        ensures { result.bytes ≡ self.now.bytes ++ _more.now }
    {
        Gone {}
    }
}
