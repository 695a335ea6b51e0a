//! Tables that were checked.

ghost use Rattle.std.specs.Prelude.{◌≡◌};
ghost use Rattle.afdx_load.specs.Accepted.{IsAccepted};

use afdx_table::Table;
use std::marker::Model;

/// A table each of whose ports can give what its links ask for. [`check`](crate::check) is the one way to make it.
///
/// Contracts see it as the table; that it is accepted is known of every one.
#[derive(Drop)]
pub struct Cleared {
    pub(crate) table: Table,
}

impl Model for Cleared {
    ghost use Rattle.afdx_table.specs.Content.{Content};
    ghost use Rattle.afdx_load.specs.Accepted.{IsAccepted};

    ghost Value = { Content };

    ghost view = { λ c. c.table };

    ghost invariant = { λ c. IsAccepted c.table };
}

impl Cleared {
    /// Returns the table. O(1).
    pub fn table(&self) -> &Table
        ensures table { result.now ≡ self.now }
        ensures accepted { IsAccepted self.now }
    {
        &self.table
    }

    /// Returns the table; from then on only this call's contract says that it is accepted. O(1).
    pub fn into_table(self) -> Table
        ensures table { result ≡ self }
        ensures accepted { IsAccepted self }
    {
        self.table
    }
}
