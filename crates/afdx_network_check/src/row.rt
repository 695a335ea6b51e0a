//! Rows of tables.

ghost use Rattle.std.specs.Prelude.{◌≤◌};

use afdx_table::LinkRow;

/// A link's row in the table of a switch.
///
/// Contracts see it by `row_of` as a record of the place of the switch and of the link.
#[derive(Clone, Copy)]
pub struct Row<'a> {
    /// The place of the switch in file order, from 0.
    pub switch: usize,
    /// The row.
    pub link: &'a LinkRow,
    ghost jitter: { link.now.jitter ≤ 10000000 },
}
