//! Tables of texts.

use afdx_load::{Cleared, check};
use afdx_session::Plan;
use afdx_table::{Table, read};
use std::alloc::Global;
use std::test::Fail;

/// Reads the table of a text.
pub(crate) fn table_of(alloc: Global, text: &str) -> Result<Table, Fail> {
    let table = read(alloc, text.as_bytes())?;
    Ok(table)
}

/// Reads the table of a text, and checks it. The check has to accept it.
pub(crate) fn cleared_of(alloc: Global, text: &str) -> Result<Cleared, Fail> {
    let cleared = check(table_of(alloc, text)?)
        .ok()
        .ok_or("an accepted table")?;
    Ok(cleared)
}

/// Makes the plan of such a table.
pub(crate) fn plan_of(alloc: Global, text: &str) -> Result<Plan, Fail> {
    let cleared = cleared_of(alloc, text)?;
    Ok(Plan::Cleared(cleared))
}
