//! What a run is made of: its plan.

ghost use Rattle.std.specs.Prelude.{◌≡◌, ℕ, List, false, not, MatchResult};
ghost use Rattle.afdx_load.specs.Accepted.{IsAccepted};
ghost use Rattle.afdx_session.specs.Outcome.{table_in, is_cleared};
ghost use Rattle.afdx_folder.specs.Files.{Shows, KeepsFiles};
ghost use Rattle.afdx_serve.specs.Runs.{inputs_of, FailsToPlan, FailsToGather};
ghost use Rattle.afdx_serve.specs.Inner.Leading.{IsPlanOf, FailsToReadPlan};

use crate::get::get_text;
use afdx_arguments::{Inputs, Paths};
use afdx_folder::Folder;
use afdx_messages::Failure;
use afdx_session::Plan;
use afdx_table::Table;
use std::alloc::Global;

/// Returns what a run is made of, beside the folder that it goes to.
pub(crate) fn inputs_of<'a>(paths: &Paths<'a>) -> Inputs<'a>
    ensures { result ≡ inputs_of paths.now }
{
    Inputs {
        table: paths.table,
        input: paths.input,
        unchecked: paths.unchecked,
    }
}

/// Plans a run over a table, whose load is checked unless the run is unchecked.
fn plan(table: Table, unchecked: bool) -> Result<Plan, Failure>
    ensures { MatchResult result
        (λ plan. (table_in plan ≡ table) × (is_cleared plan ≡ not unchecked) × (unchecked ≡ false → IsAccepted table))
        (λ f. FailsToPlan f unchecked table) }
{
    if unchecked {
        return Ok(Plan::Unchecked(table));
    }
    match afdx_load::check(table) {
        Ok(cleared) => Ok(Plan::Cleared(cleared)),
        Err((_, fault)) => Err(Failure::Load(fault)),
    }
}

/// Plans a run over the table of a text, whose load is checked unless the run is unchecked.
///
/// # Errors
///
/// `Table`, `Load`; `Memory` if memory ran out. O(text).
fn read_plan(alloc: Global, text: &[u8], unchecked: bool) -> Result<Plan, Failure>
    ensures { MatchResult result (λ plan. IsPlanOf text.now unchecked plan) (λ f. FailsToReadPlan f text.now unchecked) }
{
    let table = afdx_table::read(alloc, text)?;
    plan(table, unchecked)
}

/// Gets the table of a run and plans it. The table's text is leaked.
pub(crate) fn get_plan<F: Folder>(
    alloc: Global,
    inputs: &Inputs<'_>,
    folder: &mut F,
) -> Result<Plan, Failure>
    ensures got { MatchResult result
        (λ plan. ((text : List ℕ) × Shows (F.files folder.old) inputs.now.table.now text × IsPlanOf text inputs.now.unchecked plan)
        × (F.failed folder.new ≡ F.failed folder.old))
        (λ f. FailsToGather f inputs.now (F.files folder.old) (F.failed folder.old) (F.failed folder.new)) }
    ensures same { KeepsFiles (F.files folder.old) (F.files folder.new) }
{
    let text = get_text(alloc, folder, inputs.table)?;
    read_plan(alloc, text, inputs.unchecked)
}
