//! The run of which nothing is put, as `measure` and `survey` make it.

ghost use Rattle.std.specs.Prelude.{◌≡◌, MatchResult};
ghost use Rattle.afdx_folder.specs.Files.{KeepsFiles};
ghost use Rattle.afdx_serve.specs.Measures.{IsMeasured};
ghost use Rattle.afdx_serve.specs.Runs.{FailsToGather};

use crate::gathering::get_plan;
use crate::get::open_captures;
use crate::leading::source_failure;
use afdx_arguments::Inputs;
use afdx_count::Counts;
use afdx_folder::Folder;
use afdx_measure::laws::accepted_tables_stay_within_the_load;
use afdx_measure::{Measured, Wanted};
use afdx_messages::Failure;
use afdx_session::measured_from;
use afdx_table::laws::tables_are_well_formed;
use std::alloc::Global;

/// Runs the switch over the captures of a folder, each of which is read once, and returns its counts and what was wanted of it.
///
/// # Errors
///
/// What is met first: `Get` of the table, `Table`, `Load`, `Get` of a capture, `PortCapture`; `Memory` if memory ran out.
///
/// O(files), beside the switch's own work.
pub(crate) fn measured<F: Folder>(
    alloc: Global,
    inputs: &Inputs<'_>,
    wanted: Wanted,
    folder: &mut F,
) -> Result<(Counts<Global>, Measured<'static, Global>), Failure>
    ensures led { MatchResult result
        (λ both. IsMeasured inputs.now (F.files folder.old) both.0 both.1 × (F.failed folder.new ≡ F.failed folder.old))
        (λ f. FailsToGather f inputs.now (F.files folder.old) (F.failed folder.old) (F.failed folder.new)) }
    ensures same { KeepsFiles (F.files folder.old) (F.files folder.new) }
{
    accepted_tables_stay_within_the_load();
    tables_are_well_formed();
    let plan = get_plan(alloc, inputs, folder)?;
    let (names, mut opened) = open_captures(alloc, folder, inputs.input, plan.table())?;
    match measured_from(alloc, plan, wanted, &mut opened) {
        Ok(both) => Ok(both),
        Err(fault) => Err(source_failure(alloc, folder, &names, fault)),
    }
}
