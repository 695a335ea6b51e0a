//! The command `run`.

ghost use Rattle.std.specs.Prelude.{MatchResult};
ghost use Rattle.afdx_serve.specs.Serving.{world, Runs, FailsToRunAll};

use crate::gathering::{get_plan, inputs_of};
use crate::leading::lead;
use crate::names::port_names;
use crate::outputs::put_all;
use afdx_arguments::{Paths, RunOptions};
use afdx_folder::{Folder, write_bytes};
use afdx_messages::Failure;
use std::alloc::Global;
use std::io::Write;

/// Runs the switch over the captures of a folder, puts what they lead to into another, and writes the report.
///
/// The table is got first and, unless the run is unchecked, its load checked. Then a new file is begun for each output, and the captures
/// of its ports are opened, by rising number, and read once, in pieces, while the switch runs. If one cannot be read or has a fault,
/// the others are read on to their ends, so that the failure is the first in this order. What they lead to goes to the new files; then
/// these are put in the same order, and then the report is written, with the verdict's line if it is asked for. All names and the
/// report's text are made before the first put. After a put that failed the files before it are there, and no later one is put. New files
/// that are not put are let go.
///
/// # Errors
///
/// What is met first: `Get` of the table, `Table`, `Load`, `Get` of a capture, `PortCapture`, `Put`, `Write`; `Memory`
/// if memory ran out; after all was done `Found`, if there is one of what the run is to fail on.
///
/// O(files), beside the switch's own work.
pub(crate) fn run<O: Write, F: Folder>(
    alloc: Global,
    paths: &Paths<'_>,
    options: &RunOptions,
    out: &mut O,
    folder: &mut F,
) -> Result<(), Failure>
    ensures { MatchResult result
        (λ _. Runs paths.now options.now
        (world (O.contents out.old) (F.files folder.old) (F.failed folder.old)) (world (O.contents out.new) (F.files folder.new) (F.failed folder.new)))
        (λ f. FailsToRunAll f paths.now options.now
        (world (O.contents out.old) (F.files folder.old) (F.failed folder.old)) (world (O.contents out.new) (F.files folder.new) (F.failed folder.new))) }
{
    let plan = get_plan(alloc, &inputs_of(paths), folder)?;
    let names = port_names(alloc, paths.output, plan.table().ports())?;
    let (files, report) = lead(alloc, folder, paths, plan, options, &names)?;
    put_all(alloc, folder, &names, files)?;
    write_bytes(out, report.text.as_bytes())?;
    if report.is_found {
        return Err(Failure::Found);
    }
    Ok(())
}
