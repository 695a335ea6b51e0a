//! What the files of a run lead to: new files for the outputs, and a report.

ghost use Rattle.std.specs.Prelude.{◌≡◌, List, ℕ, length, map, string_bytes, Option, IfOk, IfErr, MatchResult};
ghost use Rattle.afdx_count.specs.Tally.{Tally};
ghost use Rattle.afdx_session.specs.Texts.{Text};
ghost use Rattle.afdx_table.specs.Content.{Content};
ghost use Rattle.afdx_session.specs.Outcome.{table_in};
ghost use Rattle.afdx_session.specs.Sources.{AreRead, IsSourceFault};
ghost use Rattle.afdx_session.specs.Written.{IsWritten};
ghost use Rattle.afdx_folder.specs.Files.{Files, Shows, KeepsFiles};
ghost use Rattle.afdx_serve.specs.Runs.{inputs_of, port_names, HasCaptures, FailsToGather};
ghost use Rattle.afdx_serve.specs.Inner.Leading.{IsPlanOf, IsLed, AreOpenedPorts, FailsToLeadFrom};
ghost use Rattle.afdx_serve.specs.Inner.Reports.{IsReportOf};

use crate::get::{open_captures, unread_failure};
use crate::outputs::{abandon_all, begin_all};
use crate::reports::{Report, report_of};
use afdx_arguments::{Paths, RunOptions};
use afdx_folder::{Folder, NewFile};
use afdx_messages::Failure;
use afdx_session::laws::accepted_runs_isolate;
use afdx_session::{Plan, SourceFault, run_from};
use afdx_table::laws::tables_are_well_formed;
use std::alloc::Global;
use std::io::Read;

/// Runs the switch over the captures that readers give: appends the outputs to these files, and returns the report.
fn report_from<R: Read, N: NewFile>(
    alloc: Global,
    plan: Plan,
    options: &RunOptions,
    readers: &mut [R],
    files: &mut [N],
) -> Result<Report, SourceFault>
    requires readers { length readers.old ≡ length (table_in plan).ports }
    requires files { length files.old ≡ length (table_in plan).ports }
    ensures ok { IfOk result (λ report. (counts : Tally) × (texts : List Text) × AreRead R.remaining readers.old texts
        × IsWritten N.contents (table_in plan) texts files.old files.new counts × IsReportOf options.now counts report) }
    ensures err { IfErr result (λ fault. IsSourceFault R.remaining (table_in plan) readers.old fault) }
{
    let counts = run_from(alloc, plan, readers, files)?;
    match report_of(alloc, &counts, options) {
        Ok(report) => Ok(report),
        Err(_) => Err(SourceFault::Memory),
    }
}

/// Returns the failure for a fault of captures that were opened under these names, those of a table's ports.
pub(crate) fn source_failure<F: Folder>(
    alloc: Global,
    folder: &mut F,
    names: &[String],
    fault: SourceFault,
) -> Failure
    requires { (files : Option Files) × (path : List ℕ) × (t : Content) × (readers : List F.Opened)
        × AreOpenedPorts F.Opened.remaining files path t (map string_bytes names.now) readers × IsSourceFault F.Opened.remaining t readers fault }
    ensures failed { (files : Option Files) (path : List ℕ) (t : Content) (readers : List F.Opened)
        → AreOpenedPorts F.Opened.remaining files path t (map string_bytes names.now) readers → IsSourceFault F.Opened.remaining t readers fault
        → FailsToLeadFrom result files path t (F.failed folder.old) (F.failed folder.new) }
    ensures same { KeepsFiles (F.files folder.old) (F.files folder.new) }
{
    match fault {
        SourceFault::Memory => Failure::Memory,
        SourceFault::Read(place) => unread_failure(alloc, folder, &names[place]),
        SourceFault::Capture(port, why) => Failure::PortCapture(port, why),
    }
}

/// Runs the switch over the captures of the table's ports in a folder, each of which is opened and read once: appends the outputs to these
/// files, and returns the report.
fn report_of_folder<F: Folder>(
    alloc: Global,
    folder: &mut F,
    path: &str,
    plan: Plan,
    options: &RunOptions,
    files: &mut [F::New],
) -> Result<Report, Failure>
    requires { length files.old ≡ length (table_in plan).ports }
    ensures led { MatchResult result
        (λ report. ((counts : Tally) × (texts : List Text) × HasCaptures (F.files folder.old) path.now (table_in plan) texts
        × IsWritten F.New.contents (table_in plan) texts files.old files.new counts × IsReportOf options.now counts report)
        × (F.failed folder.new ≡ F.failed folder.old))
        (λ f. FailsToLeadFrom f (F.files folder.old) path.now (table_in plan) (F.failed folder.old) (F.failed folder.new)) }
    ensures same { KeepsFiles (F.files folder.old) (F.files folder.new) }
{
    let (names, mut opened) = open_captures(alloc, folder, path, plan.table())?;
    match report_from(alloc, plan, options, &mut opened, files) {
        Ok(report) => Ok(report),
        Err(fault) => Err(source_failure(alloc, folder, &names, fault)),
    }
}

/// Makes the new files of a run of this plan, to be put under these names, and returns them with the report, which has the verdict's line if
/// it is asked for. After an error no new file is left.
///
/// The new files are begun before a capture is opened, so that a system that lets too few files be open says so before anything is read.
///
/// # Errors
///
/// What is met first: `Get` of a capture that is not opened; then `Get` of one that cannot be read, `PortCapture`, each of the lowest
/// port; `Memory` if memory ran out.
///
/// O(captures), beside the switch's own work. Each capture is read once.
pub(crate) fn lead<F: Folder>(
    alloc: Global,
    folder: &mut F,
    paths: &Paths<'_>,
    plan: Plan,
    options: &RunOptions,
    names: &[String],
) -> Result<(Vec<F::New>, Report), Failure>
    requires plan { (text : List ℕ) × IsPlanOf text paths.now.unchecked plan }
    requires names { map string_bytes names.now ≡ port_names paths.now.output.now (table_in plan) }
    ensures led { (first : Option Files) (text : List ℕ) → KeepsFiles first (F.files folder.old) → Shows first paths.now.table.now text
        → IsPlanOf text paths.now.unchecked plan → MatchResult result
        (λ both. ((counts : Tally) × IsLed F.New.contents paths.now first both.0.items (map string_bytes names.now) counts × IsReportOf options.now counts both.1)
        × (F.failed folder.new ≡ F.failed folder.old))
        (λ f. FailsToGather f (inputs_of paths.now) first (F.failed folder.old) (F.failed folder.new)) }
    ensures count { IfOk result (λ both. length both.0.items ≡ length names.now) }
    ensures same { KeepsFiles (F.files folder.old) (F.files folder.new) }
{
    accepted_runs_isolate();
    tables_are_well_formed();
    let mut files = begin_all(alloc, folder, names)?;
    match report_of_folder(alloc, folder, paths.input, plan, options, &mut files) {
        Ok(report) => Ok((files, report)),
        Err(failure) => {
            abandon_all(folder, files.into_iter());
            Err(failure)
        }
    }
}
