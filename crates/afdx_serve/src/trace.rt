//! The command `trace`.

ghost use Rattle.std.specs.Prelude.{◌≡◌, ◌+◌, ◌≤◌, ℕ, List, [], ◌∷◌, ◌++◌, length, map, Option, IfOk, MatchResult, string_bytes};
ghost use Rattle.afdx_core.specs.State.{State};
ghost use Rattle.afdx_session.specs.Outcome.{table_in, is_cleared};
ghost use Rattle.afdx_folder.specs.Files.{Files, Shows, KeepsFiles, settled_after};
ghost use Rattle.afdx_serve.specs.Runs.{inputs_of, FailsToGather};
ghost use Rattle.afdx_serve.specs.Traces.{trace_names, TracesTo, trace_texts, PutsTrace, FailsToTrace};
ghost use Rattle.afdx_serve.specs.Inner.Leading.{IsPlanOf, FailsToLeadFrom};
ghost use Rattle.afdx_serve.specs.Inner.Outputs.{HaveBytes};
ghost use Rattle.afdx_serve.specs.Inner.Telling.{IsTold, joined};

use crate::gathering::{get_plan, inputs_of};
use crate::get::open_captures;
use crate::leading::source_failure;
use crate::names::name_in;
use crate::outputs::{abandon_all, begin_all, put_all};
use afdx_arguments::{Paths, TraceOptions};
use afdx_folder::{Folder, NewFile};
use afdx_messages::Failure;
use afdx_session::Plan;
use afdx_trace::{Selection, departures_heading};
use afdx_trace_run::trace_from;
use std::alloc::{AllocError, Global};

/// What is added to the name of a folder for the two files.
const ARRIVALS: &str = "/arrivals.csv";

const DEPARTURES: &str = "/departures.csv";

/// Selects the lines that a trace's options ask for.
fn selection_of(options: &TraceOptions) -> Selection<'_>
    ensures links { result.links.now ≡ options.now.links.items }
    ensures relative { result.relative ≡ options.now.relative }
{
    Selection {
        links: &options.links,
        relative: options.relative,
    }
}

/// Returns the names of the two files in a folder.
pub(crate) fn names_in(alloc: Global, folder: &str) -> Result<Vec<String>, AllocError>
    ensures { IfOk result (λ names. map string_bytes names.items ≡ trace_names folder.now) }
{
    let mut names = Vec::with_capacity(alloc, 2)?;
    names.push_reserved(name_in(alloc, folder, ARRIVALS)?);
    names.push_reserved(name_in(alloc, folder, DEPARTURES)?);
    Ok(names)
}

/// Returns the names of the new files that are begun: the two files, and the second once more for each of so many ports.
fn names_to_begin(alloc: Global, folder: &str, ports: usize) -> Result<Vec<String>, AllocError>
    ensures { IfOk result (λ names. length names.items ≡ ports + 2) }
{
    let mut names = names_in(alloc, folder)?;
    for _part in 0..ports {
        names.push(name_in(alloc, folder, DEPARTURES)?)?;
    }
    Ok(names)
}

/// Appends what is told of the captures of a folder to these files: the lines of arrivals to the first, the heading of the copies to the second
/// once the run is over, and the lines of each port to one of the others. Each capture is opened and read once.
fn tell<F: Folder>(
    alloc: Global,
    folder: &mut F,
    path: &str,
    plan: Plan,
    selection: &Selection<'_>,
    files: &mut [F::New],
) -> Result<(), Failure>
    requires { length files.old ≡ length (table_in plan).ports + 2 }
    ensures led { MatchResult result
        (λ _. IsTold F.New.contents (F.files folder.old) path.now (is_cleared plan) (table_in plan) selection.now files.old files.new × (F.failed folder.new ≡ F.failed folder.old))
        (λ f. FailsToLeadFrom f (F.files folder.old) path.now (table_in plan) (F.failed folder.old) (F.failed folder.new)) }
    ensures same { KeepsFiles (F.files folder.old) (F.files folder.new) }
{
    let (names, mut opened) = open_captures(alloc, folder, path, plan.table())?;
    let (both, parts) = files.split_at_mut(2);
    match trace_from(alloc, plan, selection, &mut opened, &mut both[0], parts) {
        Ok(()) => Ok(both[1].append(departures_heading().as_bytes())?),
        Err(fault) => Err(source_failure(alloc, folder, &names, fault)),
    }
}

/// Joins all of these new files after the second one to it, and returns the first two. After an error none is left.
fn join_all<F: Folder>(
    alloc: Global,
    folder: &mut F,
    files: Vec<F::New>,
) -> Result<Vec<F::New>, AllocError>
    requires { 2 ≤ length files.items }
    ensures count { IfOk result (λ both. length both.items ≡ 2) }
    ensures joined { IfOk result (λ both. (first : Option Files) (arrivals departures : List ℕ) (parts : List (List ℕ)) → length parts + 2 ≡ length files.items
        → HaveBytes F.New.contents first files.items (arrivals ∷ departures ∷ parts)
        → HaveBytes F.New.contents first both.items (arrivals ∷ (departures ++ joined parts) ∷ [])) }
    ensures same { KeepsFiles (F.files folder.old) (F.files folder.new) }
    ensures failed { F.failed folder.new ≡ F.failed folder.old }
{
    let mut files = files.into_iter();
    let Ok(mut both) = Vec::with_capacity(alloc, 2) else {
        abandon_all(folder, files);
        return Err(AllocError);
    };
    both.push_reserved(files.next().unwrap());
    both.push_reserved(files.next().unwrap());
    while let Some(part) = files.next() {
        if folder.join(&mut both[1], part).is_err() {
            abandon_all(folder, files);
            abandon_all(folder, both.into_iter());
            return Err(AllocError);
        }
    }
    Ok(both)
}

/// Makes the two new files that the files of a run lead to. After an error no new file is left.
fn traced<F: Folder>(
    alloc: Global,
    folder: &mut F,
    paths: &Paths<'_>,
    plan: Plan,
    selection: &Selection<'_>,
) -> Result<Vec<F::New>, Failure>
    requires { (text : List ℕ) × IsPlanOf text paths.now.unchecked plan }
    ensures led { (first : Option Files) (text : List ℕ) → KeepsFiles first (F.files folder.old) → Shows first paths.now.table.now text
        → IsPlanOf text paths.now.unchecked plan → MatchResult result
        (λ both. ((s : State) × TracesTo paths.now first s × HaveBytes F.New.contents first both.items (trace_texts selection.now s.run)) × (F.failed folder.new ≡ F.failed folder.old))
        (λ f. FailsToGather f (inputs_of paths.now) first (F.failed folder.old) (F.failed folder.new)) }
    ensures count { IfOk result (λ both. length both.items ≡ 2) }
    ensures same { KeepsFiles (F.files folder.old) (F.files folder.new) }
{
    let names = names_to_begin(alloc, paths.output, plan.table().ports().len())?;
    let mut files = begin_all(alloc, folder, &names)?;
    match tell(alloc, folder, paths.input, plan, selection, &mut files) {
        Ok(()) => Ok(join_all(alloc, folder, files)?),
        Err(failure) => {
            abandon_all(folder, files.into_iter());
            Err(failure)
        }
    }
}

/// Runs the switch over the captures of a folder as `run` does, and puts two files into another: arrivals.csv, what became of
/// each arrival, and then departures.csv, what became of each copy; both have a heading, and if the options name links, theirs are all
/// lines. Nothing is written.
///
/// The table is got first and, unless the run is unchecked, its load checked. Then new files are begun, one for the arrivals, one for the
/// copies and beside that one for each port; the captures of the ports are opened, by rising number, and read once, in pieces, while the
/// switch runs. A line goes to its file as soon as it is known. At the end the files of the ports are joined after the heading of the
/// copies. All names are made before the first put, and the device has both files by then: if it fails to take one, none is put. After a
/// put that failed the file before it is there, and no later one is put. New files that are not put are let go.
///
/// # Errors
///
/// What is met first: `Get` of the table, `Table`, `Load`, `Get` of a capture, `PortCapture`, `Put`; `Memory` if memory
/// ran out.
///
/// O(files), beside the switch's own work, and for each line as many steps as links are named.
pub(crate) fn trace<F: Folder>(
    alloc: Global,
    paths: &Paths<'_>,
    options: &TraceOptions,
    folder: &mut F,
) -> Result<(), Failure>
    ensures { MatchResult result
        (λ _. PutsTrace paths.now options.now (F.files folder.old) (F.files folder.new) × (F.failed folder.new ≡ settled_after 2 (F.failed folder.old)))
        (λ f. FailsToTrace f paths.now options.now (F.files folder.old) (F.files folder.new) (F.failed folder.old) (F.failed folder.new)) }
{
    let plan = get_plan(alloc, &inputs_of(paths), folder)?;
    let names = names_in(alloc, paths.output)?;
    let files = traced(alloc, folder, paths, plan, &selection_of(options))?;
    put_all(alloc, folder, &names, files)
}
