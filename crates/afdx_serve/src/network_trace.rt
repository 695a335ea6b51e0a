//! The command `network trace`.

ghost use Rattle.std.specs.Prelude.{◌≡◌, ◌++◌, true, length, map, All, Option, string_bytes, IfOk, OnOk, MatchResult};
ghost use Rattle.afdx_arguments.specs.declared.request.NetworkInputs.{NetworkInputs as Asked};
ghost use Rattle.afdx_folder.specs.Files.{Files, KeepsFiles};
ghost use Rattle.afdx_trace.specs.declared.shown.Selection.{Selection as Shown};
ghost use Rattle.afdx_serve.specs.Inner.NetworkRunning.{network_in};
ghost use Rattle.afdx_serve.specs.NetworkRuns.{FailsToGetGiven};
ghost use Rattle.afdx_serve.specs.Inner.Watching.{IsPlanned, HasTraced};
ghost use Rattle.afdx_serve.specs.NetworkTraces.{network_trace_names, switch_texts, network_trace_texts, ShowsAllLines, PutsNetworkTrace, FailsToTraceNetwork};

use crate::network_run::switch_folder;
use crate::network_watched::{Planned, get_planned};
use crate::outputs::put_texts;
use crate::trace::names_in;
use afdx_arguments::{NetworkInputs, NetworkPaths};
use afdx_core::Done;
use afdx_count::Counts;
use afdx_folder::Folder;
use afdx_measure::{Measured, Wanted};
use afdx_messages::Failure;
use afdx_network::Watched;
use afdx_network_trace::{first_numbers, with_first_numbers};
use afdx_trace::Selection;
use std::alloc::{AllocError, Global};

/// Returns what a trace is made of, beside the folder that it goes to.
fn inputs_of<'a>(paths: &NetworkPaths<'a>) -> NetworkInputs<'a>
    ensures network { result.network ≡ paths.now.network }
    ensures input { result.input ≡ paths.now.input }
    ensures unchecked { result.unchecked ≡ paths.now.unchecked }
{
    NetworkInputs {
        network: paths.network,
        input: paths.input,
        unchecked: paths.unchecked,
    }
}

/// Returns the names of the two files of each switch, in its folder.
fn all_names(alloc: Global, output: &str, names: &[String]) -> Result<Vec<String>, AllocError>
    ensures { IfOk result (λ all. map string_bytes all.items ≡ network_trace_names output.now (map string_bytes names.now)) }
{
    let mut all = Vec::new(alloc);
    for name in names {
        let path = switch_folder(alloc, output, name)?;
        let mut own = names_in(alloc, &path)?;
        all.append(&mut own)?;
    }
    Ok(all)
}

/// Adds the two texts of a switch: its arrivals, with the numbers that their frames had at their first switches, and its departures.
fn push_texts(
    alloc: Global,
    texts: &mut Vec<Vec<u8>>,
    done: &Done<'_, Global>,
    firsts: &[Option<usize>],
    selection: &Selection<'_>,
) -> Result<(), AllocError>
    ensures { OnOk result (map (λ text. text.items) texts.new.items ≡ map (λ text. text.items) texts.old.items ++ switch_texts selection.now firsts.now done.now.run) }
{
    let arrivals = afdx_trace::arrivals(alloc, done, selection)?;
    let departures = afdx_trace::departures(alloc, done, selection)?;
    texts.push(with_first_numbers(alloc, &arrivals, firsts)?)?;
    texts.push(departures.into_bytes())?;
    Ok(())
}

/// Returns the finished switches of a run, which keep their lists.
fn dones_of(
    alloc: Global,
    switches: Vec<(Counts<Global>, Measured<'static, Global>)>,
) -> Result<Vec<Done<'static, Global>>, AllocError>
    requires { All (λ both. both.1.keeps ≡ true) switches.items }
    ensures { IfOk result (λ dones. dones.items ≡ map (λ both. both.1) switches.entry.items) }
{
    let mut dones = Vec::new(alloc);
    for both in switches {
        let (_, measured) = both;
        dones.push(measured.into_done())?;
    }
    Ok(dones)
}

/// Selects all lines, with stamps as they are.
fn all_lines<'a>() -> Selection<'a>
    ensures { ShowsAllLines result }
{
    Selection {
        links: &[],
        relative: false,
    }
}

/// Returns the texts of finished switches, with the numbers that the frames of their arrivals had at their first switches.
fn texts_of(
    alloc: Global,
    dones: &[Done<'_, Global>],
    firsts: &[Vec<Option<usize>>],
) -> Result<Vec<Vec<u8>>, AllocError>
    requires { length firsts.now ≡ length dones.now }
    ensures { IfOk result (λ texts. (selection : Shown) × ShowsAllLines selection
        × (map (λ text. text.items) texts.items ≡ network_trace_texts selection (map (λ own. own.items) firsts.now) dones.now)) }
{
    let selection = all_lines();
    let mut texts = Vec::new(alloc);
    for (switch, done) in dones.iter().enumerate() {
        push_texts(alloc, &mut texts, done, &firsts[switch], &selection)?;
    }
    Ok(texts)
}

/// Runs a network over the captures of a folder and returns the texts of all its switches.
fn traced<F: Folder>(
    alloc: Global,
    folder: &mut F,
    path: &str,
    planned: &Planned,
) -> Result<Vec<Vec<u8>>, Failure>
    requires { (inputs : Asked) × (files : Option Files) × IsPlanned inputs files planned.now }
    ensures led { MatchResult result
        (λ texts. HasTraced (F.files folder.old) path.now (network_in planned.now.plan) (map (λ text. text.items) texts.items) × (F.failed folder.new ≡ F.failed folder.old))
        (λ f. FailsToGetGiven f (F.files folder.old) path.now (network_in planned.now.plan) (F.failed folder.old) (F.failed folder.new)) }
    ensures same { KeepsFiles (F.files folder.old) (F.files folder.new) }
{
    let Watched { switches, .. } = planned.watched(alloc, folder, path, Wanted::Lists)?;
    let dones = dones_of(alloc, switches)?;
    let firsts = first_numbers(alloc, planned.plan.network(), &dones)?;
    Ok(texts_of(alloc, &dones, &firsts)?)
}

/// Runs a network over the captures of a folder as `network run` does, and puts two files for each switch into another, in the folder of its
/// name: arrivals.csv, what became of each arrival, with the number that its frame had at its first switch, and departures.csv, what became of
/// each copy. Nothing is written.
///
/// All names and texts are made before the first put, and the device has all files by then: if it fails to take one, none is put.
///
/// # Errors
///
/// What is met first: as `network run`.
///
/// O(files), beside the runs of the switches, which keep their lists, and O(wires + ports) for each arrival and each switch of its way.
pub(crate) fn network_trace<F: Folder>(
    alloc: Global,
    paths: &NetworkPaths<'_>,
    folder: &mut F,
) -> Result<(), Failure>
    ensures { MatchResult result
        (λ _. PutsNetworkTrace paths.now (F.files folder.old) (F.files folder.new) (F.failed folder.old) (F.failed folder.new))
        (λ f. FailsToTraceNetwork f paths.now (F.files folder.old) (F.files folder.new) (F.failed folder.old) (F.failed folder.new)) }
{
    let inputs = inputs_of(paths);
    let planned = get_planned(alloc, &inputs, folder)?;
    let texts = traced(alloc, folder, paths.input, &planned)?;
    let names = all_names(alloc, paths.output, &planned.names)?;
    put_texts(alloc, folder, &names, &texts)
}
