//! The command `network measure`.

ghost use Rattle.std.specs.Prelude.{◌≡◌, ◌++◌, ℕ, List, length, map, Option, string_bytes, MatchResult};
ghost use Rattle.afdx_arguments.specs.declared.request.NetworkInputs.{NetworkInputs as Asked};
ghost use Rattle.afdx_folder.specs.Files.{Files, KeepsFiles};
ghost use Rattle.afdx_messages.specs.declared.failure.Failure.TheVariants as failure;
ghost use Rattle.afdx_rows.specs.Delays.{network_measure_columns};
ghost use Rattle.afdx_serve.specs.Inner.NetworkRunning.{network_in, is_accepted};
ghost use Rattle.afdx_serve.specs.Inner.Watching.{IsPlanned, HasMeasured};
ghost use Rattle.afdx_serve.specs.Checks.{heading_in};
ghost use Rattle.afdx_serve.specs.NetworkMeasures.{buffers_in, HaveEnds, HasMeasuredText};
ghost use Rattle.afdx_serve.specs.NetworkRuns.{FailsToGetGiven};
ghost use Rattle.afdx_serve.specs.Serving.{world, MeasuresNetwork, FailsToMeasureNetwork};

use crate::forms::{heading_in, push_buffers};
use crate::network_ends::{ends_in, ends_of};
use crate::network_watched::{Planned, get_planned};
use afdx_arguments::NetworkInputs;
use afdx_count::Counts;
use afdx_csv::Form;
use afdx_folder::{Folder, write_bytes};
use afdx_measure::{Measured, Wanted};
use afdx_messages::Failure;
use afdx_network::Watched;
use afdx_network::laws::watched_runs_keep_bounds;
use afdx_network_report::{LinkEnd, name_of};
use afdx_origins::laws::none_takes_more_than_its_way;
use afdx_rows::NETWORK_MEASURE;
use afdx_table::laws::tables_are_well_formed;
use afdx_wiring::laws::layouts_are_within_limits;
use std::alloc::Global;
use std::io::Write;

/// Appends how full the buffers of each switch were.
fn put_all_buffers(
    alloc: Global,
    form: Form,
    text: &mut Vec<u8>,
    names: &[String],
    switches: Vec<(Counts<Global>, Measured<'static, Global>)>,
) -> Result<(), Failure>
    requires { length names.now ≡ length switches.items }
    ensures { MatchResult result
        (λ _. text.new.items ≡ text.old.items ++ buffers_in form network_measure_columns (map string_bytes names.now) switches.entry.items)
        (λ f. f ≡ failure.Memory) }
{
    let mut switch = 0;
    for both in switches {
        let (_, measured) = both;
        // What is wanted is there unless memory ran out for it.
        let Some(measures) = measured.into_measures() else {
            return Err(Failure::Memory);
        };
        push_buffers(
            alloc,
            form,
            NETWORK_MEASURE,
            text,
            name_of(names, switch),
            &measures,
        )?;
        switch += 1;
    }
    Ok(())
}

/// Returns what is written of a run: of these ends, and of the buffers, below a heading if it is rows.
fn text_of(
    alloc: Global,
    form: Form,
    names: &[String],
    ends: &[LinkEnd],
    watched: Watched<'_>,
) -> Result<Vec<u8>, Failure>
    requires { length names.now ≡ length watched.switches.items }
    ensures { MatchResult result
        (λ text. (lines : List ℕ) × HaveEnds form network_measure_columns (map string_bytes names.now) watched.entry.origins ends.now lines
        × (text.items ≡ heading_in form network_measure_columns ++ lines ++ buffers_in form network_measure_columns (map string_bytes names.now) watched.entry.switches.items))
        (λ f. f ≡ failure.Memory) }
{
    let Watched { switches, origins } = watched;
    let lines = ends_in(alloc, form, NETWORK_MEASURE, names, ends, &origins)?;
    let heading = heading_in(alloc, form, NETWORK_MEASURE)?;
    let mut text = heading.into_bytes();
    text.extend_from_slice(lines.as_bytes())?;
    put_all_buffers(alloc, form, &mut text, names, switches)?;
    Ok(text)
}

/// Runs a network over the captures of a folder and returns what is written of it.
fn measured_text<F: Folder>(
    alloc: Global,
    folder: &mut F,
    path: &str,
    form: Form,
    planned: &Planned,
) -> Result<Vec<u8>, Failure>
    requires { (inputs : Asked) × (files : Option Files) × IsPlanned inputs files planned.now }
    ensures led { MatchResult result
        (λ text. HasMeasured (λ switches o. HasMeasuredText form (is_accepted planned.now.plan) (network_in planned.now.plan) (map string_bytes planned.now.names.items) switches o text.items)
        (F.files folder.old) path.now (network_in planned.now.plan) × (F.failed folder.new ≡ F.failed folder.old))
        (λ f. FailsToGetGiven f (F.files folder.old) path.now (network_in planned.now.plan) (F.failed folder.old) (F.failed folder.new)) }
    ensures same { KeepsFiles (F.files folder.old) (F.files folder.new) }
{
    let ends = ends_of(alloc, &planned.plan)?;
    let watched = planned.watched(alloc, folder, path, Wanted::Measures)?;
    text_of(alloc, form, &planned.names, &ends, watched)
}

/// Runs a network over the captures of a folder as `network run` does, and writes of each link and each port at which it leads out of the
/// network the delays from end to end, and how full the buffer of each port of each switch was, as lines or as comma-separated values;
/// nothing is put.
///
/// # Errors
///
/// What is met first: as `network run`, of which nothing is put.
///
/// O(files), beside the runs of the switches; and at each switch 32 bytes for each link at each port, and as many for each link at each port
/// that it leads to.
pub(crate) fn network_measure<O: Write, F: Folder>(
    alloc: Global,
    inputs: &NetworkInputs<'_>,
    form: Form,
    out: &mut O,
    folder: &mut F,
) -> Result<(), Failure>
    ensures { MatchResult result
        (λ _. MeasuresNetwork form inputs.now
        (world (O.contents out.old) (F.files folder.old) (F.failed folder.old)) (world (O.contents out.new) (F.files folder.new) (F.failed folder.new)))
        (λ f. FailsToMeasureNetwork f form inputs.now
        (world (O.contents out.old) (F.files folder.old) (F.failed folder.old)) (world (O.contents out.new) (F.files folder.new) (F.failed folder.new))) }
{
    layouts_are_within_limits();
    none_takes_more_than_its_way();
    tables_are_well_formed();
    watched_runs_keep_bounds();
    let planned = get_planned(alloc, inputs, folder)?;
    let text = measured_text(alloc, folder, inputs.input, form, &planned)?;
    write_bytes(out, &text)?;
    Ok(())
}
