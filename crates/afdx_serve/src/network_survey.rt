//! The command `network survey`.

ghost use Rattle.std.specs.Prelude.{◌≡◌, ◌++◌, ℕ, List, length, map, Option, string_bytes, MatchResult, IfOk};
ghost use Rattle.afdx_arguments.specs.declared.request.NetworkInputs.{NetworkInputs as Asked};
ghost use Rattle.afdx_folder.specs.Files.{Files, KeepsFiles};
ghost use Rattle.afdx_rows.specs.Spells.{network_survey_columns};
ghost use Rattle.afdx_serve.specs.Inner.NetworkRunning.{network_in, is_accepted};
ghost use Rattle.afdx_messages.specs.declared.failure.Failure.TheVariants as failure;
ghost use Rattle.afdx_serve.specs.Inner.Watching.{IsPlanned, HasMeasured, HasPartsMore, ArePartsOf};
ghost use Rattle.afdx_serve.specs.Checks.{heading_in};
ghost use Rattle.afdx_serve.specs.NetworkMeasures.{buffers_in, counts_in, policing_in, HaveEnds, HasSurveyText};
ghost use Rattle.afdx_serve.specs.NetworkRuns.{FailsToGetGiven};
ghost use Rattle.afdx_serve.specs.Serving.{world, SurveysNetwork, FailsToSurveyNetwork};

use crate::forms::{heading_in, push_buffers, push_counts, push_policing};
use crate::network_ends::{ends_in, ends_of};
use crate::network_watched::{Planned, get_planned};
use afdx_arguments::NetworkInputs;
use afdx_count::Counts;
use afdx_csv::Form;
use afdx_folder::{Folder, write_bytes};
use afdx_measure::{Measured, Wanted};
use afdx_messages::Failure;
use afdx_network::Watched;
use afdx_network::laws::watched_runs_keep_bounds;
use afdx_network_report::{LinkEnd, name_of};
use afdx_origins::laws::none_takes_more_than_its_way;
use afdx_rows::NETWORK_SURVEY;
use afdx_table::laws::tables_are_well_formed;
use afdx_wiring::laws::layouts_are_within_limits;
use std::alloc::{AllocError, Global};
use std::io::Write;

/// What is written of the switches, in a form.
#[derive(Drop)]
struct Parts {
    /// Their counts, below a heading if these are rows.
    counts: Vec<u8>,
    /// How full their buffers were.
    buffers: Vec<u8>,
    /// When their links were policed, and when frames came.
    policing: Vec<u8>,
}

impl Parts {
    /// Adds what is written of the switch of this name.
    fn add(
        &mut self,
        alloc: Global,
        form: Form,
        name: &str,
        counts: &Counts<Global>,
        measured: Measured<'static, Global>,
    ) -> Result<(), Failure>
        ensures { MatchResult result (λ _. HasPartsMore form name.now counts.now measured.entry self.old self.new) (λ f. f ≡ failure.Memory) }
    {
        // What is wanted is there unless memory ran out for it.
        let Some(survey) = measured.into_survey() else {
            return Err(Failure::Memory);
        };
        let columns = NETWORK_SURVEY;
        let measures = survey.measures();
        push_counts(alloc, form, columns, &mut self.counts, name, counts)?;
        push_buffers(alloc, form, columns, &mut self.buffers, name, measures)?;
        push_policing(alloc, form, &mut self.policing, name, &survey)?;
        Ok(())
    }

    /// Returns the whole text, with what is written of ends after the counts.
    fn into_text(self, ends: &str) -> Result<Vec<u8>, AllocError>
        ensures { IfOk result (λ text. text.items ≡ ((self.counts.items ++ ends.now) ++ self.buffers.items) ++ self.policing.items) }
    {
        let mut text = self.counts;
        text.extend_from_slice(ends.as_bytes())?;
        text.extend_from_slice(&self.buffers)?;
        text.extend_from_slice(&self.policing)?;
        Ok(text)
    }
}

/// Returns what is written of all switches.
fn parts_of(
    alloc: Global,
    form: Form,
    names: &[String],
    switches: Vec<(Counts<Global>, Measured<'static, Global>)>,
) -> Result<Parts, Failure>
    requires { length names.now ≡ length switches.items }
    ensures { MatchResult result (ArePartsOf form (map string_bytes names.now) switches.entry.items) (λ f. f ≡ failure.Memory) }
{
    let heading = heading_in(alloc, form, NETWORK_SURVEY)?;
    let mut parts = Parts {
        counts: heading.into_bytes(),
        buffers: Vec::new(alloc),
        policing: Vec::new(alloc),
    };
    let mut switch = 0;
    for both in switches {
        let (counts, measured) = both;
        parts.add(alloc, form, name_of(names, switch), &counts, measured)?;
        switch += 1;
    }
    Ok(parts)
}

/// Returns what is written of a run: the counts, these ends, the buffers and the policing, below a heading if it is rows.
fn text_of(
    alloc: Global,
    form: Form,
    names: &[String],
    ends: &[LinkEnd],
    watched: Watched<'_>,
) -> Result<Vec<u8>, Failure>
    requires { length names.now ≡ length watched.switches.items }
    ensures { MatchResult result
        (λ text. (lines : List ℕ) × HaveEnds form network_survey_columns (map string_bytes names.now) watched.entry.origins ends.now lines
        × (text.items ≡ heading_in form network_survey_columns ++ counts_in form (map string_bytes names.now) watched.entry.switches.items
        ++ (lines ++ buffers_in form network_survey_columns (map string_bytes names.now) watched.entry.switches.items)
        ++ policing_in form (map string_bytes names.now) watched.entry.switches.items))
        (λ f. f ≡ failure.Memory) }
{
    let Watched { switches, origins } = watched;
    let lines = ends_in(alloc, form, NETWORK_SURVEY, names, ends, &origins)?;
    let parts = parts_of(alloc, form, names, switches)?;
    Ok(parts.into_text(&lines)?)
}

/// Runs a network over the captures of a folder and returns what is written of it.
fn survey_text<F: Folder>(
    alloc: Global,
    folder: &mut F,
    path: &str,
    form: Form,
    planned: &Planned,
) -> Result<Vec<u8>, Failure>
    requires { (inputs : Asked) × (files : Option Files) × IsPlanned inputs files planned.now }
    ensures led { MatchResult result
        (λ text. HasMeasured (λ switches o. HasSurveyText form (is_accepted planned.now.plan) (network_in planned.now.plan) (map string_bytes planned.now.names.items) switches o text.items)
        (F.files folder.old) path.now (network_in planned.now.plan) × (F.failed folder.new ≡ F.failed folder.old))
        (λ f. FailsToGetGiven f (F.files folder.old) path.now (network_in planned.now.plan) (F.failed folder.old) (F.failed folder.new)) }
    ensures same { KeepsFiles (F.files folder.old) (F.files folder.new) }
{
    let ends = ends_of(alloc, &planned.plan)?;
    let watched = planned.watched(alloc, folder, path, Wanted::Survey)?;
    text_of(alloc, form, &planned.names, &ends, watched)
}

/// Runs a network over the captures of a folder as `network run` does, and writes in one pass its reports, the lines of `network measure`,
/// and of each switch a line for each spell in which a link was policed, and when frames came, or all of it as comma-separated values; nothing
/// is put.
///
/// # Errors
///
/// What is met first: as `network run`, of which nothing is put.
///
/// O(files), beside the runs of the switches; and at each switch 32 bytes for each link at each port, as many for each link at each port that
/// it leads to, and 48 bytes for each spell.
pub(crate) fn network_survey<O: Write, F: Folder>(
    alloc: Global,
    inputs: &NetworkInputs<'_>,
    form: Form,
    out: &mut O,
    folder: &mut F,
) -> Result<(), Failure>
    ensures { MatchResult result
        (λ _. SurveysNetwork form inputs.now
        (world (O.contents out.old) (F.files folder.old) (F.failed folder.old)) (world (O.contents out.new) (F.files folder.new) (F.failed folder.new)))
        (λ f. FailsToSurveyNetwork f form inputs.now
        (world (O.contents out.old) (F.files folder.old) (F.failed folder.old)) (world (O.contents out.new) (F.files folder.new) (F.failed folder.new))) }
{
    layouts_are_within_limits();
    none_takes_more_than_its_way();
    tables_are_well_formed();
    watched_runs_keep_bounds();
    let planned = get_planned(alloc, inputs, folder)?;
    let text = survey_text(alloc, folder, inputs.input, form, &planned)?;
    write_bytes(out, &text)?;
    Ok(())
}
