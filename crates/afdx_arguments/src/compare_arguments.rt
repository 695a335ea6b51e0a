//! What the arguments of `compare` ask for.

ghost use Rattle.std.specs.Prelude.{◌≡◌, ◌↔◌, ℕ, [], IsTrue, MatchOption, Option as Optional, Some, codes, option_map};
ghost use Rattle.clap.specs.Words.{first_of, found_of, rows_of};
ghost use Rattle.afdx_recordings.specs.declared.offsets.Offsets.{Offsets as Added};
ghost use Rattle.afdx_recordings.specs.declared.outputs.Outputs.{Outputs as Recorded};
ghost use Rattle.afdx_recordings.specs.declared.recordings.Recordings.{Recordings as Known};
ghost use Rattle.afdx_recordings.specs.declared.stamps.Stamps.{Stamps as Instants};
ghost use Rattle.afdx_arguments.specs.declared.request.Compare.{Compare as Compared};
ghost use Rattle.afdx_arguments.specs.Requests.{HasUpTo, HasInstant, ChoosesStamps, ChoosesOffsets, ChoosesOutputs, HasRecordings, HasCompare};

use crate::arguments::{argument, flag, number};
use crate::request::Compare;
use afdx_recordings::{MAX_LEAST, MAX_TOLERANCE, Offsets, Outputs, Recordings, Stamps};
use afdx_units::{MICROSECOND, Stamp};
use clap::ArgMatches;

/// Returns the number of an option that is at most this: 0 if it is left out, and none if it is greater.
fn number_to(matches: &ArgMatches<'_>, name: &str, most: u64) -> Option<u64>
    ensures { MatchOption result ((n : ℕ) → HasUpTo name.now most (rows_of (found_of matches.now)) n → ⊥)
        (HasUpTo name.now most (rows_of (found_of matches.now))) }
{
    let number = number(matches, name).unwrap_or(0);
    if number > most {
        return None;
    }
    Some(number)
}

/// Returns the instant of an option, or that it is left out; none if there is no such instant.
fn stamp_of(matches: &ArgMatches<'_>, name: &str) -> Option<Option<Stamp>>
    ensures { MatchOption result ((instant : Optional ℕ) → HasInstant name.now (rows_of (found_of matches.now)) instant → ⊥)
        (HasInstant name.now (rows_of (found_of matches.now))) }
{
    match number(matches, name) {
        Some(ns) => {
            let stamp = Stamp::from_ns(ns)?;
            Some(Some(stamp))
        }
        None => Some(None),
    }
}

/// Returns what stamps are; none if the option's text is neither of the two.
fn stamps_of(matches: &ArgMatches<'_>) -> Option<Stamps>
    ensures { MatchOption result ((stamps : Instants) → ChoosesStamps (first_of (codes "stamps") (rows_of (found_of matches.now))) stamps → ⊥)
        (ChoosesStamps (first_of (codes "stamps") (rows_of (found_of matches.now)))) }
{
    match argument(matches, "stamps") {
        None => Some(Stamps::End),
        Some(text) => {
            if text == "end" {
                Some(Stamps::End)
            } else if text == "free" {
                Some(Stamps::Free)
            } else {
                None
            }
        }
    }
}

/// Returns what is added to stamps; none if the option's text says no offsets.
fn offsets_of(matches: &ArgMatches<'_>) -> Option<Offsets>
    ensures { MatchOption result ((offsets : Added) → ChoosesOffsets (first_of (codes "offset") (rows_of (found_of matches.now))) offsets → ⊥)
        (ChoosesOffsets (first_of (codes "offset") (rows_of (found_of matches.now)))) }
{
    match argument(matches, "offset") {
        Some(text) => Offsets::of_text(text),
        None => Some(Offsets::NONE),
    }
}

/// Returns which outputs were recorded; none if the option's text names no ports.
fn outputs_of(matches: &ArgMatches<'_>) -> Option<Outputs>
    ensures { MatchOption result ((outputs : Recorded) → ChoosesOutputs (first_of (codes "ports") (rows_of (found_of matches.now))) outputs → ⊥)
        (ChoosesOutputs (first_of (codes "ports") (rows_of (found_of matches.now)))) }
{
    match argument(matches, "ports") {
        Some(text) => Outputs::of_text(text),
        None => Some(Outputs::ALL),
    }
}

/// Returns what is known of the recordings, if the options are accepted. They begin at rest or at an instant, not both.
pub(crate) fn recordings_of(matches: &ArgMatches<'_>) -> Option<Recordings>
    ensures { MatchOption result ((recordings : Known) → HasRecordings (rows_of (found_of matches.now)) recordings → ⊥)
        (HasRecordings (rows_of (found_of matches.now))) }
{
    let least = number_to(matches, "least-latency", MAX_LEAST)?;
    let tolerance = number_to(matches, "tolerance", MAX_TOLERANCE)?;
    let stamps = stamps_of(matches)?;
    let rest = flag(matches, "rest");
    let from = stamp_of(matches, "from")?;
    let until = stamp_of(matches, "until")?;
    let offsets = offsets_of(matches)?;
    let outputs = outputs_of(matches)?;
    if rest && from.is_some() {
        return None;
    }
    Some(Recordings {
        least: least * MICROSECOND,
        tolerance,
        stamps,
        rest,
        from,
        until,
        offsets,
        outputs,
    })
}

/// Returns whether an argument that may be left out is there and empty.
fn is_empty(argument: Option<&str>) -> bool
    ensures { IsTrue result ↔ (option_map (λ w. w.now) argument.entry ≡ Some []) }
{
    match argument {
        Some(text) => text.is_empty(),
        None => false,
    }
}

/// Returns the files of recordings, if all are named. An empty argument names no folder.
pub(crate) fn compare_of<'a>(matches: &ArgMatches<'a>) -> Option<Compare<'a>>
    ensures { MatchOption result ((compare : Compared) → HasCompare (rows_of (found_of matches.now)) compare → ⊥)
        (HasCompare (rows_of (found_of matches.now))) }
{
    let table = argument(matches, "TABLE")?;
    let input = argument(matches, "IN")?;
    let output = argument(matches, "OUT")?;
    let rows = argument(matches, "rows");
    if input.is_empty() || output.is_empty() || is_empty(rows) {
        return None;
    }
    Some(Compare {
        table,
        input,
        output,
        rows,
    })
}
