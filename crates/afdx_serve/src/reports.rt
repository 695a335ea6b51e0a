//! What is reported of a run, and whether there is one of what it is to fail on.

ghost use Rattle.std.specs.Prelude.{◌≡◌, ◌++◌, string_bytes, IfOk, OnOk};
ghost use Rattle.afdx_serve.specs.Verdicts.{counts_text, verdict_text, is_found};
ghost use Rattle.afdx_serve.specs.Inner.Reports.{needs_verdict, IsReportOf};

use afdx_arguments::{FailOn, RunOptions};
use afdx_count::Counts;
use afdx_csv::{Form, put_heading};
use afdx_rows::{RUN, put_counts, put_verdict};
use afdx_verdict::{RunVerdict, push_verdict, verdict};
use std::alloc::{AllocError, Global};

/// What is reported of a run.
#[derive(Drop)]
pub(crate) struct Report {
    /// The text, with the verdict's line as its last if it is asked for.
    pub(crate) text: String,
    /// Whether there is one of what the run is to fail on.
    pub(crate) is_found: bool,
}

/// Returns whether the verdict of a run bears on what is asked of it.
fn needs_verdict(options: &RunOptions) -> bool
    ensures { result ≡ needs_verdict options.now }
{
    let chosen = options.fail_on;
    options.verdict || chosen.policed || chosen.filtered || chosen.lost
}

/// Returns whether there is one of what a run is to fail on.
fn is_found(chosen: FailOn, verdict: &RunVerdict) -> bool
    ensures { result ≡ is_found chosen verdict.now }
{
    chosen.policed && verdict.policed > 0
        || chosen.filtered && verdict.filtered > 0
        || chosen.lost && verdict.lost > 0
}

/// Returns the counters of a run as rows, below a heading.
fn counts_rows(alloc: Global, counts: &Counts<Global>) -> Result<String, AllocError>
    ensures { IfOk result (λ text. string_bytes text ≡ counts_text Form.Csv counts.now) }
{
    let mut text = String::new(alloc);
    put_heading(&mut text, RUN)?;
    put_counts(&mut text, RUN, "", counts)?;
    Ok(text)
}

/// Returns what is written of the counters of a run.
fn counts_text(alloc: Global, form: Form, counts: &Counts<Global>) -> Result<String, AllocError>
    ensures { IfOk result (λ text. string_bytes text ≡ counts_text form counts.now) }
{
    match form {
        Form::Lines => counts.report(alloc),
        Form::Csv => counts_rows(alloc, counts),
    }
}

/// Appends the verdict of a run.
fn push_verdict_as(text: &mut String, form: Form, verdict: &RunVerdict) -> Result<(), AllocError>
    ensures { OnOk result (string_bytes text.new ≡ string_bytes text.old ++ verdict_text form verdict.now) }
{
    match form {
        Form::Lines => push_verdict(text, verdict),
        Form::Csv => put_verdict(text, verdict),
    }
}

/// Returns what is reported of the counters of a run. Its verdict is made only if it bears on what is asked.
///
/// An error says that memory ran out. O(ports + links).
pub(crate) fn report_of(
    alloc: Global,
    counts: &Counts<Global>,
    options: &RunOptions,
) -> Result<Report, AllocError>
    ensures { IfOk result (IsReportOf options.now counts.now) }
{
    let mut text = counts_text(alloc, options.form, counts)?;
    if !needs_verdict(options) {
        return Ok(Report {
            text,
            is_found: false,
        });
    }
    let verdict = verdict(counts);
    if options.verdict {
        push_verdict_as(&mut text, options.form, &verdict)?;
    }
    Ok(Report {
        text,
        is_found: is_found(options.fail_on, &verdict),
    })
}
