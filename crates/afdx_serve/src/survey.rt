//! The command `survey`.

ghost use Rattle.std.specs.Prelude.{◌≡◌, ◌++◌, IfOk, MatchResult, string_bytes};
ghost use Rattle.afdx_count.specs.Report.{report_of};
ghost use Rattle.afdx_measure.specs.Policing.{survey_of};
ghost use Rattle.afdx_serve.specs.Measures.{survey_text};
ghost use Rattle.afdx_serve.specs.Serving.{world, Surveys, FailsToSurvey};

use crate::measured::measured;
use afdx_arguments::Inputs;
use afdx_count::Counts;
use afdx_csv::{Form, put_heading};
use afdx_folder::{Folder, write_bytes};
use afdx_measure::{Survey, Wanted};
use afdx_messages::Failure;
use afdx_rows::{SURVEY, put_counts, put_survey};
use std::alloc::{AllocError, Global};
use std::io::Write;

/// Returns the lines of the counts, and then what was measured.
fn lines_of(
    alloc: Global,
    counts: &Counts<Global>,
    survey: &Survey<'_, Global>,
    promised: bool,
) -> Result<String, AllocError>
    ensures { IfOk result (λ text. string_bytes text ≡ report_of counts.now ++ survey_of promised survey.now.run) }
{
    let mut text = counts.report(alloc)?;
    let more = afdx_measure::survey(alloc, survey, promised)?;
    text.push_str(&more)?;
    Ok(text)
}

/// Returns the rows of a finished run, below a heading.
fn rows_of(
    alloc: Global,
    counts: &Counts<Global>,
    survey: &Survey<'_, Global>,
    promised: bool,
) -> Result<String, AllocError>
    ensures { IfOk result (λ text. string_bytes text ≡ survey_text Form.Csv promised counts.now survey.now.run) }
{
    let mut text = String::new(alloc);
    put_heading(&mut text, SURVEY)?;
    put_counts(&mut text, SURVEY, "", counts)?;
    put_survey(&mut text, SURVEY, survey, promised)?;
    Ok(text)
}

/// Returns what is written of a finished run.
fn text_of(
    alloc: Global,
    form: Form,
    counts: &Counts<Global>,
    survey: &Survey<'_, Global>,
    promised: bool,
) -> Result<String, AllocError>
    ensures { IfOk result (λ text. string_bytes text ≡ survey_text form promised counts.now survey.now.run) }
{
    match form {
        Form::Lines => lines_of(alloc, counts, survey, promised),
        Form::Csv => rows_of(alloc, counts, survey, promised),
    }
}

/// Runs the switch over the captures of a folder as `run` does, and writes in one pass the report of `run`, the lines of `measure`, a line
/// for each spell in which a link was policed, and when frames came; nothing is put.
///
/// # Errors
///
/// What is met first: `Get` of the table, `Table`, `Load`, `Get` of a capture, `PortCapture`, `Write`; `Memory` if memory
/// ran out.
///
/// O(files), beside the switch's own work, 32 bytes for each link at each port, and 48 bytes for each spell. Each capture is read once.
pub(crate) fn survey<O: Write, F: Folder>(
    alloc: Global,
    inputs: &Inputs<'_>,
    form: Form,
    out: &mut O,
    folder: &mut F,
) -> Result<(), Failure>
    ensures { MatchResult result
        (λ _. Surveys form inputs.now
        (world (O.contents out.old) (F.files folder.old) (F.failed folder.old)) (world (O.contents out.new) (F.files folder.new) (F.failed folder.new)))
        (λ f. FailsToSurvey f form inputs.now
        (world (O.contents out.old) (F.files folder.old) (F.failed folder.old)) (world (O.contents out.new) (F.files folder.new) (F.failed folder.new))) }
{
    let (counts, measured) = measured(alloc, inputs, Wanted::Survey, folder)?;
    // What is wanted is there unless memory ran out for it.
    let Some(survey) = measured.into_survey() else {
        return Err(Failure::Memory);
    };
    let text = text_of(alloc, form, &counts, &survey, !inputs.unchecked)?;
    write_bytes(out, text.as_bytes())?;
    Ok(())
}
