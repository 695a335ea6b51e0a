//! The command `measure`.

ghost use Rattle.std.specs.Prelude.{◌≡◌, string_bytes, IfOk, MatchResult};
ghost use Rattle.afdx_serve.specs.Measures.{measures_text};
ghost use Rattle.afdx_serve.specs.Serving.{world, Measures, FailsToMeasure};

use crate::measured::measured;
use afdx_arguments::Inputs;
use afdx_csv::{Form, put_heading};
use afdx_folder::{Folder, write_bytes};
use afdx_measure::Wanted;
use afdx_messages::Failure;
use afdx_rows::{MEASURE, put_measures};
use std::alloc::{AllocError, Global};
use std::io::Write;

/// Returns the rows of a finished run, below a heading.
fn measures_rows(
    alloc: Global,
    measures: &afdx_measure::Measures<'_, Global>,
    promised: bool,
) -> Result<String, AllocError>
    ensures { IfOk result (λ text. string_bytes text ≡ measures_text Form.Csv promised measures.now.run) }
{
    let mut text = String::new(alloc);
    put_heading(&mut text, MEASURE)?;
    put_measures(&mut text, MEASURE, measures, promised)?;
    Ok(text)
}

/// Returns what is written of a finished run.
fn measures_text(
    alloc: Global,
    form: Form,
    measures: &afdx_measure::Measures<'_, Global>,
    promised: bool,
) -> Result<String, AllocError>
    ensures { IfOk result (λ text. string_bytes text ≡ measures_text form promised measures.now.run) }
{
    match form {
        Form::Lines => afdx_measure::report(alloc, measures, promised),
        Form::Csv => measures_rows(alloc, measures, promised),
    }
}

/// Runs the switch over the captures of a folder as `run` does, and writes the delays of each link at each of its output
/// ports, and how full each port's buffer was; nothing is put.
///
/// # Errors
///
/// What is met first: `Get` of the table, `Table`, `Load`, `Get` of a capture, `PortCapture`, `Write`; `Memory` if memory
/// ran out.
///
/// O(files), beside the switch's own work, and 32 bytes for each link at each port. Each capture is read once.
pub(crate) fn measure<O: Write, F: Folder>(
    alloc: Global,
    inputs: &Inputs<'_>,
    form: Form,
    out: &mut O,
    folder: &mut F,
) -> Result<(), Failure>
    ensures { MatchResult result
        (λ _. Measures form inputs.now
        (world (O.contents out.old) (F.files folder.old) (F.failed folder.old)) (world (O.contents out.new) (F.files folder.new) (F.failed folder.new)))
        (λ f. FailsToMeasure f form inputs.now
        (world (O.contents out.old) (F.files folder.old) (F.failed folder.old)) (world (O.contents out.new) (F.files folder.new) (F.failed folder.new))) }
{
    let (_, measured) = measured(alloc, inputs, Wanted::Measures, folder)?;
    // What is wanted is there unless memory ran out for it.
    let Some(measures) = measured.into_measures() else {
        return Err(Failure::Memory);
    };
    let text = measures_text(alloc, form, &measures, !inputs.unchecked)?;
    write_bytes(out, text.as_bytes())?;
    Ok(())
}
