//! The command `compare`.

ghost use Rattle.std.specs.Prelude.{◌≡◌, ◌≤◌, ◌∷◌, ◌++◌, [], List, true, false, length, map, string_bytes, Option, is_some, IfOk, OnOk, MatchResult};
ghost use Rattle.afdx_table.specs.Content.{Content};
ghost use Rattle.afdx_recordings.specs.declared.recordings.Recordings.{Recordings as Known};
ghost use Rattle.afdx_compare.specs.Sources.{sources_of};
ghost use Rattle.afdx_compare.specs.Found.{IsCompareFault};
ghost use Rattle.afdx_messages.specs.declared.argument.ArgumentFault.TheVariants.{Span};
ghost use Rattle.afdx_messages.specs.declared.failure.Failure.TheVariants.{Argument};
ghost use Rattle.afdx_folder.specs.Files.{Files, KeepsFiles, PutsFiles, settled_after};
ghost use Rattle.afdx_serve.specs.Runs.{FailsToPut};
ghost use Rattle.afdx_serve.specs.Compares.{HasFittingTable, FailsToGetFitting, HasVaryingTable, FailsToGetVarying, scatter_of};
ghost use Rattle.afdx_serve.specs.Compares.{output_names, names_of, recording_names, IsFoundUnder, is_over, rows_name, rows_names, rows_texts, FailsUnder};
ghost use Rattle.afdx_serve.specs.Inner.Leading.{AreOpened};
ghost use Rattle.afdx_serve.specs.Serving.{world, Compares, FailsToCompareAll};

use crate::fitting::first_argument_fault;
use crate::get::{get_table, open_all, unread_failure};
use crate::names::{capture_name, name_in, port_names};
use crate::outputs::put_texts;
use afdx_arguments::Compare;
use afdx_compare::{CompareFault, Findings, differences, report};
use afdx_csv::Form;
use afdx_folder::{Folder, write_bytes};
use afdx_grouping::first_scattered_fault;
use afdx_grouping::laws::accepted_has_no_scattered_fault;
use afdx_messages::{ArgumentFault, Failure};
use afdx_recordings::{Outputs, Recordings};
use afdx_table::{PortRow, Table};
use std::alloc::{AllocError, Global};
use std::io::Write;

/// Returns by how many nanoseconds latencies differ at most.
fn scatter_of(table: &Table, recordings: &Recordings) -> u64
    ensures scatter { result ≡ scatter_of table.now recordings.now }
    ensures most { result ≤ 100000 }
{
    table.latency().saturating_sub(recordings.least)
}

/// Gets the table of a file, which the options have to fit.
fn get_fitting<F: Folder>(
    alloc: Global,
    path: &str,
    recordings: &Recordings,
    folder: &mut F,
) -> Result<Table, Failure>
    ensures got { MatchResult result
        (λ table. HasFittingTable (F.files folder.old) path.now recordings.now table × (F.failed folder.new ≡ F.failed folder.old))
        (λ f. FailsToGetFitting f (F.files folder.old) path.now recordings.now (F.failed folder.old) (F.failed folder.new)) }
    ensures same { KeepsFiles (F.files folder.old) (F.files folder.new) }
{
    let table = get_table(alloc, folder, path)?;
    match first_argument_fault(&table, recordings) {
        Some(fault) => Err(Failure::Argument(fault)),
        None => Ok(table),
    }
}

/// Gets the table of a file, which the options have to fit, and checks its load at a switch whose latency varies down to the least.
fn get_varying<F: Folder>(
    alloc: Global,
    path: &str,
    recordings: &Recordings,
    folder: &mut F,
) -> Result<Table, Failure>
    ensures got { MatchResult result
        (λ table. HasVaryingTable (F.files folder.old) path.now recordings.now table × (F.failed folder.new ≡ F.failed folder.old))
        (λ f. FailsToGetVarying f (F.files folder.old) path.now recordings.now (F.failed folder.old) (F.failed folder.new)) }
    ensures same { KeepsFiles (F.files folder.old) (F.files folder.new) }
{
    accepted_has_no_scattered_fault();
    let table = get_fitting(alloc, path, recordings, folder)?;
    match first_scattered_fault(&table, scatter_of(&table, recordings)) {
        Some(fault) => Err(Failure::Load(fault)),
        None => Ok(table),
    }
}

/// Appends the name of the capture of what left at a port, if it was recorded.
fn push_output(
    alloc: Global,
    names: &mut Vec<String>,
    path: &str,
    recorded: &Outputs,
    port: &PortRow,
) -> Result<(), AllocError>
    ensures { OnOk result (map string_bytes names.new.items ≡ map string_bytes names.old.items ++ output_names path.now recorded.now (port.now ∷ [])) }
{
    if !recorded.has(port.id) {
        return Ok(());
    }
    names.push(capture_name(alloc, path, port.id)?)?;
    Ok(())
}

/// Returns the names of the captures of what came, and of what left at the output ports that were recorded, each by rising port.
fn names_of(
    alloc: Global,
    compare: &Compare<'_>,
    recorded: &Outputs,
    ports: &[PortRow],
) -> Result<Vec<String>, AllocError>
    ensures { IfOk result (λ names. map string_bytes names.items ≡ names_of compare.now recorded.now ports.now) }
{
    let mut names = port_names(alloc, compare.input, ports)?;
    for port in ports {
        push_output(alloc, &mut names, compare.output, recorded, port)?;
    }
    Ok(names)
}

/// Returns the failure for a fault of captures that were opened under these names.
fn compare_failure<F: Folder>(
    alloc: Global,
    folder: &mut F,
    names: &[String],
    fault: CompareFault,
) -> Failure
    requires { (files : Option Files) × (t : Content) × (r : Known) × (readers : List F.Opened)
        × AreOpened F.Opened.remaining files (map string_bytes names.now) readers × IsCompareFault F.Opened.remaining (sources_of t r).captures readers fault }
    ensures failed { (files : Option Files) (t : Content) (r : Known) (readers : List F.Opened)
        → AreOpened F.Opened.remaining files (map string_bytes names.now) readers → IsCompareFault F.Opened.remaining (sources_of t r).captures readers fault
        → FailsUnder result (map string_bytes names.now) t r files (F.failed folder.old) (F.failed folder.new) }
    ensures same { KeepsFiles (F.files folder.old) (F.files folder.new) }
{
    match fault {
        CompareFault::Memory => Failure::Memory,
        CompareFault::Read(place) => unread_failure(alloc, folder, &names[place]),
        CompareFault::Came(port, why) => Failure::PortCapture(port, why),
        CompareFault::Left(port, why) => Failure::OutputCapture(port, why),
    }
}

/// Returns whether nothing is judged: the span ends before it begins, or before the first stamp of all, or begins after the last one.
fn is_over(findings: &Findings<'_, Global>) -> bool
    ensures { result ≡ is_over findings.now.from findings.now.until findings.now.first findings.now.last }
{
    let from = findings.from();
    let until = findings.until();
    until < from
        || findings.first().is_some_and(|first| until < first)
        || findings.last().is_some_and(|last| last < from)
}

/// Returns what was found out, if something is judged.
fn in_span(findings: Findings<'_, Global>) -> Result<Findings<'_, Global>, Failure>
    ensures { MatchResult result
        (λ f. (f ≡ findings.entry) × (is_over f.from f.until f.first f.last ≡ false))
        (λ f. (f ≡ Argument (Span findings.entry.from findings.entry.until))
        × (is_over findings.entry.from findings.entry.until findings.entry.first findings.entry.last ≡ true)) }
{
    if is_over(&findings) {
        let fault = ArgumentFault::Span(findings.from().ns(), findings.until().ns());
        return Err(Failure::Argument(fault));
    }
    Ok(findings)
}

/// Returns what is found out of the captures, each of which is opened and read once.
fn find<'t, F: Folder>(
    alloc: Global,
    compare: &Compare<'_>,
    recordings: &Recordings,
    table: &'t Table,
    folder: &mut F,
) -> Result<Findings<'t, Global>, Failure>
    ensures found { MatchResult result
        (λ f. ((f.recordings ≡ recordings.now) × IsFoundUnder (recording_names compare.now recordings.now table.now) table.now recordings.now (is_some compare.now.rows)
        (F.files folder.old) f.from f.until f.first f.last f.comparison × (is_over f.from f.until f.first f.last ≡ false)) × (F.failed folder.new ≡ F.failed folder.old))
        (λ f. FailsUnder f (recording_names compare.now recordings.now table.now) table.now recordings.now
        (F.files folder.old) (F.failed folder.old) (F.failed folder.new)) }
    ensures same { KeepsFiles (F.files folder.old) (F.files folder.new) }
{
    let names = names_of(alloc, compare, &recordings.outputs, table.ports())?;
    let mut opened = open_all(alloc, folder, &names)?;
    let keeps = compare.rows.is_some();
    match afdx_compare::compare(alloc, table, recordings, keeps, &mut opened) {
        Ok(findings) => in_span(findings),
        Err(fault) => Err(compare_failure(alloc, folder, &names, fault)),
    }
}

/// Returns a list of one name, that of the file of differences in a folder.
fn rows_names(alloc: Global, rows: &str) -> Result<Vec<String>, AllocError>
    ensures { IfOk result (λ names. map string_bytes names.items ≡ rows_name rows.now ∷ []) }
{
    let mut names = Vec::with_capacity(alloc, 1)?;
    names.push_reserved(name_in(alloc, rows, "/differences.csv")?);
    Ok(names)
}

/// Returns a list of one text, this.
fn alone(alloc: Global, text: String) -> Result<Vec<Vec<u8>>, AllocError>
    ensures { IfOk result (λ texts. map (λ text. text.items) texts.items ≡ string_bytes text ∷ []) }
{
    let mut texts = Vec::with_capacity(alloc, 1)?;
    texts.push_reserved(text.into_bytes());
    Ok(texts)
}

/// Puts a text under the name of the file of differences in a folder.
fn put_differences<F: Folder>(
    alloc: Global,
    rows: &str,
    text: String,
    folder: &mut F,
) -> Result<(), Failure>
    ensures { MatchResult result
        (λ _. PutsFiles (F.files folder.old) (F.files folder.new) (rows_name rows.now ∷ []) (string_bytes text ∷ [])
        × (F.failed folder.new ≡ settled_after 1 (F.failed folder.old)))
        (λ f. FailsToPut f (rows_name rows.now ∷ []) (string_bytes text ∷ [])
        (F.files folder.old) (F.files folder.new) (F.failed folder.old) (F.failed folder.new)) }
{
    let names = rows_names(alloc, rows)?;
    let texts = alone(alloc, text)?;
    put_texts(alloc, folder, &names, &texts)
}

/// Puts each difference into a folder, if one is named.
fn put_rows<F: Folder>(
    alloc: Global,
    compare: &Compare<'_>,
    findings: &Findings<'_, Global>,
    folder: &mut F,
) -> Result<(), Failure>
    ensures { MatchResult result
        (λ _. PutsFiles (F.files folder.old) (F.files folder.new) (rows_names compare.now) (rows_texts compare.now findings.now.recordings findings.now.comparison)
        × (F.failed folder.new ≡ settled_after (length (rows_names compare.now)) (F.failed folder.old)))
        (λ f. FailsToPut f (rows_names compare.now) (rows_texts compare.now findings.now.recordings findings.now.comparison)
        (F.files folder.old) (F.files folder.new) (F.failed folder.old) (F.failed folder.new)) }
{
    let Some(rows) = compare.rows else {
        return Ok(());
    };
    let text = differences(alloc, findings)?;
    put_differences(alloc, rows, text, folder)
}

/// Compares recordings of a switch with what is proved of this one, puts each difference if asked for, and writes what was found out, in this
/// form.
///
/// The table is got first. The options have to fit it: its latency is no less than the least, it has the ports that were recorded by name,
/// what is added to stamps is added at ports that were recorded, and the span, if both its ends are given, does not end before it begins.
/// Then its load is checked, as for a switch whose latency varies from the least to the table's. Then the captures of what came are opened,
/// and those of what left, each by rising port; each is read once, in pieces. If one cannot be read or has a fault, the others are read on
/// to their ends, so that the failure is the first in this order. The report's text is made before the put.
///
/// # Errors
///
/// What is met first: `Get` of the table, `Table`, `Argument`, `Load`, `Get` of a capture, `PortCapture`, `OutputCapture`, `Argument` of a span in which
/// nothing is judged, `Put`, `Write`;
/// `Found` if something speaks against the switch, and all else was done; `Memory` if memory ran out.
///
/// O(bytes of the captures), with what `compare` of `afdx_compare` does for each record.
pub(crate) fn compare<O: Write, F: Folder>(
    alloc: Global,
    compare: &Compare<'_>,
    recordings: &Recordings,
    form: Form,
    out: &mut O,
    folder: &mut F,
) -> Result<(), Failure>
    ensures { MatchResult result
        (λ _. Compares form compare.now recordings.now
        (world (O.contents out.old) (F.files folder.old) (F.failed folder.old)) (world (O.contents out.new) (F.files folder.new) (F.failed folder.new)))
        (λ f. FailsToCompareAll f form compare.now recordings.now
        (world (O.contents out.old) (F.files folder.old) (F.failed folder.old)) (world (O.contents out.new) (F.files folder.new) (F.failed folder.new))) }
{
    let table = get_varying(alloc, compare.table, recordings, folder)?;
    let findings = find(alloc, compare, recordings, &table, folder)?;
    let text = report(alloc, &findings, form)?;
    put_rows(alloc, compare, &findings, folder)?;
    write_bytes(out, text.as_bytes())?;
    if findings.conforms() {
        Ok(())
    } else {
        Err(Failure::Found)
    }
}
