//! The command `check`.

ghost use Rattle.std.specs.Prelude.{◌≡◌, ℕ, ◌++◌, [], Some, IfOk, OnOk, MatchResult, string_bytes};
ghost use Rattle.afdx_table.specs.Content.{port_row};
ghost use Rattle.afdx_load.specs.Load.{load_of};
ghost use Rattle.afdx_load.specs.Accepted.{IsAccepted};
ghost use Rattle.afdx_wiring.specs.Lines.{as_line};
ghost use Rattle.afdx_serve.specs.Checks.{IsLeastBuffer, bound_text, load_text, check_in, IsLineOf, AreLinesOf, check_text, IsCheckOf};
ghost use Rattle.afdx_serve.specs.Serving.{world, FailsToAccept, Checks, FailsToCheck};

use crate::get::get_table;
use afdx_csv::{Form, put_heading};
use afdx_folder::{Folder, write_bytes};
use afdx_load::laws::longest_shows_links;
use afdx_load::{Load, Loads, bounds, least_buffer, loads};
use afdx_messages::Failure;
use afdx_rows::{CHECK, put_check};
use afdx_table::laws::ports_are_found;
use afdx_table::{PortRow, Table};
use std::alloc::{AllocError, Global};
use std::io::Write;

/// More bytes than the lines of a table's ports have.
const ROOM: usize = 4096;

/// Appends a bound.
fn push_bound(line: &mut String, bound: Option<u128>) -> Result<(), AllocError>
    ensures { OnOk result (string_bytes line.new ≡ string_bytes line.old ++ bound_text bound) }
{
    match bound {
        Some(nanos) => write!(line, "{nanos}")?,
        None => line.push_str("-")?,
    }
    Ok(())
}

/// Returns the line of a port with links, which needs so many bytes at least.
fn load_line(alloc: Global, row: &PortRow, load: &Load, least: u128) -> Result<String, AllocError>
    ensures { IfOk result (λ line. string_bytes line ≡ as_line (load_text row.now load.now least)) }
{
    let bounds = bounds(load);
    let mut line = format!(in alloc; "port {}", row.id)?;
    write!(line, " rate {}", load.rate())?;
    write!(line, " buffer {least} high ")?;
    push_bound(&mut line, bounds.high)?;
    line.push_str(" low ")?;
    push_bound(&mut line, bounds.low)?;
    line.push_str("\n")?;
    Ok(line)
}

/// Returns the row of a port with links, which needs so many bytes at least.
fn load_row(alloc: Global, row: &PortRow, load: &Load, least: u128) -> Result<String, AllocError>
    ensures { IfOk result (λ line. string_bytes line ≡ check_in Form.Csv row.now load.now least) }
{
    let mut line = String::new(alloc);
    put_check(&mut line, row, load, least)?;
    Ok(line)
}

/// Returns what is written of a port with links.
fn check_in(alloc: Global, form: Form, row: &PortRow, load: &Load) -> Result<String, AllocError>
    ensures { IfOk result (λ line. (least : ℕ) × IsLeastBuffer row.now load.now least × (string_bytes line ≡ check_in form row.now load.now least)) }
{
    let least = least_buffer(load, row.speed);
    match form {
        Form::Lines => load_line(alloc, row, load, least),
        Form::Csv => load_row(alloc, row, load, least),
    }
}

/// Returns what is written of a port of the loads' table: no text if no link leads to it.
fn port_line(
    alloc: Global,
    form: Form,
    loads: &Loads<'_>,
    row: &PortRow,
) -> Result<String, AllocError>
    requires { port_row loads.now row.now.id ≡ Some row.now }
    ensures { IfOk result (λ line. IsLineOf form row.now (load_of loads.now.latency row.now.speed row.now.id loads.now.links) (string_bytes line)) }
{
    longest_shows_links();
    match loads.at(row.id) {
        Some(load) if load.largest() > 0 => check_in(alloc, form, row, &load),
        _ => Ok(String::new(alloc)),
    }
}

/// Returns what is written of the table's ports with links, in an empty text that may have room for them.
///
/// One pass over the links serves all ports: O(p + m) for p ports, of which there are at most 24, and links that
/// together name m output ports.
fn port_lines(alloc: Global, form: Form, table: &Table, empty: String) -> Result<String, AllocError>
    requires { string_bytes empty ≡ [] }
    ensures { IfOk result (λ text. AreLinesOf form table.now.latency table.now.links table.now.ports (string_bytes text)) }
{
    ports_are_found();
    let loads = loads(table);
    let mut text = empty;
    for row in table.ports() {
        text.push_str(&port_line(alloc, form, &loads, row)?)?;
    }
    Ok(text)
}

/// Returns what is written of an accepted table, of whose ports this is written.
fn with_ends(alloc: Global, form: Form, lines: String) -> Result<String, AllocError>
    ensures { IfOk result (λ text. string_bytes text ≡ check_text form (string_bytes lines)) }
{
    match form {
        Form::Lines => {
            let mut text = lines;
            text.push_str("accepted\n")?;
            Ok(text)
        }
        Form::Csv => {
            let mut text = String::new(alloc);
            put_heading(&mut text, CHECK)?;
            text.push_str(&lines)?;
            Ok(text)
        }
    }
}

/// Checks a table and returns what is written of it, in an empty text that may have room for it.
fn accepted_text(alloc: Global, form: Form, table: Table, empty: String) -> Result<String, Failure>
    requires { string_bytes empty ≡ [] }
    ensures { MatchResult result (λ text. IsAccepted table × IsCheckOf form table (string_bytes text)) (λ f. FailsToAccept f table) }
{
    match afdx_load::check(table) {
        Ok(cleared) => {
            let lines = port_lines(alloc, form, cleared.table(), empty)?;
            let text = with_ends(alloc, form, lines)?;
            Ok(text)
        }
        Err((_, fault)) => Err(Failure::Load(fault)),
    }
}

/// Checks the table of a file, and writes a line for each port with links, then that it is accepted; or as comma-separated values a heading,
/// and a row for each port with links.
///
/// # Errors
///
/// What is met first: `Get`, `Table`, `Load`, `Write`; `Memory` if memory ran out.
pub(crate) fn check<O: Write, F: Folder>(
    alloc: Global,
    path: &str,
    form: Form,
    out: &mut O,
    folder: &mut F,
) -> Result<(), Failure>
    ensures { MatchResult result
        (λ _. Checks form path.now
        (world (O.contents out.old) (F.files folder.old) (F.failed folder.old)) (world (O.contents out.new) (F.files folder.new) (F.failed folder.new)))
        (λ f. FailsToCheck f form path.now
        (world (O.contents out.old) (F.files folder.old) (F.failed folder.old)) (world (O.contents out.new) (F.files folder.new) (F.failed folder.new))) }
{
    // Room for the lines is made before the table is read: asked for after its tree was given back in many small pieces, it
    // has the C library join these, which takes longer than all that is done here.
    let empty = String::with_capacity(alloc, ROOM)?;
    let table = get_table(alloc, folder, path)?;
    let text = accepted_text(alloc, form, table, empty)?;
    write_bytes(out, text.as_bytes())?;
    Ok(())
}
