//! The command `size`.

ghost use Rattle.std.specs.Prelude.{◌≡◌, ℕ, ◌++◌, [], map, Some, option_map, unwrap_or, IfOk, OnOk, MatchResult, string_bytes, if◌then◌else◌};
ghost use Rattle.afdx_table.specs.Content.{port_row};
ghost use Rattle.afdx_load.specs.Load.{load_of};
ghost use Rattle.afdx_load.specs.Fits.{is_broken, broken_rules};
ghost use Rattle.afdx_serve.specs.Checks.{IsLeastBuffer};
ghost use Rattle.afdx_serve.specs.Sizes.{delay_text, letter_of, letters_of, verdict_text, amounts_text, delays_text};
ghost use Rattle.afdx_serve.specs.Sizes.{of_switch, columns_for, size_in, size_heading, IsSizeOf, AreSizesWith, AreSizesIn};
ghost use Rattle.afdx_serve.specs.Serving.{world, Sizes, FailsToSize};

use crate::forms::heading_in;
use crate::get::get_table;
use afdx_csv::Form;
use afdx_folder::{Folder, write_bytes};
use afdx_load::laws::longest_shows_links;
use afdx_load::{Load, Loads, PARTS, Rule, bounds, breaks, least_buffer, loads};
use afdx_messages::Failure;
use afdx_rows::{NETWORK_SIZE, SIZE, put_size};
use afdx_table::laws::ports_are_found;
use afdx_table::{PortRow, Table};
use std::alloc::{AllocError, Global};
use std::io::Write;

/// Appends the bound of a priority with so many links, beside the greatest delay.
fn push_delay(
    line: &mut String,
    links: u32,
    bound: Option<u128>,
    limit: u64,
) -> Result<(), AllocError>
    ensures { OnOk result (string_bytes line.new ≡ string_bytes line.old ++ delay_text links bound limit) }
{
    if links == 0 {
        line.push_str("-")?;
        return Ok(());
    }
    match bound {
        Some(nanos) => write!(line, "{nanos} of ")?,
        None => line.push_str("none of ")?,
    }
    write!(line, "{limit}")
}

/// Returns the letter of a rule, after a space.
fn letter_of(rule: Rule) -> &'static str
    ensures { result.now ≡ letter_of rule }
{
    match rule {
        Rule::Rate => " L1",
        Rule::Buffer => " L2",
        Rule::HighDelay => " L3",
        Rule::LowDelay => " L4",
    }
}

/// Appends the letter of a rule that the load breaks.
fn push_broken(
    letters: &mut String,
    row: &PortRow,
    load: &Load,
    rule: Rule,
) -> Result<(), AllocError>
    ensures { OnOk result (string_bytes letters.new
        ≡ string_bytes letters.old ++ (if is_broken row.now load.now rule then letter_of rule else [])) }
{
    if breaks(row, load, rule) {
        letters.push_str(letter_of(rule))?;
    }
    Ok(())
}

/// Gathers the letters of all rules that the load breaks.
fn letters(alloc: Global, row: &PortRow, load: &Load) -> Result<String, AllocError>
    ensures { IfOk result (λ text. string_bytes text ≡ letters_of (broken_rules row.now load.now)) }
{
    let mut letters = String::new(alloc);
    push_broken(&mut letters, row, load, Rule::Rate)?;
    push_broken(&mut letters, row, load, Rule::Buffer)?;
    push_broken(&mut letters, row, load, Rule::HighDelay)?;
    push_broken(&mut letters, row, load, Rule::LowDelay)?;
    Ok(letters)
}

/// Appends whether the load fits, or which rules it breaks.
fn push_verdict(
    alloc: Global,
    line: &mut String,
    row: &PortRow,
    load: &Load,
) -> Result<(), AllocError>
    ensures { OnOk result (string_bytes line.new ≡ string_bytes line.old ++ verdict_text (broken_rules row.now load.now)) }
{
    let letters = letters(alloc, row, load)?;
    if letters.is_empty() {
        line.push_str(" fits")
    } else {
        line.push_str(" breaks")?;
        line.push_str(&letters)
    }
}

/// Returns what a port's links need of the line and of the buffer, beside what it has.
fn amounts(alloc: Global, row: &PortRow, load: &Load, least: u128) -> Result<String, AllocError>
    ensures { IfOk result (λ line. string_bytes line ≡ amounts_text row.now load.now least) }
{
    let mut line = format!(in alloc; "port {}", row.id)?;
    write!(line, " rate {} of ", load.rate())?;
    write!(line, "{PARTS} buffer ")?;
    write!(line, "{least} of ")?;
    write!(line, "{}", row.buffer)?;
    Ok(line)
}

/// Appends the two bounds beside the port's greatest delay.
fn push_delays(line: &mut String, row: &PortRow, load: &Load) -> Result<(), AllocError>
    ensures { OnOk result (string_bytes line.new ≡ string_bytes line.old ++ delays_text row.now load.now) }
{
    let bounds = bounds(load);
    line.push_str(" high ")?;
    push_delay(line, load.highs(), bounds.high, row.max_delay)?;
    line.push_str(" low ")?;
    push_delay(line, load.lows(), bounds.low, row.max_delay)
}

/// Appends the name of the switch that a line is of, if there is one.
fn push_switch(line: &mut String, switch: Option<&str>) -> Result<(), AllocError>
    ensures { OnOk result (string_bytes line.new ≡ string_bytes line.old ++ of_switch (option_map (λ name. name.now) switch.entry)) }
{
    let Some(name) = switch else {
        return Ok(());
    };
    line.push_str(", switch ")?;
    line.push_str(name)
}

/// Returns the line of a port with links of a switch, which needs so many bytes at least.
fn size_line(
    alloc: Global,
    switch: Option<&str>,
    row: &PortRow,
    load: &Load,
    least: u128,
) -> Result<String, AllocError>
    ensures { IfOk result (λ line. string_bytes line ≡ size_in Form.Lines (option_map (λ name. name.now) switch.entry) row.now load.now least) }
{
    let mut line = amounts(alloc, row, load, least)?;
    push_delays(&mut line, row, load)?;
    push_verdict(alloc, &mut line, row, load)?;
    push_switch(&mut line, switch)?;
    line.push_str("\n")?;
    Ok(line)
}

/// Returns the columns of rows of a table alone, or of the tables of a network.
fn columns_for(switch: Option<&str>) -> &'static [&'static str]
    ensures { map (λ name. name.now) result.now ≡ columns_for (option_map (λ name. name.now) switch.entry) }
{
    match switch {
        Some(_) => NETWORK_SIZE,
        None => SIZE,
    }
}

/// Returns the name of a switch, or an empty one if there is none.
fn name_or_empty(switch: Option<&str>) -> &str
    ensures { result.now ≡ unwrap_or (option_map (λ name. name.now) switch.entry) [] }
{
    match switch {
        Some(name) => name,
        None => "",
    }
}

/// Returns the row of a port with links of a switch, which needs so many bytes at least.
fn size_row(
    alloc: Global,
    switch: Option<&str>,
    row: &PortRow,
    load: &Load,
    least: u128,
) -> Result<String, AllocError>
    ensures { IfOk result (λ line. string_bytes line ≡ size_in Form.Csv (option_map (λ name. name.now) switch.entry) row.now load.now least) }
{
    let columns = columns_for(switch);
    let name = name_or_empty(switch);
    let mut line = String::new(alloc);
    put_size(alloc, &mut line, columns, name, row, load, least)?;
    Ok(line)
}

/// Returns what is written of a port with links of a switch.
fn size_in(
    alloc: Global,
    form: Form,
    switch: Option<&str>,
    row: &PortRow,
    load: &Load,
) -> Result<String, AllocError>
    ensures { IfOk result (λ line. (least : ℕ) × IsLeastBuffer row.now load.now least
        × (string_bytes line ≡ size_in form (option_map (λ name. name.now) switch.entry) row.now load.now least)) }
{
    let least = least_buffer(load, row.speed);
    match form {
        Form::Lines => size_line(alloc, switch, row, load, least),
        Form::Csv => size_row(alloc, switch, row, load, least),
    }
}

/// Returns what is written of a port of the loads' table, which is that of a switch: no text if no link leads to it.
fn port_size(
    alloc: Global,
    form: Form,
    switch: Option<&str>,
    loads: &Loads<'_>,
    row: &PortRow,
) -> Result<String, AllocError>
    requires { port_row loads.now row.now.id ≡ Some row.now }
    ensures { IfOk result (λ line. IsSizeOf form (option_map (λ name. name.now) switch.entry) row.now (load_of loads.now.latency row.now.speed row.now.id loads.now.links) (string_bytes line)) }
{
    longest_shows_links();
    match loads.at(row.id) {
        Some(load) if load.largest() > 0 => size_in(alloc, form, switch, row, &load),
        _ => Ok(String::new(alloc)),
    }
}

/// Returns what is written before all ports, of a table alone or of the tables of a network.
pub(crate) fn size_heading(
    alloc: Global,
    form: Form,
    switch: Option<&str>,
) -> Result<String, AllocError>
    ensures { IfOk result (λ text. string_bytes text ≡ size_heading form (option_map (λ name. name.now) switch.entry)) }
{
    heading_in(alloc, form, columns_for(switch))
}

/// Returns what is written of the ports with links of a switch's table.
///
/// One pass over the links serves all ports: O(p + m) for p ports, of which there are at most 24, and links that
/// together name m output ports.
pub(crate) fn sizes_text(
    alloc: Global,
    form: Form,
    switch: Option<&str>,
    table: &Table,
) -> Result<String, AllocError>
    ensures { IfOk result (λ text. AreSizesWith form (option_map (λ name. name.now) switch.entry) table.now (string_bytes text)) }
{
    ports_are_found();
    let loads = loads(table);
    let mut text = String::new(alloc);
    for row in table.ports() {
        text.push_str(&port_size(alloc, form, switch, &loads, row)?)?;
    }
    Ok(text)
}

/// Returns what is written of a table alone.
fn table_sizes(alloc: Global, form: Form, table: &Table) -> Result<String, AllocError>
    ensures { IfOk result (λ text. AreSizesIn form table.now (string_bytes text)) }
{
    let mut text = size_heading(alloc, form, None)?;
    let lines = sizes_text(alloc, form, None, table)?;
    text.push_str(&lines)?;
    Ok(text)
}

/// Writes for each port of a file's table that has links what they need and what the port has, whether it fits or not, in this form.
///
/// # Errors
///
/// What is met first: `Get`, `Table`, `Write`; `Memory` if memory ran out.
pub(crate) fn size<O: Write, F: Folder>(
    alloc: Global,
    path: &str,
    form: Form,
    out: &mut O,
    folder: &mut F,
) -> Result<(), Failure>
    ensures { MatchResult result
        (λ _. Sizes form path.now
        (world (O.contents out.old) (F.files folder.old) (F.failed folder.old)) (world (O.contents out.new) (F.files folder.new) (F.failed folder.new)))
        (λ f. FailsToSize f form path.now
        (world (O.contents out.old) (F.files folder.old) (F.failed folder.old)) (world (O.contents out.new) (F.files folder.new) (F.failed folder.new))) }
{
    let table = get_table(alloc, folder, path)?;
    let text = table_sizes(alloc, form, &table)?;
    write_bytes(out, text.as_bytes())?;
    Ok(())
}
