//! Networks that are got from a folder: the network file, and the tables that it names.

ghost use Rattle.std.specs.Prelude.{◌≡◌, ℕ, List, Ok, length, map, slice_get, option_map, option_and_then, string_bytes, IfOk, MatchResult};
ghost use Rattle.std.specs.Path.{path_with_file_name};
ghost use Rattle.afdx_network_check.specs.Order.{lost_port};
ghost use Rattle.afdx_folder.specs.Files.{KeepsFiles};
ghost use Rattle.afdx_serve.specs.Networks.{bytes_in, names_of, HasLayout, HasTexts, AreTables, HasNetwork, switch_of, IsRefused, IsRefusedTable};
ghost use Rattle.afdx_serve.specs.Networks.{FailsToLayout, FailsToGetTexts, FailsToReadTables, FailsToJoin, FailsToGetNetwork};

use crate::get::get;
use afdx_folder::Folder;
use afdx_messages::{Failure, NetworkFailure};
use afdx_network_check::Network;
use afdx_table::{Table, TableFault};
use afdx_wiring::{Layout, NetworkFault, Switch};
use std::alloc::{AllocError, Global};
use std::path::PathBuf;

/// Returns the name of a table's file, whose name in a network file is this: beside that file, unless it begins with `/`.
fn table_name(alloc: Global, network: &str, table: &str) -> Result<String, AllocError>
    ensures { IfOk result (λ name. string_bytes name ≡ path_with_file_name network.now table.now) }
{
    let mut path = PathBuf::from_str(alloc, network)?;
    path.set_file_name(table)?;
    Ok(path.into_string())
}

/// Returns copies of the names of switches.
pub(crate) fn names_of(alloc: Global, switches: &[Switch]) -> Result<Vec<String>, AllocError>
    ensures { IfOk result (λ names. map string_bytes names.items ≡ names_of switches.now) }
{
    let mut names = Vec::with_capacity(alloc, switches.len())?;
    for switch in switches {
        names.push(String::from_str(alloc, &switch.name)?)?;
    }
    Ok(names)
}

/// Returns the switch that a refusal is of, by its place from 0; none if it is of no one switch.
fn switch_of(fault: NetworkFault) -> Option<usize>
    ensures { result ≡ switch_of fault }
{
    match fault {
        NetworkFault::Latency(switch)
        | NetworkFault::Load(switch, _)
        | NetworkFault::NoSource(switch, _) => Some(switch),
        NetworkFault::Jitter(short) | NetworkFault::NoJitter(short) => Some(short.switch),
        _ => None,
    }
}

/// Returns a copy of the name at a place, if there is one.
fn name_at(
    alloc: Global,
    names: &[String],
    place: Option<usize>,
) -> Result<Option<String>, AllocError>
    ensures { IfOk result (λ name. option_map string_bytes name ≡ option_and_then (slice_get (map string_bytes names.now)) place) }
{
    let Some(place) = place else {
        return Ok(None);
    };
    match names.get(place) {
        Some(name) => Ok(Some(String::from_str(alloc, name)?)),
        None => Ok(None),
    }
}

/// Returns the failure that a refusal leads to, with the name of its switch among these.
pub(crate) fn refused(alloc: Global, names: &[String], fault: NetworkFault) -> Failure
    ensures { IsRefused (map string_bytes names.now) fault result }
{
    match (fault, name_at(alloc, names, switch_of(fault))) {
        (NetworkFault::Memory, _) | (_, Err(_)) => Failure::Memory,
        (_, Ok(name)) => Failure::Network(NetworkFailure::Refused(fault, name)),
    }
}

/// Gets a network file and reads its layout.
fn get_layout<F: Folder>(alloc: Global, folder: &mut F, path: &str) -> Result<Layout, Failure>
    ensures got { MatchResult result
        (λ layout. HasLayout (F.files folder.old) path.now layout × (F.failed folder.new ≡ F.failed folder.old))
        (λ f. FailsToLayout f (F.files folder.old) path.now (F.failed folder.old) (F.failed folder.new)) }
    ensures same { KeepsFiles (F.files folder.old) (F.files folder.new) }
{
    let text = get(alloc, folder, path)?;
    match afdx_wiring::read(alloc, &text) {
        Ok(layout) => Ok(layout),
        Err(fault) => Err(Failure::from(fault)),
    }
}

/// Gets the files of the tables, by switch.
fn get_texts<F: Folder>(
    alloc: Global,
    folder: &mut F,
    path: &str,
    switches: &[Switch],
) -> Result<Vec<Vec<u8>>, Failure>
    ensures got { MatchResult result
        (λ texts. HasTexts (F.files folder.old) path.now switches.now (bytes_in texts.items) × (F.failed folder.new ≡ F.failed folder.old))
        (λ f. FailsToGetTexts f (F.files folder.old) path.now switches.now (F.failed folder.old) (F.failed folder.new)) }
    ensures same { KeepsFiles (F.files folder.old) (F.files folder.new) }
{
    let mut texts = Vec::new(alloc);
    for switch in switches {
        let name = table_name(alloc, path, &switch.path)?;
        let text = get(alloc, folder, &name)?;
        texts.push(text)?;
    }
    Ok(texts)
}

/// Returns the failure of a table of the switch of this name.
fn refused_table(alloc: Global, refusal: TableFault, name: &str) -> Failure
    ensures { IsRefusedTable refusal name.now result }
{
    match (refusal, String::from_str(alloc, name)) {
        (TableFault::Memory, _) | (_, Err(_)) => Failure::Memory,
        (_, Ok(name)) => Failure::Network(NetworkFailure::Table(refusal, name)),
    }
}

/// Reads the tables of these texts, by switch.
fn read_tables(alloc: Global, switches: &[Switch], texts: &[Vec<u8>]) -> Result<Vec<Table>, Failure>
    requires { length texts.now ≡ length switches.now }
    ensures { MatchResult result
        (λ tables. AreTables (bytes_in texts.now) tables.items)
        (λ f. FailsToReadTables f switches.now (bytes_in texts.now)) }
{
    let mut tables = Vec::new(alloc);
    for place in 0..texts.len() {
        match afdx_table::read(alloc, &texts[place]) {
            Ok(table) => tables.push(table)?,
            Err(refusal) => {
                let switch = &switches[place];
                return Err(refused_table(alloc, refusal, &switch.name));
            }
        }
    }
    Ok(tables)
}

/// Gets the tables of a layout and joins them to its network.
fn join<F: Folder>(
    alloc: Global,
    folder: &mut F,
    path: &str,
    layout: Layout,
) -> Result<Network, Failure>
    ensures got { MatchResult result
        (λ net. ((net.layout ≡ layout) × ((texts : List (List ℕ)) × HasTexts (F.files folder.old) path.now layout.switches texts × AreTables texts net.tables)
        × (lost_port net.tables layout.wires ≡ Ok tt)) × (F.failed folder.new ≡ F.failed folder.old))
        (λ f. FailsToJoin f (F.files folder.old) path.now layout (F.failed folder.old) (F.failed folder.new)) }
    ensures same { KeepsFiles (F.files folder.old) (F.files folder.new) }
{
    let texts = get_texts(alloc, folder, path, &layout.switches)?;
    let tables = read_tables(alloc, &layout.switches, &texts)?;
    match Network::new(layout, tables) {
        Ok(network) => Ok(network),
        Err(fault) => Err(Failure::from(fault)),
    }
}

/// Gets the network of a file and of the tables that it names; all files are got before the first table is read.
///
/// # Errors
///
/// What is met first: `Get` of the network file, `Refused` of its text, `Get` of a table, `Table`, `Refused` if an end of
/// a wire is no port; `Memory` if memory ran out. O(files).
pub(crate) fn get_network<F: Folder>(
    alloc: Global,
    folder: &mut F,
    path: &str,
) -> Result<Network, Failure>
    ensures got { MatchResult result
        (λ net. HasNetwork (F.files folder.old) path.now net × (F.failed folder.new ≡ F.failed folder.old))
        (λ f. FailsToGetNetwork f (F.files folder.old) path.now (F.failed folder.old) (F.failed folder.new)) }
    ensures same { KeepsFiles (F.files folder.old) (F.files folder.new) }
{
    let layout = get_layout(alloc, folder, path)?;
    join(alloc, folder, path, layout)
}
