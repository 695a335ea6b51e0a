//! The command `network jitter`.

ghost use Rattle.std.specs.Prelude.{◌≡◌, ◌≢◌, map, string_bytes, Some, Ok, Err, IfOk, MatchResult};
ghost use Rattle.afdx_table.specs.Content.{port_row};
ghost use Rattle.afdx_wiring.specs.declared.fault.NetworkFault.TheVariants.{Memory};
ghost use Rattle.afdx_network_check.specs.Needs.{AreNeeds};
ghost use Rattle.afdx_network_check.specs.Rules.{FitsTogether};
ghost use Rattle.afdx_serve.specs.NetworkJitters.{rate_fault, first_rate_fault, rates_fit, fit_of, needs_text};
ghost use Rattle.afdx_messages.specs.declared.failure.Failure.TheVariants.{Memory as Out};
ghost use Rattle.afdx_serve.specs.Serving.{world, GivesJitters, FailsToGiveJitters};

use crate::network_get::{get_network, names_of, refused};
use afdx_csv::Form;
use afdx_folder::{Folder, write_bytes};
use afdx_load::{LoadFault, Loads, PARTS, Rule, breaks, loads};
use afdx_messages::{Failure, JitterRule, NetworkFailure};
use afdx_network_check::{Needs, Network, RowNeed, all_past};
use afdx_network_report::{jitter_text, needs_rows};
use afdx_table::laws::ports_are_found;
use afdx_table::{PortRow, Table};
use afdx_wiring::NetworkFault;
use std::alloc::{AllocError, Global};
use std::io::Write;

/// Returns the fault of a port, if its links ask for more than its line.
fn rate_fault(loads: &Loads<'_>, row: &PortRow) -> Option<LoadFault>
    requires { port_row loads.now row.now.id ≡ Some row.now }
    ensures { result ≡ rate_fault loads.now.latency loads.now.links row.now }
{
    let load = loads.at(row.id)?;
    if !breaks(row, &load, Rule::Rate) {
        return None;
    }
    Some(LoadFault {
        port: row.id,
        rule: Rule::Rate,
        need: u128::from(load.rate()),
        limit: u128::from(PARTS),
    })
}

/// Returns the fault of the first port that has one.
fn first_rate_fault(table: &Table) -> Option<LoadFault>
    ensures { result ≡ first_rate_fault table.now.latency table.now.links table.now.ports }
{
    ports_are_found();
    let loads = loads(table);
    for row in table.ports() {
        let fault = rate_fault(&loads, row);
        if fault.is_some() {
            return fault;
        }
    }
    None
}

/// Checks that the links of each switch ask for no more than the lines of its ports.
fn rates_fit(tables: &[Table]) -> Result<(), NetworkFault>
    ensures { result ≡ rates_fit 0 tables.now }
{
    for (switch, table) in tables.iter().enumerate() {
        if let Some(fault) = first_rate_fault(table) {
            return Err(NetworkFault::Load(switch, fault));
        }
    }
    Ok(())
}

/// Checks that the least latencies are as they may be, no line is asked for too much, and the tables fit together.
#[tactic(auto, unfolding(crate::specs::NetworkJitters::fit_of))]
fn check_fit(alloc: Global, network: &Network) -> Result<(), NetworkFault>
    ensures { MatchResult result
        (λ _. (fit_of network.now ≡ Ok tt) × FitsTogether network.now)
        (λ e. e ≢ Memory → fit_of network.now ≡ Err e) }
{
    network.check_latencies()?;
    rates_fit(network.tables())?;
    network.fit(alloc)
}

/// Returns the jitters that the rows of a network need: the least that are enough, if its tables fit together and no line is asked for
/// too much.
fn needs_of(alloc: Global, network: Network) -> Result<Needs, Failure>
    ensures { MatchResult result (λ needs. AreNeeds network needs.rows.items needs.past) (λ f. f ≡ Out) }
{
    match network.jitters(alloc) {
        Ok(needs) => Ok(needs),
        Err(_) => Err(Failure::Memory),
    }
}

/// Returns what is written of the jitters that rows need, of switches of these names.
fn needs_text(
    alloc: Global,
    form: Form,
    names: &[String],
    rows: &[RowNeed],
) -> Result<String, AllocError>
    ensures { IfOk result (λ text. string_bytes text ≡ needs_text form (map string_bytes names.now) rows.now) }
{
    match form {
        Form::Lines => jitter_text(alloc, names, rows),
        Form::Csv => needs_rows(alloc, names, rows),
    }
}

/// Writes for each link of each table of the network of a file the jitter that it needs there, from the jitters of the sources
/// on. If no row needs more than a table can have, `network check` finds these jitters enough; it judges the loads too,
/// which grow with them.
///
/// # Errors
///
/// What is met first: `Get`; `Network`, in the order of the network file, its tables, the ports of its wires, the least
/// latencies by switch, the rates of the ports by switch, what the tables agree on; `Write`; `Network` with each row that needs more
/// than a table can have, after the lines; `Memory` if memory ran out.
///
/// O(files), beside what the jitters take.
pub(crate) fn network_jitter<O: Write, F: Folder>(
    alloc: Global,
    path: &str,
    form: Form,
    out: &mut O,
    folder: &mut F,
) -> Result<(), Failure>
    ensures { MatchResult result
        (λ _. GivesJitters form path.now
        (world (O.contents out.old) (F.files folder.old) (F.failed folder.old)) (world (O.contents out.new) (F.files folder.new) (F.failed folder.new)))
        (λ f. FailsToGiveJitters f form path.now
        (world (O.contents out.old) (F.files folder.old) (F.failed folder.old)) (world (O.contents out.new) (F.files folder.new) (F.failed folder.new))) }
{
    let network = get_network(alloc, folder, path)?;
    let names = names_of(alloc, &network.layout().switches)?;
    if let Err(fault) = check_fit(alloc, &network) {
        return Err(refused(alloc, &names, fault));
    }
    let needs = needs_of(alloc, network)?;
    let text = needs_text(alloc, form, &names, &needs.rows)?;
    let shorts = all_past(alloc, &needs.rows)?;
    write_bytes(out, text.as_bytes())?;
    match needs.past {
        Some(_) => {
            let rows = NetworkFailure::Rows(JitterRule::NoJitter, shorts, names);
            Err(Failure::Network(rows))
        }
        None => Ok(()),
    }
}
