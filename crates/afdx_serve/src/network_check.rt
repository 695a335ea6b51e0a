//! The command `network check`.

ghost use Rattle.std.specs.Prelude.{◌≡◌, [], map, string_bytes, Ok, IfOk, MatchResult};
ghost use Rattle.afdx_wiring.specs.Refusal.{Gives};
ghost use Rattle.afdx_network_check.specs.Order.{misfit};
ghost use Rattle.afdx_network_check.specs.Rules.{FitsTogether, HasJitters, IsAcceptedNetwork};
ghost use Rattle.afdx_network_check.specs.Ways.{AreWaysOf};
ghost use Rattle.afdx_messages.specs.declared.network_failure.JitterRule.TheVariants.{Jitter};
ghost use Rattle.afdx_serve.specs.Networks.{names_of, judged, AreRefusedRows, FailsToAcceptNetwork};
ghost use Rattle.afdx_serve.specs.NetworkChecks.{ways_text, IsNetworkCheck};
ghost use Rattle.afdx_serve.specs.Serving.{world, ChecksNetwork, FailsToCheckNetwork};

use crate::network_get::{get_network, names_of, refused};
use afdx_csv::Form;
use afdx_folder::{Folder, write_bytes};
use afdx_messages::{Failure, JitterRule, NetworkFailure};
use afdx_network_check::{ClearedNetwork, Network, Way, part_ways};
use afdx_network_report::{accepted_text, ways_rows};
use afdx_wiring::{NetworkFault, Short, Switch};
use std::alloc::{AllocError, Global};
use std::io::Write;

/// Checks whether the tables of a network whose loads are accepted fit together, and returns the rows whose jitter is not enough.
fn judge(alloc: Global, cleared: &ClearedNetwork) -> Result<Vec<Short>, NetworkFault>
    ensures first { Gives (λ shorts. shorts.items) result (judged cleared.now) }
    ensures kept { IfOk result (λ _. misfit cleared.now ≡ Ok tt) }
    ensures fits { IfOk result (λ shorts. FitsTogether cleared.now × (shorts.items ≡ [] → HasJitters cleared.now)) }
{
    cleared.network().fit(alloc)?;
    cleared.shortages(alloc)
}

/// Returns the failure of rows whose jitter is not enough, of a network of these switches.
fn short_rows(alloc: Global, switches: &[Switch], shorts: Vec<Short>) -> Failure
    ensures { AreRefusedRows (names_of switches.now) Jitter shorts.items result }
{
    match names_of(alloc, switches) {
        Ok(names) => Failure::Network(NetworkFailure::Rows(JitterRule::Jitter, shorts, names)),
        Err(_) => Failure::Memory,
    }
}

/// Accepts a network, of switches of these names.
pub(crate) fn accept(
    alloc: Global,
    names: &[String],
    network: Network,
) -> Result<ClearedNetwork, Failure>
    requires { map string_bytes names.now ≡ names_of network.layout.switches }
    ensures { MatchResult result
        (λ cleared. (cleared ≡ network) × IsAcceptedNetwork network × (misfit network ≡ Ok tt))
        (λ f. FailsToAcceptNetwork f network) }
{
    let cleared = match network.clear() {
        Ok(cleared) => cleared,
        Err(fault) => return Err(refused(alloc, names, fault)),
    };
    let shorts = match judge(alloc, &cleared) {
        Ok(shorts) => shorts,
        Err(fault) => return Err(refused(alloc, names, fault)),
    };
    if shorts.is_empty() {
        return Ok(cleared);
    }
    let switches = &cleared.network().layout().switches;
    Err(short_rows(alloc, switches, shorts))
}

/// Finds the ways of a network that fits together. An error says that memory ran out.
pub(crate) fn ways_of(alloc: Global, cleared: &ClearedNetwork) -> Result<Vec<Way>, AllocError>
    requires { misfit cleared.now ≡ Ok tt }
    ensures { IfOk result (λ ways. AreWaysOf cleared.now ways.items) }
{
    match cleared.ways(alloc) {
        Ok(ways) => Ok(ways),
        Err(NetworkFault::Memory) => Err(AllocError),
        Err(_) => unreachable!(),
    }
}

/// Returns what is written of an accepted network, of switches of these names, of its ways and of those over which nothing comes.
fn ways_text(
    alloc: Global,
    form: Form,
    names: &[String],
    one_line: bool,
    ways: &[Way],
    lost: &[Way],
) -> Result<String, AllocError>
    ensures { IfOk result (λ text. string_bytes text ≡ ways_text form (map string_bytes names.now) one_line ways.now lost.now) }
{
    match form {
        Form::Lines => accepted_text(alloc, names, one_line, ways, lost),
        Form::Csv => ways_rows(alloc, names, ways, lost),
    }
}

/// Returns what is written of an accepted network.
fn check_text(
    alloc: Global,
    form: Form,
    names: &[String],
    cleared: &ClearedNetwork,
) -> Result<String, AllocError>
    requires names { map string_bytes names.now ≡ names_of cleared.now.layout.switches }
    requires kept { misfit cleared.now ≡ Ok tt }
    ensures { IfOk result (λ text. IsNetworkCheck form cleared.now (string_bytes text)) }
{
    let ways = ways_of(alloc, cleared)?;
    let layout = cleared.network().layout();
    let ways = part_ways(alloc, layout, ways)?;
    ways_text(alloc, form, names, layout.one_line, &ways.up, &ways.lost)
}

/// Accepts a network and returns what is written of it.
fn network_text(alloc: Global, form: Form, network: Network) -> Result<String, Failure>
    ensures { MatchResult result
        (λ text. IsAcceptedNetwork network × IsNetworkCheck form network (string_bytes text))
        (λ f. FailsToAcceptNetwork f network) }
{
    let names = names_of(alloc, &network.layout().switches)?;
    let cleared = accept(alloc, &names, network)?;
    let text = check_text(alloc, form, &names, &cleared)?;
    Ok(text)
}

/// Checks the network of a file, and writes a line for each switch, one for each way of a link, one for each end
/// to which nothing comes in an outage, and that it is accepted; or as comma-separated values a row for each of
/// these ways and ends.
///
/// # Errors
///
/// What is met first: `Get`; `Network`, in the order of the network file, its tables, the ports of its wires, the least
/// latencies by switch, the loads by switch, what the tables agree on, all rows whose jitter is not enough; `Write`; `Memory`
/// if memory ran out.
///
/// O(files), beside the checks.
pub(crate) fn network_check<O: Write, F: Folder>(
    alloc: Global,
    path: &str,
    form: Form,
    out: &mut O,
    folder: &mut F,
) -> Result<(), Failure>
    ensures { MatchResult result
        (λ _. ChecksNetwork form path.now
        (world (O.contents out.old) (F.files folder.old) (F.failed folder.old)) (world (O.contents out.new) (F.files folder.new) (F.failed folder.new)))
        (λ f. FailsToCheckNetwork f form path.now
        (world (O.contents out.old) (F.files folder.old) (F.failed folder.old)) (world (O.contents out.new) (F.files folder.new) (F.failed folder.new))) }
{
    let network = get_network(alloc, folder, path)?;
    let text = network_text(alloc, form, network)?;
    write_bytes(out, text.as_bytes())?;
    Ok(())
}
