//! From what `clap` finds in the arguments of networks to what they ask for.

ghost use Rattle.std.specs.Prelude.{MatchOption};
ghost use Rattle.clap.specs.Words.{found_of, rows_of, subcommand_rows_of};
ghost use Rattle.afdx_arguments.specs.declared.request.NetworkInputs.{NetworkInputs as GivenFiles};
ghost use Rattle.afdx_arguments.specs.declared.request.NetworkPaths.{NetworkPaths as Files};
ghost use Rattle.afdx_arguments.specs.declared.request.NetworkRequest.{NetworkRequest as Asked};
ghost use Rattle.afdx_arguments.specs.Requests.{HasNetworkInputs, HasNetworkPaths, AsksOfNetwork};

use crate::arguments::{argument, flag, form_of};
use crate::request::{NetworkInputs, NetworkPaths, NetworkRequest};
use clap::ArgMatches;

/// Returns the files of a network's run, if all are named. An empty argument names no folder.
fn network_paths_of<'a>(matches: &ArgMatches<'a>) -> Option<NetworkPaths<'a>>
    ensures { MatchOption result ((paths : Files) → HasNetworkPaths (rows_of (found_of matches.now)) paths → ⊥)
        (HasNetworkPaths (rows_of (found_of matches.now))) }
{
    let network = argument(matches, "NET")?;
    let input = argument(matches, "IN")?;
    let output = argument(matches, "OUT")?;
    if input.is_empty() || output.is_empty() {
        return None;
    }
    let unchecked = flag(matches, "unchecked");
    Some(NetworkPaths {
        network,
        input,
        output,
        unchecked,
    })
}

/// Returns the files of a network's run of which nothing is put, if all are named. An empty argument names no folder.
fn network_inputs_of<'a>(matches: &ArgMatches<'a>) -> Option<NetworkInputs<'a>>
    ensures { MatchOption result ((inputs : GivenFiles) → HasNetworkInputs (rows_of (found_of matches.now)) inputs → ⊥)
        (HasNetworkInputs (rows_of (found_of matches.now))) }
{
    let network = argument(matches, "NET")?;
    let input = argument(matches, "IN")?;
    if input.is_empty() {
        return None;
    }
    let unchecked = flag(matches, "unchecked");
    Some(NetworkInputs {
        network,
        input,
        unchecked,
    })
}

/// Returns what the subcommand that was entered asks for, if there is one and its arguments are accepted.
pub(crate) fn network_asked<'a>(matches: &ArgMatches<'a>) -> Option<NetworkRequest<'a>>
    ensures { MatchOption result ((request : Asked) → AsksOfNetwork (subcommand_rows_of matches.now) request → ⊥)
        (AsksOfNetwork (subcommand_rows_of matches.now)) }
{
    let (name, inner) = matches.subcommand()?;
    if name == "check" {
        let path = argument(inner, "NET")?;
        let form = form_of(inner);
        Some(NetworkRequest::Check(path, form))
    } else if name == "size" {
        let path = argument(inner, "NET")?;
        let form = form_of(inner);
        Some(NetworkRequest::Size(path, form))
    } else if name == "jitter" {
        let path = argument(inner, "NET")?;
        let form = form_of(inner);
        Some(NetworkRequest::Jitter(path, form))
    } else if name == "run" {
        let paths = network_paths_of(inner)?;
        let form = form_of(inner);
        Some(NetworkRequest::Run(paths, form))
    } else if name == "measure" {
        let inputs = network_inputs_of(inner)?;
        let form = form_of(inner);
        Some(NetworkRequest::Measure(inputs, form))
    } else if name == "survey" {
        let inputs = network_inputs_of(inner)?;
        let form = form_of(inner);
        Some(NetworkRequest::Survey(inputs, form))
    } else if name == "trace" {
        let paths = network_paths_of(inner)?;
        Some(NetworkRequest::Trace(paths))
    } else {
        None
    }
}
