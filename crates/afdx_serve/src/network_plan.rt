//! What a run of a network is made over.

ghost use Rattle.std.specs.Prelude.{◌≡◌, false, not, map, string_bytes, Ok, MatchResult};
ghost use Rattle.afdx_network_check.specs.Order.{misfit};
ghost use Rattle.afdx_network_check.specs.Rules.{IsAcceptedNetwork};
ghost use Rattle.afdx_serve.specs.Networks.{names_of};
ghost use Rattle.afdx_serve.specs.NetworkRuns.{FailsToPlanNetwork};
ghost use Rattle.afdx_serve.specs.Inner.NetworkRunning.{network_in, is_accepted};

use crate::network_check::accept;
use afdx_messages::Failure;
use afdx_network_check::{ClearedNetwork, Network};
use std::alloc::Global;

/// The network that a run is made over.
#[derive(Drop)]
pub(crate) enum NetworkPlan {
    /// One of which nothing was checked: frames may be policed or lost at any switch.
    Unchecked(Network),
    /// An accepted one.
    Accepted(ClearedNetwork),
}

impl NetworkPlan {
    /// Returns the network. O(1).
    pub(crate) fn network(&self) -> &Network
        ensures { result.now ≡ network_in self.now }
    {
        match self {
            NetworkPlan::Unchecked(network) => network,
            NetworkPlan::Accepted(cleared) => cleared.network(),
        }
    }
}

/// Plans a run over a network, of switches of these names, which is checked unless the run is unchecked.
pub(crate) fn plan(
    alloc: Global,
    names: &[String],
    network: Network,
    unchecked: bool,
) -> Result<NetworkPlan, Failure>
    requires { map string_bytes names.now ≡ names_of network.layout.switches }
    ensures { MatchResult result
        (λ plan. (network_in plan ≡ network) × (is_accepted plan ≡ not unchecked) × (unchecked ≡ false → IsAcceptedNetwork network)
        × (unchecked ≡ false → misfit network ≡ Ok tt))
        (λ f. FailsToPlanNetwork f unchecked network) }
{
    if unchecked {
        return Ok(NetworkPlan::Unchecked(network));
    }
    let cleared = accept(alloc, names, network)?;
    Ok(NetworkPlan::Accepted(cleared))
}
