//! Networks each of whose tables was checked.

ghost use Rattle.std.specs.Prelude.{◌≡◌, All, MatchResult, Ok, Err};
ghost use Rattle.afdx_load.specs.Accepted.{IsAccepted};
ghost use Rattle.afdx_network_check.specs.Order.{tables_fit, loads_fit};
ghost use Rattle.afdx_network_check.specs.Rules.{FitSwitches};

use crate::network::Network;
use afdx_grouping::first_scattered_fault;
use afdx_grouping::laws::{
    accepted_has_no_scattered_fault, less_scatter_is_accepted, nothing_is_scattered,
};
use afdx_wiring::NetworkFault;
use std::marker::Model;

/// A network each of whose tables is accepted by the check of its load, with latencies that may differ as the network says.
///
/// Contracts see it as the network.
#[derive(Drop)]
pub struct ClearedNetwork {
    network: Network,
}

impl Model for ClearedNetwork {
    ghost use Rattle.std.specs.Prelude.{All};
    ghost use Rattle.afdx_load.specs.Accepted.{IsAccepted};
    ghost use Rattle.afdx_network_check.specs.Rules.{FitSwitches};
    ghost use Rattle.afdx_network_check.specs.Net.{Network as Seen};

    ghost Value = { Seen };

    ghost view = { λ c. c.network };

    ghost invariant = { λ c. All IsAccepted c.network.tables × FitSwitches c.network };
}

impl Network {
    /// Checks the loads of the tables, by switch.
    fn tables_fit(&self) -> Result<(), NetworkFault>
        ensures { result ≡ tables_fit self.now 0 self.now.tables }
    {
        for (switch, table) in self.tables().iter().enumerate() {
            let scatter = self.scatter_at(switch, table);
            if let Some(fault) = first_scattered_fault(table, scatter) {
                return Err(NetworkFault::Load(switch, fault));
            }
        }
        Ok(())
    }

    /// Checks what the network file says of latencies, and then the loads of the tables.
    #[tactic(auto, unfolding(crate::specs::Order::loads_fit))]
    fn loads_fit(&self) -> Result<(), NetworkFault>
        ensures { result ≡ loads_fit self.now }
    {
        self.check_latencies()?;
        self.tables_fit()
    }

    /// Accepts the load of each table, with latencies that may differ by the table's latency less the least that the network
    /// file states of its switch. Else the first refusal: `Latency`, by switch; then `Load` of the first switch whose load is
    /// not accepted, with the first fault of its table. It costs as much as the check of each table.
    #[tactic(auto, using(crate::proofs::LoadLemmas::all_accepted, crate::proofs::LoadLemmas::all_fit))]
    pub fn clear(self) -> Result<ClearedNetwork, NetworkFault>
        ensures { MatchResult result
            (λ cleared. (cleared ≡ self) × All IsAccepted self.tables × FitSwitches self × (loads_fit self ≡ Ok tt))
            (λ fault. loads_fit self ≡ Err fault) }
    {
        accepted_has_no_scattered_fault();
        less_scatter_is_accepted();
        nothing_is_scattered();
        self.loads_fit()?;
        Ok(ClearedNetwork { network: self })
    }
}

impl ClearedNetwork {
    /// Returns the network. O(1).
    pub fn network(&self) -> &Network
        ensures network { result.now ≡ self.now }
        ensures accepted { All IsAccepted self.now.tables }
        ensures switches { FitSwitches self.now }
    {
        &self.network
    }
}
