//! Whether the tables of a network fit together.

ghost use Rattle.std.specs.Prelude.{IfOk};
ghost use Rattle.afdx_wiring.specs.Refusal.{Gives};
ghost use Rattle.afdx_network_check.specs.Order.{misfit};
ghost use Rattle.afdx_network_check.specs.Rules.{FitsTogether};

use crate::network::Network;
use crate::shared::Shared;
use afdx_wiring::NetworkFault;
use std::alloc::Global;

impl Network {
    /// Checks that the tables fit together: both ends of a wire agree, each link goes on after the wires that it is sent on,
    /// and each row is fed by one end system's port at last.
    ///
    /// The first refusal in this order is given, rule by rule; within one rule by wire and by the row that leads to it, or by
    /// switch and row; and `Memory` if memory ran out:
    ///
    /// 1. By wire: `Constant`, `Speed`.
    /// 2. By wire and row: `NoRow`.
    /// 3. By wire and row: `From`.
    /// 4. By wire and row: `Size`, `Bag`, `Police`.
    /// 5. By switch and row: `NoSource`.
    /// 6. By switch and row: `TwiceSource`.
    ///
    /// O(r s w) for r rows, at most s switches on a way, and w wires; O(r) memory.
    #[tactic(auto, unfolding(crate::specs::Order::misfit))]
    pub fn fit(&self, alloc: Global) -> Result<(), NetworkFault>
        ensures first { Gives (λ u. u) result (misfit self.now) }
        ensures fits { IfOk result (λ _. FitsTogether self.now) }
    {
        self.all_joined()?;
        self.all_share(Shared::Number)?;
        self.all_share(Shared::Port)?;
        self.all_share(Shared::Terms)?;
        self.all_have_sources()?;
        self.each_fed_once(alloc)
    }
}
