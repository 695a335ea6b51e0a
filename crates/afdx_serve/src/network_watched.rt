//! The run of a network of which nothing is put, as `network measure`, `network survey` and `network trace` make it.

ghost use Rattle.std.specs.Prelude.{◌≡◌, All, Option, IfOk, MatchResult};
ghost use Rattle.afdx_measure.specs.Wanted.{keeps_lists};
ghost use Rattle.afdx_folder.specs.Files.{Files, KeepsFiles};
ghost use Rattle.afdx_arguments.specs.declared.request.NetworkInputs.{NetworkInputs as Asked};
ghost use Rattle.afdx_serve.specs.NetworkMeasures.{WatchesFrom};
ghost use Rattle.afdx_serve.specs.NetworkRuns.{FailsToLeadFrom, FailsToGetGiven};
ghost use Rattle.afdx_serve.specs.Inner.NetworkRunning.{network_in};
ghost use Rattle.afdx_serve.specs.Inner.Watching.{IsPlanned};

use crate::get::open_all;
use crate::network_get::{get_network, names_of};
use crate::network_plan::{NetworkPlan, plan};
use crate::network_run::{names_at, run_failure};
use afdx_arguments::NetworkInputs;
use afdx_folder::Folder;
use afdx_measure::Wanted;
use afdx_messages::Failure;
use afdx_network::{Watched, incoming_at, open_ends, run_watched};
use afdx_table::laws::tables_are_well_formed;
use afdx_wiring::laws::{layouts_are_within_limits, no_port_has_two_wires};
use std::alloc::Global;

/// The network that a run is made over, and the names of its switches.
#[derive(Drop)]
pub(crate) struct Planned {
    pub(crate) names: Vec<String>,
    pub(crate) plan: NetworkPlan,
}

/// Gets the network of a file, and checks it unless the run is unchecked.
///
/// # Errors
///
/// What is met first: as `network check`, without what it checks of loads, tables and jitters if the run is unchecked; `Memory` if
/// memory ran out.
pub(crate) fn get_planned<F: Folder>(
    alloc: Global,
    inputs: &NetworkInputs<'_>,
    folder: &mut F,
) -> Result<Planned, Failure>
    ensures got { MatchResult result
        (λ planned. IsPlanned inputs.now (F.files folder.old) planned × (F.failed folder.new ≡ F.failed folder.old))
        (λ f. FailsToLeadFrom f inputs.now.network.now inputs.now.unchecked inputs.now.input.now (F.files folder.old) (F.failed folder.old) (F.failed folder.new)) }
    ensures same { KeepsFiles (F.files folder.old) (F.files folder.new) }
{
    layouts_are_within_limits();
    no_port_has_two_wires();
    tables_are_well_formed();
    let network = get_network(alloc, folder, inputs.network)?;
    let names = names_of(alloc, &network.layout().switches)?;
    let plan = plan(alloc, &names, network, inputs.unchecked)?;
    Ok(Planned { names, plan })
}

impl Planned {
    /// Runs the network over the captures of a folder, each of which is opened and read once, in pieces, or not read if its switch is down;
    /// returns what is wanted of each switch, and the delays from end to end. What leaves goes nowhere.
    ///
    /// # Errors
    ///
    /// `Get` of a capture, by switch and then by port; `Network` with the fault of a capture, or with a line that was not kept to; `Memory`
    /// if memory ran out.
    pub(crate) fn watched<F: Folder>(
        &self,
        alloc: Global,
        folder: &mut F,
        path: &str,
        wanted: Wanted,
    ) -> Result<Watched<'_>, Failure>
        requires { (inputs : Asked) × (files : Option Files) × IsPlanned inputs files self.now }
        ensures led { MatchResult result
            (λ watched. WatchesFrom (F.files folder.old) path.now (network_in self.now.plan) watched.switches.items watched.origins × (F.failed folder.new ≡ F.failed folder.old))
            (λ f. FailsToGetGiven f (F.files folder.old) path.now (network_in self.now.plan) (F.failed folder.old) (F.failed folder.new)) }
        ensures keeps { IfOk result (λ watched. All (λ both. both.1.keeps ≡ keeps_lists wanted) watched.switches.items) }
        ensures same { KeepsFiles (F.files folder.old) (F.files folder.new) }
    {
        let ends = open_ends(alloc, self.plan.network())?;
        let opened_names = names_at(alloc, path, &self.names, &ends)?;
        let opened = open_all(alloc, folder, &opened_names)?;
        let mut all = incoming_at(alloc, self.plan.network(), &ends, opened)?;
        match run_watched(alloc, self.plan.network(), &mut all, wanted) {
            Ok(watched) => Ok(watched),
            Err(fault) => Err(run_failure(alloc, folder, &self.names, &opened_names, fault)),
        }
    }
}
