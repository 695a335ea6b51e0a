//! The links of a network, and the ports at which they lead out of it.

ghost use Rattle.std.specs.Prelude.{◌≡◌, ◌++◌, true, map, string_bytes, Ok, IfOk, OnOk};
ghost use Rattle.afdx_network_check.specs.Order.{misfit};
ghost use Rattle.afdx_serve.specs.Inner.NetworkRunning.{network_in, is_accepted};
ghost use Rattle.afdx_serve.specs.NetworkMeasures.{AreEndsOf, HaveEnds, end_text, unchecked_end};
ghost use Rattle.afdx_network_report.specs.LinkEnds.{link_end_of};

use crate::network_check::ways_of;
use crate::network_plan::NetworkPlan;
use afdx_csv::Form;
use afdx_measure::Delays;
use afdx_network_check::{ClearedNetwork, Exit, Network, Way};
use afdx_network_report::{LinkEnd, put_link_end, put_link_end_row};
use afdx_origins::Origins;
use std::alloc::{AllocError, Global};

/// Returns the ends of ways.
fn ends_of_ways(alloc: Global, ways: &[Way]) -> Result<Vec<LinkEnd>, AllocError>
    ensures { IfOk result (λ ends. ends.items ≡ map link_end_of ways.now) }
{
    let mut ends = Vec::new(alloc);
    for way in ways {
        ends.push(LinkEnd::of_way(way))?;
    }
    Ok(ends)
}

/// Returns the end of an exit of a network of which nothing was checked.
fn end_of_exit(network: &Network, exit: Exit) -> LinkEnd
    ensures { result ≡ unchecked_end network.now exit }
{
    let from = match network.row_at(exit.switch, exit.link) {
        Some(row) => network.source_of(row),
        None => None,
    };
    LinkEnd {
        link: exit.link,
        from,
        to: exit.end(),
        bounds: None,
    }
}

/// Returns the ends of exits.
fn ends_of_exits(
    alloc: Global,
    network: &Network,
    exits: &[Exit],
) -> Result<Vec<LinkEnd>, AllocError>
    ensures { IfOk result (λ ends. ends.items ≡ map (unchecked_end network.now) exits.now) }
{
    let mut ends = Vec::new(alloc);
    for exit in exits {
        ends.push(end_of_exit(network, *exit))?;
    }
    Ok(ends)
}

/// Returns the ends of an accepted network, with what is promised of its ways.
fn accepted_ends(alloc: Global, cleared: &ClearedNetwork) -> Result<Vec<LinkEnd>, AllocError>
    requires { misfit cleared.now ≡ Ok tt }
    ensures { IfOk result (λ ends. AreEndsOf true cleared.now ends.items) }
{
    let ways = ways_of(alloc, cleared)?;
    ends_of_ways(alloc, &ways)
}

/// Returns the links of a network, and the ports at which they lead out of it: by link, then by switch and port.
pub(crate) fn ends_of(alloc: Global, plan: &NetworkPlan) -> Result<Vec<LinkEnd>, AllocError>
    requires { is_accepted plan.now ≡ true → misfit (network_in plan.now) ≡ Ok tt }
    ensures { IfOk result (λ ends. AreEndsOf (is_accepted plan.now) (network_in plan.now) ends.items) }
{
    match plan {
        NetworkPlan::Unchecked(network) => {
            let exits = network.exits(alloc)?;
            ends_of_exits(alloc, network, &exits)
        }
        NetworkPlan::Accepted(cleared) => accepted_ends(alloc, cleared),
    }
}

/// Appends what is written of an end, with these delays: its line, or its row under these columns.
fn push_end(
    alloc: Global,
    form: Form,
    columns: &[&str],
    text: &mut String,
    names: &[String],
    end: &LinkEnd,
    delays: &Delays,
) -> Result<(), AllocError>
    ensures { OnOk result (string_bytes text.new
        ≡ string_bytes text.old ++ end_text form (map (λ column. column.now) columns.now) (map string_bytes names.now) end.now delays.now) }
{
    match form {
        Form::Lines => put_link_end(text, names, end, delays),
        Form::Csv => put_link_end_row(alloc, text, columns, names, end, delays),
    }
}

/// Returns what is written of these ends, with the delays that were noted there: lines, or rows under these columns.
pub(crate) fn ends_in(
    alloc: Global,
    form: Form,
    columns: &[&str],
    names: &[String],
    ends: &[LinkEnd],
    origins: &Origins<'_>,
) -> Result<String, AllocError>
    ensures { IfOk result (λ text.
        HaveEnds form (map (λ column. column.now) columns.now) (map string_bytes names.now) origins.now ends.now (string_bytes text)) }
{
    let mut text = String::new(alloc);
    for end in ends {
        // A link leads to each of its ends, so that this is there.
        let Some(delays) = origins.delays_at(end.link, end.to) else {
            return Err(AllocError);
        };
        push_end(alloc, form, columns, &mut text, names, end, &delays)?;
    }
    Ok(text)
}
