//! Networks by their calls: what the tables of a file are judged for, and its ways.

use afdx_network_check::{ClearedNetwork, Network};
use afdx_network_report::accepted_text;
use afdx_samples::{four_ports_each, network_file, two_switches};
use afdx_table::{Table, read};
use afdx_wiring::{Layout, NetworkFault, Short};
use std::alloc::{AllocError, Global};
use std::test::Fail;

/// Reads the layout of switches A and B, with a wire from A to B.
fn layout(alloc: Global) -> Result<Layout, Fail> {
    // example of afdx_wiring
    let text = network_file(alloc, &["A", "B"], &[("A.4", "B.1", 0)])?;
    let layout = afdx_wiring::read(alloc, text.as_bytes())
        .ok()
        .ok_or("a network file")?;
    Ok(layout)
    // end of example
}

/// Reads the tables of these texts.
fn tables(alloc: Global, texts: &[String]) -> Result<Vec<Table>, Fail> {
    let mut tables = Vec::new(alloc);
    for text in texts {
        tables.push(read(alloc, text.as_bytes())?)?;
    }
    Ok(tables)
}

/// Makes the network of switches A and B, of these tables, which have to fit together.
fn fitting(alloc: Global, texts: &[String]) -> Result<Network, Fail> {
    let tables = tables(alloc, texts)?;
    let layout = layout(alloc)?;
    // example of afdx_network_check
    let network = Network::new(layout, tables)
        .ok()
        .ok_or("ports of the tables")?;
    match network.fit(alloc) {
        Ok(()) => Ok(network),
        Err(_) => Err("tables that fit together".into()),
    }
    // end of example
}

/// Returns the texts of the tables of two switches in a row with this jitter at the second one; 13,440 ns of jitter arise at the first.
fn two_tables(alloc: Global, jitter_us: u32) -> Result<Vec<String>, AllocError> {
    let [first, second] = two_switches(jitter_us);
    four_ports_each(alloc, &[&first, &second])
}

/// Makes the network of these tables, whose loads all have to be accepted. Whether the jitters are enough is not asked.
pub(crate) fn cleared(alloc: Global, jitter_us: u32) -> Result<ClearedNetwork, Fail> {
    let texts = two_tables(alloc, jitter_us)?;
    let network = fitting(alloc, &texts)?;
    let cleared = network.clear().ok().ok_or("loads that are accepted")?;
    Ok(cleared)
}

/// Returns the fault that the check of that network finds, if any.
fn shortage(alloc: Global, jitter_us: u32) -> Result<Option<NetworkFault>, Fail> {
    // example of afdx_network_check
    let network = cleared(alloc, jitter_us)?;
    Ok(network.check(alloc).err())
    // end of example
}

#[test]
fn fourteen_are_enough(rt: HostRuntime) -> Result<(), Fail> {
    let short = Short {
        switch: 1,
        link: 1,
        need: 14,
        has: 13,
    };
    for (jitter_us, fault) in [(14, None), (13, Some(NetworkFault::Jitter(short)))] {
        assert_eq!(rt; shortage(rt.alloc(), jitter_us)?, fault, "{jitter_us}");
    }
    Ok(())
}

/// The least frame takes 6,720 ns at each port.
const FIRST_LINES: &str = "switch A accepted
switch B accepted
link 1 from A.1 to B.2 ways A.4 B.2 least 13440 most ";

#[test]
fn ways_are_reported(rt: HostRuntime) -> Result<(), Fail> {
    let network = cleared(rt.alloc(), 14)?;
    // example of afdx_network_report
    let ways = network.ways(rt.alloc()).ok().ok_or("ways")?;
    let mut names = Vec::new(rt.alloc());
    for name in ["A", "B"] {
        names.push(String::from_str(rt.alloc(), name)?)?;
    }
    let text = accepted_text(rt.alloc(), &names, false, &ways, &[])?;
    assert!(rt; text.as_str().starts_with(FIRST_LINES));
    // end of example
    Ok(())
}
