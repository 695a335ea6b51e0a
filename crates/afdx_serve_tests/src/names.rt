//! The messages of faults: each is its variant's name.

use afdx_alone::AloneFault;
use afdx_folder::FolderFault;
use afdx_load::{LoadFault, Rule};
use afdx_messages::{ArgumentFault, Failure, report};
use afdx_pcap::PcapFault;
use afdx_table::TableFault;
use std::alloc::{AllocError, Global};

/// Returns whether a folder's fault is printed as this name.
fn is_of_folder(alloc: Global, fault: FolderFault, name: &str) -> Result<bool, AllocError> {
    Ok(format!(in alloc; "{fault}")?.as_str() == name)
}

/// Returns whether a fault of the policing of one link is printed as this name.
fn is_of_alone(alloc: Global, fault: AloneFault, name: &str) -> Result<bool, AllocError> {
    Ok(format!(in alloc; "{fault}")?.as_str() == name)
}

/// Returns whether each of these faults is printed as its name.
fn faults_are_named(alloc: Global) -> Result<bool, AllocError> {
    let memory = is_of_folder(alloc, FolderFault::Memory, "Memory")?;
    let device = is_of_folder(alloc, FolderFault::Device, "Device")?;
    let alone_memory = is_of_alone(alloc, AloneFault::Memory, "Memory")?;
    let capture = is_of_alone(alloc, AloneFault::Capture(PcapFault::Magic), "Capture")?;
    Ok(memory && device && alone_memory && capture)
}

#[test]
fn folder_and_alone_faults_are_named(rt: HostRuntime) {
    assert!(rt; matches!(faults_are_named(rt.alloc()), Ok(true)));
}

/// Returns whether a failure is printed as this name.
fn is_named(alloc: Global, failure: Failure, name: &str) -> Result<bool, AllocError> {
    Ok(format!(in alloc; "{failure}")?.as_str() == name)
}

/// What a table of too high a load is refused for.
const LOAD: LoadFault = LoadFault {
    rule: Rule::Rate,
    port: 2,
    need: 2,
    limit: 1,
};

/// Returns whether the failures of what a folder gets or puts are printed as their names.
fn files_are_named(alloc: Global) -> Result<bool, AllocError> {
    let got = is_named(alloc, Failure::Get(String::from_str(alloc, "t")?), "Get")?;
    let put = is_named(alloc, Failure::Put(String::from_str(alloc, "t")?), "Put")?;
    Ok(got && put)
}

/// Returns whether the failures of a table and of captures that are none, and of a load that is too high, are printed as their names.
fn inputs_are_named(alloc: Global) -> Result<bool, AllocError> {
    let magic = PcapFault::Magic;
    let table = is_named(alloc, Failure::Table(TableFault::Toml), "Table")?;
    let load = is_named(alloc, Failure::Load(LOAD), "Load")?;
    let capture = is_named(alloc, Failure::Capture(magic), "Capture")?;
    let port = is_named(alloc, Failure::PortCapture(1, magic), "PortCapture")?;
    Ok(table && load && capture && port)
}

/// Returns whether the failures of arguments, devices and memory, and of what a run is to fail on, are printed as their names.
fn others_are_named(alloc: Global) -> Result<bool, AllocError> {
    let found = is_named(alloc, Failure::Found, "Found")?;
    let usage = is_named(alloc, Failure::Usage, "Usage")?;
    let misfit = Failure::Argument(ArgumentFault::Ports(3));
    let argument = is_named(alloc, misfit, "Argument")?;
    let read = is_named(alloc, Failure::Read, "Read")?;
    let write = is_named(alloc, Failure::Write, "Write")?;
    let memory = is_named(alloc, Failure::Memory, "Memory")?;
    Ok(found && usage && argument && read && write && memory)
}

#[test]
fn failures_are_named(rt: HostRuntime) {
    let inputs = inputs_are_named(rt.alloc()) == Ok(true);
    let files = files_are_named(rt.alloc()) == Ok(true);
    let others = others_are_named(rt.alloc()) == Ok(true);
    assert!(rt; inputs && files && others);
}

#[test]
fn line_of_a_failure(rt: HostRuntime) {
    // example of afdx_messages
    let mut line = Vec::new(rt.alloc());
    let ending = report(rt.alloc(), &Failure::Usage, false, &mut line);
    assert!(rt;
        ending.status == 2 && ending.is_told && line.as_slice() == b"afdx: usage\n".as_slice()
    );
    // end of example
}
