//! The names of files in a folder.

ghost use Rattle.std.specs.Prelude.{◌≡◌, ◌++◌, map, string_bytes, IfOk};
ghost use Rattle.afdx_serve.specs.Runs.{capture_name};

use afdx_table::PortRow;
use std::alloc::{AllocError, Global};

/// Returns the name of a file in a folder.
pub(crate) fn name_in(alloc: Global, folder: &str, file: &str) -> Result<String, AllocError>
    ensures { IfOk result (λ name. string_bytes name ≡ folder.now ++ file.now) }
{
    let mut name = String::from_str(alloc, folder)?;
    name.push_str(file)?;
    Ok(name)
}

/// Returns the name of a port's capture: the folder's name, `/port-`, the port's number, `.pcap`.
pub(crate) fn capture_name(alloc: Global, folder: &str, port: u8) -> Result<String, AllocError>
    ensures { IfOk result (λ name. string_bytes name ≡ capture_name folder.now port) }
{
    let mut name = String::from_str(alloc, folder)?;
    write!(name, "/port-{port}.pcap")?;
    Ok(name)
}

/// Returns the names of the captures of these ports in a folder, in order.
pub(crate) fn port_names(
    alloc: Global,
    folder: &str,
    ports: &[PortRow],
) -> Result<Vec<String>, AllocError>
    ensures { IfOk result (λ names. map string_bytes names.items ≡ map (λ p. capture_name folder.now p.id) ports.now) }
{
    let mut names = Vec::with_capacity(alloc, ports.len())?;
    for port in ports {
        names.push(capture_name(alloc, folder, port.id)?)?;
    }
    Ok(names)
}
