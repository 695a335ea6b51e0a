//! What the program answers to its arguments, over a folder in memory.

use crate::MemoryFolder;
use afdx_messages::Ending;
use afdx_serve::serve;
use std::alloc::{AllocError, Allocator, Global};

/// What the program says of its version in these tests.
pub const VERSION: &str = "1.2.3
kit 4
not proved";

/// Makes a folder with a table and with captures of ports 1 and up.
pub fn folder_of(
    alloc: Global,
    table: &str,
    captures: &[&[u8]],
) -> Result<MemoryFolder<Global>, AllocError> {
    let mut folder = MemoryFolder::new(alloc);
    folder.add("t", table.as_bytes())?;
    let names = [
        "in/port-1.pcap",
        "in/port-2.pcap",
        "in/port-3.pcap",
        "in/port-4.pcap",
    ];
    for (name, bytes) in names.iter().zip(captures) {
        folder.add(name, bytes)?;
    }
    Ok(folder)
}

/// Returns the arguments of a command line.
pub fn split(alloc: Global, line: &str) -> Result<Vec<String>, AllocError> {
    let mut arguments = Vec::new(alloc);
    for argument in line.split_whitespace() {
        arguments.push(String::from_str(alloc, argument)?)?;
    }
    Ok(arguments)
}

/// What the program answers.
#[derive(Drop)]
pub struct Served {
    pub ending: Ending,
    pub out: Vec<u8>,
    pub err: Vec<u8>,
}

impl Served {
    /// Returns whether it is this status, with this on standard output and that on standard error, which took the whole line if there is
    /// one.
    pub fn is(&self, status: u8, out: &[u8], err: &[u8]) -> bool {
        let is_ended = self.ending.status == status && self.ending.is_told;
        is_ended && self.out.as_slice() == out && self.err.as_slice() == err
    }
}

/// Returns what the program answers over a folder.
pub fn answer_over<A: Allocator + Copy>(
    alloc: Global,
    line: &str,
    mut input: &[u8],
    folder: &mut MemoryFolder<A>,
) -> Result<Served, AllocError> {
    // example of afdx_serve
    let arguments = split(alloc, line)?;
    let mut out = Vec::new(alloc);
    let mut err = Vec::new(alloc);
    let ending = serve(
        alloc, VERSION, &arguments, &mut input, &mut out, &mut err, folder,
    );
    // end of example
    Ok(Served { ending, out, err })
}

/// A status, and what is on standard output and on standard error.
pub type Said<'a> = (u8, &'a str, &'a str);

/// Returns whether the program answers so over a folder.
pub fn answers<A: Allocator + Copy>(
    alloc: Global,
    line: &str,
    folder: &mut MemoryFolder<A>,
    (status, out, err): Said,
) -> Result<bool, AllocError> {
    let got = answer_over(alloc, line, b"", folder)?;
    Ok(got.is(status, out.as_bytes(), err.as_bytes()))
}
