//! The folder in memory that the tests have. Each call that is out of memory is made once more.

use crate::allocations::{Calls, Memory, count, made_again, refuse};
use afdx_fixtures::{MemoryFolder, OneFrame};
use afdx_folder::{Folder, FolderFault, NewFile};
use std::test::*;

/// A call of a folder, for the file at this place.
#[derive(Clone, Copy)]
enum Call {
    /// Puts it.
    Put(usize),
    /// Gets it.
    Get(usize),
    /// Gets a file that is not there.
    GetNone,
}

/// Each file is put, the first of them twice, and then got; then one is got that is not there.
const CALLS: &[Call] = &[
    Call::Put(0),
    Call::Put(1),
    Call::Put(2),
    Call::Put(3),
    Call::Put(4),
    Call::Put(0),
    Call::Get(0),
    Call::Get(1),
    Call::Get(2),
    Call::Get(3),
    Call::Get(4),
    Call::GetNone,
];

/// The name of no file.
const NONE: &str = "in/port-3.pcap";

/// Puts a new file of these bytes.
fn put_bytes<'a>(
    folder: &mut MemoryFolder<&'a Memory>,
    name: &str,
    bytes: &[u8],
) -> Result<(), FolderFault> {
    // example of afdx_folder
    let mut new = folder.begin(name)?;
    new.append(bytes)?;
    let settled = folder.settle(new, name)?;
    folder.put_new(settled, name)
    // end of example
}

/// Puts a file, and returns whether it was put, or none if the folder is out of memory.
fn put<'a>(folder: &mut MemoryFolder<&'a Memory>, name: &str, bytes: &[u8]) -> Option<bool> {
    match put_bytes(folder, name, bytes) {
        Ok(()) => Some(true),
        Err(FolderFault::Memory) => None,
        Err(FolderFault::Device) => Some(false),
    }
}

/// Gets a file, and returns whether it has these bytes, or none if the folder is out of memory.
fn get<'a>(
    folder: &mut MemoryFolder<&'a Memory>,
    memory: &'a Memory,
    name: &str,
    bytes: &[u8],
) -> Option<bool> {
    match folder.get(memory, name) {
        Ok(found) => Some(found.as_slice() == bytes),
        Err(FolderFault::Memory) => None,
        Err(FolderFault::Device) => Some(false),
    }
}

/// Gets a file that is not there, and returns whether that is refused, or none if the folder is out of memory.
fn get_none<'a>(folder: &mut MemoryFolder<&'a Memory>, memory: &'a Memory) -> Option<bool> {
    match folder.get(memory, NONE) {
        Ok(_) => Some(false),
        Err(FolderFault::Memory) => None,
        Err(FolderFault::Device) => Some(true),
    }
}

/// Makes a call of a folder, and returns whether its answer is right, or none if it is out of memory.
fn made<'a>(
    folder: &mut MemoryFolder<&'a Memory>,
    memory: &'a Memory,
    files: &[(&str, &[u8])],
    call: Call,
) -> Option<bool> {
    match call {
        Call::Put(place) => match files.get(place) {
            Some((name, bytes)) => put(folder, name, bytes),
            None => Some(false),
        },
        Call::Get(place) => match files.get(place) {
            Some((name, bytes)) => get(folder, memory, name, bytes),
            None => Some(false),
        },
        Call::GetNone => get_none(folder, memory),
    }
}

/// Makes all the calls. Returns how many of them a folder answers right, the second time if it was out of memory, and how often it was.
fn answered<'a>(
    folder: &mut MemoryFolder<&'a Memory>,
    memory: &'a Memory,
    files: &[(&str, &[u8])],
) -> (usize, u64) {
    let mut right = 0usize;
    let mut wants = 0u64;
    for call in CALLS {
        let mut answer = made(folder, memory, files, *call);
        if answer.is_none() {
            count(&mut wants);
            answer = made(folder, memory, files, *call);
        }
        if answer == Some(true) {
            right = right.saturating_add(1);
        }
    }
    (right, wants)
}

/// The calls for the files of a run.
#[derive(Clone, Copy)]
struct Calling<'a> {
    run: &'a OneFrame,
}

impl Calls for Calling<'_> {
    fn answer(&self, memory: &Memory) -> Result<Option<bool>, Fail> {
        let mut folder = MemoryFolder::new(memory);
        let (right, wants) = answered(&mut folder, memory, &self.run.files());
        let is_right = right == CALLS.len()
            && folder.failures() == 1
            && folder.last_failure() == Some(NONE);
        Ok(made_again(is_right, wants))
    }
}

/// Checks the calls of the folder, which allocate at least once for the name and for the bytes of each file that is put, for the
/// bytes of each that is got, and for the name of the one that is not there.
#[test]
fn files_put_and_got(rt: HostRuntime) -> Result<(), Fail> {
    let alloc = rt.alloc();
    let run = OneFrame::new(alloc)?;
    refuse(&rt, alloc, "Folder in memory", &Calling { run: &run }, 18)
}
