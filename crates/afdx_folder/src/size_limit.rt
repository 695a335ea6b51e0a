//! How large a file this process may write.

use crate::input::{InputFault, read_to_end};
use std::alloc::{AllocError, Allocator};
use std::fs;
use std::fs::File;
use std::rt::Files;

/// Where the system says what this process may do (proc(5) of Linux).
const LIMITS: &str = "/proc/self/limits";

/// What stands there before the limit of a file's size.
const FILE_SIZE: &str = "Max file size";

/// Returns the limit of a file's size that stands in these limits, if there is one.
fn told_size(limits: &[u8]) -> Option<u64> {
    let text = str::from_utf8(limits).ok()?;
    let rest = text.lines().find_map(|line| line.strip_prefix(FILE_SIZE))?;
    rest.split_whitespace().next()?.parse().ok()
}

/// Returns how many bytes a file of this process may have; the greatest number if there is no limit, or none is told. The system ends
/// a process that writes more.
pub(crate) fn greatest_size<R: Files<File = File>, A: Allocator + Copy>(
    rt: &R,
    alloc: A,
) -> Result<u64, AllocError> {
    let Ok(mut limits) = fs::open(rt, LIMITS) else {
        return Ok(u64::MAX);
    };
    match read_to_end(alloc, &mut limits, 0) {
        Ok(bytes) => Ok(told_size(&bytes).unwrap_or(u64::MAX)),
        Err(InputFault::Memory) => Err(AllocError),
        Err(InputFault::Device) => Ok(u64::MAX),
    }
}
