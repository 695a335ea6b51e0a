//! What is told of a read.

use afdx_progress::{Progress, WatchedReader};
use std::io::Read;
use std::test::Fail;

/// Checks that a watched reader reads. Standard error is no terminal here, so nothing is shown.
#[test]
fn a_watched_reader_reads(rt: HostRuntime) -> Result<(), Fail> {
    let mut bytes = [0u8; 8];
    // example of afdx_progress
    let progress = Progress::new(&rt, false);
    let mut reader = WatchedReader::new(b"three".as_slice(), Some(5), &progress);
    let count = reader.read(&mut bytes)?;
    progress.end();
    assert!(rt; bytes.get(..count) == Some(b"three".as_slice()));
    // end of example
    Ok(())
}
