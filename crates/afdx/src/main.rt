//! An AFDX switch (ARINC 664 Part 7) over captured traffic.
//!
//! `afdx alone` reads a capture of one ingress port on standard input and writes the capture of the
//! frames that the account of one virtual link passes. `afdx check` and `afdx size` say of a configuration table whether its
//! ports can give what the links ask for. `afdx run` gets a table and one capture for each port, and puts one capture for
//! each port; `afdx measure` says of such a run how long frames took and how full buffers were, `afdx trace` what became
//! of each frame and copy. `afdx network` checks a network of switches, finds its jitters and runs it.
#![tactic(auto)]

mod version;

use crate::version::VERSION;
use afdx_folder::Disk;
use afdx_messages::{Failure, report};
use afdx_progress::{ClearingWriter, Progress, WatchedFolder, WatchedReader};
use afdx_serve::serve;
use std::io::IsTerminal;
use std::process::ExitCode;
use std::{env, io};

/// Returns the arguments of the command line, of which the first is the program's name. Arguments that are not UTF-8 are refused.
fn arguments(rt: &HostRuntime) -> Result<Vec<String>, Failure> {
    match env::args(rt) {
        Ok(arguments) => Ok(arguments.collect(rt.alloc())?),
        Err(e) if e.kind() == io::ErrorKind::OutOfMemory => Err(Failure::Memory),
        Err(_) => Err(Failure::Usage),
    }
}

fn main(rt: HostRuntime) -> ExitCode {
    let progress = Progress::new(&rt, rt.stderr().is_terminal());
    let mut err = ClearingWriter::new(rt.stderr(), &progress);
    let ending = match arguments(&rt) {
        Ok(arguments) => serve(
            rt.alloc(),
            VERSION,
            &arguments,
            &mut WatchedReader::new(rt.stdin(), None, &progress),
            &mut ClearingWriter::new(rt.stdout(), &progress),
            &mut err,
            &mut WatchedFolder::new(Disk::new(rt.alloc(), &rt), &progress),
        ),
        Err(failure) => report(rt.alloc(), &failure, false, &mut err),
    };
    progress.end();
    ExitCode::from(ending.status)
}
