//! The run of one frame, and frames of its link.

use crate::{MemoryFolder, answers};
use afdx_folder::FolderFault;
use afdx_samples::{HEADER, Sample, capture, frame, single};
use std::alloc::{AllocError, Allocator, Global};

/// Makes a frame of link 10, of which so many bytes are captured.
pub fn captured(bytes: u32, seconds: u32, nanos: u32) -> Sample {
    Sample {
        seconds,
        ..frame(10, bytes, nanos)
    }
}

/// The report of one frame of link 10 that comes in at port 1 and goes out at port 2.
pub const REPORT: &str =
    "in 1 seen 1 cut 0 short 0 long 0 foreign 0 no-link 0 wrong-port 0 too-big 0 clean 1
in 2 seen 0 cut 0 short 0 long 0 foreign 0 no-link 0 wrong-port 0 too-big 0 clean 0
link 10 passed 1 policed 0
out 1 high offered 0 full 0 aged 0 sent 0
out 1 low offered 0 full 0 aged 0 sent 0
out 2 high offered 0 full 0 aged 0 sent 0
out 2 low offered 1 full 0 aged 0 sent 1
";

/// A link with BAG 1 ms, no jitter and frames of at most 1518 bytes.
pub const LINK_10: &str = "afdx alone --id 10 --bag 1 --jitter 0 --size 1518";

/// A run of a table whose load is checked.
pub const CHECKED: &str = "afdx run t in out";

/// A run of a table whatever its load.
pub const RUN: &str = "afdx run t in out --unchecked";

/// The comparison of recordings that were made from a switch at rest, whose stamps are when the line was free.
pub const COMPARE: &str = "afdx compare t in out --stamps free --rest --rows found";

/// What it prints of the recordings of one frame.
pub const CONFORMS: &str = "span 0 to 6720
link 10 out 2 passed 1 seen 1 missing 0 extra 0 early 0 late 0 before 0 after 0 unsure 0 least 6720 greatest 6720 bound 159390
out 1 seen 0 foreign 0
out 2 seen 1 foreign 0
conforms
";

/// The file of differences that it puts then.
pub const NO_DIFFERENCES: (&str, &[u8]) = (
    "found/differences.csv",
    b"port,link,kind,record_in,stamp_in,record_out,stamp_out,delay,bound\n",
);

/// The run of one frame of 64 bytes at port 1: the table, and the captures that come in and go out at the ports that have frames.
#[derive(Drop)]
pub struct OneFrame {
    alloc: Global,
    table: String,
    came: Vec<u8>,
    sent: Vec<u8>,
}

impl OneFrame {
    /// Makes the run of a frame that comes at 0.
    pub fn new(alloc: Global) -> Result<OneFrame, AllocError> {
        Ok(OneFrame {
            alloc,
            table: single(alloc)?,
            came: capture(alloc, &[captured(60, 0, 0)])?,
            sent: capture(alloc, &[captured(60, 0, 6_720)])?,
        })
    }

    /// Returns the capture that comes in at port 1.
    pub fn came(&self) -> &[u8] {
        &self.came
    }

    /// Returns the names and bytes of what is there, three files, and of what is put, two.
    pub fn files(&self) -> [(&str, &[u8]); 5] {
        [
            ("t", self.table.as_bytes()),
            ("in/port-1.pcap", &self.came),
            ("in/port-2.pcap", &HEADER),
            ("out/port-1.pcap", &HEADER),
            ("out/port-2.pcap", &self.sent),
        ]
    }

    /// Adds what is there to a folder.
    pub fn add_to<A: Allocator + Copy>(
        &self,
        folder: &mut MemoryFolder<A>,
    ) -> Result<(), AllocError> {
        folder.add("t", self.table.as_bytes())?;
        folder.add("in/port-1.pcap", &self.came)?;
        folder.add("in/port-2.pcap", &HEADER)
    }

    /// Adds what is there and what is put to a folder: recordings of the switch.
    pub fn add_recordings_to<A: Allocator + Copy>(
        &self,
        folder: &mut MemoryFolder<A>,
    ) -> Result<(), AllocError> {
        self.add_to(folder)?;
        folder.add("out/port-1.pcap", &HEADER)?;
        folder.add("out/port-2.pcap", &self.sent)
    }

    /// Returns the recordings, and this file of differences.
    pub fn compared<'a>(&'a self, differences: (&'a str, &'a [u8])) -> [(&'a str, &'a [u8]); 6] {
        let [table, first, second, third, fourth] = self.files();
        [table, first, second, third, fourth, differences]
    }

    /// Makes a folder of what is there, whose call of number `failing` fails so.
    pub fn folder(
        &self,
        failing: u64,
        fault: FolderFault,
    ) -> Result<MemoryFolder<Global>, AllocError> {
        let mut folder = MemoryFolder::failing(self.alloc, failing, fault);
        self.add_to(&mut folder)?;
        Ok(folder)
    }

    /// Makes a folder of what is there, no call of which fails.
    pub fn sound(&self) -> Result<MemoryFolder<Global>, AllocError> {
        self.folder(0, FolderFault::Device)
    }

    /// Returns whether the program, over a folder that fails to settle the new file of this number, has status 5 and this line, for this
    /// name, and left what was there: it put no file, and no new one is left.
    pub fn stops_settling(
        &self,
        arguments: &str,
        number: u64,
        fault: FolderFault,
        (name, line): (Option<&str>, &str),
    ) -> Result<bool, AllocError> {
        let mut folder = self.sound()?;
        folder.fail_to_settle(number, fault);
        let is_said = answers(self.alloc, arguments, &mut folder, (5, "", line))?;
        let is_left = folder.calls() == 3 && folder.holds(&self.files(), 3);
        Ok(is_said && is_left && folder.last_failure() == name)
    }

    /// Returns whether the program, over a folder one of whose calls fails, has status 5 and this line, made no call after that one, and
    /// left the first so many of these files and no others.
    pub fn stops(
        &self,
        arguments: &str,
        broken: &Broken,
        files: &[(&str, &[u8])],
        count: usize,
    ) -> Result<bool, AllocError> {
        let mut folder = self.folder(broken.call, broken.fault)?;
        let is_said = answers(self.alloc, arguments, &mut folder, (5, "", broken.line))?;
        let is_left = broken.is_of(&folder) && folder.holds(files, count);
        Ok(is_said && is_left)
    }
}

/// A call of the folder that fails: its number, from 1, how it fails, the name that the folder then gives, and the program's line.
#[derive(Clone, Copy)]
pub struct Broken<'a> {
    pub call: u64,
    pub fault: FolderFault,
    pub name: Option<&'a str>,
    pub line: &'a str,
}

impl Broken<'_> {
    /// Returns whether the folder was given no call after that one, and gives this name.
    fn is_of(&self, folder: &MemoryFolder<Global>) -> bool {
        folder.calls() == self.call && folder.last_failure() == self.name
    }
}
