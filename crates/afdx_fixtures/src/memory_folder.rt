//! A folder in memory, one of whose calls fails.

ghost use Rattle.std.specs.Prelude.{◌≡◌, Some, find, string_bytes, option_map, option_copied};
ghost use Rattle.std.specs.Str.{bytes_eq};
ghost use Rattle.std.specs.Io.Cursor.{cursor_remaining};
ghost use Rattle.afdx_folder.specs.Files.{HasCause};
ghost use Rattle.afdx_fixtures.specs.declared.memory_folder.File.{File};

use afdx_folder::{DeviceLog, Folder, FolderFault, NewFile};
use afdx_samples::MemoryFile;
use std::alloc::{AllocError, Allocator};
use std::io;
use std::io::{Cursor, ErrorKind, Read};

/// A name, and the bytes that are under it.
#[derive(Debug, Drop)]
struct File<A: Allocator> {
    name: String<A>,
    bytes: Vec<u8, A>,
}

/// A copy of a file's bytes, to be read in pieces.
#[derive(Drop)]
pub struct OpenedFile<A: Allocator> {
    left: Cursor<Vec<u8, A>>,
    fails: bool,
}

impl<A: Allocator> Read for OpenedFile<A> {
    ghost remaining = { λ file. cursor_remaining (λ v. Some v.items) file.left };

    fn read(&mut self, buf: &mut [u8]) -> io::Result<usize> {
        if self.fails {
            return Err(io::Error::from(ErrorKind::Other));
        }
        self.left.read(buf)
    }
}

/// The files, the one that was put last first, and how many new ones were neither put nor let go. Of the calls that get, open or put,
/// the one of number `failing`, from 1, fails so, and of those that settle a new file the one of number `failing_settle`; 0 is none.
#[derive(Debug, Drop)]
pub struct MemoryFolder<A: Allocator> {
    alloc: A,
    files: Vec<File<A>, A>,
    begun: usize,
    fails_to_read: bool,
    calls: u64,
    failing: u64,
    settles: u64,
    failing_settle: u64,
    fault: FolderFault,
    log: DeviceLog<A>,
}

impl<A: Allocator + Copy> MemoryFolder<A> {
    /// Makes a folder of no files, no call of which fails.
    pub fn new(alloc: A) -> MemoryFolder<A> {
        MemoryFolder::failing(alloc, 0, FolderFault::Device)
    }

    /// Makes a folder of no files, whose call of number `failing` fails so.
    pub fn failing(alloc: A, failing: u64, fault: FolderFault) -> MemoryFolder<A> {
        MemoryFolder {
            alloc,
            files: Vec::new(alloc),
            begun: 0,
            fails_to_read: false,
            calls: 0,
            failing,
            settles: 0,
            failing_settle: 0,
            fault,
            log: DeviceLog::new(alloc),
        }
    }

    /// Lets no file that it opens from now on be read.
    pub fn fail_to_read(&mut self) {
        self.fails_to_read = true;
    }

    /// Lets the call of this number, from 1, fail so from now on.
    pub fn fail_at(&mut self, failing: u64, fault: FolderFault) {
        self.failing = failing;
        self.fault = fault;
    }

    /// Lets the new file of this number, from 1, fail so from now on when it is settled.
    pub fn fail_to_settle(&mut self, failing: u64, fault: FolderFault) {
        self.failing_settle = failing;
        self.fault = fault;
    }

    /// Puts a file, which is not counted as a call.
    pub fn add(&mut self, name: &str, bytes: &[u8]) -> Result<(), AllocError> {
        let name = String::from_str(self.alloc, name)?;
        let bytes = Vec::from_slice(self.alloc, bytes)?;
        self.files.insert(0, File { name, bytes })?;
        Ok(())
    }

    /// Returns whether it has the first so many of these files and no others, each once, and no new ones.
    pub fn holds(&self, files: &[(&str, &[u8])], count: usize) -> bool {
        let mut all = self.count() == count;
        for place in 0..count {
            all = all
                && match files.get(place) {
                    Some((name, bytes)) => self.bytes(name) == Some(*bytes),
                    None => false,
                };
        }
        all
    }

    /// Returns how many times a file was added or put, plus how many new ones are left beside these.
    pub fn count(&self) -> usize {
        self.files.len().saturating_add(self.begun)
    }

    /// Returns how many calls that get, open or put it was given.
    pub fn calls(&self) -> u64 {
        self.calls
    }

    /// Returns the name that the last failure was for, if there was one.
    pub fn last_failure(&self) -> Option<&str> {
        self.log.last()
    }

    /// Returns the name of what it had opened and could not be read at last, if there was such a file.
    pub fn last_unread(&self) -> Option<&str> {
        self.log.last_unread()
    }

    /// Returns the bytes that are under a name, if there is such a file.
    pub fn bytes(&self, name: &str) -> Option<&[u8]> {
        match find_file(&self.files, name) {
            Some(file) => Some(file.bytes.as_slice()),
            None => None,
        }
    }
}

fn find_file<'a, A: Allocator>(files: &'a [File<A>], name: &str) -> Option<&'a File<A>>
    ensures { option_copied result ≡ find (λ f. bytes_eq (string_bytes f.name) name.now) files.now }
{
    files.iter().find(|file| file.name.as_str() == name)
}

/// Counts a call for this name, and returns the fault if it is the one that fails.
fn call<A: Allocator + Copy>(folder: &mut MemoryFolder<A>, name: &str) -> Result<(), FolderFault>
    ensures files { folder.new.files ≡ folder.old.files }
    ensures cause { HasCause name.now folder.old.log folder.new.log result }
{
    folder.calls = folder.calls.saturating_add(1);
    if folder.calls != folder.failing {
        return Ok(());
    }
    match folder.fault {
        FolderFault::Memory => Err(FolderFault::Memory),
        FolderFault::Device => Err(folder.log.note(name)),
    }
}

impl<B: Allocator + Copy> Folder for MemoryFolder<B> {
    type New = MemoryFile<B>;

    type Opened = OpenedFile<B>;

    ghost files = { λ m. Some (λ name. option_map (λ f. f.bytes.items) (find (λ f. bytes_eq (string_bytes f.name) name) m.files.items)) };

    ghost failed = { λ m. m.log };

    fn get<A: Allocator + Copy>(
        &mut self,
        alloc: A,
        name: &str,
    ) -> Result<Vec<u8, A>, FolderFault> {
        call(self, name)?;
        let Some(file) = find_file(&self.files, name) else {
            return Err(self.log.note(name));
        };
        match Vec::from_slice(alloc, &file.bytes) {
            Ok(bytes) => Ok(bytes),
            Err(_) => Err(FolderFault::Memory),
        }
    }

    fn open(&mut self, name: &str) -> Result<OpenedFile<B>, FolderFault> {
        call(self, name)?;
        let Some(file) = find_file(&self.files, name) else {
            return Err(self.log.note(name));
        };
        let Ok(bytes) = Vec::from_slice(self.alloc, &file.bytes) else {
            return Err(FolderFault::Memory);
        };
        Ok(OpenedFile {
            left: Cursor::new(bytes),
            fails: self.fails_to_read,
        })
    }

    fn note_unread(&mut self, name: &str) -> FolderFault {
        self.log.note_unread(name)
    }

    /// Begins a new file with room for the header of a capture.
    fn begin(&mut self, _name: &str) -> Result<MemoryFile<B>, AllocError> {
        let bytes = Vec::with_capacity(self.alloc, 24)?;
        self.begun = self.begun.saturating_add(1);
        Ok(MemoryFile { bytes })
    }

    fn settle(&mut self, new: MemoryFile<B>, name: &str) -> Result<MemoryFile<B>, FolderFault> {
        self.settles = self.settles.saturating_add(1);
        if self.settles != self.failing_settle {
            self.log.note_settled();
            return Ok(new);
        }
        self.begun = self.begun.saturating_sub(1);
        match self.fault {
            FolderFault::Memory => Err(FolderFault::Memory),
            FolderFault::Device => Err(self.log.note(name)),
        }
    }

    fn put_new(&mut self, new: MemoryFile<B>, name: &str) -> Result<(), FolderFault> {
        self.begun = self.begun.saturating_sub(1);
        call(self, name)?;
        let name = String::from_str(self.alloc, name)?;
        let bytes = new.bytes;
        self.files.insert(0, File { name, bytes })?;
        Ok(())
    }

    fn join(&mut self, new: &mut MemoryFile<B>, part: MemoryFile<B>) -> Result<(), AllocError> {
        self.begun = self.begun.saturating_sub(1);
        new.append(&part.bytes)
    }

    fn abandon(&mut self, _new: MemoryFile<B>) {
        self.begun = self.begun.saturating_sub(1);
    }

    fn failures(&self) -> u64 {
        self.log.count()
    }
}
