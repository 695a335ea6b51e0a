//! The folder of real files.

ghost use Rattle.std.specs.Prelude.{◌≡◌, None};

use crate::claims::{Claim, Claims};
use crate::device_log::DeviceLog;
use crate::file_id::FileId;
use crate::folder::{Folder, FolderFault};
use crate::input::read_to_end;
use crate::output::WriteFault;
use crate::whole_file::WholeFile;
use std::alloc::{AllocError, Allocator};
use std::fs;
use std::fs::{File, OpenFile, OpenOptions};
use std::io::ErrorKind;
use std::rt::Files;

/// The files of the system, by their paths. It does not show their bytes.
///
/// A put never harms a file: it replaces a file as a whole or leaves it as it is, and it fails if the name leads to a file that
/// was got, to one that may not be written, or to what is no file. No new file is made beside such a name; that it is none is
/// asked once more when the new file is settled. From then on until the last of the settled files is put or let go, this run has
/// the locks of their folders; if another run has one of these, the new file is not settled.
#[derive(Drop)]
pub struct Disk<'a, R: Files, A: Allocator> {
    rt: &'a R,
    alloc: A,
    got: Vec<FileId, A>,
    claims: Claims<A>,
    log: DeviceLog<A>,
}

impl<'a, R: Files, A: Allocator + Copy> Disk<'a, R, A> {
    /// Makes the folder of this system's files, which has got none and has not failed so far. O(1).
    pub fn new(alloc: A, rt: &'a R) -> Disk<'a, R, A>
        ensures { result.log ≡ record { count = 0; last = None; unread = 0; last_unread = None; settled = 0 } }
    {
        Disk {
            rt,
            alloc,
            got: Vec::new(alloc),
            claims: Claims::new(alloc),
            log: DeviceLog::new(alloc),
        }
    }
}

impl<R: Files<File = File>, A: Allocator + Copy> Disk<'_, R, A> {
    /// Has the device take a new file, and returns it. If something of it failed, it may not be put, or another run puts into its
    /// folder, removes it and returns none. What killed runs have left beside its name is removed, if this run has the folder's lock.
    fn settled(&mut self, new: WholeFile<A>, name: &str) -> Result<Option<WholeFile<A>>, AllocError>
        ensures { self.new.log ≡ self.old.log }
    {
        let claim = match self.claims.take(self.rt, name) {
            Ok(claim) => claim,
            Err(refused) => {
                new.remove(self.rt);
                return Err(refused);
            }
        };
        if claim == Claim::Other || !may_be_put(self.rt, name, &self.got) {
            new.remove(self.rt);
            return Ok(None);
        }
        if claim == Claim::Own {
            new.remove_others(self.rt, self.alloc, name);
        }
        Ok(new.settle(self.rt).ok())
    }
}

/// Reads all the bytes of a file, by as many reads as standard input has, and returns them with the file's identity. A file that is not
/// there is a fault.
fn read_file<R: Files, A: Allocator + Copy>(
    rt: &R,
    alloc: A,
    name: &str,
) -> Result<(FileId, Vec<u8, A>), FolderFault> {
    let Ok(mut file) = fs::open(rt, name) else {
        return Err(FolderFault::Device);
    };
    let Ok(metadata) = file.metadata() else {
        return Err(FolderFault::Device);
    };
    let bytes = read_to_end(alloc, &mut file, metadata.len() as usize)?;
    Ok((FileId::of(&metadata), bytes))
}

/// Opens the file under a name, and returns it with its identity. What is not there, is a folder or cannot be opened is a fault.
fn open_file<R: Files>(rt: &R, name: &str) -> Result<(FileId, R::File), FolderFault> {
    let Ok(file) = fs::open(rt, name) else {
        return Err(FolderFault::Device);
    };
    match file.metadata() {
        Ok(metadata) if !metadata.is_dir() => Ok((FileId::of(&metadata), file)),
        _ => Err(FolderFault::Device),
    }
}

/// Returns whether this process may write a file; nothing is written.
fn may_be_written<R: Files>(rt: &R, name: &str) -> bool {
    OpenOptions::new().write(true).open(rt, name).is_ok()
}

/// Returns whether a name may be put: nothing is there, or a file that is none of these, whose mode lets somebody write it and which
/// this process may write.
fn may_be_put<R: Files>(rt: &R, name: &str, got: &[FileId]) -> bool {
    match fs::metadata(rt, name) {
        Ok(metadata) => {
            metadata.is_file()
                && !metadata.permissions().readonly()
                && !got.contains(&FileId::of(&metadata))
                && may_be_written(rt, name)
        }
        Err(e) => e.kind() == ErrorKind::NotFound,
    }
}

impl<R: Files<File = File>, A: Allocator + Copy> Folder for Disk<'_, R, A> {
    type New = WholeFile<A>;

    type Opened = R::File;

    ghost failed = { λ disk. disk.log };

    fn get<B: Allocator + Copy>(
        &mut self,
        alloc: B,
        name: &str,
    ) -> Result<Vec<u8, B>, FolderFault> {
        match read_file(self.rt, alloc, name) {
            Ok((id, bytes)) => {
                self.got.push(id)?;
                Ok(bytes)
            }
            Err(FolderFault::Memory) => Err(FolderFault::Memory),
            Err(FolderFault::Device) => Err(self.log.note(name)),
        }
    }

    fn open(&mut self, name: &str) -> Result<R::File, FolderFault> {
        match open_file(self.rt, name) {
            Ok((id, file)) => {
                self.got.push(id)?;
                Ok(file)
            }
            Err(FolderFault::Memory) => Err(FolderFault::Memory),
            Err(FolderFault::Device) => Err(self.log.note(name)),
        }
    }

    fn note_unread(&mut self, name: &str) -> FolderFault {
        self.log.note_unread(name)
    }

    fn begin(&mut self, name: &str) -> Result<WholeFile<A>, AllocError> {
        if !may_be_put(self.rt, name, &self.got) {
            return Ok(WholeFile::failed());
        }
        WholeFile::beside(self.rt, self.alloc, name)
    }

    fn settle(&mut self, new: WholeFile<A>, name: &str) -> Result<WholeFile<A>, FolderFault> {
        match self.settled(new, name)? {
            Some(new) => {
                self.claims.wait();
                self.log.note_settled();
                Ok(new)
            }
            None => {
                self.claims.end();
                Err(self.log.note(name))
            }
        }
    }

    fn put_new(&mut self, new: WholeFile<A>, name: &str) -> Result<(), FolderFault> {
        let is_settled = new.is_settled();
        let put = if is_settled || may_be_put(self.rt, name, &self.got) {
            new.put(self.rt, name)
        } else {
            new.remove(self.rt);
            Err(WriteFault)
        };
        if is_settled {
            self.claims.done();
        }
        match put {
            Ok(()) => Ok(()),
            Err(WriteFault) => Err(self.log.note(name)),
        }
    }

    fn join(&mut self, new: &mut WholeFile<A>, part: WholeFile<A>) -> Result<(), AllocError> {
        let mut part = part;
        let joined = new.take_in(self.alloc, &mut part);
        part.remove(self.rt);
        joined
    }

    fn abandon(&mut self, new: WholeFile<A>) {
        let is_settled = new.is_settled();
        new.remove(self.rt);
        if is_settled {
            self.claims.done();
        }
    }

    fn failures(&self) -> u64 {
        self.log.count()
    }
}
