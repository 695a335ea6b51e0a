//! A file that is put as a whole or not at all.

use crate::file_id::is_under;
use crate::folder::FolderFault;
use crate::input::CHUNK;
use crate::new_file::NewFile;
use crate::output::{WriteFault, write_bytes};
use crate::size_limit::greatest_size;
use std::alloc::{AllocError, Allocator};
use std::fs;
use std::fs::{File, Metadata, OpenFile, TryLockError};
use std::io::{ErrorKind, Read, Seek, SeekFrom};
use std::os::unix::fs::{MetadataExt, lchown};
use std::rt::Files;

/// How many names are tried for a new file (profile).
const NAMES: u8 = 250;

/// After so many free names in a row no file of a killed run is sought (profile): more than the parts that are joined to one new file.
const FREE_NAMES: u8 = 32;

/// Returns the name of the new file of this number beside this name.
fn name_beside<A: Allocator + Copy>(
    alloc: A,
    name: &str,
    number: u8,
) -> Result<String<A>, AllocError> {
    format!(in alloc; "{name}.new-{number}")
}

/// Takes the lock of a new file, by which others know that it is in use. Returns false if another run took the file for one of a killed
/// run before.
fn hold<R: Files<File = File>>(rt: &R, file: &File, beside: &str) -> bool {
    match file.try_lock() {
        Ok(()) => is_under(rt, file, beside),
        Err(TryLockError::WouldBlock) => false,
        Err(TryLockError::Error(_)) => true,
    }
}

/// Makes a new file beside this name, and returns it with its name: `.new-0`, or the next number of which there is no file, is added.
fn create_beside<R: Files<File = File>, A: Allocator + Copy>(
    rt: &R,
    alloc: A,
    name: &str,
) -> Result<(File, String<A>), FolderFault> {
    for number in 0..NAMES {
        let beside = name_beside(alloc, name, number)?;
        match File::create_new(rt, beside.as_str()) {
            Ok(file) => {
                if hold(rt, &file, &beside) {
                    return Ok((file, beside));
                }
            }
            Err(e) if e.kind() == ErrorKind::AlreadyExists => {}
            Err(_) => return Err(FolderFault::Device),
        }
    }
    Err(FolderFault::Device)
}

/// Removes a file if no run holds it, and returns whether there was something. What is no file, and a link, stay.
fn remove_left<R: Files<File = File>>(rt: &R, beside: &str) -> bool {
    let Ok(there) = fs::symlink_metadata(rt, beside) else {
        return false;
    };
    if !there.is_file() {
        return true;
    }
    if let Ok(file) = File::open(rt, beside) {
        // The lock is held until the file is removed: its maker may not have taken it yet.
        if file.try_lock().is_ok() && is_under(rt, &file, beside) {
            let _ = fs::remove_file(rt, beside);
        }
    }
    true
}

/// Gives a new file the mode, the group and the owner of the one that it is to replace, as far as the system lets it.
fn keep_attributes<R: Files<File = File>>(rt: &R, file: &File, beside: &str, older: &Metadata) {
    let _ = lchown(rt, beside, None, Some(older.gid()));
    let _ = lchown(rt, beside, Some(older.uid()), None);
    let _ = file.set_permissions(older.permissions());
}

/// A file that was made, its name, and how many more bytes it may have. It is open until the device has taken it.
#[derive(Drop)]
struct Made<A: Allocator> {
    file: Option<File>,
    beside: String<A>,
    room: u64,
}

impl<A: Allocator> Made<A> {
    fn append(&mut self, bytes: &[u8]) -> Result<(), WriteFault> {
        let Some(room) = self.room.checked_sub(bytes.len() as u64) else {
            return Err(WriteFault);
        };
        self.room = room;
        match &mut self.file {
            Some(file) => write_bytes(file, bytes),
            None => Err(WriteFault),
        }
    }

    /// Goes back to its first byte, and returns the file to be read.
    fn read_again(&mut self) -> Option<&mut File> {
        let file = self.file.as_mut()?;
        match file.seek(SeekFrom::Start(0)) {
            Ok(_) => Some(file),
            Err(_) => None,
        }
    }

    /// Waits until the device has what was written, and closes the file.
    fn settle(&mut self) -> Result<(), WriteFault> {
        match self.file.take() {
            Some(file) => file.sync_all().map_err(|_| WriteFault),
            None => Ok(()),
        }
    }
}

/// A new file beside the name onto which it is moved at the end, or that one of these steps failed. It does not show its bytes.
///
/// If a step fails, what is under the name is as it was, and the new file is removed if that can be done. One that is dropped,
/// and neither put nor removed, stays.
#[derive(Drop)]
pub struct WholeFile<A: Allocator> {
    made: Option<Made<A>>,
    has_failed: bool,
}

impl<A: Allocator + Copy> WholeFile<A> {
    /// Makes one that has failed: it could not be made.
    pub(crate) fn failed() -> WholeFile<A> {
        WholeFile {
            made: None,
            has_failed: true,
        }
    }

    /// Makes a file of no bytes beside this name, or one that has failed if it could not be made. The name's folder is not made.
    pub(crate) fn beside<R: Files<File = File>>(
        rt: &R,
        alloc: A,
        name: &str,
    ) -> Result<WholeFile<A>, AllocError> {
        let room = greatest_size(rt, alloc)?;
        match create_beside(rt, alloc, name) {
            Ok((file, beside)) => {
                if let Ok(older) = fs::symlink_metadata(rt, name) {
                    if older.is_file() {
                        keep_attributes(rt, &file, &beside, &older);
                    }
                }
                Ok(WholeFile {
                    made: Some(Made {
                        file: Some(file),
                        beside,
                        room,
                    }),
                    has_failed: false,
                })
            }
            Err(FolderFault::Memory) => Err(AllocError),
            Err(FolderFault::Device) => Ok(WholeFile::failed()),
        }
    }

    /// Goes back to its first byte, and returns the file to be read, if nothing of it failed.
    fn read_again(&mut self) -> Option<&mut File> {
        if self.has_failed {
            return None;
        }
        let made = self.made.as_mut()?;
        made.read_again()
    }

    /// Appends all that another one has. If that cannot be read, or something of it failed before, this has failed.
    pub(crate) fn take_in(&mut self, alloc: A, part: &mut WholeFile<A>) -> Result<(), AllocError> {
        let mut piece = vec![in alloc; 0u8; CHUNK]?;
        let Some(file) = part.read_again() else {
            self.has_failed = true;
            return Ok(());
        };
        self.append_all(file, &mut piece)
    }

    /// Appends what is left of an open file.
    fn append_all(&mut self, file: &mut File, piece: &mut [u8]) -> Result<(), AllocError> {
        for _turn in 0..u64::MAX {
            match file.read(piece) {
                Ok(0) => return Ok(()),
                Ok(count) => self.append(&piece[..count])?,
                Err(e) => {
                    if e.kind() != ErrorKind::Interrupted {
                        break;
                    }
                }
            }
        }
        self.has_failed = true;
        Ok(())
    }

    /// Returns whether the device has taken it.
    pub(crate) fn is_settled(&self) -> bool {
        match &self.made {
            Some(made) => made.file.is_none(),
            None => false,
        }
    }

    /// Has the device take its bytes; if that fails, or something failed before, it is removed.
    pub(crate) fn settle<R: Files<File = File>>(
        mut self,
        rt: &R,
    ) -> Result<WholeFile<A>, WriteFault> {
        if let Some(made) = &mut self.made {
            if !self.has_failed && made.settle().is_ok() {
                return Ok(self);
            }
        }
        self.remove(rt);
        Err(WriteFault)
    }

    /// Removes the files beside this name that killed runs have left, but not its own.
    pub(crate) fn remove_others<R: Files<File = File>>(&self, rt: &R, alloc: A, name: &str) {
        let Some(made) = &self.made else {
            return;
        };
        let mut free = 0u8;
        for number in 0..NAMES {
            let Ok(beside) = name_beside(alloc, name, number) else {
                return;
            };
            let is_used = beside == made.beside || remove_left(rt, &beside);
            free = if is_used { 0 } else { free.saturating_add(1) };
            if free == FREE_NAMES {
                return;
            }
        }
    }

    /// Moves it onto a name once the device has its bytes; if that fails, it is removed.
    pub(crate) fn put<R: Files<File = File>>(self, rt: &R, name: &str) -> Result<(), WriteFault> {
        let settled = self.settle(rt)?;
        if let Some(made) = &settled.made {
            if fs::rename(rt, made.beside.as_str(), name).is_ok() {
                return Ok(());
            }
        }
        settled.remove(rt);
        Err(WriteFault)
    }

    /// Removes it.
    pub(crate) fn remove<R: Files<File = File>>(self, rt: &R) {
        if let Some(made) = self.made {
            let _ = fs::remove_file(rt, made.beside.as_str());
        }
    }
}

impl<A: Allocator> NewFile for WholeFile<A> {
    fn append(&mut self, bytes: &[u8]) -> Result<(), AllocError> {
        if self.has_failed {
            return Ok(());
        }
        if let Some(made) = &mut self.made {
            self.has_failed = made.append(bytes).is_err();
        }
        Ok(())
    }
}
