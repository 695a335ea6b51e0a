//! A folder of files.

ghost use Rattle.std.specs.Prelude.{◌≡◌, [], Option, Some, None, IfOk, IfSome, OnOk};
ghost use Rattle.std.specs.Io.KnownBytes.{Appends};
ghost use Rattle.afdx_folder.specs.Files.{Files, DeviceLog, Shows, IsOpened, KeepsFiles, PutsFile, KeepsOthers, IsUnreadCause, HasCause, HasSettled};

use crate::input::InputFault;
use crate::new_file::NewFile;
use std::alloc::{AllocError, AllocFailed, Allocator};
use std::io::Read;
use thiserror::Error;

/// Why a file was not got or put. Each message is its variant's name.
#[derive(Clone, Copy, Debug, PartialEq, Eq, Error)]
pub enum FolderFault {
    /// Out of memory.
    #[error("Memory")]
    Memory,
    /// The folder failed; a file that is not there is such a failure.
    #[error("Device")]
    Device,
}

impl From<AllocError> for FolderFault {
    ghost use Rattle.afdx_folder.specs.declared.folder.FolderFault.TheVariants.{Memory};

    ghost from_gives = { λ _ fault. fault ≡ Memory };

    fn from(_error: AllocError) -> FolderFault {
        FolderFault::Memory
    }
}

impl<T: Drop> From<AllocFailed<T>> for FolderFault {
    ghost use Rattle.afdx_folder.specs.declared.folder.FolderFault.TheVariants.{Memory};

    ghost from_gives = { λ _ fault. fault ≡ Memory };

    fn from(_error: AllocFailed<T>) -> FolderFault {
        FolderFault::Memory
    }
}

impl From<InputFault> for FolderFault {
    ghost use Rattle.afdx_folder.specs.Inner.Faults.{folder_fault};

    ghost from_gives = { λ fault given. given ≡ folder_fault fault };

    fn from(e: InputFault) -> FolderFault {
        match e {
            InputFault::Memory => FolderFault::Memory,
            InputFault::Device => FolderFault::Device,
        }
    }
}

/// A folder, by the bytes that are under each name. It counts its failures, what it had opened and could not be read, and the new files
/// that its device has taken, and keeps the names of the last failure and of the last that could not be read.
pub trait Folder {
    /// A file that is written in parts, before it is put.
    type New: NewFile + Drop;

    /// A file that was opened to be read in pieces.
    type Opened: Read + Drop;

    /// The files, if it shows them.
    ghost files: { Self → Option Files } = { λ _. None };
    /// How often it has failed, how often what it had opened could not be read, and how many new files it has settled, as far as 64 bits
    /// go; and the names that the last call that failed was for, and the last that could not be read.
    ghost failed: { Self → DeviceLog };

    /// Gets the bytes that are under a name.
    ///
    /// # Errors
    ///
    /// `Memory` if memory ran out; `Device`, counted, if the folder failed or has no such file.
    ///
    /// O(bytes of the file).
    fn get<A: Allocator + Copy>(&mut self, alloc: A, name: &str) -> Result<Vec<u8, A>, FolderFault>
        ensures bytes { IfOk result (λ v. Shows (files self.old) name.now v.items) }
        ensures same { KeepsFiles (files self.old) (files self.new) }
        ensures cause { HasCause name.now (failed self.old) (failed self.new) result };

    /// Opens the file under a name, to be read in pieces, once. A pipe is opened as well, which waits for whoever writes into it.
    ///
    /// # Errors
    ///
    /// `Memory` if memory ran out; `Device`, counted, if it was not opened; a file that is not there is such a failure.
    ///
    /// O(name).
    fn open(&mut self, name: &str) -> Result<Self::Opened, FolderFault>
        ensures bytes { IfOk result (λ file. IsOpened (files self.old) name.now (Self.Opened.remaining file)) }
        ensures same { KeepsFiles (files self.old) (files self.new) }
        ensures cause { HasCause name.now (failed self.old) (failed self.new) result };

    /// Counts that what was opened under a name could not be read, beside the failures, which this leaves, and returns it as a fault.
    /// `Memory` if memory ran out: then nothing is counted. O(name).
    fn note_unread(&mut self, name: &str) -> FolderFault
        ensures same { KeepsFiles (files self.old) (files self.new) }
        ensures cause { IsUnreadCause result name.now (failed self.old) (failed self.new) };

    /// Begins a new file of no bytes, to be put under a name. Nothing else changes, and a failure of the device is answered when the
    /// file is settled or put. An error says that memory ran out.
    ///
    /// O(name).
    fn begin(&mut self, name: &str) -> Result<Self::New, AllocError>
        ensures bytes { IfOk result (λ new. IfSome (files self.old) (λ _. Self.New.contents new ≡ Some [])) }
        ensures same { KeepsFiles (files self.old) (files self.new) }
        ensures failed { failed self.new ≡ failed self.old };

    /// Has the device take a new file that is to be put under the name that it was begun for, and says what has failed of it so far.
    /// Nothing that is under a name changes. After an error the new file is gone.
    ///
    /// # Errors
    ///
    /// `Memory` if memory ran out; `Device`, counted, if the device failed since the file was begun, or it is known that the file
    /// cannot be put.
    ///
    /// O(bytes).
    fn settle(&mut self, new: Self::New, name: &str) -> Result<Self::New, FolderFault>
        ensures bytes { IfOk result (λ settled. Self.New.contents settled ≡ Self.New.contents new) }
        ensures same { KeepsFiles (files self.old) (files self.new) }
        ensures cause { HasSettled name.now (failed self.old) (failed self.new) result };

    /// Puts a new file under the name that it was begun for, in place of what is there. After an error it is gone, and nothing
    /// is said of what is there.
    ///
    /// # Errors
    ///
    /// `Memory` if memory ran out; `Device`, counted, if the folder failed, also if it did since the file was begun.
    ///
    /// O(bytes).
    fn put_new(&mut self, new: Self::New, name: &str) -> Result<(), FolderFault>
        ensures bytes { OnOk result (IfSome (Self.New.contents new)
            (λ bytes. PutsFile (files self.old) (files self.new) name.now bytes)) }
        ensures others { KeepsOthers (files self.old) (files self.new) name.now }
        ensures cause { HasCause name.now (failed self.old) (failed self.new) result };

    /// Appends all that a new file has to another one, and lets it go. Nothing else changes, and a failure of either is answered when the other
    /// one is settled or put. An error says that memory ran out; nothing is said then of what that one has.
    ///
    /// O(bytes).
    fn join(&mut self, new: &mut Self::New, part: Self::New) -> Result<(), AllocError>
        ensures bytes { OnOk result (IfSome (Self.New.contents part) (λ bytes. Appends (Self.New.contents new.old) (Self.New.contents new.new) bytes)) }
        ensures same { KeepsFiles (files self.old) (files self.new) }
        ensures failed { failed self.new ≡ failed self.old };

    /// Lets a new file go. Nothing else changes, and no failure is counted.
    fn abandon(&mut self, new: Self::New)
        ensures same { KeepsFiles (files self.old) (files self.new) }
        ensures failed { failed self.new ≡ failed self.old };

    /// Returns the count of failures, without what could not be read, which stays at its greatest value once it is there. O(1).
    fn failures(&self) -> u64
        ensures { result ≡ (failed self.now).count };
}
