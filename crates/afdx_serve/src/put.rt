//! Why a file was not put into a folder.

ghost use Rattle.afdx_folder.specs.Files.{DeviceLog, IsCause};
ghost use Rattle.afdx_serve.specs.Runs.{FailsToPutOne};

use afdx_folder::FolderFault;
use afdx_messages::Failure;
use std::alloc::Global;

/// Returns the failure of a put under this name.
pub(crate) fn put_failure(alloc: Global, name: &str, fault: FolderFault) -> Failure
    ensures { (before : DeviceLog) (after : DeviceLog) → IsCause fault name.now before after → FailsToPutOne result name.now before after }
{
    match fault {
        FolderFault::Memory => Failure::Memory,
        FolderFault::Device => match String::from_str(alloc, name) {
            Ok(name) => Failure::Put(name),
            Err(_) => Failure::Memory,
        },
    }
}
