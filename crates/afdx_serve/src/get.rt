//! What is got from a folder.

ghost use Rattle.std.specs.Prelude.{◌≡◌, map, string_bytes, MatchResult};
ghost use Rattle.afdx_folder.specs.Files.{Shows, KeepsFiles, DeviceLog, IsCause, IsUnreadCause};
ghost use Rattle.afdx_serve.specs.Runs.{HasTable, FailsToGet, FailsToRead};
ghost use Rattle.afdx_serve.specs.Inner.Leading.{AreOpened, AreOpenedPorts};
ghost use Rattle.afdx_serve.specs.Inner.NotGot.{FailsToReadOn, FailsToGetNamed, FailsToOpenAll};

use crate::names::port_names;
use afdx_folder::{Folder, FolderFault};
use afdx_messages::Failure;
use afdx_table::Table;
use std::alloc::Global;

/// Gets the bytes of a file.
pub(crate) fn get<F: Folder>(alloc: Global, folder: &mut F, name: &str) -> Result<Vec<u8>, Failure>
    ensures got { MatchResult result
        (λ bytes. Shows (F.files folder.old) name.now bytes.items × (F.failed folder.new ≡ F.failed folder.old))
        (λ f. FailsToGet f name.now (F.failed folder.old) (F.failed folder.new)) }
    ensures same { KeepsFiles (F.files folder.old) (F.files folder.new) }
{
    match folder.get(alloc, name) {
        Ok(bytes) => Ok(bytes),
        Err(fault) => Err(get_failure(alloc, name, fault)),
    }
}

/// Gets the text of a table's file, which is leaked.
///
/// Given back, a block of its size would have the C library take such blocks from its heap from then on, where a list that grows is
/// copied, and not from the system, which moves its pages.
pub(crate) fn get_text<F: Folder>(
    alloc: Global,
    folder: &mut F,
    path: &str,
) -> Result<&'static [u8], Failure>
    ensures got { MatchResult result
        (λ text. Shows (F.files folder.old) path.now text.now × (F.failed folder.new ≡ F.failed folder.old))
        (λ f. FailsToGet f path.now (F.failed folder.old) (F.failed folder.new)) }
    ensures same { KeepsFiles (F.files folder.old) (F.files folder.new) }
{
    let text = get(alloc, folder, path)?;
    Ok(text.leak())
}

/// Gets the table of a file.
pub(crate) fn get_table<F: Folder>(
    alloc: Global,
    folder: &mut F,
    path: &str,
) -> Result<Table, Failure>
    ensures got { MatchResult result
        (λ table. HasTable (F.files folder.old) path.now table × (F.failed folder.new ≡ F.failed folder.old))
        (λ f. FailsToRead f (F.files folder.old) path.now (F.failed folder.old) (F.failed folder.new)) }
    ensures same { KeepsFiles (F.files folder.old) (F.files folder.new) }
{
    let text = get_text(alloc, folder, path)?;
    Ok(afdx_table::read(alloc, text)?)
}

/// Returns the failure of what was not got under this name, or was opened and could not be read, for a fault of the folder.
pub(crate) fn get_failure(alloc: Global, name: &str, fault: FolderFault) -> Failure
    ensures got { (before : DeviceLog) (after : DeviceLog) → IsCause fault name.now before after → FailsToGet result name.now before after }
    ensures unread { (before : DeviceLog) (after : DeviceLog) → IsUnreadCause fault name.now before after → FailsToReadOn result name.now before after }
{
    match fault {
        FolderFault::Memory => Failure::Memory,
        FolderFault::Device => match String::from_str(alloc, name) {
            Ok(name) => Failure::Get(name),
            Err(_) => Failure::Memory,
        },
    }
}

/// Notes that what was opened under this name could not be read, and returns the failure.
pub(crate) fn unread_failure<F: Folder>(alloc: Global, folder: &mut F, name: &str) -> Failure
    ensures failed { FailsToReadOn result name.now (F.failed folder.old) (F.failed folder.new) }
    ensures same { KeepsFiles (F.files folder.old) (F.files folder.new) }
{
    let fault = folder.note_unread(name);
    get_failure(alloc, name, fault)
}

/// Opens the files under these names, to be read in pieces.
///
/// # Errors
///
/// `Get` of the first that was not opened; `Memory` if memory ran out.
pub(crate) fn open_all<F: Folder>(
    alloc: Global,
    folder: &mut F,
    names: &[String],
) -> Result<Vec<F::Opened>, Failure>
    ensures opened { MatchResult result
        (λ opened. AreOpened F.Opened.remaining (F.files folder.old) (map string_bytes names.now) opened.items × (F.failed folder.new ≡ F.failed folder.old))
        (λ f. FailsToGetNamed f (F.files folder.old) (map string_bytes names.now) (F.failed folder.old) (F.failed folder.new)) }
    ensures same { KeepsFiles (F.files folder.old) (F.files folder.new) }
{
    let mut opened = Vec::with_capacity(alloc, names.len())?;
    for name in names {
        match folder.open(name) {
            Ok(file) => opened.push_reserved(file),
            Err(fault) => return Err(get_failure(alloc, name, fault)),
        }
    }
    Ok(opened)
}

/// Opens the captures of the table's ports in a folder, by rising number, to be read in pieces, and returns their names with them.
///
/// # Errors
///
/// `Get` of the first that was not opened; `Memory` if memory ran out.
pub(crate) fn open_captures<F: Folder>(
    alloc: Global,
    folder: &mut F,
    path: &str,
    table: &Table,
) -> Result<(Vec<String>, Vec<F::Opened>), Failure>
    ensures opened { MatchResult result
        (λ both. AreOpenedPorts F.Opened.remaining (F.files folder.old) path.now table.now (map string_bytes both.0.items) both.1.items
        × (F.failed folder.new ≡ F.failed folder.old))
        (λ f. FailsToOpenAll f (F.files folder.old) path.now table.now (F.failed folder.old) (F.failed folder.new)) }
    ensures same { KeepsFiles (F.files folder.old) (F.files folder.new) }
{
    let names = port_names(alloc, path, table.ports())?;
    let opened = open_all(alloc, folder, &names)?;
    Ok((names, opened))
}
