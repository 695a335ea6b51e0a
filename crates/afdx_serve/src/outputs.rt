//! The outputs of a run: new files, which are put under their names at the end, once the device has taken all of them.

ghost use Rattle.std.specs.Prelude.{◌≡◌, ℕ, List, length, map, string_bytes, Option, Some, IfOk, IfSome, MatchResult};
ghost use Rattle.afdx_folder.specs.Files.{Files, KeepsFiles, KeepsOthers, PutsFile, PutsFiles, one_settled, settled_after};
ghost use Rattle.afdx_serve.specs.Runs.{FailsToPut, FailsToPutOne};
ghost use Rattle.afdx_serve.specs.Inner.Outputs.{AreEmpty, HaveBytes, FailsToSettle, FailsToMove};

use crate::put::put_failure;
use afdx_folder::{Folder, NewFile};
use afdx_messages::Failure;
use std::alloc::{AllocError, Global};
use std::vec::IntoIter;

/// Lets these new files go.
pub(crate) fn abandon_all<F: Folder>(folder: &mut F, files: IntoIter<F::New>)
    ensures same { KeepsFiles (F.files folder.old) (F.files folder.new) }
    ensures failed { F.failed folder.new ≡ F.failed folder.old }
{
    for new in files {
        folder.abandon(new);
    }
}

/// Begins a new file for each of these names. If memory runs out, those that were begun are let go.
pub(crate) fn begin_all<F: Folder>(
    alloc: Global,
    folder: &mut F,
    names: &[String],
) -> Result<Vec<F::New>, AllocError>
    ensures count { IfOk result (λ files. length files.items ≡ length names.now) }
    ensures empty { IfOk result (λ files. AreEmpty F.New.contents (F.files folder.old) files.items) }
    ensures same { KeepsFiles (F.files folder.old) (F.files folder.new) }
    ensures failed { F.failed folder.new ≡ F.failed folder.old }
{
    let mut files = Vec::with_capacity(alloc, names.len())?;
    for name in names {
        match folder.begin(name) {
            Ok(new) => files.push_reserved(new),
            Err(refused) => {
                abandon_all(folder, files.into_iter());
                return Err(refused);
            }
        }
    }
    Ok(files)
}

/// Puts a new file under its name.
fn put_new<F: Folder>(alloc: Global, folder: &mut F, name: &str, new: F::New) -> Result<(), Failure>
    ensures put { MatchResult result
        (λ _. IfSome (F.New.contents new) (λ bytes. PutsFile (F.files folder.old) (F.files folder.new) name.now bytes)
        × (F.failed folder.new ≡ F.failed folder.old))
        (λ f. FailsToPutOne f name.now (F.failed folder.old) (F.failed folder.new)) }
    ensures others { KeepsOthers (F.files folder.old) (F.files folder.new) name.now }
{
    match folder.put_new(new, name) {
        Ok(()) => Ok(()),
        Err(fault) => Err(put_failure(alloc, name, fault)),
    }
}

/// Has the device take a new file that is to be put under this name.
fn settle<F: Folder>(
    alloc: Global,
    folder: &mut F,
    name: &str,
    new: F::New,
) -> Result<F::New, Failure>
    ensures settled { MatchResult result
        (λ settled. (F.New.contents settled ≡ F.New.contents new) × (F.failed folder.new ≡ one_settled (F.failed folder.old)))
        (λ f. FailsToPutOne f name.now (F.failed folder.old) (F.failed folder.new)) }
    ensures same { KeepsFiles (F.files folder.old) (F.files folder.new) }
{
    match folder.settle(new, name) {
        Ok(settled) => Ok(settled),
        Err(fault) => Err(put_failure(alloc, name, fault)),
    }
}

/// Has the device take the new files of these names, in order. After the first that fails none is left.
fn settle_all<F: Folder>(
    alloc: Global,
    folder: &mut F,
    names: &[String],
    files: Vec<F::New>,
) -> Result<Vec<F::New>, Failure>
    requires { length files.items ≡ length names.now }
    ensures count { IfOk result (λ settled. length settled.items ≡ length names.now) }
    ensures same { KeepsFiles (F.files folder.old) (F.files folder.new) }
    ensures settled { (first : Option Files) (all : List (List ℕ)) → HaveBytes F.New.contents first files.items all → MatchResult result
        (λ settled. HaveBytes F.New.contents first settled.items all × (F.failed folder.new ≡ settled_after (length names.now) (F.failed folder.old)))
        (λ f. FailsToSettle f (map string_bytes names.now) (F.failed folder.old) (F.failed folder.new)) }
{
    let mut files = files.into_iter();
    let Ok(mut settled) = Vec::with_capacity(alloc, names.len()) else {
        abandon_all(folder, files);
        return Err(Failure::Memory);
    };
    for name in names {
        let new = files.next().unwrap();
        match settle(alloc, folder, name, new) {
            Ok(new) => settled.push_reserved(new),
            Err(failure) => {
                abandon_all(folder, files);
                abandon_all(folder, settled.into_iter());
                return Err(failure);
            }
        }
    }
    Ok(settled)
}

/// Puts new files under these names, in order. After the first that fails the later ones are let go.
fn move_all<F: Folder>(
    alloc: Global,
    folder: &mut F,
    names: &[String],
    files: Vec<F::New>,
) -> Result<(), Failure>
    requires { length files.items ≡ length names.now }
    ensures { (first : Option Files) (all : List (List ℕ)) → KeepsFiles first (F.files folder.old) → length all ≡ length names.now
        → HaveBytes F.New.contents first files.items all → MatchResult result
        (λ _. PutsFiles first (F.files folder.new) (map string_bytes names.now) all × (F.failed folder.new ≡ F.failed folder.old))
        (λ f. FailsToMove f (map string_bytes names.now) all first (F.files folder.new) (F.failed folder.old) (F.failed folder.new)) }
{
    let mut files = files.into_iter();
    for name in names {
        let new = files.next().unwrap();
        if let Err(failure) = put_new(alloc, folder, name, new) {
            abandon_all(folder, files);
            return Err(failure);
        }
    }
    Ok(())
}

/// Puts new files under these names, in order, once the device has taken all of them. If one of them is known to fail before, none
/// is put; after the first that fails to be put the later ones are let go.
pub(crate) fn put_all<F: Folder>(
    alloc: Global,
    folder: &mut F,
    names: &[String],
    files: Vec<F::New>,
) -> Result<(), Failure>
    requires { length files.items ≡ length names.now }
    ensures { (first : Option Files) (all : List (List ℕ)) → KeepsFiles first (F.files folder.old) → length all ≡ length names.now
        → HaveBytes F.New.contents first files.items all → MatchResult result
        (λ _. PutsFiles first (F.files folder.new) (map string_bytes names.now) all × (F.failed folder.new ≡ settled_after (length (map string_bytes names.now)) (F.failed folder.old)))
        (λ f. FailsToPut f (map string_bytes names.now) all first (F.files folder.new) (F.failed folder.old) (F.failed folder.new)) }
{
    let settled = settle_all(alloc, folder, names, files)?;
    move_all(alloc, folder, names, settled)
}

/// Makes a new file of this text that the device has taken, to be put under this name. After an error there is none.
fn settle_text<F: Folder>(
    alloc: Global,
    folder: &mut F,
    name: &str,
    text: &[u8],
) -> Result<F::New, Failure>
    ensures settled { MatchResult result
        (λ settled. IfSome (F.files folder.old) (λ _. F.New.contents settled ≡ Some text.now) × (F.failed folder.new ≡ one_settled (F.failed folder.old)))
        (λ f. FailsToPutOne f name.now (F.failed folder.old) (F.failed folder.new)) }
    ensures same { KeepsFiles (F.files folder.old) (F.files folder.new) }
{
    let mut new = folder.begin(name)?;
    if new.append(text).is_err() {
        folder.abandon(new);
        return Err(Failure::Memory);
    }
    settle(alloc, folder, name, new)
}

/// Makes a new file for each of these names, of the text at its place, which the device has taken. After the first that fails none is left.
fn settle_texts<F: Folder>(
    alloc: Global,
    folder: &mut F,
    names: &[String],
    texts: &[Vec<u8>],
) -> Result<Vec<F::New>, Failure>
    requires { length texts.now ≡ length names.now }
    ensures count { IfOk result (λ settled. length settled.items ≡ length names.now) }
    ensures same { KeepsFiles (F.files folder.old) (F.files folder.new) }
    ensures settled { MatchResult result
        (λ settled. HaveBytes F.New.contents (F.files folder.old) settled.items (map (λ text. text.items) texts.now)
        × (F.failed folder.new ≡ settled_after (length names.now) (F.failed folder.old)))
        (λ f. FailsToSettle f (map string_bytes names.now) (F.failed folder.old) (F.failed folder.new)) }
{
    let mut settled = Vec::with_capacity(alloc, names.len())?;
    for place in 0..names.len() {
        match settle_text(alloc, folder, &names[place], &texts[place]) {
            Ok(new) => settled.push_reserved(new),
            Err(failure) => {
                abandon_all(folder, settled.into_iter());
                return Err(failure);
            }
        }
    }
    Ok(settled)
}

/// Puts a text under each of these names, in order, once the device has taken all of them; as `put_all`.
pub(crate) fn put_texts<F: Folder>(
    alloc: Global,
    folder: &mut F,
    names: &[String],
    texts: &[Vec<u8>],
) -> Result<(), Failure>
    requires { length texts.now ≡ length names.now }
    ensures { MatchResult result
        (λ _. PutsFiles (F.files folder.old) (F.files folder.new) (map string_bytes names.now) (map (λ text. text.items) texts.now)
        × (F.failed folder.new ≡ settled_after (length (map string_bytes names.now)) (F.failed folder.old)))
        (λ f. FailsToPut f (map string_bytes names.now) (map (λ text. text.items) texts.now)
        (F.files folder.old) (F.files folder.new) (F.failed folder.old) (F.failed folder.new)) }
{
    let settled = settle_texts(alloc, folder, names, texts)?;
    move_all(alloc, folder, names, settled)
}
