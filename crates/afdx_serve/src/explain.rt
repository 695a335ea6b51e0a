//! The command `explain`.

ghost use Rattle.std.specs.Prelude.{MatchResult};
ghost use Rattle.afdx_serve.specs.Serving.{WritesEntry, FailsToWriteEntry};

use afdx_folder::write_bytes;
use afdx_messages::Failure;
use std::io::Write;

/// Writes the entry of a code.
///
/// # Errors
///
/// `Write`; a prefix of the entry was written then.
pub(crate) fn explain<O: Write>(entry: &str, out: &mut O) -> Result<(), Failure>
    ensures { MatchResult result (λ _. WritesEntry entry.now (O.contents out.old) (O.contents out.new))
        (λ f. FailsToWriteEntry f entry.now (O.contents out.old) (O.contents out.new)) }
{
    match write_bytes(out, entry.as_bytes()) {
        Ok(()) => Ok(()),
        Err(_) => Err(Failure::Write),
    }
}
