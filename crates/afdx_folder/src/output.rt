//! Writing without a second try.

ghost use Rattle.std.specs.Prelude.{OnOk};
ghost use Rattle.std.specs.Io.KnownBytes.{Appends};
ghost use Rattle.afdx_folder.specs.Output.{AppendsPrefix};

use std::io::Write;

/// A write failed, was interrupted or took nothing.
#[derive(Clone, Copy, Debug, PartialEq, Eq)]
pub struct WriteFault;

/// Writes all the bytes.
///
/// # Errors
///
/// A write that fails, is interrupted or takes nothing, which is not tried again; a prefix of the bytes was written then.
///
/// O(bytes), no memory.
pub fn write_bytes<W: Write>(out: &mut W, bytes: &[u8]) -> Result<(), WriteFault>
    ensures all { OnOk result (Appends (W.contents out.old) (W.contents out.new) bytes.now) }
    ensures prefix { AppendsPrefix (W.contents out.old) (W.contents out.new) bytes.now }
{
    let mut rest = bytes;
    while !rest.is_empty() {
        match out.write(rest) {
            Ok(0) | Err(_) => return Err(WriteFault),
            Ok(count) => rest = rest.split_at(count).1,
        }
    }
    Ok(())
}
