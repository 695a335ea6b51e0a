//! What is reported of a table's refusal.

ghost use Rattle.std.specs.Prelude.{◌≡◌, ◌++◌, codes, IfOk, string_bytes};
ghost use Rattle.afdx_table.specs.Names.{key_text, place_text};
ghost use Rattle.afdx_messages.specs.Lines.{table_text, table_line};

use afdx_table::{At, Key, TableFault};
use std::alloc::{AllocError, Global};

/// Returns the text of a refusal that lies at a place.
fn at_place(alloc: Global, refusal: &str, at: At) -> Result<String, AllocError>
    ensures { IfOk result (λ text. string_bytes text ≡ codes "afdx: table " ++ refusal.now ++ codes ", " ++ place_text at) }
{
    let mut text = String::from_str(alloc, "afdx: table ")?;
    text.push_str(refusal)?;
    write!(text, ", {at}")?;
    Ok(text)
}

/// Returns the text of a refusal that lies in the value of a key.
fn at_key(alloc: Global, refusal: &str, at: At, key: Key) -> Result<String, AllocError>
    ensures { IfOk result (λ text. string_bytes text
        ≡ codes "afdx: table " ++ refusal.now ++ codes ", " ++ place_text at ++ codes ", " ++ key_text key) }
{
    let mut text = String::from_str(alloc, "afdx: table ")?;
    text.push_str(refusal)?;
    write!(text, ", {at}")?;
    write!(text, ", {key}")?;
    Ok(text)
}

/// Returns what is reported of a refusal, without its line feed.
pub(crate) fn table_text(alloc: Global, refusal: TableFault) -> Result<String, AllocError>
    ensures { IfOk result (λ text. string_bytes text ≡ table_text refusal) }
{
    match refusal {
        TableFault::Memory => String::from_str(alloc, "afdx: table C1 Memory"),
        TableFault::Toml => String::from_str(alloc, "afdx: table C2 Toml"),
        TableFault::UnknownKey(at) => at_place(alloc, "C3 UnknownKey", at),
        TableFault::MissingKey(at, key) => at_key(alloc, "C4 MissingKey", at, key),
        TableFault::Kind(at, key) => at_key(alloc, "C5 Kind", at, key),
        TableFault::Range(at, key) => at_key(alloc, "C6 Range", at, key),
        TableFault::Constant => String::from_str(alloc, "afdx: table C7 Constant"),
        TableFault::TwicePort(at) => at_place(alloc, "C8 TwicePort", at),
        TableFault::TwiceLink(at) => at_place(alloc, "C9 TwiceLink", at),
        TableFault::NoSuchPort(at) => at_place(alloc, "C10 NoSuchPort", at),
        TableFault::ToEmpty(at) => at_place(alloc, "C11 ToEmpty", at),
        TableFault::ToTwice(at) => at_place(alloc, "C12 ToTwice", at),
        TableFault::ToOwnPort(at) => at_place(alloc, "C13 ToOwnPort", at),
        TableFault::TooMany(key) => format!(in alloc; "afdx: table C14 TooMany, {key}"),
    }
}

/// Returns the line of a table's refusal.
///
/// An error says that memory ran out. O(line).
pub fn table_line(alloc: Global, refusal: TableFault) -> Result<String, AllocError>
    ensures { IfOk result (λ line. string_bytes line ≡ table_line refusal) }
{
    let mut line = table_text(alloc, refusal)?;
    line.push_str("\n")?;
    Ok(line)
}
