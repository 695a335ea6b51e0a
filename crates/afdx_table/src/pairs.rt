//! The keys and values of a link's text whose lines are each written `key = value`, so that no tree of the text is made.

ghost use Rattle.std.specs.Prelude.{◌≡◌, ℕ, List, ◌==◌, ◌++◌, ◌∷◌, true, false, Some, IfSome, MatchOption, slice_index, codes};
ghost use Rattle.std.specs.List.{list_any};
ghost use Rattle.toml.specs.View.{view};
ghost use Rattle.toml.specs.Parse.{parse_document, parse_value};
ghost use Rattle.toml.specs.Tables.{close};
ghost use Rattle.afdx_toml_split.specs.Joined.{are_plain};
ghost use Rattle.afdx_table.specs.Names.{key_text};
ghost use Rattle.afdx_table.specs.Inner.Slots.{key_place};
ghost use Rattle.afdx_table.specs.Inner.Pairs.{nodes_in, ReadsLines};

use crate::apart::is_plain;
use crate::fault::Key;
use crate::values::{key_named, place_of};
use std::alloc::Global;
use toml::Value;

/// The most keys of a link.
const LINK_KEYS: usize = 8;

/// The first byte of a byte order mark, which may stand before a value that is read by itself, and not before one in a text.
const MARK: u8 = 0xEF;

/// Returns the first byte of a text, or 0.
fn first_byte(text: &str) -> u8
    ensures { result ≡ slice_index text.now 0 }
{
    text.as_bytes().first().copied().unwrap_or(0)
}

/// Splits a text at its first line feed; if there is none, returns all of the text.
fn cut_line(text: &str) -> (&str, Option<&str>)
    ensures { MatchOption result.1 (result.0.now ≡ text.now) (λ behind. text.now ≡ result.0.now ++ 10 ∷ behind.now) }
{
    match text.split_once('\n') {
        Some((line, behind)) => (line, Some(behind)),
        None => (text, None),
    }
}

/// Returns whether one of these pairs has the key.
fn has_key(pairs: &[(Key, Value)], key: Key) -> bool
    ensures { result ≡ list_any (λ p. key_place p.0 == key_place key) pairs.now }
{
    for pair in pairs {
        if place_of(pair.0) == place_of(key) {
            return true;
        }
    }
    false
}

/// Reads a line as a key and its value; none if it is not written so, or if no table has the key.
fn read_pair(alloc: Global, line: &str) -> Option<(Key, Value)>
    ensures { IfSome result (λ p. (text : List ℕ) × (line.now ≡ key_text p.0 ++ codes " = " ++ text) × ((slice_index text 0 == 239) ≡ false)
        × (parse_value text ≡ Some (view p.1))) }
{
    let (before, after) = line.split_once('=')?;
    let name = before.strip_suffix(' ')?;
    let text = after.strip_prefix(' ')?;
    let key = key_named(name)?;
    if first_byte(text) == MARK {
        return None;
    }
    let value = Value::from_str(alloc, text).ok()?;
    Some((key, value))
}

/// Reads a line after others, and adds its key and value to theirs; none if it is neither empty nor written so, if the key is there
/// already, or if the value is not plain.
fn add_line(alloc: Global, pairs: &mut Vec<(Key, Value)>, line: &str) -> Option<()>
    ensures { IfSome result (λ _. ReadsLines pairs.old.items line.now pairs.new.items) }
{
    if line.is_empty() {
        return Some(());
    }
    let (key, value) = read_pair(alloc, line)?;
    if has_key(pairs, key) || !is_plain(&value) {
        return None;
    }
    pairs.push((key, value)).ok()?;
    Some(())
}

/// Reads the keys and values of a link's text, which begins with a line end, and of which each line is empty or a key and its value;
/// none if it is not written so, if a key is there twice, or if a value is a table or an array that ends in one. O(text).
pub(crate) fn read_pairs(alloc: Global, text: &str) -> Option<Vec<(Key, Value)>>
    ensures { IfSome result (λ pairs. (parse_document text.now ≡ Some (close (nodes_in pairs.items))) × (are_plain (close (nodes_in pairs.items)) ≡ true)) }
{
    let mut rest = text.strip_prefix("\n")?;
    let mut pairs = Vec::with_capacity(alloc, LINK_KEYS).ok()?;
    'lines: loop {
        let (line, behind) = cut_line(rest);
        add_line(alloc, &mut pairs, line)?;
        match behind {
            Some(behind) => rest = behind,
            None => return Some(pairs),
        }
    }
}
