//! Links that are read one by one, each from its own text, so that no tree of the whole text is made.

ghost use Rattle.std.specs.Prelude.{◌≡◌, ◌≤◌, ◌∷◌, [], true, false, Some, Ok, length, IfSome, MatchOption};
ghost use Rattle.toml.specs.Data.{Members};
ghost use Rattle.toml.specs.View.{view, table_view};
ghost use Rattle.toml.specs.Parse.{ends_line, parse_document};
ghost use Rattle.afdx_toml_split.specs.Joined.{joined, is_plain, are_plain};
ghost use Rattle.afdx_table.specs.Links.{has_link, link_at};
ghost use Rattle.afdx_table.specs.Inner.Apart.{AreReadApart};

use crate::fault::At;
use crate::limits::MAX_LINKS;
use crate::link_map::LinkMap;
use crate::links::read_link;
use crate::pairs::read_pairs;
use crate::rows::{LinkRow, PortRow};
use crate::values::Source;
use afdx_toml_split::laws::links_are_read_apart;
use std::alloc::Global;
use toml::{Table as Tree, Value};

/// The header of a link, after the line before it.
const HEADER: &str = "\n[[link]]";

/// Splits a text at the first header of a link, into what comes before and what comes after it. If there is no header, or if it
/// shares its line, returns all of the text, and nothing after it.
pub(crate) fn cut(text: &str) -> (&str, Option<&str>)
    ensures { MatchOption result.1 (result.0.now ≡ text.now)
        (λ behind. (text.now ≡ joined result.0.now (behind.now ∷ [])) × (ends_line behind.now ≡ true)) }
{
    match text.split_once(HEADER) {
        Some((before, behind)) if behind.starts_with('\n') => (before, Some(behind)),
        _ => (text, None),
    }
}

/// Returns whether a value is neither a table nor an array that ends in one.
pub(crate) fn is_plain(value: &Value) -> bool
    ensures { result ≡ is_plain (view value.now) }
{
    match value.as_array() {
        Some(items) => match items.last() {
            Some(last) => last.as_table().is_none(),
            None => true,
        },
        None => value.as_table().is_none(),
    }
}

/// Returns whether each value of a table is plain.
fn are_plain(tree: &Tree) -> bool
    ensures { result ≡ are_plain (table_view tree.now) }
{
    for (_, value) in tree.iter() {
        if !is_plain(value) {
            return false;
        }
    }
    true
}

/// Reads a link from its own text, after the ports and the links before it; none if it is not read so.
fn read_one(
    alloc: Global,
    version: u64,
    at: At,
    text: &str,
    ports: &[PortRow],
    before: &LinkMap,
) -> Option<LinkRow>
    requires few { length ports.now ≤ 24 }
    ensures { IfSome result (λ r. (has_link before.now r.id ≡ false) × ((ms : Members) × (parse_document text.now ≡ Some ms) × (are_plain ms ≡ true)
        × (link_at version at ports.now before.now ms ≡ Ok r))) }
{
    if let Some(pairs) = read_pairs(alloc, text) {
        return read_link(alloc, version, at, Source::Pairs(&pairs), ports, before).ok();
    }
    let tree = toml::table_from_str(alloc, text).ok()?;
    if !are_plain(&tree) {
        return None;
    }
    read_link(alloc, version, at, Source::Tree(&tree), ports, before).ok()
}

/// Reads the links of these texts, which stand one after another with a header before each but the first; none if they are not
/// read so.
pub(crate) fn read_apart(
    alloc: Global,
    version: u64,
    ports: &[PortRow],
    texts: &str,
) -> Option<LinkMap>
    requires few { length ports.now ≤ 24 }
    requires own_line { ends_line texts.now ≡ true }
    ensures { IfSome result (λ links. AreReadApart version ports.now 0 [] texts.now links) }
{
    let mut links = LinkMap::new(alloc);
    let mut rest = texts;
    for index in 0..MAX_LINKS {
        let (text, behind) = cut(rest);
        let row = read_one(alloc, version, At::Link(index + 1), text, ports, &links)?;
        links.push(row).ok()?;
        match behind {
            Some(behind) => rest = behind,
            None => return Some(links),
        }
    }
    None
}
