//! The values of one TOML table, each in the place of its key.

ghost use Rattle.std.specs.Prelude.{◌≡◌, ◌<◌, ◌==◌, ℕ, true, false, MatchOption, option_map, slice_index_or};
ghost use Rattle.std.specs.List.{list_any};
ghost use Rattle.toml.specs.View.{view, table_view};
ghost use Rattle.afdx_table.specs.Fields.{are_known};
ghost use Rattle.toml.specs.Tables.{close};
ghost use Rattle.afdx_table.specs.Inner.Slots.{key_place, key_named, value_in, AreValues};
ghost use Rattle.afdx_table.specs.Inner.Pairs.{nodes_in, members_of};

use crate::fault::Key;
use toml::{Table, Value};

/// How many keys there are.
const KEYS: usize = 16;

/// Returns the place of a key.
pub(crate) fn place_of(key: Key) -> usize
    ensures place { result ≡ key_place key }
    ensures within { result < 16 }
{
    match key {
        Key::Version => 0,
        Key::Constant => 1,
        Key::Latency => 2,
        Key::Port => 3,
        Key::Link => 4,
        Key::Id => 5,
        Key::Mbit => 6,
        Key::Buffer => 7,
        Key::MaxDelay => 8,
        Key::From => 9,
        Key::To => 10,
        Key::Bag => 11,
        Key::Jitter => 12,
        Key::MaxSize => 13,
        Key::Priority => 14,
        Key::Police => 15,
    }
}

/// Returns the key that is written so, if there is one; those of links, of which there are most, are tried first.
pub(crate) fn key_named(text: &str) -> Option<Key>
    ensures { result ≡ key_named text.now }
{
    match text {
        "id" => Some(Key::Id),
        "from" => Some(Key::From),
        "to" => Some(Key::To),
        "bag_ms" => Some(Key::Bag),
        "jitter_us" => Some(Key::Jitter),
        "max_size" => Some(Key::MaxSize),
        "priority" => Some(Key::Priority),
        "police" => Some(Key::Police),
        "mbit" => Some(Key::Mbit),
        "buffer" => Some(Key::Buffer),
        "max_delay_us" => Some(Key::MaxDelay),
        "version" => Some(Key::Version),
        "constant" => Some(Key::Constant),
        "latency_us" => Some(Key::Latency),
        "port" => Some(Key::Port),
        "link" => Some(Key::Link),
        _ => None,
    }
}

/// Returns which places are those of these keys. O(keys).
fn places_of(keys: &[Key]) -> [bool; KEYS]
    ensures { (n : ℕ) → n < 16 → slice_index_or result n false ≡ list_any (λ k. key_place k == n) keys.now }
{
    let mut places = [false; KEYS];
    for key in keys {
        places[place_of(*key)] = true;
    }
    places
}

/// What the values of one table are read from: its tree, or its keys and values in the order of its text.
#[derive(Clone, Copy)]
pub(crate) enum Source<'a> {
    Tree(&'a Table),
    Pairs(&'a [(Key, Value)]),
}

/// The values of one table, each in the place of its key.
#[derive(Clone, Copy)]
pub(crate) struct Values<'a> {
    pub(crate) slots: [Option<&'a Value>; KEYS],
}

impl<'a> Values<'a> {
    /// Reads the values of a table; none if it has a key that is none of these.
    pub(crate) fn read(keys: &[Key], source: Source<'a>) -> Option<Values<'a>>
        ensures { MatchOption result (are_known keys.now (members_of source.entry) ≡ false)
            (λ v. (are_known keys.now (members_of source.entry) ≡ true) × AreValues v.slots (members_of source.entry)) }
    {
        match source {
            Source::Tree(table) => Values::of_tree(keys, table),
            Source::Pairs(pairs) => Values::of_pairs(keys, pairs),
        }
    }

    /// Reads the values of a tree; none if it has a key that is none of these.
    fn of_tree(keys: &[Key], table: &'a Table) -> Option<Values<'a>>
        ensures { MatchOption result (are_known keys.now (table_view table.now) ≡ false)
            (λ v. (are_known keys.now (table_view table.now) ≡ true) × AreValues v.slots (table_view table.now)) }
    {
        let places = places_of(keys);
        let mut slots = [None; KEYS];
        for (name, value) in table.iter() {
            let place = place_of(key_named(name.as_str())?);
            if !places[place] {
                return None;
            }
            if slots[place].is_none() {
                slots[place] = Some(value);
            }
        }
        Some(Values { slots })
    }

    /// Reads the values of these pairs, of which the last of a key counts; none if there is a key that is none of these.
    fn of_pairs(keys: &[Key], pairs: &'a [(Key, Value)]) -> Option<Values<'a>>
        ensures { MatchOption result (are_known keys.now (close (nodes_in pairs.now)) ≡ false)
            (λ v. (are_known keys.now (close (nodes_in pairs.now)) ≡ true) × AreValues v.slots (close (nodes_in pairs.now))) }
    {
        let places = places_of(keys);
        let mut slots = [None; KEYS];
        for pair in pairs {
            let place = place_of(pair.0);
            if !places[place] {
                return None;
            }
            slots[place] = Some(&pair.1);
        }
        Some(Values { slots })
    }

    /// Returns the value in the place of a key, if there is one. O(1).
    pub(crate) fn get(&self, key: Key) -> Option<&'a Value>
        ensures { option_map (λ v. view v.now) result ≡ value_in self.now.slots key }
    {
        let slots = &self.slots[..];
        slots[place_of(key)]
    }
}
