//! The fields of one TOML table.

ghost use Rattle.std.specs.Prelude.{◌≡◌, ◌≤◌, IfOk, map, option_map, string_bytes};
ghost use Rattle.std.specs.List.{list_all};
ghost use Rattle.std.specs.Map.{keys_of};
ghost use Rattle.toml.specs.Data.{get_member};
ghost use Rattle.toml.specs.View.{view, table_view};
ghost use Rattle.afdx_table.specs.Fields.{natural_of};
ghost use Rattle.afdx_wiring.specs.Names.{key_text};
ghost use Rattle.afdx_wiring.specs.Refusal.{Gives};
ghost use Rattle.afdx_wiring.specs.Fields.{is_one_of, are_known, known_at, number_in, optional_number_at, flag_at, text_at, tables_at};

use crate::fault::{At, Key, NetworkFault};
use afdx_table::tables_of;
use std::alloc::Global;
use toml::{Table, Value};

/// Returns whether a text is one of these keys.
fn is_one_of(keys: &[Key], text: &str) -> bool
    ensures { result ≡ is_one_of keys.now text.now }
{
    keys.iter().any(|key| text == key.as_str())
}

/// Returns whether each key of a table is one of these, over the keys of the map.
fn are_keys_known(keys: &[Key], table: &Table) -> bool
    ensures { result ≡ list_all (λ k. is_one_of keys.now (string_bytes k)) (keys_of table.now.entries) }
{
    table.keys().all(|key| is_one_of(keys, key.as_str()))
}

/// Returns whether each key of a table is one of these.
fn are_known(keys: &[Key], table: &Table) -> bool
    ensures { result ≡ are_known keys.now (table_view table.now) }
{
    are_keys_known(keys, table)
}

/// Returns the number, if it is not negative.
fn natural(number: i64) -> Option<u64>
    ensures { result ≡ natural_of number }
{
    u64::try_from(number).ok()
}

/// Returns the number that a value is, from 0 to the greatest; else refuses its kind or its range.
#[tactic(auto, unfolding(crate::specs::Fields::number_in))]
fn number_in(at: At, key: Key, greatest: u64, value: &Value) -> Result<u64, NetworkFault>
    ensures number { Gives (λ n. n) result (number_in at key greatest (view value.now)) }
    ensures within { IfOk result (λ n. n ≤ greatest) }
{
    let Some(integer) = value.as_integer() else {
        return Err(NetworkFault::Kind(at, key));
    };
    match natural(integer) {
        Some(number) if number <= greatest => Ok(number),
        _ => Err(NetworkFault::Range(at, key)),
    }
}

/// The fields of one table, at its place.
#[derive(Clone, Copy)]
pub(crate) struct Fields<'a> {
    pub(crate) at: At,
    pub(crate) table: &'a Table,
}

impl<'a> Fields<'a> {
    /// Refuses a key that is none of these.
    #[tactic(auto, unfolding(crate::specs::Fields::known_at))]
    pub(crate) fn known(&self, keys: &[Key]) -> Result<(), NetworkFault>
        ensures { result ≡ known_at self.now.at keys.now (table_view self.now.table.now) }
    {
        if are_known(keys, self.table) {
            Ok(())
        } else {
            Err(NetworkFault::UnknownKey(self.at))
        }
    }

    /// Returns the value of a key, if it is there.
    fn find(&self, key: Key) -> Option<&'a Value>
        ensures { option_map (λ v. view v.now) result ≡ get_member (key_text key) (table_view self.now.table.now) }
    {
        self.table.get(key.as_str())
    }

    /// Reads an optional number from 0 to the greatest; if it is missing, this one.
    #[tactic(auto, unfolding(crate::specs::Fields::optional_number_at))]
    pub(crate) fn optional_number(
        &self,
        key: Key,
        greatest: u64,
        missing: u64,
    ) -> Result<u64, NetworkFault>
        requires { missing ≤ greatest }
        ensures number { Gives (λ n. n) result (optional_number_at self.now.at key greatest missing (table_view self.now.table.now)) }
        ensures within { IfOk result (λ n. n ≤ greatest) }
    {
        match self.find(key) {
            Some(value) => number_in(self.at, key, greatest, value),
            None => Ok(missing),
        }
    }

    /// Reads an optional truth value, false if it is missing.
    #[tactic(auto, unfolding(crate::specs::Fields::flag_at))]
    pub(crate) fn flag(&self, key: Key) -> Result<bool, NetworkFault>
        ensures { result ≡ flag_at self.now.at key (table_view self.now.table.now) }
    {
        match self.find(key) {
            Some(value) => value.as_bool().ok_or(NetworkFault::Kind(self.at, key)),
            None => Ok(false),
        }
    }

    /// Reads a required text.
    #[tactic(auto, unfolding(crate::specs::Fields::text_at))]
    pub(crate) fn text(&self, key: Key) -> Result<&'a str, NetworkFault>
        ensures { Gives (λ s. s.now) result (text_at self.now.at key (table_view self.now.table.now)) }
    {
        let Some(value) = self.find(key) else {
            return Err(NetworkFault::MissingKey(self.at, key));
        };
        value.as_str().ok_or(NetworkFault::Kind(self.at, key))
    }

    /// Reads an optional array of tables; none if it is missing.
    #[tactic(auto, unfolding(crate::specs::Fields::tables_at))]
    pub(crate) fn tables(&self, alloc: Global, key: Key) -> Result<Vec<&'a Table>, NetworkFault>
        ensures { Gives (λ v. map (λ t. table_view t.now) v.items) result (tables_at self.now.at key (table_view self.now.table.now)) }
    {
        let Some(value) = self.find(key) else {
            return Ok(Vec::new(alloc));
        };
        let Some(items) = value.as_array() else {
            return Err(NetworkFault::Kind(self.at, key));
        };
        tables_of(alloc, items)?.ok_or(NetworkFault::Kind(self.at, key))
    }
}
