//! The fields of one TOML table.

ghost use Rattle.std.specs.Prelude.{◌≡◌, ◌≢◌, ◌≤◌, Result, Err, IfOk, IfErr, map, option_map};
ghost use Rattle.toml.specs.Data.{get_member};
ghost use Rattle.toml.specs.View.{view, items_view, table_view};
ghost use Rattle.afdx_table.specs.Refusal.{Gives, or_refuse, ◌>>=◌ as first_then};
ghost use Rattle.afdx_table.specs.Names.{key_text};
ghost use Rattle.afdx_table.specs.Inner.Room.{HasItems};
ghost use Rattle.afdx_table.specs.Inner.Slots.{AreValues};
ghost use Rattle.afdx_table.specs.Inner.Pairs.{members_of};
ghost use Rattle.afdx_table.specs.declared.fault.TableFault.TheVariants.{Memory, Kind};
ghost use Rattle.afdx_table.specs.Fields.{bounded_natural, known_at, value_at, number_in, text_in, number_at, bounded, bounded_at, text_at, optional_number_at};
ghost use Rattle.afdx_table.specs.Fields.{optional_text_at, tables_at, all_of, as_natural, all_bounded, numbers_at};

use crate::arrays::{natural, tables_of};
use crate::fault::{At, Key, TableFault};
use crate::limits::MAX_PORT_ID;
use crate::values::{Source, Values};
use std::alloc::Global;
use toml::{Table, Value};

/// Returns the number that a value is.
#[tactic(auto, unfolding(crate::specs::Fields::number_in))]
fn number_in(at: At, key: Key, value: &Value) -> Result<u64, TableFault>
    ensures number { Gives (λ n. n) result (number_in at key (view value.now)) }
    ensures no_memory { IfErr result (λ e. e ≢ Memory) }
{
    let Some(number) = value.as_integer() else {
        return Err(TableFault::Kind(at, key));
    };
    natural(number).ok_or(TableFault::Range(at, key))
}

/// Returns the text that a value is.
#[tactic(auto, unfolding(crate::specs::Fields::text_in))]
fn text_in(at: At, key: Key, value: &Value) -> Result<&str, TableFault>
    ensures text { Gives (λ s. s.now) result (text_in at key (view value.now)) }
    ensures no_memory { IfErr result (λ e. e ≢ Memory) }
{
    value.as_str().ok_or(TableFault::Kind(at, key))
}

/// Returns a number from `low` to `high`, and refuses any other.
#[tactic(auto, unfolding(crate::specs::Fields::bounded))]
pub(crate) fn bounded(at: At, key: Key, low: u64, high: u64, number: u64) -> Result<u64, TableFault>
    ensures value { result ≡ bounded at key low high number }
    ensures no_memory { IfErr result (λ e. e ≢ Memory) }
    ensures within { IfOk result (λ n. n ≤ high) }
{
    if low <= number && number <= high {
        Ok(number)
    } else {
        Err(TableFault::Range(at, key))
    }
}

/// Returns a whole number from `low` to `high`, and refuses any other.
#[tactic(auto, unfolding(crate::specs::Fields::bounded_natural))]
fn bounded_natural(
    at: At,
    key: Key,
    low: u8,
    high: u8,
    number: Option<u64>,
) -> Result<u8, TableFault>
    ensures { result ≡ bounded_natural at key low high number }
{
    match number {
        Some(number) => {
            let number = bounded(at, key, u64::from(low), u64::from(high), number)?;
            Ok(number as u8)
        }
        None => Err(TableFault::Range(at, key)),
    }
}

/// Returns the numbers of an array, each from `low` to `high`. O(items).
fn numbers_of(
    alloc: Global,
    at: At,
    key: Key,
    low: u8,
    high: u8,
    items: &[Value],
) -> Result<Vec<u8>, TableFault>
    ensures { Gives (λ v. v.items) result (first_then (or_refuse (Kind at key) (all_of as_natural (items_view items.now))) (all_bounded at key low high)) }
{
    let mut numbers = Vec::with_capacity(alloc, items.len())?;
    let mut are_within = true;
    for item in items {
        let Some(integer) = item.as_integer() else {
            return Err(TableFault::Kind(at, key));
        };
        match bounded_natural(at, key, low, high, natural(integer)) {
            Ok(number) => numbers.push(number).map_err(|_| TableFault::Memory)?,
            Err(_) => are_within = false,
        }
    }
    if !are_within {
        return Err(TableFault::Range(at, key));
    }
    Ok(numbers)
}

/// The fields of one table, at its place.
#[derive(Clone, Copy)]
pub(crate) struct Fields<'a> {
    pub(crate) at: At,
    pub(crate) source: Source<'a>,
    pub(crate) values: Values<'a>,
}

impl<'a> Fields<'a> {
    /// Reads the fields of a table, and refuses a key that is none of these.
    #[tactic(auto, unfolding(crate::specs::Fields::known_at))]
    pub(crate) fn read(at: At, keys: &[Key], source: Source<'a>) -> Result<Fields<'a>, TableFault>
        ensures known { Gives (λ _. tt) result (known_at at keys.now (members_of source.entry)) }
        ensures fields { IfOk result (λ f. (f.at ≡ at) × (members_of f.source ≡ members_of source.entry) × AreValues f.values.slots (members_of source.entry)) }
        ensures no_memory { IfErr result (λ e. e ≢ Memory) }
    {
        match Values::read(keys, source) {
            Some(values) => Ok(Fields { at, source, values }),
            None => Err(TableFault::UnknownKey(at)),
        }
    }

    /// Returns the value of a key, if it is there.
    fn find(&self, key: Key) -> Option<&'a Value>
        requires { AreValues self.now.values.slots (members_of self.now.source) }
        ensures { option_map (λ v. view v.now) result ≡ get_member (key_text key) (members_of self.now.source) }
    {
        self.values.get(key)
    }

    /// Returns the value of a required key.
    #[tactic(auto, unfolding(crate::specs::Fields::value_at))]
    fn value(&self, key: Key) -> Result<&'a Value, TableFault>
        requires { AreValues self.now.values.slots (members_of self.now.source) }
        ensures { Gives (λ v. view v.now) result (value_at self.now.at key (members_of self.now.source)) }
    {
        self.find(key).ok_or(TableFault::MissingKey(self.at, key))
    }

    /// Reads a required number.
    #[tactic(auto, unfolding(crate::specs::Fields::number_at))]
    pub(crate) fn number(&self, key: Key) -> Result<u64, TableFault>
        requires { AreValues self.now.values.slots (members_of self.now.source) }
        ensures { Gives (λ n. n) result (number_at self.now.at key (members_of self.now.source)) }
    {
        number_in(self.at, key, self.value(key)?)
    }

    /// Reads an optional number.
    #[tactic(auto, unfolding(crate::specs::Fields::optional_number_at))]
    pub(crate) fn optional_number(&self, key: Key) -> Result<Option<u64>, TableFault>
        requires { AreValues self.now.values.slots (members_of self.now.source) }
        ensures number { Gives (λ n. n) result (optional_number_at self.now.at key (members_of self.now.source)) }
        ensures no_memory { IfErr result (λ e. e ≢ Memory) }
    {
        let Some(value) = self.find(key) else {
            return Ok(None);
        };
        Ok(Some(number_in(self.at, key, value)?))
    }

    /// Reads a required number from `low` to `high`.
    #[tactic(auto, unfolding(crate::specs::Fields::bounded_at))]
    pub(crate) fn bounded(&self, key: Key, low: u64, high: u64) -> Result<u64, TableFault>
        requires { AreValues self.now.values.slots (members_of self.now.source) }
        ensures value { Gives (λ n. n) result (bounded_at self.now.at key low high (members_of self.now.source)) }
        ensures within { IfOk result (λ n. n ≤ high) }
    {
        let number = self.number(key)?;
        bounded(self.at, key, low, high, number)
    }

    /// Reads a required number of a port.
    pub(crate) fn port_id(&self, key: Key) -> Result<u8, TableFault>
        requires { AreValues self.now.values.slots (members_of self.now.source) }
        ensures { Gives (λ n. n) result (bounded_at self.now.at key 1 24 (members_of self.now.source)) }
    {
        let number = self.bounded(key, 1, u64::from(MAX_PORT_ID))?;
        Ok(number as u8)
    }

    /// Reads a required text.
    #[tactic(auto, unfolding(crate::specs::Fields::text_at))]
    pub(crate) fn text(&self, key: Key) -> Result<&'a str, TableFault>
        requires { AreValues self.now.values.slots (members_of self.now.source) }
        ensures { Gives (λ s. s.now) result (text_at self.now.at key (members_of self.now.source)) }
    {
        text_in(self.at, key, self.value(key)?)
    }

    /// Reads an optional text.
    #[tactic(auto, unfolding(crate::specs::Fields::optional_text_at))]
    pub(crate) fn optional_text(&self, key: Key) -> Result<Option<&'a str>, TableFault>
        requires { AreValues self.now.values.slots (members_of self.now.source) }
        ensures text { Gives (λ o. option_map (λ s. s.now) o) result (optional_text_at self.now.at key (members_of self.now.source)) }
        ensures no_memory { IfErr result (λ e. e ≢ Memory) }
    {
        let Some(value) = self.find(key) else {
            return Ok(None);
        };
        Ok(Some(text_in(self.at, key, value)?))
    }

    /// Reads an optional array of tables.
    #[tactic(auto, unfolding(crate::specs::Fields::tables_at))]
    pub(crate) fn tables(&self, alloc: Global, key: Key) -> Result<Vec<&'a Table>, TableFault>
        requires { AreValues self.now.values.slots (members_of self.now.source) }
        ensures tables { Gives (λ v. map (λ t. table_view t.now) v.items) result (tables_at self.now.at key (members_of self.now.source)) }
        ensures memory { result ≡ Err Memory → HasItems key (members_of self.now.source) }
    {
        let Some(value) = self.find(key) else {
            return Ok(Vec::new(alloc));
        };
        let Some(items) = value.as_array() else {
            return Err(TableFault::Kind(self.at, key));
        };
        tables_of(alloc, items)?.ok_or(TableFault::Kind(self.at, key))
    }

    /// Reads a required array of numbers, each from `low` to `high`.
    #[tactic(auto, unfolding(crate::specs::Fields::numbers_at))]
    pub(crate) fn numbers(
        &self,
        alloc: Global,
        key: Key,
        low: u8,
        high: u8,
    ) -> Result<Vec<u8>, TableFault>
        requires { AreValues self.now.values.slots (members_of self.now.source) }
        ensures { Gives (λ v. v.items) result (numbers_at self.now.at key low high (members_of self.now.source)) }
    {
        let value = self.value(key)?;
        let Some(items) = value.as_array() else {
            return Err(TableFault::Kind(self.at, key));
        };
        numbers_of(alloc, self.at, key, low, high, items)
    }
}
