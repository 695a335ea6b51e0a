//! The accounts of the links.

ghost use Rattle.std.specs.Prelude.{◌<◌, ◌≤◌, [], length, slice_index_or, IfOk};
ghost use Rattle.afdx_account.specs.declared.account.Account.{Account};
ghost use Rattle.afdx_account.specs.Account.{account_terms, account_since, account_level};
ghost use Rattle.afdx_account.specs.Early.{IsEarlyBy};
ghost use Rattle.afdx_core.specs.Kept.{AccountsAgree, Polices};

use crate::step::Row;
use afdx_account::{Account, Meter, early_by};
use afdx_table::Table;
use afdx_units::Stamp;
use std::alloc::{AllocError, Allocator};

/// Makes the accounts of a table's links, by the links' places, all full.
///
/// An error says that memory ran out. O(links).
pub fn accounts_of<A: Allocator + Copy>(
    alloc: A,
    table: &Table,
) -> Result<Vec<Account, A>, AllocError>
    ensures { IfOk result (λ accounts. AccountsAgree table.now.links [] 0 accounts.items) }
{
    let mut accounts = Vec::new(alloc);
    for place in 0..table.link_count() {
        let link = table.link_at(place).unwrap();
        accounts.push(Account::new(link.police, link.max_size, link.bag, link.jitter))?;
    }
    Ok(accounts)
}

/// Offers the frame of a row to the account at a place, and returns whether it is passed. O(1).
pub fn police(accounts: &mut [Account], place: usize, row: &Row) -> bool
    requires place { place < length accounts.old }
    requires in_order { (a : Account) → account_since (slice_index_or accounts.old place a) ≤ row.now.stamp }
    ensures { Polices result row.now place accounts.old accounts.new }
{
    accounts[place].offer(row.stamp, row.size)
}

/// Returns by how many nanoseconds a frame of this size would come too early at an instant for the account at a place. O(1).
pub fn early_at(accounts: &[Account], place: usize, at: Stamp, size: u32) -> u64
    requires place { place < length accounts.now }
    requires in_order { (a : Account) → account_since (slice_index_or accounts.now place a) ≤ at }
    requires credited { (a : Account) → 0 < (account_terms (slice_index_or accounts.now place a)).rate }
    ensures { (a : Account) → let own = slice_index_or accounts.now place a in IsEarlyBy (account_terms own) (account_since own) (account_level own (account_since own)) at size result }
{
    early_by(&accounts[place], at, size)
}
