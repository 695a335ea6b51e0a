//! Policing by either kind.

ghost use Rattle.std.specs.Prelude.{◌≡◌, ◌≤◌, []};
ghost use Rattle.afdx_units.specs.declared.line.Speed.{Speed};
ghost use Rattle.afdx_units.specs.Line.{greatest_size};
ghost use Rattle.afdx_account.specs.Policing.{terms_by, weight_by};
ghost use Rattle.afdx_account.specs.Level.{IsLevelAfter};

use crate::byte_account::ByteAccount;
use crate::frame_account::FrameAccount;
use crate::meter::Meter;
use afdx_units::{Bag, Police, Speed, Stamp};

/// The account of a link, of the kind by which the link is policed.
#[derive(Clone, Copy, Debug)]
pub enum Account {
    /// By bytes.
    Byte(ByteAccount),
    /// By frames.
    Frame(FrameAccount),
}

impl Account {
    /// Makes a full account for frames of at most `max_size` bytes (at most 1518), with a jitter of at most 10 ms.
    pub fn new(police: Police, max_size: u32, bag: Bag, jitter_ns: u64) -> Account
        requires size_limit { max_size ≤ greatest_size }
        requires jitter_limit { jitter_ns ≤ 10000000 }
        ensures terms { ⟦<Account as Meter>⟧.terms result ≡ terms_by police max_size bag jitter_ns }
        ensures full { IsLevelAfter (terms_by police max_size bag jitter_ns) 0 (⟦<Account as Meter>⟧.level result 0) [] }
        ensures since { ⟦<Account as Meter>⟧.since result ≡ 0 }
        ensures weight { (speed : Speed) → ⟦<Account as Meter>⟧.weight_of result speed ≡ weight_by police max_size bag speed }
        ensures greatest { ⟦<Account as Meter>⟧.greatest result ≡ max_size }
    {
        match police {
            Police::Byte => Account::Byte(ByteAccount::new(max_size, bag, jitter_ns)),
            Police::Frame => Account::Frame(FrameAccount::new(max_size, bag, jitter_ns)),
        }
    }
}

impl Meter for Account {
    ghost use Rattle.afdx_account.specs.Account.{account_terms, account_since, account_level, account_weight, account_greatest};
    ghost use Rattle.afdx_account.specs.Inner.MeterLaws.{account_capped, account_credited, account_pays};

    ghost terms = { account_terms };

    ghost since = { account_since };

    ghost level = { account_level };

    ghost weight_of = { account_weight };

    ghost greatest = { account_greatest };

    ghost capped = { account_capped };

    ghost credited = { account_credited };

    ghost pays = { account_pays };

    fn cap(&self) -> u64 {
        match self {
            Account::Byte(account) => account.cap(),
            Account::Frame(account) => account.cap(),
        }
    }

    fn rate(&self) -> u64 {
        match self {
            Account::Byte(account) => account.rate(),
            Account::Frame(account) => account.rate(),
        }
    }

    fn price(&self, size: u32) -> u64 {
        match self {
            Account::Byte(account) => account.price(size),
            Account::Frame(account) => account.price(size),
        }
    }

    fn level_at(&self, at: Stamp) -> u64 {
        match self {
            Account::Byte(account) => account.level_at(at),
            Account::Frame(account) => account.level_at(at),
        }
    }

    fn weight(&self, speed: Speed) -> u64 {
        match self {
            Account::Byte(account) => account.weight(speed),
            Account::Frame(account) => account.weight(speed),
        }
    }

    fn offer(&mut self, at: Stamp, size: u32) -> bool {
        match self {
            Account::Byte(account) => account.offer(at, size),
            Account::Frame(account) => account.offer(at, size),
        }
    }
}
