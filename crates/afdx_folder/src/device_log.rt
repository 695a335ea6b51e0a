//! A folder's failures, what it had opened and could not be read, and how many new files its device has.

ghost use Rattle.std.specs.Prelude.{◌≡◌, None, option_map, string_bytes};
ghost use Rattle.afdx_folder.specs.Files.{IsCause, IsUnreadCause, one_settled};

use crate::folder::FolderFault;
use std::alloc::Allocator;
use std::marker::Model;

/// How often a folder failed, how often what it had opened could not be read, and how many new files its device has taken, as far as 64
/// bits go; and the names that the last failure was for, and the last that could not be read.
#[derive(Debug, Drop)]
pub struct DeviceLog<A: Allocator> {
    alloc: A,
    count: u64,
    last: Option<String<A>>,
    unread: u64,
    last_unread: Option<String<A>>,
    settled: u64,
}

impl<A: Allocator> Model for DeviceLog<A> {
    ghost use Rattle.std.specs.Prelude.{option_map, string_bytes};
    ghost use Rattle.afdx_folder.specs.Files.{DeviceLog as Seen};

    ghost Value = { Seen };

    ghost view = { λ log. record {
      count = log.count;
      last = option_map string_bytes log.last;
      unread = log.unread;
      last_unread = option_map string_bytes log.last_unread;
      settled = log.settled;
    } };
}

impl<A: Allocator + Copy> DeviceLog<A> {
    /// Makes the log of no failure, of nothing that could not be read, and of no new file. O(1).
    pub fn new(alloc: A) -> DeviceLog<A>
        ensures { result ≡ record { count = 0; last = None; unread = 0; last_unread = None; settled = 0 } }
    {
        DeviceLog {
            alloc,
            count: 0,
            last: None,
            unread: 0,
            last_unread: None,
            settled: 0,
        }
    }

    /// Counts a failure for this name, and returns it as a fault. If memory for a copy of the name is refused, that is the fault
    /// instead, and nothing is counted. O(name).
    pub fn note(&mut self, name: &str) -> FolderFault
        ensures { IsCause result name.now self.old self.new }
    {
        let Ok(name) = String::from_str(self.alloc, name) else {
            return FolderFault::Memory;
        };
        self.count = self.count.saturating_add(1);
        self.last = Some(name);
        FolderFault::Device
    }

    /// Counts that what was opened under this name could not be read, and returns it as a fault. If memory for a copy of the name is
    /// refused, that is the fault instead, and nothing is counted. O(name).
    pub fn note_unread(&mut self, name: &str) -> FolderFault
        ensures { IsUnreadCause result name.now self.old self.new }
    {
        let Ok(name) = String::from_str(self.alloc, name) else {
            return FolderFault::Memory;
        };
        self.unread = self.unread.saturating_add(1);
        self.last_unread = Some(name);
        FolderFault::Device
    }

    /// Counts a new file that the device has taken. O(1).
    pub fn note_settled(&mut self)
        ensures { self.new ≡ one_settled self.old }
    {
        self.settled = self.settled.saturating_add(1);
    }

    /// Returns the count of failures, which stays at its greatest value once it is there. O(1).
    pub fn count(&self) -> u64
        ensures { result ≡ self.now.count }
    {
        self.count
    }

    /// Returns the name that the last failure was for, if there was one. O(1).
    pub fn last(&self) -> Option<&str>
        ensures { option_map (λ name. name.now) result ≡ self.now.last }
    {
        match &self.last {
            Some(name) => Some(name.as_str()),
            None => None,
        }
    }

    /// Returns the name of what could not be read at last, if there was such a thing. O(1).
    pub fn last_unread(&self) -> Option<&str>
        ensures { option_map (λ name. name.now) result ≡ self.now.last_unread }
    {
        match &self.last_unread {
            Some(name) => Some(name.as_str()),
            None => None,
        }
    }
}
