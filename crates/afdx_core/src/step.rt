//! What the switch answers.

ghost use Rattle.std.specs.Prelude.{◌≡◌};

use crate::offers::Offers;
use afdx_filter::Verdict;
use afdx_units::Stamp;
use std::marker::Model;
use thiserror::Error;

/// Why an arrival or an advance was refused. Each message is its variant's name.
#[derive(Clone, Copy, Debug, PartialEq, Eq, Error)]
pub enum CoreFault {
    /// The table has no port of this number.
    #[error("NoSuchPort")]
    NoSuchPort,
    /// The stamp is below that of an earlier arrival or advance.
    #[error("Earlier")]
    Earlier,
    /// Out of memory.
    #[error("Memory")]
    Memory,
}

/// What the switch did with a frame.
#[derive(Clone, Copy, Debug, PartialEq, Eq)]
pub enum Fate {
    /// The filter dropped it, for this verdict.
    Filtered(Verdict),
    /// The account of this link did not pass it.
    Policed(u16),
    /// The account of this link passed it, and it was offered to the link's ports.
    Passed(u16),
}

/// An arrival that was taken, as contracts see it.
#[derive(Clone, Copy, Debug, PartialEq, Eq)]
pub struct Row {
    /// The instant at which it had wholly come.
    pub stamp: Stamp,
    /// Its size in bytes, check sequence included.
    pub size: u32,
    /// What the filter says of it.
    pub verdict: Verdict,
    /// The number of the link that it names, if the filter found that link in the table.
    pub link: Option<u16>,
    /// The port at which it came in; last, as fields are in the order in which they are declared.
    pub in_port: u8,
}

/// What became of an arrival.
///
/// Contracts see it as a record of these fields, with the offers as a list of pairs. The offers are the last field: where a step shares
/// its room with a refused record, their ports then lie where the words of the record's bytes do, and are moved as words.
#[derive(Debug, Drop)]
pub struct Step {
    /// The number of arrivals that were taken before it.
    pub number: usize,
    /// The place of its link in the table's file order, from 0, as the filter found it; none if it is no
    /// link's. Contracts do not see it: it spares a look-up, and a caller that uses it checks that the link
    /// there has the number.
    pub place: Option<usize>,
    /// The port at which it came in.
    pub in_port: u8,
    pub fate: Fate,
    /// The ports that its link leads to, in the link's order, with the answer of each; none if it was not
    /// passed.
    pub offers: Offers,
}

impl Step {
    /// Makes the step that says what became of the arrival of this row.
    #[inline(always)]
    pub(crate) fn of(
        number: usize,
        row: &Row,
        fate: Fate,
        offers: Offers,
        place: Option<usize>,
    ) -> Step
        ensures { result ≡ record { number = number; in_port = row.now.in_port; fate = fate; offers = offers } }
    {
        Step {
            number,
            in_port: row.in_port,
            fate,
            offers,
            place,
        }
    }

    /// Makes a copy. O(1).
    #[inline(always)]
    pub fn copied(&self) -> Step
        ensures { result ≡ self.now }
    {
        Step {
            number: self.number,
            place: self.place,
            in_port: self.in_port,
            fate: self.fate,
            offers: self.offers.copied(),
        }
    }
}

impl Model for Step {
    ghost use Rattle.afdx_core.specs.Step.{Step as Seen};

    ghost Value = { Seen };

    ghost view = { λ s. record {
      number = s.number;
      in_port = s.in_port;
      fate = s.fate;
      offers = s.offers;
    } };
}
